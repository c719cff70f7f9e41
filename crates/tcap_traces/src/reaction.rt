//! Judges an end whose peer sent a malformed message, by each reading of the dialogue.

ghost use Rattle.std.specs.Prelude.{◌≡◌, ◌≤◌, IfOk, List, Option, filter_map, is_some, length, option_map, take};
ghost use Rattle.std.specs.List.{find, list_all};
ghost use Rattle.tcap_record.specs.declared.entry.End.TheVariants as sides;
ghost use Rattle.tcap_judge.specs.BlameOutcome.{finding};
ghost use Rattle.tcap_record.specs.Ends.{other};
ghost use Rattle.tcap_readings.specs.Malformed.{next_malformed, within_limits};
ghost use Rattle.tcap_readings.specs.Readings.{reading_of};
ghost use Rattle.tcap_traces.specs.Reaction.{all_ways, blame_in, doubt_of_reaction, fails_by, goes_on, in_dialogue, in_reading, is_lawful, is_pass, is_unclear, is_wanted, is_wrong, last_blame, later, octets_at, reaction_result, reading_result, result_after, result_by_readings, result_by_way, result_from, result_of_blames, result_unblamed, results_of, taken_so, unheard_by, unless_after};

use crate::case::TraceEntry;
use crate::doubts::{doubt_of, is_begun_by_peer, is_from};
use crate::end_result::{Circumstances, Doubt, EndResult, ReactionFault, Taken};
use crate::judging::{fails, has_own, passes};
use std::alloc::{AllocError, Global};
use tcap_end::Table;
use tcap_judge::{Finding, blame_record};
use tcap_readings::{
    Malformed, Reading, Way, answer, copy_entries, first_malformed, goes_on_at, is_in_doubt,
    is_sole, is_wrong_at, next_malformed, read_by, read_malformed, within_limits,
};
use tcap_record::{End, Entry, Record};
use tcap_refute::Refutation;

/// The result for an end by a reading of its dialogue.
#[derive(Clone, Copy)]
struct ReadingResult {
    /// True if it is in doubt that the answer of the reading is one.
    in_doubt: bool,
    /// The result.
    result: EndResult,
}

/// The results by readings that are looked for.
#[derive(Clone, Copy)]
enum Wanted {
    /// A reading by which the end passes, without doubt.
    Pass,
    /// A reading by which the end may have sent its part, without doubt.
    SurelyLawful,
    /// A reading by which the end may have sent its part.
    Lawful,
    /// A reading by which it is open if the end may have sent its part, or if it is blamed.
    Unclear,
}

// ---- one reading

/// Returns the octets of the entry with this number.
fn octets_at(sent: &[TraceEntry], number: u64) -> &[u8]
    ensures { result.now ≡ octets_at sent.now number }
{
    match sent.get(number as usize) {
        Some(entry) => entry.octets.as_slice(),
        None => &[],
    }
}

/// Returns the finding on an end of a record. Fails if memory runs out.
fn find_one(alloc: Global, read: &Record, table: &Table, end: End) -> Result<Finding, AllocError>
    requires few { length read.now.entries.items ≤ 100000 }
    ensures { IfOk result (λ found. found ≡ finding table.now read.now.entries.items «end») }
{
    match blame_record(alloc, read, table)?.ends {
        Some(found) => Ok(match end {
            End::A => found.a,
            End::B => found.b,
        }),
        None => unreachable!(),
    }
}

/// Returns the number of unheard messages. A malformed message that is dropped counts.
fn unheard_by(way: Way, unheard: u64) -> u64
    ensures { result ≡ unheard_by way unheard }
{
    match way {
        Way::Dropped => unheard.saturating_add(1),
        _ => unheard,
    }
}

/// Returns the result for an end that may have sent its part if it took a malformed message in this way.
fn taken_so(taken: Taken, said: EndResult) -> EndResult
    ensures { result ≡ taken_so taken said }
{
    match said {
        EndResult::Pass(unheard) => EndResult::PassBy(taken, unheard),
        other => other,
    }
}

/// Returns a blame with the number of its entry in the dialogue.
fn in_dialogue(reading: &Reading, at: Refutation) -> Refutation
    ensures { result ≡ in_dialogue (reading_of reading.now) at }
{
    Refutation {
        entry: reading.number_in_dialogue(at.entry),
        kind: at.kind,
    }
}

/// Returns the circumstances of a reading, in which unreadable entries are not counted.
fn in_reading(circumstances: Circumstances) -> Circumstances
    ensures { result ≡ in_reading circumstances }
{
    Circumstances {
        unread_from: None,
        ..circumstances
    }
}

/// Returns the result for an end in a reading, by the finding on it. Fails if memory runs out.
fn reading_result(
    alloc: Global,
    reading: &Reading,
    table: &Table,
    circumstances: Circumstances,
    end: End,
    taken: Taken,
    found: Finding,
) -> Result<EndResult, AllocError>
    ensures { IfOk result (λ said. said
        ≡ reading_result table.now circumstances «end» taken (reading_of reading.now) found) }
{
    match found {
        Finding::Blamed(at) => {
            let under = in_reading(circumstances);
            let doubt = doubt_of(alloc, &reading.record, table, under, end, at)?;
            Ok(fails(in_dialogue(reading, at), doubt))
        }
        Finding::Lawful(_, unheard) => {
            let said = passes(circumstances, unheard_by(taken.way, unheard));
            Ok(taken_so(taken, said))
        }
        Finding::NotBlamed(_) => Ok(EndResult::Undecided),
    }
}

/// Returns the result by the reading that takes a malformed message in this way, if there is one. Fails if memory runs
/// out.
fn result_by_way(
    alloc: Global,
    malformed: &Malformed,
    entries: &[Entry],
    table: &Table,
    circumstances: Circumstances,
    end: End,
    way: Way,
) -> Result<Option<ReadingResult>, AllocError>
    requires few { length entries.now ≤ 100000 }
    ensures { IfOk result (λ made. made
        ≡ result_by_way table.now circumstances «end» malformed.now entries.now way) }
{
    let Some(reading) = read_by(alloc, way, malformed, entries)? else {
        return Ok(None);
    };
    let found = find_one(alloc, &reading.record, table, end)?;
    let taken = Taken {
        entry: malformed.number,
        way,
    };
    Ok(Some(ReadingResult {
        in_doubt: is_in_doubt(way, malformed, entries),
        result: reading_result(alloc, &reading, table, circumstances, end, taken, found)?,
    }))
}

/// Returns the results by the readings in these ways. Fails if memory runs out.
fn results_by(
    alloc: Global,
    malformed: &Malformed,
    entries: &[Entry],
    table: &Table,
    circumstances: Circumstances,
    end: End,
    ways: &[Way],
) -> Result<Vec<ReadingResult>, AllocError>
    requires few { length entries.now ≤ 100000 }
    ensures { IfOk result (λ made. made.items
        ≡ filter_map (result_by_way table.now circumstances «end» malformed.now entries.now) ways.now) }
{
    let mut made = Vec::new(alloc);
    for way in ways {
        let one = result_by_way(alloc, malformed, entries, table, circumstances, end, *way)?;
        if let Some(one) = one {
            made.push(one)?;
        }
    }
    Ok(made)
}

/// Returns the results by all readings. Fails if memory runs out.
fn results_of(
    alloc: Global,
    malformed: &Malformed,
    entries: &[Entry],
    table: &Table,
    circumstances: Circumstances,
    end: End,
) -> Result<Vec<ReadingResult>, AllocError>
    requires few { length entries.now ≤ 100000 }
    ensures { IfOk result (λ made. made.items
        ≡ results_of table.now circumstances «end» malformed.now entries.now) }
{
    let ways = [
        Way::Dropped,
        Way::Closed,
        Way::InPart,
        Way::Rejected,
        Way::Aborted,
        Way::Refused,
    ];
    results_by(alloc, malformed, entries, table, circumstances, end, &ways)
}

// ---- all readings

/// Returns whether the end may have sent its part.
fn is_lawful(said: EndResult) -> bool
    ensures { result ≡ is_lawful said }
{
    !matches!(
        said,
        EndResult::Fail(_) | EndResult::Doubtful(..) | EndResult::Undecided
    )
}

/// Returns whether the result by a reading is the wanted one.
fn is_wanted(wanted: Wanted, one: ReadingResult) -> bool
    ensures { result ≡ is_wanted wanted one }
{
    match wanted {
        Wanted::Pass => !one.in_doubt && matches!(one.result, EndResult::PassBy(..)),
        Wanted::SurelyLawful => !one.in_doubt && is_lawful(one.result),
        Wanted::Lawful => is_lawful(one.result),
        Wanted::Unclear => { matches!(one.result, EndResult::Doubtful(..) | EndResult::Undecided) }
    }
}

/// Returns the first of these results that is the wanted one.
fn find(wanted: Wanted, results: &[ReadingResult]) -> Option<ReadingResult>
    ensures { result ≡ find (is_wanted wanted) results.now }
{
    for one in results {
        if is_wanted(wanted, *one) {
            return Some(*one);
        }
    }
    None
}

/// Returns the blame by a reading.
fn blame_in(one: ReadingResult) -> Option<Refutation>
    ensures { result ≡ blame_in one }
{
    match one.result {
        EndResult::Fail(at) => Some(at),
        _ => None,
    }
}

/// Returns whether each of these results blames the end for an entry that is wrong no matter how it took a malformed
/// message.
fn are_wrong(malformed: &Malformed, entries: &[Entry], results: &[ReadingResult]) -> bool
    ensures { result ≡ list_all (is_wrong malformed.now entries.now) results.now }
{
    for one in results {
        match blame_in(*one) {
            Some(at) if is_wrong_at(malformed, at.entry, entries) => {}
            _ => return false,
        }
    }
    true
}

/// Returns the later of two blames.
fn later(one: Option<Refutation>, other: Option<Refutation>) -> Option<Refutation>
    ensures { result ≡ later one other }
{
    match (one, other) {
        (Some(a), Some(b)) => Some(if a.entry < b.entry { b } else { a }),
        (Some(a), None) => Some(a),
        (None, b) => b,
    }
}

/// Returns the last blame of these results.
fn last_blame(results: &[ReadingResult]) -> Option<Refutation>
    ensures { result ≡ last_blame None results.now }
{
    let mut last = None;
    for one in results {
        last = later(last, blame_in(*one));
    }
    last
}

/// Returns the first doubt that makes a fault in a reaction inconclusive, if there is one.
fn doubt_of_reaction(circumstances: Circumstances, end: End, entry: u64) -> Option<Doubt>
    ensures { result ≡ doubt_of_reaction circumstances «end» entry }
{
    if circumstances.under_way {
        Some(Doubt::UnderWay)
    } else if circumstances.early_mark {
        Some(Doubt::EarlyMark)
    } else if circumstances.again {
        Some(Doubt::CameAgain)
    } else if is_begun_by_peer(circumstances.began, end) {
        Some(Doubt::UsedBefore)
    } else if is_from(circumstances.unread_from, entry) {
        Some(Doubt::Unread)
    } else {
        None
    }
}

/// Returns the result for an end with this fault in its reaction, in this entry.
fn fails_by(circumstances: Circumstances, end: End, fault: ReactionFault, entry: u64) -> EndResult
    ensures { result ≡ fails_by circumstances «end» fault entry }
{
    match doubt_of_reaction(circumstances, end, entry) {
        None => EndResult::FailBy(fault),
        Some(doubt) => EndResult::DoubtfulBy(fault, doubt),
    }
}

/// Returns the result for an end that may have sent its part by no reading.
fn result_of_blames(
    circumstances: Circumstances,
    end: End,
    malformed: &Malformed,
    entries: &[Entry],
    results: &[ReadingResult],
) -> EndResult
    ensures { result ≡ result_of_blames circumstances «end» malformed.now entries.now results.now }
{
    if find(Wanted::Unclear, results).is_some() {
        return EndResult::UnclearReading(malformed.number);
    }
    match last_blame(results) {
        Some(at) if are_wrong(malformed, entries, results) => {
            fails_by(circumstances, end, ReactionFault::Wrong(at), at.entry)
        }
        _ => EndResult::AsIfMessage(malformed.number),
    }
}

/// Returns the result for an end that may have sent its part within the limits of the profile.
fn unless_after(end: End, entries: &[Entry], said: EndResult) -> EndResult
    ensures { result ≡ unless_after «end» entries.now said }
{
    let count = within_limits(entries).len();
    if has_own(end, &entries[count..]) {
        EndResult::AfterBadEntry(count as u64)
    } else {
        said
    }
}

/// Returns the result for an end by all readings.
fn result_by_readings(
    circumstances: Circumstances,
    end: End,
    malformed: &Malformed,
    entries: &[Entry],
    results: &[ReadingResult],
) -> EndResult
    ensures { result ≡ result_by_readings circumstances «end» malformed.now entries.now results.now }
{
    if let Some(one) = find(Wanted::Pass, results) {
        unless_after(end, entries, one.result)
    } else if let Some(one) = find(Wanted::SurelyLawful, results) {
        unless_after(end, entries, one.result)
    } else if find(Wanted::Lawful, results).is_some() {
        EndResult::UnlikelyAnswer(malformed.number)
    } else {
        result_of_blames(
            circumstances,
            end,
            malformed,
            within_limits(entries),
            results,
        )
    }
}

// ---- the result

/// Returns the answer to a malformed message and the entry by which the end goes on after it, if the message belongs to
/// one transaction alone.
fn goes_on(malformed: &Malformed, entries: &[Entry]) -> Option<(u64, u64)>
    ensures { result ≡ goes_on malformed.now entries.now }
{
    if !is_sole(malformed, entries) {
        return None;
    }
    let at = answer(malformed, entries)?;
    let entry = goes_on_at(malformed, at, entries)?;
    Some((at, entry))
}

/// Returns the result for an end whose peer sent one malformed message. Fails if memory runs out.
fn result_after(
    alloc: Global,
    malformed: &Malformed,
    entries: &[Entry],
    table: &Table,
    circumstances: Circumstances,
    end: End,
) -> Result<EndResult, AllocError>
    requires few { length entries.now ≤ 100000 }
    ensures { IfOk result (λ said. said
        ≡ result_after table.now circumstances «end» malformed.now entries.now) }
{
    let within = within_limits(entries);
    if let Some((answer, entry)) = goes_on(malformed, within) {
        let fault = ReactionFault::GoesOn { answer, entry };
        return Ok(fails_by(circumstances, end, fault, entry));
    }
    let results = results_of(alloc, malformed, within, table, circumstances, end)?;
    Ok(result_by_readings(circumstances, end, malformed, entries, &results))
}

/// Returns the entries before this number as a record. Fails if memory runs out.
fn record_before(alloc: Global, entries: &[Entry], number: u64) -> Result<Record, AllocError>
    ensures { IfOk result (λ made. made.entries.items ≡ take number entries.now) }
{
    let count = entries.len().min(number as usize);
    Ok(Record {
        entries: copy_entries(alloc, &entries[..count])?,
    })
}

/// Returns the result for an end that is not blamed by the entries before the first malformed message of its peer, which
/// has this number. Fails if memory runs out.
fn result_unblamed(
    alloc: Global,
    sent: &[TraceEntry],
    entries: &[Entry],
    table: &Table,
    circumstances: Circumstances,
    end: End,
    number: u64,
) -> Result<EndResult, AllocError>
    requires few { length entries.now ≤ 100000 }
    ensures { IfOk result (λ said. said
        ≡ result_unblamed table.now circumstances «end» sent.now entries.now number
        (next_malformed (other «end») number (within_limits entries.now))) }
{
    match next_malformed(end.other(), number, within_limits(entries)) {
        Some(second) => Ok(EndResult::SeveralMalformed(number, second)),
        None => {
            let octets = octets_at(sent, number);
            let malformed = read_malformed(alloc, end.other(), number, octets)?;
            result_after(alloc, &malformed, entries, table, circumstances, end)
        }
    }
}

/// Returns the result for an end whose peer sent a malformed message with this number, the first. Fails if memory runs
/// out.
fn result_from(
    alloc: Global,
    sent: &[TraceEntry],
    entries: &[Entry],
    table: &Table,
    circumstances: Circumstances,
    end: End,
    number: u64,
) -> Result<EndResult, AllocError>
    requires few { length entries.now ≤ 100000 }
    ensures { IfOk result (λ said. said
        ≡ result_from table.now circumstances «end» sent.now entries.now number) }
{
    let earlier = record_before(alloc, entries, number)?;
    match find_one(alloc, &earlier, table, end)? {
        Finding::Blamed(at) => {
            let doubt = doubt_of(alloc, &earlier, table, circumstances, end, at)?;
            Ok(fails(at, doubt))
        }
        Finding::Lawful(..) => {
            result_unblamed(alloc, sent, entries, table, circumstances, end, number)
        }
        Finding::NotBlamed(_) => {
            result_unblamed(alloc, sent, entries, table, circumstances, end, number)
        }
    }
}

/// Returns the result for an end of a dialogue if its peer sent a malformed message, and `None` otherwise. `sent` are
/// the entries as the trace has them, and `entries` as they are judged, at most 100,000.
///
/// # Errors
///
/// `AllocError` if memory runs out.
pub fn judge_reaction(
    alloc: Global,
    sent: &[TraceEntry],
    entries: &[Entry],
    table: &Table,
    circumstances: Circumstances,
    end: End,
) -> Result<Option<EndResult>, AllocError>
    requires few { length entries.now ≤ 100000 }
    ensures { IfOk result (λ said. said
        ≡ reaction_result table.now circumstances sent.now entries.now «end») }
{
    match first_malformed(end.other(), within_limits(entries)) {
        Some(number) => {
            let said = result_from(alloc, sent, entries, table, circumstances, end, number)?;
            Ok(Some(said))
        }
        None => Ok(None),
    }
}
