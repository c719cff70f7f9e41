//! Judges a dialogue.

ghost use Rattle.std.specs.Prelude.{◌≡◌, ◌≤◌, drop, length, take, IfOk, OnOk};
ghost use Rattle.std.specs.Option.{option_or};
ghost use Rattle.std.specs.List.{list_any};
ghost use Rattle.tcap_record.specs.declared.entry.End.TheVariants as sides;
ghost use Rattle.tcap_judge.specs.BlameOutcome.{IsFound, finding};
ghost use Rattle.tcap_traces.specs.ResultMeaning.{IsFoundBefore, IsTrueResult};
ghost use Rattle.tcap_traces.specs.Verdict.{fails, found_before, is_of, no_message_at, passes, result_before, result_by, result_of, verdict_asked};

use crate::doubts::doubt_of;
use crate::end_result::{Circumstances, Doubt, EndResult};
use crate::verdict::Verdict;
use std::alloc::{AllocError, Global};
use tcap_end::Table;
use tcap_faults::laws;
use tcap_judge::{Ends as Found, Finding, blame_record};
use tcap_record::{End, Entry, Record};
use tcap_refute::Refutation;

/// The results for both ends of a dialogue.
#[derive(Clone, Copy, Debug, PartialEq, Eq)]
pub struct Ends {
    /// The result for A.
    pub a: EndResult,
    /// The result for B.
    pub b: EndResult,
}

impl Ends {
    ghost use Rattle.tcap_traces.specs.ResultOfEnd.{result_at};

    /// Returns the result for an end.
    pub fn of(self, end: End) -> EndResult
        ensures { result ≡ result_at end self }
    {
        match end {
            End::A => self.a,
            End::B => self.b,
        }
    }

    /// Returns the verdict on the dialogue: that of the judged end, or the worse of both if `asked` is `None`.
    pub fn verdict(self, asked: Option<End>) -> Verdict
        ensures { result ≡ verdict_asked asked self.a self.b }
    {
        match asked {
            None => self.a.verdict().worse(self.b.verdict()),
            Some(End::A) => self.a.verdict(),
            Some(End::B) => self.b.verdict(),
        }
    }
}

/// Returns the result for an end that is blamed: it fails, or is doubtful.
pub(crate) fn fails(at: Refutation, doubt: Option<Doubt>) -> EndResult
    ensures { result ≡ fails at doubt }
{
    match doubt {
        None => EndResult::Fail(at),
        Some(doubt) => EndResult::Doubtful(at, doubt),
    }
}

/// Returns the result for an end that may have sent its part: it passes, unless a circumstance makes it inconclusive.
pub(crate) fn passes(circumstances: Circumstances, unheard: u64) -> EndResult
    ensures { result ≡ passes circumstances unheard }
{
    if circumstances.under_way {
        EndResult::UnderWay
    } else if circumstances.early_mark {
        EndResult::EarlyMark
    } else if circumstances.cut {
        EndResult::TooLong
    } else if circumstances.unsure {
        EndResult::UnsureTable
    } else if circumstances.open {
        EndResult::Open
    } else if circumstances.heard && unheard > 0 {
        EndResult::Unheard(unheard)
    } else {
        EndResult::Pass(unheard)
    }
}

/// Returns whether the end sent this entry.
fn is_of(end: End, entry: &Entry) -> bool
    ensures { result ≡ is_of end entry.now }
{
    match entry.side {
        Some(sender) => end.is(sender),
        None => false,
    }
}

/// Returns whether the end sent one of these entries.
pub(crate) fn has_own(end: End, entries: &[Entry]) -> bool
    ensures { result ≡ list_any (is_of end) entries.now }
{
    for entry in entries {
        if is_of(end, entry) {
            return true;
        }
    }
    false
}

/// Returns the entries from this number on.
fn entries_from(read: &Record, number: usize) -> &[Entry]
    ensures { result.now ≡ drop number read.now.entries.items }
{
    let entries = read.entries.as_slice();
    &entries[entries.len().min(number)..]
}

/// Returns the findings on both ends of a record. Fails if memory runs out.
fn find_both(alloc: Global, read: &Record, table: &Table) -> Result<Found, AllocError>
    requires few { length read.now.entries.items ≤ 100000 }
    ensures found { IfOk result (λ found. (found.a ≡ finding table.now read.now.entries.items sides.A)
        × (found.b ≡ finding table.now read.now.entries.items sides.B)) }
    ensures shown { IfOk result (λ found. IsFound sides.A table.now read.now.entries.items found.a
        × IsFound sides.B table.now read.now.entries.items found.b) }
{
    match blame_record(alloc, read, table)?.ends {
        Some(found) => Ok(found),
        None => unreachable!(),
    }
}

/// Returns the findings on both ends for the entries before this number, and leaves the record unchanged. Fails if
/// memory runs out.
fn find_before(
    alloc: Global,
    read: &mut Record,
    table: &Table,
    number: usize,
) -> Result<Found, AllocError>
    requires few { length read.old.entries.items ≤ 100000 }
    ensures found { IfOk result (λ found. (found.a ≡ finding table.now (take number read.old.entries.items) sides.A)
        × (found.b ≡ finding table.now (take number read.old.entries.items) sides.B)) }
    ensures shown { IfOk result (λ found. IsFound sides.A table.now (take number read.old.entries.items) found.a
        × IsFound sides.B table.now (take number read.old.entries.items) found.b) }
    ensures stays { OnOk result (read.new.entries.items ≡ read.old.entries.items) }
{
    let mut later = read.entries.split_off(read.entries.len().min(number))?;
    let found = find_both(alloc, read, table)?;
    read.entries.append(&mut later)?;
    Ok(found)
}

/// Returns the findings on both ends for the entries before this number, if there is one. Fails if memory runs out.
fn found_before(
    alloc: Global,
    read: &mut Record,
    table: &Table,
    number: Option<usize>,
) -> Result<(Option<Finding>, Option<Finding>), AllocError>
    requires few { length read.old.entries.items ≤ 100000 }
    ensures found { IfOk result (λ found. (found.0 ≡ found_before table.now read.old.entries.items sides.A number)
        × (found.1 ≡ found_before table.now read.old.entries.items sides.B number)) }
    ensures shown { IfOk result (λ found. IsFoundBefore sides.A table.now read.old.entries.items number found.0
        × IsFoundBefore sides.B table.now read.old.entries.items number found.1) }
    ensures stays { OnOk result (read.new.entries.items ≡ read.old.entries.items) }
{
    match number {
        Some(number) => {
            let found = find_before(alloc, read, table, number)?;
            Ok((Some(found.a), Some(found.b)))
        }
        None => Ok((None, None)),
    }
}

/// Returns the number of the first entry that is no message, if there is one and the end is not blamed.
fn no_message_at(found: Finding, all: usize) -> Option<usize>
    ensures { result ≡ no_message_at found all }
{
    match found {
        Finding::NotBlamed(count) if count != all => Some(count),
        _ => None,
    }
}

/// Returns the number of the first entry that is no message, if there is one and at least one end is not blamed.
fn no_message_of(found: Found, all: usize) -> Option<usize>
    ensures { result ≡ option_or (no_message_at found.a all) (no_message_at found.b all) }
{
    match no_message_at(found.a, all) {
        Some(number) => Some(number),
        None => no_message_at(found.b, all),
    }
}

/// Returns the result for an end on which nothing is blamed, by the finding on the entries before the first that is no
/// message.
fn result_before(
    read: &Record,
    circumstances: Circumstances,
    end: End,
    number: usize,
    found: Option<Finding>,
) -> EndResult
    ensures { result ≡ result_before circumstances end read.now.entries.items number found }
{
    match found {
        Some(Finding::Lawful(_, unheard)) => {
            if has_own(end, entries_from(read, number)) {
                EndResult::AfterBadEntry(number as u64)
            } else {
                passes(circumstances, unheard)
            }
        }
        _ => EndResult::Undecided,
    }
}

/// Returns the result for an end, by the finding on all entries, and by that on the entries before the first that is no
/// message. Fails if memory runs out.
fn result_by(
    alloc: Global,
    read: &Record,
    table: &Table,
    circumstances: Circumstances,
    end: End,
    found: Finding,
    earlier: Option<Finding>,
) -> Result<EndResult, AllocError>
    ensures { IfOk result (λ said.
        said ≡ result_by table.now circumstances end read.now.entries.items found earlier) }
{
    match found {
        Finding::Blamed(at) => {
            Ok(fails(at, doubt_of(alloc, read, table, circumstances, end, at)?))
        }
        Finding::Lawful(_, unheard) => Ok(passes(circumstances, unheard)),
        Finding::NotBlamed(count) => Ok(result_before(read, circumstances, end, count, earlier)),
    }
}

/// Judges both ends of a dialogue, whose entries are those of `read`, at most 100,000. Leaves the entries unchanged.
///
/// # Errors
///
/// `AllocError` if memory runs out; `read` may then have fewer entries.
pub fn judge_dialogue(
    alloc: Global,
    read: &mut Record,
    table: &Table,
    circumstances: Circumstances,
) -> Result<Ends, AllocError>
    requires few { length read.old.entries.items ≤ 100000 }
    ensures a { IfOk result (λ ends. ends.a ≡ result_of table.now circumstances read.old.entries.items sides.A) }
    ensures b { IfOk result (λ ends. ends.b ≡ result_of table.now circumstances read.old.entries.items sides.B) }
    ensures sound { IfOk result (λ ends. IsTrueResult sides.A table.now read.old.entries.items ends.a
        × IsTrueResult sides.B table.now read.old.entries.items ends.b) }
    ensures stays { OnOk result (read.new.entries.items ≡ read.old.entries.items) }
{
    laws::blamed_is_at_fault();
    let found = find_both(alloc, read, table)?;
    let number = no_message_of(found, read.entries.len());
    let (a, b) = found_before(alloc, read, table, number)?;
    Ok(Ends {
        a: result_by(alloc, read, table, circumstances, End::A, found.a, a)?,
        b: result_by(alloc, read, table, circumstances, End::B, found.b, b)?,
    })
}
