//! The second and the third rule: in which gap each message is delivered, and which are lost.

ghost use Rattle.std.specs.Prelude.{◌≡◌, ◌≤◌, ◌<◌, ◌+◌, ◌^◌, ◌==◌, ◌&&◌, ℕ, max, cond, length, map, slice_get, Some, None, IfOk};
ghost use Rattle.tcap_record.specs.declared.entry.End.{End as Side};
ghost use Rattle.tcap_certificate.specs.Replay.{time_of};
ghost use Rattle.tcap_search.specs.SegmentEntries.{lines_of, message_of};
ghost use Rattle.tcap_record.specs.Ends.{is_entry_of};
ghost use Rattle.tcap_search.specs.ProposedCertificate.{fated, first_fates, gap_after_reply, holds_back, is_provider_abort, reply_of, with_losses};
ghost use Rattle.tcap_search.specs.SegmentLists.{AreFates, AreTies, AreTransactions};
ghost use Rattle.tcap_search.specs.EndValues.{at_end};
ghost use Rattle.tcap_search.specs.Fates.{fate_after_least, fate_from, gap_after_last, gap_kept, gap_raised, is_of};
ghost use Rattle.tcap_search.specs.Fates.{receiver_gap, sooner, time_kept};

use crate::end_values::PerEnd;
use crate::tie::Tie;
use crate::unanswered::without_unanswered;
use std::alloc::{AllocError, Global};
use tcap_certificate::Fate;
use tcap_msg::{AbortReason, Message};
use tcap_record::{Body, End, Entry};

/// Notes the reply to an entry, in place of an earlier one.
fn note_reply(replies: &mut Vec<Option<u32>>, tie: &Tie)
    ensures noted { (number : ℕ) → number < length replies.old.items → slice_get replies.new.items number
        ≡ cond (tie.now.entry == number) (Some (Some tie.now.reply)) (slice_get replies.old.items number) }
    ensures count { length replies.new.items ≡ length replies.old.items }
{
    if let Some(reply) = replies.get_mut(tie.entry as usize) {
        *reply = Some(tie.reply);
    }
}

/// Returns the reply to each of `count` entries, if it has one. Fails if memory runs out.
fn replies_of(alloc: Global, count: usize, ties: &[Tie]) -> Result<Vec<Option<u32>>, AllocError>
    ensures replies { IfOk result (λ replies. (number : ℕ) → number < count
        → slice_get replies.items number ≡ Some (reply_of ties.now number)) }
    ensures count { IfOk result (λ replies. length replies.items ≡ count) }
{
    let mut replies = Vec::new(alloc);
    replies.resize(count, None)?;
    for tie in ties {
        note_reply(&mut replies, tie);
    }
    Ok(replies)
}

/// Returns whether an entry is a provider's Abort.
pub(crate) fn is_provider_abort(entry: &Entry) -> bool
    ensures { result ≡ is_provider_abort (message_of entry.now) }
{
    match &entry.body {
        Body::Good(Message::Abort { reason, .. }) => matches!(reason, Some(AbortReason::Cause(_))),
        _ => false,
    }
}

/// Returns whether an End or an Abort is delivered only after such an entry of its receiver. A provider's Abort does
/// not hold it back if one end is judged alone.
fn holds_back(judged: Option<End>, entry: &Entry) -> bool
    ensures { result ≡ holds_back judged (message_of entry.now) }
{
    match judged {
        Some(_) => !is_provider_abort(entry),
        None => true,
    }
}

/// Notes the gap after an entry as that after the last of its end in its transaction, if the entry holds back.
fn note_last(
    gaps: &mut Vec<PerEnd<u32>>,
    judged: Option<End>,
    entry: &Entry,
    transaction: Option<u32>,
    gap: u32,
)
    ensures noted { (side : Side) (t : ℕ) → t < length gaps.old.items → gap_kept side t gaps.new.items
        ≡ cond (holds_back judged (message_of entry.now) && is_of side t entry.now transaction) gap
        (gap_kept side t gaps.old.items) }
    ensures count { length gaps.new.items ≡ length gaps.old.items }
{
    if !holds_back(judged, entry) {
        return;
    }
    if let (Some(side), Some(transaction)) = (entry.side, transaction) {
        if let Some(of_ends) = gaps.get_mut(transaction as usize) {
            of_ends.set(side, gap);
        }
    }
}

/// Returns, by end and transaction, the gap after the last entry that holds back, or 0 if there is none. Fails if
/// memory runs out.
fn last_gaps(
    alloc: Global,
    judged: Option<End>,
    entries: &[Entry],
    transactions: &[Option<u32>],
) -> Result<Vec<PerEnd<u32>>, AllocError>
    requires few { length entries.now ≤ 100000 }
    requires transactions { AreTransactions entries.now transactions.now }
    ensures { IfOk result (λ gaps. (side : Side) (t : ℕ) → t < length entries.now
        → gap_kept side t gaps.items ≡ gap_after_last judged side t (lines_of entries.now)) }
{
    let mut gaps = Vec::new(alloc);
    gaps.resize(entries.len(), PerEnd::both(0))?;
    for (number, entry) in entries.iter().enumerate() {
        note_last(
            &mut gaps,
            judged,
            entry,
            transactions[number],
            number as u32 + 1,
        );
    }
    Ok(gaps)
}

/// Returns the gap kept for the receiver of an entry, or 0 if there is none.
fn receiver_gap(gaps: &[PerEnd<u32>], side: Option<End>, transaction: Option<u32>) -> u32
    ensures { result ≡ receiver_gap gaps.now side transaction }
{
    let (Some(side), Some(transaction)) = (side, transaction) else {
        return 0;
    };
    let Some(of_ends) = gaps.get(transaction as usize) else {
        return 0;
    };
    match side {
        End::A => of_ends.get(End::B),
        End::B => of_ends.get(End::A),
    }
}

/// Returns the gap to which the fate of an entry is raised, or 0 if there is none.
fn gap_raised(raised: &PerEnd<u32>, side: Option<End>) -> u32
    ensures { result ≡ gap_raised raised.now side }
{
    match side {
        Some(side) => raised.get(side),
        None => 0,
    }
}

/// Raises the fates of later entries of an end to the gap after a reply.
fn raise(raised: &mut PerEnd<u32>, side: Option<End>, reply: Option<u32>)
    requires { gap_after_reply reply < 2 ^ 32 }
    ensures { (s : Side) → at_end s raised.new
        ≡ cond (is_entry_of s side) (max (at_end s raised.old) (gap_after_reply reply)) (at_end s raised.old) }
{
    if let (Some(side), Some(reply)) = (side, reply) {
        let gap = raised.get(side).max(reply + 1);
        raised.set(side, gap);
    }
}

/// Returns the first fate of an entry.
fn first_fate(number: u32, entry: &Entry, reply: Option<u32>, behind: u32, raised: u32) -> Fate
    requires { number + 1 < 2 ^ 32 }
    ensures { result ≡ fate_from number entry.now reply behind raised }
{
    if let Some(reply) = reply {
        return Fate::By(reply);
    }
    let at_once = number + 1;
    match &entry.body {
        Body::Good(Message::End { .. } | Message::Abort { .. }) => {
            Fate::Gap(at_once.max(behind).max(raised))
        }
        Body::Good(_) => Fate::Gap(at_once.max(raised)),
        _ => Fate::Gap(at_once),
    }
}

/// Returns the fates of entries before losses. Fails if memory runs out.
fn first_fates(
    alloc: Global,
    judged: Option<End>,
    entries: &[Entry],
    transactions: &[Option<u32>],
    ties: &[Tie],
) -> Result<Vec<Fate>, AllocError>
    requires few { length entries.now ≤ 100000 }
    requires transactions { AreTransactions entries.now transactions.now }
    requires ties { AreTies entries.now ties.now }
    ensures { IfOk result (λ fates. fates.items ≡ first_fates judged (lines_of entries.now) ties.now) }
{
    let replies = replies_of(alloc, entries.len(), ties)?;
    let gaps = last_gaps(alloc, judged, entries, transactions)?;
    let mut raised = PerEnd::both(0);
    let mut fates = Vec::with_capacity(alloc, entries.len())?;
    for (number, entry) in entries.iter().enumerate() {
        let reply = replies[number];
        let behind = receiver_gap(&gaps, entry.side, transactions[number]);
        let least = gap_raised(&raised, entry.side);
        fates.push(first_fate(number as u32, entry, reply, behind, least))?;
        raise(&mut raised, entry.side, reply);
    }
    Ok(fates)
}

/// Returns the time of a fate, which orders fates; a loss has none.
fn time_of(fate: Fate) -> Option<u64>
    ensures { result ≡ time_of fate }
{
    match fate {
        Fate::Gap(gap) => Some(2 * u64::from(gap)),
        Fate::By(reply) => Some(2 * u64::from(reply) + 1),
        Fate::Lost => None,
    }
}

/// Returns the least time of later entries of an end, if there is one.
fn time_kept(least: &PerEnd<Option<u64>>, side: Option<End>) -> Option<u64>
    ensures { result ≡ time_kept least.now side }
{
    least.get(side?)
}

/// Notes the time of an entry of an end.
fn note_time(least: &mut PerEnd<Option<u64>>, side: Option<End>, fate: Fate)
    ensures { (s : Side) → at_end s least.new
        ≡ cond (is_entry_of s side) (sooner (time_of fate) (at_end s least.old)) (at_end s least.old) }
{
    if let (Some(side), Some(time)) = (side, time_of(fate)) {
        let sooner = match least.get(side) {
            Some(other) => time.min(other),
            None => time,
        };
        least.set(side, Some(sooner));
    }
}

/// Returns the fate of an entry: a loss if `least`, the least time of later entries of its end, is before its gap.
fn fate_after_least(entry: &Entry, fate: Fate, least: Option<u64>) -> Fate
    ensures { result ≡ fate_after_least entry.now fate least }
{
    match (fate, &entry.body, least) {
        (Fate::Gap(gap), Body::Good(_), Some(time)) if time < 2 * u64::from(gap) => Fate::Lost,
        _ => fate,
    }
}

/// Loses each message that would be delivered after a later entry of its end.
fn lose_overtaken(entries: &[Entry], fates: &mut [Fate])
    requires { length fates.old ≡ length entries.now }
    ensures { fates.new ≡ map (λ x. x.fate) (with_losses (fated (lines_of entries.now) fates.old)) }
{
    let mut least = PerEnd::both(None);
    for number in (0..entries.len()).rev() {
        let entry = &entries[number];
        let fate = fate_after_least(entry, fates[number], time_kept(&least, entry.side));
        fates[number] = fate;
        note_time(&mut least, entry.side, fate);
    }
}

/// Returns the fate of each entry of a segment, for the judged end alone or for both; `marked` says whether a mark
/// follows the segment. Fails if memory runs out.
pub(crate) fn fates_of(
    alloc: Global,
    judged: Option<End>,
    marked: bool,
    entries: &[Entry],
    transactions: &[Option<u32>],
    ties: &[Tie],
) -> Result<Vec<Fate>, AllocError>
    requires few { length entries.now ≤ 100000 }
    requires transactions { AreTransactions entries.now transactions.now }
    requires ties { AreTies entries.now ties.now }
    ensures { IfOk result (λ fates. AreFates judged marked entries.now fates.items) }
{
    let first = first_fates(alloc, judged, entries, transactions, ties)?;
    let mut fates = without_unanswered(alloc, judged, marked, entries, first)?;
    lose_overtaken(entries, &mut fates);
    Ok(fates)
}
