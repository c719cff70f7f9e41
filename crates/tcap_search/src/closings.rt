//! The fifth rule: which halves closed without a message.

ghost use Rattle.std.specs.Prelude.{◌≡◌, ◌≤◌, ◌&&◌, not, List, length, option_copied, slice_get, IfOk};
ghost use Rattle.tcap_record.specs.Ends.{other};
ghost use Rattle.tcap_search.specs.LeastNumbers.{is_below, is_within, least_at};
ghost use Rattle.tcap_search.specs.SegmentEntries.{lines_of, message_of};
ghost use Rattle.tcap_search.specs.ProposedCertificate.{Fated, closings_of, ends, fated, is_continue, ties_of};
ghost use Rattle.tcap_search.specs.ClosedByTie.{KeepsEnded, KeepsDelivered, end_delivery_gap, shown_by};
ghost use Rattle.tcap_search.specs.SegmentLists.{AreTies, AreTransactions};

use crate::leasts::Leasts;
use crate::tie::Tie;
use std::alloc::{AllocError, Global};
use tcap_certificate::{Closing, Fate};
use tcap_msg::{AbortReason, Message};
use tcap_record::{Body, End, Entry};

/// Returns the message of an entry, if it is one.
fn message_of(entry: &Entry) -> Option<&Message>
    ensures { option_copied result ≡ message_of entry.now }
{
    match &entry.body {
        Body::Good(message) => Some(message),
        _ => None,
    }
}

/// Returns whether an entry ends a dialogue: an End, or an Abort without cause.
fn ends(entry: &Entry) -> bool
    ensures { result ≡ ends (message_of entry.now) }
{
    match message_of(entry) {
        Some(Message::End { .. }) => true,
        Some(Message::Abort { reason, .. }) => !matches!(reason, Some(AbortReason::Cause(_))),
        _ => false,
    }
}

/// Returns the gap in which an End or an Abort is delivered. Returns `None` for other entries, or if it is lost.
fn end_delivery_gap(entry: &Entry, fate: Fate) -> Option<u32>
    ensures { result ≡ end_delivery_gap (message_of entry.now) fate }
{
    match (message_of(entry)?, fate) {
        (Message::End { .. } | Message::Abort { .. }, Fate::Gap(gap)) => Some(gap),
        _ => None,
    }
}

/// Returns whether an entry is a Continue.
fn is_continue(entry: &Entry) -> bool
    ensures { result ≡ is_continue (message_of entry.now) }
{
    matches!(message_of(entry), Some(Message::Continue { .. }))
}

/// Finds the first entry that ends each transaction, by its sender. Fails if memory runs out.
fn ends_of(
    alloc: Global,
    entries: &[Entry],
    transactions: &[Option<u32>],
) -> Result<Leasts, AllocError>
    requires few { length entries.now ≤ 100000 }
    requires transactions { AreTransactions entries.now transactions.now }
    ensures { IfOk result (λ ended. KeepsEnded (length entries.now) (lines_of entries.now) ended) }
{
    let mut ended = Leasts::new(alloc, entries.len())?;
    for (number, entry) in entries.iter().enumerate() {
        if ends(entry) {
            ended.note(entry.side, transactions[number], number as u32);
        }
    }
    Ok(ended)
}

/// Finds the first gap in which an End or an Abort of each transaction is delivered, by its sender. Fails if memory
/// runs out.
fn deliveries_of(
    alloc: Global,
    entries: &[Entry],
    transactions: &[Option<u32>],
    fates: &[Fate],
) -> Result<Leasts, AllocError>
    requires transactions { AreTransactions entries.now transactions.now }
    requires count { length fates.now ≡ length entries.now }
    ensures { IfOk result
        (λ delivered. KeepsDelivered (length entries.now) (fated (lines_of entries.now) fates.now) delivered) }
{
    let mut delivered = Leasts::new(alloc, entries.len())?;
    for (number, entry) in entries.iter().enumerate() {
        if let Some(gap) = end_delivery_gap(entry, fates[number]) {
            delivered.note(entry.side, transactions[number], gap);
        }
    }
    Ok(delivered)
}

/// Returns whether the Abort that answers an entry shows that a half had closed. The entry is then a Continue, its
/// receiver had not ended the transaction before the Abort, and no End or Abort of its sender was delivered before.
fn shows_closing(
    entry: &Entry,
    side: End,
    transaction: u32,
    ended: &Leasts,
    delivered: &Leasts,
    reply: u32,
) -> bool
    ensures { result ≡ is_continue (message_of entry.now)
        && not (is_below reply (least_at (other side) transaction ended.now))
        && not (is_within reply (least_at side transaction delivered.now)) }
{
    is_continue(entry)
        && !ended.has_below(side.other(), transaction, reply)
        && !delivered.has_within(side, transaction, reply)
}

/// Returns the half that a tie shows to have closed, by its end and its transaction.
fn shown_by(
    entries: &[Entry],
    transactions: &[Option<u32>],
    ended: &Leasts,
    delivered: &Leasts,
    tie: &Tie,
) -> Option<(End, u32)>
    requires transactions { AreTransactions entries.now transactions.now }
    requires ended { KeepsEnded (length entries.now) (lines_of entries.now) ended.now }
    ensures { (all : List Fated) → KeepsDelivered (length entries.now) all delivered.now
        → result ≡ shown_by all (lines_of entries.now) tie.now.reply (slice_get (lines_of entries.now) tie.now.entry) }
{
    let entry = entries.get(tie.entry as usize)?;
    let side = entry.side?;
    let transaction = transactions[tie.entry as usize]?;
    if shows_closing(entry, side, transaction, ended, delivered, tie.reply) {
        Some((side.other(), transaction))
    } else {
        None
    }
}

/// Finds the closings of a segment with these fates, in the order of the Aborts that show them. Fails if memory runs
/// out.
fn shown_closings(
    alloc: Global,
    entries: &[Entry],
    transactions: &[Option<u32>],
    ties: &[Tie],
    fates: &[Fate],
) -> Result<Vec<Closing>, AllocError>
    requires few { length entries.now ≤ 100000 }
    requires transactions { AreTransactions entries.now transactions.now }
    requires ties { AreTies entries.now ties.now }
    requires count { length fates.now ≡ length entries.now }
    ensures { IfOk result (λ listed. listed.items
        ≡ closings_of (fated (lines_of entries.now) fates.now) (lines_of entries.now)
        (ties_of (lines_of entries.now))) }
{
    let ended = ends_of(alloc, entries, transactions)?;
    let delivered = deliveries_of(alloc, entries, transactions, fates)?;
    let mut kept = Leasts::new(alloc, entries.len())?;
    let mut listed = Vec::new(alloc);
    for tie in ties {
        let Some((side, transaction)) = shown_by(entries, transactions, &ended, &delivered, tie)
        else {
            continue;
        };
        if kept.get(side, transaction).is_none() {
            kept.note(Some(side), Some(transaction), tie.reply);
            listed.push(Closing {
                gap: tie.reply,
                side,
                entry: transaction,
            })?;
        }
    }
    Ok(listed)
}

/// Finds the closings of a segment with these fates. Without ties there are none, and no memory is allocated. Fails if
/// memory runs out.
pub(crate) fn closings_of(
    alloc: Global,
    entries: &[Entry],
    transactions: &[Option<u32>],
    ties: &[Tie],
    fates: &[Fate],
) -> Result<Vec<Closing>, AllocError>
    requires few { length entries.now ≤ 100000 }
    requires transactions { AreTransactions entries.now transactions.now }
    requires ties { AreTies entries.now ties.now }
    requires count { length fates.now ≡ length entries.now }
    ensures { IfOk result (λ listed. listed.items
        ≡ closings_of (fated (lines_of entries.now) fates.now) (lines_of entries.now)
        (ties_of (lines_of entries.now))) }
{
    if ties.is_empty() {
        return Ok(Vec::new(alloc));
    }
    shown_closings(alloc, entries, transactions, ties, fates)
}
