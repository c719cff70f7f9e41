//! Says what a malformed message leaves certain: which transaction it belongs to, and which reactions are wrong.

ghost use Rattle.std.specs.Prelude.{◌≡◌, count_by, option_copied, slice_get, take};
ghost use Rattle.std.specs.List.{list_any};
ghost use Rattle.tcap_msg.specs.Meaning.{id_of};
ghost use Rattle.tcap_readings.specs.Reactions.{begins_from, has_both_or_none, is_begin_from, is_from, is_message, is_sole, is_wrong, is_wrong_at, joins, may_answer, may_continue, opens, parts_ids};

use crate::malformed::{Malformed, is_malformed_of};
use crate::reactions::{has_cause, is_same_id, message_in, reports_malformed};
use tcap_msg::{Kind, Message, MessageParts, TransactionIdView};
use tcap_record::{End, Entry};

/// Returns whether a message has this originating ID.
fn is_from(id: Option<TransactionIdView>, message: &Message) -> bool
    ensures { result ≡ is_from (id_of id.entry) message.now }
{
    is_same_id(id, message.otid())
}

/// Returns whether an entry is a message of this end from this ID.
fn is_sent_from(end: End, id: Option<TransactionIdView>, entry: &Entry) -> bool
    ensures { result ≡ is_message end (is_from (id_of id.entry)) entry.now }
{
    match message_in(end, entry) {
        Some(message) => is_from(id, message),
        None => false,
    }
}

/// Returns whether one of these entries is a message of this end from this ID.
fn sends_from(end: End, id: Option<TransactionIdView>, entries: &[Entry]) -> bool
    ensures { result ≡ list_any (is_message end (is_from (id_of id.entry))) entries.now }
{
    for entry in entries {
        if is_sent_from(end, id, entry) {
            return true;
        }
    }
    false
}

/// Returns whether a message is no Continue, or has both of these IDs, or neither.
fn has_both_or_none(
    own: Option<TransactionIdView>,
    peer: Option<TransactionIdView>,
    message: &Message,
) -> bool
    ensures { result ≡ has_both_or_none (id_of own.entry) (id_of peer.entry) message.now }
{
    message.kind() != Kind::Continue
        || is_same_id(own, message.otid()) == is_same_id(peer, message.dtid())
}

/// Returns whether an entry is a Continue that has one of the two IDs of a malformed message without the other.
fn parts_ids(malformed: &Malformed, entry: &Entry) -> bool
    ensures { result ≡ parts_ids malformed.now entry.now }
{
    let (otid, dtid) = (malformed.otid(), malformed.dtid());
    if let Some(message) = message_in(malformed.sender, entry) {
        return !has_both_or_none(otid, dtid, message);
    }
    match message_in(malformed.sender.other(), entry) {
        Some(message) => !has_both_or_none(dtid, otid, message),
        None => false,
    }
}

/// Returns whether one of these entries is such a Continue.
fn some_part_ids(malformed: &Malformed, entries: &[Entry]) -> bool
    ensures { result ≡ list_any (parts_ids malformed.now) entries.now }
{
    for entry in entries {
        if parts_ids(malformed, entry) {
            return true;
        }
    }
    false
}

/// Returns whether a message is a Begin from this ID.
fn is_begin_from(id: Option<TransactionIdView>, message: &Message) -> bool
    ensures { result ≡ is_begin_from (id_of id.entry) message.now }
{
    message.kind() == Kind::Begin && is_from(id, message)
}

/// Returns whether an entry is a Begin from one of the two IDs of a malformed message.
fn begins_from(malformed: &Malformed, entry: &Entry) -> bool
    ensures { result ≡ begins_from malformed.now entry.now }
{
    if let Some(message) = message_in(malformed.sender, entry) {
        return is_begin_from(malformed.otid(), message);
    }
    match message_in(malformed.sender.other(), entry) {
        Some(message) => is_begin_from(malformed.dtid(), message),
        None => false,
    }
}

/// Returns how many of these entries are Begins from one of the two IDs of a malformed message.
fn count_begins(malformed: &Malformed, entries: &[Entry]) -> usize
    ensures { result ≡ count_by (begins_from malformed.now) entries.now }
{
    let mut count = 0;
    for entry in entries {
        if begins_from(malformed, entry) {
            count += 1;
        }
    }
    count
}

/// Returns the entries before this number.
fn before(number: u64, entries: &[Entry]) -> &[Entry]
    ensures { result.now ≡ take number entries.now }
{
    &entries[..entries.len().min(number as usize)]
}

/// Returns whether a malformed message, a Begin or Continue with its IDs in place, can belong to one transaction alone.
///
/// If it is a Begin, its sender sent no message from its ID. If it is a Continue, its receiver sent from its destination
/// ID before; no Continue has one of the two IDs without the other; and one Begin has one of them as its originating ID.
pub fn is_sole(malformed: &Malformed, entries: &[Entry]) -> bool
    ensures { result ≡ is_sole malformed.now entries.now }
{
    if !malformed.in_place {
        return false;
    }
    let (sender, receiver) = (malformed.sender, malformed.sender.other());
    match malformed.kind {
        Some(Kind::Begin) => !sends_from(sender, malformed.otid(), entries),
        Some(Kind::Continue) => {
            sends_from(
                receiver,
                malformed.dtid(),
                before(malformed.number, entries),
            ) && !some_part_ids(malformed, entries)
                && count_begins(malformed, entries) == 1
        }
        _ => false,
    }
}

/// Returns whether a malformed message is a Begin or Continue with its IDs in place.
fn opens(malformed: &Malformed) -> bool
    ensures { result ≡ opens malformed.now }
{
    malformed.in_place && matches!(malformed.kind, Some(Kind::Begin | Kind::Continue))
}

/// Returns whether a malformed message is a Continue or of no known kind.
fn may_continue(kind: Option<Kind>) -> bool
    ensures { result ≡ may_continue kind }
{
    matches!(kind, None | Some(Kind::Continue))
}

/// Returns whether an entry is a message that has the destination ID of a malformed message, as an ID of its receiver,
/// and this ID of its sender.
fn joins(malformed: &Malformed, id: Option<TransactionIdView>, entry: &Entry) -> bool
    ensures { result ≡ joins malformed.now (id_of id.entry) entry.now }
{
    let dtid = malformed.dtid();
    if let Some(message) = message_in(malformed.sender.other(), entry) {
        return is_same_id(dtid, message.otid()) && is_same_id(id, message.dtid());
    }
    match message_in(malformed.sender, entry) {
        Some(message) => is_same_id(id, message.otid()) && is_same_id(dtid, message.dtid()),
        None => false,
    }
}

/// Returns whether one of these entries is such a message.
fn some_join(malformed: &Malformed, id: Option<TransactionIdView>, entries: &[Entry]) -> bool
    ensures { result ≡ list_any (joins malformed.now (id_of id.entry)) entries.now }
{
    for entry in entries {
        if joins(malformed, id, entry) {
            return true;
        }
    }
    false
}

/// Returns whether an Abort may answer a malformed message, given the entries before the Abort. With cause 1 or 4 it may
/// refuse the transaction of one that is no Begin or Continue with its IDs in place. With another destination ID than
/// that of the message it may report it if its sender knew that ID as the one of its peer.
fn may_answer(malformed: &Malformed, earlier: &[Entry], message: &Message) -> bool
    ensures { result ≡ may_answer malformed.now earlier.now message.now }
{
    let id = message.dtid();
    if is_same_id(malformed.otid(), id) {
        (has_cause(1, message) || has_cause(4, message)) && !opens(malformed)
    } else {
        reports_malformed(malformed.kind, message)
            && may_continue(malformed.kind)
            && some_join(malformed, id, earlier)
    }
}

/// Returns whether an entry is malformed and of the receiver of a malformed message, or is an Abort of the provider that
/// does not answer that message.
fn is_wrong(malformed: &Malformed, earlier: &[Entry], entry: &Entry) -> bool
    ensures { result ≡ is_wrong malformed.now earlier.now entry.now }
{
    let receiver = malformed.sender.other();
    if is_malformed_of(receiver, entry) {
        return true;
    }
    match message_in(receiver, entry) {
        Some(message) => { message.cause().is_some() && !may_answer(malformed, earlier, message) }
        None => false,
    }
}

/// Returns whether the entry with this number is wrong no matter how its sender took a malformed message of its peer: it
/// is malformed itself, or an Abort of the provider that does not answer that message.
pub fn is_wrong_at(malformed: &Malformed, number: u64, entries: &[Entry]) -> bool
    ensures { result ≡ is_wrong_at malformed.now number entries.now }
{
    match entries.get(number as usize) {
        Some(entry) => is_wrong(malformed, before(number, entries), entry),
        None => false,
    }
}
