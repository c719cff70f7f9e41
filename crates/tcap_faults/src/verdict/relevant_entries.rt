//! What is kept of a record if one half alone is asked about.

ghost use Rattle.std.specs.Prelude.{◌≡◌, ◌+◌, ℕ, List, slice_get, Some, Ok, IfOk, OnOk};
ghost use Rattle.tcap_msg.specs.Meaning.{id_of};
ghost use Rattle.tcap_record.specs.declared.entry.Entry.{Entry};
ghost use Rattle.tcap_end.specs.End.{is_id};
ghost use Rattle.tcap_model.specs.Entries.{item_of};
ghost use Rattle.tcap_model.specs.World.{Item, Sent};
ghost use Rattle.tcap_faults.specs.Replay.{items_up_to};
ghost use Rattle.tcap_faults.specs.RelevantItems.{IsNoted, IsNotedFor, matters_for_half, items_for_entry};

use crate::transaction::history::Facts;
use crate::verdict::first_fault::entry_count;
use std::alloc::{AllocError, Global};
use tcap_end::Table;
use tcap_msg::{Kind as Form, MessageParts, TransactionIdView};
use tcap_record::{Body, End, Entry, Record};

/// Returns whether there is another ID, and both are equal.
fn is_id(id: TransactionIdView, other: Option<TransactionIdView>) -> bool
    ensures { result ≡ is_id id.entry.octets.now (id_of other.entry) }
{
    match other {
        Some(other) => id.octets == other.octets,
        None => false,
    }
}

/// Returns whether a message matters for the half of an end with an ID of its peer (Q.774 3.3).
///
/// It does if the peer sent it from the ID, if the end sent it to the ID, or if it is a Begin of the end, which the
/// peer may have continued from the ID.
fn message_matters<M: MessageParts>(
    side: End,
    id: TransactionIdView,
    sender: End,
    message: &M,
) -> bool
    ensures { result ≡ matters_for_half side id.entry.octets.now (Sent sender (M.meaning message.now)) }
{
    if sender == side {
        matches!(message.kind(), Form::Begin) || is_id(id, message.dtid())
    } else {
        is_id(id, message.otid())
    }
}

/// Returns whether an entry matters for the half; a quiet mark always does.
fn entry_matters(side: End, id: TransactionIdView, entry: &Entry) -> bool
    ensures { (item : Item) → item_of entry.now ≡ Ok item → result ≡ matters_for_half side id.entry.octets.now item }
{
    match (entry.side, &entry.body) {
        (Some(sender), Body::Good(message)) => message_matters(side, id, sender, &message.view()),
        _ => true,
    }
}

impl Facts {
    /// Notes an entry, if it matters for the half of an end with this ID. Fails if memory runs out.
    fn note_for(
        &mut self,
        alloc: Global,
        table: &Table,
        side: End,
        id: TransactionIdView,
        entry: &Entry,
    ) -> Result<(), AllocError>
        ensures { (entries : List Entry) (number : ℕ)
            → IsNotedFor table.now side id.entry.octets.now entries number self.old
            → slice_get entries number ≡ Some entry.now
            → OnOk result (IsNotedFor table.now side id.entry.octets.now entries (number + 1) self.new) }
    {
        if !entry_matters(side, id, entry) {
            return Ok(());
        }
        // Bounds the number of components, so that no count of them exceeds the greatest.
        let _count = entry_count(entry);
        self.note_entry(alloc, table, entry)
    }

    /// Returns the history of the entries before this number that matter for the half of an end with this ID. If the
    /// record has no entry with this number, all entries are looked at. Fails if memory runs out.
    fn for_half(
        alloc: Global,
        record: &Record,
        table: &Table,
        side: End,
        id: TransactionIdView,
        number: u64,
    ) -> Result<Facts, AllocError>
        ensures { IfOk result (IsNotedFor table.now side id.entry.octets.now «record».now.entries.items number) }
    {
        let mut kept = Facts::new(alloc);
        for (place, entry) in record.entries.iter().enumerate() {
            if place as u64 == number {
                break;
            }
            kept.note_for(alloc, table, side, id, entry)?;
        }
        Ok(kept)
    }

    /// Returns the history of the entries before this number that matter for the half with the destination ID of the
    /// entry's message. It is empty if the entry is no message or has no such ID. Fails if memory runs out.
    pub(crate) fn for_entry(
        alloc: Global,
        record: &Record,
        table: &Table,
        side: End,
        number: u64,
        entry: &Entry,
    ) -> Result<Facts, AllocError>
        ensures { IfOk result (IsNoted table.now (items_for_entry side (item_of entry.now)
            (items_up_to «record».now.entries.items number)) number) }
    {
        let (Some(_), Body::Good(message)) = (entry.side, &entry.body) else {
            return Ok(Facts::new(alloc));
        };
        let view = message.view();
        match view.dtid() {
            Some(id) => Facts::for_half(alloc, record, table, side, id, number),
            None => Ok(Facts::new(alloc)),
        }
    }
}
