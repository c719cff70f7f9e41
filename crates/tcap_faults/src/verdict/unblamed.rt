//! The reason why nothing is blamed on an end at an entry (Q.774 3.3).

ghost use Rattle.std.specs.Prelude.{◌≡◌, ℕ, List, slice_get, Some, IfOk};
ghost use Rattle.tcap_record.specs.declared.entry.Entry.{Entry};
ghost use Rattle.tcap_end.specs.Table.{Table};
ghost use Rattle.tcap_model.specs.Entries.{item_of};
ghost use Rattle.tcap_faults.specs.Replay.{items_up_to};
ghost use Rattle.tcap_faults.specs.SearchState.{IsHalfKey};
ghost use Rattle.tcap_faults.specs.Unblamed.{is_mark, tangled_at, unblamed_at, unblamed_by};

use crate::transaction::history::Facts;
use crate::verdict::earlier_entries::Replay;
use crate::verdict::unblamed_reason::{TangledId, Unblamed};
use std::alloc::Global;
use tcap_end::Table;
use tcap_record::{Body, End, Entry, Record};
use tcap_refute::SearchFault;

impl Facts {
    /// Returns the first tangled ID that an entry's message goes over, if this end sent it after what is kept.
    fn tangled_at(&self, end: End, entry: &Entry) -> Option<TangledId>
        ensures { (table : Table) (entries : List Entry) (number : ℕ)
            → IsHalfKey table (items_up_to entries number) self.now
            → slice_get entries number ≡ Some entry.now → result ≡ tangled_at end entries number }
    {
        match (entry.side, &entry.body) {
            (Some(sender), Body::Good(message)) if sender == end => {
                self.ends(end).tangled_of(end, &message.view())
            }
            _ => None,
        }
    }
}

/// Returns whether an entry is a quiet mark.
fn is_mark(entry: &Entry) -> bool
    ensures { result ≡ is_mark (Some (item_of entry.now)) }
{
    matches!((entry.side, &entry.body), (None, Body::Quiet))
}

/// Returns the reason, from the entry in which an own ID was used again, if there is one, and the first tangled ID.
fn unblamed_by(again: Option<u64>, tangled: Option<TangledId>) -> Option<Unblamed>
    ensures { result ≡ unblamed_by again tangled }
{
    match again {
        Some(number) => Some(Unblamed::UsedAgain(number)),
        None => match tangled {
            Some(tangled) => Some(Unblamed::Tangled(tangled)),
            None => None,
        },
    }
}

/// Returns why nothing is blamed on an end at the entry with this number, from 0 (Q.774 3.3).
///
/// - `UsedAgain` if the end used an own ID again since the last quiet mark, up to and with this entry; it has the
///   number of the first such entry. For a quiet mark, the entries since the mark before it count.
/// - `Tangled` if not, and if the end sent this entry's message and it goes over tangled IDs. It has the first of
///   them: the destination ID; else an own ID that is joined with it, or the originating ID; else an ID that is
///   joined with one of these.
/// - `None` otherwise.
///
/// If the record has no such entry, all entries are looked at for IDs that are used again. The entries are noted
/// again, so this costs as much as the search up to that entry.
///
/// # Errors
///
/// `Memory` if memory runs out.
pub fn unblamed(
    alloc: Global,
    record: &Record,
    table: &Table,
    end: End,
    number: u64,
) -> Result<Option<Unblamed>, SearchFault>
    ensures { IfOk result (λ u. u ≡ unblamed_at table.now end «record».now.entries.items number) }
{
    let mut replay = Replay::before(alloc, record, table, end, number)?;
    let Some(entry) = record.entry_at(number) else {
        return Ok(unblamed_by(replay.again, None));
    };
    if is_mark(entry) {
        return Ok(unblamed_by(replay.again, None));
    }
    let tangled = replay.kept.tangled_at(end, entry);
    replay.take(alloc, table, end, number, entry)?;
    Ok(unblamed_by(replay.again, tangled))
}
