//! What is kept of the entries before one entry of a record.

ghost use Rattle.std.specs.Prelude.{◌≡◌, ◌+◌, List, [], ◌∷◌, ◌++◌, slice_get, Some, IfOk, OnOk};
ghost use Rattle.tcap_record.specs.declared.entry.Entry.{Entry};
ghost use Rattle.tcap_model.specs.Entries.{item_of};
ghost use Rattle.tcap_model.specs.World.{Item};
ghost use Rattle.tcap_faults.specs.Replay.{IsReplayed};
ghost use Rattle.tcap_faults.specs.SearchState.{IsHalfKey};
ghost use Rattle.tcap_faults.specs.FaultSubject.{items_among};

use crate::transaction::history::Facts;
use crate::transaction::lookup::key_of;
use crate::verdict::first_fault::entry_count;
use std::alloc::{AllocError, Global};
use tcap_end::Table;
use tcap_msg::MessageParts;
use tcap_record::{Body, End, Entry, Record};
use tcap_refute::SearchFault;

/// The history after some entries of a record, for one end.
#[derive(Drop)]
pub(crate) struct Replay {
    pub(crate) kept: Facts,
    /// The number of the first entry since the last quiet mark in which the end used an own ID again.
    pub(crate) again: Option<u64>,
}

impl Facts {
    /// Notes an entry; one that is no item changes nothing. Fails if memory runs out.
    pub(crate) fn note_entry(
        &mut self,
        alloc: Global,
        table: &Table,
        entry: &Entry,
    ) -> Result<(), AllocError>
        ensures { (items : List Item) → IsHalfKey table.now items self.old
            → OnOk result (IsHalfKey table.now (items ++ items_among (item_of entry.now ∷ [])) self.new) }
    {
        match (entry.side, &entry.body) {
            (Some(sender), Body::Good(message)) => {
                let view = message.view();
                let otid = key_of(view.otid());
                let dtid = key_of(view.dtid());
                let found = self.find(sender, otid.as_ref(), dtid.as_ref());
                let effects = self.effects(table, sender, found);
                self.note(alloc, table, sender, &view, effects)
            }
            (None, Body::Quiet) => {
                self.note_mark(alloc);
                Ok(())
            }
            _ => Ok(()),
        }
    }
}

impl Replay {
    /// Returns the history after the entries before this number, or after all entries if the record has no entry with
    /// this number. Fails if memory runs out.
    pub(crate) fn before(
        alloc: Global,
        record: &Record,
        table: &Table,
        end: End,
        number: u64,
    ) -> Result<Replay, SearchFault>
        ensures { IfOk result (IsReplayed table.now end «record».now.entries.items number) }
    {
        let mut replay = Replay {
            kept: Facts::new(alloc),
            again: None,
        };
        for (place, entry) in record.entries.iter().enumerate() {
            if place as u64 == number {
                break;
            }
            replay.take(alloc, table, end, place as u64, entry)?;
        }
        Ok(replay)
    }

    /// Notes the entry with this number. Fails if memory runs out.
    pub(crate) fn take(
        &mut self,
        alloc: Global,
        table: &Table,
        end: End,
        number: u64,
        entry: &Entry,
    ) -> Result<(), AllocError>
        ensures { (entries : List Entry) → IsReplayed table.now end entries number self.old
            → slice_get entries number ≡ Some entry.now
            → OnOk result (IsReplayed table.now end entries (number + 1) self.new) }
    {
        // Bounds the number of components, so that no count of them exceeds the greatest.
        let _count = entry_count(entry);
        self.kept.note_entry(alloc, table, entry)?;
        self.again = if self.kept.ends(end).own.again {
            self.again.or(Some(number))
        } else {
            None
        };
        Ok(())
    }
}
