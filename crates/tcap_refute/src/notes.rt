//! What is kept of the messages of both ends since the last quiet mark, by transaction ID.

ghost use Rattle.std.specs.Prelude.{◌≡◌, ◌&&◌, ◌||◌, ℕ, List, Some, false, OnOk, option_copied};
ghost use Rattle.std.specs.Map.{lookup};
ghost use Rattle.std.specs.BTreeMap.{is_at};
ghost use Rattle.std.specs.BTreeSet as set;
ghost use Rattle.tcap_msg.specs.Meaning.{id_of};
ghost use Rattle.tcap_record.specs.declared.entry.End.{End as Side};
ghost use Rattle.tcap_end.specs.End.{is_id};
ghost use Rattle.tcap_end.specs.Table.{octets_cmp};
ghost use Rattle.tcap_record.specs.Ends.{other};
ghost use Rattle.tcap_model.specs.World.{is_side};
ghost use Rattle.tcap_model.specs.SinceMark.{ended_by};
ghost use Rattle.tcap_refute.specs.Facts.{EndFact, Ended, From, FromFact, shows_end, shows_from};
ghost use Rattle.tcap_model.specs.World.{Item, Sent};
ghost use Rattle.tcap_refute.specs.KindsByFacts.{fact_ended};
ghost use Rattle.tcap_refute.specs.KeptFacts.{AreNotesOf, holds, kept_from, notes_at, end_fact_noted, from_fact_noted, fact_by_notes};
ghost use Rattle.tcap_refute.specs.Kind.{lowest_kind};

use crate::kind::Kind;
use crate::kinds_by_notes::kind_by;
use crate::sent_from_id::FromId;
use std::alloc::{AllocError, Global};
use std::collections::{BTreeMap, BTreeSet};
use tcap_end::Table;
use tcap_msg::{Kind as Form, MessageParts, TransactionId, TransactionIdView};
use tcap_record::End;

/// The notes on the messages of one end.
#[derive(Drop)]
pub(crate) struct EndNotes {
    /// The notes on each originating ID.
    pub(crate) from: BTreeMap<TransactionId, FromId>,
    /// The destination IDs of its Ends, and of its Aborts without cause.
    pub(crate) ended: BTreeSet<TransactionId>,
}

/// The notes on the messages of both ends since the last quiet mark.
#[derive(Drop)]
pub(crate) struct Notes {
    pub(crate) a: EndNotes,
    pub(crate) b: EndNotes,
}

/// Returns the destination ID of an End, or of an Abort without cause.
fn ended_by<M: MessageParts>(message: &M) -> Option<TransactionIdView<'_>>
    ensures { id_of result ≡ ended_by (M.meaning message.now) }
{
    match (message.kind(), message.cause()) {
        (Form::End, _) | (Form::Abort, None) => message.dtid(),
        _ => None,
    }
}

impl EndNotes {
    /// Creates the notes on an end that sent nothing.
    fn new(alloc: Global) -> EndNotes
        ensures { (fact : EndFact) → end_fact_noted fact result ≡ false }
    {
        EndNotes {
            from: BTreeMap::new(alloc),
            ended: BTreeSet::new(alloc),
        }
    }

    /// Returns what the end sent from an ID, if there is one.
    fn from(&self, id: Option<TransactionIdView>) -> Option<&FromId>
        ensures { option_copied result ≡ kept_from (id_of id.entry) self.now }
    {
        self.from.get(&id?.to_transaction_id())
    }

    /// Returns whether the end ended the dialogue with an ID; false if there is none.
    fn has_ended(&self, id: Option<TransactionIdView>) -> bool
        ensures { result ≡ fact_ended (λ fact. end_fact_noted fact self.now) (id_of id.entry) }
    {
        match id {
            Some(id) => self.ended.contains(&id.to_transaction_id()),
            None => false,
        }
    }

    /// Notes a message under this originating ID. Fails if memory runs out.
    fn note_from<M: MessageParts>(
        &mut self,
        alloc: Global,
        table: &Table,
        id: TransactionIdView,
        message: &M,
    ) -> Result<(), AllocError>
        ensures from { OnOk result ((other : List ℕ) (fact : FromFact)
            → holds (from_fact_noted fact) (lookup (is_at (octets_cmp other)) self.new.from.entries)
            ≡ holds (from_fact_noted fact) (lookup (is_at (octets_cmp other)) self.old.from.entries)
            || is_id other (Some id.entry.octets.now) && shows_from table.now fact (M.meaning message.now)) }
        ensures ended { self.new.ended ≡ self.old.ended }
    {
        let key = id.to_transaction_id();
        if let Some(kept) = self.from.get_mut(&key) {
            return kept.note(alloc, table, message);
        }
        let mut kept = FromId::new(alloc);
        kept.note(alloc, table, message)?;
        self.from.insert(key, kept)?;
        Ok(())
    }

    /// Notes a message under its originating ID, if it has one. Fails if memory runs out.
    fn note_otid<M: MessageParts>(
        &mut self,
        alloc: Global,
        table: &Table,
        message: &M,
    ) -> Result<(), AllocError>
        ensures from { OnOk result ((id : List ℕ) (fact : FromFact) → end_fact_noted (From id fact) self.new
            ≡ end_fact_noted (From id fact) self.old || shows_end table.now (From id fact) (M.meaning message.now)) }
        ensures ended { self.new.ended ≡ self.old.ended }
    {
        match message.otid() {
            Some(id) => self.note_from(alloc, table, id, message),
            None => Ok(()),
        }
    }

    /// Notes the destination ID of a message that ends a dialogue. Fails if memory runs out.
    fn note_ended<M: MessageParts>(&mut self, message: &M) -> Result<(), AllocError>
        ensures ended { OnOk result ((id : List ℕ) → end_fact_noted (Ended id) self.new
            ≡ end_fact_noted (Ended id) self.old || is_id id (ended_by (M.meaning message.now))) }
        ensures from { self.new.from ≡ self.old.from }
    {
        if let Some(id) = ended_by(message) {
            self.ended.insert(id.to_transaction_id())?;
        }
        Ok(())
    }

    /// Notes a message. Fails if memory runs out.
    fn note<M: MessageParts>(
        &mut self,
        alloc: Global,
        table: &Table,
        message: &M,
    ) -> Result<(), AllocError>
        ensures { OnOk result ((fact : EndFact) → end_fact_noted fact self.new
            ≡ end_fact_noted fact self.old || shows_end table.now fact (M.meaning message.now)) }
    {
        self.note_otid(alloc, table, message)?;
        self.note_ended(message)
    }
}

impl Notes {
    /// Creates the notes on two ends that sent nothing.
    pub(crate) fn new(alloc: Global) -> Notes
        ensures { (side : Side) (fact : EndFact) → fact_by_notes result side fact ≡ false }
    {
        Notes {
            a: EndNotes::new(alloc),
            b: EndNotes::new(alloc),
        }
    }

    /// Returns the notes on this end.
    fn at(&self, side: End) -> &EndNotes
        ensures { result.now ≡ notes_at side self.now }
    {
        match side {
            End::A => &self.a,
            End::B => &self.b,
        }
    }

    /// Returns the lowest kind of a message that this end sends.
    pub(crate) fn kind_of<M: MessageParts>(
        &self,
        table: &Table,
        side: End,
        message: &M,
    ) -> Option<Kind>
        ensures { (items : List Item) → AreNotesOf table.now items self.now
            → result ≡ lowest_kind table.now items (Sent side (M.meaning message.now)) }
    {
        let sender = self.at(side);
        let own = sender.from(message.otid());
        let from_peer = self.at(side.other()).from(message.dtid());
        let has_ended = sender.has_ended(message.dtid());
        kind_by(false, table, own, from_peer, has_ended, message)
    }

    /// Notes a message that this end sent. Fails if memory runs out.
    pub(crate) fn note<M: MessageParts>(
        &mut self,
        alloc: Global,
        table: &Table,
        side: End,
        message: &M,
    ) -> Result<(), AllocError>
        ensures { OnOk result ((end : Side) (fact : EndFact) → fact_by_notes self.new end fact
            ≡ fact_by_notes self.old end fact || is_side end side && shows_end table.now fact (M.meaning message.now)) }
    {
        match side {
            End::A => self.a.note(alloc, table, message),
            End::B => self.b.note(alloc, table, message),
        }
    }
}
