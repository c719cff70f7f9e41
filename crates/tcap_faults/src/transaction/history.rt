//! What is kept of both ends since the last quiet mark.

ghost use Rattle.std.specs.Prelude.{◌≡◌, ℕ, List, [], not, option_copied};
ghost use Rattle.std.specs.List.{list_any};
ghost use Rattle.tcap_msg.specs.Meaning.{id_of};
ghost use Rattle.tcap_record.specs.declared.entry.End.{End as Side};
ghost use Rattle.tcap_record.specs.Ends.{other};
ghost use Rattle.tcap_end.specs.Table.{Table};
ghost use Rattle.tcap_model.specs.World.{Item};
ghost use Rattle.tcap_refute.specs.EarlierMessages.{ends_to, sent_by};
ghost use Rattle.tcap_refute.specs.KindsByFacts.{fact_from};
ghost use Rattle.tcap_refute.specs.Facts.{FromFact, fact_in_items};
ghost use Rattle.tcap_refute.specs.KeptFacts.{fact_by_from};
ghost use Rattle.tcap_faults.specs.Counts.{is_nothing};
ghost use Rattle.tcap_faults.specs.TangledIds.{guesses};
ghost use Rattle.tcap_faults.specs.SentToId.{began, has_ended, has_used, one_passes, outgoing};
ghost use Rattle.tcap_faults.specs.History.{AreFacts, IsSide};

use crate::transaction::id_list::Ids;
use crate::transaction::sent_from_id::{SentFrom, begins, first_of};
use crate::transaction::sent_to_id::{SentTo, is_ended, is_silenced, tells};
use std::alloc::Global;
use std::collections::{BTreeMap, BTreeSet};
use tcap_msg::{TransactionId, TransactionIdView};
use tcap_record::End;
use tcap_refute::FromId;

/// The history of one end.
#[derive(Drop)]
pub(crate) struct SideFacts {
    /// The messages that it sent, by originating ID.
    pub(crate) from: BTreeMap<TransactionId, SentFrom>,
    /// The messages that it sent, by destination ID.
    pub(crate) to: BTreeMap<TransactionId, SentTo>,
    /// The destination IDs of its Continues, by originating ID, as far as the other end had used them.
    pub(crate) joined: BTreeMap<TransactionId, Ids>,
    /// Its IDs from which, after a Begin, it sent a Continue to an ID that the other end had not used.
    pub(crate) guessed: BTreeSet<TransactionId>,
    /// Its IDs that it answered as closed, by an Abort with cause 1 that can answer no other.
    pub(crate) closed: BTreeSet<TransactionId>,
    /// Its IDs that are joined with an ID to which it sent an End, or an Abort without cause.
    pub(crate) over: BTreeSet<TransactionId>,
    /// True if it used an own ID again.
    pub(crate) again: bool,
}

/// The history of both ends.
#[derive(Drop)]
pub(crate) struct Facts {
    pub(crate) a: SideFacts,
    pub(crate) b: SideFacts,
}

impl SideFacts {
    /// Creates the history of an end that sent nothing.
    fn new(alloc: Global) -> SideFacts
        ensures { (table : Table) (side : Side) → IsSide table side [] result }
    {
        SideFacts {
            from: BTreeMap::new(alloc),
            to: BTreeMap::new(alloc),
            joined: BTreeMap::new(alloc),
            guessed: BTreeSet::new(alloc),
            closed: BTreeSet::new(alloc),
            over: BTreeSet::new(alloc),
            again: false,
        }
    }

    /// Returns the notes for F2 to F7 on what the end sent from this ID; `None` if there is no ID, or nothing was sent
    /// from it.
    pub(crate) fn first_from(&self, id: Option<TransactionIdView>) -> Option<&FromId>
        ensures { (table : Table) (side : Side) (items : List Item) (fact : FromFact) → IsSide table side items self.now
            → fact_by_from (option_copied result) fact
            ≡ fact_from (fact_in_items table side items) (id_of id.entry) fact }
    {
        match id {
            Some(id) => first_of(self.from.get(&id.to_transaction_id())),
            None => None,
        }
    }

    /// Returns whether the end used an ID: it sent a Begin or a Continue from it.
    pub(crate) fn has_used(&self, id: &TransactionId) -> bool
        ensures { (table : Table) (side : Side) (items : List Item) → IsSide table side items self.now
            → result ≡ has_used side items id.now }
    {
        self.from.contains_key(id)
    }

    /// Returns whether the end sent a Begin from an ID.
    pub(crate) fn began(&self, id: &TransactionId) -> bool
        ensures { (table : Table) (side : Side) (items : List Item) → IsSide table side items self.now
            → result ≡ began side id.now items }
    {
        begins(self.from.get(id))
    }

    /// Returns whether the end, after a Begin from an ID, sent a Continue from it to an ID that the other end had not
    /// used.
    pub(crate) fn has_guessed(&self, id: &TransactionId) -> bool
        ensures { (table : Table) (side : Side) (items : List Item) → IsSide table side items self.now
            → result ≡ one_passes (guesses (other side) id.now) [] items }
    {
        self.guessed.contains(id)
    }

    /// Returns whether the end sent a message to an ID that is no Abort of the provider.
    pub(crate) fn has_spoken_to(&self, id: &TransactionId) -> bool
        ensures { (table : Table) (side : Side) (items : List Item) → IsSide table side items self.now
            → result ≡ not (is_nothing (outgoing side id.now items)) }
    {
        tells(self.to.get(id))
    }

    /// Returns whether the end sent an End or an Abort to an ID.
    pub(crate) fn has_silenced(&self, id: &TransactionId) -> bool
        ensures { (table : Table) (side : Side) (items : List Item) → IsSide table side items self.now
            → result ≡ list_any (ends_to id.now) (sent_by side items) }
    {
        is_silenced(self.to.get(id))
    }

    /// Returns whether the end sent an End, or an Abort without cause, to an ID.
    pub(crate) fn has_ended(&self, id: &TransactionId) -> bool
        ensures { (table : Table) (side : Side) (items : List Item) → IsSide table side items self.now
            → result ≡ has_ended side items id.now }
    {
        is_ended(self.to.get(id))
    }
}

impl Facts {
    /// Creates the history of ends that sent nothing.
    pub(crate) fn new(alloc: Global) -> Facts
        ensures { (table : Table) → AreFacts table [] result }
    {
        Facts {
            a: SideFacts::new(alloc),
            b: SideFacts::new(alloc),
        }
    }

    /// Returns the history of this end.
    pub(crate) fn of(&self, side: End) -> &SideFacts
        ensures { (table : Table) (items : List Item) → AreFacts table items self.now
            → IsSide table side items result.now }
    {
        match side {
            End::A => &self.a,
            End::B => &self.b,
        }
    }
}
