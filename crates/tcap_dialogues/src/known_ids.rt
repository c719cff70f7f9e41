//! What is known of the transaction IDs of a segment.

ghost use Rattle.std.specs.Prelude.{◌≡◌, ◌&&◌, ◌||◌, ℕ, List, [], None, Some, cond, is_none, OnOk};
ghost use Rattle.std.specs.BTreeMap as tree;
ghost use Rattle.std.specs.BTreeSet as set;
ghost use Rattle.std.specs.Str.{bytes_eq};
ghost use Rattle.tcap_end.specs.Table.{octets_cmp};
ghost use Rattle.tcap_model.specs.World.{is_side};
ghost use Rattle.tcap_msg.specs.Meaning.{id_of};
ghost use Rattle.tcap_dialogues.specs.DialoguesOfList.{IdOf, is_same};
ghost use Rattle.tcap_dialogues.specs.CutDialogues.{has_id};
ghost use Rattle.tcap_dialogues.specs.CutState.{changed, earlier_of, free_since, free_id_since, is_unsettled, known_at, known_by, known_in, known_of, nothing};

use std::alloc::{AllocError, Global};
use std::collections::{BTreeMap, BTreeSet};
use tcap_msg::{TransactionId, TransactionIdView};
use tcap_record::End;

/// The facts known about a transaction ID.
#[derive(Clone, Copy, Debug)]
pub(crate) struct IdState {
    /// The name of the live dialogue that has the ID.
    pub(crate) dialogue: Option<u64>,
    /// Whether the ID is the originating ID of an entry of this dialogue.
    pub(crate) used: bool,
    /// Whether a Begin of this dialogue is from the ID.
    pub(crate) begun: bool,
    /// If dialogues that are done had the ID, the number of the first entry of the last one: the highest such number.
    pub(crate) last: Option<u64>,
    /// Whether the owner sent a message from the ID in one of those dialogues, or one of them began after the under-way
    /// directive.
    pub(crate) firm: bool,
    /// Whether the owner sent a message from the ID in the segment.
    pub(crate) sent: bool,
}

/// The facts known about a transaction ID that no live dialogue has.
#[derive(Clone, Copy, Debug)]
pub(crate) struct FreeIdState {
    /// The number of the first entry of the last dialogue that had the ID: the highest such number.
    pub(crate) last: u64,
    /// Whether the owner sent a message from the ID, or a dialogue that had it began after the under-way directive.
    pub(crate) firm: bool,
    /// Whether the owner sent a message from the ID in the segment.
    pub(crate) sent: bool,
}

/// A change of the IDs of a dialogue.
#[derive(Clone, Copy)]
pub(crate) enum Change {
    /// The dialogue is done, and its IDs are free.
    Free {
        /// The number of the first entry of the dialogue.
        first: u64,
        /// Whether the dialogue began before the under-way directive.
        early: bool,
    },
    /// The IDs belong to the live dialogue with this name.
    JoinTo(u64),
}

impl IdState {
    /// Nothing is known of the ID.
    pub(crate) const NOTHING: IdState = IdState {
        dialogue: None,
        used: false,
        begun: false,
        last: None,
        firm: false,
        sent: false,
    };

    /// Returns the number of the last dialogue that had the ID, unless a live dialogue has it.
    pub(crate) fn earlier(self) -> Option<u64>
        ensures { result ≡ earlier_of self }
    {
        if self.dialogue.is_none() {
            self.last
        } else {
            None
        }
    }

    /// Returns whether an earlier dialogue had the ID, no live dialogue has it, and it is not firm.
    pub(crate) fn is_unsettled(self) -> bool
        ensures { result ≡ is_unsettled self }
    {
        self.earlier().is_some() & !self.firm
    }

    /// Returns what is known of the ID after its dialogue is done.
    fn free_state(self, first: u64, early: bool) -> FreeIdState
        ensures { result ≡ free_id_since first early self }
    {
        FreeIdState {
            last: match self.last {
                Some(last) if first < last => last,
                _ => first,
            },
            firm: self.firm | self.used | !early,
            sent: self.sent,
        }
    }
}

/// The facts known about each transaction ID of an end.
#[derive(Debug, Drop)]
pub(crate) struct EndIds {
    /// The IDs that live dialogues have.
    live: BTreeMap<TransactionId, IdState>,
    /// The IDs of dialogues that are done.
    done: BTreeMap<TransactionId, FreeIdState>,
}

impl EndIds {
    /// Creates an empty map.
    fn new(alloc: Global) -> EndIds
        ensures { (octets : List ℕ) → known_in result octets ≡ nothing }
    {
        EndIds {
            live: BTreeMap::new(alloc),
            done: BTreeMap::new(alloc),
        }
    }

    /// Returns what is known of an ID that no live dialogue has.
    fn get_done(&self, id: TransactionIdView) -> IdState
        ensures { result ≡ known_by None (tree.get octets_cmp self.now.done id.entry.octets.now) }
    {
        match self.done.get(&id.to_transaction_id()) {
            Some(free) => IdState {
                last: Some(free.last),
                firm: free.firm,
                sent: free.sent,
                ..IdState::NOTHING
            },
            None => IdState::NOTHING,
        }
    }

    /// Returns what is known of an ID.
    fn get(&self, id: TransactionIdView) -> IdState
        ensures { result ≡ known_in self.now id.entry.octets.now }
    {
        match self.live.get(&id.to_transaction_id()) {
            Some(known) => *known,
            None => self.get_done(id),
        }
    }

    /// Sets what is known of an ID. Fails if memory runs out.
    fn set(&mut self, id: TransactionIdView, known: IdState) -> Result<(), AllocError>
        ensures { OnOk result ((octets : List ℕ) → known_in self.new octets
            ≡ cond (bytes_eq octets id.entry.octets.now) known (known_in self.old octets)) }
    {
        self.live.insert(id.to_transaction_id(), known)?;
        Ok(())
    }

    /// Frees an ID, whose dialogue is done. Fails if memory runs out.
    fn free(&mut self, id: TransactionIdView, first: u64, early: bool) -> Result<(), AllocError>
        ensures { OnOk result ((octets : List ℕ) → known_in self.new octets
            ≡ cond (bytes_eq octets id.entry.octets.now)
            (free_since first early (known_in self.old id.entry.octets.now))
            (known_in self.old octets)) }
    {
        let known = match self.live.remove(&id.to_transaction_id()) {
            Some(known) => known,
            None => self.get_done(id),
        };
        self.done
            .insert(id.to_transaction_id(), known.free_state(first, early))?;
        Ok(())
    }

    /// Adds an ID to a set, if its owner sent a message from it. Fails if memory runs out.
    fn add_sent(
        &self,
        id: &TransactionId,
        ids: &mut BTreeSet<TransactionId>,
    ) -> Result<(), AllocError>
        ensures { OnOk result ((octets : List ℕ) → set.contains octets_cmp ids.new octets
            ≡ set.contains octets_cmp ids.old octets || (bytes_eq octets id.now && (known_in self.now octets).sent)) }
    {
        if self.get(id.view()).sent {
            ids.insert(id.view().to_transaction_id())?;
        }
        Ok(())
    }

    /// Adds each ID from which its owner sent a message. Fails if memory runs out.
    fn sent_from(&self, ids: &mut BTreeSet<TransactionId>) -> Result<(), AllocError>
        ensures { OnOk result ((octets : List ℕ) → set.contains octets_cmp ids.new octets
            ≡ set.contains octets_cmp ids.old octets || (known_in self.now octets).sent) }
    {
        for id in self.live.keys() {
            self.add_sent(id, ids)?;
        }
        for id in self.done.keys() {
            self.add_sent(id, ids)?;
        }
        Ok(())
    }
}

/// The facts known about each transaction ID of both ends.
#[derive(Debug, Drop)]
pub(crate) struct Ids {
    a: EndIds,
    b: EndIds,
}

impl Ids {
    /// Creates an empty map.
    pub(crate) fn new(alloc: Global) -> Ids
        ensures { (id : IdOf) → known_at result id ≡ nothing }
    {
        Ids {
            a: EndIds::new(alloc),
            b: EndIds::new(alloc),
        }
    }

    /// Returns what is known of an ID of an end.
    pub(crate) fn get(&self, end: End, id: TransactionIdView) -> IdState
        ensures { result ≡ known_at self.now (record { end = «end»; octets = id.entry.octets.now }) }
    {
        match end {
            End::A => self.a.get(id),
            End::B => self.b.get(id),
        }
    }

    /// Returns what is known of an ID of an end, or nothing if there is no ID.
    pub(crate) fn get_some(&self, end: End, id: Option<TransactionIdView>) -> IdState
        ensures { result ≡ known_of self.now «end» (id_of id.entry) }
    {
        match id {
            Some(id) => self.get(end, id),
            None => IdState::NOTHING,
        }
    }

    /// Sets what is known of an ID of an end. Fails if memory runs out.
    pub(crate) fn set(
        &mut self,
        end: End,
        id: TransactionIdView,
        known: IdState,
    ) -> Result<(), AllocError>
        ensures { OnOk result ((other : IdOf) → known_at self.new other
            ≡ cond (is_same other (record { end = «end»; octets = id.entry.octets.now })) known
            (known_at self.old other)) }
    {
        match end {
            End::A => self.a.set(id, known),
            End::B => self.b.set(id, known),
        }
    }

    /// Changes what is known of an ID of an end. Fails if memory runs out.
    fn change(&mut self, end: End, id: TransactionIdView, change: Change) -> Result<(), AllocError>
        ensures { let it : IdOf = record { end = «end»; octets = id.entry.octets.now }
            in OnOk result ((other : IdOf) → known_at self.new other
            ≡ cond (is_same other it) (changed change (known_at self.old it)) (known_at self.old other)) }
    {
        match change {
            Change::JoinTo(name) => {
                let known = self.get(end, id);
                let dialogue = Some(name);
                self.set(end, id, IdState { dialogue, ..known })
            }
            Change::Free { first, early } => match end {
                End::A => self.a.free(id, first, early),
                End::B => self.b.free(id, first, early),
            },
        }
    }

    /// Adds each ID of an end from which its owner sent a message. Fails if memory runs out.
    pub(crate) fn sent_from(
        &self,
        end: End,
        ids: &mut BTreeSet<TransactionId>,
    ) -> Result<(), AllocError>
        ensures { OnOk result ((octets : List ℕ) → set.contains octets_cmp ids.new octets
            ≡ set.contains octets_cmp ids.old octets
            || (known_at self.now (record { end = «end»; octets = octets })).sent) }
    {
        match end {
            End::A => self.a.sent_from(ids),
            End::B => self.b.sent_from(ids),
        }
    }

    /// Changes what is known of these IDs of an end. Fails if memory runs out.
    pub(crate) fn change_all(
        &mut self,
        end: End,
        ids: &BTreeSet<TransactionId>,
        change: Change,
    ) -> Result<(), AllocError>
        ensures { OnOk result ((id : IdOf) → known_at self.new id
            ≡ cond (is_side id.end «end» && set.contains octets_cmp ids.now id.octets)
            (changed change (known_at self.old id)) (known_at self.old id)) }
    {
        for id in ids {
            self.change(end, id.view(), change)?;
        }
        Ok(())
    }

    /// Changes what is known of these IDs of A and of B. Fails if memory runs out.
    pub(crate) fn change_both(
        &mut self,
        a: &BTreeSet<TransactionId>,
        b: &BTreeSet<TransactionId>,
        change: Change,
    ) -> Result<(), AllocError>
        ensures { OnOk result ((id : IdOf) → known_at self.new id
            ≡ cond (has_id a.now b.now id) (changed change (known_at self.old id)) (known_at self.old id)) }
    {
        self.change_all(End::A, a, change)?;
        self.change_all(End::B, b, change)
    }
}
