//! Joins an entry to the live dialogues that have one of its IDs.

ghost use Rattle.std.specs.List.{list_any};
ghost use Rattle.std.specs.Prelude.{◌≡◌, ◌+◌, ◌<◌, ◌&&◌, ◌||◌, ℕ, Bool, List, ◌++◌, true, cond, not, Contains, Some, IfOk, OnOk};
ghost use Rattle.tcap_msg.specs.Meaning.{id_of};
ghost use Rattle.tcap_dialogues.specs.Course.{Course, Courses, has_entry, share_id, ids_in, is_alone, joined_by, own_ids};
ghost use Rattle.tcap_dialogues.specs.DialoguesOfList.{IdOf, is_among};
ghost use Rattle.tcap_dialogues.specs.HeadingReading.{heading_read};
ghost use Rattle.tcap_dialogues.specs.CutState.{AreApart, HoldsLive, HoldsOver, IsCutOf, IsCutState, IsJoinedLive, known_at};
ghost use Rattle.tcap_dialogues.specs.CutUpdate.{AreNoted, IsJoined, IsAdded, TakesOne, ids_at};

use crate::cut::Cut;
use crate::heading::HeadingView;
use crate::known_ids::{Change, IdState, Ids};
use crate::live::LiveDialogue;
use std::alloc::AllocError;
use tcap_msg::TransactionIdView;
use tcap_record::End;

impl Ids {
    /// Sets what is known of an ID, if there is one. Fails if memory runs out.
    fn set_some(
        &mut self,
        end: End,
        id: Option<TransactionIdView>,
        known: IdState,
    ) -> Result<(), AllocError>
        ensures { OnOk result ((other : IdOf) → known_at self.new other
            ≡ cond (is_among (ids_at «end» (id_of id.entry)) other) known (known_at self.old other)) }
    {
        match id {
            Some(id) => self.set(end, id, known),
            None => Ok(()),
        }
    }

    /// Notes that the IDs of an entry belong to this dialogue; `own` and `peer` are what was known of them before.
    /// Fails if memory runs out.
    fn note(
        &mut self,
        heading: HeadingView,
        name: u64,
        own: IdState,
        peer: IdState,
    ) -> Result<(), AllocError>
        ensures { OnOk result (AreNoted (heading_read heading.entry) name own peer self.old self.new) }
    {
        let own = IdState {
            dialogue: Some(name),
            used: true,
            begun: own.begun | heading.is_begin(),
            sent: true,
            ..own
        };
        let peer = IdState {
            dialogue: Some(name),
            ..peer
        };
        self.set_some(heading.sender, heading.otid, own)?;
        self.set_some(heading.sender.other(), heading.dtid, peer)
    }
}

impl Cut {
    /// Takes the dialogue with this name out, or creates an empty one, whose name is the number of the next entry.
    fn take_or_new(&mut self, name: Option<u64>) -> LiveDialogue
        ensures { (live : List Course) (names : Course → ℕ) → AreApart live → HoldsLive live names self.old.live
            → HoldsOver live names self.old.overs → TakesOne name live names self.old self.new result }
    {
        match self.take_out(name) {
            Some(live) => live,
            None => LiveDialogue::new(self.alloc, self.count),
        }
    }

    /// Puts a dialogue back. Fails if memory runs out.
    fn put(&mut self, live: LiveDialogue) -> Result<(), AllocError>
        ensures { OnOk result (IsAdded live self.old self.new) }
    {
        if let Some(number) = live.over {
            self.overs.insert(number, live.name)?;
        }
        self.live.insert(live.name, live)?;
        Ok(())
    }

    /// Joins the second dialogue to the first. Fails if memory runs out.
    fn join_to_first(
        &mut self,
        mut one: LiveDialogue,
        other: LiveDialogue,
    ) -> Result<LiveDialogue, AllocError>
        ensures { (ds es : List Course) (names : Course → ℕ) → IsJoinedLive self.old.count ds names one
            → IsJoinedLive self.old.count es names other
            → ((d : Course) (id : IdOf) → Contains (ds ++ es) d → is_among d.ids id ≡ true
            → (known_at self.old.ids id).dialogue ≡ Some (names d))
            → IfOk result (IsJoined self.old.count (ds ++ es) self.old self.new) }
    {
        self.ids
            .change_both(&other.a, &other.b, Change::JoinTo(one.name))?;
        one.absorb(other)?;
        Ok(one)
    }

    /// Joins two dialogues: the smaller one to the larger one. Fails if memory runs out.
    fn join_two(
        &mut self,
        one: LiveDialogue,
        other: LiveDialogue,
    ) -> Result<LiveDialogue, AllocError>
        ensures { (ds es : List Course) (names : Course → ℕ) → IsJoinedLive self.old.count ds names one
            → IsJoinedLive self.old.count es names other
            → ((d : Course) (id : IdOf) → Contains (ds ++ es) d → is_among d.ids id ≡ true
            → (known_at self.old.ids id).dialogue ≡ Some (names d))
            → IfOk result (IsJoined self.old.count (ds ++ es) self.old self.new) }
    {
        if one.numbers.len() < other.numbers.len() {
            self.join_to_first(other, one)
        } else {
            self.join_to_first(one, other)
        }
    }

    /// Joins an entry to the live dialogues that have one of its IDs, or begins a new one. Returns whether it begins a
    /// new one that has IDs. Fails if memory runs out, or after 2^64 - 1 entries.
    pub(crate) fn join(&mut self, heading: HeadingView) -> Result<bool, AllocError>
        ensures { (s : Courses) (names : Course → ℕ) (sent : IdOf → Bool) → AreApart s.live
            → IsCutState s names sent self.old
            → let h = heading_read heading.entry in
            let new = joined_by self.old.count h s.done s.live in AreApart new.live
            → ((d : Course) (i : ℕ) → Contains s.live d → has_entry d i ≡ true → i < self.old.count)
            → IfOk result (λ begins.
            IsCutOf self.old.reuse (self.old.count + 1) new (λ id. sent id || is_among (own_ids h) id) self.new
            × (begins ≡ not (is_alone h) && not (list_any (λ d. share_id (ids_in h) d.ids) s.live))) }
    {
        let Some(next) = self.count.checked_add(1) else {
            return Err(AllocError);
        };
        let own = self.ids.get_some(heading.sender, heading.otid);
        let peer = self.ids.get_some(heading.sender.other(), heading.dtid);
        let begins = heading.has_ids() & own.dialogue.is_none() & peer.dialogue.is_none();
        let one = self.take_or_new(own.dialogue);
        let other = self.take_or_new(peer.dialogue);
        let mut live = self.join_two(one, other)?;
        live.add(self.count, heading, own, peer)?;
        self.ids.note(heading, live.name, own, peer)?;
        self.put(live)?;
        self.count = next;
        Ok(begins)
    }
}
