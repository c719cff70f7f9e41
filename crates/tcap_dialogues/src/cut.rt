//! Divides a segment between quiet marks into its dialogues as its entries arrive.

ghost use Rattle.std.specs.BTreeSet as set;
ghost use Rattle.std.specs.Prelude.{◌≡◌, ◌||◌, ℕ, Bool, List, [], ◌∷◌, ◌++◌, length, filter, IfOk, OnOk};
ghost use Rattle.std.specs.List.{flat_map};
ghost use Rattle.tcap_end.specs.Table.{octets_cmp};
ghost use Rattle.tcap_dialogues.specs.Course.{Course, Courses, Heading, begins_new, courses_so_far, is_free, own_ids};
ghost use Rattle.tcap_dialogues.specs.DialoguesOfList.{IdOf, is_among};
ghost use Rattle.tcap_dialogues.specs.CutDialogues.{HandsOver};
ghost use Rattle.tcap_dialogues.specs.HeadingReading.{heading_read};
ghost use Rattle.tcap_dialogues.specs.CutState.{AreApart, HoldsLive, HoldsOver, IsCut, IsCutState, IsTakenOut, after_done, live_count, with_name};

use crate::complete_dialogue::CompleteDialogue;
use crate::heading::HeadingView;
use crate::known_ids::{Change, Ids};
use crate::live::LiveDialogue;
use crate::reuse::Reuse;
use std::alloc::{AllocError, Global};
use std::collections::{BTreeMap, BTreeSet};
use tcap_msg::TransactionId;
use tcap_record::End;

/// The dialogues of a segment between quiet marks, as its entries arrive. A cut keeps the live dialogues and some facts
/// about each ID of a dialogue that is done. These are the number of the first entry of the last such dialogue, whether
/// the ID's owner sent a message from it, and whether the ID is firm (see `IdState`).
#[derive(Debug, Drop)]
pub struct Cut {
    pub(crate) alloc: Global,
    pub(crate) reuse: Reuse,
    /// The number of entries so far.
    pub(crate) count: u64,
    /// The live dialogues, by name.
    pub(crate) live: BTreeMap<u64, LiveDialogue>,
    /// The names of the live dialogues that are over, by the number of the first entry with which each is over.
    pub(crate) overs: BTreeMap<u64, u64>,
    pub(crate) ids: Ids,
}

impl Cut {
    /// Creates a cut before the first entry of a segment.
    pub fn new(alloc: Global, reuse: Reuse) -> Cut
        ensures { IsCut reuse [] result }
    {
        Cut {
            alloc,
            reuse,
            count: 0,
            live: BTreeMap::new(alloc),
            overs: BTreeMap::new(alloc),
            ids: Ids::new(alloc),
        }
    }

    /// Takes the live dialogue with this name out, if there is one.
    pub(crate) fn take_out(&mut self, name: Option<u64>) -> Option<LiveDialogue>
        ensures { (live : List Course) (names : Course → ℕ) → AreApart live → HoldsLive live names self.old.live
            → HoldsOver live names self.old.overs → IsTakenOut name live names self.old self.new result }
    {
        let live = self.live.remove(&name?)?;
        if let Some(number) = live.over {
            self.overs.remove(&number);
        }
        Some(live)
    }

    /// Hands over the dialogue with this name, if there is one, and frees its IDs. Fails if memory runs out.
    fn release(
        &mut self,
        name: Option<u64>,
        done: &mut Vec<CompleteDialogue>,
    ) -> Result<(), AllocError>
        ensures { (s : Courses) (names : Course → ℕ) (sent : IdOf → Bool) → AreApart s.live
            → IsCutState s names sent self.old → OnOk result (IsCutState (after_done names name s) names sent self.new
            × HandsOver (with_name names name s.live) done.old.items done.new.items
            × (self.new.reuse ≡ self.old.reuse) × (self.new.count ≡ self.old.count)) }
    {
        let Some(live) = self.take_out(name) else {
            return Ok(());
        };
        let free = Change::Free {
            first: live.first(),
            early: live.early,
        };
        self.ids.change_both(&live.a, &live.b, free)?;
        done.push(live.into_complete(self.alloc)?)?;
        Ok(())
    }

    /// Takes the heading of the next entry, and hands over the dialogues whose IDs are free now, at most two. Returns
    /// whether the entry begins a new dialogue that has IDs.
    ///
    /// # Errors
    ///
    /// `AllocError` if memory runs out, or after 2^64 - 1 entries. The cut must not be used after an error.
    pub fn take(
        &mut self,
        heading: HeadingView,
        done: &mut Vec<CompleteDialogue>,
    ) -> Result<bool, AllocError>
        ensures takes { (reuse : Reuse) (headings : List Heading) → IsCut reuse headings self.old
            → let s = courses_so_far reuse headings in OnOk result (
            IsCut reuse (headings ++ heading_read heading.entry ∷ []) self.new
            × HandsOver (filter (is_free reuse (length headings) s (heading_read heading.entry)) s.live) done.old.items
            done.new.items) }
        ensures begins { (reuse : Reuse) (headings : List Heading) → IsCut reuse headings self.old
            → IfOk result (λ begins. begins
            ≡ begins_new reuse (length headings) (courses_so_far reuse headings) (heading_read heading.entry)) }
    {
        let long_over = self.long_over();
        let replaced = self.replaced(heading);
        self.release(long_over, done)?;
        self.release(replaced, done)?;
        self.join(heading)
    }

    /// Returns the number of live dialogues.
    pub fn live_count(&self) -> usize
        ensures { result ≡ live_count self.now }
    {
        self.live.len()
    }

    /// Adds each transaction ID of an end from which an entry of the segment was sent.
    ///
    /// # Errors
    ///
    /// `AllocError` if memory runs out; some IDs may have been added by then.
    pub fn sent_from(&self, end: End, ids: &mut BTreeSet<TransactionId>) -> Result<(), AllocError>
        ensures { (reuse : Reuse) (headings : List Heading) → IsCut reuse headings self.now
            → OnOk result ((octets : List ℕ) → set.contains octets_cmp ids.new octets
            ≡ set.contains octets_cmp ids.old octets
            || is_among (flat_map own_ids headings) (record { end = «end»; octets = octets })) }
    {
        self.ids.sent_from(end, ids)
    }

    /// Ends the segment, and hands over all live dialogues.
    ///
    /// # Errors
    ///
    /// `AllocError` if memory runs out.
    pub fn finish(self, done: &mut Vec<CompleteDialogue>) -> Result<(), AllocError>
        ensures { (reuse : Reuse) (headings : List Heading) → IsCut reuse headings self
            → OnOk result (HandsOver (courses_so_far reuse headings).live done.old.items done.new.items) }
    {
        let alloc = self.alloc;
        for (_, live) in self.live {
            done.push(live.into_complete(alloc)?)?;
        }
        Ok(())
    }
}
