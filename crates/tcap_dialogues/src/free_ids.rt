//! Finds which IDs are free when an entry arrives.

ghost use Rattle.std.specs.Prelude.{◌≡◌, ◌&&◌, ◌||◌, ℕ, Bool, List, true, Contains, not, is_some};
ghost use Rattle.std.specs.List.{list_any};
ghost use Rattle.tcap_model.specs.World.{is_side};
ghost use Rattle.tcap_dialogues.specs.Course.{Course, Courses, gives_to_another, goes_on_with_another, has_begin, share_id, is_alone, is_begin, is_continue, own_ids};
ghost use Rattle.tcap_dialogues.specs.DialoguesOfList.{IdOf};
ghost use Rattle.tcap_dialogues.specs.HeadingReading.{heading_read};
ghost use Rattle.tcap_dialogues.specs.CutState.{AreApart, HoldsLive, HoldsOver, IsCutState, Lingers, is_given_up, is_named, is_past_by, is_used_anew};

use crate::cut::Cut;
use crate::heading::HeadingView;
use crate::reuse::Reuse;
use tcap_msg::Kind;
use tcap_record::End;

impl HeadingView<'_> {
    /// Returns whether the entry is a Begin.
    pub(crate) fn is_begin(self) -> bool
        ensures { result ≡ is_begin self.entry.kind }
    {
        matches!(self.kind, Some(Kind::Begin))
    }

    /// Returns whether the entry has an ID.
    pub(crate) fn has_ids(self) -> bool
        ensures { result ≡ not (is_alone (heading_read self.entry)) }
    {
        self.otid.is_some() | self.dtid.is_some()
    }

    /// Returns whether the entry is a Continue.
    fn is_continue(self) -> bool
        ensures { result ≡ is_continue self.entry.kind }
    {
        matches!(self.kind, Some(Kind::Continue))
    }
}

impl Cut {
    /// Returns the name of the dialogue that has been over for so long that its IDs are free, if there is one.
    pub(crate) fn long_over(&self) -> Option<u64>
        ensures { (live : List Course) (names : Course → ℕ) → AreApart live → HoldsLive live names self.now.live
            → HoldsOver live names self.now.overs
            → ((d : Course) → Contains live d → Lingers self.now.reuse self.now.count d.over) → (d : Course)
            → Contains live d
            → is_past_by self.now.reuse self.now.count d ≡ is_named names result d }
    {
        let Reuse::Again(linger) = self.reuse else {
            return None;
        };
        let number = self.count.checked_sub(linger)?.checked_sub(1)?;
        Some(*self.overs.get(&number)?)
    }

    /// Returns whether the live dialogue with this name is over.
    fn is_over(&self, name: u64) -> bool
        ensures { (live : List Course) (names : Course → ℕ) → HoldsLive live names self.now.live → (d : Course)
            → Contains live d
            → names d ≡ name → result ≡ is_some d.over }
    {
        match self.live.get(&name) {
            Some(live) => live.over.is_some(),
            None => false,
        }
    }

    /// Returns whether an end sent an entry of the live dialogue with this name.
    fn has_sent(&self, name: u64, end: End) -> bool
        ensures { (live : List Course) (names : Course → ℕ) → HoldsLive live names self.now.live → (d : Course)
            → Contains live d
            → names d ≡ name → result ≡ list_any (is_side «end») d.senders }
    {
        match self.live.get(&name) {
            Some(live) => live.has_sent(end),
            None => false,
        }
    }

    /// Returns whether the live dialogue with this name has a Begin.
    fn has_begin(&self, name: u64) -> bool
        ensures { (live : List Course) (names : Course → ℕ) → HoldsLive live names self.now.live → (d : Course)
            → Contains live d
            → names d ≡ name → result ≡ has_begin d }
    {
        match self.live.get(&name) {
            Some(live) => live.begun,
            None => false,
        }
    }

    /// Returns whether a Continue from an ID of this dialogue belongs to another one. The other one is a dialogue that
    /// the peer began and the Continue accepts, or one whose Begin is not in the segment.
    fn continues_another(&self, heading: HeadingView, name: u64) -> bool
        ensures { (s : Courses) (names : Course → ℕ) (sent : IdOf → Bool) (d : Course) → AreApart s.live
            → IsCutState s names sent self.now → Contains s.live d → names d ≡ name
            → share_id (own_ids (heading_read heading.entry)) d.ids ≡ true
            → is_continue (heading_read heading.entry).kind ≡ true
            → result ≡ gives_to_another s.live (heading_read heading.entry) d
            || goes_on_with_another s (heading_read heading.entry) d }
    {
        let known = self.ids.get_some(heading.sender.other(), heading.dtid);
        match known.dialogue {
            Some(other) => (other != name) & known.begun & !self.has_sent(other, heading.sender),
            None => {
                known.last.is_none() & (heading.under_way | heading.known) & self.has_begin(name)
            }
        }
    }

    /// Returns whether an entry uses its own ID, which belongs to this dialogue, for another dialogue.
    fn uses_anew(&self, heading: HeadingView, name: u64) -> bool
        ensures { (s : Courses) (names : Course → ℕ) (sent : IdOf → Bool) (d : Course) → AreApart s.live
            → IsCutState s names sent self.now → Contains s.live d → names d ≡ name
            → share_id (own_ids (heading_read heading.entry)) d.ids ≡ true
            → result ≡ is_used_anew s (heading_read heading.entry) d }
    {
        if heading.is_begin() {
            true
        } else if heading.is_continue() {
            self.continues_another(heading, name)
        } else {
            false
        }
    }

    /// Returns the name of the dialogue that is over and whose ID the sender uses for another dialogue, if there is
    /// one.
    pub(crate) fn replaced(&self, heading: HeadingView) -> Option<u64>
        ensures { (s : Courses) (names : Course → ℕ) (sent : IdOf → Bool) → AreApart s.live
            → IsCutState s names sent self.now → (d : Course) → Contains s.live d
            → is_given_up self.now.reuse s (heading_read heading.entry) d ≡ is_named names result d }
    {
        let Reuse::Again(_) = self.reuse else {
            return None;
        };
        let name = self.ids.get_some(heading.sender, heading.otid).dialogue?;
        if !self.is_over(name) {
            return None;
        }
        if self.uses_anew(heading, name) {
            Some(name)
        } else {
            None
        }
    }
}
