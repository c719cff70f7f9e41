//! The transaction IDs that were in use before the quiet marks of a trace.

ghost use Rattle.std.specs.Prelude.{◌≡◌, ◌&&◌, ◌||◌, ℕ, List, cond, false, is_some, true, IfNone, IfSome, OnOk};
ghost use Rattle.std.specs.BTreeSet as set;
ghost use Rattle.tcap_record.specs.Ends.{other};
ghost use Rattle.tcap_end.specs.Table.{octets_cmp};
ghost use Rattle.tcap_dialogues.specs.CutDialogues.{by_end};
ghost use Rattle.tcap_dialogues.specs.HeadingReading.{heading_read};
ghost use Rattle.tcap_dialogues.specs.Course.{Heading};
ghost use Rattle.tcap_dialogues.specs.CutState.{IsCut};
ghost use Rattle.tcap_dialogues.specs.declared.reuse.Reuse.{Reuse};
ghost use Rattle.tcap_record.specs.declared.entry.End.TheVariants as sides;
ghost use Rattle.tcap_traces.specs.IdsBeforeMarks.{IsFresh, IsInUse, IsNew, Notes, Passes, Sends, changed, has_open, is_in_use, is_sent_to, known_after, known_in, sent_in};

use std::alloc::{AllocError, Global};
use std::collections::{BTreeMap, BTreeSet};
use std::mem;
use tcap_dialogues::{CompleteDialogue, Cut, HeadingView};
use tcap_msg::{TransactionId, TransactionIdView};
use tcap_record::End;

/// The knowledge about a transaction ID at the beginning of a segment.
#[derive(Clone, Copy)]
pub struct Before {
    /// True if its owner sent from it in an earlier segment.
    pub sent: bool,
    /// True if a dialogue with the ID may continue after its segment's quiet mark. The segment is the last earlier one
    /// with the ID.
    pub open: bool,
}

/// A change of what is known of transaction IDs at a quiet mark.
#[derive(Clone, Copy)]
pub enum Change {
    /// A dialogue with the IDs does not continue.
    Closed,
    /// A dialogue with the IDs may continue.
    Opened,
    /// The owner of the IDs sent from them.
    Sent,
}

/// The knowledge about the transaction IDs of one end.
#[derive(Drop)]
pub struct EndMarks {
    alloc: Global,
    // What is known of each ID. Nothing is known of an ID that is missing here.
    known: BTreeMap<TransactionId, Before>,
    // The IDs of the segment's dialogues that may continue after it, and (`closed`) those of the other dialogues that
    // were open before it.
    opened: BTreeSet<TransactionId>,
    closed: BTreeSet<TransactionId>,
    // The IDs from which the end sent in the segment, once the segment has ended.
    sent: BTreeSet<TransactionId>,
}

/// The knowledge about the transaction IDs of both ends. It changes only at quiet marks, and before the first one
/// nothing is known.
#[derive(Drop)]
pub struct BeforeMarks {
    a: EndMarks,
    b: EndMarks,
}

/// A transaction ID of an end that was in use before a quiet mark.
#[derive(Drop)]
pub struct InUse {
    pub end: End,
    pub id: TransactionId,
}

impl Before {
    /// Returns what is known after a change.
    fn changed(self, change: Change) -> Before
        ensures { result ≡ changed change self }
    {
        match change {
            Change::Closed => Before {
                open: false,
                ..self
            },
            Change::Opened => Before { open: true, ..self },
            Change::Sent => Before { sent: true, ..self },
        }
    }
}

impl EndMarks {
    /// Creates the state in which nothing is known.
    fn new(alloc: Global) -> EndMarks
        ensures { IsNew result }
    {
        EndMarks {
            alloc,
            known: BTreeMap::new(alloc),
            opened: BTreeSet::new(alloc),
            closed: BTreeSet::new(alloc),
            sent: BTreeSet::new(alloc),
        }
    }

    /// Returns what is known of an ID.
    fn get(&self, id: &TransactionId) -> Before
        ensures { result ≡ known_in self.now id.now }
    {
        match self.known.get(id) {
            Some(before) => *before,
            None => Before {
                sent: false,
                open: false,
            },
        }
    }

    /// Returns the first of these IDs that is open.
    fn first_open<'a>(&self, ids: &'a BTreeSet<TransactionId>) -> Option<TransactionIdView<'a>>
        ensures found { IfSome result (λ id. (known_in self.now id.octets.now).open ≡ true) }
        ensures none { IfNone result (has_open self.now ids.now ≡ false) }
        ensures exact { is_some result ≡ has_open self.now ids.now }
    {
        for id in ids {
            if self.get(id).open {
                return Some(id.view());
            }
        }
        None
    }

    /// Notes the IDs of a dialogue of the segment that may continue after the segment.
    fn note_open(&mut self, ids: &BTreeSet<TransactionId>) -> Result<(), AllocError>
        ensures noted { OnOk result ((octets : List ℕ) → set.contains octets_cmp self.new.opened octets
            ≡ set.contains octets_cmp ids.now octets || set.contains octets_cmp self.old.opened octets) }
        ensures rest { OnOk result (self.new ≡ record self.old { opened = self.new.opened }) }
    {
        for id in ids {
            self.opened.insert(id.view().to_transaction_id())?;
        }
        Ok(())
    }

    /// Notes those IDs that are open, of a dialogue of the segment that does not continue after it.
    fn note_closed(&mut self, ids: &BTreeSet<TransactionId>) -> Result<(), AllocError>
        ensures noted { OnOk result ((octets : List ℕ) → set.contains octets_cmp self.new.closed octets
            ≡ (set.contains octets_cmp ids.now octets && (known_in self.old octets).open)
            || set.contains octets_cmp self.old.closed octets) }
        ensures rest { OnOk result (self.new ≡ record self.old { closed = self.new.closed }) }
    {
        for id in ids {
            if self.get(id).open {
                self.closed.insert(id.view().to_transaction_id())?;
            }
        }
        Ok(())
    }

    /// Changes what is known of these IDs.
    fn change(&mut self, ids: &BTreeSet<TransactionId>, change: Change) -> Result<(), AllocError>
        ensures known { OnOk result ((octets : List ℕ) → known_in self.new octets
            ≡ cond (set.contains octets_cmp ids.now octets) (changed change (known_in self.old octets))
            (known_in self.old octets)) }
        ensures rest { OnOk result (self.new ≡ record self.old { known = self.new.known }) }
    {
        for id in ids {
            let before = self.get(id).changed(change);
            self.known.insert(id.view().to_transaction_id(), before)?;
        }
        Ok(())
    }

    /// Passes a quiet mark, after which what was noted of the segment is known.
    fn mark(&mut self) -> Result<(), AllocError>
        ensures known { OnOk result ((octets : List ℕ) → known_in self.new octets ≡ known_after self.old octets) }
        ensures fresh { OnOk result (IsFresh self.new) }
    {
        let closed = mem::replace(&mut self.closed, BTreeSet::new(self.alloc));
        self.change(&closed, Change::Closed)?;
        let opened = mem::replace(&mut self.opened, BTreeSet::new(self.alloc));
        self.change(&opened, Change::Opened)?;
        let sent = mem::replace(&mut self.sent, BTreeSet::new(self.alloc));
        self.change(&sent, Change::Sent)
    }
}

impl BeforeMarks {
    /// Creates the state before the first quiet mark.
    pub fn new(alloc: Global) -> BeforeMarks
        ensures { IsNew result.a × IsNew result.b }
    {
        BeforeMarks {
            a: EndMarks::new(alloc),
            b: EndMarks::new(alloc),
        }
    }

    /// Returns what is known of the IDs of an end.
    fn of(&self, end: End) -> &EndMarks
        ensures { result.now ≡ by_end «end» self.now.a self.now.b }
    {
        match end {
            End::A => &self.a,
            End::B => &self.b,
        }
    }

    /// Returns the destination ID of an entry, if the ID's owner sent from it in an earlier segment.
    pub fn sent_to<'a>(&self, heading: HeadingView<'a>) -> Option<TransactionIdView<'a>>
        ensures found { IfSome result
            (λ id. (known_in (by_end (other heading.entry.sender) self.now.a self.now.b) id.octets.now).sent ≡ true) }
        ensures none { IfNone result (is_sent_to self.now (heading_read heading.entry) ≡ false) }
        ensures exact { is_some result ≡ is_sent_to self.now (heading_read heading.entry) }
    {
        let id = heading.dtid?;
        let marks = self.of(heading.sender.other());
        if marks.get(&id.to_transaction_id()).sent {
            Some(id)
        } else {
            None
        }
    }

    /// Returns an ID that suggests that a dialogue continues one from before the quiet mark. This is the destination ID
    /// of its first entry, if the ID's owner sent from it in an earlier segment; or the first of its IDs that is open.
    pub fn in_use(&self, first: HeadingView, gathered: &CompleteDialogue) -> Option<InUse>
        ensures found { IfSome result (λ it. IsInUse (known_in (by_end it.«end» self.now.a self.now.b) it.id)) }
        ensures none { IfNone result (is_in_use self.now (heading_read first.entry) gathered.now ≡ false) }
        ensures exact { is_some result ≡ is_in_use self.now (heading_read first.entry) gathered.now }
    {
        let (end, id) = if let Some(id) = self.sent_to(first) {
            (first.sender.other(), id)
        } else if let Some(id) = self.a.first_open(&gathered.a) {
            (End::A, id)
        } else {
            (End::B, self.b.first_open(&gathered.b)?)
        };
        Some(InUse {
            end,
            id: id.to_transaction_id(),
        })
    }

    /// Notes a dialogue of the segment. `goes_on`: it may continue after the segment.
    pub fn note(&mut self, gathered: &CompleteDialogue, goes_on: bool) -> Result<(), AllocError>
        ensures { OnOk result (Notes goes_on gathered.now self.old self.new) }
    {
        if goes_on {
            self.a.note_open(&gathered.a)?;
            self.b.note_open(&gathered.b)
        } else {
            self.a.note_closed(&gathered.a)?;
            self.b.note_closed(&gathered.b)
        }
    }

    /// Notes the IDs from which each end sent in the segment, which has ended.
    pub fn note_sent(&mut self, cut: &Cut) -> Result<(), AllocError>
        ensures { (reuse : Reuse) (headings : List Heading) → IsCut reuse headings cut.now
            → OnOk result (Sends (sent_in headings sides.A) self.old.a self.new.a
            × Sends (sent_in headings sides.B) self.old.b self.new.b) }
    {
        cut.sent_from(End::A, &mut self.a.sent)?;
        cut.sent_from(End::B, &mut self.b.sent)
    }

    /// Passes a quiet mark, after the dialogues before it were noted.
    pub fn mark(&mut self) -> Result<(), AllocError>
        ensures { OnOk result (Passes self.old.a self.new.a × Passes self.old.b self.new.b) }
    {
        self.a.mark()?;
        self.b.mark()
    }
}
