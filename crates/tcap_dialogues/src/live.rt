//! A live dialogue, to which more entries may come.

ghost use Rattle.std.specs.Prelude.{◌≡◌, List, [], ◌∷◌, ◌++◌, length, nat_lt, IfOk, OnOk};
ghost use Rattle.tcap_msg.specs.Meaning.{id_of};
ghost use Rattle.tcap_dialogues.specs.Course.{Course, begun_by, lower, over_by};
ghost use Rattle.tcap_dialogues.specs.CutDialogues.{IsCompleteDialogue};
ghost use Rattle.tcap_dialogues.specs.HeadingReading.{heading_read};
ghost use Rattle.tcap_dialogues.specs.CutState.{HasValuesOf, has_sent, higher};
ghost use Rattle.tcap_dialogues.specs.CutUpdate.{HasEntry, HasId, HasSender, ids_at};

use crate::complete_dialogue::CompleteDialogue;
use crate::heading::HeadingView;
use crate::known_ids::IdState;
use std::alloc::{AllocError, Global};
use std::collections::BTreeSet;
use tcap_msg::{Kind, TransactionId, TransactionIdView};
use tcap_record::End;

/// A dialogue to which more entries may come.
#[derive(Debug, Drop)]
pub(crate) struct LiveDialogue {
    /// Its name: the number of one of its entries.
    pub(crate) name: u64,
    /// The numbers of its entries.
    pub(crate) numbers: BTreeSet<u64>,
    /// The IDs of A in its entries.
    pub(crate) a: BTreeSet<TransactionId>,
    /// The IDs of B in its entries.
    pub(crate) b: BTreeSet<TransactionId>,
    /// Whether A sent one of its entries.
    pub(crate) a_sent: bool,
    /// Whether B sent one of its entries.
    pub(crate) b_sent: bool,
    /// Whether one of its entries is a Begin from an ID.
    pub(crate) begun: bool,
    /// The number of the first entry with which it is over.
    pub(crate) over: Option<u64>,
    /// Whether one of its entries comes before the under-way directive, or there is no such directive.
    pub(crate) early: bool,
    /// The number of the first entry of the last dialogue that is done and had one of its IDs.
    pub(crate) earlier: Option<u64>,
    /// True if such an ID is not firm (see `IdState`).
    pub(crate) unsettled: bool,
}

/// Returns the lower of two numbers, if there are any.
fn lower(one: Option<u64>, other: Option<u64>) -> Option<u64>
    ensures { result ≡ lower one other }
{
    match (one, other) {
        (Some(one), Some(other)) => Some(if one < other { one } else { other }),
        (None, number) => number,
        (number, None) => number,
    }
}

/// Returns the higher of two numbers, if there are any.
fn higher(one: Option<u64>, other: Option<u64>) -> Option<u64>
    ensures { result ≡ higher one other }
{
    match (one, other) {
        (Some(one), Some(other)) => Some(if one < other { other } else { one }),
        (None, number) => number,
        (number, None) => number,
    }
}

impl HeadingView<'_> {
    /// Returns the number of the entry if a dialogue is over with it: it ends its transaction, or has no ID, so that no
    /// entry can join it.
    fn is_over(self, number: u64) -> Option<u64>
        ensures { result ≡ over_by number (heading_read self.entry) }
    {
        match self.kind {
            Some(Kind::End | Kind::Abort) => Some(number),
            _ if self.otid.is_none() && self.dtid.is_none() => Some(number),
            _ => None,
        }
    }

    /// Returns whether the entry is a Begin from an ID.
    fn begins(self) -> bool
        ensures { result ≡ nat_lt 0 (length (begun_by (heading_read self.entry))) }
    {
        self.is_begin() & self.otid.is_some()
    }
}

impl LiveDialogue {
    /// Creates a dialogue without entries.
    pub(crate) fn new(alloc: Global, name: u64) -> LiveDialogue
        ensures { HasValuesOf [] result × (result.name ≡ name) }
    {
        LiveDialogue {
            name,
            numbers: BTreeSet::new(alloc),
            a: BTreeSet::new(alloc),
            b: BTreeSet::new(alloc),
            a_sent: false,
            b_sent: false,
            begun: false,
            over: None,
            early: false,
            earlier: None,
            unsettled: false,
        }
    }

    /// Returns whether an end sent one of its entries.
    pub(crate) fn has_sent(&self, end: End) -> bool
        ensures { result ≡ has_sent self.now «end» }
    {
        match end {
            End::A => self.a_sent,
            End::B => self.b_sent,
        }
    }

    /// Adds the entries and IDs of another dialogue. Fails if memory runs out.
    pub(crate) fn absorb(&mut self, other: LiveDialogue) -> Result<(), AllocError>
        ensures { (ds es : List Course) → HasValuesOf ds self.old → HasValuesOf es other
            → OnOk result (HasValuesOf (ds ++ es) self.new × (self.new.name ≡ self.old.name)) }
    {
        self.numbers.extend(other.numbers)?;
        self.a.extend(other.a)?;
        self.b.extend(other.b)?;
        self.a_sent |= other.a_sent;
        self.b_sent |= other.b_sent;
        self.begun |= other.begun;
        self.over = lower(self.over, other.over);
        self.early |= other.early;
        self.earlier = higher(self.earlier, other.earlier);
        self.unsettled |= other.unsettled;
        Ok(())
    }

    /// Adds an ID of an end, if there is one. Fails if memory runs out.
    fn add_id(&mut self, end: End, id: Option<TransactionIdView>) -> Result<(), AllocError>
        ensures { OnOk result (HasId (ids_at «end» (id_of id.entry)) self.old self.new) }
    {
        let Some(id) = id else {
            return Ok(());
        };
        match end {
            End::A => self.a.insert(id.to_transaction_id())?,
            End::B => self.b.insert(id.to_transaction_id())?,
        };
        Ok(())
    }

    /// Notes that this end sent an entry.
    fn note_sender(&mut self, sender: End)
        ensures { HasSender sender self.old self.new }
    {
        match sender {
            End::A => self.a_sent = true,
            End::B => self.b_sent = true,
        }
    }

    /// Adds an entry with this number; `own` and `peer` are what is known of its IDs. Fails if memory runs out.
    pub(crate) fn add(
        &mut self,
        number: u64,
        heading: HeadingView,
        own: IdState,
        peer: IdState,
    ) -> Result<(), AllocError>
        ensures { OnOk result (HasEntry number (heading_read heading.entry) own peer self.old self.new) }
    {
        self.numbers.insert(number)?;
        self.note_sender(heading.sender);
        self.begun |= heading.begins();
        self.over = lower(self.over, heading.is_over(number));
        self.early |= !heading.under_way;
        self.earlier = higher(self.earlier, higher(own.earlier(), peer.earlier()));
        self.unsettled |= own.is_unsettled() | peer.is_unsettled();
        self.add_id(heading.sender, heading.otid)?;
        self.add_id(heading.sender.other(), heading.dtid)
    }

    /// Returns the number of its first entry.
    pub(crate) fn first(&self) -> u64 {
        match self.numbers.first() {
            Some(number) => *number,
            None => self.name,
        }
    }

    /// Converts this to a complete dialogue. Fails if memory runs out.
    pub(crate) fn into_complete(self, alloc: Global) -> Result<CompleteDialogue, AllocError>
        ensures { (d : Course) → HasValuesOf (d ∷ []) self → IfOk result (IsCompleteDialogue d) }
    {
        let numbers = self.numbers.into_iter().collect(alloc)?;
        Ok(CompleteDialogue {
            numbers,
            a: self.a,
            b: self.b,
            over: self.over,
            earlier: self.earlier,
            unsettled: self.unsettled,
        })
    }
}
