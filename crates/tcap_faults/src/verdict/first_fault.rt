//! The search for the first fault of each end in a record, in one pass.

ghost use Rattle.std.specs.Prelude.{◌≡◌, ◌≤◌, ◌<◌, ◌^◌, ℕ, Bool, true, List, [], ◌∷◌, ◌++◌, Option, Some, Ok, length, IfOk, OnOk};
ghost use Rattle.tcap_ber.specs.declared.fault.Fault.{Fault};
ghost use Rattle.tcap_msg.specs.Parts.{components_in};
ghost use Rattle.tcap_record.specs.declared.entry.End.{End as Side};
ghost use Rattle.tcap_record.specs.declared.entry.End.TheVariants as sides;
ghost use Rattle.tcap_model.specs.declared.reason.Reason.TheVariants.{BadMessage};
ghost use Rattle.tcap_model.specs.Entries.{item_of};
ghost use Rattle.tcap_model.specs.World.{Item, Sent};
ghost use Rattle.tcap_faults.specs.Fault.{blamed};
ghost use Rattle.tcap_faults.specs.SearchState.{AreRoomy, IsHalfKey, IsTaken, Takes, components_in_all, search_of, search_after_bad, search_after_item, search_begun, with_search, search_ended};

use crate::transaction::history::Facts;
use crate::transaction::lookup::key_of;
use std::alloc::{AllocError, Global};
use tcap_ber::Reason;
use tcap_end::Table;
use tcap_msg::{Message, MessageParts};
use tcap_record::{Body, End, Entry, Record};
use tcap_refute::{Kind, Refutation, SearchFault, kind_of_reason};

/// The faults that are blamed on each end.
#[derive(Clone, Copy, Debug, PartialEq, Eq)]
pub struct BlamedEnds {
    /// The first entry of A, or quiet mark, that is a fault of A, with its lowest kind.
    pub a: Option<Refutation>,
    /// The first entry of B, or quiet mark, that is a fault of B, with its lowest kind.
    pub b: Option<Refutation>,
}

/// The state of the search for one end.
#[derive(Clone, Copy)]
pub(crate) struct EndSearch {
    /// True if the search is over.
    pub(crate) is_over: bool,
    pub(crate) found: Option<Refutation>,
}

/// The history after some entries, with the state of both searches.
#[derive(Drop)]
pub(crate) struct SearchState {
    pub(crate) kept: Facts,
    pub(crate) a: EndSearch,
    pub(crate) b: EndSearch,
}

/// Returns the number of components of a message.
fn component_count(message: &Message) -> usize
    ensures count { result ≡ length (components_in message.now) }
    ensures small { result < 2 ^ 63 }
{
    let portion = match message {
        Message::Unidirectional { components, .. } => Some(components),
        Message::Begin { components, .. }
        | Message::Continue { components, .. }
        | Message::End { components, .. } => components.as_ref(),
        Message::Abort { .. } => None,
    };
    match portion {
        Some(portion) => portion.items().len(),
        None => 0,
    }
}

/// Returns the number of components of an entry.
pub(crate) fn entry_count(entry: &Entry) -> usize
    ensures count { (item : Item) → item_of entry.now ≡ Ok item → components_in_all (item ∷ []) ≤ result }
    ensures small { result < 2 ^ 63 }
{
    match &entry.body {
        Body::Good(message) => component_count(message),
        _ => 0,
    }
}

impl EndSearch {
    /// Creates the state before the first entry. The search is over if the end is not asked for.
    fn new(is_asked: bool) -> EndSearch
        ensures { result ≡ search_begun is_asked }
    {
        EndSearch {
            is_over: !is_asked,
            found: None,
        }
    }

    /// Returns the state after an entry with this kind, if it has one.
    fn with(self, entry: u64, kind: Option<Kind>) -> EndSearch
        ensures { result ≡ search_ended entry kind self }
    {
        match kind {
            Some(kind) => EndSearch {
                is_over: true,
                found: Some(Refutation { entry, kind }),
            },
            None => self,
        }
    }
}

impl SearchState {
    /// Returns the state of the search for this end.
    fn of(&self, side: End) -> EndSearch
        ensures { result ≡ search_of side self.now }
    {
        match side {
            End::A => self.a,
            End::B => self.b,
        }
    }

    /// Replaces the state of the search for this end.
    fn put(&mut self, side: End, end_search: EndSearch)
        ensures { self.new ≡ with_search side end_search self.old }
    {
        match side {
            End::A => self.a = end_search,
            End::B => self.b = end_search,
        }
    }

    /// Takes a message with this number that an end sent. Fails if memory runs out.
    fn take_message<M: MessageParts>(
        &mut self,
        alloc: Global,
        table: &Table,
        number: u64,
        sender: End,
        message: &M,
    ) -> Result<(), AllocError>
        ensures { (items : List Item) → IsHalfKey table.now items self.old.kept
            → AreRoomy (items ++ Sent sender (M.meaning message.now) ∷ [])
            → OnOk result (IsTaken table.now items number (Sent sender (M.meaning message.now)) self.old self.new) }
    {
        let otid = key_of(message.otid());
        let dtid = key_of(message.dtid());
        let found = self.kept.find(sender, otid.as_ref(), dtid.as_ref());
        let effects = self.kept.effects(table, sender, found);
        let end_search = self.of(sender);
        if !end_search.is_over {
            let kind = self
                .kept
                .fault_of(alloc, table, sender, message, found, effects)?;
            self.put(sender, end_search.with(number, kind));
        }
        self.kept.note(alloc, table, sender, message, effects)
    }

    /// Returns the state of the search for this end after a quiet mark with this number.
    fn at_mark(&self, table: &Table, number: u64, side: End) -> EndSearch
        ensures { (items : List Item) → IsHalfKey table.now items self.now.kept
            → result ≡ search_after_item table.now items number Item.Quiet side (search_of side self.now) }
    {
        let end_search = self.of(side);
        if end_search.is_over {
            return end_search;
        }
        end_search.with(number, self.kept.mark_of(table, side))
    }

    /// Takes a quiet mark with this number.
    fn take_mark(&mut self, alloc: Global, table: &Table, number: u64)
        ensures { (items : List Item) → IsHalfKey table.now items self.old.kept
            → IsTaken table.now items number Item.Quiet self.old self.new }
    {
        let a = self.at_mark(table, number, End::A);
        let b = self.at_mark(table, number, End::B);
        self.a = a;
        self.b = b;
        self.kept.note_mark(alloc);
    }

    /// Takes octets with this number that are no message, which an end sent.
    fn take_bad(&mut self, number: u64, sender: End, reason: Reason)
        ensures { (fault : Fault) → fault.reason ≡ reason → (side : Side)
            → search_of side self.new ≡ search_after_bad number (Some sender) (BadMessage fault) side
            (search_of side self.old) }
    {
        let end_search = self.of(sender);
        if !end_search.is_over {
            self.put(sender, end_search.with(number, kind_of_reason(reason)));
        }
    }

    /// Takes the next entry, and returns whether the search goes on. Fails if memory runs out.
    fn take(
        &mut self,
        alloc: Global,
        table: &Table,
        number: u64,
        entry: &Entry,
    ) -> Result<bool, AllocError>
        ensures { (items : List Item) → IsHalfKey table.now items self.old.kept
            → ((item : Item) → item_of entry.now ≡ Ok item → AreRoomy (items ++ item ∷ []))
            → IfOk result (λ more. Takes table.now items number entry.now more self.old self.new) }
    {
        match (entry.side, &entry.body) {
            (Some(sender), Body::Bad(fault)) => {
                self.take_bad(number, sender, fault.reason);
                return Ok(false);
            }
            (Some(sender), Body::Good(message)) => {
                self.take_message(alloc, table, number, sender, &message.view())?;
            }
            (None, Body::Quiet) => self.take_mark(alloc, table, number),
            _ => return Ok(false),
        }
        Ok(!self.a.is_over || !self.b.is_over)
    }
}

/// Finds what is blamed on the ends that are asked for; the result for another end means nothing.
fn search(
    alloc: Global,
    record: &Record,
    table: &Table,
    a: bool,
    b: bool,
) -> Result<BlamedEnds, SearchFault>
    ensures { IfOk result (λ r. (a ≡ true → r.a ≡ blamed table.now sides.A «record».now.entries.items)
        × (b ≡ true → r.b ≡ blamed table.now sides.B «record».now.entries.items)) }
{
    let mut state = SearchState {
        kept: Facts::new(alloc),
        a: EndSearch::new(a),
        b: EndSearch::new(b),
    };
    for (number, entry) in record.entries.iter().enumerate() {
        // Bounds the number of components, so that no count of them exceeds the greatest.
        let _count = entry_count(entry);
        if !state.take(alloc, table, number as u64, entry)? {
            break;
        }
    }
    Ok(BlamedEnds {
        a: state.a.found,
        b: state.b.found,
    })
}

/// Finds the first entry of this end, or quiet mark, that has a kind, with its lowest kind (Q.771, Q.773, Q.774).
///
/// No run in which the end keeps the rules has this entry there, no matter what its peer sends. Returns `None` if
/// there is none. The search stops after the first entry that is no item, of either end. Each message and each
/// component takes a few look-ups in maps.
///
/// # Errors
///
/// `Memory` if memory runs out.
pub fn blame(
    alloc: Global,
    record: &Record,
    table: &Table,
    end: End,
) -> Result<Option<Refutation>, SearchFault>
    ensures { IfOk result (λ r. r ≡ blamed table.now end «record».now.entries.items) }
{
    match end {
        End::A => Ok(search(alloc, record, table, true, false)?.a),
        End::B => Ok(search(alloc, record, table, false, true)?.b),
    }
}

/// Finds what `blame` finds, for both ends in one pass.
///
/// # Errors
///
/// `Memory` if memory runs out.
pub fn blame_both(alloc: Global, record: &Record, table: &Table) -> Result<BlamedEnds, SearchFault>
    ensures { IfOk result (λ r. (r.a ≡ blamed table.now sides.A «record».now.entries.items)
        × (r.b ≡ blamed table.now sides.B «record».now.entries.items)) }
{
    search(alloc, record, table, true, true)
}
