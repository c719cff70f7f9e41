//! The halves of an end, by their transaction IDs.

ghost use Rattle.std.specs.Prelude.{◌≡◌, ◌≢◌, ◌&&◌, false, true, Some, None, IsSome, IfSome, MatchOption, OnOk, OnErr};
ghost use Rattle.std.specs.Option.{option_copied};
ghost use Rattle.std.specs.Map.{lookup, remove_entry};
ghost use Rattle.std.specs.BTreeMap.{insert_entry, is_at};
ghost use Rattle.tcap_parts.specs.Meaning.{components_left};
ghost use Rattle.tcap_end.specs.declared.half.Slot.TheVariants as Slot;
ghost use Rattle.tcap_end.specs.declared.halves.Place.TheVariants as Place;
ghost use Rattle.tcap_end.specs.Table.{octets_cmp};
ghost use Rattle.tcap_end.specs.Half.{Half, closed_half, is_closed};
ghost use Rattle.tcap_end.specs.HalfState.{half_of, other_id};
ghost use Rattle.tcap_end.specs.Component.{own_invocation};
ghost use Rattle.tcap_end.specs.HiddenSteps.{without_invocation};
ghost use Rattle.tcap_end.specs.Message.{active_half};
ghost use Rattle.tcap_end.specs.ComponentSteps.{components_by, direction_of};
ghost use Rattle.tcap_end.specs.End.{KeyedHalf, all_closed, is_id, named, nothing, put};
ghost use Rattle.tcap_end.specs.ReachableEnd.{HasHalf, IsEnd};
ghost use Rattle.tcap_end.specs.Halves.{AllPlaced, AnswersOver, Becomes, HasOpen, IsAt, IsNumbered, IsHeld, IsNew, end_of, index_of, keyed_half, name_in, open_at, other_slot, places_of};

use crate::changes::Changes;
use crate::fault::EndFault;
use crate::half::Slot;
use crate::half_components::Direction;
use crate::half_state::HalfState;
use crate::table::Table;
use slab::Slab;
use std::alloc::{AllocError, Global};
use std::collections::BTreeMap;
use tcap_msg::{TransactionId, TransactionIdView};
use tcap_parts::Components;

/// The place of a half.
#[derive(Debug, Drop)]
pub(crate) enum Place {
    /// An open half, by its number in the slab.
    Open(usize),
    /// A closed half, with the ID that is not its key, if it has one.
    Closed(Option<TransactionId>),
}

/// The halves of an end. Closing a half does not allocate.
#[derive(Debug, Drop)]
pub(crate) struct Halves {
    /// The open halves.
    pub(crate) slab: Slab<HalfState>,
    /// The halves whose Begin this end sent, by their own IDs.
    pub(crate) begun: BTreeMap<TransactionId, Place>,
    /// The halves whose Begin this end received, by the peer's IDs.
    pub(crate) accepted: BTreeMap<TransactionId, Place>,
    /// The own IDs of accepted halves, each mapped to the peer's ID.
    pub(crate) by_own: BTreeMap<TransactionId, TransactionId>,
    /// The peer's IDs of begun halves, each mapped to the own ID.
    pub(crate) by_peer: BTreeMap<TransactionId, TransactionId>,
}

/// The place at which a half was found: its slot, its key, and its number in the slab if it is open.
#[derive(Debug, Drop)]
pub(crate) struct HalfKey {
    pub(crate) slot: Slot,
    pub(crate) key: TransactionId,
    pub(crate) number: Option<usize>,
}

/// Returns whether `other` is this transaction ID.
pub(crate) fn is_id(id: TransactionIdView, other: &Option<TransactionId>) -> bool
    ensures { result ≡ is_id id.entry.octets.now other.now }
{
    match other {
        Some(other) => id.octets == other.octets(),
        None => false,
    }
}

impl Slot {
    /// Returns the other slot.
    pub(crate) fn other(self) -> Slot
        ensures { result ≡ other_slot self }
    {
        match self {
            Slot::Begun => Slot::Accepted,
            Slot::Accepted => Slot::Begun,
        }
    }
}

impl Halves {
    /// Creates an end without halves.
    pub(crate) fn new(alloc: Global) -> Halves
        ensures nothing { end_of result ≡ nothing }
        ensures held { IsHeld result }
        ensures placed { AllPlaced result }
    {
        Halves {
            slab: Slab::new(alloc),
            begun: BTreeMap::new(alloc),
            accepted: BTreeMap::new(alloc),
            by_own: BTreeMap::new(alloc),
            by_peer: BTreeMap::new(alloc),
        }
    }

    /// Returns the places of the halves of a slot.
    pub(crate) fn places(&self, slot: Slot) -> &BTreeMap<TransactionId, Place>
        ensures { result.now.entries ≡ places_of slot self.now }
    {
        match slot {
            Slot::Begun => &self.begun,
            Slot::Accepted => &self.accepted,
        }
    }

    /// Returns the open half at a place, or `None` if the half is closed.
    pub(crate) fn open_half(&self, place: &Place) -> Option<&HalfState>
        ensures { option_copied result ≡ open_at self.now.slab place.now }
    {
        match place {
            Place::Open(number) => self.slab.get(*number),
            Place::Closed(_) => None,
        }
    }

    /// Finds the half of a slot with this key.
    fn find(&self, slot: Slot, key: &TransactionId) -> Option<HalfKey>
        ensures { MatchOption result (lookup (is_at (octets_cmp key.now)) (places_of slot self.now) ≡ None)
            (λ found. (found.slot ≡ slot) × (found.key ≡ key.now) × IsNumbered found self.now) }
    {
        let number = match self.places(slot).get(key)? {
            Place::Open(number) => Some(*number),
            Place::Closed(_) => None,
        };
        Some(HalfKey {
            slot,
            key: key.view().to_transaction_id(),
            number,
        })
    }

    /// Returns the index of a slot: the IDs by which its halves are not kept, each mapped to the ID by which it is
    /// kept.
    fn indexed(&self, slot: Slot) -> &BTreeMap<TransactionId, TransactionId>
        ensures { result.now.entries ≡ index_of slot self.now }
    {
        match slot {
            Slot::Begun => &self.by_peer,
            Slot::Accepted => &self.by_own,
        }
    }

    /// Finds the half with this transaction ID: as its own for `Begun`, as the peer's for `Accepted`.
    pub(crate) fn with_id(&self, slot: Slot, id: TransactionIdView) -> Option<HalfKey>
        requires held { IsHeld self.now }
        requires sound { IsEnd (end_of self.now) }
        ensures half { MatchOption result (named (end_of self.now) (name_in slot id.entry.octets.now) ≡ None)
            (λ found. (h : Half) × (named (end_of self.now) (name_in slot id.entry.octets.now)
            ≡ Some (keyed_half found.slot found.key h))) }
        ensures found { IfSome result (λ found. IsNumbered found self.now) }
    {
        let key = id.to_transaction_id();
        let other = slot.other();
        match self.find(slot, &key) {
            Some(found) => Some(found),
            None => self.find(other, self.indexed(other).get(&key)?),
        }
    }

    /// Returns the state of a found half, or `None` if the half is closed.
    pub(crate) fn half(&self, found: &HalfKey) -> Option<&HalfState>
        requires held { IsHeld self.now }
        requires found { IsNumbered found.now self.now }
        ensures { (h : Half) → HasHalf (end_of self.now) (keyed_half found.now.slot found.now.key h)
            → MatchOption result (is_closed h.phase ≡ true)
            (λ half. (half_of half.now ≡ h) × (is_closed h.phase ≡ false)) }
    {
        self.slab.get(found.number?)
    }

    /// Returns the number of a found half that is open.
    fn number(&self, found: &HalfKey) -> usize
        requires open { HasOpen found.now.slot found.now.key self.now }
        requires found { IsNumbered found.now self.now }
        ensures { IsAt found.now.slot found.now.key (Place.Open result) self.now }
    {
        match found.number {
            Some(number) => number,
            None => unreachable!(),
        }
    }

    /// Sends or receives components over a found half that is open.
    pub(crate) fn step_over(
        &mut self,
        changes: &mut Changes,
        table: &Table,
        found: &HalfKey,
        way: Direction,
        components: Components,
    ) -> Result<(), EndFault>
        requires held { IsHeld self.old }
        requires open { HasOpen found.now.slot found.now.key self.old }
        requires found { IsNumbered found.now self.old }
        ensures step { AnswersOver found.now.slot found.now.key
            (λ h. components_by way table.now h (components_left components.entry)) result self.old self.new }
        ensures kept { OnErr result (end_of self.new ≡ end_of self.old) }
        ensures held { IsHeld self.new }
        ensures open { HasOpen found.now.slot found.now.key self.new }
        ensures found { IsNumbered found.now self.new }
        ensures placed { AllPlaced self.old → AllPlaced self.new }
    {
        let number = self.number(found);
        match self.slab.get_mut(number) {
            Some(half) => half.step_components(changes, table, way, components),
            None => unreachable!(),
        }
    }

    /// Ends the own invocation of an ID, which must exist, in a found half that is open.
    pub(crate) fn forget_over(&mut self, found: &HalfKey, id: i8)
        requires held { IsHeld self.old }
        requires open { HasOpen found.now.slot found.now.key self.old }
        requires found { IsNumbered found.now self.old }
        requires own_invocation { (h : Half) → HasHalf (end_of self.old) (keyed_half found.now.slot found.now.key h)
            → IsSome (own_invocation h id) }
        ensures forgotten { Becomes found.now.slot found.now.key (without_invocation id) self.old self.new }
        ensures held { IsHeld self.new }
        ensures placed { AllPlaced self.old → AllPlaced self.new }
    {
        let number = self.number(found);
        match self.slab.get_mut(number) {
            Some(half) => {
                half.out.put(id, None);
            }
            None => unreachable!(),
        }
    }

    /// Closes a found half that is open, without allocating.
    pub(crate) fn close(&mut self, found: HalfKey)
        requires held { IsHeld self.old }
        requires open { HasOpen found.slot found.key self.old }
        requires found { IsNumbered found self.old }
        ensures closed { Becomes found.slot found.key closed_half self.old self.new }
        ensures held { IsHeld self.new }
        ensures placed { AllPlaced self.old → AllPlaced self.new }
    {
        let number = self.number(&found);
        let Some(half) = self.slab.try_remove(number) else {
            unreachable!()
        };
        let HalfState { own, peer, .. } = half;
        let closed = match found.slot {
            Slot::Begun => self.begun.insert(found.key, Place::Closed(peer)),
            Slot::Accepted => self.accepted.insert(found.key, Place::Closed(own)),
        };
        match closed {
            Ok(_) => {}
            Err(_) => unreachable!(),
        }
    }

    /// Sets the place of the half of a slot with this key.
    fn put_place(&mut self, slot: Slot, key: TransactionId, place: Place) -> Result<(), AllocError>
        ensures put { OnOk result (places_of slot self.new
            ≡ insert_entry octets_cmp (places_of slot self.old) key place) }
        ensures kept { OnErr result (places_of slot self.new ≡ places_of slot self.old) }
        ensures begun { slot ≢ Slot.Begun → self.new.begun ≡ self.old.begun }
        ensures accepted { slot ≢ Slot.Accepted → self.new.accepted ≡ self.old.accepted }
        ensures others { (self.new.slab ≡ self.old.slab) × (self.new.by_own ≡ self.old.by_own)
            × (self.new.by_peer ≡ self.old.by_peer) }
    {
        match slot {
            Slot::Begun => self.begun.insert(key, place)?,
            Slot::Accepted => self.accepted.insert(key, place)?,
        };
        Ok(())
    }

    /// Adds a new half with a key that no half of its slot has.
    pub(crate) fn add(&mut self, key: TransactionId, half: HalfState) -> Result<(), AllocError>
        requires held { IsHeld self.old }
        requires new { IsNew key half self.old }
        ensures added { OnOk result (end_of self.new ≡ put (end_of self.old) half.slot key (half_of half)) }
        ensures kept { OnErr result (end_of self.new ≡ end_of self.old) }
        ensures held { IsHeld self.new }
        ensures placed { AllPlaced self.old → AllPlaced self.new }
    {
        let slot = half.slot;
        let number = self.slab.insert(half)?;
        match self.put_place(slot, key, Place::Open(number)) {
            Ok(()) => Ok(()),
            Err(failed) => {
                self.slab.try_remove(number);
                Err(failed)
            }
        }
    }

    /// Maps an ID of a half, other than its key, to its key.
    fn put_index(
        &mut self,
        slot: Slot,
        id: TransactionId,
        key: TransactionId,
    ) -> Result<(), AllocError>
        ensures put { OnOk result (index_of slot self.new ≡ insert_entry octets_cmp (index_of slot self.old) id key) }
        ensures kept { OnErr result (index_of slot self.new ≡ index_of slot self.old) }
        ensures by_own { slot ≢ Slot.Accepted → self.new.by_own ≡ self.old.by_own }
        ensures by_peer { slot ≢ Slot.Begun → self.new.by_peer ≡ self.old.by_peer }
        ensures others { (self.new.slab ≡ self.old.slab) × (self.new.begun ≡ self.old.begun)
            × (self.new.accepted ≡ self.old.accepted) }
    {
        match slot {
            Slot::Begun => self.by_peer.insert(id, key)?,
            Slot::Accepted => self.by_own.insert(id, key)?,
        };
        Ok(())
    }

    /// Removes an ID from the index that maps IDs to the keys of a slot.
    fn remove_index(&mut self, slot: Slot, id: &TransactionId)
        ensures removed { index_of slot self.new ≡ remove_entry (is_at (octets_cmp id.now)) (index_of slot self.old) }
        ensures by_own { slot ≢ Slot.Accepted → self.new.by_own ≡ self.old.by_own }
        ensures by_peer { slot ≢ Slot.Begun → self.new.by_peer ≡ self.old.by_peer }
        ensures others { (self.new.slab ≡ self.old.slab) × (self.new.begun ≡ self.old.begun)
            × (self.new.accepted ≡ self.old.accepted) }
    {
        match slot {
            Slot::Begun => self.by_peer.remove(id),
            Slot::Accepted => self.by_own.remove(id),
        };
    }

    /// Sends or receives the components of the Continue that answers the Begin of a found half that is open.
    ///
    /// The half gets this ID: the peer's if this end sent the Begin, its own if this end received it. No half has the
    /// ID yet.
    pub(crate) fn activate_over(
        &mut self,
        changes: &mut Changes,
        table: &Table,
        found: &HalfKey,
        id: TransactionId,
        components: Components,
    ) -> Result<(), EndFault>
        requires held { IsHeld self.old }
        requires open { HasOpen found.now.slot found.now.key self.old }
        requires found { IsNumbered found.now self.old }
        requires unknown { (h : Half) → HasHalf (end_of self.old) (keyed_half found.now.slot found.now.key h)
            → other_id found.now.slot h ≡ None }
        requires unused { (f : KeyedHalf) → HasHalf (end_of self.old) f → other_id found.now.slot f.half ≢ Some id }
        ensures step { AnswersOver found.now.slot found.now.key
            (λ h. components_by (direction_of found.now.slot) table.now (active_half found.now.slot id h)
            (components_left components.entry))
            result self.old self.new }
        ensures kept { OnErr result (end_of self.new ≡ end_of self.old) }
        ensures held { IsHeld self.new }
        ensures placed { AllPlaced self.old → AllPlaced self.new }
    {
        let index = id.view().to_transaction_id();
        let key = found.key.view().to_transaction_id();
        self.put_index(found.slot, index, key)?;
        let index = id.view().to_transaction_id();
        let number = self.number(found);
        let Some(half) = self.slab.get_mut(number) else {
            unreachable!()
        };
        match half.activate(changes, table, id, components) {
            Ok(()) => Ok(()),
            Err(fault) => {
                self.remove_index(found.slot, &index);
                Err(fault)
            }
        }
    }

    /// Returns whether no half is open.
    pub(crate) fn all_closed(&self) -> bool
        requires held { IsHeld self.now }
        requires placed { AllPlaced self.now }
        ensures { result ≡ all_closed (end_of self.now).begun && all_closed (end_of self.now).accepted }
    {
        self.slab.is_empty()
    }
}
