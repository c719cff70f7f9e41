//! The transaction IDs of a message, with what is kept of each. Each ID is looked up once.

ghost use Rattle.std.specs.Prelude.{◌≡◌, ℕ, List, [], ◌++◌, cond, option_copied};
ghost use Rattle.tcap_msg.specs.declared.message.Message.{Message};
ghost use Rattle.tcap_msg.specs.Meaning.{id_of};
ghost use Rattle.tcap_msg.specs.Parts.{dtid_in, otid_in};
ghost use Rattle.tcap_record.specs.declared.entry.End.{End as Side};
ghost use Rattle.tcap_record.specs.Ends.{other};
ghost use Rattle.tcap_end.specs.Table.{Table};
ghost use Rattle.tcap_model.specs.World.{Item};
ghost use Rattle.tcap_refute.specs.KindsByFacts.{fact_ended, fact_from};
ghost use Rattle.tcap_refute.specs.Facts.{FromFact, fact_in_items};
ghost use Rattle.tcap_refute.specs.KeptFacts.{fact_by_from};
ghost use Rattle.tcap_faults.specs.KeptForMessage.{AreMessageIds, IsOwnId, IsOwnIdAt, IsPeerId, IsPeerIdAt};
ghost use Rattle.tcap_faults.specs.IdList.{AreAmong, IsOneOf};
ghost use Rattle.tcap_faults.specs.History.{IsSide, otids_of, sent_to};
ghost use Rattle.tcap_faults.specs.TangledIds.{is_own_tangled, owns_of, peers_of, two_differ};
ghost use Rattle.tcap_faults.specs.SentToId.{has_used};

use crate::transaction::id_list::Ids;
use crate::transaction::sent_from_id::{SentFrom, first_of, goes_to};
use crate::transaction::sent_to_id::{SentTo, comes_from, is_ended};
use crate::transaction::tangled_ids::Ends;
use tcap_msg::{TransactionId, TransactionIdView};
use tcap_refute::FromId;

/// An own ID, with what is kept of it.
#[derive(Clone, Copy)]
pub(crate) struct OwnId<'a> {
    pub(crate) id: &'a TransactionId,
    /// The messages that the end sent from the ID.
    pub(crate) from: Option<&'a SentFrom>,
    /// The messages that the peer sent to the ID.
    pub(crate) to: Option<&'a SentTo>,
}

/// An ID of the peer, with what is kept of it.
#[derive(Clone, Copy)]
pub(crate) struct PeerId<'a> {
    pub(crate) id: &'a TransactionId,
    /// The messages that the peer sent from the ID.
    pub(crate) from: Option<&'a SentFrom>,
    /// The messages that the end sent to the ID.
    pub(crate) to: Option<&'a SentTo>,
    /// The destination IDs of the peer's Continues from the ID that the end used.
    pub(crate) joined: Option<&'a Ids>,
}

/// The IDs of a message that an end sends, with what is kept of them.
#[derive(Clone, Copy)]
pub(crate) struct MessageIds<'a> {
    /// Its originating ID.
    pub(crate) own: Option<OwnId<'a>>,
    /// Its destination ID.
    pub(crate) peer_id: Option<PeerId<'a>>,
}

/// Returns the ID as a key of the maps, if there is one.
pub(crate) fn key_of(id: Option<TransactionIdView>) -> Option<TransactionId>
    ensures { result ≡ id_of id.entry }
{
    match id {
        Some(id) => Some(id.to_transaction_id()),
        None => None,
    }
}

/// Returns whether two IDs differ, of all those in the two lists together. Each list may be absent.
fn differ(some: Option<&Ids>, others: Option<&Ids>) -> bool
    ensures { (xs ys : List (List ℕ)) → AreAmong xs (option_copied some.entry)
        → AreAmong ys (option_copied others.entry)
        → result ≡ two_differ (xs ++ ys) }
{
    match (some, others) {
        (Some(some), Some(others)) => some.differs_from(others),
        (Some(ids), None) | (None, Some(ids)) => ids.differ(),
        (None, None) => false,
    }
}

/// Returns the first of these IDs, if there is one.
fn first_in(ids: Option<&Ids>) -> Option<TransactionId>
    ensures { (xs : List (List ℕ)) → AreAmong xs (option_copied ids.entry) → IsOneOf xs result }
{
    match ids {
        Some(ids) => key_of(ids.first()),
        None => None,
    }
}

/// Returns an ID of one of the lists, if there is one.
fn one_of(some: Option<&Ids>, others: Option<&Ids>) -> Option<TransactionId>
    ensures { (xs ys : List (List ℕ)) → AreAmong xs (option_copied some.entry)
        → AreAmong ys (option_copied others.entry)
        → IsOneOf (xs ++ ys) result }
{
    match first_in(some) {
        Some(one) => Some(one),
        None => first_in(others),
    }
}

impl<'a> OwnId<'a> {
    /// Returns the IDs from which the peer sent Continues to this ID, if the end used it.
    fn back(self) -> Option<&'a Ids>
        ensures { (table : Table) (side : Side) (items : List Item) (id : List ℕ)
            → IsOwnId table side items id self.entry
            → AreAmong (cond (has_used side items id) (otids_of (sent_to (other side) items id)) [])
            (option_copied result) }
    {
        match self.from {
            Some(_) => comes_from(self.to),
            None => None,
        }
    }

    /// Returns whether the ID is tangled.
    pub(crate) fn is_tangled(self) -> bool
        ensures { (table : Table) (side : Side) (items : List Item) (id : List ℕ)
            → IsOwnId table side items id self.entry
            → result ≡ is_own_tangled side items id }
    {
        let back = self.back();
        differ(goes_to(self.from), back)
    }

    /// Returns an ID of the peer that is joined with this ID, if there is one.
    pub(crate) fn joined(self) -> Option<TransactionId>
        ensures { (table : Table) (side : Side) (items : List Item) (id : List ℕ)
            → IsOwnId table side items id self.entry
            → IsOneOf (peers_of side items id) result }
    {
        one_of(goes_to(self.from), self.back())
    }
}

impl PeerId<'_> {
    /// Returns whether two own IDs that are joined with this ID differ.
    pub(crate) fn owns_differ(self) -> bool
        ensures { (table : Table) (side : Side) (items : List Item) (id : List ℕ)
            → IsPeerId table side items id self.entry
            → result ≡ two_differ (owns_of side items id) }
    {
        differ(comes_from(self.to), self.joined)
    }

    /// Returns an own ID that is joined with this ID, if there is one.
    pub(crate) fn joined_own(self) -> Option<TransactionId>
        ensures { (table : Table) (side : Side) (items : List Item) (id : List ℕ)
            → IsPeerId table side items id self.entry
            → IsOneOf (owns_of side items id) result }
    {
        one_of(comes_from(self.to), self.joined)
    }
}

impl<'a> MessageIds<'a> {
    /// Returns the notes for F2 to F7 on what the end sent from the originating ID, if it sent anything.
    pub(crate) fn first_own(self) -> Option<&'a FromId>
        ensures { (table : Table) (side : Side) (items : List Item) (m : Message) (fact : FromFact)
            → AreMessageIds table side items m self.entry
            → fact_by_from (option_copied result) fact ≡ fact_from (fact_in_items table side items) (otid_in m) fact }
    {
        match self.own {
            Some(own) => first_of(own.from),
            None => None,
        }
    }

    /// Returns the notes for F2 to F7 on what the peer sent from the destination ID, if it sent anything.
    pub(crate) fn first_from_peer(self) -> Option<&'a FromId>
        ensures { (table : Table) (side : Side) (items : List Item) (m : Message) (fact : FromFact)
            → AreMessageIds table side items m self.entry
            → fact_by_from (option_copied result) fact
            ≡ fact_from (fact_in_items table (other side) items) (dtid_in m) fact }
    {
        match self.peer_id {
            Some(peer_id) => first_of(peer_id.from),
            None => None,
        }
    }

    /// Returns whether the end sent an End, or an Abort without cause, to the destination ID.
    pub(crate) fn has_ended(self) -> bool
        ensures { (table : Table) (side : Side) (items : List Item) (m : Message)
            → AreMessageIds table side items m self.entry
            → result ≡ fact_ended (fact_in_items table side items) (dtid_in m) }
    {
        match self.peer_id {
            Some(peer_id) => is_ended(peer_id.to),
            None => false,
        }
    }
}

impl<'a> Ends<'a> {
    /// Looks up an own ID.
    pub(crate) fn own_at(self, id: &'a TransactionId) -> OwnId<'a>
        ensures { (table : Table) (side : Side) (items : List Item) → IsSide table side items self.entry.own.now
            → IsSide table (other side) items self.entry.peer.now → IsOwnId table side items id.now result }
    {
        OwnId {
            id,
            from: self.own.from.get(id),
            to: self.peer.to.get(id),
        }
    }

    /// Looks up an ID of the peer.
    pub(crate) fn peer_id(self, id: &'a TransactionId) -> PeerId<'a>
        ensures { (table : Table) (side : Side) (items : List Item) → IsSide table side items self.entry.own.now
            → IsSide table (other side) items self.entry.peer.now → IsPeerId table side items id.now result }
    {
        PeerId {
            id,
            from: self.peer.from.get(id),
            to: self.own.to.get(id),
            joined: self.peer.joined.get(id),
        }
    }

    /// Looks up an own ID, if there is one.
    fn own_with(self, id: Option<&'a TransactionId>) -> Option<OwnId<'a>>
        ensures { (table : Table) (side : Side) (items : List Item) → IsSide table side items self.entry.own.now
            → IsSide table (other side) items self.entry.peer.now
            → IsOwnIdAt table side items (option_copied id.entry) result }
    {
        match id {
            Some(id) => Some(self.own_at(id)),
            None => None,
        }
    }

    /// Looks up an ID of the peer, if there is one.
    fn peer_id_with(self, id: Option<&'a TransactionId>) -> Option<PeerId<'a>>
        ensures { (table : Table) (side : Side) (items : List Item) → IsSide table side items self.entry.own.now
            → IsSide table (other side) items self.entry.peer.now
            → IsPeerIdAt table side items (option_copied id.entry) result }
    {
        match id {
            Some(id) => Some(self.peer_id(id)),
            None => None,
        }
    }

    /// Looks up the IDs of a message that the end sends.
    pub(crate) fn find(
        self,
        otid: Option<&'a TransactionId>,
        dtid: Option<&'a TransactionId>,
    ) -> MessageIds<'a>
        ensures { (table : Table) (side : Side) (items : List Item) (m : Message)
            → IsSide table side items self.entry.own.now → IsSide table (other side) items self.entry.peer.now
            → option_copied otid.entry ≡ otid_in m → option_copied dtid.entry ≡ dtid_in m
            → AreMessageIds table side items m result }
    {
        MessageIds {
            own: self.own_with(otid),
            peer_id: self.peer_id_with(dtid),
        }
    }
}
