//! Tangled transaction IDs, and own IDs that are used again (Q.774 3.3).

ghost use Rattle.std.specs.Prelude.{◌≡◌, ℕ, List, [], ◌∷◌, None, Some, true, ◌&&◌, false, not, Option, option_copied};
ghost use Rattle.std.specs.List.{list_any};
ghost use Rattle.std.specs.Str.{bytes_eq};
ghost use Rattle.std.specs.Option.{option_to_list};
ghost use Rattle.tcap_msg.specs.declared.kind.Kind.TheVariants as forms;
ghost use Rattle.tcap_msg.specs.declared.message.Message.{Message};
ghost use Rattle.tcap_record.specs.declared.entry.End.{End as Side};
ghost use Rattle.tcap_record.specs.Ends.{other};
ghost use Rattle.tcap_end.specs.End.{is_id};
ghost use Rattle.tcap_end.specs.Table.{Table};
ghost use Rattle.tcap_model.specs.World.{Item};
ghost use Rattle.tcap_refute.specs.EarlierMessages.{peer_sent_from, has_a};
ghost use Rattle.tcap_faults.specs.Counts.{is_nothing};
ghost use Rattle.tcap_faults.specs.SentToId.{began, has_used, outgoing};
ghost use Rattle.tcap_faults.specs.KeptForMessage.{AreMessageIds, IsOwnId, IsOwnIdAt, IsPeerId};
ghost use Rattle.tcap_faults.specs.IdList.{AreAmong, IsOneOf};
ghost use Rattle.tcap_faults.specs.History.{IsSide, dtids_of, sent_from};
ghost use Rattle.tcap_faults.specs.TangledIds.{first_tangled, goes_to_begun, owns_of, peers_of, tangle_of_own, tangle_of_peer, tangled_for, tangled_id, tangled_in, two_differ};
ghost use Rattle.tcap_faults.specs.UsedAgain.{may_be_over, uses_again};

use crate::transaction::history::SideFacts;
use crate::transaction::id_list::Ids;
use crate::transaction::lookup::{MessageIds, OwnId, PeerId, key_of};
use crate::transaction::sent_from_id::{begins, begins_twice, goes_on, goes_to};
use crate::transaction::sent_to_id::{is_silenced, tells};
use crate::verdict::unblamed_reason::{Tangle, TangledId};
use tcap_end::Table;
use tcap_msg::{MessageParts, TransactionId};
use tcap_record::End;

/// An end and its peer, with their histories.
#[derive(Clone, Copy)]
pub(crate) struct Ends<'a> {
    pub(crate) own: &'a SideFacts,
    pub(crate) peer: &'a SideFacts,
}

/// Returns whether there is another ID, and both are equal.
fn is_that(id: &TransactionId, other: Option<&TransactionId>) -> bool
    ensures { result ≡ is_id id.now (option_copied other.entry) }
{
    match other {
        Some(other) => id.octets() == other.octets(),
        None => false,
    }
}

impl SideFacts {
    /// Returns the destination IDs of the Continues that the end sent from an ID.
    pub(crate) fn goes_to(&self, id: &TransactionId) -> Option<&Ids>
        ensures { (table : Table) (side : Side) (items : List Item) → IsSide table side items self.now
            → AreAmong (dtids_of (sent_from side items id.now)) (option_copied result) }
    {
        goes_to(self.from.get(id))
    }
}

impl<'a> Ends<'a> {
    /// Returns whether the peer began an ID, and sent a Continue from it to an ID that the end began. At most one own
    /// ID may be joined with the ID.
    fn is_begun_by_both(self, peer_id: PeerId) -> bool
        ensures { (table : Table) (side : Side) (items : List Item) (id : List ℕ)
            → IsSide table side items self.entry.own.now
            → IsPeerId table side items id peer_id.entry → two_differ (owns_of side items id) ≡ false
            → result ≡ (has_a forms.Begin (peer_sent_from side id items)
            && list_any (goes_to_begun side items) (peer_sent_from side id items)) }
    {
        if !begins(peer_id.from) {
            return false;
        }
        match peer_id.joined {
            Some(ids) => self.began_first(ids),
            None => false,
        }
    }

    /// Returns whether the end began the first of these IDs.
    fn began_first(self, ids: &Ids) -> bool
        ensures { (table : Table) (side : Side) (items : List Item) (xs : List (List ℕ))
            → IsSide table side items self.entry.own.now → AreAmong xs (Some ids.now)
            → two_differ xs ≡ false → result ≡ list_any (λ own. began side own items) xs }
    {
        match ids.first() {
            Some(first) => self.own.began(&first.to_transaction_id()),
            None => false,
        }
    }

    /// Returns why an ID of the peer is tangled, if it is.
    fn tangle_of_peer(self, peer_id: PeerId) -> Option<Tangle>
        ensures { (table : Table) (side : Side) (items : List Item) (id : List ℕ)
            → IsSide table side items self.entry.own.now
            → IsSide table (other side) items self.entry.peer.now → IsPeerId table side items id peer_id.entry
            → result ≡ tangle_of_peer side items id }
    {
        if peer_id.owns_differ() {
            Some(Tangle::TwoIds)
        } else if begins_twice(peer_id.from) {
            Some(Tangle::BegunTwice)
        } else if self.is_begun_by_both(peer_id) {
            Some(Tangle::BothBegan)
        } else if self.peer.has_guessed(peer_id.id) {
            Some(Tangle::Guessed)
        } else {
            None
        }
    }

    /// Returns an ID of the peer with the reason, if it is tangled.
    fn tangled_peer(self, peer: End, peer_id: PeerId) -> Option<TangledId>
        ensures { (table : Table) (side : Side) (items : List Item) (id : List ℕ)
            → IsSide table side items self.entry.own.now
            → IsSide table (other side) items self.entry.peer.now → IsPeerId table side items id peer_id.entry
            → result ≡ tangled_for peer id (tangle_of_peer side items id) }
    {
        match self.tangle_of_peer(peer_id) {
            Some(why) => Some(TangledId {
                side: peer,
                id: peer_id.id.view().to_transaction_id(),
                why,
            }),
            None => None,
        }
    }

    /// Returns what is kept of an own ID. If it is `own`, it is not looked up again.
    fn own_near(self, id: &'a TransactionId, own: Option<OwnId<'a>>) -> OwnId<'a>
        ensures { (table : Table) (side : Side) (items : List Item) (near : Option (List ℕ))
            → IsSide table side items self.entry.own.now → IsSide table (other side) items self.entry.peer.now
            → IsOwnIdAt table side items near own.entry → IsOwnId table side items id.now result }
    {
        match own {
            Some(own) if is_that(own.id, Some(id)) => own,
            _ => self.own_at(id),
        }
    }

    /// Returns the own ID `joined`, if there is one and it is tangled. All own IDs that are joined with the peer's ID
    /// must be equal.
    fn tangled_near(
        self,
        end: End,
        joined: Option<&TransactionId>,
        own: Option<OwnId>,
    ) -> Option<TangledId>
        ensures { (table : Table) (side : Side) (items : List Item) (near : Option (List ℕ)) (ids : List (List ℕ))
            → IsSide table side items self.entry.own.now → IsSide table (other side) items self.entry.peer.now
            → IsOwnIdAt table side items near own.entry → IsOneOf ids (option_copied joined.entry)
            → two_differ ids ≡ false
            → result ≡ first_tangled end (tangle_of_own side items) ids }
    {
        match joined {
            Some(id) => self.own_near(id, own).tangled(end),
            None => None,
        }
    }

    /// Returns an ID of the peer that is joined with this own ID, if it is tangled. The own ID itself must not be
    /// tangled.
    fn tangled_after(self, peer: End, own: OwnId) -> Option<TangledId>
        ensures { (table : Table) (side : Side) (items : List Item) (id : List ℕ)
            → IsSide table side items self.entry.own.now
            → IsSide table (other side) items self.entry.peer.now → IsOwnId table side items id own.entry
            → two_differ (peers_of side items id) ≡ false
            → result ≡ first_tangled peer (tangle_of_peer side items) (peers_of side items id) }
    {
        match own.joined() {
            Some(joined) => self.tangled_peer(peer, self.peer_id(&joined)),
            None => None,
        }
    }

    /// Returns the first tangled ID that an additional own ID adds: this ID, or an ID of the peer that is joined with
    /// it.
    ///
    /// Neither the peer's ID nor the own IDs that are joined with it may be tangled. If the own ID is `joined`, it
    /// adds nothing.
    fn tangled_besides(
        self,
        end: End,
        own: OwnId,
        joined: Option<&TransactionId>,
    ) -> Option<TangledId>
        ensures { (table : Table) (items : List Item) (more id : List ℕ) → IsSide table end items self.entry.own.now
            → IsSide table (other end) items self.entry.peer.now → IsOwnId table end items more own.entry
            → IsOneOf (owns_of end items id) (option_copied joined.entry)
            → None ≡ tangled_for (other end) id (tangle_of_peer end items id)
            → None ≡ first_tangled end (tangle_of_own end items) (owns_of end items id)
            → result ≡ tangled_id end items (more ∷ []) id }
    {
        if is_that(own.id, joined) {
            return None;
        }
        if let Some(tangled) = own.tangled(end) {
            return Some(tangled);
        }
        self.tangled_after(end.other(), own)
    }

    /// Returns the first tangled ID: the peer's ID, an own ID near it, or an ID of the peer that is joined with one
    /// of these. `own` is an additional own ID.
    pub(crate) fn tangled_id(
        self,
        end: End,
        peer_id: PeerId,
        own: Option<OwnId>,
    ) -> Option<TangledId>
        ensures { (table : Table) (items : List Item) (id : List ℕ) (near : Option (List ℕ))
            → IsSide table end items self.entry.own.now → IsSide table (other end) items self.entry.peer.now
            → IsPeerId table end items id peer_id.entry → IsOwnIdAt table end items near own.entry
            → result ≡ tangled_id end items (option_to_list near) id }
    {
        if let Some(tangled) = self.tangled_peer(end.other(), peer_id) {
            return Some(tangled);
        }
        let joined = peer_id.joined_own();
        let near = joined.as_ref();
        if let Some(tangled) = self.tangled_near(end, near, own) {
            return Some(tangled);
        }
        match own {
            Some(own) => self.tangled_besides(end, own, near),
            None => None,
        }
    }

    /// Returns the first tangled ID that a message goes over, from what was found of its IDs.
    pub(crate) fn tangled_in(self, end: End, found: MessageIds) -> Option<TangledId>
        ensures { (table : Table) (items : List Item) (m : Message) → IsSide table end items self.entry.own.now
            → IsSide table (other end) items self.entry.peer.now → AreMessageIds table end items m found.entry
            → result ≡ tangled_in end items m }
    {
        match found.peer_id {
            Some(peer_id) => self.tangled_id(end, peer_id, found.own),
            None => None,
        }
    }

    /// Returns the first tangled ID that a message goes over.
    pub(crate) fn tangled_of<M: MessageParts>(self, end: End, message: &M) -> Option<TangledId>
        ensures { (table : Table) (items : List Item) → IsSide table end items self.entry.own.now
            → IsSide table (other end) items self.entry.peer.now
            → result ≡ tangled_in end items (M.meaning message.now) }
    {
        let otid = key_of(message.otid());
        let dtid = key_of(message.dtid());
        let found = self.find(otid.as_ref(), dtid.as_ref());
        self.tangled_in(end, found)
    }

    // ---- an own ID that is used again

    /// Returns whether the transaction of an own ID may be over.
    fn may_be_over(self, table: &Table, own: OwnId) -> bool
        ensures { (side : Side) (items : List Item) (id : List ℕ) → IsSide table.now side items self.entry.own.now
            → IsOwnId table.now side items id own.entry → result ≡ may_be_over table.now side items id }
    {
        table.prearranged() || is_silenced(own.to) || self.own.over.contains(own.id)
    }

    /// Returns whether a message uses an own ID again, from what was found of its IDs.
    pub(crate) fn uses_again(self, table: &Table, found: MessageIds) -> bool
        ensures { (side : Side) (items : List Item) (m : Message) → IsSide table.now side items self.entry.own.now
            → AreMessageIds table.now side items m found.entry → result ≡ uses_again table.now side items m }
    {
        let Some(own) = found.own else {
            return false;
        };
        if own.from.is_none() || !self.may_be_over(table, own) {
            return false;
        }
        match found.peer_id {
            Some(peer_id) => peer_id.is_answered_anew(own),
            None => true,
        }
    }
}

impl OwnId<'_> {
    /// Returns the ID with the reason, if it is tangled.
    fn tangled(self, end: End) -> Option<TangledId>
        ensures { (table : Table) (side : Side) (items : List Item) (id : List ℕ)
            → IsOwnId table side items id self.entry
            → result ≡ tangled_for end id (tangle_of_own side items id) }
    {
        if !self.is_tangled() {
            return None;
        }
        Some(TangledId {
            side: end,
            why: Tangle::TwoIds,
            id: self.id.view().to_transaction_id(),
        })
    }
}

impl PeerId<'_> {
    /// Returns whether an own ID, which the end used, is joined with this ID.
    fn is_joined(self, own: OwnId) -> bool
        ensures { (table : Table) (side : Side) (items : List Item) (own_id id : List ℕ)
            → IsOwnId table side items own_id own.entry → IsPeerId table side items id self.entry
            → has_used side items own_id ≡ true → result ≡ list_any (bytes_eq own_id) (owns_of side items id) }
    {
        goes_on(own.from, self.id) || goes_on(self.from, own.id)
    }

    /// Returns whether a Continue from an own ID answers a Begin of the peer from this ID, to which the end sent
    /// nothing before and with which the own ID is not joined.
    fn is_answered_anew(self, own: OwnId) -> bool
        ensures { (table : Table) (side : Side) (items : List Item) (own_id id : List ℕ)
            → IsOwnId table side items own_id own.entry → IsPeerId table side items id self.entry
            → has_used side items own_id ≡ true
            → result ≡ (has_a forms.Begin (peer_sent_from side id items) && is_nothing (outgoing side id items)
            && not (list_any (bytes_eq own_id) (owns_of side items id))) }
    {
        begins(self.from) && !tells(self.to) && !self.is_joined(own)
    }
}
