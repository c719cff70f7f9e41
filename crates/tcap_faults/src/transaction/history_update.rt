//! What is kept after one more message.

ghost use Rattle.std.specs.Prelude.{◌≡◌, ℕ, List, [], ◌∷◌, ◌++◌, ◌&&◌, Some, not, option_copied, OnOk};
ghost use Rattle.std.specs.List.{list_any};
ghost use Rattle.std.specs.Str.{bytes_eq};
ghost use Rattle.tcap_record.specs.declared.entry.End.{End as Side};
ghost use Rattle.tcap_record.specs.Ends.{other};
ghost use Rattle.tcap_msg.specs.declared.message.Message.{Message};
ghost use Rattle.tcap_end.specs.End.{is_id};
ghost use Rattle.tcap_end.specs.Table.{Table};
ghost use Rattle.tcap_model.specs.World.{Item, Sent};
ghost use Rattle.tcap_refute.specs.EarlierMessages.{peer_sent_from, since_quiet};
ghost use Rattle.tcap_faults.specs.ClosedHalves.{all_continue_to, shows_closed};
ghost use Rattle.tcap_faults.specs.SentToId.{has_ended, has_used};
ghost use Rattle.tcap_faults.specs.JoinedIds.{GetsMore, HasMore, IsJoined};
ghost use Rattle.tcap_faults.specs.IdList.{AreAmong};
ghost use Rattle.tcap_faults.specs.History.{IsSide, otids_of, sent_to};
ghost use Rattle.tcap_faults.specs.HistoryUpdate.{AreTo};
ghost use Rattle.tcap_faults.specs.SearchState.{IsHalfKey};
ghost use Rattle.tcap_faults.specs.TangledIds.{guesses, owns_of};
ghost use Rattle.tcap_faults.specs.MessageEffects.{AreEffects};

use crate::transaction::history::{Facts, SideFacts};
use crate::transaction::id_list::Ids;
use crate::transaction::message_effects::Effects;
use crate::transaction::messages_at_id::note_at;
use crate::transaction::sent_to_id::{SentTo, ends};
use std::alloc::{AllocError, Global};
use std::collections::{BTreeMap, BTreeSet};
use tcap_end::Table;
use tcap_msg::{MessageParts, TransactionId, TransactionIdView};
use tcap_record::End;

/// Adds an ID to the list of a key. Fails if memory runs out.
fn add_at(
    alloc: Global,
    map: &mut BTreeMap<TransactionId, Ids>,
    key: TransactionIdView,
    id: TransactionIdView,
) -> Result<(), AllocError>
    ensures { OnOk result (GetsMore (bytes_eq key.entry.octets.now) id.entry.octets.now map.old map.new) }
{
    let key = key.to_transaction_id();
    if let Some(ids) = map.get_mut(&key) {
        return ids.add(id);
    }
    let mut ids = Ids::new(alloc);
    ids.add(id)?;
    map.insert(key, ids)?;
    Ok(())
}

/// Adds an ID to the list of each of these keys. Fails if memory runs out.
fn add_at_all(
    alloc: Global,
    map: &mut BTreeMap<TransactionId, Ids>,
    keys: &Ids,
    id: TransactionIdView,
) -> Result<(), AllocError>
    ensures { (those : List (List ℕ)) → AreAmong those (Some keys.now)
        → OnOk result (GetsMore (λ key. list_any (bytes_eq key) those) id.entry.octets.now map.old map.new) }
{
    if let Some(first) = &keys.first {
        add_at(alloc, map, first.view(), id)?;
        for key in &keys.more {
            add_at(alloc, map, key.view(), id)?;
        }
    }
    Ok(())
}

/// Adds these IDs to a set. Fails if memory runs out.
fn insert_all(set: &mut BTreeSet<TransactionId>, ids: Option<&Ids>) -> Result<(), AllocError>
    ensures { (those : List (List ℕ)) → AreAmong those (option_copied ids.entry)
        → OnOk result (HasMore (λ id. list_any (bytes_eq id) those) set.old set.new) }
{
    let Some(ids) = ids else {
        return Ok(());
    };
    if let Some(first) = &ids.first {
        set.insert(first.view().to_transaction_id())?;
        for id in &ids.more {
            set.insert(id.view().to_transaction_id())?;
        }
    }
    Ok(())
}

impl SideFacts {
    /// Returns whether the end sent an End, or an Abort without cause, to one of these IDs.
    fn ended_one(&self, ids: &Ids) -> bool
        ensures { (table : Table) (side : Side) (items : List Item) (those : List (List ℕ))
            → IsSide table side items self.now
            → AreAmong those (Some ids.now) → result ≡ list_any (has_ended side items) those }
    {
        let Some(first) = &ids.first else {
            return false;
        };
        if self.has_ended(first) {
            return true;
        }
        for id in &ids.more {
            if self.has_ended(id) {
                return true;
            }
        }
        false
    }
}

/// Returns the own ID that an Abort with cause 1 to `dtid` shows to be closed: all Continues from `dtid` went to it,
/// and the end used it.
fn closed_at(own: &SideFacts, peer: &SideFacts, dtid: &TransactionId) -> Option<TransactionId>
    ensures { (table : Table) (side : Side) (items : List Item) (id : List ℕ) → IsSide table side items own.now
        → IsSide table (other side) items peer.now
        → is_id id result ≡ all_continue_to id (peer_sent_from side dtid.now items) && has_used side items id }
{
    let Some(ids) = peer.goes_to(dtid) else {
        return None;
    };
    if ids.differ() {
        return None;
    }
    let first = ids.first()?.to_transaction_id();
    if own.has_used(&first) {
        Some(first)
    } else {
        None
    }
}

/// Returns the own ID that a message shows to be closed, if its end sends it now.
fn closed_by<M: MessageParts>(
    own: &SideFacts,
    peer: &SideFacts,
    message: &M,
) -> Option<TransactionId>
    ensures { (table : Table) (side : Side) (items : List Item) (id : List ℕ) → IsSide table side items own.now
        → IsSide table (other side) items peer.now
        → is_id id result ≡ shows_closed side id items (Sent side (M.meaning message.now)) }
{
    match (message.cause(), message.dtid()) {
        (Some(cause), Some(dtid)) if cause.number == 1 => {
            closed_at(own, peer, &dtid.to_transaction_id())
        }
        _ => None,
    }
}

/// Adds an ID to a set, if there is one. Fails if memory runs out.
fn insert_some(
    set: &mut BTreeSet<TransactionId>,
    id: Option<TransactionId>,
) -> Result<(), AllocError>
    ensures { OnOk result (HasMore (λ other. is_id other id) set.old set.new) }
{
    if let Some(id) = id {
        set.insert(id)?;
    }
    Ok(())
}

/// Adds an ID to a set if `so` holds. Fails if memory runs out.
fn insert_if(
    set: &mut BTreeSet<TransactionId>,
    so: bool,
    id: TransactionIdView,
) -> Result<(), AllocError>
    ensures { OnOk result (HasMore (λ other. bytes_eq other id.entry.octets.now && so) set.old set.new) }
{
    if so {
        set.insert(id.to_transaction_id())?;
    }
    Ok(())
}

/// Notes the first use of an own ID: the peer's IDs from which it went on to this ID are now joined with it. `used`
/// is whether the ID was used before. Fails if memory runs out.
fn join_first(
    alloc: Global,
    own: &mut SideFacts,
    peer: &mut SideFacts,
    otid: TransactionIdView,
    used: bool,
) -> Result<(), AllocError>
    ensures { (table : Table) (side : Side) (items : List Item) → IsSide table side items own.old
        → IsSide table (other side) items peer.old → used ≡ has_used side items otid.entry.octets.now
        → OnOk result (
        GetsMore (λ key. not (has_used side items otid.entry.octets.now)
        && list_any (bytes_eq key) (otids_of (sent_to (other side) items otid.entry.octets.now)))
        otid.entry.octets.now peer.old.joined peer.new.joined
        × HasMore (λ id. bytes_eq id otid.entry.octets.now && not (has_used side items otid.entry.octets.now)
        && list_any (has_ended side items) (otids_of (sent_to (other side) items otid.entry.octets.now)))
        own.old.over own.new.over
        × (own.new ≡ record own.old { over = own.new.over })
        × (peer.new ≡ record peer.old { joined = peer.new.joined })) }
{
    if used {
        return Ok(());
    }
    let id = otid.to_transaction_id();
    let Some(kept) = peer.to.get(&id) else {
        return Ok(());
    };
    add_at_all(alloc, &mut peer.joined, &kept.from, otid)?;
    let ended = own.ended_one(&kept.from);
    insert_if(&mut own.over, ended, otid)
}

/// Notes a Continue from an own ID to an ID of the peer, which joins them. Fails if memory runs out.
fn join_continue(
    alloc: Global,
    own: &mut SideFacts,
    peer: &mut SideFacts,
    otid: TransactionIdView,
    dtid: TransactionIdView,
    effects: Effects,
) -> Result<(), AllocError>
    ensures { OnOk result (
        GetsMore (λ key. bytes_eq key otid.entry.octets.now && effects.joins)
        dtid.entry.octets.now own.old.joined own.new.joined
        × HasMore (λ id. bytes_eq id otid.entry.octets.now && effects.over) own.old.over own.new.over
        × HasMore (λ id. bytes_eq id dtid.entry.octets.now && effects.peer_over) peer.old.over peer.new.over
        × (own.new ≡ record own.old { over = own.new.over; joined = own.new.joined })
        × (peer.new ≡ record peer.old { over = peer.new.over })) }
{
    insert_if(&mut own.over, effects.over, otid)?;
    insert_if(&mut peer.over, effects.peer_over, dtid)?;
    if !effects.joins {
        return Ok(());
    }
    add_at(alloc, &mut own.joined, otid, dtid)
}

/// Adds the IDs from which Continues were sent to an ID. Fails if memory runs out.
fn insert_from(
    set: &mut BTreeSet<TransactionId>,
    to: &BTreeMap<TransactionId, SentTo>,
    id: &TransactionId,
) -> Result<(), AllocError>
    ensures { (table : Table) (lists : List ℕ → List Message) → AreTo table lists to.now
        → OnOk result (HasMore (λ own. list_any (bytes_eq own) (otids_of (lists id.now))) set.old set.new) }
{
    let Some(kept) = to.get(id) else {
        return Ok(());
    };
    insert_all(set, Some(&kept.from))
}

/// Notes a user's end to an ID of the peer: the transactions of own IDs that are joined with it may be over. `ended`
/// is whether the end sent one to the ID before. Fails if memory runs out.
fn end_all(
    own: &mut SideFacts,
    peer: &SideFacts,
    dtid: TransactionIdView,
    ended: bool,
) -> Result<(), AllocError>
    ensures { (table : Table) (side : Side) (items : List Item) → IsSide table side items own.old
        → IsSide table (other side) items peer.now → ended ≡ has_ended side items dtid.entry.octets.now
        → OnOk result (
        HasMore (λ id. not (has_ended side items dtid.entry.octets.now)
        && list_any (bytes_eq id) (owns_of side items dtid.entry.octets.now)) own.old.over own.new.over
        × (own.new ≡ record own.old { over = own.new.over })) }
{
    if ended {
        return Ok(());
    }
    let id = dtid.to_transaction_id();
    insert_from(&mut own.over, &own.to, &id)?;
    insert_all(&mut own.over, peer.joined.get(&id))
}

/// Notes how a message changes which IDs are joined. Fails if memory runs out.
fn note_joined<M: MessageParts>(
    alloc: Global,
    own: &mut SideFacts,
    peer: &mut SideFacts,
    message: &M,
    effects: Effects,
) -> Result<(), AllocError>
    ensures { (table : Table) (side : Side) (items : List Item) → IsSide table side items own.old
        → IsSide table (other side) items peer.old → AreEffects table side items (M.meaning message.now) effects
        → OnOk result (IsJoined side items (M.meaning message.now) own.old own.new peer.old peer.new) }
{
    match (message.otid(), message.dtid()) {
        (Some(otid), None) => join_first(alloc, own, peer, otid, effects.used),
        (Some(otid), Some(dtid)) => {
            join_first(alloc, own, peer, otid, effects.used)?;
            join_continue(alloc, own, peer, otid, dtid, effects)
        }
        (None, Some(dtid)) if ends(message) => end_all(own, peer, dtid, effects.over),
        _ => Ok(()),
    }
}

/// Notes the originating ID of a Continue that guesses its destination ID. Fails if memory runs out.
fn note_guessed<M: MessageParts>(
    guessed: &mut BTreeSet<TransactionId>,
    message: &M,
    effects: Effects,
) -> Result<(), AllocError>
    ensures { (table : Table) (side : Side) (items : List Item)
        → AreEffects table side items (M.meaning message.now) effects
        → OnOk result
        (HasMore (λ id. guesses (other side) id items (Sent side (M.meaning message.now))) guessed.old guessed.new) }
{
    let Some(otid) = message.otid() else {
        return Ok(());
    };
    match message.dtid() {
        Some(_) => insert_if(guessed, effects.guesses, otid),
        None => Ok(()),
    }
}

/// Notes a message of an end in its history and in its peer's. `effects` are those of the message, from what was sent
/// before. Fails if memory runs out.
fn note_sent<M: MessageParts>(
    alloc: Global,
    table: &Table,
    own: &mut SideFacts,
    peer: &mut SideFacts,
    message: &M,
    effects: Effects,
) -> Result<(), AllocError>
    ensures { (side : Side) (items : List Item) → IsSide table.now side items own.old
        → IsSide table.now (other side) items peer.old → AreEffects table.now side items (M.meaning message.now) effects
        → OnOk result (IsSide table.now side (items ++ Sent side (M.meaning message.now) ∷ []) own.new
        × IsSide table.now (other side) (items ++ Sent side (M.meaning message.now) ∷ []) peer.new) }
{
    let closed = closed_by(own, peer, message);
    note_joined(alloc, own, peer, message, effects)?;
    own.again |= effects.again;
    insert_some(&mut own.closed, closed)?;
    note_guessed(&mut own.guessed, message, effects)?;
    note_at(&mut own.from, message.otid(), alloc, table, message)?;
    note_at(&mut own.to, message.dtid(), alloc, table, message)
}

impl Facts {
    /// Notes a message of an end. `effects` are those of the message, from what was sent before. Fails if memory runs
    /// out.
    pub(crate) fn note<M: MessageParts>(
        &mut self,
        alloc: Global,
        table: &Table,
        sender: End,
        message: &M,
        effects: Effects,
    ) -> Result<(), AllocError>
        ensures { (items : List Item) → IsHalfKey table.now items self.old
            → AreEffects table.now sender (since_quiet items) (M.meaning message.now) effects
            → OnOk result (IsHalfKey table.now (items ++ Sent sender (M.meaning message.now) ∷ []) self.new) }
    {
        match sender {
            End::A => note_sent(alloc, table, &mut self.a, &mut self.b, message, effects),
            End::B => note_sent(alloc, table, &mut self.b, &mut self.a, message, effects),
        }
    }
}
