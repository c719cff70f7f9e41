//! The lowest kind of a message, from what is kept of earlier messages.

ghost use Rattle.std.specs.Prelude.{◌≡◌, ◌^◌, ◌≤◌, ℕ, List, length, [], ◌∷◌, ◌++◌, false, cond, Some, None, is_some, IfOk};
ghost use Rattle.std.specs.List.{find};
ghost use Rattle.tcap_msg.specs.Parts.{dtid_in};
ghost use Rattle.tcap_record.specs.declared.entry.End.{End as Side};
ghost use Rattle.tcap_record.specs.Ends.{other};
ghost use Rattle.tcap_model.specs.World.{Item, Sent};
ghost use Rattle.tcap_refute.specs.declared.kind.Kind.TheVariants.{WrongReply};
ghost use Rattle.tcap_faults.specs.Fault.{further_kinds, is_of_further_kind, is_of_half_kind, is_wrong_reply};
ghost use Rattle.tcap_refute.specs.EarlierMessages.{since_quiet};
ghost use Rattle.tcap_refute.specs.FirstKinds.{first_kinds, is_of_first_kind};
ghost use Rattle.tcap_faults.specs.KeptForMessage.{AreMessageIds, IsPeerId};
ghost use Rattle.tcap_faults.specs.HalfByPeerId.{half_of};
ghost use Rattle.tcap_faults.specs.History.{IsSide};
ghost use Rattle.tcap_faults.specs.SearchState.{AreRoomy, kind_of_components};
ghost use Rattle.tcap_faults.specs.TangledIds.{goes_over_tangled, is_peer_tangled};

use crate::component::component_faults::{ComponentFaults, faults_of, first_faults};
use crate::transaction::lookup::{MessageIds, PeerId};
use crate::transaction::tangled_ids::Ends;
use std::alloc::{AllocError, Global};
use tcap_ber::SmallView;
use tcap_end::Table;
use tcap_msg::{MessageParts, TransactionId};
use tcap_refute::{Kind, first_kind};

/// Returns the lowest of F10 to F13 that components have.
fn kind_of_faults(faults: ComponentFaults) -> Option<Kind>
    ensures { result ≡ kind_of_components (is_some faults.busy) (is_some faults.badly_linked)
        (is_some faults.answered_already) (is_some faults.wrongly_rejected) }
{
    if faults.busy.is_some() {
        Some(Kind::InvokeIdBusy)
    } else if faults.badly_linked.is_some() {
        Some(Kind::BadLink)
    } else if faults.answered_already.is_some() {
        Some(Kind::AnsweredAlready)
    } else if faults.wrongly_rejected.is_some() {
        Some(Kind::RejectNotAllowed)
    } else {
        None
    }
}

impl MessageIds<'_> {
    /// Returns the lowest of F2 to F7 that a message has, if its end alone is judged.
    pub(crate) fn first_kind<M: MessageParts>(self, table: &Table, message: &M) -> Option<Kind>
        ensures { (side : Side) (items : List Item)
            → AreMessageIds table.now side (since_quiet items) (M.meaning message.now) self.entry
            → result ≡ find (is_of_first_kind table.now side (since_quiet items) (M.meaning message.now)) first_kinds }
    {
        let own = self.first_own();
        let peers = self.first_from_peer();
        first_kind(table, own, peers, self.has_ended(), message)
    }
}

impl Ends<'_> {
    /// Returns the lowest of F8 to F13 that a message has, if its destination ID is not tangled. Fails if memory runs
    /// out.
    fn half_kind<M: MessageParts>(
        self,
        alloc: Global,
        table: &Table,
        peer_id: PeerId,
        message: &M,
    ) -> Result<Option<Kind>, AllocError>
        ensures { (side : Side) (items : List Item) → IsSide table.now side items self.entry.own.now
            → IsPeerId table.now side items peer_id.entry.id.now peer_id.entry
            → is_peer_tangled side items peer_id.entry.id.now ≡ false
            → AreRoomy (items ++ Sent side (M.meaning message.now) ∷ [])
            → IfOk result (λ kind. kind ≡ find (is_of_half_kind table.now side peer_id.entry.id.now items
            (M.meaning message.now) (half_of side items peer_id.entry.id.now)) further_kinds) }
    {
        let half = self.half(alloc, peer_id)?;
        if self.is_wrong_half(message, &half) {
            return Ok(Some(Kind::WrongHalf));
        }
        if peer_id.is_wrong_dialogue(message, &half) {
            return Ok(Some(Kind::WrongDialogue));
        }
        let faults = faults_of(alloc, table, &half, message)?;
        Ok(kind_of_faults(faults))
    }

    /// Returns F14 if an Abort of the provider to this ID, with this cause, has it.
    fn reply_kind(self, table: &Table, id: &TransactionId, cause: SmallView) -> Option<Kind>
        ensures { (side : Side) (items : List Item) → IsSide table.now side items self.entry.own.now
            → IsSide table.now (other side) items self.entry.peer.now → length items ≤ 2 ^ 63
            → result ≡ cond (is_wrong_reply table.now side id.now items (half_of side items id.now) cause.number)
            (Some WrongReply) None }
    {
        if self.is_wrong_reply(table, id, cause) {
            Some(Kind::WrongReply)
        } else {
            None
        }
    }

    /// Returns the lowest of F8 to F14 that a message has, which goes over no tangled IDs. Fails if memory runs out.
    pub(crate) fn further_kind<M: MessageParts>(
        self,
        alloc: Global,
        table: &Table,
        message: &M,
        found: MessageIds,
    ) -> Result<Option<Kind>, AllocError>
        ensures { (side : Side) (items : List Item) → IsSide table.now side items self.entry.own.now
            → IsSide table.now (other side) items self.entry.peer.now
            → AreMessageIds table.now side items (M.meaning message.now) found.entry
            → goes_over_tangled side items (M.meaning message.now) ≡ false
            → AreRoomy (items ++ Sent side (M.meaning message.now) ∷ [])
            → IfOk result (λ kind. kind ≡ find
            (is_of_further_kind table.now side items (M.meaning message.now) (dtid_in (M.meaning message.now)))
            further_kinds) }
    {
        let Some(peer_id) = found.peer_id else {
            return Ok(kind_of_faults(first_faults(alloc, message)?));
        };
        match message.cause() {
            Some(cause) => Ok(self.reply_kind(table, peer_id.id, cause)),
            None => self.half_kind(alloc, table, peer_id, message),
        }
    }
}
