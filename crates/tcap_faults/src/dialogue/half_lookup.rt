//! The half of an end with an ID of its peer, from what is kept; and F8 (Q.774 3.2, 3.3).

ghost use Rattle.std.specs.Prelude.{◌≡◌, ◌&&◌, ℕ, Bool, List, [], ◌∷◌, ◌++◌, Option, Some, None, false, map, IfOk, OnOk, option_copied, option_map};
ghost use Rattle.std.specs.List.{find};
ghost use Rattle.std.specs.Option.{option_to_list};
ghost use Rattle.tcap_parts.specs.DialogueMeaning.{dialogue_of};
ghost use Rattle.tcap_msg.specs.declared.kind.Kind.TheVariants as forms;
ghost use Rattle.tcap_msg.specs.declared.message.Message.{Message};
ghost use Rattle.tcap_msg.specs.Parts.{dialogue_in};
ghost use Rattle.tcap_record.specs.declared.entry.End.{End as Side};
ghost use Rattle.tcap_record.specs.Ends.{other};
ghost use Rattle.tcap_end.specs.Table.{Table};
ghost use Rattle.tcap_model.specs.World.{Item};
ghost use Rattle.tcap_faults.specs.HalfKinds.{goes_from_other, is_provider_abort, is_wrong_half, may_not_send};
ghost use Rattle.tcap_refute.specs.EarlierMessages.{is_a};
ghost use Rattle.tcap_faults.specs.ClosedHalves.{was_closed};
ghost use Rattle.tcap_faults.specs.SentToId.{began};
ghost use Rattle.tcap_faults.specs.KeptForMessage.{IsPeerId};
ghost use Rattle.tcap_faults.specs.KeyedHalf.{IsHalf};
ghost use Rattle.tcap_faults.specs.HalfByPeerId.{HalfMessages, accepted_half, begun_half, half_of, no_half};
ghost use Rattle.tcap_faults.specs.History.{IsSide};
ghost use Rattle.tcap_faults.specs.IdList.{AreIds};
ghost use Rattle.tcap_faults.specs.HalfTallies.{IsBegunBy, IsBegunOwn, IsContinueTalliesBack, IsKeptFrom, begin_counted, continue_tallies, incoming_counted, outgoing_counted};

use crate::component::tally::Tally;
use crate::dialogue::half::Half;
use crate::dialogue::half_origin::HalfOrigin;
use crate::transaction::id_list::Ids;
use crate::transaction::lookup::PeerId;
use crate::transaction::sent_from_id::{ContinueTallies, FirstBegin, SentFrom};
use crate::transaction::sent_to_id::SentTo;
use crate::transaction::tangled_ids::Ends;
use std::alloc::{AllocError, Global};
use tcap_msg::{Kind as Form, MessageParts, TransactionId};
use tcap_parts::DialogueView;

/// Returns whether this is an ABRT whose source is the provider.
fn is_provider_abort(dialogue: Option<DialogueView>) -> bool
    ensures { result ≡ is_provider_abort (option_map dialogue_of dialogue.entry) }
{
    matches!(dialogue, Some(DialogueView::Abort { source, .. }) if source.number == 1)
}

/// Returns whether a message is an Abort with an ABRT whose source is the provider.
fn is_abort_of_provider<M: MessageParts>(message: &M) -> bool
    ensures { result
        ≡ (is_a forms.Abort (M.meaning message.now) && is_provider_abort (dialogue_in (M.meaning message.now))) }
{
    matches!(message.kind(), Form::Abort) && is_provider_abort(message.dialogue())
}

/// Adds the tallies of all Continues from one ID to another. Fails if memory runs out.
fn push_came<'a>(
    tallies: &mut Vec<&'a Tally>,
    came: Option<&'a ContinueTallies>,
) -> Result<(), AllocError>
    ensures { OnOk result (map (λ b. b.now) tallies.new.items
        ≡ map (λ b. b.now) tallies.old.items ++ continue_tallies (option_copied came.entry)) }
{
    if let Some(came) = came {
        tallies.push(&came.sooner)?;
        tallies.push(&came.since)?;
    }
    Ok(())
}

/// Returns the tallies of a Begin, if there is one, and of what was sent after it. Fails if memory runs out.
fn outgoing_after<'a>(
    alloc: Global,
    first: Option<&'a FirstBegin>,
    outgoing: Option<&'a SentTo>,
) -> Result<Vec<&'a Tally>, AllocError>
    ensures { IfOk result (λ v. map (λ b. b.now) v.items
        ≡ begin_counted (option_copied first.entry) ++ outgoing_counted (option_copied outgoing.entry)) }
{
    let mut tallies = Vec::new(alloc);
    if let Some(first) = first {
        tallies.push(&first.components)?;
    }
    if let Some(outgoing) = outgoing {
        tallies.push(&outgoing.components)?;
    }
    Ok(tallies)
}

/// Returns the value that means no half.
fn no_half<'a>(alloc: Global) -> Half<'a>
    ensures { (table : Table) → IsHalf table no_half result }
{
    Half {
        origin: HalfOrigin::Nowhere,
        own: None,
        requests: false,
        incoming: Vec::new(alloc),
        outgoing: Vec::new(alloc),
        invoked: Vec::new(alloc),
    }
}

/// Returns the tallies of what a begun half heard: all Continues or, if its Begin has an AARQ, those from the first
/// with an AARE on. Fails if memory runs out.
fn incoming_back<'a>(
    alloc: Global,
    begin: &FirstBegin,
    came: &'a ContinueTallies,
) -> Result<Vec<&'a Tally>, AllocError>
    ensures { IfOk result (λ v. map (λ b. b.now) v.items ≡ incoming_counted begin.now came.now) }
{
    let mut incoming = Vec::new(alloc);
    if !begin.requests {
        incoming.push(&came.sooner)?;
    }
    incoming.push(&came.since)?;
    Ok(incoming)
}

impl<'a> PeerId<'a> {
    /// Returns the half that the peer's Begin from this ID began, accepted or refused. Fails if memory runs out.
    fn accepted_half(
        self,
        alloc: Global,
        asked: &'a SentFrom,
        begin: &'a FirstBegin,
    ) -> Result<Half<'a>, AllocError>
        ensures { (table : Table) (side : Side) (items : List Item)
            → IsPeerId table side items self.entry.id.now self.entry
            → IsKeptFrom table (other side) items self.entry.id.now asked.now → asked.now.begin ≡ Some begin.now
            → IfOk result (IsHalf table (accepted_half side items self.entry.id.now)) }
    {
        let outgoing = self.to;
        let own = match outgoing {
            Some(outgoing) => outgoing.from.first(),
            None => None,
        };
        let own = match own {
            Some(own) => Some(own.to_transaction_id()),
            None => None,
        };
        let mut incoming = Vec::new(alloc);
        incoming.push(&begin.components)?;
        if let Some(own) = &own {
            push_came(&mut incoming, asked.came.get(own))?;
        }
        let origin = match outgoing {
            Some(outgoing) if outgoing.refused => HalfOrigin::Refused,
            _ => HalfOrigin::Accepted,
        };
        Ok(Half {
            origin,
            own,
            requests: begin.requests,
            incoming,
            outgoing: outgoing_after(alloc, None, outgoing)?,
            invoked: outgoing_after(alloc, None, outgoing)?,
        })
    }

    /// Returns the half that the end's Begin from `own` began, to which Continues came from this ID. Fails if memory
    /// runs out.
    fn begun_half(
        self,
        alloc: Global,
        own: TransactionId,
        begin: &'a FirstBegin,
        came: &'a ContinueTallies,
    ) -> Result<Half<'a>, AllocError>
        ensures { (table : Table) (side : Side) (items : List Item)
            → IsPeerId table side items self.entry.id.now self.entry
            → IsBegunBy table side items own begin.now
            → IsContinueTalliesBack table side items self.entry.id.now own came.now
            → IfOk result (IsHalf table (begun_half side items self.entry.id.now own)) }
    {
        let origin = if begin.requests && !came.answered {
            HalfOrigin::Unanswered
        } else {
            HalfOrigin::Begun
        };
        Ok(Half {
            origin,
            own: Some(own),
            requests: begin.requests,
            incoming: incoming_back(alloc, begin, came)?,
            outgoing: outgoing_after(alloc, None, self.to)?,
            invoked: outgoing_after(alloc, Some(begin), self.to)?,
        })
    }
}

impl<'a> Ends<'a> {
    /// Returns the first of these IDs that the end began.
    fn first_begun(self, ids: &Ids) -> Option<TransactionId>
        ensures { (table : Table) (side : Side) (items : List Item) (those : List (List ℕ))
            → IsSide table side items self.entry.own.now → AreIds those ids.now
            → result ≡ find (λ own. began side own items) those }
    {
        let Some(first) = &ids.first else {
            return None;
        };
        if self.own.began(first) {
            return Some(first.view().to_transaction_id());
        }
        for id in &ids.more {
            if self.own.began(id) {
                return Some(id.view().to_transaction_id());
            }
        }
        None
    }

    /// Returns the own ID of the half with an ID that the peer did not begin, if there is such a half.
    ///
    /// Only if several own IDs are joined with the ID, this searches the destination IDs of its Continues.
    fn begun_own(self, peer_id: PeerId, asked: &SentFrom) -> Option<TransactionId>
        ensures { (table : Table) (side : Side) (items : List Item) → IsSide table side items self.entry.own.now
            → IsPeerId table side items peer_id.entry.id.now peer_id.entry
            → IsKeptFrom table (other side) items peer_id.entry.id.now asked.now
            → IsBegunOwn side items peer_id.entry.id.now result }
    {
        if peer_id.owns_differ() {
            self.first_begun(&asked.to)
        } else {
            peer_id.joined_own()
        }
    }

    /// Returns the half with an ID that the peer did not begin. Fails if memory runs out.
    fn other_half(
        self,
        alloc: Global,
        peer_id: PeerId<'a>,
        asked: &'a SentFrom,
    ) -> Result<Half<'a>, AllocError>
        ensures { (table : Table) (side : Side) (items : List Item) → IsSide table side items self.entry.own.now
            → IsPeerId table side items peer_id.entry.id.now peer_id.entry
            → IsKeptFrom table (other side) items peer_id.entry.id.now asked.now → asked.now.begin ≡ None
            → IfOk result (IsHalf table (half_of side items peer_id.entry.id.now)) }
    {
        let Some(own) = self.begun_own(peer_id, asked) else {
            return Ok(no_half(alloc));
        };
        let Some(came) = asked.came.get(&own) else {
            return Ok(no_half(alloc));
        };
        let begin = match self.own.from.get(&own) {
            Some(kept) => kept.begin.as_ref(),
            None => None,
        };
        match begin {
            Some(begin) => peer_id.begun_half(alloc, own, begin, came),
            None => Ok(no_half(alloc)),
        }
    }

    /// Returns the half with an ID of the peer. Fails if memory runs out.
    pub(crate) fn half(self, alloc: Global, peer_id: PeerId<'a>) -> Result<Half<'a>, AllocError>
        ensures { (table : Table) (side : Side) (items : List Item) → IsSide table side items self.entry.own.now
            → IsPeerId table side items peer_id.entry.id.now peer_id.entry
            → IfOk result (IsHalf table (half_of side items peer_id.entry.id.now)) }
    {
        let Some(asked) = peer_id.from else {
            return Ok(no_half(alloc));
        };
        match &asked.begin {
            Some(begin) => peer_id.accepted_half(alloc, asked, begin),
            None => self.other_half(alloc, peer_id, asked),
        }
    }

    // ---- F8

    /// Returns whether a Continue goes from an ID that is not its half's.
    fn goes_from_other<M: MessageParts>(self, message: &M, half: &Half) -> bool
        ensures { (table : Table) (side : Side) (items : List Item) (h : HalfMessages)
            → IsSide table side items self.entry.own.now → IsHalf table h half.now
            → result ≡ goes_from_other side items h.origin h.own (M.meaning message.now) }
    {
        let (Form::Continue, Some(otid)) = (message.kind(), message.otid()) else {
            return false;
        };
        let is_another = match &half.own {
            Some(own) => own.octets() != otid.octets,
            None => false,
        };
        match half.origin {
            HalfOrigin::Accepted => is_another || self.own.began(&otid.to_transaction_id()),
            HalfOrigin::Begun => is_another,
            _ => false,
        }
    }

    /// Returns whether the end answered its half with this own ID as closed.
    fn was_closed(self, own: Option<&TransactionId>) -> bool
        ensures { (table : Table) (side : Side) (items : List Item) → IsSide table side items self.entry.own.now
            → result ≡ was_closed side items (option_copied own.entry) }
    {
        match own {
            Some(own) => self.own.closed.contains(own),
            None => false,
        }
    }

    /// Returns whether the message has F8: the half may not send it.
    pub(crate) fn is_wrong_half<M: MessageParts>(self, message: &M, half: &Half) -> bool
        ensures { (table : Table) (side : Side) (items : List Item) (h : HalfMessages)
            → IsSide table side items self.entry.own.now → IsHalf table h half.now
            → result ≡ is_wrong_half side items (M.meaning message.now) h }
    {
        let may_not_send = match half.origin {
            HalfOrigin::Accepted | HalfOrigin::Begun => false,
            HalfOrigin::Unanswered => !is_abort_of_provider(message),
            HalfOrigin::Refused | HalfOrigin::Nowhere => true,
        };
        may_not_send || self.goes_from_other(message, half) || self.was_closed(half.own.as_ref())
    }
}
