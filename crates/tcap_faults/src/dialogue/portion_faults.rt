//! F9: dialogue portions that do not fit the dialogue of the half (Q.774 3.2).

ghost use Rattle.std.specs.Prelude.{◌≡◌, ℕ, Bool, List, option_map};
ghost use Rattle.tcap_parts.specs.DialogueMeaning.{dialogue_of};
ghost use Rattle.tcap_record.specs.declared.entry.End.{End as Side};
ghost use Rattle.tcap_end.specs.Table.{Table};
ghost use Rattle.tcap_model.specs.World.{Item};
ghost use Rattle.tcap_faults.specs.KeptForMessage.{IsPeerId};
ghost use Rattle.tcap_faults.specs.KeyedHalf.{IsHalf};
ghost use Rattle.tcap_faults.specs.HalfKinds.{is_first_answer, is_wrong_in_abort, is_wrong_dialogue, is_wrong_in_continue};
ghost use Rattle.tcap_faults.specs.HalfByPeerId.{HalfMessages};

use crate::dialogue::half::Half;
use crate::dialogue::half_origin::HalfOrigin;
use crate::transaction::lookup::PeerId;
use tcap_end::{is_response, is_user_abort};
use tcap_msg::{Kind as Form, MessageParts};
use tcap_parts::DialogueView;

/// Returns whether a dialogue portion does not fit in a Continue or an End.
fn is_wrong_in_continue(is_first: bool, has_request: bool, dialogue: Option<DialogueView>) -> bool
    ensures { result ≡ is_wrong_in_continue is_first has_request (option_map dialogue_of dialogue.entry) }
{
    if is_first {
        has_request && !is_response(dialogue)
    } else {
        dialogue.is_some()
    }
}

/// Returns whether a dialogue portion does not fit in an Abort.
fn is_wrong_in_abort(is_first: bool, has_request: bool, dialogue: Option<DialogueView>) -> bool
    ensures { result ≡ is_wrong_in_abort is_first has_request (option_map dialogue_of dialogue.entry) }
{
    (!is_first && is_response(dialogue)) || (is_user_abort(dialogue) && !has_request)
}

impl PeerId<'_> {
    /// Returns whether a message to this ID is the first answer to the peer's Begin.
    fn is_first_answer(self, half: &Half) -> bool
        ensures { (table : Table) (side : Side) (items : List Item) (h : HalfMessages)
            → IsPeerId table side items self.entry.id.now self.entry → IsHalf table h half.now
            → result ≡ is_first_answer side items self.entry.id.now h }
    {
        if half.origin != HalfOrigin::Accepted {
            return false;
        }
        match self.to {
            Some(outgoing) => outgoing.from.first().is_none(),
            None => true,
        }
    }

    /// Returns whether a message to this ID has F9: its dialogue portion does not fit.
    pub(crate) fn is_wrong_dialogue<M: MessageParts>(self, message: &M, half: &Half) -> bool
        ensures { (table : Table) (side : Side) (items : List Item) (h : HalfMessages)
            → IsPeerId table side items self.entry.id.now self.entry → IsHalf table h half.now
            → result ≡ is_wrong_dialogue side items self.entry.id.now (M.meaning message.now) h }
    {
        let is_first = self.is_first_answer(half);
        if matches!(message.kind(), Form::Abort) {
            is_wrong_in_abort(is_first, half.requests, message.dialogue())
        } else {
            is_wrong_in_continue(is_first, half.requests, message.dialogue())
        }
    }
}
