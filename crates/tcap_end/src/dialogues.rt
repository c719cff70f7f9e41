//! The dialogue portions that a message may carry (Q.774 3.2, dialogues).

ghost use Rattle.std.specs.Prelude.{◌≡◌, option_map};
ghost use Rattle.tcap_parts.specs.DialogueMeaning.{dialogue_of};
ghost use Rattle.tcap_end.specs.Dialogue.{
  accepts_dialogue,
  first_dialogue_state,
  confirm,
  answers_request,
  is_request,
  is_response,
  is_uni,
  may_abort,
  may_be_uni,
  may_begin,
  may_go_on,
  refuses_dialogue,
  is_user_abort,
};

use crate::half::{DialogueState, Phase};
use tcap_parts::{DialogueView, SourceView};

/// Returns whether the portion is a dialogue request, AARQ.
pub fn is_request(dialogue: Option<DialogueView>) -> bool
    ensures { result ≡ is_request (option_map dialogue_of dialogue.entry) }
{
    matches!(dialogue, Some(DialogueView::Request { .. }))
}

/// Returns whether the portion is a dialogue response, AARE.
pub fn is_response(dialogue: Option<DialogueView>) -> bool
    ensures { result ≡ is_response (option_map dialogue_of dialogue.entry) }
{
    matches!(dialogue, Some(DialogueView::Response { .. }))
}

/// Returns whether the portion is a response, AARE, that accepts the dialogue.
pub fn accepts_dialogue(dialogue: Option<DialogueView>) -> bool
    ensures { result ≡ accepts_dialogue (option_map dialogue_of dialogue.entry) }
{
    match dialogue {
        Some(
            DialogueView::Response {
                result,
                diagnostic,
                ..
            },
        ) => match diagnostic {
            SourceView::User(n) | SourceView::Provider(n) => result.number == 0 && n.number == 0,
        },
        _ => false,
    }
}

/// Returns whether the portion is a response, AARE, by which the user refuses the dialogue.
pub fn refuses_dialogue(dialogue: Option<DialogueView>) -> bool
    ensures { result ≡ refuses_dialogue (option_map dialogue_of dialogue.entry) }
{
    match dialogue {
        Some(
            DialogueView::Response {
                result,
                diagnostic: SourceView::User(n),
                ..
            },
        ) => result.number == 1 && n.number < 3,
        _ => false,
    }
}

/// Returns whether the portion is a dialogue abort, ABRT, by the user.
pub fn is_user_abort(dialogue: Option<DialogueView>) -> bool
    ensures { result ≡ is_user_abort (option_map dialogue_of dialogue.entry) }
{
    match dialogue {
        Some(DialogueView::Abort { source, .. }) => source.number == 0,
        _ => false,
    }
}

/// Returns whether a Begin may carry this dialogue portion (Q.774 3.2).
pub(crate) fn may_begin(dialogue: Option<DialogueView>) -> bool
    ensures { result ≡ may_begin (option_map dialogue_of dialogue.entry) }
{
    dialogue.is_none() || is_request(dialogue)
}

/// Returns whether a Unidirectional may carry this dialogue portion.
pub(crate) fn may_be_uni(dialogue: Option<DialogueView>) -> bool
    ensures { result ≡ may_be_uni (option_map dialogue_of dialogue.entry) }
{
    matches!(dialogue, None | Some(DialogueView::Uni { .. }))
}

/// Returns the dialogue state after a Begin with this portion.
pub(crate) fn first_dialogue_state(dialogue: Option<DialogueView>) -> DialogueState
    ensures { result ≡ first_dialogue_state (option_map dialogue_of dialogue.entry) }
{
    if is_request(dialogue) {
        DialogueState::Requested
    } else {
        DialogueState::Without
    }
}

/// Returns whether a half in this phase and dialogue state may send a Continue or an End with this portion.
pub(crate) fn may_go_on(
    phase: Phase,
    dialogue_state: DialogueState,
    dialogue: Option<DialogueView>,
) -> bool
    ensures { result ≡ may_go_on phase dialogue_state (option_map dialogue_of dialogue.entry) }
{
    match (phase, dialogue_state) {
        (Phase::Received, DialogueState::Requested) => accepts_dialogue(dialogue),
        _ => dialogue.is_none(),
    }
}

/// Returns whether a half in this phase and dialogue state may send an Abort without a cause with this portion.
pub(crate) fn may_abort(
    phase: Phase,
    dialogue_state: DialogueState,
    dialogue: Option<DialogueView>,
) -> bool
    ensures { result ≡ may_abort phase dialogue_state (option_map dialogue_of dialogue.entry) }
{
    dialogue.is_none()
        || match (phase, dialogue_state) {
            (Phase::Received, DialogueState::Requested) => refuses_dialogue(dialogue)
                || is_user_abort(dialogue),
            (_, DialogueState::Confirmed) => is_user_abort(dialogue),
            _ => false,
        }
}

/// Returns whether a half in this dialogue state can receive a Continue with this portion as the answer to its Begin.
pub(crate) fn answers_request(dialogue_state: DialogueState, dialogue: Option<DialogueView>) -> bool
    ensures { result ≡ answers_request dialogue_state (option_map dialogue_of dialogue.entry) }
{
    dialogue_state != DialogueState::Requested || is_response(dialogue)
}

impl DialogueState {
    /// Returns the dialogue state after the Continue that answers the Begin.
    pub(crate) fn confirm(self) -> DialogueState
        ensures { result ≡ confirm self }
    {
        match self {
            DialogueState::Requested => DialogueState::Confirmed,
            _ => self,
        }
    }
}
