//! The dialogue portions that a message may carry (Q.774 3.2, dialogues; Q.773 4.2.3).

ghost use Rattle.std.specs.Prelude.{◌≡◌, option_map};
ghost use Rattle.tcap_parts.specs.DialogueMeaning.{dialogue_of};
ghost use Rattle.tcap_end.specs.Dialogue.{is_uni};
ghost use Rattle.tcap_refute.specs.Kind.{is_misplaced_in_abort, is_misplaced_in_continue};

use tcap_end::{accepts_dialogue, refuses_dialogue};
use tcap_parts::DialogueView;

/// Returns whether this is an AUDT.
pub(crate) fn is_uni(dialogue: Option<DialogueView>) -> bool
    ensures { result ≡ is_uni (option_map dialogue_of dialogue.entry) }
{
    matches!(dialogue, Some(DialogueView::Uni { .. }))
}

/// Returns whether a Continue or an End may not carry this. `is_asked` is whether the peer sent an AARQ.
pub(crate) fn is_misplaced_in_continue(is_asked: bool, dialogue: Option<DialogueView>) -> bool
    ensures { result ≡ is_misplaced_in_continue is_asked (option_map dialogue_of dialogue.entry) }
{
    dialogue.is_some() && !(is_asked && accepts_dialogue(dialogue))
}

/// Returns whether an Abort may not carry this. `is_asked` is whether the peer sent an AARQ.
pub(crate) fn is_misplaced_in_abort(is_asked: bool, dialogue: Option<DialogueView>) -> bool
    ensures { result ≡ is_misplaced_in_abort is_asked (option_map dialogue_of dialogue.entry) }
{
    match dialogue {
        None => false,
        Some(DialogueView::Abort { source, .. }) => source.number > 1,
        _ => !(is_asked && refuses_dialogue(dialogue)),
    }
}
