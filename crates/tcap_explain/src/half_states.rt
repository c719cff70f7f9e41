//! The state of a half, in words.
//!
//! Each function that returns `AllocError` does so if memory runs out.

use std::alloc::{AllocError, Global};
use tcap_end::{DialogueState, EndState, HalfName, InvocationState, OpenHalf, Phase};
use tcap_msg::TransactionId;
use tcap_parts::{CodeView, ComponentView};
use tcap_record::{End, push_code, push_component, push_hex};

/// The most operations of one invoke ID that are listed.
const MOST: usize = 8;

/// Returns the words for a phase (Q.774 3.3).
fn phase_words(phase: Phase) -> &'static str {
    match phase {
        Phase::Sent => "it sent its Begin",
        Phase::Received => "it received the Begin",
        Phase::Active => "active",
        Phase::Closed => "closed",
    }
}

/// Returns the words for a dialogue state (Q.774 3.2).
fn dialogue_state_words(dialogue_state: DialogueState) -> &'static str {
    match dialogue_state {
        DialogueState::Without => "no dialogue",
        DialogueState::Requested => "a dialogue is asked for",
        DialogueState::Confirmed => "a dialogue is confirmed",
    }
}

/// Appends a label and a transaction ID, if the ID is known.
fn push_id(text: &mut String, label: &str, id: Option<&TransactionId>) -> Result<(), AllocError> {
    match id {
        Some(id) => {
            text.push_str(label)?;
            push_hex(text, id.octets())
        }
        None => Ok(()),
    }
}

/// Appends the ID in the name of a half.
fn push_name(text: &mut String, name: &HalfName) -> Result<(), AllocError> {
    match name {
        HalfName::Own(id) => push_id(text, " otid=", Some(id)),
        HalfName::Peer(id) => push_id(text, " peer ", Some(id)),
    }
}

/// Appends the own invocation with an invoke ID.
fn push_own(text: &mut String, half: &OpenHalf, id: i8) -> Result<(), AllocError> {
    match (half.own_operation(id), half.own_state(id)) {
        (Some(code), Some(state)) => {
            text.push_str("own invocation op=")?;
            push_code(text, code)?;
            text.push_str(match state {
                InvocationState::OperationSent => ", operation sent",
                InvocationState::WaitForReject => ", wait for reject",
            })
        }
        _ => text.push_str("no own invocation"),
    }
}

/// Appends the number of invocations that were received under an invoke ID and are not answered, and the first of their
/// operations.
fn push_codes(text: &mut String, codes: &[CodeView]) -> Result<(), AllocError> {
    let count = codes.len();
    write!(text, "; invocations received and not answered {count}")?;
    for (number, code) in codes.iter().enumerate() {
        if number >= MOST {
            return text.push_str(" ..");
        }
        text.push_str(" op=")?;
        push_code(text, *code)?;
    }
    Ok(())
}

/// Appends how many of the results and errors received under an invoke ID may be rejected.
fn push_answers(text: &mut String, answers: &[bool]) -> Result<(), AllocError> {
    let mut results = 0u32;
    let mut errors = 0u32;
    for is_result in answers {
        if *is_result {
            results = results.saturating_add(1);
        } else {
            errors = errors.saturating_add(1);
        }
    }
    writeln!(text, "; results received {results}, errors {errors}")
}

/// Appends what a half knows under an invoke ID.
fn push_under(alloc: Global, text: &mut String, half: &OpenHalf, id: i8) -> Result<(), AllocError> {
    write!(text, "    before this message, under {id}: ")?;
    push_own(text, half, id)?;
    let codes = half.received(alloc, id)?;
    push_codes(text, &codes)?;
    let answers = half.answers(alloc, id)?;
    push_answers(text, &answers)
}

/// Returns the invoke ID and the linked ID of a component.
fn ids_of(component: ComponentView) -> (Option<i8>, Option<i8>) {
    match component {
        ComponentView::Invoke { id, linked, .. } => (Some(id), linked),
        ComponentView::ReturnResult { id, .. } => (Some(id), None),
        ComponentView::ReturnError { id, .. } => (Some(id), None),
        ComponentView::Reject { id, .. } => (id, None),
    }
}

/// Appends a component and, if the half is open, what the half knows under its IDs.
pub(crate) fn push_component_state(
    alloc: Global,
    text: &mut String,
    half: Option<&OpenHalf>,
    component: ComponentView,
) -> Result<(), AllocError> {
    push_component(text, component)?;
    let Some(half) = half else {
        return Ok(());
    };
    let (id, linked) = ids_of(component);
    if let Some(id) = id {
        push_under(alloc, text, half, id)?;
    }
    if let Some(linked) = linked {
        push_under(alloc, text, half, linked)?;
    }
    Ok(())
}

/// Appends the phase, the IDs and the dialogue state of a half, or that the half is closed or unknown.
pub(crate) fn push_half_state(
    text: &mut String,
    end: End,
    state: &EndState,
    name: &HalfName,
) -> Result<(), AllocError> {
    text.push_str(end.letter())?;
    match state.open_half(name) {
        Some(half) => {
            text.push_str(": the half with")?;
            push_id(text, " otid=", half.own())?;
            push_id(text, " peer ", half.peer())?;
            text.push_str(": ")?;
            text.push_str(phase_words(half.phase()))?;
            text.push_str(", ")?;
            text.push_str(dialogue_state_words(half.dialogue_state()))?;
        }
        None if state.knows(name) => {
            text.push_str(": the half with")?;
            push_name(text, name)?;
            text.push_str(" is closed")?;
        }
        None => {
            text.push_str(": no half with")?;
            push_name(text, name)?;
        }
    }
    text.push_str("\n")
}
