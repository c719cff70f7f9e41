//! Which fault it is, of the kinds of operations, invoke IDs and links: F6, F10 and F11 (Q.771, Q.774 3.2).
//!
//! Each function that returns a truth value returns whether it appended a sentence. Each returns `AllocError` if memory
//! runs out.

use crate::at_fault::{AtFault, Fact};
use crate::fault_details::{Answer, answer_in, is_allowed, push_after, push_class};
use crate::sentence_parts::{form_words, is_taken, push_end, push_short, push_taken};
use std::alloc::AllocError;
use tcap_evidence::Invocation;
use tcap_msg::{Kind as Form, MessageParts};
use tcap_parts::{CodeView, ComponentView};

// ---- F6

/// Appends that the table lacks an operation, or the class that a Unidirectional may not have.
fn push_of_invoke(text: &mut String, at: &AtFault, code: CodeView) -> Result<bool, AllocError> {
    let Some(class) = at.table.table().class_of(code) else {
        text.push_str("the table lacks ")?;
        push_short(text, at.table, code)?;
        return Ok(true);
    };
    if at.message.kind() != Form::Unidirectional {
        return Ok(false);
    }
    push_short(text, at.table, code)?;
    write!(text, " is of class {class}")?;
    text.push_str(", and a Unidirectional may invoke operations of class 4 alone")?;
    Ok(true)
}

/// Appends the only invocation that an answer answers: its class does not allow the answer.
fn push_not_allowed(
    text: &mut String,
    at: &AtFault,
    id: i8,
    invocation: &Invocation,
    answer: Answer,
) -> Result<bool, AllocError> {
    let class = at.table.table().class_of(invocation.code.view());
    let number = invocation.entry;
    write!(text, "invocation {id} in entry {number} is of ")?;
    push_short(text, at.table, invocation.code.view())?;
    push_class(text, class)?;
    push_after(text, invocation, class, Some(answer))?;
    Ok(true)
}

/// Appends the operation that was invoked, and the other one that a Return Result names.
fn push_other_named(
    text: &mut String,
    at: &AtFault,
    id: i8,
    invocation: &Invocation,
    named: CodeView,
) -> Result<bool, AllocError> {
    push_short(text, at.table, invocation.code.view())?;
    write!(text, " was invoked under ID {id}")?;
    text.push_str(", and the result names ")?;
    push_short(text, at.table, named)?;
    Ok(true)
}

/// Appends that none of several invocations allows an answer.
fn push_none_allows(
    text: &mut String,
    at: &AtFault,
    id: i8,
    answer: Answer,
) -> Result<bool, AllocError> {
    let count = at.found.invocations.len();
    if count < 2 {
        return Ok(false);
    }
    write!(text, "none of the {count} invocations of {id}")?;
    text.push_str(if answer.is_result {
        " allows this Return Result"
    } else {
        " allows this Return Error"
    })?;
    text.push_str(if answer.named.is_some() {
        " by its class and operation"
    } else {
        " by its class"
    })?;
    Ok(true)
}

/// Appends what is wrong with an answer.
fn push_of_answer(
    text: &mut String,
    at: &AtFault,
    id: i8,
    answer: Answer,
) -> Result<bool, AllocError> {
    let Some(only) = at.only_invocation() else {
        return push_none_allows(text, at, id, answer);
    };
    if !is_allowed(at.table, only, answer) {
        return push_not_allowed(text, at, id, only, answer);
    }
    match answer.named {
        Some(named) => push_other_named(text, at, id, only, named),
        None => Ok(false),
    }
}

/// Appends a sentence for F6.
pub(crate) fn push_wrong_operation(
    text: &mut String,
    at: &AtFault,
    component: ComponentView,
) -> Result<bool, AllocError> {
    match (component, answer_in(component), at.found.id) {
        (ComponentView::Invoke { code, .. }, _, _) => push_of_invoke(text, at, code),
        (_, Some(answer), Some(id)) => push_of_answer(text, at, id, answer),
        _ => Ok(false),
    }
}

// ---- F10

/// Returns whether a component before this one in the message invokes the ID.
fn is_invoked_before(at: &AtFault, id: i8) -> bool {
    let Some(number) = at.found.about.component else {
        return false;
    };
    for component in at.message.components().take(number as usize) {
        if let ComponentView::Invoke { id: other, .. } = component {
            if other == id {
                return true;
            }
        }
    }
    false
}

/// Appends a sentence for F10.
pub(crate) fn push_busy(text: &mut String, at: &AtFault) -> Result<bool, AllocError> {
    let Some(id) = at.found.id else {
        return Ok(false);
    };
    if is_invoked_before(at, id) {
        write!(text, "this message invokes ID {id} twice")?;
        return Ok(true);
    }
    if let (Some(only), [_]) = (at.only_invocation(), at.entries(Fact::OwnLasting)) {
        let number = only.entry;
        write!(text, "invoke ID {id} is in use by ")?;
        push_short(text, at.table, only.code.view())?;
        write!(text, ", invoked in entry {number}")?;
        return Ok(true);
    }
    let count = at.count(Fact::OwnLasting);
    if count == 0 {
        return Ok(false);
    }
    write!(
        text,
        "not all invocations of ID {id} are over: {count} of them "
    )?;
    text.push_str(if count == 1 {
        "does not expire"
    } else {
        "do not expire"
    })?;
    Ok(true)
}

// ---- F11

/// Appends that the linked ID was not received.
fn push_not_received(text: &mut String, at: &AtFault, id: i8) -> Result<bool, AllocError> {
    write!(text, "it is linked to {id}, and ")?;
    match at.message.dtid() {
        Some(_) => push_end(
            text,
            at.end,
            " had received no Invoke of it in this transaction",
        )?,
        None => {
            text.push_str("nothing comes before ")?;
            text.push_str(form_words(at.message.kind()))?;
        }
    }
    Ok(true)
}

/// Appends that the only invocation of the linked ID was answered before, or that its operation does not list this one.
fn push_linked_to(
    text: &mut String,
    at: &AtFault,
    id: i8,
    invocation: &Invocation,
    code: CodeView,
) -> Result<bool, AllocError> {
    let is_listed = at.table.table().links(invocation.code.view(), code);
    if is_listed && !is_taken(at) {
        return Ok(false);
    }
    write!(text, "it is linked to invocation {id} of ")?;
    push_short(text, at.table, invocation.code.view())?;
    text.push_str(", which")?;
    if is_taken(at) {
        push_taken(text, at)?;
        return Ok(true);
    }
    text.push_str(" does not list ")?;
    push_short(text, at.table, code)?;
    Ok(true)
}

/// Appends that all of several invocations of the linked ID were answered before, or that no operation of theirs lists
/// this one.
fn push_linked_to_none(
    text: &mut String,
    at: &AtFault,
    id: i8,
    code: CodeView,
) -> Result<bool, AllocError> {
    let count = at.found.invocations.len();
    write!(text, "it is linked to {id}, and ")?;
    if at.count_taken() >= count {
        write!(
            text,
            "the {count} invocations of {id} were answered or rejected already"
        )?;
    } else {
        write!(
            text,
            "none of the {count} invocations of {id} is of an operation that lists "
        )?;
        push_short(text, at.table, code)?;
    }
    Ok(true)
}

/// Appends a sentence for F11.
pub(crate) fn push_bad_link(
    text: &mut String,
    at: &AtFault,
    component: ComponentView,
) -> Result<bool, AllocError> {
    let ComponentView::Invoke {
        linked: Some(id),
        code,
        ..
    } = component
    else {
        return Ok(false);
    };
    match (at.found.invocations.is_empty(), at.only_invocation()) {
        (true, _) => push_not_received(text, at, id),
        (false, Some(only)) => push_linked_to(text, at, id, only, code),
        (false, None) => push_linked_to_none(text, at, id, code),
    }
}
