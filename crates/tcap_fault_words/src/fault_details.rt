//! Details of a fault, in words. F6: the operations that an answer answers and names. F10 to F13: the invocations that
//! an Invoke, an answer or a Reject is compared with.
//!
//! Each function returns `AllocError` if memory runs out.

use crate::at_fault::message_at;
use crate::blame::Blame;
use std::alloc::AllocError;
use tcap_books::NamedTable;
use tcap_end::reports;
use tcap_evidence::{Evidence, Invocation, component_at};
use tcap_parts::{CodeView, ComponentView};
use tcap_record::push_hex;
use tcap_refute::Kind;

/// The most invocations of an ID that are listed.
const MOST: usize = 8;

/// A component that answers an invocation.
#[derive(Clone, Copy)]
pub(crate) struct Answer<'a> {
    /// True for a Return Result, false for a Return Error.
    pub(crate) is_result: bool,
    /// The operation that a Return Result names.
    pub(crate) named: Option<CodeView<'a>>,
}

/// Returns the answer in a component, if it is a Return Result or a Return Error.
pub(crate) fn answer_in(component: ComponentView) -> Option<Answer> {
    match component {
        ComponentView::ReturnResult { body, .. } => Some(Answer {
            is_result: true,
            named: match body {
                Some(body) => Some(body.code),
                None => None,
            },
        }),
        ComponentView::ReturnError { .. } => Some(Answer {
            is_result: false,
            named: None,
        }),
        _ => None,
    }
}

/// Returns words on an answer that the class of its operation does not allow, or an empty text if the class allows it
/// (Q.771 3.1).
fn not_allowed(class: u8, is_result: bool) -> &'static str {
    match (reports(is_result, class), is_result) {
        (true, _) => "",
        (false, true) => ", which allows no Return Result",
        (false, false) => ", which allows no Return Error",
    }
}

/// Appends an operation code, after the operation's name if the table has one.
fn push_operation(text: &mut String, table: &NamedTable, code: CodeView) -> Result<(), AllocError> {
    if let Some(name) = table.name_of(code) {
        text.push_str(name)?;
        text.push_str(" ")?;
    }
    match code {
        CodeView::Local(number) => write!(text, "{number}"),
        CodeView::Global(octets) => push_hex(text, octets.octets),
    }
}

/// Appends an invocation of `id`: its entry, its operation and its class.
fn push_invocation(
    text: &mut String,
    table: &NamedTable,
    id: i8,
    invocation: &Invocation,
    class: Option<u8>,
) -> Result<(), AllocError> {
    let number = invocation.entry;
    write!(text, "  invocation {id} in entry {number} is of ")?;
    push_operation(text, table, invocation.code.view())?;
    push_class(text, class)
}

/// Appends the class of an operation, after a comma.
pub(crate) fn push_class(text: &mut String, class: Option<u8>) -> Result<(), AllocError> {
    match class {
        Some(class) => write!(text, ", of class {class}"),
        None => text.push_str(", which the table lacks"),
    }
}

/// Returns whether the class of an invoked operation allows an answer.
pub(crate) fn is_allowed(table: &NamedTable, invocation: &Invocation, answer: Answer) -> bool {
    match table.table().class_of(invocation.code.view()) {
        Some(class) => reports(answer.is_result, class),
        None => false,
    }
}

/// Appends what is wrong with the answer at fault, if there is one; else the ID that the invocation is linked to, if
/// any.
pub(crate) fn push_after(
    text: &mut String,
    invocation: &Invocation,
    class: Option<u8>,
    answer: Option<Answer>,
) -> Result<(), AllocError> {
    match (answer, class, invocation.linked) {
        (Some(answer), Some(class), _) => text.push_str(not_allowed(class, answer.is_result)),
        (None, _, Some(linked)) => write!(text, ", linked to {linked}"),
        _ => Ok(()),
    }
}

/// Appends the first `MOST` invocations that a fault rests on, and how many more there are. `answer` is the answer at
/// fault of F6.
fn push_invocations(
    text: &mut String,
    table: &NamedTable,
    found: &Evidence,
    answer: Option<Answer>,
) -> Result<(), AllocError> {
    let Some(id) = found.id else {
        return Ok(());
    };
    for invocation in found.invocations.iter().take(MOST) {
        let class = table.table().class_of(invocation.code.view());
        push_invocation(text, table, id, invocation, class)?;
        push_after(text, invocation, class, answer)?;
        text.push_str("\n")?;
    }
    let count = found.invocations.len();
    if count > MOST {
        let more = count - MOST;
        writeln!(text, "  and {more} more invocations of it")?;
    }
    Ok(())
}

/// Returns whether the sentence on a fault has all about the invocations that an answer answers: there is one, and its
/// class does not allow the answer.
fn is_said(table: &NamedTable, found: &Evidence, answer: Answer) -> bool {
    match found.invocations.as_slice() {
        [only] => !is_allowed(table, only, answer),
        _ => false,
    }
}

/// Appends, for F6, the invocations that an answer answers and the operation that it names, without what the sentence
/// on the fault says.
fn push_answered(
    text: &mut String,
    table: &NamedTable,
    found: &Evidence,
    answer: Answer,
) -> Result<(), AllocError> {
    if !is_said(table, found, answer) {
        push_invocations(text, table, found, Some(answer))?;
    }
    if let Some(code) = answer.named {
        text.push_str("  the result names ")?;
        push_operation(text, table, code)?;
        text.push_str("\n")?;
    }
    Ok(())
}

/// Appends, for F6, the operations that the fault is about. The sentence on the fault has that of an Invoke.
fn push_operations(
    text: &mut String,
    table: &NamedTable,
    component: ComponentView,
    found: &Evidence,
) -> Result<(), AllocError> {
    match answer_in(component) {
        Some(answer) => push_answered(text, table, found, answer),
        None => Ok(()),
    }
}

/// Appends lines on the operations and invocations of a blame, if there is more to say than the evidence.
///
/// # Errors
/// `AllocError` if memory runs out.
pub fn push_details(text: &mut String, blame: &Blame) -> Result<(), AllocError> {
    let (Some(table), Some(found)) = (blame.table, blame.found) else {
        return Ok(());
    };
    let Some(message) = message_at(blame.record, blame.at.entry) else {
        return Ok(());
    };
    match (blame.at.kind, component_at(message, found.about.component)) {
        (Kind::WrongOperation, Some(component)) => {
            push_operations(text, table, component, found)
        }
        _ => push_invocations(text, table, found, None),
    }
}
