//! An entry of a record as a JSON object.

use crate::json::{push_named, push_octets, push_text};
use std::alloc::{AllocError, Global};
use tcap_books::NamedTable;
use tcap_msg::{Message, MessageParts, TransactionIdView};
use tcap_parts::{CodeView, ComponentView};
use tcap_record::{Body, End, Entry, push_head, push_hex, push_view};

/// Appends an operation code, after the operation's name if the table has one.
fn push_operation(
    text: &mut String,
    table: Option<&NamedTable>,
    code: CodeView,
) -> Result<(), AllocError> {
    let name = match table {
        Some(table) => table.name_of(code),
        None => None,
    };
    if let Some(name) = name {
        text.push_str(name)?;
        text.push_str(" ")?;
    }
    match code {
        CodeView::Local(number) => write!(text, "{number}"),
        CodeView::Global(octets) => push_hex(text, octets.octets),
    }
}

/// Appends a component in a few words: its type (Q.773 4.2.2), its invoke ID and, for an Invoke, the operation and its
/// name, if `table` has one.
///
/// # Errors
/// `AllocError` if memory runs out. `text` may then hold part of the words.
pub fn push_component(
    text: &mut String,
    table: Option<&NamedTable>,
    component: ComponentView,
) -> Result<(), AllocError> {
    match component {
        ComponentView::Invoke { id, code, .. } => {
            write!(text, "Invoke {id} ")?;
            push_operation(text, table, code)
        }
        ComponentView::ReturnResult { last, id, .. } => {
            text.push_str(if last {
                "ReturnResultLast"
            } else {
                "ReturnResultNotLast"
            })?;
            write!(text, " {id}")
        }
        ComponentView::ReturnError { id, .. } => write!(text, "ReturnError {id}"),
        ComponentView::Reject { id: Some(id), .. } => write!(text, "Reject {id}"),
        ComponentView::Reject { id: None, .. } => text.push_str("Reject"),
    }
}

/// Appends a transaction ID, if there is one.
fn push_id(json: &mut String, name: &str, id: Option<TransactionIdView>) -> Result<(), AllocError> {
    match id {
        Some(id) => push_octets(json, name, id.octets),
        None => Ok(()),
    }
}

/// Appends the kind of a message and its transaction IDs.
fn push_kind(alloc: Global, json: &mut String, message: &Message) -> Result<(), AllocError> {
    let mut head = String::new(alloc);
    push_head(&mut head, message)?;
    push_named(json, "kind", head.split(' ').next().unwrap_or(""))?;
    push_id(json, "otid", message.otid())?;
    push_id(json, "dtid", message.dtid())
}

/// Appends the components of a message, each in a few words.
fn push_components(
    alloc: Global,
    json: &mut String,
    table: Option<&NamedTable>,
    message: &Message,
) -> Result<(), AllocError> {
    json.push_str(",\"components\":[")?;
    let mut first = true;
    for component in message.components() {
        let mut text = String::new(alloc);
        push_component(&mut text, table, component)?;
        json.push_str(if first { "" } else { "," })?;
        push_text(json, &text)?;
        first = false;
    }
    json.push_str("]")
}

/// Appends the text that `show` prints for an entry.
fn push_shown(
    alloc: Global,
    json: &mut String,
    number: usize,
    entry: &Entry,
) -> Result<(), AllocError> {
    let mut lines = String::new(alloc);
    push_view(&mut lines, number, &entry.view())?;
    push_named(json, "show", &lines)
}

/// Appends the object of an entry without its closing `}`, so that the caller can add fields. docs/report.schema.json
/// describes it.
///
/// The object has the number and the end of the entry, and the text that `show` prints. A message has its kind, its
/// transaction IDs and its components, with the names that `table` has for operations. Octets that are no message have
/// `fault`, the reason.
///
/// # Errors
/// `AllocError` if memory runs out. `json` may then hold part of the object.
pub fn push_entry(
    alloc: Global,
    json: &mut String,
    number: usize,
    entry: &Entry,
    fault: &str,
    table: Option<&NamedTable>,
) -> Result<(), AllocError> {
    write!(json, "{{\"entry\":{number}")?;
    if let Some(end) = entry.side {
        push_named(json, "end", end.letter())?;
    }
    match &entry.body {
        Body::Good(message) => {
            push_kind(alloc, json, message)?;
            push_components(alloc, json, table, message)?;
            push_shown(alloc, json, number, entry)
        }
        Body::Bad(_) => {
            push_named(json, "fault", fault)?;
            push_shown(alloc, json, number, entry)
        }
        Body::Quiet => json.push_str(",\"mark\":true"),
    }
}
