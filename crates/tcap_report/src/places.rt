//! Where an entry of a dialogue is, in words and as a JSON object.
//!
//! Each function returns `AllocError` if memory runs out.

use crate::doubt_words::{comment_of, line_of};
use crate::end_names::push_printable;
use std::alloc::{AllocError, Global};
use tcap_msg::{Kind as Form, MessageParts};
use tcap_page::push_named;
use tcap_record::{Body, Entry};
use tcap_traces::{Case, JudgedDialogue};

/// Appends the line number of an entry, if there is one.
fn push_line(text: &mut String, case: &Case, entry: u64) -> Result<(), AllocError> {
    let line = line_of(case, entry);
    if line > 0 {
        write!(text, ", line {line}")?;
    }
    Ok(())
}

/// Appends the line number of an entry and the comment above it, if there are any.
pub(crate) fn push_place(
    alloc: Global,
    text: &mut String,
    case: &Case,
    entry: u64,
) -> Result<(), AllocError> {
    push_line(text, case, entry)?;
    let comment = comment_of(alloc, case, entry)?;
    if !comment.is_empty() {
        text.push_str(" (")?;
        push_printable(text, &comment)?;
        text.push_str(")")?;
    }
    Ok(())
}

/// Appends the number of an entry, its line number and the comment above it.
pub(crate) fn push_entry_place(
    alloc: Global,
    text: &mut String,
    case: &Case,
    entry: u64,
) -> Result<(), AllocError> {
    write!(text, "entry {entry} of the dialogue")?;
    push_place(alloc, text, case, entry)
}

/// Returns the kind of an entry, in a word or two.
fn kind_of(entry: &Entry) -> &'static str {
    match &entry.body {
        Body::Good(message) => match message.kind() {
            Form::Unidirectional => "Unidirectional",
            Form::Begin => "Begin",
            Form::Continue => "Continue",
            Form::End => "End",
            Form::Abort => "Abort",
        },
        Body::Bad(_) => "entry",
        Body::Quiet => "the quiet mark",
    }
}

/// Appends the sender and the kind of an entry and its numbers, as in `A's Continue at entry 3 of the dialogue, line
/// 4`. The comment above it follows if `with_comment` is set.
pub(crate) fn push_message_place(
    alloc: Global,
    text: &mut String,
    case: &Case,
    judged: &JudgedDialogue,
    entry: u64,
    with_comment: bool,
) -> Result<(), AllocError> {
    if let Some(found) = judged.record.entry_at(entry) {
        if let Some(sender) = found.side {
            text.push_str(sender.letter())?;
            text.push_str("'s ")?;
        }
        text.push_str(kind_of(found))?;
        text.push_str(" at ")?;
    }
    if with_comment {
        return push_entry_place(alloc, text, case, entry);
    }
    write!(text, "entry {entry} of the dialogue")?;
    push_line(text, case, entry)
}

/// Appends a field with the number of an entry, its line and the comment above it, if there is an entry.
pub(crate) fn push_spot(
    alloc: Global,
    json: &mut String,
    name: &str,
    case: &Case,
    entry: Option<u64>,
) -> Result<(), AllocError> {
    let Some(entry) = entry else {
        return Ok(());
    };
    let line = line_of(case, entry);
    json.push_str(",\"")?;
    json.push_str(name)?;
    write!(json, "\":{{\"entry\":{entry},\"line\":{line}")?;
    let comment = comment_of(alloc, case, entry)?;
    if !comment.is_empty() {
        push_named(json, "comment", &comment)?;
    }
    json.push_str("}")
}
