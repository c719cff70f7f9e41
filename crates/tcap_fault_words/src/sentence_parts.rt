//! Parts of the sentences that say which fault of its kind one is.
//!
//! Each function that returns `AllocError` does so if memory runs out.

use crate::at_fault::{AtFault, Fact, Wanted};
use std::alloc::AllocError;
use tcap_books::NamedTable;
use tcap_msg::Kind as Form;
use tcap_parts::CodeView;
use tcap_record::{End, push_hex};

/// The places in which something was not sent.
pub(crate) const DIALOGUE: &str = " in this dialogue";

pub(crate) const TRANSACTION: &str = " in this transaction";

/// The length of the longest name of an operation in a sentence.
const LONGEST_NAME: usize = 40;

/// The most octets of a global code in a sentence.
const MOST_OCTETS: usize = 16;

/// Returns the name of a form of message, with its article.
pub(crate) fn form_words(form: Form) -> &'static str {
    match form {
        Form::Unidirectional => "a Unidirectional",
        Form::Begin => "a Begin",
        Form::Continue => "a Continue",
        Form::End => "an End",
        Form::Abort => "an Abort",
    }
}

/// Appends the letter of an end, and words.
pub(crate) fn push_end(text: &mut String, end: End, words: &str) -> Result<(), AllocError> {
    text.push_str(end.letter())?;
    text.push_str(words)
}

/// Appends words and a transaction ID.
pub(crate) fn push_id(text: &mut String, words: &str, id: &[u8]) -> Result<(), AllocError> {
    text.push_str(words)?;
    push_hex(text, id)
}

/// Appends an operation code, after the operation's name if the table has one that is not too long, or else after the
/// word "operation".
pub(crate) fn push_short(
    text: &mut String,
    table: &NamedTable,
    code: CodeView,
) -> Result<(), AllocError> {
    let name = match table.name_of(code) {
        Some(name) if name.len() <= LONGEST_NAME => name,
        _ => "operation",
    };
    text.push_str(name)?;
    text.push_str(" ")?;
    match code {
        CodeView::Local(number) => write!(text, "{number}"),
        CodeView::Global(id) => push_start(text, id.octets),
    }
}

/// Appends the first `MOST_OCTETS` octets, and two points if there are more.
fn push_start(text: &mut String, octets: &[u8]) -> Result<(), AllocError> {
    push_hex(text, &octets[..octets.len().min(MOST_OCTETS)])?;
    text.push_str(if octets.len() > MOST_OCTETS { ".." } else { "" })
}

/// Appends the place in which the peer sent nothing that would allow the message at fault, and the entry in which it
/// does so later, if there is one.
pub(crate) fn push_none_in(
    text: &mut String,
    at: &AtFault,
    place: &str,
    wanted: Wanted,
) -> Result<(), AllocError> {
    text.push_str(place)?;
    let Some(number) = at.later(wanted) else {
        return Ok(());
    };
    write!(text, " before entry {number}")?;
    text.push_str(": is the trace in order?")
}

/// Appends the dialogue, in which the peer had sent nothing, and the first entry in which it does, if there is one.
/// Only a later Begin suggests that the trace is out of order, since a dialogue may have been under way before it.
pub(crate) fn push_nothing_before(text: &mut String, at: &AtFault) -> Result<(), AllocError> {
    text.push_str(DIALOGUE)?;
    let Some(number) = at.later(Wanted::Any) else {
        return Ok(());
    };
    write!(text, " before entry {number}")?;
    match at.later(Wanted::Form(Form::Begin)) {
        Some(_) => text.push_str(": is the trace in order?"),
        None => Ok(()),
    }
}

/// Appends words and the entry of a component that comes before the one at fault.
pub(crate) fn push_before(
    text: &mut String,
    at: &AtFault,
    words: &str,
    number: u64,
) -> Result<(), AllocError> {
    text.push_str(words)?;
    if number == at.number {
        text.push_str(" in this message")
    } else {
        write!(text, " in entry {number}")
    }
}

/// Returns whether the end answered or rejected an Invoke of the ID before.
pub(crate) fn is_taken(at: &AtFault) -> bool {
    at.count_taken() > 0
}

/// Appends how the end answered or rejected an Invoke of the ID before. Appends nothing if it did not.
pub(crate) fn push_taken(text: &mut String, at: &AtFault) -> Result<(), AllocError> {
    if let Some(number) = at.first(Fact::OwnResults) {
        push_before(
            text,
            at,
            " was answered already, by the Return Result",
            number,
        )
    } else if let Some(number) = at.first(Fact::OwnErrors) {
        push_before(
            text,
            at,
            " was answered already, by the Return Error",
            number,
        )
    } else if let Some(number) = at.first(Fact::OwnRejects) {
        push_before(text, at, " was rejected already, by the Reject", number)
    } else {
        Ok(())
    }
}
