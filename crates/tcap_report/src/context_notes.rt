//! Notes on a dialogue, which have no effect on verdicts: an AARE that names another application context than the AARQ
//! that it answers (Q.773 4.2.3).
//!
//! Each function that returns `AllocError` does so if memory runs out.

use crate::doubt_words::line_of;
use crate::places::push_entry_place;
use std::alloc::{AllocError, Global};
use std::collections::BTreeMap;
use tcap_msg::{Kind as Form, Message, MessageParts, TransactionId};
use tcap_page::push_named;
use tcap_parts::DialogueView;
use tcap_record::{Body, End, Entry, push_hex};
use tcap_traces::{Case, JudgedDialogue, context_in};

/// The code of a note on an AARE with another application context.
const OTHER_CONTEXT: &str = "other_context";

/// The most notes that the text has on a dialogue.
const MOST: usize = 8;

/// An AARE that names another application context than the AARQ that it answers, by the numbers of their entries.
#[derive(Clone, Copy)]
struct Note {
    response: usize,
    request: usize,
}

/// The AARQs in the Begins of an end: the number of the last one from each originating ID.
#[derive(Drop)]
struct Requests {
    entries: BTreeMap<TransactionId, usize>,
}

/// Returns the message of an entry.
fn message_of(entry: &Entry) -> Option<&Message> {
    match &entry.body {
        Body::Good(message) => Some(message),
        _ => None,
    }
}

/// Returns whether a message has an AARE.
fn is_response(message: &Message) -> bool {
    matches!(message.dialogue(), Some(DialogueView::Response { .. }))
}

/// Returns the application context name in an entry, if it has one.
fn context_at(entries: &[Entry], number: usize) -> Option<&[u8]> {
    context_in(message_of(entries.get(number)?)?)
}

/// Returns the application context name in an entry, or no octets if it has none.
fn context_of(entries: &[Entry], number: usize) -> &[u8] {
    match context_at(entries, number) {
        Some(context) => context,
        None => &[],
    }
}

impl Requests {
    /// Creates the state before the first entry.
    fn new(alloc: Global) -> Requests {
        Requests {
            entries: BTreeMap::new(alloc),
        }
    }

    /// Notes a message of the end. A Begin without an AARQ takes the place of an earlier one with the same ID.
    fn note(&mut self, number: usize, message: &Message) -> Result<(), AllocError> {
        if message.kind() != Form::Begin {
            return Ok(());
        }
        let Some(otid) = message.otid() else {
            return Ok(());
        };
        match message.dialogue() {
            Some(DialogueView::Request { .. }) => {
                self.entries.insert(otid.to_transaction_id(), number)?;
            }
            _ => {
                let _ = self.entries.remove(&otid.to_transaction_id());
            }
        }
        Ok(())
    }

    /// Returns the number of the AARQ that a message of the peer answers, if it has an AARE.
    fn answered_by(&self, message: &Message) -> Option<usize> {
        if !is_response(message) {
            return None;
        }
        let dtid = message.dtid()?;
        self.entries.get(&dtid.to_transaction_id()).copied()
    }
}

/// Returns the notes on the entries of a dialogue, in their order.
fn notes_on(alloc: Global, entries: &[Entry]) -> Result<Vec<Note>, AllocError> {
    let mut notes = Vec::new(alloc);
    let mut of_a = Requests::new(alloc);
    let mut of_b = Requests::new(alloc);
    for (response, entry) in entries.iter().enumerate() {
        let (Some(sender), Some(message)) = (entry.side, message_of(entry)) else {
            continue;
        };
        let request = match sender {
            End::A => of_b.answered_by(message),
            End::B => of_a.answered_by(message),
        };
        if let Some(request) = request {
            if context_of(entries, request) != context_of(entries, response) {
                notes.push(Note { response, request })?;
            }
        }
        match sender {
            End::A => of_a.note(response, message)?,
            End::B => of_b.note(response, message)?,
        }
    }
    Ok(notes)
}

/// Appends a note, without a newline.
fn push_note(
    alloc: Global,
    text: &mut String,
    case: &Case,
    judged: &JudgedDialogue,
    note: Note,
) -> Result<(), AllocError> {
    let entries = &judged.record.entries;
    text.push_str("the AARE at ")?;
    push_entry_place(alloc, text, case, note.response as u64)?;
    text.push_str(" has the application context ")?;
    push_hex(text, context_of(entries, note.response))?;
    text.push_str("; the AARQ at ")?;
    push_entry_place(alloc, text, case, note.request as u64)?;
    text.push_str(" asks for ")?;
    push_hex(text, context_of(entries, note.request))
}

/// Appends a line for each of the first notes on a dialogue, and one with the number of the others.
pub(crate) fn push_notes(
    alloc: Global,
    text: &mut String,
    case: &Case,
    judged: &JudgedDialogue,
) -> Result<(), AllocError> {
    let notes = notes_on(alloc, &judged.record.entries)?;
    for note in notes.iter().take(MOST) {
        text.push_str("  note: ")?;
        push_note(alloc, text, case, judged, *note)?;
        text.push_str("\n")?;
    }
    let others = notes.len().saturating_sub(MOST);
    if others > 0 {
        writeln!(
            text,
            "  note: {others} more have another application context"
        )?;
    }
    Ok(())
}

/// Appends the array of the notes on a dialogue, if there are any.
pub(crate) fn push_array(
    alloc: Global,
    json: &mut String,
    case: &Case,
    judged: &JudgedDialogue,
) -> Result<(), AllocError> {
    let notes = notes_on(alloc, &judged.record.entries)?;
    if notes.is_empty() {
        return Ok(());
    }
    json.push_str(",\"notes\":[")?;
    let mut first = true;
    for note in &notes {
        json.push_str(if first { "" } else { "," })?;
        push_object(alloc, json, case, judged, *note)?;
        first = false;
    }
    json.push_str("]")
}

/// Appends the object of a note.
fn push_object(
    alloc: Global,
    json: &mut String,
    case: &Case,
    judged: &JudgedDialogue,
    note: Note,
) -> Result<(), AllocError> {
    let mut text = String::new(alloc);
    push_note(alloc, &mut text, case, judged, note)?;
    let entry = note.response;
    let line = line_of(case, entry as u64);
    write!(json, "{{\"entry\":{entry},\"line\":{line}")?;
    push_named(json, "code", OTHER_CONTEXT)?;
    push_named(json, "text", &text)?;
    json.push_str("}")
}
