//! The answers that a dialogue waits for.

use crate::places::push_place;
use std::alloc::{AllocError, Global};
use tcap_end::reports;
use tcap_msg::{Kind as Form, Message, MessageParts};
use tcap_parts::ComponentView;
use tcap_record::{Body, End, Entry};
use tcap_traces::{Case, JudgedDialogue};

/// The most answers that are listed.
const MOST: usize = 8;

/// An answer that the dialogue waits for.
#[derive(Clone, Copy, PartialEq, Eq)]
struct Wait {
    /// The end that has to answer.
    of: End,
    /// The number of the entry to answer.
    entry: usize,
    /// The ID of the invocation to answer; None if the Begin is to be answered.
    invocation: Option<i8>,
}

/// The answers that an end sent after an entry.
#[derive(Drop)]
struct Answers {
    /// True if the end sent a message.
    any: bool,
    /// The invoke IDs that the end answered.
    answered: Vec<i8>,
}

/// Returns the sender and the message of an entry, if it has both.
fn sent(entry: &Entry) -> Option<(End, &Message)> {
    match (entry.side, &entry.body) {
        (Some(end), Body::Good(message)) => Some((end, message)),
        _ => None,
    }
}

/// Returns the ID of the invocation to which a component is the last answer.
fn answered_by(component: ComponentView) -> Option<i8> {
    match component {
        ComponentView::ReturnResult { last: true, id, .. }
        | ComponentView::ReturnError { id, .. } => { Some(id) }
        ComponentView::Reject { id, .. } => id,
        _ => None,
    }
}

impl Answers {
    /// Creates the state of an end that sent nothing.
    fn new(alloc: Global) -> Answers {
        Answers {
            any: false,
            answered: Vec::new(alloc),
        }
    }

    /// Notes a message that comes before those noted so far.
    fn note(&mut self, message: &Message) -> Result<(), AllocError> {
        self.any = true;
        for component in message.components() {
            if let Some(id) = answered_by(component) {
                if !self.answered.contains(&id) {
                    self.answered.push(id)?;
                }
            }
        }
        Ok(())
    }
}

/// Returns the ID of an Invoke whose operation is of class 1. Such an operation reports both success and failure (Q.771
/// 3.1), so an answer has to come.
fn asking(judged: &JudgedDialogue, component: ComponentView) -> Option<i8> {
    let ComponentView::Invoke { id, code, .. } = component else {
        return None;
    };
    match judged.table?.table().class_of(code) {
        Some(class) if reports(true, class) && reports(false, class) => Some(id),
        _ => None,
    }
}

/// Returns the answers that the end `of` owes to the message of an entry. `later` is what that end sent after the
/// entry.
fn waits_of(
    alloc: Global,
    judged: &JudgedDialogue,
    of: End,
    entry: usize,
    message: &Message,
    later: &Answers,
) -> Result<Vec<Wait>, AllocError> {
    let mut waits = Vec::new(alloc);
    if message.kind() == Form::Begin && !later.any {
        waits.push(Wait {
            of,
            entry,
            invocation: None,
        })?;
    }
    for component in message.components() {
        match asking(judged, component) {
            Some(id) if !later.answered.contains(&id) => waits.push(Wait {
                of,
                entry,
                invocation: Some(id),
            })?,
            _ => {}
        }
    }
    Ok(waits)
}

/// Returns the answers that both ends owe, the last first.
fn all_waits(alloc: Global, judged: &JudgedDialogue) -> Result<Vec<Wait>, AllocError> {
    let mut waits = Vec::new(alloc);
    let mut by_a = Answers::new(alloc);
    let mut by_b = Answers::new(alloc);
    for (number, entry) in judged.record.entries.iter().enumerate().rev() {
        let Some((sender, message)) = sent(entry) else {
            continue;
        };
        let more = match sender {
            End::A => waits_of(alloc, judged, End::B, number, message, &by_b)?,
            End::B => waits_of(alloc, judged, End::A, number, message, &by_a)?,
        };
        for wait in more.iter().rev() {
            waits.push(*wait)?;
        }
        match sender {
            End::A => by_a.note(message)?,
            End::B => by_b.note(message)?,
        }
    }
    Ok(waits)
}

/// Appends an answer that is waited for.
fn push_awaited(text: &mut String, wait: Wait) -> Result<(), AllocError> {
    let Wait {
        of,
        entry,
        invocation,
    } = wait;
    text.push_str("waits for an answer of ")?;
    text.push_str(of.letter())?;
    match invocation {
        Some(id) => write!(text, " to invocation {id} in entry {entry}, of class 1"),
        None => write!(text, " to the Begin in entry {entry}"),
    }
}

/// Appends one answer that the dialogue waits for; without one, that it waits for its end.
fn push_wait(text: &mut String, wait: Option<Wait>) -> Result<(), AllocError> {
    text.push_str("it ")?;
    match wait {
        Some(wait) => push_awaited(text, wait),
        None => text.push_str("waits for an End or an Abort"),
    }
}

/// Appends a line with one answer that the dialogue waits for.
fn push_line(text: &mut String, wait: Option<Wait>) -> Result<(), AllocError> {
    text.push_str("  ")?;
    push_wait(text, wait)?;
    text.push_str("\n")
}

/// Appends the answers that both ends owe, to Begins and to invocations of class 1. If there are none, the dialogue
/// waits for its end.
pub(crate) fn push_waiting(
    alloc: Global,
    text: &mut String,
    judged: &JudgedDialogue,
) -> Result<(), AllocError> {
    let waits = all_waits(alloc, judged)?;
    for wait in waits.iter().rev().take(MOST) {
        push_line(text, Some(*wait))?;
    }
    let count = waits.len();
    if count > MOST {
        let more = count - MOST;
        writeln!(text, "  and for {more} more answers")?;
    }
    if count == 0 {
        push_line(text, None)?;
    }
    Ok(())
}

/// Appends the first answer that the dialogue waits for.
pub(crate) fn push_first_wait(
    alloc: Global,
    text: &mut String,
    judged: &JudgedDialogue,
) -> Result<(), AllocError> {
    let waits = all_waits(alloc, judged)?;
    push_wait(text, waits.last().copied())
}

/// Returns the first Begin of its peer that an end owes an answer.
fn first_unanswered(
    alloc: Global,
    judged: &JudgedDialogue,
    of: End,
) -> Result<Option<Wait>, AllocError> {
    let waits = all_waits(alloc, judged)?;
    for wait in waits.iter().rev() {
        if wait.of == of && wait.invocation.is_none() {
            return Ok(Some(*wait));
        }
    }
    Ok(None)
}

/// Returns the number of the first Begin of its peer to which an end sent no answer, if there is one.
pub(crate) fn unanswered_by(
    alloc: Global,
    judged: &JudgedDialogue,
    end: End,
) -> Result<Option<u64>, AllocError> {
    match first_unanswered(alloc, judged, end)? {
        Some(wait) => Ok(Some(wait.entry as u64)),
        None => Ok(None),
    }
}

/// Appends to a line that the dialogue waits for the answer of an end to a Begin, if it does.
pub(crate) fn push_unanswered(
    alloc: Global,
    text: &mut String,
    case: &Case,
    judged: &JudgedDialogue,
    end: End,
) -> Result<(), AllocError> {
    let Some(wait) = first_unanswered(alloc, judged, end)? else {
        return Ok(());
    };
    text.push_str(", and the dialogue ")?;
    push_awaited(text, wait)?;
    push_place(alloc, text, case, wait.entry as u64)
}
