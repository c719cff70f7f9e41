//! The lines on the ends of a dialogue that passes unheard or unanswered.
//!
//! Each function returns `AllocError` if memory runs out.

use crate::awaited_answers::push_unanswered;
use crate::grounds::Grounds;
use crate::order::is_asked;
use crate::places::push_message_place;
use crate::reaction_words::push_taken;
use std::alloc::{AllocError, Global};
use tcap_record::End;
use tcap_traces::{Case, EndResult, JudgedDialogue, Taken, sent_by};

/// Appends the last message that an end may not have heard, and how many of the `unheard` ones come before it.
fn push_unheard(
    alloc: Global,
    text: &mut String,
    case: &Case,
    judged: &JudgedDialogue,
    unheard: u64,
    last: Option<u64>,
) -> Result<(), AllocError> {
    let Some(last) = last else {
        return Ok(());
    };
    text.push_str(", and may not have heard ")?;
    push_message_place(alloc, text, case, judged, last, true)?;
    match unheard.saturating_sub(1) {
        0 => Ok(()),
        1 => text.push_str(", and 1 message before it"),
        others => write!(text, ", and {others} messages before it"),
    }
}

/// Appends the line of an end that passes with this many unheard messages, unless it heard all and sent something.
fn push_end(
    alloc: Global,
    text: &mut String,
    case: &Case,
    judged: &JudgedDialogue,
    end: End,
    unheard: u64,
    grounds: &Grounds,
) -> Result<(), AllocError> {
    let is_silent = sent_by(&judged.record, end) == 0;
    if unheard == 0 && !is_silent {
        return Ok(());
    }
    text.push_str("  ")?;
    text.push_str(end.letter())?;
    text.push_str(": pass")?;
    push_unheard(
        alloc,
        text,
        case,
        judged,
        unheard,
        grounds.shown_by_run(end),
    )?;
    if is_silent {
        text.push_str("; it sent nothing")?;
        push_unanswered(alloc, text, case, judged, end)?;
    }
    text.push_str("\n")
}

/// Appends the line of an end that passes if it took a malformed message of its peer in this way.
pub(crate) fn push_end_by(
    alloc: Global,
    text: &mut String,
    case: &Case,
    end: End,
    taken: Taken,
) -> Result<(), AllocError> {
    text.push_str("  ")?;
    text.push_str(end.letter())?;
    text.push_str(": pass: ")?;
    push_taken(alloc, text, case, taken)?;
    text.push_str("\n")
}

/// Appends a line for each end that is asked and did not hear all, or sent nothing.
pub(crate) fn push_passing(
    alloc: Global,
    text: &mut String,
    case: &Case,
    judged: &JudgedDialogue,
    of: Option<End>,
    grounds: &Grounds,
) -> Result<(), AllocError> {
    let Some(ends) = judged.ends else {
        return Ok(());
    };
    for end in [End::A, End::B] {
        match ends.of(end) {
            EndResult::PassBy(taken, _) if is_asked(of, end) => {
                push_end_by(alloc, text, case, end, taken)?;
            }
            EndResult::Pass(unheard) if is_asked(of, end) => {
                push_end(alloc, text, case, judged, end, unheard, grounds)?;
            }
            _ => {}
        }
    }
    Ok(())
}
