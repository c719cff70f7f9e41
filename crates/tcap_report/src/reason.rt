//! The reasons for a blame, in words.
//!
//! Each function returns `AllocError` if memory runs out.

use crate::grounds::Grounds;
use crate::no_message::push_why;
use std::alloc::{AllocError, Global};
use tcap_evidence::push_fault;
use tcap_fault_words::{self as fault_words, Blame, push_details};
use tcap_record::End;
use tcap_refute::{Kind, Refutation};
use tcap_traces::{Case, JudgedDialogue};

/// Returns the first line of a text.
fn first_line(text: &str) -> &str {
    text.lines().next().unwrap_or("")
}

/// Appends the first of the evidence's `lines` for octets that are no message, and why they are none.
fn push_of_octets(
    alloc: Global,
    text: &mut String,
    case: &Case,
    at: Refutation,
    lines: &str,
) -> Result<(), AllocError> {
    text.push_str(first_line(lines))?;
    text.push_str("\n")?;
    push_why(alloc, text, case, at.entry)
}

/// Returns a blame and what was found for it.
fn blame_of<'a>(
    case: &'a Case,
    judged: &'a JudgedDialogue,
    end: End,
    at: Refutation,
    grounds: &'a Grounds,
) -> Blame<'a> {
    Blame {
        record: &judged.record,
        octets: match case.entries.get(at.entry as usize) {
            Some(held) => &held.octets,
            None => &[],
        },
        table: judged.table,
        end,
        at,
        found: grounds.at(end).as_ref(),
    }
}

/// Appends a sentence on a blame: which of the ways to have its kind it is.
pub(crate) fn push_alternative(
    text: &mut String,
    case: &Case,
    judged: &JudgedDialogue,
    end: End,
    at: Refutation,
    grounds: &Grounds,
) -> Result<(), AllocError> {
    fault_words::push_alternative(text, &blame_of(case, judged, end, at, grounds))
}

/// Appends the reasons for a blame: the evidence that was found for it, and which fault of its kind it is.
pub(crate) fn push_reason(
    alloc: Global,
    text: &mut String,
    case: &Case,
    judged: &JudgedDialogue,
    end: End,
    at: Refutation,
    grounds: &Grounds,
) -> Result<(), AllocError> {
    let (Some(table), Some(found)) = (judged.table, grounds.at(end)) else {
        return Ok(());
    };
    let mut lines = String::new(alloc);
    push_fault(&mut lines, &judged.record, table.table(), end, at, found)?;
    if at.kind == Kind::BadMessage {
        return push_of_octets(alloc, text, case, at, &lines);
    }
    text.push_str(&lines)?;
    push_details(text, &blame_of(case, judged, end, at, grounds))
}
