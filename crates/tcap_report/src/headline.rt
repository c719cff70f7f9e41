//! One line on a dialogue that does not pass. The length of the line does not depend on the length of the trace.
//!
//! Each function returns `AllocError` if memory runs out.

use crate::awaited_answers::push_first_wait;
use crate::doubt_words::{line_of, push_doubt, push_said};
use crate::grounds::Grounds;
use crate::order::{in_order, is_asked};
use crate::reaction_words::{fault_entry, push_reaction_fault};
use crate::reason::push_alternative;
use crate::text::{no_table_words, push_shown_by_run};
use std::alloc::{AllocError, Global};
use tcap_record::End;
use tcap_refute::Refutation;
use tcap_traces::{Case, EndResult, JudgedDialogue, Verdict};

/// Appends the line number of an entry, or the entry's number if the trace has no lines.
fn push_line(text: &mut String, case: &Case, entry: u64) -> Result<(), AllocError> {
    let line = line_of(case, entry);
    if line > 0 {
        write!(text, "line {line}, ")
    } else {
        write!(text, "entry {entry} of the dialogue, ")
    }
}

/// Appends the entry, the kind and the reason of a blame.
fn push_blame(
    text: &mut String,
    case: &Case,
    judged: &JudgedDialogue,
    end: End,
    at: Refutation,
    grounds: &Grounds,
) -> Result<(), AllocError> {
    let kind = at.kind.number();
    push_line(text, case, at.entry)?;
    write!(text, "F{kind}: ")?;
    push_alternative(text, case, judged, end, at, grounds)
}

/// Appends the first reason why an end does not pass.
fn push_end(
    alloc: Global,
    text: &mut String,
    case: &Case,
    judged: &JudgedDialogue,
    end: End,
    said: EndResult,
    grounds: &Grounds,
) -> Result<(), AllocError> {
    text.push_str(end.letter())?;
    text.push_str(": ")?;
    match said {
        EndResult::Fail(at) => push_blame(text, case, judged, end, at, grounds),
        EndResult::Doubtful(at, doubt) => {
            push_blame(text, case, judged, end, at, grounds)?;
            text.push_str("; inconclusive: ")?;
            push_doubt(alloc, text, case, doubt)
        }
        EndResult::FailBy(fault) => {
            push_line(text, case, fault_entry(fault))?;
            push_reaction_fault(alloc, text, case, judged, end, fault)
        }
        EndResult::DoubtfulBy(fault, doubt) => {
            push_line(text, case, fault_entry(fault))?;
            push_reaction_fault(alloc, text, case, judged, end, fault)?;
            text.push_str("; inconclusive: ")?;
            push_doubt(alloc, text, case, doubt)
        }
        EndResult::AfterBadEntry(entry) => {
            push_line(text, case, entry)?;
            text.push_str("which ")?;
            push_said(alloc, text, case, said)
        }
        EndResult::Open => {
            push_said(alloc, text, case, said)?;
            text.push_str("; ")?;
            push_first_wait(alloc, text, judged)
        }
        _ => {
            push_said(alloc, text, case, said)?;
            let shown = grounds.shown_by_run(end);
            push_shown_by_run(alloc, text, case, judged, said, shown, false)
        }
    }
}

/// Appends the reason for the first end that has the dialogue's verdict, or that the dialogue has no table. If both
/// ends fail, both reasons are appended.
pub(crate) fn push_headline(
    alloc: Global,
    text: &mut String,
    case: &Case,
    judged: &JudgedDialogue,
    of: Option<End>,
    grounds: &Grounds,
) -> Result<(), AllocError> {
    let Some(ends) = judged.ends else {
        return text.push_str(no_table_words(judged));
    };
    let mut first = true;
    for end in in_order(ends, of) {
        let said = ends.of(end);
        let is_told = first || judged.verdict == Verdict::Fail;
        if is_told && is_asked(of, end) && said.verdict() == judged.verdict {
            text.push_str(if first { "" } else { "; " })?;
            push_end(alloc, text, case, judged, end, said, grounds)?;
            first = false;
        }
    }
    Ok(())
}
