//! Dialogues that pass unheard or unanswered.

use crate::order::is_asked;
use std::alloc::AllocError;
use tcap_record::End;
use tcap_traces::{Case, EndResult, JudgedDialogue, Verdict, sent_by};

/// The most dialogues of a trace that pass unheard or unanswered and are named in the text and in JUnit XML.
const MOST: u64 = 20;

/// Returns whether an end passes but missed a message of its peer, or sent nothing.
fn is_silent(judged: &JudgedDialogue, end: End, said: EndResult) -> bool {
    match said {
        EndResult::Pass(0) | EndResult::PassBy(_, 0) => sent_by(&judged.record, end) == 0,
        EndResult::Pass(_) | EndResult::PassBy(..) => true,
        _ => false,
    }
}

/// Returns whether an end that is asked passes, but missed a message of its peer or sent nothing.
fn is_unheard_or_silent(judged: &JudgedDialogue, of: Option<End>) -> bool {
    match judged.ends {
        Some(ends) => [End::A, End::B].iter().any(|end| is_asked(of, *end)
            && is_silent(judged, *end, ends.of(*end))),
        None => false,
    }
}

/// Returns whether a dialogue passes unheard or unanswered. A dialogue without an ID never does.
pub(crate) fn passes_unheard(case: &Case, judged: &JudgedDialogue, of: Option<End>) -> bool {
    judged.verdict == Verdict::Pass && case.has_ids() && is_unheard_or_silent(judged, of)
}

/// Returns whether a dialogue is named that raised the number of those that pass unheard or unanswered from `before` to
/// `count`, if it did.
pub(crate) fn is_named(before: u64, count: u64) -> bool {
    before < count && count <= MOST
}

/// Appends how many of `count` dialogues that pass unheard or unanswered are not named, as a line after `before`, if
/// some are not. `AllocError` if memory runs out.
pub(crate) fn push_unnamed(text: &mut String, before: &str, count: u64) -> Result<(), AllocError> {
    let others = count.saturating_sub(MOST);
    if others == 0 {
        return Ok(());
    }
    text.push_str(before)?;
    write!(text, "and {others} more ")?;
    text.push_str(if others == 1 {
        "dialogue passes"
    } else {
        "dialogues pass"
    })?;
    text.push_str(" unheard or unanswered\n")
}
