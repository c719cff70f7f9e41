//! The text on a dialogue that does not pass, or that passes unheard or unanswered.
//!
//! Each function returns `AllocError` if memory runs out.

use crate::awaited_answers::push_waiting;
use crate::context_notes::push_notes;
use crate::doubt_words::{ids_of, push_doubt, push_ids, push_said};
use crate::end_names::EndNames;
use crate::grounds::Grounds;
use crate::listed_entries::{is_near, last_listed};
use crate::order::{in_order, is_asked, last_open};
use crate::passing::{push_end_by, push_passing};
use crate::places::{push_entry_place, push_message_place, push_place};
use crate::reaction_words::{fault_entry, push_reaction_fault};
use crate::reason::{push_alternative, push_reason};
use std::alloc::{AllocError, Global};
use tcap_books::NamedTable;
use tcap_fault_words::push_no_message;
use tcap_msg::MessageParts;
use tcap_page::push_component;
use tcap_record::{Body, End, Entry, push_head, push_hex};
use tcap_refute::Refutation;
use tcap_traces::{Case, EndResult, JudgedDialogue, ReactionFault, Verdict};

/// The number of entries listed at the beginning of a dialogue, and (`BEFORE`) before the last one at fault.
const FIRST: usize = 8;

const BEFORE: usize = 16;

/// Appends the letter and the IDs of each end that has some.
fn push_all_ids(text: &mut String, case: &Case) -> Result<(), AllocError> {
    for end in [End::A, End::B] {
        if !ids_of(case, end).is_empty() {
            text.push_str(", ")?;
            text.push_str(end.letter())?;
            push_ids(text, case, end)?;
        }
    }
    Ok(())
}

/// Appends the application context name and the name of the table, if there are any.
fn push_table(text: &mut String, judged: &JudgedDialogue) -> Result<(), AllocError> {
    if let Some(context) = &judged.context {
        text.push_str(", context ")?;
        push_hex(text, context)?;
    }
    if let Some(name) = judged.table_name() {
        text.push_str(", table ")?;
        text.push_str(name)?;
    }
    Ok(())
}

/// Appends the line of a dialogue: its trace, number, IDs, table and verdict.
fn push_dialogue(
    text: &mut String,
    trace: &str,
    case: &Case,
    judged: &JudgedDialogue,
) -> Result<(), AllocError> {
    let number = case.number();
    text.push_str(trace)?;
    write!(text, ": dialogue {number}")?;
    push_all_ids(text, case)?;
    push_table(text, judged)?;
    text.push_str(": ")?;
    text.push_str(judged.verdict.word())?;
    text.push_str("\n")
}

/// Appends, if `later` is set, that the peer is blamed for an earlier entry.
fn push_later(text: &mut String, end: End, later: bool) -> Result<(), AllocError> {
    if !later {
        return Ok(());
    }
    text.push_str("; it comes later, and may follow from that of ")?;
    text.push_str(end.other().letter())
}

/// Appends the line of an end that is blamed.
fn push_blamed(
    alloc: Global,
    text: &mut String,
    case: &Case,
    judged: &JudgedDialogue,
    end: End,
    verdict: Verdict,
    at: Refutation,
    grounds: &Grounds,
) -> Result<(), AllocError> {
    let kind = at.kind.number();
    text.push_str("  ")?;
    text.push_str(end.letter())?;
    text.push_str(": ")?;
    text.push_str(verdict.word())?;
    text.push_str(" at ")?;
    push_entry_place(alloc, text, case, at.entry)?;
    write!(text, ", F{kind}: ")?;
    push_alternative(text, case, judged, end, at, grounds)?;
    push_later(text, end, grounds.later == Some(end))?;
    text.push_str("\n")
}

/// Appends the entry that the run of an end shows for a result, after the words for that result.
pub(crate) fn push_shown_by_run(
    alloc: Global,
    text: &mut String,
    case: &Case,
    judged: &JudgedDialogue,
    said: EndResult,
    shown: Option<u64>,
    with_comment: bool,
) -> Result<(), AllocError> {
    let Some(entry) = shown else {
        return Ok(());
    };
    text.push_str(match said {
        EndResult::Undecided => "; the search stopped at ",
        _ => "; the last unheard one is ",
    })?;
    push_message_place(alloc, text, case, judged, entry, with_comment)
}

/// Appends why the result for an end is undecided, if no entry is blamed on it. `shown` is the entry that its run
/// shows.
pub(crate) fn push_undecided(
    alloc: Global,
    text: &mut String,
    case: &Case,
    judged: &JudgedDialogue,
    said: EndResult,
    shown: Option<u64>,
) -> Result<(), AllocError> {
    if let EndResult::AfterBadEntry(entry) = said {
        push_entry_place(alloc, text, case, entry)?;
        text.push_str(" ")?;
    }
    push_said(alloc, text, case, said)?;
    push_shown_by_run(alloc, text, case, judged, said, shown, true)?;
    text.push_str("\n")
}

/// Appends the line of an end whose reaction to a malformed message is at fault, without its end.
fn push_reaction(
    alloc: Global,
    text: &mut String,
    case: &Case,
    judged: &JudgedDialogue,
    end: End,
    verdict: Verdict,
    fault: ReactionFault,
) -> Result<(), AllocError> {
    text.push_str("  ")?;
    text.push_str(end.letter())?;
    text.push_str(": ")?;
    text.push_str(verdict.word())?;
    text.push_str(" at ")?;
    push_entry_place(alloc, text, case, fault_entry(fault))?;
    text.push_str(": ")?;
    push_reaction_fault(alloc, text, case, judged, end, fault)
}

/// Appends the result for an end, unless it passes.
fn push_end(
    alloc: Global,
    text: &mut String,
    case: &Case,
    judged: &JudgedDialogue,
    end: End,
    said: EndResult,
    grounds: &Grounds,
) -> Result<(), AllocError> {
    match said {
        EndResult::Pass(_) => Ok(()),
        EndResult::PassBy(taken, _) => push_end_by(alloc, text, case, end, taken),
        EndResult::FailBy(fault) => {
            push_reaction(alloc, text, case, judged, end, said.verdict(), fault)?;
            text.push_str("\n")
        }
        EndResult::DoubtfulBy(fault, doubt) => {
            push_reaction(alloc, text, case, judged, end, said.verdict(), fault)?;
            text.push_str("\n  that is inconclusive: ")?;
            push_doubt(alloc, text, case, doubt)?;
            text.push_str("\n")
        }
        EndResult::Fail(at) => {
            push_blamed(alloc, text, case, judged, end, said.verdict(), at, grounds)?;
            push_reason(alloc, text, case, judged, end, at, grounds)
        }
        EndResult::Doubtful(at, doubt) => {
            push_blamed(alloc, text, case, judged, end, said.verdict(), at, grounds)?;
            text.push_str("  that is inconclusive: ")?;
            push_doubt(alloc, text, case, doubt)?;
            text.push_str("\n")?;
            push_reason(alloc, text, case, judged, end, at, grounds)
        }
        _ => {
            text.push_str("  ")?;
            text.push_str(end.letter())?;
            text.push_str(": inconc: ")?;
            push_undecided(alloc, text, case, judged, said, grounds.shown_by_run(end))
        }
    }
}

/// Appends an entry in words: its message and components, or why it is no message, or that it is a quiet mark.
fn push_body(text: &mut String, table: Option<&NamedTable>, body: &Body) -> Result<(), AllocError> {
    match body {
        Body::Good(message) => {
            push_head(text, message)?;
            for component in message.components() {
                text.push_str(", ")?;
                push_component(text, table, component)?;
            }
            Ok(())
        }
        Body::Bad(fault) => {
            text.push_str("no message: ")?;
            push_no_message(text, *fault)
        }
        Body::Quiet => text.push_str("quiet mark"),
    }
}

/// Appends the line of an entry.
fn push_entry(
    alloc: Global,
    text: &mut String,
    case: &Case,
    judged: &JudgedDialogue,
    number: usize,
    entry: &Entry,
) -> Result<(), AllocError> {
    write!(text, "    {number}")?;
    push_place(alloc, text, case, number as u64)?;
    text.push_str(": ")?;
    if let Some(end) = entry.side {
        text.push_str(end.letter())?;
        text.push_str(" ")?;
    }
    push_body(text, judged.table, &entry.body)?;
    text.push_str("\n")
}

/// Appends the entries of a dialogue. Of a long one, these are the first ones and those up to the last one at fault.
fn push_entries(
    alloc: Global,
    text: &mut String,
    case: &Case,
    judged: &JudgedDialogue,
) -> Result<(), AllocError> {
    let last = last_listed(judged);
    text.push_str("  the entries of the dialogue:\n")?;
    for (number, entry) in judged.record.entries.iter().enumerate() {
        if is_near(number, FIRST, BEFORE, last) {
            push_entry(alloc, text, case, judged, number, entry)?;
        } else if number == FIRST || number == usize::saturating_add(last, 1) {
            text.push_str("    ..\n")?;
        }
    }
    Ok(())
}

/// Returns the words for a dialogue without a table, with the option that gives one.
pub(crate) fn no_table_words(judged: &JudgedDialogue) -> &'static str {
    if judged.context.is_some() {
        "no table is for this application context name; give one with --table FILE"
    } else {
        "no table is for a dialogue without an application context name; give one with --table FILE"
    }
}

/// Appends the line of a dialogue without a table.
fn push_no_table(text: &mut String, judged: &JudgedDialogue) -> Result<(), AllocError> {
    text.push_str("  ")?;
    text.push_str(no_table_words(judged))?;
    text.push_str("\n")
}

/// Appends the whole text on a dialogue.
pub(crate) fn push_case(
    alloc: Global,
    text: &mut String,
    trace: &str,
    names: &EndNames,
    case: &Case,
    judged: &JudgedDialogue,
    of: Option<End>,
    grounds: &Grounds,
) -> Result<(), AllocError> {
    push_dialogue(text, trace, case, judged)?;
    if judged.verdict == Verdict::Pass {
        push_passing(alloc, text, case, judged, of, grounds)?;
        return push_notes(alloc, text, case, judged);
    }
    names.push_lines(text)?;
    push_after(alloc, text, case, judged, of, grounds)?;
    push_notes(alloc, text, case, judged)?;
    push_entries(alloc, text, case, judged)
}

/// Appends the text after the line of a dialogue: the result for each end that is asked, and once what an open dialogue
/// waits for. If both ends are blamed, the end with the lower entry comes first.
pub(crate) fn push_after(
    alloc: Global,
    text: &mut String,
    case: &Case,
    judged: &JudgedDialogue,
    of: Option<End>,
    grounds: &Grounds,
) -> Result<(), AllocError> {
    let Some(ends) = judged.ends else {
        return push_no_table(text, judged);
    };
    let open = last_open(ends, of);
    for end in in_order(ends, of) {
        if is_asked(of, end) {
            push_end(alloc, text, case, judged, end, ends.of(end), grounds)?;
        }
        if open == Some(end) {
            push_waiting(alloc, text, judged)?;
        }
    }
    Ok(())
}
