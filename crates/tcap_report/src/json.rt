//! Reports as lines of JSON (NDJSON): an object for each dialogue, then one for its trace, and at the end one for the
//! run.
//!
//! Each function returns `AllocError` if memory runs out.

use crate::awaited_answers::{push_waiting, unanswered_by};
use crate::context_notes::push_array;
use crate::doubt_words::{comment_of, ids_of, line_of, push_doubt};
use crate::fields::{push_some, push_sums, push_verdicts};
use crate::grounds::Grounds;
use crate::messages::push_messages;
use crate::order::{is_asked, last_open};
use crate::places::push_spot;
use crate::reaction_words::{fault_entry, push_reaction_fault, way_name};
use crate::reason::{push_alternative, push_reason};
use crate::reason_codes::reason_code;
use crate::sinks::TraceSummary;
use crate::sum::Sum;
use crate::text::{push_after, push_undecided};
use std::alloc::{AllocError, Global};
use tcap_evidence::{Evidence, push_fact};
use tcap_page::{push_flag, push_named, push_numbers, push_octets, push_text};
use tcap_record::{End, push_hex};
use tcap_refute::Refutation;
use tcap_traces::{Case, EndResult, JudgedDialogue, NextItem, ReactionFault, Verdict, sent_by};

/// Appends the IDs of an end.
fn push_ids(json: &mut String, case: &Case, end: End) -> Result<(), AllocError> {
    json.push_str("[")?;
    let mut first = true;
    for id in ids_of(case, end) {
        json.push_str(if first { "\"" } else { ",\"" })?;
        push_hex(json, id.octets())?;
        json.push_str("\"")?;
        first = false;
    }
    json.push_str("]")
}

/// Appends the numbers of the entries in the trace, and their lines.
fn push_entries(json: &mut String, case: &Case) -> Result<(), AllocError> {
    json.push_str(",\"entries\":[")?;
    let mut first = true;
    for number in &case.gathered.numbers {
        let number = case.before.saturating_add(*number);
        json.push_str(if first { "" } else { "," })?;
        write!(json, "{number}")?;
        first = false;
    }
    if let NextItem::Mark { number, .. } = case.next {
        json.push_str(if first { "" } else { "," })?;
        write!(json, "{number}")?;
    }
    json.push_str("],\"lines\":[")?;
    let mut first = true;
    for held in &case.entries {
        let line = held.line;
        json.push_str(if first { "" } else { "," })?;
        write!(json, "{line}")?;
        first = false;
    }
    if let NextItem::Mark { line, .. } = case.next {
        json.push_str(if first { "" } else { "," })?;
        write!(json, "{line}")?;
    }
    json.push_str("]")
}

/// Appends a sentence on a blame as a line, and then its reasons.
fn push_why(
    alloc: Global,
    text: &mut String,
    case: &Case,
    judged: &JudgedDialogue,
    end: End,
    at: Refutation,
    grounds: &Grounds,
) -> Result<(), AllocError> {
    text.push_str("  ")?;
    push_alternative(text, case, judged, end, at, grounds)?;
    text.push_str("\n")?;
    push_reason(alloc, text, case, judged, end, at, grounds)
}

/// Appends the fields of an end that is blamed.
fn push_blamed(
    alloc: Global,
    json: &mut String,
    case: &Case,
    judged: &JudgedDialogue,
    end: End,
    at: Refutation,
    grounds: &Grounds,
) -> Result<(), AllocError> {
    let (entry, line, kind) = (at.entry, line_of(case, at.entry), at.kind.number());
    write!(json, ",\"entry\":{entry},\"line\":{line},")?;
    write!(json, "\"kind\":\"F{kind}\"")?;
    let comment = comment_of(alloc, case, entry)?;
    if !comment.is_empty() {
        push_named(json, "comment", &comment)?;
    }
    let mut text = String::new(alloc);
    push_why(alloc, &mut text, case, judged, end, at, grounds)?;
    push_named(json, "text", &text)?;
    if grounds.later == Some(end) {
        push_named(json, "may_follow", end.other().letter())?;
    }
    push_evidence(alloc, json, end, grounds.at(end))
}

/// Appends the evidence for a blame: the component at fault, the invoke ID, and what the entries show.
fn push_evidence(
    alloc: Global,
    json: &mut String,
    end: End,
    evidence: &Option<Evidence>,
) -> Result<(), AllocError> {
    let Some(found) = evidence else {
        return Ok(());
    };
    json.push_str(",\"evidence\":{")?;
    push_some(json, "component", number_of(found.about.component))?;
    push_some(json, "invoke", id_of(found.id))?;
    json.push_str("\"shows\":[")?;
    let mut first = true;
    for ground in &found.grounds {
        let mut fact = String::new(alloc);
        push_fact(&mut fact, end, ground.fact, found.id)?;
        json.push_str(if first { "{\"what\":" } else { ",{\"what\":" })?;
        push_text(json, &fact)?;
        json.push_str(",\"entries\":")?;
        push_numbers(json, &ground.entries)?;
        json.push_str("}")?;
        first = false;
    }
    json.push_str("]}")
}

/// Converts the number of a component.
fn number_of(component: Option<u64>) -> Option<i64> {
    match component {
        Some(number) => i64::try_from(number).ok(),
        None => None,
    }
}

/// Converts an invoke ID.
fn id_of(id: Option<i8>) -> Option<i64> {
    match id {
        Some(id) => Some(i64::from(id)),
        None => None,
    }
}

/// Returns the name of the field with the entry that the run of an end shows for a result.
fn shown_name(said: EndResult) -> &'static str {
    match said {
        EndResult::Undecided => "stopped_at",
        _ => "last_unheard",
    }
}

/// Appends the number of unheard messages of an end that passes, the `last` of them, the number of messages that the end
/// sent and, if it sent none, the Begin that it did not answer.
fn push_pass(
    alloc: Global,
    json: &mut String,
    case: &Case,
    judged: &JudgedDialogue,
    end: End,
    unheard: u64,
    last: Option<u64>,
) -> Result<(), AllocError> {
    let sent = sent_by(&judged.record, end);
    write!(json, ",\"unheard\":{unheard},\"sent\":{sent}")?;
    push_spot(alloc, json, "last_unheard", case, last)?;
    if sent == 0 {
        let begin = unanswered_by(alloc, judged, end)?;
        push_spot(alloc, json, "unanswered", case, begin)?;
    }
    Ok(())
}

/// Appends the entry, the line and the words of a fault in the reaction of an end.
fn push_reaction(
    alloc: Global,
    json: &mut String,
    case: &Case,
    judged: &JudgedDialogue,
    end: End,
    fault: ReactionFault,
) -> Result<(), AllocError> {
    let entry = fault_entry(fault);
    let line = line_of(case, entry);
    write!(json, ",\"entry\":{entry},\"line\":{line}")?;
    let comment = comment_of(alloc, case, entry)?;
    if !comment.is_empty() {
        push_named(json, "comment", &comment)?;
    }
    let mut text = String::new(alloc);
    push_reaction_fault(alloc, &mut text, case, judged, end, fault)?;
    push_named(json, "text", &text)
}

/// Appends the result for an end.
fn push_end(
    alloc: Global,
    json: &mut String,
    case: &Case,
    judged: &JudgedDialogue,
    end: End,
    said: EndResult,
    grounds: &Grounds,
) -> Result<(), AllocError> {
    json.push_str("{\"verdict\":\"")?;
    json.push_str(said.verdict().word())?;
    json.push_str("\"")?;
    if let Some(code) = reason_code(said) {
        push_named(json, "reason", code)?;
    }
    match said {
        EndResult::FailBy(fault) => push_reaction(alloc, json, case, judged, end, fault)?,
        EndResult::DoubtfulBy(fault, doubt) => {
            push_reaction(alloc, json, case, judged, end, fault)?;
            let mut text = String::new(alloc);
            push_doubt(alloc, &mut text, case, doubt)?;
            push_named(json, "doubt", &text)?;
        }
        EndResult::PassBy(taken, unheard) => {
            let entry = taken.entry;
            push_pass(alloc, json, case, judged, end, unheard, None)?;
            write!(json, ",\"reading\":{{\"entry\":{entry}")?;
            push_named(json, "way", way_name(taken.way))?;
            json.push_str("}")?;
        }
        EndResult::Pass(unheard) => {
            let last = grounds.shown_by_run(end);
            push_pass(alloc, json, case, judged, end, unheard, last)?;
        }
        EndResult::Fail(at) => push_blamed(alloc, json, case, judged, end, at, grounds)?,
        EndResult::Doubtful(at, doubt) => {
            push_blamed(alloc, json, case, judged, end, at, grounds)?;
            let mut text = String::new(alloc);
            push_doubt(alloc, &mut text, case, doubt)?;
            push_named(json, "doubt", &text)?;
        }
        _ => {
            let shown = grounds.shown_by_run(end);
            let mut text = String::new(alloc);
            push_undecided(alloc, &mut text, case, judged, said, shown)?;
            push_named(json, "text", &text)?;
            push_spot(alloc, json, shown_name(said), case, shown)?;
        }
    }
    json.push_str("}")
}

/// Appends the application context name and the name of the table, if there are any.
fn push_table(json: &mut String, judged: &JudgedDialogue) -> Result<(), AllocError> {
    if let Some(context) = &judged.context {
        push_octets(json, "context", context)?;
    }
    if let Some(name) = judged.table_name() {
        push_named(json, "table", name)?;
    }
    Ok(())
}

/// Appends the result for each end that is asked and what an open dialogue waits for, or that the dialogue has no
/// table.
fn push_ends(
    alloc: Global,
    json: &mut String,
    case: &Case,
    judged: &JudgedDialogue,
    of: Option<End>,
    grounds: &Grounds,
) -> Result<(), AllocError> {
    let Some(ends) = judged.ends else {
        let mut text = String::new(alloc);
        push_after(alloc, &mut text, case, judged, of, grounds)?;
        return push_named(json, "text", &text);
    };
    for end in [End::A, End::B] {
        if is_asked(of, end) {
            json.push_str(",\"")?;
            json.push_str(end.letter())?;
            json.push_str("\":")?;
            push_end(alloc, json, case, judged, end, ends.of(end), grounds)?;
        }
    }
    if last_open(ends, of).is_none() {
        return Ok(());
    }
    let mut text = String::new(alloc);
    push_waiting(alloc, &mut text, judged)?;
    push_named(json, "text", &text)
}

/// Appends the object of a dialogue. It lists the messages if the dialogue does not pass.
pub(crate) fn push_case(
    alloc: Global,
    json: &mut String,
    trace: &str,
    case: &Case,
    judged: &JudgedDialogue,
    of: Option<End>,
    grounds: &Grounds,
) -> Result<(), AllocError> {
    let number = case.number();
    json.push_str("{\"trace\":")?;
    push_text(json, trace)?;
    write!(json, ",\"dialogue\":{number}")?;
    push_named(json, "verdict", judged.verdict.word())?;
    push_entries(json, case)?;
    json.push_str(",\"ids\":{\"A\":")?;
    push_ids(json, case, End::A)?;
    json.push_str(",\"B\":")?;
    push_ids(json, case, End::B)?;
    json.push_str("}")?;
    push_table(json, judged)?;
    push_flag(json, "open", case.is_open(judged.table))?;
    push_flag(json, "again", case.gathered.earlier.is_some())?;
    push_flag(json, "marked", case.is_marked())?;
    push_ends(alloc, json, case, judged, of, grounds)?;
    push_array(alloc, json, case, judged)?;
    if judged.verdict != Verdict::Pass {
        push_messages(alloc, json, case, judged, grounds)?;
    }
    json.push_str("}\n")
}

/// Appends the object of a trace.
pub(crate) fn push_trace(json: &mut String, returned: TraceSummary) -> Result<(), AllocError> {
    json.push_str("{\"trace\":")?;
    push_text(json, returned.name)?;
    push_named(json, "verdict", returned.verdict.word())?;
    push_sums(
        json,
        returned.messages,
        &returned.dialogues,
        returned.unheard,
    )?;
    returned.names.push_object(json)?;
    if !returned.why.is_empty() {
        push_named(json, "text", returned.why)?;
    }
    if let Some(line) = returned.line {
        write!(json, ",\"line\":{line}")?;
    }
    if let Some(hint) = returned.hint {
        push_named(json, "hint", hint)?;
    }
    json.push_str("}\n")
}

/// Appends the sum of all traces.
fn push_sum(json: &mut String, sum: &Sum) -> Result<(), AllocError> {
    json.push_str("{\"total\":{\"traces\":")?;
    push_verdicts(json, &sum.traces)?;
    push_sums(json, sum.messages, &sum.dialogues, sum.unheard)?;
    json.push_str("}")
}

/// Appends the object of all traces in a page, without its closing `}`. `left_out` is the number of dialogues that do
/// not pass and found no room.
pub(crate) fn push_total(json: &mut String, sum: &Sum, left_out: u64) -> Result<(), AllocError> {
    push_sum(json, sum)?;
    write!(json, ",\"left_out\":{left_out}")
}

/// Appends the object of the run. `version` is that of the program.
pub(crate) fn push_run(json: &mut String, sum: &Sum, version: &str) -> Result<(), AllocError> {
    push_sum(json, sum)?;
    push_named(json, "verdict", sum.worst().word())?;
    push_named(json, "version", version)?;
    json.push_str("}\n")
}
