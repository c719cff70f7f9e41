//! Rows about runs: certificates that the library replays over records.

use crate::certificates::certificate_of;
use crate::tables::table_of;
use std::alloc::Global;
use std::fmt::Write;
use tcap_ber::Counted;
use tcap_certificate_text::from_json;
use tcap_check::{
    Certificate, CheckFault, Checker, Partial, Reason, Report, Step, check, run_of, run_until,
};
use tcap_end::{EndState, HalfName, Table};
use tcap_msg::TransactionId;
use tcap_record::{End, Frames, Record, read_record};
use tcap_vectors::octets_of;

/// A question about a record and a certificate.
#[derive(Clone, Copy)]
pub(crate) enum Question {
    /// The count of steps of the run, and of unheard messages.
    Moves,
    /// The steps of the run.
    Run,
    /// The steps up to a refusal, the refusal, and the halves that are open after these steps.
    Until,
}

/// Returns the end with this letter, or `Some(None)` for `both`. Returns `None` for any other word.
pub(crate) fn judged_by(word: &str) -> Option<Option<End>> {
    match word {
        "A" => Some(Some(End::A)),
        "B" => Some(Some(End::B)),
        "both" => Some(None),
        _ => None,
    }
}

/// Appends the octets of an ID in decimal.
fn push_id(text: &mut String, id: &TransactionId) -> Option<()> {
    for octet in id.octets() {
        write!(text, " {octet}").ok()?;
    }
    Some(())
}

/// Appends the name of a half.
fn push_name(text: &mut String, name: &HalfName) -> Option<()> {
    match name {
        HalfName::Own(id) => {
            text.push_str(" own").ok()?;
            push_id(text, id)
        }
        HalfName::Peer(id) => {
            text.push_str(" peer").ok()?;
            push_id(text, id)
        }
    }
}

/// Appends the entry and the number of a refusal, and the number of the reason inside it, if there is one.
fn push_refusal(text: &mut String, fault: CheckFault) -> Option<()> {
    let number = fault.reason.number();
    write!(text, "{} {number}", fault.entry).ok()?;
    let inner = match fault.reason {
        Reason::SendRefused(inner) | Reason::HiddenRefused(inner) => inner.number(),
        Reason::BadMessage(inner) => inner.reason.number(),
        _ => return Some(()),
    };
    write!(text, "/{inner}").ok()
}

/// Appends an end, a word and the number of an entry.
fn push_about(text: &mut String, end: End, word: &str, number: u64) -> Option<()> {
    let letter = end.letter();
    write!(text, "{letter} {word} {number}").ok()
}

/// Appends an end, a word and a half.
fn push_of_half(text: &mut String, end: End, word: &str, name: &HalfName) -> Option<()> {
    let letter = end.letter();
    write!(text, "{letter} {word}").ok()?;
    push_name(text, name)
}

/// Appends a step.
fn push_step(text: &mut String, step: &Step) -> Option<()> {
    match step {
        Step::Sends(End::A, _) => text.push_str("A sends").ok(),
        Step::Sends(End::B, _) => text.push_str("B sends").ok(),
        Step::Tells(End::A, _) => text.push_str("A tells").ok(),
        Step::Tells(End::B, _) => text.push_str("B tells").ok(),
        Step::Receives(end, number) => push_about(text, *end, "receives", *number),
        Step::Replies(end, number) => push_about(text, *end, "replies", *number),
        Step::Loses(end, number) => push_about(text, *end, "loses", *number),
        Step::Discards(end, number, reason) => {
            push_about(text, *end, "discards", *number)?;
            let reason = reason.number();
            write!(text, "/{reason}").ok()
        }
        Step::Expires(end, name, id) => {
            push_of_half(text, *end, "ends", name)?;
            write!(text, " invoke {id}").ok()
        }
        Step::Closes(end, name) => push_of_half(text, *end, "closes", name),
        Step::Quiet => text.push_str("quiet").ok(),
    }
}

/// Appends steps, with commas between them.
fn push_steps(text: &mut String, steps: &[Step]) -> Option<()> {
    let mut is_first = true;
    for step in steps {
        if !is_first {
            text.push_str(",").ok()?;
        }
        is_first = false;
        push_step(text, step)?;
    }
    Some(())
}

/// Appends a bar and the open halves of an end.
fn push_halves(alloc: Global, text: &mut String, end: &EndState) -> Option<()> {
    text.push_str("|").ok()?;
    let names = end.open_halves(alloc).ok()?;
    for name in &names {
        push_name(text, name)?;
    }
    Some(())
}

/// Appends the refusal, the steps and the open halves of a run, with bars between them.
fn push_partial(alloc: Global, text: &mut String, run: &Partial) -> Option<()> {
    if let Some(fault) = run.refused {
        push_refusal(text, fault)?;
    }
    text.push_str("|").ok()?;
    push_steps(text, &run.steps)?;
    push_halves(alloc, text, &run.a)?;
    push_halves(alloc, text, &run.b)
}

/// Appends the result of a check.
fn push_report(text: &mut String, answer: Result<Report, CheckFault>) -> Option<()> {
    match answer {
        Ok(report) => {
            let Report { moves, unheard } = report;
            write!(text, "{moves} {unheard}").ok()
        }
        Err(fault) => push_refusal(text, fault),
    }
}

/// Appends the answer to a question about a record, a table and a certificate.
fn push_answer(
    alloc: Global,
    text: &mut String,
    question: Question,
    record: &Record,
    table: &Table,
    certificate: &Certificate,
    judged: Option<End>,
) -> Option<()> {
    match question {
        Question::Moves => push_report(text, check(alloc, record, table, certificate, judged)),
        Question::Run => match run_of(alloc, record, table, certificate, judged) {
            Ok(steps) => push_steps(text, &steps),
            Err(fault) => push_refusal(text, fault),
        },
        Question::Until => {
            let run = run_until(alloc, record, table, certificate, judged).ok()?;
            push_partial(alloc, text, &run)
        }
    }
}

/// Checks a row of `moves`, `runs` or `runs so far`: a record, an end or `both`, a table, a certificate, and the
/// answer.
pub(crate) fn is_answered(
    alloc: Global,
    question: Question,
    columns: &[&str],
    wanted: &str,
) -> Option<bool> {
    let [record, judged, table, certificate] = columns else {
        return None;
    };
    let judged = judged_by(judged)?;
    let table = table_of(alloc, table)?;
    let certificate = certificate_of(alloc, certificate)?;
    let certificate = from_json(alloc, certificate.as_bytes()).ok()?;
    let octets = octets_of(alloc, record)?;
    let record = read_record(alloc, &mut Counted::new(octets.as_slice())).ok()?;
    let mut text = String::new(alloc);
    let is_whole = push_answer(
        alloc,
        &mut text,
        question,
        &record,
        &table,
        &certificate,
        judged,
    )
    .is_some();
    drop(record);
    if is_whole {
        Some(text.as_str() == wanted)
    } else {
        None
    }
}

/// The greatest counts of octets that were held and of messages that waited.
#[derive(Clone, Copy)]
struct Most {
    buffered: usize,
    pending: usize,
}

/// Takes all octets of a piece, and the entries that are then complete. Returns `None` if there is a fault.
fn take_piece(
    frames: &mut Frames,
    checker: &mut Checker,
    piece: &[u8],
    most: &mut Most,
) -> Option<()> {
    let mut rest = piece;
    for _ in 0..=piece.len() {
        let taken = frames.feed_some(rest).ok()?;
        rest = rest.get(taken..)?;
        most.buffered = most.buffered.max(frames.buffered());
        let Some(entry) = frames.front() else {
            return Some(());
        };
        checker.take(&entry).ok()?;
        most.pending = most.pending.max(checker.pending());
        frames.drop_front();
    }
    None
}

/// Takes a record in pieces of this length. Returns the count of steps of the run, and the greatest counts of octets
/// that were held and of messages that waited, or `None` if there is a fault.
fn replayed_by(alloc: Global, mut checker: Checker, record: &[u8], len: usize) -> Option<String> {
    let mut frames = Frames::new(alloc);
    let mut most = Most {
        buffered: 0,
        pending: 0,
    };
    for piece in record.chunks(len.max(1)) {
        take_piece(&mut frames, &mut checker, piece, &mut most)?;
    }
    frames.finish().ok()?;
    let moves = checker.finish().ok()?.moves;
    let Most { buffered, pending } = most;
    format!(in alloc; "{moves} steps, {buffered} octets, {pending} messages").ok()
}

/// Checks a row of `pieces`: the length of a piece, a record, a table, a certificate, and the counts.
pub(crate) fn is_replayed(
    alloc: Global,
    len: usize,
    columns: &[&str],
    wanted: &str,
) -> Option<bool> {
    let [record, table, certificate] = columns else {
        return None;
    };
    let octets = octets_of(alloc, record)?;
    let table = table_of(alloc, table)?;
    let certificate = certificate_of(alloc, certificate)?;
    let certificate = from_json(alloc, certificate.as_bytes()).ok()?;
    let checker = Checker::new(alloc, &table, &certificate).ok()?;
    Some(replayed_by(alloc, checker, &octets, len)?.as_str() == wanted)
}
