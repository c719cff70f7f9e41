//! Rows about verdicts on dialogues and traces.

use crate::packing::lines_of;
use crate::runs::judged_by;
use crate::tables::table_of;
use std::alloc::Global;
use tcap_ber::Counted;
use tcap_books::Book;
use tcap_dialogues::Reuse;
use tcap_record::{End, read_record};
use tcap_report::{Junit, NoWatch, Page, Sinks, Sum, TraceOptions, run_trace};
use tcap_traces::{Circumstances, EndResult, Ends, Verdict, judge_dialogue, trace_verdict};
use tcap_vectors::octets_of;

/// Returns the circumstances that these words describe.
fn circumstances_of(words: &str) -> Option<Circumstances> {
    let mut found = Circumstances {
        again: false,
        under_way: false,
        early_mark: false,
        began: None,
        unsure: false,
        unread_from: None,
        cut: false,
        open: false,
        heard: false,
    };
    for word in words.split_whitespace() {
        match word {
            "again" => found.again = true,
            "under_way" => found.under_way = true,
            "early_mark" => found.early_mark = true,
            "began_by_a" => found.began = Some(End::A),
            "began_by_b" => found.began = Some(End::B),
            "cut" => found.cut = true,
            "open" => found.open = true,
            "heard" => found.heard = true,
            _ => found.unread_from = Some(word.strip_prefix("unread_from_")?.parse::<u64>().ok()?),
        }
    }
    Some(found)
}

/// Returns the verdicts on the ends of a record.
fn ends_of(alloc: Global, record: &str, table: &str, circumstances: &str) -> Option<Ends> {
    let circumstances = circumstances_of(circumstances)?;
    let octets = octets_of(alloc, record)?;
    let table = table_of(alloc, table)?;
    let mut record = read_record(alloc, &mut Counted::new(octets.as_slice())).ok()?;
    if record.entries.len() > 100_000 {
        return None;
    }
    judge_dialogue(alloc, &mut record, &table, circumstances).ok()
}

/// Returns whether this is the expected verdict on an end. A dash accepts any.
fn is_said(alloc: Global, said: EndResult, wanted: &str) -> Option<bool> {
    Some(wanted == "-" || format!(in alloc; "{said:?}").ok()?.as_str() == wanted)
}

/// Checks a row of `dialogues`: a record, a table, circumstances, and the verdicts on A and on B.
pub(crate) fn is_judged(alloc: Global, columns: &[&str], a: &str, b: &str) -> Option<bool> {
    let [record, table, circumstances] = columns else {
        return None;
    };
    let ends = ends_of(alloc, record, table, circumstances)?;
    Some(is_said(alloc, ends.of(End::A), a)? && is_said(alloc, ends.of(End::B), b)?)
}

/// Returns whether a verdict has this word, a space and this status.
fn is_verdict(alloc: Global, verdict: Verdict, wanted: &str) -> Option<bool> {
    let (word, status) = (verdict.word(), verdict.status());
    Some(format!(in alloc; "{word} {status}").ok()?.as_str() == wanted)
}

/// Returns the verdict `passes` or `undecided` on an end.
fn said_of(word: &str) -> Option<EndResult> {
    match word {
        "passes" => Some(EndResult::Pass(0)),
        "undecided" => Some(EndResult::Undecided),
        _ => None,
    }
}

/// Checks a row of `verdicts on dialogues`: the verdicts on A and on B, and the verdicts on the dialogue for both ends
/// or for one.
pub(crate) fn are_verdicts(alloc: Global, a: &str, b: &str, asked: &[&str]) -> Option<bool> {
    let ends = Ends {
        a: said_of(a)?,
        b: said_of(b)?,
    };
    for pair in asked {
        let (judged, verdict) = pair.split_once(' ')?;
        if !is_verdict(alloc, ends.verdict(judged_by(judged)?), verdict)? {
            return Some(false);
        }
    }
    Some(!asked.is_empty())
}

/// Checks a row of `verdicts on traces`: the count of readable entries, the worst verdict on a dialogue, and the
/// verdict.
pub(crate) fn is_trace_verdict(
    alloc: Global,
    readable: u64,
    worst: &str,
    wanted: &str,
) -> Option<bool> {
    let worst = match worst {
        "pass" => Verdict::Pass,
        "fail" => Verdict::Fail,
        _ => return None,
    };
    is_verdict(alloc, trace_verdict(false, readable, worst), wanted)
}

/// Checks a row of `traces`: lines, a book, and the verdict. The report is written in each of its formats.
pub(crate) fn is_trace(alloc: Global, lines: &str, book: &str, wanted: &str) -> Option<bool> {
    let lines = lines_of(alloc, lines)?;
    let book = Book::from_json(alloc, book.as_bytes()).ok()?;
    let asked = TraceOptions {
        of: None,
        reuse: Reuse::Again(10),
        settled: false,
        complete: false,
        heard: false,
        book: &book,
    };
    let mut sum = Sum::new();
    let mut text = Counted::new(Vec::new(alloc));
    let mut json = Counted::new(Vec::new(alloc));
    let mut junit = Junit::new(alloc);
    let mut html = Counted::new(Vec::new(alloc));
    let mut nobody = NoWatch;
    let page = Page::begin(&mut html).ok()?;
    let mut sinks = Sinks {
        text: &mut text,
        json: Some(&mut json),
        page: Some(page),
        junit: Some(&mut junit),
        sum: &mut sum,
        watch: &mut nobody,
    };
    let mut reader = Counted::new(lines.as_slice());
    let verdict = run_trace(alloc, "t", &mut reader, asked, &mut sinks).ok()?;
    is_verdict(alloc, verdict, wanted)
}
