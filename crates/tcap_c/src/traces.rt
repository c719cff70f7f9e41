//! Judges a trace in memory.

ghost use Rattle.std.specs.Prelude.{◌≡◌, ◌≢◌, ◌⊎◌, ◌<◌, length, Some, None, Ok, IfOk, IsErr, MatchResult};
ghost use Rattle.tcap_books.specs.BookText.{IsBookOf};
ghost use Rattle.tcap_traces.specs.declared.verdict.Verdict.TheVariants as Verdict;
ghost use Rattle.tcap_traces.specs.Verdict.{status_of};
ghost use Rattle.tcap_ber.specs.Device.{CountsFailure, Takes};
ghost use Rattle.tcap_traces.specs.JudgedTrace.{judged_trace};
ghost use Rattle.tcap_report.specs.KeptState.{asked_of};
ghost use Rattle.tcap_c.specs.Traces.{IsClearBook, IsVerdictOn, WritesReport, asked_for};

use crate::caller_buffer::copy_to_front;
use crate::octets::Octets;
use crate::options::Rules;
use std::alloc::{AllocError, Global};
use tcap_ber::{Counted, Failed, Write};
use tcap_books::{AMBIGUOUS, Book, BookFault, CARRIED_BOOK, CLASH};
use tcap_report::{NoWatch, Sinks, Stop, Sum, TraceOptions, report_unread, run_trace};
use tcap_traces::Verdict;

/// The name of the trace in each line.
const NAME: &str = "trace";

/// The only line if memory runs out.
const NO_MEMORY: &str =
    "{\"trace\":\"trace\",\"verdict\":\"error\",\"messages\":0,\"dialogues\":{\"pass\":0,\"inconc\":0,\"fail\":0,\"error\":0},\"unheard\":0,\"text\":\"out of memory\"}\n";

/// The text of a table without operations.
const NO_OPERATIONS: &[u8] = b"{\"operations\":[]}";

/// The lines of JSON so far.
type Lines = Counted<Vec<u8>>;

/// A writer that drops all octets.
#[derive(Drop)]
struct NoText;

impl Write for NoText {
    ghost taken = { λ _. None };

    ghost failures = { λ _. 0 };

    fn write_all(&mut self, _octets: &[u8]) -> Result<(), Failed> {
        Ok(())
    }
}

/// Reads a table set, or the carried set if the text is empty. Returns the fault if it has one, in words, and
/// `AllocError` if memory runs out.
fn book_of(alloc: Global, text: &[u8]) -> Result<Result<Book, String>, AllocError>
    ensures tables { IfOk result (λ found. IfOk found (λ tables. 0 < length text.now → IsBookOf text.now (Ok tables))) }
    ensures clear { IfOk result (λ found. IfOk found (λ _. 0 < length text.now → IsClearBook text.now)) }
{
    let text = if text.is_empty() {
        CARRIED_BOOK.as_bytes()
    } else {
        text
    };
    let mut why = String::new(alloc);
    match Book::from_json(alloc, text) {
        Ok(book) => match (book.is_ambiguous(), book.clash()) {
            (false, None) => return Ok(Ok(book)),
            (true, _) => write!(why, "the book: {AMBIGUOUS}")?,
            (false, Some(pair)) => {
                write!(why, "the book: {CLASH}: ")?;
                book.push_pair(&mut why, pair)?;
            }
        },
        Err(BookFault::Memory) => return Err(AllocError),
        Err(fault) => write!(why, "the book: {fault}")?,
    }
    Ok(Err(why))
}

/// Writes the lines of a trace, or the reason why it is not judged. Returns the verdict on it.
fn write_lines(
    alloc: Global,
    trace: Result<&[u8], &str>,
    asked: TraceOptions,
    lines: &mut Lines,
) -> Result<Verdict, Stop>
    ensures means { IfOk trace.entry (λ octets. IfOk result (λ verdict. (verdict ≡ Verdict.Error)
        ⊎ (verdict ≡ (judged_trace (asked_of asked.entry) octets.now).verdict))) }
    ensures unread { IsErr trace.entry → IfOk result (λ verdict. verdict ≡ Verdict.Error) }
{
    let (mut text, mut watch, mut sum) = (NoText, NoWatch, Sum::new());
    let mut sinks = Sinks {
        text: &mut text,
        json: Some(lines),
        page: None,
        junit: None,
        sum: &mut sum,
        watch: &mut watch,
    };
    match trace {
        Ok(octets) => run_trace(alloc, NAME, &mut Octets::new(octets), asked, &mut sinks),
        Err(why) => {
            report_unread(alloc, NAME, asked, why, &mut sinks)?;
            Ok(Verdict::Error)
        }
    }
}

/// Returns the options for a trace, with the tables of `book`.
fn asked_by(rules: Rules, book: &Book) -> TraceOptions<'_>
    ensures { asked_of result ≡ asked_for rules book.now }
{
    TraceOptions {
        of: rules.of,
        reuse: rules.reuse,
        settled: rules.settled,
        complete: rules.complete,
        heard: false,
        book,
    }
}

/// Returns the lines of a trace, and the verdict on it.
fn lines_of(
    alloc: Global,
    trace: &[u8],
    book: &[u8],
    rules: Rules,
) -> Result<(Vec<u8>, Verdict), Stop>
    ensures means { IfOk result (λ said. IsVerdictOn trace.now book.now rules said.1) }
    ensures clear { IfOk result (λ said. said.1 ≢ Verdict.Error → 0 < length book.now → IsClearBook book.now) }
{
    let mut lines = Counted::new(Vec::new(alloc));
    let verdict = match book_of(alloc, book)? {
        Ok(book) => write_lines(alloc, Ok(trace), asked_by(rules, &book), &mut lines)?,
        Err(why) => {
            let Ok(none) = Book::from_json(alloc, NO_OPERATIONS) else {
                return Err(Stop::Memory);
            };
            write_lines(alloc, Err(&why), asked_by(rules, &none), &mut lines)?
        }
    };
    Ok((lines.into_inner(), verdict))
}

/// Copies the lines of a trace to the room, and returns the exit status. If memory runs out, they are the one line that
/// says so.
pub(crate) fn test(
    alloc: Global,
    trace: &[u8],
    book: &[u8],
    rules: Rules,
    room: &mut [u8],
    len: &mut usize,
) -> u8
    ensures tells { WritesReport trace.now book.now rules room.old room.new len.new result }
    ensures book { result ≢ 3 → 0 < length book.now → IsClearBook book.now }
{
    match lines_of(alloc, trace, book, rules) {
        Ok((lines, verdict)) => {
            copy_to_front(&lines, room, len);
            verdict.status()
        }
        Err(_) => {
            copy_to_front(NO_MEMORY.as_bytes(), room, len);
            Verdict::Error.status()
        }
    }
}
