//! The subcommand `test`, which judges each dialogue of traces.

ghost use Rattle.std.specs.Prelude.{◌≡◌, true, false, is_some, IfOk, OnErr, OnOk, length};
ghost use Rattle.tcap_traces.specs.declared.verdict.Verdict.TheVariants as verdicts;
ghost use Rattle.tcap_traces.specs.Verdict.{status_of};
ghost use Rattle.tcap_report.specs.Counts.{worst_of};
ghost use Rattle.tcapjudge.specs.TestStatus.{AreErrors, AreOptions, IsJudged, IsStatus, JudgesEach};

use crate::opening::{DASH, WRONG_WORDS, display_name, hint_on_codes, hint_on_text, is_read_twice};
use crate::outputs::{Outputs, stand_ins};
use crate::progress::Progress;
use crate::trace_files::TraceFiles;
use crate::writing::{Output, Sink, report_unprinted};
use std::alloc::AllocError;
use std::fmt::Display;
use std::io::Read as _;
use std::{fs, io};
use tcap_ber::Write;
use tcap_books::{AMBIGUOUS, Book, CARRIED_BOOK, CLASH};
use tcap_command_line::{Ids, Test, VERSION};
use tcap_diagnostics::Role;
use tcap_dialogues::Reuse;
use tcap_report::{Junit, Lines, Page, Sinks, Stop, Sum, TraceOptions, report_unread, run_test};
use tcap_traces::Verdict;

/// The tables that judge the dialogues.
#[derive(Drop)]
struct Tables {
    /// All tables as one set. If a table is refused, a set without operations, by which nothing is judged.
    book: Book,
    /// The reason why a table is refused.
    refused: Option<String>,
}

/// The name of the carried table set in messages.
const CARRIED: &str = "the book that the program carries";

/// The text of a table without operations.
const NO_OPERATIONS: &str = "{\"operations\":[]}";

/// Reads the table sets in these files, or the carried set if there is no path.
fn tables_of(rt: &HostRuntime, paths: &[&str]) -> Result<Tables, Stop> {
    match book_of(rt, paths)? {
        Ok(book) => Ok(Tables {
            book,
            refused: None,
        }),
        Err(why) => match Book::from_json(rt.alloc(), NO_OPERATIONS.as_bytes()) {
            Ok(book) => Ok(Tables {
                book,
                refused: Some(why),
            }),
            Err(_) => Err(Stop::Memory),
        },
    }
}

/// The tables of several files.
#[derive(Drop)]
struct Given {
    /// All tables, those of the first file first.
    book: Book,
    /// The number of the first table of each file.
    firsts: Vec<usize>,
}

impl Given {
    /// Creates the list from the tables of the first file.
    fn new(rt: &HostRuntime, book: Book) -> Result<Given, AllocError> {
        let mut firsts = Vec::new(rt.alloc());
        firsts.push(0)?;
        Ok(Given { book, firsts })
    }

    /// Adds the tables of the next file.
    fn add(&mut self, book: Book) -> Result<(), AllocError> {
        self.firsts.push(self.book.tables().len())?;
        self.book.add(book)
    }

    /// Returns the number of a table's file, and the table's number in that file.
    fn place_of(&self, number: usize) -> (usize, usize) {
        let mut found = (0, number);
        for (file, first) in self.firsts.iter().enumerate() {
            if *first <= number {
                found = (file, number - *first);
            }
        }
        found
    }

    /// Appends the number and the name of a table, and the path of its file. `paths` are those of all files.
    fn push_table(
        &self,
        text: &mut String,
        paths: &[&str],
        number: usize,
    ) -> Result<(), AllocError> {
        let (file, place) = self.place_of(number);
        if let (Some(table), Some(path)) = (self.book.tables().get(number), paths.get(file)) {
            table.push_words(text, place)?;
            text.push_str(" of ")?;
            text.push_str(display_name(*path))?;
        }
        Ok(())
    }

    /// Returns a text that names the two tables with the same context. `paths` are those of all files.
    fn clash_words(
        &self,
        rt: &HostRuntime,
        paths: &[&str],
        pair: (usize, usize),
    ) -> Result<String, AllocError> {
        let mut text = String::new(rt.alloc());
        let (first, second) = pair;
        text.push_str(CLASH)?;
        text.push_str(": ")?;
        self.push_table(&mut text, paths, first)?;
        text.push_str(" and ")?;
        self.push_table(&mut text, paths, second)?;
        Ok(text)
    }
}

/// Reads all octets of the file with this path, or of the standard input if the path is `-`.
fn octets_of(rt: &HostRuntime, path: &str) -> io::Result<Vec<u8>> {
    if path != DASH {
        return fs::read(rt, path);
    }
    let mut octets = Vec::new(rt.alloc());
    rt.reader().read_to_end(&mut octets)?;
    Ok(octets)
}

/// Reads the table set in the file with this path. Returns the fault if it has one, and writes it on standard error.
fn read_path(rt: &HostRuntime, path: &str) -> Result<Result<Book, String>, Stop> {
    let octets = match octets_of(rt, path) {
        Ok(octets) => octets,
        Err(error) => return Ok(Err(report_fault(rt, Some(path), &error)?)),
    };
    let read = read_book(rt, path, &octets)?;
    if read.is_ok() {
        hint_on_codes(rt, path, &octets);
    }
    Ok(read)
}

/// Reads the table sets in these files as one set, or the carried set if there is no path. Returns the fault if there
/// is one, and writes it on standard error.
fn book_of(rt: &HostRuntime, paths: &[&str]) -> Result<Result<Book, String>, Stop> {
    let [first, others @ ..] = paths else {
        return read_book(rt, CARRIED, CARRIED_BOOK.as_bytes());
    };
    let mut given = match read_path(rt, *first)? {
        Ok(book) => Given::new(rt, book)?,
        Err(why) => return Ok(Err(why)),
    };
    for path in others {
        match read_path(rt, *path)? {
            Ok(book) => given.add(book)?,
            Err(why) => return Ok(Err(why)),
        }
    }
    clear_book(rt, paths, given)
}

/// Returns the given tables as one set, if each dialogue has at most one table in it. Else returns the reason, and
/// writes it on standard error. `paths` are those of all files.
fn clear_book(
    rt: &HostRuntime,
    paths: &[&str],
    given: Given,
) -> Result<Result<Book, String>, Stop> {
    if given.book.is_ambiguous() {
        return Ok(Err(report_fault(rt, None, &AMBIGUOUS)?));
    }
    if let Some(pair) = given.book.clash() {
        let why = given.clash_words(rt, paths, pair)?;
        return Ok(Err(report_fault(rt, None, &why)?));
    }
    Ok(Ok(given.book))
}

/// Reads the table set in this text. Returns the fault if it has one, and writes it on standard error.
fn read_book(rt: &HostRuntime, name: &str, text: &[u8]) -> Result<Result<Book, String>, Stop> {
    match Book::from_json(rt.alloc(), text) {
        Ok(book) => Ok(Ok(book)),
        Err(fault) => {
            let why = report_fault(rt, Some(name), &fault)?;
            hint_on_text(rt, Role::Book, name, text);
            Ok(Err(why))
        }
    }
}

/// Writes a fault of the table `name`, or of all tables together, on standard error. Returns the text.
fn report_fault<E: Display>(
    rt: &HostRuntime,
    name: Option<&str>,
    fault: &E,
) -> Result<String, Stop> {
    let mut why = String::new(rt.alloc());
    if let Some(name) = name {
        why.push_str(display_name(name))?;
        why.push_str(": ")?;
    }
    if write!(why, "{fault}").is_err() {
        return Err(Stop::Memory);
    }
    let _ = eprintln!(rt; "error: {why}");
    Ok(why)
}

/// Returns the options that the command line gives for each trace.
fn options_of<'a>(test: &Test, book: &'a Book) -> TraceOptions<'a>
    ensures { AreOptions test.now book.now result }
{
    TraceOptions {
        of: test.of,
        reuse: match test.ids {
            Ids::Once => Reuse::Once,
            _ => Reuse::Again(test.linger),
        },
        settled: test.ids == Ids::Settled,
        complete: test.complete,
        heard: test.heard,
        book,
    }
}

/// Reports each trace as an error for the reason why a table is refused. No trace is opened.
fn refuse_all<W: Write, J: Lines>(
    rt: &HostRuntime,
    test: &Test,
    tables: &Tables,
    why: &str,
    sinks: &mut Sinks<W, J, Progress>,
) -> Result<(), Stop>
    ensures errors { OnOk result (AreErrors (length test.now.traces.items) sinks.old.sum.now sinks.new.sum.now) }
{
    for path in &test.traces {
        report_unread(
            rt.alloc(),
            *path,
            options_of(test, &tables.book),
            why,
            sinks,
        )?;
    }
    Ok(())
}

/// Opens and judges each trace by these tables.
fn judge_all<W: Write, J: Lines>(
    rt: &HostRuntime,
    test: &Test,
    tables: &Tables,
    sinks: &mut Sinks<W, J, Progress>,
) -> Result<(), Stop>
    ensures judges { OnOk result (JudgesEach test.now tables.now.book sinks.old.sum.now sinks.new.sum.now) }
{
    let options = options_of(test, &tables.book);
    let mut files = TraceFiles::new(rt, &test.traces);
    run_test(rt.alloc(), &mut files, &test.traces, options, sinks)?;
    Ok(())
}

/// Writes the line of the sum, and returns the worst verdict on a trace.
fn end_all<W: Write, J: Lines>(
    rt: &HostRuntime,
    sinks: &mut Sinks<W, J, Progress>,
) -> Result<Verdict, Stop>
    ensures worst { IfOk result (λ verdict. verdict ≡ worst_of sinks.new.sum.now) }
    ensures same { sinks.new.sum ≡ sinks.old.sum }
{
    let mut lines = String::new(rt.alloc());
    sinks.sum.push(&mut lines)?;
    if sinks.text.write_all(lines.as_bytes()).is_err() {
        return Err(Stop::Write);
    }
    Ok(sinks.sum.worst())
}

/// Judges all traces, writes the line of the sum, and returns the worst verdict on a trace. If a table is refused, no
/// trace is read, and each is an error for that reason.
fn test_all<W: Write, J: Lines>(
    rt: &HostRuntime,
    test: &Test,
    tables: &Tables,
    sinks: &mut Sinks<W, J, Progress>,
) -> Result<Verdict, Stop>
    ensures judged { IfOk result (IsJudged test.now sinks.old.sum.now sinks.new.sum.now) }
    ensures refused { is_some tables.now.refused ≡ true
        → OnOk result (AreErrors (length test.now.traces.items) sinks.old.sum.now sinks.new.sum.now) }
    ensures accepted { is_some tables.now.refused ≡ false
        → OnOk result (JudgesEach test.now tables.now.book sinks.old.sum.now sinks.new.sum.now) }
{
    match &tables.refused {
        Some(why) => refuse_all(rt, test, tables, why, sinks)?,
        None => judge_all(rt, test, tables, sinks)?,
    }
    end_all(rt, sinks)
}

/// Writes the JUnit XML, if it is asked for. Returns `Stop::Write` if the file fails, which keeps the error.
fn write_junit(output: Option<&mut Output>, junit: &Junit) -> Result<(), Stop> {
    let Some(output) = output else {
        return Ok(());
    };
    let text = junit.text(VERSION)?;
    output.replace(text.as_bytes()).map_err(|_| Stop::Write)
}

/// Judges all traces with these sinks, and ends the reports on them.
fn test_over<W: Write>(
    rt: &HostRuntime,
    test: &Test,
    tables: &Tables,
    sinks: &mut Sinks<W, Output, Progress>,
) -> Result<Verdict, Stop>
    ensures { IfOk result (IsJudged test.now sinks.old.sum.now sinks.new.sum.now) }
{
    let verdict = test_all(rt, test, tables, sinks)?;
    sinks.end_run(rt.alloc(), VERSION)?;
    Ok(verdict)
}

/// Begins the page, if it is asked for.
fn begin_page<'a>(html: Option<&'a mut Output>) -> Result<Option<Page<'a, Output>>, Stop> {
    match html {
        Some(output) => Ok(Some(Page::begin(output)?)),
        None => Ok(None),
    }
}

/// Judges all traces by these tables, and counts the verdicts. If standard output can't be written, standard error says
/// why.
fn tested(
    rt: &HostRuntime,
    test: &Test,
    tables: &Tables,
    json: Option<&mut Output>,
    html: Option<&mut Output>,
    junit: &mut Junit,
    sum: &mut Sum,
) -> Result<Verdict, Stop>
    ensures { IfOk result (IsJudged test.now sum.old sum.new) }
{
    let mut counted = *sum;
    let mut text = Sink::new(io::writer(rt));
    let mut watch = Progress::new(rt, test);
    let page = begin_page(html)?;
    let mut sinks = Sinks {
        text: &mut text,
        json,
        page,
        junit: Some(junit),
        sum: &mut counted,
        watch: &mut watch,
    };
    let ended = test_over(rt, test, tables, &mut sinks);
    *sum = *sinks.sum;
    report_unprinted(rt, &text);
    ended
}

/// Reads the tables, judges all traces by them, and writes the JUnit XML.
fn judged(
    rt: &HostRuntime,
    test: &Test,
    json: Option<&mut Output>,
    html: Option<&mut Output>,
    junit: Option<&mut Output>,
    sum: &mut Sum,
) -> Result<Verdict, Stop>
    ensures { IfOk result (IsJudged test.now sum.old sum.new) }
{
    let tables = tables_of(rt, &test.tables)?;
    let mut cases = Junit::new(rt.alloc());
    let verdict = tested(rt, test, &tables, json, html, &mut cases, sum)?;
    write_junit(junit, &cases)?;
    Ok(verdict)
}

/// Judges all traces. The output files are opened and emptied before the first table is read, so that nothing is left
/// from an earlier run. Until the end, that of JUnit XML says that the run did not end.
fn written(rt: &HostRuntime, test: &Test, sum: &mut Sum) -> Result<Verdict, Stop>
    ensures { IfOk result (IsJudged test.now sum.old sum.new) }
{
    let Outputs {
        mut json,
        mut html,
        mut junit,
    } = Outputs::open(rt, test)?;
    let ended = judged(rt, test, json.as_mut(), html.as_mut(), junit.as_mut(), sum);
    let json_ended = Output::finish(rt, json);
    let html_ended = Output::finish(rt, html);
    let junit_ended = Output::finish(rt, junit);
    let verdict = ended?;
    json_ended?;
    html_ended?;
    junit_ended?;
    Ok(verdict)
}

/// Judges each dialogue of the traces. Returns the exit status, which is that of the worst verdict.
pub(crate) fn test(rt: &HostRuntime, test: &Test) -> u8
    ensures { IsStatus test.now result }
{
    if is_read_twice(rt, &["--table", "TRACE"], &[&test.tables, &test.traces]) {
        return WRONG_WORDS;
    }
    if [test.json, test.junit, test.html].contains(&Some(DASH)) {
        let _ = eprintln!(rt; "error: --json, --junit and --html take the path of a file");
        return WRONG_WORDS;
    }
    let _held = stand_ins(rt);
    let mut sum = Sum::new();
    let ended = written(rt, test, &mut sum);
    status(rt, ended)
}

/// Returns the exit status of a run: that of the worst verdict, or that of an error if the run stopped.
fn status(rt: &HostRuntime, ended: Result<Verdict, Stop>) -> u8
    ensures worst { IfOk ended (λ verdict. result ≡ status_of verdict) }
    ensures stopped { OnErr ended (result ≡ status_of verdicts.Error) }
{
    match ended {
        Ok(verdict) => verdict.status(),
        Err(Stop::Memory) => {
            let _ = eprintln!(rt; "error: out of memory");
            Verdict::Error.status()
        }
        Err(Stop::Write) => Verdict::Error.status(),
    }
}
