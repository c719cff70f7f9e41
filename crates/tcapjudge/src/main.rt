//! The program `tcapjudge`: its command line, its files and standard streams, and its exit status. Other crates do the
//! work.
#![tactic(auto)]

mod explaining;
mod judging;
mod not_utf8;
mod opening;
mod outputs;
mod packing;
mod progress;
mod source;
mod testing;
mod trace_files;
mod writing;

use crate::explaining::{Paths, explain};
use crate::judging::{Question, check, judge};
use crate::not_utf8::report_no_text;
use crate::opening::{DASH, file_path};
use crate::packing::{make_record, pack_into};
use crate::source::Source;
use crate::testing::test;
use std::alloc::Global;
use std::io::BufWriter;
use std::process::ExitCode;
use std::{env, io};
use tcap_ber::{Counted, Write};
use tcap_books::CARRIED_BOOK;
use tcap_command_line::{Request, WordsFault, request};
use tcap_diagnostics::{FirstOctets, Role, run_lines, run_table, run_why, write_hint};
use tcap_explain::ExplainOptions;
use tcap_lines::{MEMORY_LINE, Status, WriteFailed, run_show};

/// The exit status if a word of the command line is not text, which `clap` cannot report.
const NO_TEXT: u8 = 4;

/// A task for the octets of one file.
#[derive(Clone, Copy)]
enum Task {
    /// Print the entries of a record.
    Show,
    /// Print the entries of a record, and explain why an entry or the record is refused.
    Why,
    /// Make a record from lines of hexadecimal digits.
    Pack,
    /// Print the entries of such lines. If true, explain why an entry or the record is refused.
    Lines(bool),
    /// Print the rows of an operation table or of a table set.
    Table,
    /// Print the rows of the table set that the program carries; nothing is read.
    Carried,
}

/// Parses the command line and runs the request. Returns the exit status.
fn run(rt: &HostRuntime) -> io::Result<u8> {
    let alloc = rt.alloc();
    let args = match env::args(rt) {
        Ok(args) => args,
        Err(error) if error.kind() == io::ErrorKind::OutOfMemory => return Err(error),
        Err(_) => {
            report_no_text(rt);
            return Ok(NO_TEXT);
        }
    };
    let texts: Vec<String> = args.collect(alloc)?;
    let words: Vec<&str> = texts.iter().map(|text| text.as_str()).collect(alloc)?;
    match request(alloc, &words) {
        Ok(request) => answer(rt, request),
        Err(WordsFault::Memory) => Err(io::Error::from(io::ErrorKind::OutOfMemory)),
        Err(fault) if fault.is_printed() => {
            print!(rt; "{fault}")?;
            Ok(fault.status())
        }
        Err(fault) => {
            let _ = eprint!(rt; "{fault}");
            Ok(fault.status())
        }
    }
}

/// Runs a request.
fn answer(rt: &HostRuntime, request: Request) -> io::Result<u8> {
    match request {
        Request::Show(path, why, true) => over_path(rt, Task::Lines(why), path),
        Request::Show(path, true, false) => over_path(rt, Task::Why, path),
        Request::Show(path, false, false) => over_path(rt, Task::Show, path),
        Request::Pack(path, None) => over_path(rt, Task::Pack, path),
        Request::Pack(path, Some(output)) => Ok(pack_into(rt, path, output)),
        Request::Check(entries, table, cert, judged) => {
            Ok(check(rt, entries, table, cert, judged))
        }
        Request::Judge(entries, table, with_certificate, judged) => {
            let question = Question::Verdict(judged, with_certificate);
            Ok(judge(rt, entries, table, question))
        }
        Request::Blame(entries, table) => Ok(judge(rt, entries, table, Question::Blame)),
        Request::Table(path) => show_table(rt, path),
        Request::Test(asked) => Ok(test(rt, &asked)),
        Request::Explain {
            entries,
            table,
            cert,
            end,
            chart,
        } => {
            let paths = Paths {
                entries,
                table,
                cert,
                chart,
            };
            let asked = ExplainOptions {
                judged: end,
                with_chart: chart.is_some(),
            };
            Ok(explain(rt, paths, asked))
        }
    }
}

/// Runs a task over the file with this path, or over the standard input if there is no path, or the path is `-`.
fn over_path(rt: &HostRuntime, task: Task, path: Option<&str>) -> io::Result<u8> {
    let path = file_path(path.unwrap_or(DASH));
    let source = Source::open(rt, path.unwrap_or(DASH));
    over(rt, task, path, source)
}

/// Prints the rows of the table or the table set in the file with this path. Without a path, prints those of the set
/// that the program carries.
fn show_table(rt: &HostRuntime, path: Option<&str>) -> io::Result<u8> {
    let task = match path {
        Some(_) => Task::Table,
        None => Task::Carried,
    };
    over_path(rt, task, path)
}

/// Reports a lack of memory on the stream that takes the task's faults.
fn no_memory(rt: &HostRuntime, task: Task) -> io::Result<u8> {
    match task {
        Task::Pack => eprint!(rt; "{MEMORY_LINE}")?,
        _ => print!(rt; "{MEMORY_LINE}")?,
    }
    Ok(Status::Fault.number())
}

/// Runs a task over `source`: the file with this path, or the standard input. Returns the exit status.
fn over(rt: &HostRuntime, task: Task, path: Option<&str>, source: Source) -> io::Result<u8> {
    let Ok(buffer) = BufWriter::new(rt.alloc(), io::writer(rt)) else {
        return no_memory(rt, task);
    };
    let mut writer = Counted::new(buffer);
    let faults = Counted::new(rt.stderr());
    let noted = FirstOctets::new(rt.alloc(), source);
    let ended = done(rt.alloc(), task, path, noted, &mut writer, faults);
    // A failure of standard error does not keep the packed record from being written.
    let is_written = writer.failures() == 0 && writer.flush().is_ok();
    let status = match ended {
        Ok(status) if is_written => status,
        _ => Status::Fault,
    };
    // Nothing is written after a failure, so drop what the buffer still holds.
    let _ = writer.into_inner().into_parts();
    Ok(status.number())
}

/// Runs a task over `reader`. After a fault, also writes the rule that a line of digits breaks, and a hint if the
/// octets look like another kind of file.
fn done<W: Write, F: Write + Drop>(
    alloc: Global,
    task: Task,
    path: Option<&str>,
    reader: FirstOctets<Source>,
    writer: &mut W,
    faults: F,
) -> Result<Status, WriteFailed> {
    let (mut reader, mut faults) = (reader, faults);
    match task {
        Task::Show => {
            let status = run_show(alloc, &mut reader, writer)?;
            hint(status, Role::Shown, path, &reader, &mut faults)
        }
        Task::Why => {
            let status = run_why(alloc, &mut reader, writer)?;
            hint(status, Role::Shown, None, &reader, writer)
        }
        Task::Pack => make_record(alloc, path, reader, writer, faults),
        Task::Lines(why) => {
            let status = run_lines(alloc, &mut reader, why, writer)?;
            hint(status, Role::Lines, path, &reader, &mut faults)
        }
        Task::Table => {
            let status = run_table(alloc, &mut reader, writer, &mut faults)?;
            hint(status, Role::Book, path, &reader, &mut faults)
        }
        Task::Carried => {
            let mut book = Counted::new(CARRIED_BOOK.as_bytes());
            run_table(alloc, &mut book, writer, &mut faults)
        }
    }
}

/// After a fault, writes to `faults` what the file with this path, or the standard input, looks like, if that does not
/// fit its role.
pub(crate) fn hint<F: Write>(
    status: Status,
    role: Role,
    path: Option<&str>,
    reader: &FirstOctets<Source>,
    faults: &mut F,
) -> Result<Status, WriteFailed> {
    if status == Status::Fault {
        write_hint(role, path, reader.first(), faults)?;
    }
    Ok(status)
}

fn main(rt: HostRuntime) -> ExitCode {
    match run(&rt) {
        Ok(status) => ExitCode::from(status),
        Err(error) => {
            if error.kind() == io::ErrorKind::OutOfMemory {
                let _ = print!(rt; "{MEMORY_LINE}");
            }
            ExitCode::from(Status::Fault.number())
        }
    }
}
