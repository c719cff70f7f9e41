//! The output files of `test`. None of them may be a file that it reads, or another output file.

use crate::opening::{DASH, is_plain, is_same};
use crate::writing::Output;
use std::fs;
use std::fs::File;
use tcap_command_line::Test;
use tcap_report::{NOT_ENDED, Stop};

/// The path of the standard input.
pub(crate) const INPUT: &str = "/dev/stdin";

/// The path of the standard output.
const PRINTED: &str = "/dev/stdout";

/// The path of the standard error.
const FAULTS: &str = "/dev/stderr";

/// The output files.
#[derive(Drop)]
pub(crate) struct Outputs {
    pub(crate) json: Option<Output>,
    pub(crate) html: Option<Output>,
    pub(crate) junit: Option<Output>,
}

/// Opens a file in the place of a standard stream, if the stream is closed. The file is read-only, so it cannot be
/// written either.
fn stand_in(rt: &HostRuntime, stream: &str) -> Option<File> {
    match fs::metadata(rt, stream) {
        Ok(_) => None,
        Err(_) => fs::open(rt, "/dev/null").ok(),
    }
}

/// Opens files in the place of the standard streams that are closed. While they are open, no other file is taken for a
/// stream.
pub(crate) fn stand_ins(rt: &HostRuntime) -> [Option<File>; 3] {
    [
        stand_in(rt, INPUT),
        stand_in(rt, PRINTED),
        stand_in(rt, FAULTS),
    ]
}

/// Returns whether a standard stream is the plain file with this path. A terminal does not count: a stream and an
/// output may share it.
fn is_stream(rt: &HostRuntime, stream: &str, path: &str) -> bool {
    is_plain(rt, stream) && is_same(rt, stream, path)
}

/// Returns whether an input is read from the file `path`.
pub(crate) fn is_input(rt: &HostRuntime, input: &str, path: &str) -> bool {
    match input {
        DASH => is_stream(rt, INPUT, path),
        _ => is_same(rt, input, path),
    }
}

/// Returns an input that is read from the file `path`, with the path of the standard input for `-`.
fn input_of<'a>(rt: &HostRuntime, inputs: &[&'a str], path: &str) -> Option<&'a str> {
    for input in inputs {
        if is_input(rt, *input, path) {
            return Some(if *input == DASH { INPUT } else { *input });
        }
    }
    None
}

/// Returns the path of an input, or of an earlier output in `written`, that is the file `path`.
fn taken_by<'a>(
    rt: &HostRuntime,
    test: &Test<'a>,
    written: &[Option<&'a str>],
    path: &str,
) -> Option<&'a str> {
    for inputs in [&test.traces, &test.tables] {
        if let Some(input) = input_of(rt, inputs, path) {
            return Some(input);
        }
    }
    for other in written {
        if let Some(other) = other {
            if is_same(rt, *other, path) {
                return Some(*other);
            }
        }
    }
    if is_stream(rt, PRINTED, path) {
        return Some(PRINTED);
    }
    None
}

/// Returns what else the file `output` of a record is: the file `input`, which is read, or a standard stream. None if
/// it is neither.
pub(crate) fn other_use(rt: &HostRuntime, input: &str, output: &str) -> Option<&'static str> {
    if is_input(rt, input, output) {
        Some("a file to read")
    } else if is_stream(rt, PRINTED, output) {
        Some("standard output")
    } else if is_stream(rt, FAULTS, output) {
        Some("standard error")
    } else {
        None
    }
}

/// Reports on standard error that a file is not written, because it is the file `other`.
fn report_overwritten(rt: &HostRuntime, path: &str, other: &str) {
    let _ = eprint!(rt;
        "error: {path} is given for two outputs, or is an output and a file to read"
    );
    if path != other {
        let _ = eprint!(rt; "; it is also {other}");
    }
    let _ = eprintln!(rt; "");
}

/// Returns whether an output file is an input file or another output file. Standard error says which.
fn is_overwritten(rt: &HostRuntime, test: &Test) -> bool {
    let written = [test.json, test.junit, test.html];
    for (number, path) in written.iter().enumerate() {
        let Some(path) = path else {
            continue;
        };
        if let Some(other) = taken_by(rt, test, &written[..number], *path) {
            report_overwritten(rt, *path, other);
            return true;
        }
    }
    false
}

/// Puts `text` in place of what a file holds, if it was opened.
fn begin_output(
    rt: &HostRuntime,
    opened: Result<Option<Output>, Stop>,
    text: &str,
) -> Result<Option<Output>, Stop> {
    Output::begin(rt, opened?, text)
}

impl Outputs {
    /// Opens the output files and empties all that could be opened, if each is a separate file. That of JUnit XML then
    /// says that the run did not end. Two paths of one missing file look different, so this is checked again when all
    /// files exist. If this fails, standard error says why.
    pub(crate) fn open(rt: &HostRuntime, test: &Test) -> Result<Outputs, Stop> {
        if is_overwritten(rt, test) {
            return Err(Stop::Write);
        }
        let json = Output::open(rt, test.json);
        let html = Output::open(rt, test.html);
        let junit = Output::open(rt, test.junit);
        if is_overwritten(rt, test) {
            return Err(Stop::Write);
        }
        let json = begin_output(rt, json, "");
        let html = begin_output(rt, html, "");
        let junit = begin_output(rt, junit, NOT_ENDED);
        Ok(Outputs {
            json: json?,
            html: html?,
            junit: junit?,
        })
    }
}
