//! The subcommand `pack`: a record of lines of hexadecimal digits.

use crate::hint;
use crate::opening::{DASH, WRONG_WORDS, file_path};
use crate::outputs::{other_use, stand_ins};
use crate::source::Source;
use crate::writing::Output;
use std::alloc::Global;
use std::fs;
use tcap_ber::{Counted, Write};
use tcap_diagnostics::{FaultWriter, FirstOctets, LineReader, Role, write_rule};
use tcap_lines::{MEMORY_LINE, Status, WriteFailed, run_pack};
use tcap_report::Stop;

/// Makes a record of lines. After the fault of a line, writes to `faults` the rule that the line breaks.
pub(crate) fn make_record<W: Write, F: Write + Drop>(
    alloc: Global,
    path: Option<&str>,
    reader: FirstOctets<Source>,
    writer: &mut W,
    faults: F,
) -> Result<Status, WriteFailed> {
    let mut kept = LineReader::new(alloc, reader);
    let mut returned = FaultWriter::new(faults);
    let status = run_pack(alloc, &mut kept, writer, &mut returned)?;
    if status == Status::Fault {
        write_rule(alloc, &kept, &mut returned)?;
    }
    hint(status, Role::Lines, path, kept.inner(), &mut returned)
}

/// Removes the plain file to which this path leads, through any links, after it could not be written. A device stays.
/// If the file can't be removed, standard error says that a part of the record is left.
fn remove(rt: &HostRuntime, path: &str) {
    let Ok(real) = fs::canonicalize(rt, path) else {
        return;
    };
    match fs::metadata(rt, &real) {
        Ok(found) if found.is_file() => {
            if fs::remove_file(rt, &real).is_err() {
                let _ = eprintln!(rt; "error: {path}: a part of the record is left");
            }
        }
        _ => {}
    }
}

/// Writes a record to an open file, which is emptied first. If this fails, standard error says why.
fn fill(rt: &HostRuntime, file: Output, record: &[u8]) -> Result<(), Stop> {
    let Some(mut file) = Output::begin(rt, Some(file), "")? else {
        return Ok(());
    };
    // `finish` reports the failure of a write.
    let _ = file.write_all(record);
    Output::finish(rt, Some(file))
}

/// Writes a record to the file with this path. If the file can't be opened, it stays as it is; if it can't be written,
/// it is removed. Standard error then says why.
fn store(rt: &HostRuntime, path: &str, record: &[u8]) -> Result<(), Stop> {
    let Some(file) = Output::open(rt, Some(path))? else {
        return Ok(());
    };
    let ended = fill(rt, file, record);
    if ended.is_err() {
        remove(rt, path);
    }
    ended
}

/// Returns the exit status of `pack -o`, given how its last step ended.
fn status(rt: &HostRuntime, ended: Result<(), Stop>) -> u8 {
    match ended {
        Ok(()) => Status::Fine.number(),
        Err(Stop::Memory) => {
            let _ = eprint!(rt; "{MEMORY_LINE}");
            Status::Fault.number()
        }
        Err(Stop::Write) => Status::Fault.number(),
    }
}

/// Makes a record in the file `output` of the lines in the file `path`, or on the standard input. Returns the exit
/// status. The file is opened only if no line has a fault. It may be none of the files that are read, and no standard
/// stream.
pub(crate) fn pack_into(rt: &HostRuntime, path: Option<&str>, output: &str) -> u8 {
    if output == DASH {
        let _ = eprintln!(rt; "error: -o takes the path of a file");
        return WRONG_WORDS;
    }
    let _held = stand_ins(rt);
    let input = path.unwrap_or(DASH);
    if let Some(other) = other_use(rt, input, output) {
        let _ = eprintln!(rt; "error: {output} is both the record to write and {other}");
        return Status::Fault.number();
    }
    let source = Source::noted(rt, input);
    let mut record = Counted::new(Vec::new(rt.alloc()));
    let faults = Counted::new(rt.stderr());
    match make_record(rt.alloc(), file_path(input), source, &mut record, faults) {
        Ok(Status::Fine) => status(rt, store(rt, output, &record.into_inner())),
        Err(_) if record.failures() > 0 => status(rt, Err(Stop::Memory)),
        _ => Status::Fault.number(),
    }
}
