//! Input files, and hints on files that were given by mistake.

use crate::source::Source;
use std::fs;
use std::fs::Metadata;
use std::os::unix::fs::MetadataExt;
use tcap_ber::{Counted, Read};
use tcap_diagnostics::{FaultWriter, FirstOctets, Role, write_code_hints, write_hint};
use tcap_lines::{Status, WriteFailed};

/// The path by which an input is the standard input.
pub(crate) const DASH: &str = "-";

/// The exit status for a wrong command line.
pub(crate) const WRONG_WORDS: u8 = 4;

/// The number of octets of a file that a hint looks at.
const LOOKED_AT: usize = 512;

/// Returns whether a path is that of a directory.
pub(crate) fn is_folder(rt: &HostRuntime, path: &str) -> bool {
    match fs::metadata(rt, path) {
        Ok(found) => found.is_dir(),
        Err(_) => false,
    }
}

/// Returns whether a path is that of a plain file, which can be read without waiting.
pub(crate) fn is_plain(rt: &HostRuntime, path: &str) -> bool {
    match fs::metadata(rt, path) {
        Ok(found) => found.is_file(),
        Err(_) => false,
    }
}

/// Returns whether several inputs are the standard input. If so, standard error names the first two. `names` are the
/// words of the help for the inputs, and `inputs` the paths of each.
pub(crate) fn is_read_twice(rt: &HostRuntime, names: &[&str], inputs: &[&[&str]]) -> bool {
    let mut first = None;
    for (name, paths) in names.iter().zip(inputs) {
        for path in *paths {
            if *path != DASH {
                continue;
            }
            let Some(first) = first else {
                first = Some(*name);
                continue;
            };
            let _ = eprintln!(rt;
                "error: - is given for {first}, and again for {name}; the standard input can be read once"
            );
            return true;
        }
    }
    false
}

/// Returns the words that name an input in a fault.
pub(crate) fn display_name<'a>(path: &'a str) -> &'a str {
    match path {
        DASH => "the standard input",
        _ => path,
    }
}

/// Returns the path of an input, or None if it is the standard input.
pub(crate) fn file_path<'a>(path: &'a str) -> Option<&'a str> {
    match path {
        DASH => None,
        _ => Some(path),
    }
}

/// Returns whether these are one file: the same device and inode.
fn is_one(one: &Metadata, other: &Metadata) -> bool {
    one.dev() == other.dev() && one.ino() == other.ino()
}

/// Returns whether two paths lead to one file, through any links.
pub(crate) fn is_same(rt: &HostRuntime, one: &str, other: &str) -> bool {
    if one == other {
        return true;
    }
    match (fs::metadata(rt, one), fs::metadata(rt, other)) {
        (Ok(one), Ok(other)) => is_one(&one, &other),
        _ => false,
    }
}

/// Writes on standard error, after a fault, what the file with this path looks like, if that does not fit its role. If
/// nothing of a plain file was read yet, reads its first octets.
pub(crate) fn hint_on(rt: &HostRuntime, role: Role, path: &str, reader: &mut FirstOctets<Source>) {
    if reader.first().is_empty() && path != DASH && is_plain(rt, path) {
        let mut piece = [0; LOOKED_AT];
        let _ = reader.read(&mut piece);
    }
    hint_on_text(rt, role, path, reader.first());
}

/// The hint on a record with too many entries.
const TOO_MANY: &str =
    "this record has over 100,000 entries; `tcapjudge test` judges the dialogues of a trace of any length";

/// Writes hints on the record with this path on standard error, after a fault: what the file looks like, if it does not
/// look like a record; and which command judges it, if the fault that `printed` took is that of too many entries.
pub(crate) fn hint_on_record<W>(
    rt: &HostRuntime,
    path: &str,
    reader: &mut FirstOctets<Source>,
    printed: &FaultWriter<W>,
) {
    hint_on(rt, Role::Record, path, reader);
    if printed.is_too_many() {
        let _ = match file_path(path) {
            Some(path) => eprintln!(rt; "  hint: {path}: {TOO_MANY}"),
            None => eprintln!(rt; "  hint: {TOO_MANY}"),
        };
    }
}

/// Writes on standard error what a file that begins with these octets looks like, if that does not fit its role.
pub(crate) fn hint_on_text(rt: &HostRuntime, role: Role, path: &str, octets: &[u8]) {
    let mut faults = Counted::new(rt.stderr());
    let _ = write_hint(role, file_path(path), octets, &mut faults);
}

/// Writes hints on the codes of the table with this path to standard error.
pub(crate) fn hint_on_codes(rt: &HostRuntime, path: &str, table: &[u8]) {
    let mut faults = Counted::new(rt.stderr());
    let _ = write_code_hints(rt.alloc(), display_name(path), table, &mut faults);
}

/// Returns whether a run ended with a fault.
pub(crate) fn is_fault(ended: &Result<Status, WriteFailed>) -> bool {
    matches!(ended, Ok(Status::Fault))
}

/// Returns the exit status of a run.
pub(crate) fn status_of(ended: Result<Status, WriteFailed>) -> u8 {
    match ended {
        Ok(status) => status.number(),
        Err(_) => Status::Fault.number(),
    }
}
