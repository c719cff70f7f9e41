//! Rows about lines of hexadecimal digits that are packed.

use std::alloc::Global;
use tcap_ber::Counted;
use tcap_lines::run_pack;
use tcap_record::{FeedFault, PackFault, pack};

/// Returns the octets of these lines, in which `|` means a line feed and `^` a carriage return.
pub(crate) fn lines_of(alloc: Global, column: &str) -> Option<Vec<u8>> {
    let mut lines = column.as_bytes().to_vec(alloc).ok()?;
    for octet in &mut lines {
        *octet = match *octet {
            b'|' => b'\n',
            b'^' => b'\r',
            other => other,
        };
    }
    Some(lines)
}

/// Returns the result of `pack` for these lines, which is a count of entries or a fault, and the octets that it writes.
fn by_library(alloc: Global, lines: &[u8]) -> Option<(String, Vec<u8>)> {
    let mut writer = Counted::new(Vec::new(alloc));
    let answer = match pack(alloc, &mut Counted::new(lines), &mut writer) {
        Ok(count) => format!(in alloc; "{count} entries").ok()?,
        Err(PackFault::Fault(FeedFault { reason, place })) => {
            let number = reason.number();
            format!(in alloc; "FAULT {number} {place}").ok()?
        }
        Err(PackFault::Write) => return None,
    };
    Some((answer, writer.into_inner()))
}

/// Returns the status of `run_pack` with the line of its fault, and the octets that it writes.
fn by_run(alloc: Global, lines: &[u8]) -> Option<(String, Vec<u8>)> {
    let mut writer = Counted::new(Vec::new(alloc));
    let mut faults = Counted::new(Vec::new(alloc));
    let status = run_pack(alloc, &mut Counted::new(lines), &mut writer, &mut faults);
    let number = status.ok()?.number();
    let fault = faults.into_inner();
    let line = str::from_utf8(&fault).ok()?.trim_end();
    let answer = format!(in alloc; "{number}: {line}").ok()?;
    Some((answer, writer.into_inner()))
}

/// Checks a row of `packed lines` or `packed octets`: what the command prints, the library's result, the octets that
/// both write, and the lines.
pub(crate) fn are_packed(
    alloc: Global,
    (run, library, digits): (&str, &str, &str),
    lines: &[u8],
) -> Option<bool> {
    let (said, octets) = by_run(alloc, lines)?;
    let (answer, again) = by_library(alloc, lines)?;
    Some(
        said.as_str() == run
            && answer.as_str() == library
            && octets == hex::decode(alloc, digits).ok()?
            && octets == again,
    )
}
