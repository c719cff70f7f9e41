//! The reasons why an entry is no message, in words.

use std::alloc::{AllocError, Global};
use tcap_ber::{Counted, Fault, Outer, Reason, outer};
use tcap_diagnostics::run_why;
use tcap_fault_words::push_no_message;
use tcap_record::End;
use tcap_traces::Case;

/// The beginning of the line in which `show --why` gives the reason.
const WHY: &str = "  why: ";

/// Returns what `show --why` prints for a record.
fn shown(alloc: Global, record: &[u8]) -> Result<String, AllocError> {
    let mut printed = Counted::new(Vec::new(alloc));
    // A vector takes all octets, unless memory runs out.
    if run_why(alloc, &mut Counted::new(record), &mut printed).is_err() {
        return Err(AllocError);
    }
    String::from_utf8_lossy(alloc, &printed.into_inner())
}

/// Returns the fault of octets that end within an element, or go on after it. None for other octets.
fn length_fault(octets: &[u8]) -> Option<Fault> {
    match outer(octets) {
        Ok(Outer::Whole(len)) if len < octets.len() => Some(Fault {
            reason: Reason::Trailing,
            place: len as u64,
        }),
        Ok(Outer::Need(_)) => Some(Fault {
            reason: Reason::Cut,
            place: octets.len() as u64,
        }),
        _ => None,
    }
}

/// Appends the line in which `show --why` explains why an entry of a dialogue is no message. It has the reason, the
/// offset, the path of parts to it, the octets around it, and what can be read of the kind and the IDs. If the octets
/// are not one element, which `show` does not read, the line has the reason and the offset.
pub(crate) fn push_why(
    alloc: Global,
    text: &mut String,
    case: &Case,
    entry: u64,
) -> Result<(), AllocError> {
    let Some(held) = case.entries.get(entry as usize) else {
        return Ok(());
    };
    if let Some(fault) = length_fault(&held.octets) {
        text.push_str(WHY)?;
        push_no_message(text, fault)?;
        return text.push_str("\n");
    }
    let mut record = Vec::new(alloc);
    record.push(match held.sender {
        End::A => b'A',
        End::B => b'B',
    })?;
    record.extend_from_slice(&held.octets)?;
    let printed = shown(alloc, &record)?;
    for line in printed.lines() {
        if line.starts_with(WHY) {
            text.push_str(line)?;
            return text.push_str("\n");
        }
    }
    // The line is there for each entry that is no message, unless memory ran out.
    Err(AllocError)
}
