//! Looks at `pack` with readers and writers that fail, and at how far a reader is read.

use crate::octets::text_of;
use std::alloc::Global;
use tcap_ber::Counted;
use tcap_lines::run_pack;
use tcap_record::{FeedFault, FeedReason, PackFault, pack};
use tcap_vectors::Failing;

/// Looks at a row of `long lines`.
pub(crate) fn are_long_lines(
    alloc: Global,
    octets: &[u8],
    number: &str,
    left: usize,
) -> Option<bool> {
    let mut reader = Counted::new(octets);
    let mut writer = Counted::new(Vec::new(alloc));
    let mut faults = Counted::new(Vec::new(alloc));
    let status = run_pack(alloc, &mut reader, &mut writer, &mut faults);
    let wanted = format!(in alloc; "FAULT 24 {number}\n").ok()?;
    Some(
        status.ok()?.number() == 3
            && faults.into_inner().as_slice() == wanted.as_bytes()
            && reader.into_inner().len() == left,
    )
}

/// Looks at a row of `unwritten lines`.
pub(crate) fn are_unwritten(alloc: Global, octets: &[u8], left: usize) -> Option<bool> {
    let mut reader = Counted::new(octets);
    let answer = pack(alloc, &mut reader, &mut Failing::new(Vec::new(alloc), 0));
    let is_left = reader.into_inner().len() == left;
    let mut reader = Counted::new(octets);
    let mut writer = Failing::new(Vec::new(alloc), 0);
    let mut faults = Counted::new(Vec::new(alloc));
    let status = run_pack(alloc, &mut reader, &mut writer, &mut faults);
    Some(
        answer == Err(PackFault::Write)
            && is_left
            && status.is_err()
            && faults.into_inner().is_empty()
            && reader.into_inner().len() == left,
    )
}

/// Looks at a row of `failing packs`.
pub(crate) fn is_failing_pack(alloc: Global, lines: &str, len: usize) -> Option<bool> {
    let lines = text_of(alloc, lines)?;
    let lines = lines.as_bytes();
    let mut packed = 0_usize;
    for (count, octet) in lines.iter().enumerate() {
        let fault = FeedFault {
            reason: FeedReason::Read,
            place: count as u64,
        };
        let mut writer = Counted::new(Vec::new(alloc));
        let answer = pack(alloc, &mut Failing::new(lines, count), &mut writer);
        if answer != Err(PackFault::Fault(fault)) || writer.into_inner().len() != packed {
            return Some(false);
        }
        if *octet == b'\n' {
            packed = packed.checked_add(len)?;
        }
    }
    for count in 0..packed {
        let mut writer = Failing::new(Vec::new(alloc), count);
        if pack(alloc, &mut Counted::new(lines), &mut writer) != Err(PackFault::Write) {
            return Some(false);
        }
    }
    Some(true)
}
