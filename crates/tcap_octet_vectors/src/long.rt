//! Looks at records with the greatest count of entries and more, and at how far a reader is read.

use crate::octets::{fault_of, text_of};
use std::alloc::Global;
use tcap_ber::Counted;
use tcap_lines::run_show;
use tcap_record::{Feeder, PIECE_LEN, read_record};
use tcap_vectors::Failing;

/// A count of octets that no writer reaches.
const NEVER: usize = 1_000_000_000;

/// The result of reading a record: the count of entries, the number and the place of the fault, and the count of
/// octets left.
type Reading = (Option<usize>, Option<(u8, u64)>, usize);

/// Returns the result of `read_record`, which gives no entries for a faulty record.
fn read(alloc: Global, octets: &[u8]) -> Reading {
    let mut reader = Counted::new(octets);
    let answer = read_record(alloc, &mut reader);
    let left = reader.into_inner().len();
    match answer {
        Ok(record) => {
            let count = record.entries.len();
            drop(record);
            (Some(count), None, left)
        }
        Err(fault) => (None, Some((fault.reason.number(), fault.place)), left),
    }
}

/// Feeds all octets at once. Returns the count of entries that the feeder has then, and its fault.
fn fed(alloc: Global, octets: &[u8]) -> (usize, Option<(u8, u64)>) {
    let mut feeder = Feeder::new(alloc);
    let fault = match feeder.feed(octets) {
        Ok(()) => None,
        Err(fault) => Some((fault.reason.number(), fault.place)),
    };
    let mut count = 0_usize;
    for _ in octets {
        let entry = feeder.take();
        if entry.is_none() {
            break;
        }
        drop(entry);
        count = count.saturating_add(1);
    }
    drop(feeder);
    (count, fault)
}

/// Shows a record to a writer that fails after this many octets. Returns the printed octets, the number of the
/// status, and the count of octets left.
fn show(alloc: Global, octets: &[u8], after: usize) -> (Vec<u8>, Option<u8>, usize) {
    let mut reader = Counted::new(octets);
    let mut writer = Failing::new(Vec::new(alloc), after);
    let status = match run_show(alloc, &mut reader, &mut writer) {
        Ok(status) => Some(status.number()),
        Err(_) => None,
    };
    (writer.into_inner(), status, reader.into_inner().len())
}

/// Looks at a row of `long records`. Each entry has one line. If the writer fails at once, only one piece is read.
pub(crate) fn is_long_record(alloc: Global, octets: &[u8], columns: &[&str]) -> Option<bool> {
    let [count, last, number, place, left] = columns else {
        return None;
    };
    let count = count.parse::<usize>().ok()?;
    let left = left.parse::<usize>().ok()?;
    let last = text_of(alloc, last)?;
    let fault = if *number == "-" {
        None
    } else {
        Some(fault_of(number, place)?)
    };
    let (printed, status, left_by_show) = show(alloc, octets, NEVER);
    let ends = printed.iter().filter(|octet| **octet == b'\n').count();
    let entries = if fault.is_none() { Some(count) } else { None };
    let lines = count.checked_add(usize::from(fault.is_some()))?;
    let wanted_status = if last.contains("FAULT") { 3 } else { 0 };
    let unread = octets.len().saturating_sub(PIECE_LEN);
    Some(
        read(alloc, octets) == (entries, fault, left)
            && fed(alloc, octets) == (count, fault)
            && ends == lines
            && printed.ends_with(last.as_bytes())
            && status == Some(wanted_status)
            && left_by_show == left
            && show(alloc, octets, 0) == (Vec::new(alloc), None, unread),
    )
}
