//! Splits a record into its dialogues, each as a separate record.

use crate::record::Made;
use std::alloc::{AllocError, Global};
use tcap_dialogues::{Cut, HeadingView, Reuse, read_heading};
use tcap_record::End;

/// Reads the tag and the transaction IDs of an entry.
fn heading_of(entry: &[u8]) -> HeadingView<'_> {
    match entry {
        [b'B', element @ ..] => read_heading(End::B, element),
        [_, element @ ..] => read_heading(End::A, element),
        [] => read_heading(End::A, entry),
    }
}

/// Returns the octets of each dialogue of a record in which each transaction ID is used once. Fails if memory runs
/// out.
pub(crate) fn dialogues_of(alloc: Global, made: &Made) -> Result<Vec<Vec<u8>>, AllocError> {
    let entries = made.entries(alloc)?;
    let mut cut = Cut::new(alloc, Reuse::Once);
    let mut found = Vec::new(alloc);
    for entry in &entries {
        cut.take(heading_of(entry), &mut found)?;
    }
    cut.finish(&mut found)?;
    let mut records = Vec::new(alloc);
    for dialogue in &found {
        let mut octets = Vec::new(alloc);
        for number in &dialogue.numbers {
            if let Some(entry) = entries.get(*number as usize) {
                octets.extend_from_slice(entry)?;
            }
        }
        records.push(octets)?;
    }
    Ok(records)
}
