//! The messages of a dialogue, as JSON objects.

use crate::doubt_words::{comment_of, line_of};
use crate::grounds::Grounds;
use crate::listed_entries::{is_near, last_listed};
use std::alloc::{AllocError, Global};
use tcap_fault_words::push_no_message;
use tcap_page::{push_entry, push_named, push_octets};
use tcap_record::{Body, Entry};
use tcap_traces::{Case, JudgedDialogue};

/// The number of entries listed at the beginning of a dialogue, and (`BEFORE`) before the last one at fault.
const FIRST: usize = 16;

const BEFORE: usize = 63;

/// Returns the octets of an entry. None for a quiet mark.
fn octets_of(case: &Case, number: usize) -> Option<&[u8]> {
    Some(case.entries.get(number)?.octets.as_slice())
}

/// Appends the object of an entry.
fn push_message(
    alloc: Global,
    json: &mut String,
    case: &Case,
    judged: &JudgedDialogue,
    number: usize,
    entry: &Entry,
) -> Result<(), AllocError> {
    let comment = comment_of(alloc, case, number as u64)?;
    let mut fault = String::new(alloc);
    if let Body::Bad(found) = &entry.body {
        push_no_message(&mut fault, *found)?;
    }
    push_entry(alloc, json, number, entry, &fault, judged.table)?;
    let line = line_of(case, number as u64);
    write!(json, ",\"line\":{line}")?;
    if !comment.is_empty() {
        push_named(json, "comment", &comment)?;
    }
    if let Some(octets) = octets_of(case, number) {
        push_octets(json, "octets", octets)?;
    }
    json.push_str("}")
}

/// Returns how many entries a dialogue has, with the quiet mark that ends it.
fn count_of(case: &Case) -> usize {
    let marks = if case.is_marked() { 1 } else { 0 };
    case.entries.len().saturating_add(marks)
}

/// Appends the messages of a dialogue, and how many entries are left out, if any. Of a long dialogue, the messages are
/// the first ones, those that the evidence names, and those up to the last one at fault.
pub(crate) fn push_messages(
    alloc: Global,
    json: &mut String,
    case: &Case,
    judged: &JudgedDialogue,
    grounds: &Grounds,
) -> Result<(), AllocError> {
    let named = grounds.named(alloc, judged)?;
    let last = last_listed(judged);
    let mut listed = 0;
    json.push_str(",\"messages\":[")?;
    for (number, entry) in judged.record.entries.iter().enumerate() {
        if is_near(number, FIRST, BEFORE, last) || named.contains(&(number as u64)) {
            json.push_str(if listed == 0 { "" } else { "," })?;
            push_message(alloc, json, case, judged, number, entry)?;
            listed = usize::saturating_add(listed, 1);
        }
    }
    json.push_str("]")?;
    let left_out = count_of(case).saturating_sub(listed);
    if left_out == 0 {
        return Ok(());
    }
    write!(json, ",\"left_out\":{left_out}")
}
