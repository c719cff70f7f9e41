//! Dispatches the rows by their commands.

use crate::devices::{is_device, is_failing_device};
use crate::dialogues::is_dialogue_portion;
use crate::elements::is_element;
use crate::long::is_long_record;
use crate::made::is_made;
use crate::messages::{are_vectors, is_edited, is_long_message, is_message, is_refused};
use crate::octets::fault_of;
use crate::packing::{are_long_lines, are_unwritten, is_failing_pack};
use crate::parts::has_parts;
use crate::records::{
    is_cut_record, is_failing_writer, is_faulty_record, is_fed_twice, is_held, is_record,
};
use crate::values::{are_in_order, are_limits, is_text, is_value};
use std::alloc::Global;
use tcap_vectors::octets_of;

/// Returns whether a row of this command holds; its first column is these octets.
fn holds_of(alloc: Global, command: &str, octets: &[u8], columns: &[&str]) -> Option<bool> {
    match (command, columns) {
        ("[elements]", wanted) => is_element(alloc, octets, wanted),
        ("[refused]", [number, place]) => is_refused(alloc, octets, fault_of(number, place)?),
        ("[messages]", [wanted, lines]) => is_message(alloc, octets, wanted, lines),
        ("[long messages]", [wanted, count]) => is_long_message(alloc, octets, wanted, count),
        ("[edited]", []) => is_edited(alloc, octets),
        ("[parts]", [head]) => has_parts(alloc, octets, head),
        ("[texts for debugging]", [wanted]) => is_text(alloc, octets, wanted),
        ("[records]", [lines]) => is_record(alloc, octets, lines),
        ("[faulty records]", [lines, number, place, known]) => {
            is_faulty_record(alloc, octets, lines, fault_of(number, place)?, known)
        }
        ("[cut records]", [ends]) => is_cut_record(alloc, octets, ends),
        ("[failing writers]", [lines]) => is_failing_writer(alloc, octets, lines),
        ("[held entries]", [second]) => is_held(alloc, octets, second),
        ("[entries in two feeds]", [second, lines]) => is_fed_twice(alloc, octets, second, lines),
        ("[long records]", columns) => is_long_record(alloc, octets, columns),
        ("[long lines]", [number, left]) => {
            are_long_lines(alloc, octets, number, left.parse::<usize>().ok()?)
        }
        ("[unwritten lines]", [left]) => {
            are_unwritten(alloc, octets, left.parse::<usize>().ok()?)
        }
        ("[devices]", []) => is_device(alloc, octets),
        ("[failing devices]", [count]) => {
            is_failing_device(alloc, octets, count.parse::<usize>().ok()?)
        }
        _ => None,
    }
}

/// Returns whether a row of this command holds; `None` if it can't be read, the command is unknown, or memory runs out.
pub(crate) fn holds(alloc: Global, command: &str, row: &str) -> Option<bool> {
    let columns: Vec<&str> = row.split(';').collect(alloc).ok()?;
    match (command, columns.as_slice()) {
        ("[vectors]", [count]) => are_vectors(alloc, count),
        ("[made]", columns) => is_made(alloc, columns),
        ("[dialogue portions]", [content, text, written]) => {
            is_dialogue_portion(alloc, content, text, written)
        }
        ("[values]", [kind, octets, wanted]) => is_value(alloc, kind, octets, wanted),
        ("[transaction IDs in order]", [ids]) => are_in_order(alloc, ids),
        ("[limits]", [depth, content]) => are_limits(alloc, depth, content),
        ("[failing packs]", [lines, len]) => {
            is_failing_pack(alloc, lines, len.parse::<usize>().ok()?)
        }
        (_, [octets, others @ ..]) => {
            holds_of(alloc, command, &octets_of(alloc, octets)?, others)
        }
        _ => None,
    }
}
