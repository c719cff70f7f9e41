//! Reads the columns of rows: texts and faults.

use std::alloc::Global;

/// Returns the text of a column, in which `\n` is the end of a line.
pub(crate) fn text_of(alloc: Global, column: &str) -> Option<String> {
    let mut text = String::new(alloc);
    for (index, part) in column.split("\\n").enumerate() {
        text.push_str(if index == 0 { "" } else { "\n" }).ok()?;
        text.push_str(part).ok()?;
    }
    Some(text)
}

/// Returns the number and the place of a fault.
pub(crate) fn fault_of(number: &str, place: &str) -> Option<(u8, u64)> {
    Some((number.parse::<u8>().ok()?, place.parse::<u64>().ok()?))
}
