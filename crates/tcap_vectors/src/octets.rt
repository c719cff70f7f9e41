//! Octets that words spell.

use crate::vectors::vector;
use std::alloc::Global;

/// Repeats the octets from `start` on, so that they occur this many times. Returns `None` if memory runs out.
fn repeat(alloc: Global, octets: &mut Vec<u8>, start: usize, times: u32) -> Option<()> {
    let piece = octets.get(start..)?.to_vec(alloc).ok()?;
    octets.truncate(start);
    for _ in 0..times {
        octets.extend_from_slice(&piece).ok()?;
    }
    Some(())
}

/// Sets the length of the element whose content begins at `start`. Returns `None` if the content has over 127 octets.
fn close(octets: &mut Vec<u8>, start: usize) -> Option<()> {
    let len = octets.len().checked_sub(start)?;
    if len > 0x7F {
        return None;
    }
    *octets.get_mut(start.checked_sub(1)?)? = u8::try_from(len).ok()?;
    Some(())
}

/// Returns the hexadecimal digits of an end, a quiet mark or a named vector, or else the word.
fn digits_of(word: &str) -> &str {
    match word {
        "A" => "41",
        "B" => "42",
        "Q" => "51",
        _ => vector(word).unwrap_or(word),
    }
}

/// Returns the octets that the words of a column spell, or `None` if they spell none or memory runs out.
///
/// The words are:
///
/// - `A` or `B` for an end, and `Q` for a quiet mark,
/// - hexadecimal digits,
/// - the name of a vector,
/// - `xCOUNT`, which repeats the word before it,
/// - `/COUNT`, which cuts the octets to this count,
/// - `TAG(` and `)`, an element around the octets between them, at most 127.
pub fn octets_of(alloc: Global, column: &str) -> Option<Vec<u8>> {
    let mut octets = Vec::new(alloc);
    let mut opened: Vec<usize> = Vec::new(alloc);
    let mut last = 0;
    for word in column.split_whitespace() {
        if let Some(times) = word.strip_prefix('x') {
            repeat(alloc, &mut octets, last, times.parse::<u32>().ok()?)?;
            continue;
        }
        if let Some(count) = word.strip_prefix('/') {
            octets.truncate(count.parse::<usize>().ok()?);
            continue;
        }
        last = octets.len();
        if word == ")" {
            close(&mut octets, opened.pop()?)?;
        } else if let Some(tag) = word.strip_suffix('(') {
            octets
                .extend_from_slice(&hex::decode(alloc, tag).ok()?)
                .ok()?;
            octets.push(0).ok()?;
            opened.push(octets.len()).ok()?;
        } else {
            octets
                .extend_from_slice(&hex::decode(alloc, digits_of(word)).ok()?)
                .ok()?;
        }
    }
    if opened.is_empty() {
        Some(octets)
    } else {
        None
    }
}
