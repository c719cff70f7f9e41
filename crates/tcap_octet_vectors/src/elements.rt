//! Looks at elements: at the front of octets, and walked in pieces.

use crate::octets::fault_of;
use std::alloc::Global;
use tcap_ber::{Outer, Walk, outer};

/// The greatest count of octets for which an element is cut at each octet, and walked in small pieces.
const SHORT: usize = 1_000;

/// Returns whether each proper prefix of the octets needs more octets, but no more than there are.
pub(crate) fn needs_at_each(octets: &[u8]) -> bool {
    for count in 0..octets.len() {
        let Some(cut) = octets.get(..count) else {
            return false;
        };
        let is_needed = match outer(cut) {
            Ok(Outer::Need(least)) => count < least && least <= octets.len(),
            _ => false,
        };
        if !is_needed {
            return false;
        }
    }
    true
}

/// Returns whether a walk over the octets, in pieces of this size with an empty piece after each, answers as `outer`
/// does for the octets so far.
fn is_walked(octets: &[u8], size: usize) -> bool {
    let mut walk = Walk::new();
    let mut count = 0_usize;
    // There are as many pieces as octets, or fewer.
    for _ in octets {
        let end = octets.len().min(count.saturating_add(size));
        let Some(piece) = octets.get(count..end) else {
            return false;
        };
        let Some(taken) = octets.get(..end) else {
            return false;
        };
        let wanted = outer(taken);
        if walk.go_on(piece) != wanted || walk.go_on(&[]) != wanted {
            return false;
        }
        if end == octets.len() {
            return true;
        }
        count = end;
    }
    octets.is_empty()
}

/// Returns whether the octets are walked like this in pieces of several sizes, alone and with other octets after
/// them.
pub(crate) fn is_walked_in_pieces(alloc: Global, octets: &[u8]) -> Option<bool> {
    let mut more = octets.to_vec(alloc).ok()?;
    more.extend_from_slice(&[0, 0, 0x30, 0x80, 0xFF, 0, 0])
        .ok()?;
    for size in [1, 2, 3, 7, 10_000] {
        let is_tried = octets.len() <= SHORT || size == 10_000;
        if is_tried && !(is_walked(octets, size) && is_walked(&more, size)) {
            return Some(false);
        }
    }
    Some(true)
}

/// Returns whether `outer` gives the answer of the row: a whole element of all octets, a fault, or a need for more.
fn is_begun(octets: &[u8], wanted: &[&str]) -> Option<bool> {
    let found = outer(octets);
    match wanted {
        ["whole"] => Some(
            found == Ok(Outer::Whole(octets.len()))
                && (octets.len() > SHORT || needs_at_each(octets)),
        ),
        ["need"] => Some(matches!(found, Ok(Outer::Need(_)))),
        ["faulty" | "faulty at its end", number, place] => {
            let fault = found.err()?;
            Some((fault.reason.number(), fault.place) == fault_of(number, place)?)
        }
        _ => None,
    }
}

/// Looks at a row of `elements`. Octets after a whole element or a fault must not change the answer.
pub(crate) fn is_element(alloc: Global, octets: &[u8], wanted: &[&str]) -> Option<bool> {
    let mut more = octets.to_vec(alloc).ok()?;
    more.extend_from_slice(&[0, 0, 0x30, 0x80, 0xFF]).ok()?;
    let is_kept = matches!(wanted, ["need"]) || outer(&more) == outer(octets);
    let is_cut = match (wanted, octets) {
        (["faulty at its end", ..], [cut @ .., _]) => matches!(outer(cut), Ok(Outer::Need(_))),
        _ => true,
    };
    Some(is_begun(octets, wanted)? && is_cut && is_kept && is_walked_in_pieces(alloc, octets)?)
}
