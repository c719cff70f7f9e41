//! Looks at messages: reads, shows, writes, cuts, edits and refuses them.

use crate::answers::{encoded_again, is_answered, lent_again, lines_of, viewed};
use crate::elements::{is_walked_in_pieces, needs_at_each};
use crate::octets::text_of;
use crate::parts::has_parts;
use std::alloc::Global;
use tcap_msg::{EncodeFault, MessageParts, decode, encode, view};
use tcap_vectors::{Failing, VECTORS, octets_of};

/// Returns whether `encode` writes these octets for the message, whether `decode` gives it, or it is made from the
/// view of the octets or from its own view.
fn is_written(alloc: Global, octets: &[u8], wanted: &[u8]) -> Option<bool> {
    let (of_view, of_lent) = lent_again(alloc, octets)?;
    Some(
        of_view.as_slice() == wanted
            && of_lent.as_slice() == wanted
            && encoded_again(alloc, octets)?.as_slice() == wanted,
    )
}

/// Returns whether `encode` reports that the writer failed after it took exactly the first `count` of these octets.
fn fails_at(alloc: Global, octets: &[u8], wanted: &[u8], count: usize) -> Option<bool> {
    let (message, _) = decode(alloc, octets).ok()?;
    let mut writer = Failing::new(Vec::new(alloc), count);
    let answer = encode(&message, &mut writer);
    drop(message);
    let taken = writer.into_inner();
    Some(answer == Err(EncodeFault::Write) && wanted.get(..count) == Some(taken.as_slice()))
}

/// Returns whether each proper prefix of the octets is refused as cut, at its end, and the writer of `wanted` may
/// fail after each octet.
fn is_cut_at_each(alloc: Global, octets: &[u8], wanted: &[u8]) -> Option<bool> {
    for count in 0..octets.len() {
        if !is_answered(alloc, octets.get(..count)?, Err((1, count as u64)))? {
            return Some(false);
        }
    }
    for count in 0..wanted.len() {
        if !fails_at(alloc, octets, wanted, count)? {
            return Some(false);
        }
    }
    Some(true)
}

/// Looks at a row of `messages`. The octets are also read with other octets after them.
pub(crate) fn is_message(alloc: Global, octets: &[u8], wanted: &str, lines: &str) -> Option<bool> {
    let wanted = octets_of(alloc, wanted)?;
    let mut more = octets.to_vec(alloc).ok()?;
    more.extend_from_slice(&[0, 0, 0x62, 0x80]).ok()?;
    let shown = lines_of(alloc, octets)?;
    Some(
        is_answered(alloc, octets, Ok(octets.len()))?
            && is_answered(alloc, &more, Ok(octets.len()))?
            && shown == lines_of(alloc, &wanted)?
            && (lines == "-" || shown.as_slice() == text_of(alloc, lines)?.as_bytes())
            && is_written(alloc, octets, &wanted)?
            && is_cut_at_each(alloc, octets, &wanted)?
            && needs_at_each(octets)
            && is_walked_in_pieces(alloc, octets)?,
    )
}

/// Looks at a row of `vectors`. The padded vector is written as another vector.
pub(crate) fn are_vectors(alloc: Global, wanted: &str) -> Option<bool> {
    let mut count = 0_usize;
    for vector in VECTORS.lines() {
        if vector.is_empty() {
            continue;
        }
        let columns: Vec<&str> = vector.split(';').collect(alloc).ok()?;
        let [name, digits, parts, lines] = columns.as_slice() else {
            return None;
        };
        let written = if *name == "padded_begin" {
            "begin_with_invoke"
        } else {
            digits
        };
        let octets = octets_of(alloc, digits)?;
        if !is_message(alloc, &octets, written, lines)? || !has_parts(alloc, &octets, parts)? {
            return Some(false);
        }
        count = count.saturating_add(1);
    }
    Some(count == wanted.parse::<usize>().ok()?)
}

/// Looks at a row of `long messages`.
pub(crate) fn is_long_message(
    alloc: Global,
    octets: &[u8],
    wanted: &str,
    components: &str,
) -> Option<bool> {
    let components = components.parse::<usize>().ok()?;
    let (message, _) = view(octets).ok()?;
    Some(
        is_answered(alloc, octets, Ok(octets.len()))?
            && message.count() == components
            && message.components().count() == components
            && encoded_again(alloc, octets)? == octets_of(alloc, wanted)?,
    )
}

/// Looks at a row of `refused`.
pub(crate) fn is_refused(alloc: Global, octets: &[u8], fault: (u8, u64)) -> Option<bool> {
    Some(is_answered(alloc, octets, Err(fault))? && is_walked_in_pieces(alloc, octets)?)
}

/// Returns whether `view` and `decode` give the same answer. If it is a message, the octets that are written of it
/// must give the same message again, with the same lines.
fn is_same_again(alloc: Global, octets: &[u8]) -> Option<bool> {
    let answer = viewed(octets);
    if !is_answered(alloc, octets, answer)? {
        return Some(false);
    }
    let Ok(len) = answer else {
        return Some(true);
    };
    let octets = octets.get(..len)?;
    let once = encoded_again(alloc, octets)?;
    Some(
        once == encoded_again(alloc, &once)? && lines_of(alloc, octets)? == lines_of(alloc, &once)?,
    )
}

/// Looks at a row of `edited`.
pub(crate) fn is_edited(alloc: Global, octets: &[u8]) -> Option<bool> {
    let mut edited = octets.to_vec(alloc).ok()?;
    for (place, octet) in octets.iter().enumerate() {
        for value in 0..=255_u8 {
            *edited.get_mut(place)? = value;
            if !is_same_again(alloc, &edited)? {
                return Some(false);
            }
        }
        *edited.get_mut(place)? = *octet;
    }
    Some(true)
}
