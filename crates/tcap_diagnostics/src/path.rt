//! The path of parts to an offset in a message.

use crate::parts::{Holder, PartInfo, needed_at, part_at};
use std::alloc::{AllocError, Global};
use tcap_ber::{Window, next_tlv};

/// The most parts of a path: those of a message, and the open elements of a parameter.
const PATH_LIMIT: usize = 64;

/// An element, which may be cut off.
#[derive(Clone, Copy, Debug)]
struct Element<'a> {
    /// The first octet of its tag.
    tag: u8,
    /// The offset after the element.
    end: u64,
    /// The content, as far as it is there.
    content: Window<'a>,
    /// The octets after the element.
    behind: Window<'a>,
}

/// The elements that a part holds.
#[derive(Clone, Copy)]
struct Level<'a> {
    holder: Holder,
    window: Window<'a>,
}

/// The part of a level that contains an offset.
#[derive(Clone, Copy)]
struct Found<'a> {
    /// The name of the element with the offset, and the level in it, if it holds one.
    element: Option<(&'static str, Option<Level<'a>>)>,
    /// The name of the part that is missing at the offset, if the offset is the end of the level.
    missing: Option<&'static str>,
}

/// Returns the number of octets of the tag at the front.
fn tag_len(octets: &[u8]) -> Option<usize> {
    let [first, more @ ..] = octets else {
        return None;
    };
    if first & 0x1F != 0x1F {
        return Some(1);
    }
    let last = more.iter().take(4).position(|octet| *octet < 0x80)?;
    Some(last.saturating_add(2))
}

/// Returns the number of octets of the tag and the length at the front.
fn header_len(octets: &[u8]) -> Option<usize> {
    let tag_len = tag_len(octets)?;
    match octets.get(tag_len) {
        Some(length) if *length <= 0x80 => Some(tag_len.saturating_add(1)),
        Some(length) if *length <= 0x84 => {
            Some(tag_len.saturating_add(1 + (*length as usize - 0x80)))
        }
        _ => None,
    }
}

/// Returns the element at the front of a window, even if it is cut off. None if the window is empty.
fn element_at(window: Window) -> Option<Element> {
    let [tag, ..] = window.octets else {
        return None;
    };
    let tag = *tag;
    if let Ok((found, behind)) = next_tlv(window) {
        return Some(Element {
            tag,
            end: behind.place,
            content: found.content,
            behind,
        });
    }
    let all = window.octets.len();
    let behind = window.behind(all);
    let len = header_len(window.octets).unwrap_or(all).min(all);
    Some(Element {
        tag,
        end: behind.place,
        content: window.behind(len),
        behind,
    })
}

/// Returns the name of an element and, if the offset is in its content, the level in it. `part` is its part in its
/// level.
fn named_in<'a>(
    part: Option<PartInfo>,
    element: Element<'a>,
    place: u64,
) -> Option<(&'static str, Option<Level<'a>>)> {
    let named = part?;
    let goes_in = named.inside != Holder::Nothing
        && element.tag & 0x20 != 0
        && place >= element.content.place;
    let inner = Level {
        holder: named.inside,
        window: element.content,
    };
    Some((named.name, if goes_in { Some(inner) } else { None }))
}

/// Returns the name of the part that is missing after part `next`, if this is the end of the holder.
fn missing_at(holder: Holder, next: u8, is_end: bool) -> Option<&'static str> {
    if is_end {
        needed_at(holder, next)
    } else {
        None
    }
}

/// Returns the element of a level that contains the offset `place`. If an element is missing there, this is the element
/// that ends there.
fn find_in(level: Level, place: u64, is_missing: bool) -> Found {
    let mut rest = level.window;
    let mut next = 0;
    for _ in 0..level.window.octets.len() {
        let Some(element) = element_at(rest) else {
            break;
        };
        let part = part_at(level.holder, next, element.tag);
        let behind = part.map_or(next, |named| named.next);
        if place < element.end || (is_missing && place == element.end) {
            let is_end = is_missing && place == element.end && element.behind.octets.is_empty();
            return Found {
                element: named_in(part, element, place),
                missing: missing_at(level.holder, behind, is_end),
            };
        }
        next = behind;
        rest = element.behind;
    }
    Found {
        element: None,
        missing: missing_at(level.holder, next, is_missing && rest.octets.is_empty()),
    }
}

/// Returns the names of the parts that contain the octet at offset `place`, from the outermost to the innermost. If an
/// element is missing there, its name is the last. `AllocError` if memory runs out.
pub(crate) fn path_to(
    alloc: Global,
    octets: &[u8],
    place: u64,
    is_missing: bool,
) -> Result<Vec<&'static str>, AllocError> {
    let mut names = Vec::new(alloc);
    let mut missing = None;
    let mut level = Level {
        holder: Holder::Whole,
        window: Window::new(octets),
    };
    for _ in 0..PATH_LIMIT {
        let found = find_in(level, place, is_missing);
        if let Some(name) = found.missing {
            missing = Some((names.len(), name));
        }
        let Some((name, inside)) = found.element else {
            break;
        };
        names.push(name)?;
        let Some(inner) = inside else {
            break;
        };
        level = inner;
    }
    if let Some((len, name)) = missing {
        names.truncate(len);
        names.push(name)?;
    }
    Ok(names)
}
