//! The header of an element: its tag and its length (X.690 8.1.2, 8.1.3).

ghost use Rattle.std.specs.Prelude.{◌≡◌, ◌+◌, ◌^◌, ◌<◌, ◌≤◌, length, IfOk, IfSome};
ghost use Rattle.tcap_ber.specs.Element.{number, content_limit, header_limit};
ghost use Rattle.tcap_ber.specs.Element.{is_next};
ghost use Rattle.tcap_ber.specs.HeaderReading.{Gives, tag_at, length_at, definite_behind, is_constructed, opening_at, span};
ghost use Rattle.tcap_ber.specs.Progress.{header_octets, IsHeaderWithin};
ghost use Rattle.tcap_ber.specs.ShortHeader.{IsShort};

use crate::element::Window;
use crate::fault::{Fault, Reason};

/// The greatest content length in octets, a limit of this profile.
pub const CONTENT_LIMIT: usize = 65_535;

/// A header of definite length: octet counts of the tag, of the whole header and of the announced content.
#[derive(Clone, Copy, Debug)]
pub(crate) struct Header {
    pub(crate) tag_len: usize,
    pub(crate) len: usize,
    pub(crate) content_len: usize,
}

/// The header that an element begins with.
#[derive(Clone, Copy, Debug)]
pub(crate) enum Opening {
    /// A whole header of definite length.
    Definite(Header),
    /// A tag of this many octets and the length octet 80 (X.690 8.1.3.6).
    Indefinite(usize),
}

impl Opening {
    /// Returns the header's length in octets.
    pub(crate) fn len(self) -> usize
        requires { header_octets self < 2 ^ 64 }
        ensures { result ≡ header_octets self }
    {
        match self {
            Opening::Definite(header) => header.len,
            Opening::Indefinite(tag_len) => tag_len + 1,
        }
    }
}

/// Returns the length in octets of the tag at the front, or `None` if the octets end before the tag does (X.690 8.1.2).
/// `TagForm` at the window's offset if the tag has more than five octets.
#[tactic(auto, unfolding(crate::specs::HeaderReading::tag_at))]
fn tag_len(window: Window) -> Result<Option<usize>, Fault>
    ensures exact { Gives (λ x. x) result (tag_at (span window.entry)) }
    ensures within { IfOk result (λ found. IfSome found (λ n. n ≤ length window.entry.octets.now)) }
    ensures limit { IfOk result (λ found. IfSome found (λ n. n ≤ 5)) }
{
    match window.octets {
        [] => Ok(None),
        [first, ..] if first % 32 != 31 => Ok(Some(1)),
        [_, last, ..] if *last < 0x80 => Ok(Some(2)),
        [_, _, last, ..] if *last < 0x80 => Ok(Some(3)),
        [_, _, _, last, ..] if *last < 0x80 => Ok(Some(4)),
        [_, _, _, _, last, ..] if *last < 0x80 => Ok(Some(5)),
        [_, _, _, _, _, ..] => Err(Fault {
            reason: Reason::TagForm,
            place: window.place,
        }),
        _ => Ok(None),
    }
}

/// Returns the big-endian number of up to four octets.
fn number(octets: &[u8]) -> usize
    requires { length octets.now ≤ 4 }
    ensures { result ≡ number octets.now }
{
    match octets {
        [] => 0,
        [a] => usize::from(*a),
        [a, b] => usize::from(*a) * 256 + usize::from(*b),
        [a, b, c] => (usize::from(*a) * 256 + usize::from(*b)) * 256 + usize::from(*c),
        [a, b, c, d] => {
            ((usize::from(*a) * 256 + usize::from(*b)) * 256 + usize::from(*c)) * 256
                + usize::from(*d)
        }
        _ => unreachable!(),
    }
}

/// Reads the length at the front (X.690 8.1.3). Returns its octet count and its number, or `None` if the octets end
/// before it does. `Indefinite` or `LengthForm` at the window's offset for a first octet of 80, or above 84.
#[tactic(auto, unfolding(crate::specs::HeaderReading::length_at))]
fn length(window: Window) -> Result<Option<(usize, usize)>, Fault>
    ensures exact { Gives (λ x. x) result (length_at (span window.entry)) }
    ensures within { IfOk result (λ found. IfSome found (λ x. x.0 ≤ length window.entry.octets.now)) }
    ensures limit { IfOk result (λ found. IfSome found (λ x. (0 < x.0) × (x.0 ≤ 5))) }
{
    let Some((first, more)) = window.octets.split_first() else {
        return Ok(None);
    };
    let first = usize::from(*first);
    if first < 0x80 {
        return Ok(Some((1, first)));
    }
    let place = window.place;
    if first == 0x80 {
        return Err(Fault {
            reason: Reason::Indefinite,
            place,
        });
    }
    if first > 0x84 {
        return Err(Fault {
            reason: Reason::LengthForm,
            place,
        });
    }
    let count = first - 0x80;
    if more.len() < count {
        return Ok(None);
    }
    Ok(Some((count + 1, number(&more[..count]))))
}

/// Returns whether the first octet is `octet`.
fn is_first(octets: &[u8], octet: u8) -> bool
    ensures { result ≡ is_next octet octets.now }
{
    match octets {
        [first, ..] => *first == octet,
        [] => false,
    }
}

/// Returns whether the tag's first octet marks a constructed element (X.690 8.1.2.5).
fn is_constructed(tag: &[u8]) -> bool
    ensures { result ≡ is_constructed tag.now }
{
    match tag {
        [first, ..] => first / 32 % 2 == 1,
        [] => false,
    }
}

/// Reads the definite length after a tag of `tag_len` octets. `None` if the octets end before the length does.
///
/// `TooLong` at the tag if the length is over the limit, else the faults of [`length`] after the tag.
fn behind_tag(window: Window, tag_len: usize) -> Result<Option<Header>, Fault>
    requires within { tag_len ≤ length window.octets.now }
    requires few { tag_len ≤ 5 }
    ensures exact { Gives (λ x. x) result (definite_behind (span window.entry) tag_len) }
    ensures within { IfOk result (λ found. IfSome found (λ h. h.len ≤ length window.entry.octets.now)) }
    ensures limit { IfOk result (λ found. IfSome found
        (λ h. (h.len ≤ header_limit) × (h.len + h.content_len ≤ content_limit + header_limit))) }
    ensures tag { IfOk result (λ found. IfSome found (λ h. (h.tag_len ≡ tag_len) × (tag_len < h.len))) }
{
    let Some((length_len, content_len)) = length(window.behind(tag_len))? else {
        return Ok(None);
    };
    if content_len > CONTENT_LIMIT {
        return Err(Fault {
            reason: Reason::TooLong,
            place: window.place,
        });
    }
    Ok(Some(Header {
        tag_len,
        len: tag_len + length_len,
        content_len,
    }))
}

/// Returns the content length in a header of two octets at the front, or `None` if there is no such header (X.690
/// 8.1.2.2, 8.1.3.4). This is a fast path for short elements.
pub(crate) fn short_content(octets: &[u8]) -> Option<usize>
    ensures found { IfSome result (λ n. IsShort n octets.now) }
{
    match octets {
        [first, second, ..] if first % 32 != 31 && *second < 0x80 => Some(usize::from(*second)),
        _ => None,
    }
}

/// Reads the header at the front of `window`. `None` if the octets end before the header does. Refuses a content of
/// more than 65,535 octets, and the indefinite length of a primitive element.
#[tactic(auto, unfolding(crate::specs::HeaderReading::opening_at))]
pub(crate) fn read_opening(window: Window) -> Result<Option<Opening>, Fault>
    ensures exact { Gives (λ x. x) result (opening_at (span window.entry)) }
    ensures within { IfOk result (λ found. IfSome found (IsHeaderWithin (length window.entry.octets.now))) }
{
    let Some(tag_len) = tag_len(window)? else {
        return Ok(None);
    };
    let behind = window.behind(tag_len);
    if !is_first(behind.octets, 0x80) {
        return match behind_tag(window, tag_len)? {
            Some(header) => Ok(Some(Opening::Definite(header))),
            None => Ok(None),
        };
    }
    if is_constructed(window.octets) {
        Ok(Some(Opening::Indefinite(tag_len)))
    } else {
        Err(Fault {
            reason: Reason::Indefinite,
            place: behind.place,
        })
    }
}
