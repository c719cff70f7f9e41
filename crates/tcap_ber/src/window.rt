//! Reading the elements of a window one after the other.

ghost use Rattle.std.specs.Prelude.{◌≡◌, ◌+◌, ◌<◌, ◌≤◌, ◌⊎◌, ◌↔◌, ◌++◌, ◌∷◌, [], ℕ, List, length, Some, Ok, Err, IfOk, IfErr, IsOk, IsOkAnd, IsTrue, option_map};
ghost use Rattle.tcap_ber.specs.declared.element.Outer.{Outer};
ghost use Rattle.tcap_ber.specs.declared.fault.Fault.{Fault};
ghost use Rattle.tcap_ber.specs.declared.fault.Reason.{Reason};
ghost use Rattle.tcap_ber.specs.declared.header.Opening.{Opening};
ghost use Rattle.tcap_ber.specs.Element.{IsElement, content_limit, header_limit};
ghost use Rattle.tcap_ber.specs.WalkPlaces.{BeginsElement, NeedsMore, IsWalkFault};
ghost use Rattle.tcap_ber.specs.Grammar.{BeginsWith, IsMissing, IsElementFault, IsUnexpected};
ghost use Rattle.tcap_ber.specs.FrontElement.{FindsElement};
ghost use Rattle.tcap_ber.specs.Reading.{Gives, span, element, opening_at, outer_at, innermost_at, definite_at, walked_len, indefinite_at, content_so_far_at, next_at, required_at, some_at, is_next, end_at};

use crate::element::{Outer, Tag, Tlv, Window};
use crate::fault::{Fault, Reason};
use crate::header::{Header, Opening, read_opening, short_content};
use crate::innermost::innermost;
use crate::walk::Walk;

fn read_outer(octets: &[u8]) -> Result<Outer, Fault>
    ensures exact { Gives (λ x. x) result (outer_at octets.now) }
{
    match short_content(octets) {
        Some(len) if len + 2 <= octets.len() => Ok(Outer::Whole(len + 2)),
        Some(len) => Ok(Outer::Need(len + 2)),
        None => Walk::new().go_on(octets),
    }
}

/// Frames the front of `octets`: returns `Whole(n)` if an element of `n` octets begins them. Returns `Need(n)` if there
/// is no whole element and no fault yet: each element that begins with `octets` has at least `n` octets.
///
/// # Errors
///
/// The first fault that a walk over `octets` meets, with its offset in `octets`:
///
/// - `TagForm` or `TooLong` at the element's first octet (X.690 8.1.2, 8.1.3),
/// - `LengthForm` or `Indefinite` at its first length octet,
/// - the same for each element inside one of indefinite length, at its own offset, and `TooDeep` at the 33rd open one,
/// - `TooLong` at 0 if a content of indefinite length is over the limit.
pub fn outer(octets: &[u8]) -> Result<Outer, Fault>
    ensures whole { (n : ℕ) → (result ≡ Ok (Outer.Whole n)) ↔ BeginsElement octets.now n }
    ensures need { (n : ℕ) → result ≡ Ok (Outer.Need n) → NeedsMore octets.now n }
    ensures fault { (fault : Fault) → (result ≡ Err fault) ↔ IsWalkFault octets.now fault.reason fault.place }
    ensures exact { Gives (λ x. x) result (outer_at octets.now) }
{
    read_outer(octets)
}

/// Reads the element at the front of a window, given its header of definite length. `Overrun` if the window ends before
/// the element does.
#[inline(always)]
fn read_definite<'a>(window: Window<'a>, header: Header) -> Result<(Tlv<'a>, Window<'a>), Fault>
    requires tag { header.tag_len ≤ header.len }
    requires within { header.len ≤ length window.octets.now }
    requires few { header.len + header.content_len ≤ content_limit + header_limit }
    ensures exact { Gives (λ x. (element x.0, span x.1)) result (definite_at (span window.entry) header) }
{
    let len = header.len + header.content_len;
    if window.octets.len() < len {
        return Err(Fault {
            reason: Reason::Overrun,
            place: window.place,
        });
    }
    let (octets, _) = window.octets.split_at(len);
    let (tag, _) = octets.split_at(header.tag_len);
    let found = Tlv {
        tag: Tag { octets: tag },
        content: Window {
            octets: &octets[header.len..],
            place: window.place + header.len as u64,
        },
        start: window.place,
    };
    Ok((found, window.behind(len)))
}

/// Returns the length in octets of the element of indefinite length at the front, with a tag of `tag_len` octets.
/// `Overrun` at the innermost incomplete element, else the faults of [`outer`].
fn walked_len(window: Window, tag_len: usize) -> Result<usize, Fault>
    requires opening { opening_at (span window) ≡ Ok (Some (Opening.Indefinite tag_len)) }
    ensures exact { Gives (λ n. n) result (walked_len (span window.entry) (outer_at window.entry.octets.now)) }
    ensures bounds { IfOk result (λ n. (tag_len + 3 ≤ n) × (n ≤ length window.entry.octets.now)) }
{
    match outer(window.octets) {
        Ok(Outer::Whole(len)) => Ok(len),
        Ok(Outer::Need(_)) => Err(Fault {
            reason: Reason::Overrun,
            place: window.place + innermost(window.octets) as u64,
        }),
        Err(fault) => Err(Fault {
            reason: fault.reason,
            place: window.place + fault.place,
        }),
    }
}

/// Reads the element of indefinite length at the front of a window, with a tag of `tag_len` octets.
#[inline(never)]
fn read_indefinite<'a>(window: Window<'a>, tag_len: usize) -> Result<(Tlv<'a>, Window<'a>), Fault>
    requires opening { opening_at (span window) ≡ Ok (Some (Opening.Indefinite tag_len)) }
    ensures exact { Gives (λ x. (element x.0, span x.1)) result
        (indefinite_at (span window.entry) tag_len (outer_at window.entry.octets.now)) }
{
    let len = walked_len(window, tag_len)?;
    let (tag, _) = window.octets.split_at(tag_len);
    let content = window.behind(tag_len + 1);
    let (octets, _) = content.octets.split_at(len - (tag_len + 3));
    let found = Tlv {
        tag: Tag { octets: tag },
        content: Window {
            octets,
            place: content.place,
        },
        start: window.place,
    };
    Ok((found, window.behind(len)))
}

#[tactic(auto, unfolding(crate::specs::Reading::next_at))]
#[inline(always)]
fn read_next(window: Window) -> Result<(Tlv, Window), Fault>
    requires { 0 < length window.octets.now }
    ensures exact { Gives (λ x. (element x.0, span x.1)) result (next_at (span window.entry)) }
{
    if let Some(content_len) = short_content(window.octets) {
        let header = Header {
            tag_len: 1,
            len: 2,
            content_len,
        };
        return read_definite(window, header);
    }
    match read_opening(window)? {
        Some(Opening::Definite(header)) => read_definite(window, header),
        Some(Opening::Indefinite(tag_len)) => read_indefinite(window, tag_len),
        None => Err(Fault {
            reason: Reason::Overrun,
            place: window.place,
        }),
    }
}

/// Reads the first element of a non-empty window (X.690 8.1.1). Returns the element and the window after it. The
/// content window excludes end-of-contents octets.
///
/// # Errors
///
/// - `TagForm`, `TooLong` or `Overrun` at the element's first octet, `LengthForm` or `Indefinite` at its first length
///   octet.
/// - For an element of indefinite length: the faults of the elements in it, each at its own offset, and `TooDeep`.
///   `Overrun` is then at the innermost incomplete element.
#[inline(always)]
pub fn next_tlv(window: Window) -> Result<(Tlv, Window), Fault>
    requires { 0 < length window.octets.now }
    // On success, the element is the one at the front, and its parts are those octets of the window.
    ensures found { IfOk result (λ x. FindsElement (span window.entry) (element x.0) (span x.1)) }
    // An element at the front is read.
    ensures only { (tag content octets rest : List ℕ) → IsElement tag content octets
        → window.entry.octets.now ≡ octets ++ rest
        → IsOkAnd result (λ x. (x.0.tag.octets.now ≡ tag) × (x.0.content.octets.now ≡ content)
        × (x.1.octets.now ≡ rest)) }
    // The result is a fault exactly if the window has that fault.
    ensures faulty { (fault : Fault) → (result ≡ Err fault)
        ↔ IsElementFault (span window.entry) fault.reason fault.place }
    ensures exact { Gives (λ x. (element x.0, span x.1)) result (next_at (span window.entry)) }
{
    read_next(window)
}

#[tactic(auto, unfolding(crate::specs::Reading::some_at))]
#[inline(always)]
fn read_any(window: Window) -> Result<(Tlv, Window), Fault>
    ensures exact { Gives (λ x. (element x.0, span x.1)) result (some_at (span window.entry)) }
{
    if window.octets.is_empty() {
        return Err(Fault {
            reason: Reason::Missing,
            place: window.place,
        });
    }
    next_tlv(window)
}

/// Reads the first element of a window, with any tag (X.690 8.1.1). Returns the element and the window after it.
///
/// # Errors
///
/// `Missing` at the window's offset if it is empty, else the faults of [`next_tlv`].
#[inline(always)]
pub fn required_any(window: Window) -> Result<(Tlv, Window), Fault>
    // On success, the element is the one at the front, and its parts are those octets of the window.
    ensures found { IfOk result (λ x. FindsElement (span window.entry) (element x.0) (span x.1)) }
    // An element at the front is read.
    ensures only { (tag content octets rest : List ℕ) → IsElement tag content octets
        → window.entry.octets.now ≡ octets ++ rest
        → IsOkAnd result (λ x. (x.0.tag.octets.now ≡ tag) × (x.0.content.octets.now ≡ content)
        × (x.1.octets.now ≡ rest)) }
    // The result is a fault exactly if the element is missing or has that fault itself.
    ensures faulty { (fault : Fault) → (result ≡ Err fault) ↔ (IsMissing (span window.entry) fault.reason fault.place
        ⊎ IsElementFault (span window.entry) fault.reason fault.place) }
    ensures exact { Gives (λ x. (element x.0, span x.1)) result (some_at (span window.entry)) }
{
    read_any(window)
}

#[tactic(auto, unfolding(crate::specs::Reading::required_at, crate::specs::Reading::some_at))]
#[inline(always)]
fn read_required(window: Window, tag: u8) -> Result<(Tlv, Window), Fault>
    ensures exact { Gives (λ x. (element x.0, span x.1)) result (required_at tag (span window.entry)) }
{
    let (found, rest) = required_any(window)?;
    if found.tag.is(tag) {
        Ok((found, rest))
    } else {
        Err(found.refused(Reason::UnexpectedTag))
    }
}

/// Reads the first element of a window, which must have this tag of one octet (X.690 8.1.1). Returns the element and
/// the window after it.
///
/// # Errors
///
/// - `Missing` at the window's offset if it is empty.
/// - The faults of [`next_tlv`].
/// - `UnexpectedTag` at the element's first octet if it has another tag.
#[inline(always)]
pub fn required(window: Window, tag: u8) -> Result<(Tlv, Window), Fault>
    // On success, the element is the one at the front, and has this tag.
    ensures found { IfOk result (λ x. FindsElement (span window.entry) (element x.0) (span x.1)
        × (x.0.tag.octets.now ≡ tag ∷ [])) }
    // An element of this tag at the front is read.
    ensures only { (content octets rest : List ℕ) → IsElement (tag ∷ []) content octets
        → window.entry.octets.now ≡ octets ++ rest
        → IsOkAnd result (λ x. (x.0.content.octets.now ≡ content) × (x.1.octets.now ≡ rest)) }
    // The result is a fault exactly if the element is missing, has that fault itself, or has another tag.
    ensures faulty { (fault : Fault) → (result ≡ Err fault) ↔ (IsMissing (span window.entry) fault.reason fault.place
        ⊎ IsElementFault (span window.entry) fault.reason fault.place
        ⊎ IsUnexpected tag (span window.entry) fault.reason fault.place) }
    ensures exact { Gives (λ x. (element x.0, span x.1)) result (required_at tag (span window.entry)) }
{
    read_required(window, tag)
}

/// Returns the content of the element at the front of a window, which need not be whole, as far as the window has it.
/// If the element has indefinite length, the result is all that comes after its header. `None` if the octets end before
/// the header does (X.690 8.1.1).
///
/// # Errors
///
/// `TagForm` or `TooLong` at the element's first octet, `LengthForm` or `Indefinite` at its first length octet.
#[tactic(auto, unfolding(crate::specs::Reading::content_so_far_at))]
pub fn content_so_far(window: Window) -> Result<Option<Window>, Fault>
    ensures exact { Gives (option_map span) result (content_so_far_at (span window.entry)) }
{
    match read_opening(window)? {
        Some(Opening::Definite(header)) => {
            let content = window.behind(header.len);
            let len = content.octets.len().min(header.content_len);
            Ok(Some(Window {
                octets: &content.octets[..len],
                place: content.place,
            }))
        }
        Some(Opening::Indefinite(tag_len)) => Ok(Some(window.behind(tag_len + 1))),
        None => Ok(None),
    }
}

fn is_first(window: Window, tag: u8) -> bool
    ensures { result ≡ is_next tag window.entry.octets.now }
{
    match window.octets {
        [first, ..] => *first == tag,
        [] => false,
    }
}

/// Returns whether the first octet of the window is `tag`. For a tag of one octet, this means that the next element has
/// that tag.
pub fn begins_with(window: Window, tag: u8) -> bool
    ensures begins { IsTrue result ↔ BeginsWith tag window.entry.octets.now }
    ensures exact { result ≡ is_next tag window.entry.octets.now }
{
    is_first(window, tag)
}

/// Checks that the window is empty.
///
/// # Errors
///
/// `Trailing` at the window's first octet if it is not.
pub fn ended(window: Window) -> Result<(), Fault>
    ensures ok { IsOk result ↔ (window.entry.octets.now ≡ []) }
    ensures trailing { IfErr result (λ fault. (fault.reason ≡ Reason.Trailing) × (fault.place ≡ window.entry.place)) }
    ensures exact { Gives (λ x. x) result (end_at tt (span window.entry)) }
{
    if window.octets.is_empty() {
        Ok(())
    } else {
        Err(Fault {
            reason: Reason::Trailing,
            place: window.place,
        })
    }
}
