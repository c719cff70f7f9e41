//! The parts of a holder, and the elements that may be there.

use crate::part_tables::parts_of;

/// A part that holds elements.
#[derive(Clone, Copy, PartialEq, Eq)]
pub(crate) enum Holder {
    /// The octets of a whole message.
    Whole,
    /// A Unidirectional; the next four are messages, too (Q.773 4.2.1).
    Unidirectional,
    Begin,
    End,
    Continue,
    Abort,
    /// The dialogue portion; its parts follow (Q.773 4.2.3).
    DialoguePortion,
    DialogueExternal,
    DialoguePdu,
    DialogueRequest,
    DialogueResponse,
    DialogueAbort,
    ContextName,
    ResultNumber,
    Diagnostic,
    UserInformation,
    /// The component portion; its parts follow (Q.773 4.2.2).
    Components,
    Invoke,
    ReturnResult,
    ReturnError,
    Reject,
    ResultBody,
    /// Contents that Q.773 leaves open: a parameter, user information.
    Opaque,
    /// No elements.
    Nothing,
}

/// The elements that are allowed at a position of a holder.
#[derive(Clone, Copy)]
pub(crate) enum PartRule {
    /// One element with this tag.
    Once(u8),
    /// Any number of elements with this tag.
    Each(u8),
    /// One element with any tag.
    Any,
    /// Any number of elements with any tag.
    Others,
    /// One of the elements before this row is required.
    Needed,
    /// Only the elements before this row are allowed.
    Only,
}

/// An element of a holder: its name, the position of the next part, and what it holds.
#[derive(Clone, Copy)]
pub(crate) struct PartInfo {
    pub(crate) name: &'static str,
    pub(crate) next: u8,
    pub(crate) inside: Holder,
}

/// Returns whether more elements may follow at this position, if the tag is allowed there.
fn takes(holds: PartRule, tag: u8) -> Option<bool> {
    match holds {
        PartRule::Once(own) if own == tag => Some(false),
        PartRule::Each(own) if own == tag => Some(true),
        PartRule::Any => Some(false),
        PartRule::Others => Some(true),
        _ => None,
    }
}

/// Returns the part for an element in a holder, from position `place` on, by the first octet of its tag. If the element
/// is not allowed, this is the part required instead. None if no further element is allowed.
pub(crate) fn part_at(holder: Holder, place: u8, tag: u8) -> Option<PartInfo> {
    for (at, holds, name, inside) in parts_of(holder) {
        if *at < place {
            continue;
        }
        if let Some(again) = takes(*holds, tag) {
            let next = if again { *at } else { at.saturating_add(1) };
            return Some(PartInfo {
                name: *name,
                next,
                inside: *inside,
            });
        }
        if matches!(*holds, PartRule::Needed | PartRule::Only) {
            return Some(PartInfo {
                name: *name,
                next: *at,
                inside: Holder::Nothing,
            });
        }
    }
    None
}

/// Returns the name of the part that a holder requires from position `place` on.
pub(crate) fn needed_at(holder: Holder, place: u8) -> Option<&'static str> {
    for (at, holds, name, _) in parts_of(holder) {
        if *at >= place && matches!(*holds, PartRule::Needed) {
            return Some(*name);
        }
    }
    None
}
