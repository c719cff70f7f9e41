//! Reads the heading of an entry, by which its dialogue is found.

ghost use Rattle.std.specs.Prelude.{◌≡◌, ◌++◌, option_map};
ghost use Rattle.std.specs.Option.{option_to_list};
ghost use Rattle.tcap_ber.specs.Reading.{element, span};
ghost use Rattle.tcap_msg.specs.declared.message.Message.{Message as Meant};
ghost use Rattle.tcap_msg.specs.Message.{Spells};
ghost use Rattle.tcap_dialogues.specs.Course.{heading_of};
ghost use Rattle.tcap_dialogues.specs.IdsInPlace.{after_id, after_ids, after_placed, are_its_ids, dialogue_after_ids, has_dialogue};
ghost use Rattle.tcap_dialogues.specs.HeadingReading.{agreed, elements_in, heading_at, heading_read, id_under, ids_among, ids_of, kind_at, kind_of_tag, outer_content, whole_next};

use tcap_ber::{Tlv, Window, content_so_far, required_any};
use tcap_msg::tags::{ABORT, BEGIN, CONTINUE, DIALOGUE_PORTION, DTID, END, OTID, UNIDIRECTIONAL};
use tcap_msg::{Kind, MessageParts, TransactionIdView};
use tcap_record::End;

/// The tag of end-of-contents octets (X.690 8.1.5).
const ENDING: u8 = 0;

/// The facts about an entry by which its dialogue is found. These are its sender, its kind and its transaction IDs, as
/// far as they can be read (Q.773 4.2.1), and two facts about the trace before it, which the caller sets. It borrows
/// the octets.
#[derive(Clone, Copy, Debug)]
pub struct HeadingView<'a> {
    /// The end that sent the entry.
    pub sender: End,
    /// The kind of message, by the tag; `None` if it cannot be read.
    pub kind: Option<Kind>,
    /// The originating transaction ID.
    pub otid: Option<TransactionIdView<'a>>,
    /// The destination transaction ID.
    pub dtid: Option<TransactionIdView<'a>>,
    /// Whether the entry comes after the under-way directive, by which dialogues may have begun before the trace.
    pub under_way: bool,
    /// Whether the owner of the destination ID sent a message from this ID in an earlier segment.
    pub known: bool,
}

/// Returns the heading of a message, with nothing known of the trace.
pub fn heading_of_message<M: MessageParts>(sender: End, message: &M) -> HeadingView<'_>
    ensures { heading_read result ≡ heading_of sender (M.meaning message.now) }
{
    HeadingView {
        sender,
        kind: Some(message.kind()),
        otid: message.otid(),
        dtid: message.dtid(),
        under_way: false,
        known: false,
    }
}

/// Returns the kind of message with this tag, if there is one (Q.773 4.2.1).
fn kind_of_tag(tag: u8) -> Option<Kind>
    ensures { result ≡ kind_of_tag tag }
{
    if tag == UNIDIRECTIONAL {
        Some(Kind::Unidirectional)
    } else if tag == BEGIN {
        Some(Kind::Begin)
    } else if tag == END {
        Some(Kind::End)
    } else if tag == CONTINUE {
        Some(Kind::Continue)
    } else if tag == ABORT {
        Some(Kind::Abort)
    } else {
        None
    }
}

/// Returns the kind of message by the first octet.
fn kind_at(octets: &[u8]) -> Option<Kind>
    ensures { result ≡ kind_at octets.now }
{
    match octets {
        [tag, ..] => kind_of_tag(*tag),
        [] => None,
    }
}

/// Returns the content of the outer element. If that is not whole, returns all there is of its content.
fn outer_content(octets: &[u8]) -> Option<Window>
    ensures { option_map span result ≡ outer_content octets.now }
{
    let window = Window::new(octets);
    match required_any(window) {
        Ok((found, _)) => Some(found.content),
        Err(_) => match content_so_far(window) {
            Ok(content) => content,
            Err(_) => None,
        },
    }
}

/// Returns the first element of a window and the window after it, if the element is whole and not end-of-contents
/// octets.
fn whole_next(window: Window) -> Option<(Tlv, Window)>
    ensures { option_map (λ x. (element x.0, span x.1)) result ≡ whole_next (span window.entry) }
{
    match required_any(window) {
        Ok((found, rest)) => {
            if found.tag.is(ENDING) {
                None
            } else {
                Some((found, rest))
            }
        }
        Err(_) => None,
    }
}

/// Returns the transaction ID in an element with this tag, if it is one.
#[tactic(auto, unfolding(tcap_msg::specs::TransactionId::transaction_id_of))]
fn id_under<'a>(tag: u8, found: Tlv<'a>) -> Option<TransactionIdView<'a>>
    ensures { option_to_list (option_map (λ id. id.octets.now) result) ≡ id_under tag (element found.entry) }
{
    if !found.tag.is(tag) {
        return None;
    }
    match TransactionIdView::read(found) {
        Ok(id) => Some(id),
        Err(_) => None,
    }
}

/// Returns the ID that is known or, if none is, that of an element with this tag. Returns `None` if both are there and
/// differ.
fn agreed<'a>(
    known: Option<TransactionIdView<'a>>,
    tag: u8,
    found: Tlv<'a>,
) -> Option<Option<TransactionIdView<'a>>>
    ensures { option_map (option_map (λ id. id.octets.now)) result
        ≡ agreed (option_to_list (option_map (λ id. id.octets.now) known.entry) ++ id_under tag (element found.entry)) }
{
    match (known, id_under(tag, found)) {
        (Some(known), Some(id)) => {
            if known.octets == id.octets {
                Some(Some(known))
            } else {
                None
            }
        }
        (Some(known), None) => Some(Some(known)),
        (None, id) => Some(id),
    }
}

/// An originating and a destination transaction ID, as far as they can be read.
type Ids<'a> = (Option<TransactionIdView<'a>>, Option<TransactionIdView<'a>>);

/// Returns the transaction IDs in the whole elements at the front of a window. Neither is read if two of one sort
/// differ.
fn ids_among(content: Window) -> Ids
    ensures { (option_map (λ id. id.octets.now) result.0, option_map (λ id. id.octets.now) result.1)
        ≡ ids_among (elements_in (span content.entry)) }
{
    let mut otid = None;
    let mut dtid = None;
    let mut rest = content;
    while let Some((found, behind)) = whole_next(rest) {
        let Some(own) = agreed(otid, OTID, found) else {
            return (None, None);
        };
        let Some(peer) = agreed(dtid, DTID, found) else {
            return (None, None);
        };
        otid = own;
        dtid = peer;
        rest = behind;
    }
    (otid, dtid)
}

/// Returns the transaction IDs of an element of this kind with this content.
fn ids_of(kind: Option<Kind>, content: Option<Window>) -> Ids
    ensures { (option_map (λ id. id.octets.now) result.0, option_map (λ id. id.octets.now) result.1)
        ≡ ids_of kind (option_map span content.entry) }
{
    match (kind, content) {
        (Some(Kind::Unidirectional), _) | (_, None) => (None, None),
        (_, Some(content)) => ids_among(content),
    }
}

/// Reads the heading of octets that need not be a message (Q.773 4.2.1).
///
/// The first octet gives the kind of message, even if the element is cut. The transaction IDs are read from the whole
/// elements of its content, up to the first that is not whole, no matter what kind of message it is. An ID has 1 to 4
/// octets. If two IDs of one sort differ, no ID is read; a Unidirectional has none. If the octets spell a message, the
/// result is that of [`heading_of_message`]. Nothing is known of the trace.
pub fn read_heading(sender: End, octets: &[u8]) -> HeadingView<'_>
    ensures exact { heading_read result ≡ heading_at sender octets.now }
    ensures message { (m : Meant) → Spells m octets.now → heading_read result ≡ heading_of sender m }
{
    let kind = kind_at(octets);
    let (otid, dtid) = ids_of(kind, outer_content(octets));
    HeadingView {
        sender,
        kind,
        otid,
        dtid,
        under_way: false,
        known: false,
    }
}

/// Returns the window after the transaction ID with this tag, if a window begins with one.
fn after_id(tag: u8, window: Window) -> Option<Window>
    ensures { option_map span result ≡ after_id tag (span window.entry) }
{
    let (found, rest) = whole_next(window)?;
    if id_under(tag, found).is_some() {
        Some(rest)
    } else {
        None
    }
}

/// Returns the window after the IDs of a message of this kind, if a window begins with them.
fn after_ids(kind: Option<Kind>, content: Window) -> Option<Window>
    ensures { option_map span result ≡ after_ids kind (span content.entry) }
{
    match kind {
        Some(Kind::Begin) => after_id(OTID, content),
        Some(Kind::Continue) => after_id(DTID, after_id(OTID, content)?),
        Some(Kind::End | Kind::Abort) => after_id(DTID, content),
        _ => None,
    }
}

/// Returns whether these IDs are of the sorts that a message of this kind has, and of no other.
fn are_its_ids(kind: Option<Kind>, ids: Ids) -> bool
    ensures { result ≡ are_its_ids kind
        (option_map (λ id. id.octets.now) ids.entry.0, option_map (λ id. id.octets.now) ids.entry.1) }
{
    let (otid, dtid) = ids;
    match kind {
        Some(Kind::Begin) => otid.is_some() && dtid.is_none(),
        Some(Kind::Continue) => otid.is_some() && dtid.is_some(),
        Some(Kind::End | Kind::Abort) => otid.is_none() && dtid.is_some(),
        _ => false,
    }
}

/// Returns the window after the IDs of a content of this kind, if the IDs are in place.
fn after_placed(kind: Option<Kind>, content: Option<Window>) -> Option<Window>
    ensures { option_map span result ≡ after_placed kind (option_map span content.entry) }
{
    let content = content?;
    if are_its_ids(kind, ids_of(kind, Some(content))) {
        after_ids(kind, content)
    } else {
        None
    }
}

/// Returns whether the first whole element of a window is a dialogue portion.
fn has_dialogue(window: Window) -> bool
    ensures { result ≡ has_dialogue (span window.entry) }
{
    match whole_next(window) {
        Some((found, _)) => found.tag.is(DIALOGUE_PORTION),
        None => false,
    }
}

/// Returns whether a dialogue portion follows the transaction IDs of octets that need not be a message (Q.773 4.2.1).
/// Returns `None` if the IDs are not in place: the elements at the front of the content must be the IDs that the kind of
/// message has, in their order, and no other ID may be read.
pub fn dialogue_after_ids(octets: &[u8]) -> Option<bool>
    ensures { result ≡ dialogue_after_ids octets.now }
{
    let after = after_placed(kind_at(octets), outer_content(octets))?;
    Some(has_dialogue(after))
}
