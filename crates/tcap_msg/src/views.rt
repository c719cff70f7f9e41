//! Reading messages into views that borrow the octets. The readers of a part at the front of a window return it and the
//! window after it.

ghost use Rattle.std.specs.Prelude.{◌≡◌, ◌≢◌, ℕ, ◌++◌, List, length, IfOk, IfErr, IsOkAnd, ◌↔◌, Err};
ghost use Rattle.tcap_ber.specs.declared.fault.Fault.{Fault};
ghost use Rattle.std.specs.Option.{option_map};
ghost use Rattle.tcap_ber.specs.Reading.{Gives, element, span};
ghost use Rattle.tcap_parts.specs.Meaning.{components_of};
ghost use Rattle.tcap_parts.specs.DialogueMeaning.{dialogue_of};
ghost use Rattle.tcap_msg.specs.Meaning.{cause_of, reason_of, message_of};
ghost use Rattle.tcap_msg.specs.declared.message.Message.{Message};
ghost use Rattle.tcap_msg.specs.Message.{make_reason, Spells, BeginsWithMessage, BeginsNoMessage, IsNeverMessage, IsFaulty};
ghost use Rattle.tcap_msg.specs.Reading.{otid_at, dtid_at, cause_at, dialogue_portion_at, component_portion_at, required_portion_at, unidirectional_at, begin_at, end_message_at, continue_at, unless_cause_at, abort_at, message_of_element, message_in, message_at};

use crate::tags::{
    ABORT, BEGIN, CAUSE, COMPONENT_PORTION, CONTINUE, DIALOGUE_PORTION, DTID, END, OTID,
    UNIDIRECTIONAL,
};
use crate::transaction_id::TransactionIdView;
use tcap_ber::{
    Fault, Outer, Reason, SmallView, Tlv, Window, begins_with, ended, outer, required,
    required_any, small_number,
};
use tcap_parts::{DialogueView, PortionView, view_dialogue};

/// A message whose parts are borrowed from octets or from an owned message.
#[derive(Clone, Copy, Debug)]
pub enum MessageView<'a> {
    /// A Unidirectional: its dialogue portion and its component portion.
    Unidirectional {
        dialogue: Option<DialogueView<'a>>,
        components: PortionView<'a>,
    },
    /// A Begin: its originating transaction ID, its dialogue portion and its component portion.
    Begin {
        otid: TransactionIdView<'a>,
        dialogue: Option<DialogueView<'a>>,
        components: Option<PortionView<'a>>,
    },
    /// A Continue: its originating and destination transaction IDs, its dialogue portion and its component portion.
    Continue {
        otid: TransactionIdView<'a>,
        dtid: TransactionIdView<'a>,
        dialogue: Option<DialogueView<'a>>,
        components: Option<PortionView<'a>>,
    },
    /// An End: its destination transaction ID, its dialogue portion and its component portion.
    End {
        dtid: TransactionIdView<'a>,
        dialogue: Option<DialogueView<'a>>,
        components: Option<PortionView<'a>>,
    },
    /// An Abort: its destination transaction ID and its reason.
    Abort {
        dtid: TransactionIdView<'a>,
        reason: Option<AbortReasonView<'a>>,
    },
}

/// The borrowed reason of an Abort (Q.773 4.2.1).
#[derive(Clone, Copy, Debug)]
pub enum AbortReasonView<'a> {
    /// A P-Abort cause, from the transaction sub-layer.
    Cause(SmallView),
    /// A dialogue portion.
    Dialogue(DialogueView<'a>),
}

/// Reads the originating transaction ID at the front of a window (Q.773 4.2.1). Returns the ID and the window after it.
///
/// # Errors
///
/// The faults of [`tcap_ber::required`] at an element of tag 48, and `BadTransactionId` at an ID that has not 1 to 4
/// octets.
#[tactic(auto, unfolding(crate::specs::Reading::otid_at))]
#[inline(always)]
pub fn otid(window: Window) -> Result<(TransactionIdView, Window), Fault>
    ensures exact { Gives (λ x. (x.0.octets.now, span x.1)) result (otid_at (span window.entry)) }
{
    let (found, rest) = required(window, OTID)?;
    Ok((TransactionIdView::read(found)?, rest))
}

/// Reads the destination transaction ID at the front of a window (Q.773 4.2.1). Returns the ID and the window after it.
///
/// # Errors
///
/// As for [`otid`], at an element of tag 49.
#[tactic(auto, unfolding(crate::specs::Reading::dtid_at))]
pub fn dtid(window: Window) -> Result<(TransactionIdView, Window), Fault>
    ensures exact { Gives (λ x. (x.0.octets.now, span x.1)) result (dtid_at (span window.entry)) }
{
    let (found, rest) = required(window, DTID)?;
    Ok((TransactionIdView::read(found)?, rest))
}

/// Reads the P-Abort cause at the front of a window. `None` if the next tag is another one.
#[tactic(auto, unfolding(crate::specs::Reading::cause_at))]
fn cause(window: Window) -> Result<(Option<SmallView>, Window), Fault>
    ensures exact { Gives (λ x. (cause_of x.0, span x.1)) result (cause_at (span window.entry)) }
{
    if !begins_with(window, CAUSE) {
        return Ok((None, window));
    }
    let (found, rest) = required(window, CAUSE)?;
    Ok((Some(small_number(found)?), rest))
}

/// Reads the dialogue portion at the front of a window (Q.773 4.2.3). Returns the PDU and the window after it; `None` and
/// the window itself if the next tag is another one.
///
/// # Errors
///
/// The faults of [`tcap_ber::required`] at an element of tag 6B, and those of [`tcap_parts::view_dialogue`] in it.
#[tactic(auto, unfolding(crate::specs::Reading::dialogue_portion_at))]
#[inline(always)]
pub fn dialogue_portion(window: Window) -> Result<(Option<DialogueView>, Window), Fault>
    ensures exact { Gives (λ x. (option_map dialogue_of x.0, span x.1)) result
        (dialogue_portion_at (span window.entry)) }
{
    if !begins_with(window, DIALOGUE_PORTION) {
        return Ok((None, window));
    }
    let (found, rest) = required(window, DIALOGUE_PORTION)?;
    Ok((Some(view_dialogue(found.content)?), rest))
}

/// Reads the component portion at the front of a window. `None` if the next tag is another one.
#[tactic(auto, unfolding(crate::specs::Reading::component_portion_at))]
#[inline(always)]
fn component_portion(window: Window) -> Result<(Option<PortionView>, Window), Fault>
    ensures exact { Gives (λ x. (option_map components_of x.0, span x.1)) result
        (component_portion_at (span window.entry)) }
{
    if !begins_with(window, COMPONENT_PORTION) {
        return Ok((None, window));
    }
    let (found, rest) = required(window, COMPONENT_PORTION)?;
    Ok((Some(PortionView::read(found)?), rest))
}

/// Reads the component portion at the front of a window, which must be present.
#[tactic(auto, unfolding(crate::specs::Reading::required_portion_at))]
fn required_portion(window: Window) -> Result<(PortionView, Window), Fault>
    ensures exact { Gives (λ x. (components_of x.0, span x.1)) result (required_portion_at (span window.entry)) }
{
    let (found, rest) = required(window, COMPONENT_PORTION)?;
    Ok((PortionView::read(found)?, rest))
}

/// Reads the parts of a Unidirectional, which are all of `content`.
#[tactic(auto, unfolding(crate::specs::Reading::unidirectional_at))]
fn view_unidirectional(content: Window) -> Result<MessageView, Fault>
    ensures exact { Gives message_of result (unidirectional_at (span content.entry)) }
{
    let (dialogue, rest) = dialogue_portion(content)?;
    let (components, rest) = required_portion(rest)?;
    ended(rest)?;
    Ok(MessageView::Unidirectional {
        dialogue,
        components,
    })
}

/// Reads the parts of a Begin, which are all of `content`.
#[tactic(auto, unfolding(crate::specs::Reading::begin_at))]
fn view_begin(content: Window) -> Result<MessageView, Fault>
    ensures exact { Gives message_of result (begin_at (span content.entry)) }
{
    let (otid, rest) = otid(content)?;
    let (dialogue, rest) = dialogue_portion(rest)?;
    let (components, rest) = component_portion(rest)?;
    ended(rest)?;
    Ok(MessageView::Begin {
        otid,
        dialogue,
        components,
    })
}

/// Reads the parts of an End, which are all of `content`.
#[tactic(auto, unfolding(crate::specs::Reading::end_message_at))]
fn view_end(content: Window) -> Result<MessageView, Fault>
    ensures exact { Gives message_of result (end_message_at (span content.entry)) }
{
    let (dtid, rest) = dtid(content)?;
    let (dialogue, rest) = dialogue_portion(rest)?;
    let (components, rest) = component_portion(rest)?;
    ended(rest)?;
    Ok(MessageView::End {
        dtid,
        dialogue,
        components,
    })
}

/// Reads the parts of a Continue, which are all of `content`.
#[tactic(auto, unfolding(crate::specs::Reading::continue_at))]
fn view_continue(content: Window) -> Result<MessageView, Fault>
    ensures exact { Gives message_of result (continue_at (span content.entry)) }
{
    let (otid, rest) = otid(content)?;
    let (dtid, rest) = dtid(rest)?;
    let (dialogue, rest) = dialogue_portion(rest)?;
    let (components, rest) = component_portion(rest)?;
    ended(rest)?;
    Ok(MessageView::Continue {
        otid,
        dtid,
        dialogue,
        components,
    })
}

/// Reads the dialogue portion of an Abort at the front of a window. `None` if the Abort has a P-Abort cause.
#[tactic(auto, unfolding(crate::specs::Reading::unless_cause_at))]
fn unless_cause<'a>(
    cause: Option<SmallView>,
    window: Window<'a>,
) -> Result<(Option<DialogueView<'a>>, Window<'a>), Fault>
    ensures exact { Gives (λ x. (option_map dialogue_of x.0, span x.1)) result
        (unless_cause_at (cause_of cause) (span window.entry)) }
{
    match cause {
        Some(_) => Ok((None, window)),
        None => dialogue_portion(window),
    }
}

/// Returns the reason of an Abort with this P-Abort cause, or else with this dialogue portion.
fn reason<'a>(
    cause: Option<SmallView>,
    dialogue: Option<DialogueView<'a>>,
) -> Option<AbortReasonView<'a>>
    ensures { option_map reason_of result ≡ make_reason (cause_of cause) (option_map dialogue_of dialogue.entry) }
{
    match (cause, dialogue) {
        (Some(cause), _) => Some(AbortReasonView::Cause(cause)),
        (None, Some(dialogue)) => Some(AbortReasonView::Dialogue(dialogue)),
        (None, None) => None,
    }
}

/// Reads the parts of an Abort, which are all of `content`.
#[tactic(auto, unfolding(crate::specs::Reading::abort_at))]
fn view_abort(content: Window) -> Result<MessageView, Fault>
    ensures exact { Gives message_of result (abort_at (span content.entry)) }
{
    let (dtid, rest) = dtid(content)?;
    let (cause, rest) = cause(rest)?;
    let (dialogue, rest) = unless_cause(cause, rest)?;
    ended(rest)?;
    let reason = reason(cause, dialogue);
    Ok(MessageView::Abort { dtid, reason })
}

/// Reads an element as a message, by its tag.
fn view_element(found: Tlv) -> Result<MessageView, Fault>
    ensures exact { Gives message_of result (message_of_element (element found.entry)) }
{
    if found.tag.is(UNIDIRECTIONAL) {
        view_unidirectional(found.content)
    } else if found.tag.is(BEGIN) {
        view_begin(found.content)
    } else if found.tag.is(END) {
        view_end(found.content)
    } else if found.tag.is(CONTINUE) {
        view_continue(found.content)
    } else if found.tag.is(ABORT) {
        view_abort(found.content)
    } else {
        Err(found.refused(Reason::UnexpectedTag))
    }
}

/// Reads the message at the front of a window.
#[tactic(auto, unfolding(crate::specs::Reading::message_in))]
fn view_message(window: Window) -> Result<(MessageView, Window), Fault>
    ensures exact { Gives (λ x. (message_of x.0, span x.1)) result (message_in (span window.entry)) }
{
    let (found, rest) = required_any(window)?;
    Ok((view_element(found)?, rest))
}

#[tactic(auto, unfolding(crate::specs::Reading::message_at))]
fn read(octets: &[u8]) -> Result<(MessageView, usize), Fault>
    ensures exact { Gives (λ x. (message_of x.0, x.1)) result (message_at octets.now) }
{
    let len = match outer(octets)? {
        Outer::Whole(len) => len,
        Outer::Need(_) => {
            return Err(Fault {
                reason: Reason::Cut,
                place: octets.len() as u64,
            });
        }
    };
    let (message, _) = view_message(Window::new(octets))?;
    Ok((message, len))
}

/// Reads the message at the front of `octets`. Returns a view that borrows them, and its length in octets. The message
/// is the whole outer element; octets after it are ignored.
///
/// # Errors
///
/// The first fault from left to right, its offset counted from the first octet (Q.773 4.2, X.690 8.1):
///
/// - `Cut` at the end if the octets end before their outer element does,
/// - `UnexpectedTag` at 0 if the element is not a message,
/// - otherwise the fault of a header or of a part.
pub fn view(octets: &[u8]) -> Result<(MessageView, usize), Fault>
    // On success, the octets at the front spell the message.
    ensures found { IfOk result (λ x. BeginsWithMessage (message_of x.0) x.1 octets.now) }
    // A message that the front spells is read.
    ensures only { (m : Message) (front rest : List ℕ) → Spells m front → octets.now ≡ front ++ rest
        → IsOkAnd result (λ x. (message_of x.0 ≡ m) × (x.1 ≡ length front)) }
    // The result is a fault exactly if the octets have that fault.
    ensures faulty { (fault : Fault) → (result ≡ Err fault) ↔ IsFaulty octets.now fault.reason fault.place }
    // Refused octets begin with no message.
    ensures none { IfErr result (λ fault. BeginsNoMessage octets.now) }
    // Unless the fault is `Cut`, they never will, no matter what follows.
    ensures never { IfErr result (λ fault. fault.reason ≢ Reason.Cut → IsNeverMessage octets.now) }
    // The result as one function of the octets.
    ensures exact { Gives (λ x. (message_of x.0, x.1)) result (message_at octets.now) }
{
    read(octets)
}
