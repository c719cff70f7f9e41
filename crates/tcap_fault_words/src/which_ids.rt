//! Which fault it is, of the kinds that compare transaction IDs: F2 to F4, F8 and F14.
//!
//! Each function returns whether it appended a sentence, or `AllocError` if memory runs out.

use crate::at_fault::{AtFault, Fact, Wanted, message_at};
use crate::q773_names::push_cause;
use crate::sentence_parts::{DIALOGUE, push_end, push_id, push_none_in, push_nothing_before};
use std::alloc::AllocError;
use tcap_faults::HalfOrigin;
use tcap_msg::{Kind as Form, MessageParts};

/// The cause of an Abort by which a provider answers a Continue, and that by which it refuses a Begin.
const UNRECOGNIZED: u8 = 1;

const REFUSES: u8 = 4;

/// Appends that the peer sent nothing from the destination ID, and whether that ID is the end's own.
fn push_nothing(text: &mut String, at: &AtFault) -> Result<bool, AllocError> {
    push_id(text, "it goes to ", at.to())?;
    text.push_str(", and ")?;
    push_end(text, at.end.other(), " had sent nothing from ")?;
    push_id(text, "", at.to())?;
    push_nothing_before(text, at)?;
    if at.is_own(at.to()) {
        text.push_str("; this is ")?;
        push_end(text, at.end, "'s own ID: are the ends mixed up?")?;
    }
    Ok(true)
}

/// Appends what an Abort with this cause answers, and that the peer sent no such message; or that Q.773 lacks the
/// cause.
fn push_unfounded(text: &mut String, at: &AtFault, cause: u8) -> Result<bool, AllocError> {
    let (what, form) = match cause {
        UNRECOGNIZED => (" answers a Continue, and ", Form::Continue),
        REFUSES => (" answers a Begin, and ", Form::Begin),
        0 | 2 | 3 => {
            push_cause(text, cause)?;
            text.push_str(" answers octets that are no message, and ")?;
            push_end(text, at.end.other(), " had sent none")?;
            text.push_str(DIALOGUE)?;
            return Ok(true);
        }
        _ => {
            write!(text, "cause {cause} is not in Q.773")?;
            return Ok(true);
        }
    };
    push_cause(text, cause)?;
    text.push_str(what)?;
    push_end(text, at.end.other(), " had sent none from ")?;
    push_id(text, "", at.to())?;
    push_none_in(text, at, DIALOGUE, Wanted::Form(form))?;
    Ok(true)
}

/// Appends a sentence for F2.
pub(crate) fn push_unknown(text: &mut String, at: &AtFault) -> Result<bool, AllocError> {
    if at.entries(Fact::PeerBegins).is_empty() && at.entries(Fact::PeerContinues).is_empty() {
        return push_nothing(text, at);
    }
    match at.message.cause() {
        Some(cause) => push_unfounded(text, at, cause.number),
        None => Ok(false),
    }
}

/// Appends that the end began or went on from the originating ID before, in entry `number`.
fn push_used(text: &mut String, at: &AtFault, number: u64) -> Result<bool, AllocError> {
    let words = match at.form_of(number) {
        Some(Form::Begin) => " began from ",
        _ => " went on from ",
    };
    push_end(text, at.end, words)?;
    push_id(text, "", at.from())?;
    write!(text, " before, in entry {number}")?;
    // An Abort of the end's provider may be meant to end the transaction.
    if !at.has_provider_abort() {
        text.push_str(", and no message had ended that transaction")?;
    }
    Ok(true)
}

/// Appends that the end went on from the originating ID to another ID, in entry `number`.
fn push_elsewhere(text: &mut String, at: &AtFault, number: u64) -> Result<bool, AllocError> {
    let Some(other) = message_at(at.record, number) else {
        return Ok(false);
    };
    let Some(to) = other.dtid() else {
        return Ok(false);
    };
    push_id(text, "it goes from ", at.from())?;
    push_id(text, " to ", at.to())?;
    text.push_str(", and ")?;
    push_end(text, at.end, " went on from ")?;
    push_id(text, "", at.from())?;
    push_id(text, " to ", to.octets)?;
    write!(text, " before, in entry {number}")?;
    Ok(true)
}

/// Appends a sentence for F3.
pub(crate) fn push_reused(text: &mut String, at: &AtFault) -> Result<bool, AllocError> {
    match (at.first(Fact::Used), at.first(Fact::WentElsewhere)) {
        (Some(number), _) => push_used(text, at, number),
        (None, Some(number)) => push_elsewhere(text, at, number),
        (None, None) => Ok(false),
    }
}

/// Appends a sentence for F4.
pub(crate) fn push_after_end(text: &mut String, at: &AtFault) -> Result<bool, AllocError> {
    let Some(number) = at.first(Fact::Ended) else {
        return Ok(false);
    };
    let words = match at.form_of(number) {
        Some(Form::End) => " ended this transaction before, by the End to ",
        _ => " ended this transaction before, by the Abort to ",
    };
    push_end(text, at.end, words)?;
    push_id(text, "", at.to())?;
    write!(text, " in entry {number}")?;
    Ok(true)
}

/// Appends the ID to which the peer's first Continue from the destination ID goes, and that the end did not begin it.
fn push_nowhere(text: &mut String, at: &AtFault) -> Result<bool, AllocError> {
    let Some(number) = at.first(Fact::PeerContinues) else {
        return Ok(false);
    };
    let Some(other) = message_at(at.record, number) else {
        return Ok(false);
    };
    let Some(to) = other.dtid() else {
        return Ok(false);
    };
    push_id(text, "the Continue from ", at.to())?;
    write!(text, " in entry {number}")?;
    push_id(text, " goes to ", to.octets)?;
    text.push_str(", and ")?;
    push_end(text, at.end, " had begun nothing from ")?;
    push_id(text, "", to.octets)?;
    text.push_str(DIALOGUE)?;
    Ok(true)
}

/// Appends that the end's provider refused the peer's Begin.
fn push_refused(text: &mut String, at: &AtFault) -> Result<bool, AllocError> {
    let Some(number) = at.first(Fact::Refused) else {
        return Ok(false);
    };
    push_end(text, at.end, " refused the Begin from ")?;
    push_id(text, "", at.to())?;
    text.push_str(" with ")?;
    push_cause(text, REFUSES)?;
    write!(text, " in entry {number}")?;
    Ok(true)
}

/// Appends that the end began the half with an AARQ, and that no Continue with an AARE came to it.
fn push_unanswered(text: &mut String, at: &AtFault, own: &[u8]) -> Result<bool, AllocError> {
    push_id(text, "the Begin from ", own)?;
    push_id(text, " has an AARQ, and no Continue from ", at.to())?;
    text.push_str(" had answered it with an AARE")?;
    Ok(true)
}

/// Appends that the end began its originating ID in entry `number`, and that no Continue came to that transaction.
fn push_began_itself(text: &mut String, at: &AtFault, number: u64) -> Result<bool, AllocError> {
    push_end(text, at.end, " began ")?;
    push_id(text, "", at.from())?;
    write!(text, " itself, in entry {number}")?;
    text.push_str(", and ")?;
    push_end(text, at.end.other(), " had sent no Continue from ")?;
    push_id(text, "", at.to())?;
    text.push_str(" to it")?;
    Ok(true)
}

/// Appends the originating ID, and the own ID of the half.
fn push_other_id(text: &mut String, at: &AtFault, own: &[u8]) -> Result<bool, AllocError> {
    push_id(text, "its originating ID is ", at.from())?;
    text.push_str("; ")?;
    push_end(text, at.end, "'s ID in this transaction is ")?;
    push_id(text, "", own)?;
    Ok(true)
}

/// Appends that the end's provider reported the half as unrecognized.
fn push_closed(text: &mut String, at: &AtFault) -> Result<bool, AllocError> {
    push_end(
        text,
        at.end,
        " answered a Continue of this transaction with ",
    )?;
    push_cause(text, UNRECOGNIZED)?;
    match at.first(Fact::Unknown) {
        Some(number) => write!(text, " before, as in entry {number}")?,
        None => text.push_str(" before")?,
    }
    Ok(true)
}

/// Appends a sentence for F8 over a half that may send messages: from another ID than its own, or after it was reported
/// as unrecognized.
fn push_of_half(text: &mut String, at: &AtFault) -> Result<bool, AllocError> {
    let own: &[u8] = match &at.found.about.own {
        Some(own) => own.octets(),
        None => &[],
    };
    if at.message.kind() != Form::Continue {
        return push_closed(text, at);
    }
    if at.found.about.origin == HalfOrigin::Accepted {
        if let Some(number) = at.own_begin(at.from()) {
            return push_began_itself(text, at, number);
        }
    }
    if own.is_empty() || own == at.from() {
        return push_closed(text, at);
    }
    push_other_id(text, at, own)
}

/// Appends a sentence for F8.
pub(crate) fn push_wrong_half(text: &mut String, at: &AtFault) -> Result<bool, AllocError> {
    match (at.found.about.origin, &at.found.about.own) {
        (HalfOrigin::Nowhere, _) => push_nowhere(text, at),
        (HalfOrigin::Refused, _) => push_refused(text, at),
        (HalfOrigin::Unanswered, Some(own)) => push_unanswered(text, at, own.octets()),
        (HalfOrigin::Unanswered, None) => Ok(false),
        (HalfOrigin::Accepted | HalfOrigin::Begun, _) => push_of_half(text, at),
    }
}

/// Appends that the Begin was refused or answered before, in entry `number`.
fn push_begin_over(
    text: &mut String,
    at: &AtFault,
    words: &str,
    number: u64,
) -> Result<bool, AllocError> {
    push_cause(text, REFUSES)?;
    text.push_str(" refuses a Begin, and ")?;
    push_end(text, at.end.other(), "'s Begin from ")?;
    push_id(text, "", at.to())?;
    text.push_str(words)?;
    write!(text, " already, in entry {number}")?;
    Ok(true)
}

/// Appends a sentence for F14 with cause 4.
fn push_refuses_again(text: &mut String, at: &AtFault) -> Result<bool, AllocError> {
    match (at.first(Fact::Refused), at.first(Fact::Outgoing)) {
        (Some(number), _) => push_begin_over(text, at, " was refused", number),
        (None, Some(number)) => push_begin_over(text, at, " was answered", number),
        (None, None) => Ok(false),
    }
}

/// Appends the cause of an Abort that answers a Continue, and the words after it.
fn push_answers_continue(text: &mut String, at: &AtFault, words: &str) -> Result<(), AllocError> {
    push_cause(text, UNRECOGNIZED)?;
    push_id(text, " answers a Continue from ", at.to())?;
    text.push_str(words)
}

/// Appends that the peer's first Continue from the destination ID goes to an open transaction.
fn push_goes_to_open(text: &mut String, at: &AtFault) -> Result<bool, AllocError> {
    let Some(number) = at.first(Fact::PeerContinues) else {
        return Ok(false);
    };
    let Some(other) = message_at(at.record, number) else {
        return Ok(false);
    };
    let Some(to) = other.dtid() else {
        return Ok(false);
    };
    push_answers_continue(text, at, ", and that in entry ")?;
    write!(text, "{number}")?;
    push_id(text, " goes to ", to.octets)?;
    text.push_str(", whose transaction is open")?;
    Ok(true)
}

/// Appends that each Continue from the destination ID was answered with cause 1 before, first in entry `number`.
fn push_all_answered(text: &mut String, at: &AtFault, number: u64) -> Result<bool, AllocError> {
    push_answers_continue(
        text,
        at,
        ", and each of these was answered in this way already, as in entry ",
    )?;
    write!(text, "{number}")?;
    Ok(true)
}

/// Appends that the end received a Continue, since it sent entry `number` to the destination ID, and whether it
/// answered others with cause 1.
fn push_received(
    text: &mut String,
    at: &AtFault,
    number: u64,
    answered: usize,
) -> Result<bool, AllocError> {
    push_answers_continue(text, at, ", and ")?;
    push_end(text, at.end, " received one, since it sent entry ")?;
    write!(text, "{number}")?;
    push_id(text, " to ", at.to())?;
    if answered > 0 {
        text.push_str("; each other was answered in this way already")?;
    }
    Ok(true)
}

/// Appends a sentence for F14 with cause 1.
fn push_unrecognized_again(text: &mut String, at: &AtFault) -> Result<bool, AllocError> {
    let continues = at.count(Fact::PeerContinues);
    let answered = at.count(Fact::Unknown);
    if let Some(number) = at.first(Fact::Unknown) {
        if continues <= answered {
            return push_all_answered(text, at, number);
        }
    }
    let is_accepted = at.found.about.origin == HalfOrigin::Accepted;
    if let Some(number) = at.first(Fact::Outgoing) {
        if !is_accepted && continues <= answered.saturating_add(1) {
            return push_received(text, at, number, answered);
        }
    }
    push_goes_to_open(text, at)
}

/// Appends a sentence for F14.
pub(crate) fn push_wrong_reply(text: &mut String, at: &AtFault) -> Result<bool, AllocError> {
    match at.message.cause() {
        Some(cause) if cause.number == REFUSES => push_refuses_again(text, at),
        Some(cause) if cause.number == UNRECOGNIZED => push_unrecognized_again(text, at),
        _ => Ok(false),
    }
}
