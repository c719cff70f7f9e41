//! One sentence on a blame: which of the ways to have its kind it is. docs/RULES.md has a row for each way.
//!
//! Each function that returns a truth value returns whether it appended a sentence. Each returns `AllocError` if memory
//! runs out.

use crate::at_fault::{AtFault, Fact, entries_of, is_from_entry, message_at};
use crate::blame::Blame;
use crate::no_message::push_no_message;
use crate::sentence_parts::push_id;
use crate::which_answers::{push_answered_again, push_answers_nothing, push_rejects_wrongly};
use crate::which_ids::{
    push_after_end, push_reused, push_unknown, push_wrong_half, push_wrong_reply,
};
use crate::which_operations::{push_bad_link, push_busy, push_wrong_operation};
use crate::which_portions::{push_misplaced, push_unfit};
use std::alloc::AllocError;
use tcap_ber::{Fault, Reason};
use tcap_evidence::{Evidence, component_at, push_sentence};
use tcap_msg::MessageParts;
use tcap_record::{Body, End, Entry, Record, push_hex};
use tcap_refute::Kind;

/// The bits of a tag's first octet that are all set if more octets follow.
const LONG_TAG: u8 = 0x1F;

/// Returns the outer tag of the octets at fault if the fault is that tag, and the tag has one octet.
fn wrong_tag(octets: &[u8], fault: Fault) -> Option<u8> {
    if fault.reason != Reason::UnexpectedTag || fault.place != 0 {
        return None;
    }
    let tag = *octets.first()?;
    if tag & LONG_TAG == LONG_TAG {
        return None;
    }
    Some(tag)
}

/// Appends a sentence for F1.
fn push_of_octets(text: &mut String, blame: &Blame) -> Result<bool, AllocError> {
    let Some(
        Entry {
            body: Body::Bad(fault),
            ..
        },
    ) = blame.record.entries.get(blame.at.entry as usize)
    else {
        return Ok(false);
    };
    match wrong_tag(blame.octets, *fault) {
        Some(tag) => {
            text.push_str("its tag, ")?;
            push_hex(text, &[tag])?;
            text.push_str(", is none of the five messages")?;
        }
        None => {
            text.push_str("its octets are no message: ")?;
            push_no_message(text, *fault)?;
        }
    }
    Ok(true)
}

/// Appends a sentence for F15, if only one transaction is open.
fn push_open(
    text: &mut String,
    record: &Record,
    end: End,
    found: &Evidence,
) -> Result<bool, AllocError> {
    let entries = entries_of(found, Fact::Open);
    let Some(first) = entries.first() else {
        return Ok(false);
    };
    let Some(message) = message_at(record, *first) else {
        return Ok(false);
    };
    let Some(own) = message.otid() else {
        return Ok(false);
    };
    for number in entries {
        if !is_from_entry(record, *number, own.octets) {
            return Ok(false);
        }
    }
    push_sentence(text, end, Kind::OpenAtMark)?;
    push_id(text, ": that from ", own.octets)?;
    write!(text, ", as in entry {first}")?;
    Ok(true)
}

/// Appends a sentence for a kind that a component has.
fn push_of_component(text: &mut String, kind: Kind, at: &AtFault) -> Result<bool, AllocError> {
    let Some(component) = component_at(at.message, at.found.about.component) else {
        return Ok(false);
    };
    match kind {
        Kind::AnswersNothing => push_answers_nothing(text, at, component),
        Kind::WrongOperation => push_wrong_operation(text, at, component),
        Kind::InvokeIdBusy => push_busy(text, at),
        Kind::BadLink => push_bad_link(text, at, component),
        Kind::AnsweredAlready => push_answered_again(text, at),
        Kind::RejectNotAllowed => push_rejects_wrongly(text, at, component),
        _ => Ok(false),
    }
}

/// Appends a sentence for the kind of a message.
fn push_of_message(text: &mut String, kind: Kind, at: &AtFault) -> Result<bool, AllocError> {
    match kind {
        Kind::UnknownTransaction => push_unknown(text, at),
        Kind::ReusedId => push_reused(text, at),
        Kind::AfterEnd => push_after_end(text, at),
        Kind::MisplacedDialogue => push_misplaced(text, at),
        Kind::WrongHalf => push_wrong_half(text, at),
        Kind::WrongDialogue => push_unfit(text, at),
        Kind::WrongReply => push_wrong_reply(text, at),
        _ => push_of_component(text, kind, at),
    }
}

/// Appends the sentence for a blame, if its way is known.
fn push_way(text: &mut String, blame: &Blame) -> Result<bool, AllocError> {
    let Blame {
        record,
        end,
        at,
        ..
    } = *blame;
    if at.kind == Kind::BadMessage {
        return push_of_octets(text, blame);
    }
    let (Some(table), Some(found)) = (blame.table, blame.found) else {
        return Ok(false);
    };
    if at.kind == Kind::OpenAtMark {
        return push_open(text, record, end, found);
    }
    let Some(message) = message_at(record, at.entry) else {
        return Ok(false);
    };
    let fault = AtFault {
        record,
        table,
        end,
        number: at.entry,
        message,
        found,
    };
    push_of_message(text, at.kind, &fault)
}

/// Appends a sentence on a blame, without a full stop: which of the ways to have its kind it is. If that is not known,
/// the sentence is that of the kind.
///
/// # Errors
/// `AllocError` if memory runs out.
pub fn push_alternative(text: &mut String, blame: &Blame) -> Result<(), AllocError> {
    if push_way(text, blame)? {
        return Ok(());
    }
    push_sentence(text, blame.end, blame.at.kind)
}
