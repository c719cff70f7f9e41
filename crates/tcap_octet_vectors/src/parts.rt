//! Looks at the parts of messages, read through the trait alone, from views and from values.

use crate::answers::{encoded_again, written};
use crate::made::message_of;
use std::alloc::Global;
use tcap_msg::{AbortReason, Kind, Message, MessageParts, TransactionIdView, decode, view};
use tcap_parts::{Component, Portion};

/// Returns the digits of a transaction ID, or a dash for none.
fn id_text(alloc: Global, id: Option<TransactionIdView>) -> Option<String> {
    match id {
        Some(id) => hex::encode(alloc, id.octets).ok(),
        None => String::from_str(alloc, "-").ok(),
    }
}

/// Returns the parts of a message as a row gives them: the kind, the originating and the destination transaction ID,
/// the cause, whether there is a dialogue portion, and the count of components.
fn head_of<M: MessageParts>(alloc: Global, message: &M) -> Option<String> {
    let kind = message.kind();
    let otid = id_text(alloc, message.otid())?;
    let dtid = id_text(alloc, message.dtid())?;
    let count = message.count();
    let dialogue = if message.dialogue().is_some() {
        "dialogue"
    } else {
        "-"
    };
    match message.cause() {
        Some(cause) => {
            let cause = cause.number;
            format!(in alloc; "{kind:?} {otid} {dtid} {cause} {dialogue} {count}").ok()
        }
        None => format!(in alloc; "{kind:?} {otid} {dtid} - {dialogue} {count}").ok(),
    }
}

/// Encodes an Abort with the transaction ID and the reason of this one.
fn abort_again<M: MessageParts>(alloc: Global, message: &M) -> Option<Vec<u8>> {
    let dtid = message.dtid()?.to_transaction_id();
    let reason = match message.dialogue() {
        Some(dialogue) => Some(AbortReason::Dialogue(dialogue.to_dialogue(alloc).ok()?)),
        None => match message.cause() {
            Some(cause) => Some(AbortReason::Cause(cause.to_small())),
            None => None,
        },
    };
    written(alloc, Message::Abort { dtid, reason })
}

/// Encodes a message with the parts of this one and these components.
fn made_again<M: MessageParts>(
    alloc: Global,
    message: &M,
    components: Vec<Component>,
) -> Option<Vec<u8>> {
    if message.kind() == Kind::Abort {
        drop(components);
        return abort_again(alloc, message);
    }
    let kind = message.kind();
    let kind = format!(in alloc; "{kind:?}").ok()?;
    let otid = match message.otid() {
        Some(id) => Some(id.to_transaction_id()),
        None => None,
    };
    let dtid = match message.dtid() {
        Some(id) => Some(id.to_transaction_id()),
        None => None,
    };
    let dialogue = match message.dialogue() {
        Some(dialogue) => Some(dialogue.to_dialogue(alloc).ok()?),
        None => None,
    };
    let components = Portion::new(components);
    written(
        alloc,
        message_of(&kind, (otid, dtid), dialogue, components)?,
    )
}

/// Encodes a message with the parts of this one; its components are taken in order, or each by its index.
fn made_of_parts<M: MessageParts>(
    alloc: Global,
    message: &M,
    is_in_order: bool,
) -> Option<Vec<u8>> {
    let mut components = Vec::new(alloc);
    if is_in_order {
        for component in message.components() {
            components.push(component.to_component(alloc).ok()?).ok()?;
        }
    } else {
        for index in 0..message.count() {
            let component = message.component(index);
            components.push(component.to_component(alloc).ok()?).ok()?;
        }
    }
    made_again(alloc, message, components)
}

/// Returns whether each way to take the parts of the message gives this head and these octets.
fn is_made_of<M: MessageParts>(
    alloc: Global,
    message: &M,
    head: &str,
    wanted: &[u8],
) -> Option<bool> {
    Some(
        head_of(alloc, message)?.as_str() == head
            && made_of_parts(alloc, message, false)?.as_slice() == wanted
            && made_of_parts(alloc, message, true)?.as_slice() == wanted
            && written(alloc, message.to_message(alloc).ok()?)?.as_slice() == wanted,
    )
}

/// Returns whether the message as a value, and the view of that value, give this head and these octets.
fn is_value_made_of(alloc: Global, octets: &[u8], head: &str, wanted: &[u8]) -> Option<bool> {
    let (message, _) = decode(alloc, octets).ok()?;
    let of_value = is_made_of(alloc, &message, head, wanted);
    let of_view = is_made_of(alloc, &message.view(), head, wanted);
    drop(message);
    Some(of_value? && of_view?)
}

/// Looks at a row of `parts`, from a view of the octets and from a value.
pub(crate) fn has_parts(alloc: Global, octets: &[u8], head: &str) -> Option<bool> {
    let wanted = encoded_again(alloc, octets)?;
    let (lent, _) = view(octets).ok()?;
    Some(
        is_made_of(alloc, &lent, head, &wanted)? && is_value_made_of(alloc, octets, head, &wanted)?,
    )
}
