//! Makes messages by hand, from the words of a row.

use crate::answers::{counted, encoded_again, is_answered};
use crate::components::{Way, object_of, portion_of, small_of};
use std::alloc::Global;
use tcap_ber::ObjectId;
use tcap_msg::{AbortReason, Message, TransactionId};
use tcap_parts::{Dialogue, Info, Portion, Source};
use tcap_vectors::octets_of;

/// Returns a message of this kind, which is no Abort, with these parts. Returns `None` if the kind can't have them.
pub(crate) fn message_of(
    kind: &str,
    (otid, dtid): (Option<TransactionId>, Option<TransactionId>),
    dialogue: Option<Dialogue>,
    components: Option<Portion>,
) -> Option<Message> {
    match (kind, otid, dtid, components) {
        ("Unidirectional", None, None, Some(components)) => Some(Message::Unidirectional {
            dialogue,
            components,
        }),
        ("Begin", Some(otid), None, components) => Some(Message::Begin {
            otid,
            dialogue,
            components,
        }),
        ("Continue", Some(otid), Some(dtid), components) => Some(Message::Continue {
            otid,
            dtid,
            dialogue,
            components,
        }),
        ("End", None, Some(dtid), components) => Some(Message::End {
            dtid,
            dialogue,
            components,
        }),
        (_, _, _, components) => {
            drop(dialogue);
            drop(components);
            None
        }
    }
}

/// Reads a transaction ID from its digits; a dash is for none.
fn id_of(alloc: Global, digits: &str) -> Option<Option<TransactionId>> {
    if digits == "-" {
        return Some(None);
    }
    Some(Some(TransactionId::new(&octets_of(alloc, digits)?)?))
}

/// Reads user information from its octets; a dash is for none.
fn info_of(alloc: Global, octets: &str) -> Option<Option<Info>> {
    if octets == "-" {
        return Some(None);
    }
    Some(Some(Info::new(octets_of(alloc, octets)?)?))
}

/// Returns a dialogue response with this context and user information. The words are its result, and the source and
/// the number of its diagnostic.
fn response_of(context: ObjectId, info: Option<Info>, words: &[&str]) -> Option<Dialogue> {
    let [result, source, number] = words else {
        return None;
    };
    let result = small_of(result)?;
    let number = small_of(number)?;
    let diagnostic = match *source {
        "user" => Source::User(number),
        "provider" => Source::Provider(number),
        _ => return None,
    };
    Some(Dialogue::Response {
        context,
        result,
        diagnostic,
        info,
    })
}

/// Reads a PDU from its words: its kind, its application context name, its user information, and the fields of its
/// kind.
fn pdu_of(alloc: Global, words: &[&str]) -> Option<Dialogue> {
    let [kind, context, info, others @ ..] = words else {
        return None;
    };
    let info = info_of(alloc, info)?;
    if *kind == "abort" {
        let source = small_of(others.first()?)?;
        return Some(Dialogue::Abort { source, info });
    }
    let context = object_of(alloc, context)?;
    match *kind {
        "request" => Some(Dialogue::Request { context, info }),
        "unidirectional" => Some(Dialogue::Uni { context, info }),
        _ => response_of(context, info, others),
    }
}

/// Reads the PDU of a column. Unless the way is `Made`, it is made again from its view.
fn dialogue_of(alloc: Global, column: &str, way: Way) -> Option<Dialogue> {
    let words: Vec<&str> = column.split(',').collect(alloc).ok()?;
    let dialogue = pdu_of(alloc, &words)?;
    if matches!(way, Way::Made) {
        return Some(dialogue);
    }
    let again = dialogue.view().to_dialogue(alloc);
    drop(dialogue);
    again.ok()
}

/// Reads the reason of an Abort, a cause or a PDU. Unless the way is `Made`, it is made again from its view.
fn reason_of(alloc: Global, column: &str, way: Way) -> Option<AbortReason> {
    let reason = match small_of(column) {
        Some(cause) => AbortReason::Cause(cause),
        None => AbortReason::Dialogue(dialogue_of(alloc, column, way)?),
    };
    if matches!(way, Way::Made) {
        return Some(reason);
    }
    let again = reason.view().to_reason(alloc);
    drop(reason);
    again.ok()
}

/// Makes the Abort of a row, and encodes it.
fn abort_made(
    alloc: Global,
    dtid: TransactionId,
    reason: &str,
    way: Way,
) -> Option<(Option<usize>, Vec<u8>)> {
    let reason = if reason == "-" {
        None
    } else {
        Some(reason_of(alloc, reason, way)?)
    };
    counted(alloc, Message::Abort { dtid, reason })
}

/// Makes the message of a row, and encodes it. `words` are its dialogue portion and its components.
fn made(
    alloc: Global,
    kind: &str,
    ids: (Option<TransactionId>, Option<TransactionId>),
    words: (&str, &str),
    way: Way,
) -> Option<(Option<usize>, Vec<u8>)> {
    if kind == "Abort" {
        return abort_made(alloc, ids.1?, words.0, way);
    }
    let components = portion_of(alloc, words.1, way)?;
    let dialogue = if words.0 == "-" {
        None
    } else {
        Some(dialogue_of(alloc, words.0, way)?)
    };
    counted(alloc, message_of(kind, ids, dialogue, components)?)
}

/// Looks at a row of `made`. The message is made in each way.
pub(crate) fn is_made(alloc: Global, columns: &[&str]) -> Option<bool> {
    let [kind, otid, dtid, dialogue, components, wanted] = columns else {
        return None;
    };
    for way in [
        Way::Made,
        Way::Copied,
        Way::Lent,
        Way::LentByIndex,
        Way::LentInOrder,
    ] {
        let ids = (id_of(alloc, otid)?, id_of(alloc, dtid)?);
        let (len, octets) = made(alloc, kind, ids, (dialogue, components), way)?;
        let is_wanted = if *wanted == "too long" {
            len.is_none() && octets.is_empty()
        } else {
            len == Some(octets.len())
                && octets == octets_of(alloc, wanted)?
                && is_answered(alloc, &octets, Ok(octets.len()))?
                && encoded_again(alloc, &octets)? == octets
        };
        if !is_wanted {
            return Some(false);
        }
    }
    Some(true)
}
