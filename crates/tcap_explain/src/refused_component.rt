//! The component of a message that an end refuses to send.

use std::alloc::{AllocError, Global};
use tcap_end::{EndFault, EndState, Table};
use tcap_msg::{Message, MessageParts};
use tcap_parts::Portion;

/// The most components of a message that is searched for the refused one.
pub(crate) const MANY: usize = 64;

/// Returns whether a fault may be that of a single component.
pub(crate) fn is_of_component(fault: EndFault) -> bool {
    matches!(
        fault,
        EndFault::UnknownOperation
            | EndFault::InvokeIdBusy
            | EndFault::NothingToAnswer
            | EndFault::ClassForbids
            | EndFault::WrongOperation
            | EndFault::BadLink
            | EndFault::RejectNotAllowed
            | EndFault::UniNotClass4
    )
}

/// Returns the first `count` components of a message, or None if there are none.
fn portion_of(
    alloc: Global,
    message: &Message,
    count: usize,
) -> Result<Option<Portion>, AllocError> {
    let mut components = Vec::new(alloc);
    for component in message.components().take(count) {
        components.push(component.to_component(alloc)?)?;
    }
    Ok(Portion::new(components))
}

/// Returns the message with its first `count` components. None if its type does not allow that.
fn front_of(alloc: Global, message: &Message, count: usize) -> Result<Option<Message>, AllocError> {
    let portion = portion_of(alloc, message, count)?;
    match (message.to_message(alloc)?, portion) {
        (Message::Unidirectional { dialogue, .. }, Some(components)) => {
            Ok(Some(Message::Unidirectional {
                dialogue,
                components,
            }))
        }
        (Message::Begin { otid, dialogue, .. }, components) => Ok(Some(Message::Begin {
            otid,
            dialogue,
            components,
        })),
        (
            Message::Continue {
                otid,
                dtid,
                dialogue,
                ..
            },
            components,
        ) => Ok(Some(Message::Continue {
            otid,
            dtid,
            dialogue,
            components,
        })),
        (Message::End { dtid, dialogue, .. }, components) => Ok(Some(Message::End {
            dtid,
            dialogue,
            components,
        })),
        _ => Ok(None),
    }
}

/// Returns the number of the component for which an end refuses to send a message: the one after the longest front of
/// the message that the end sends. None if the end refuses the message even without components. If the end sends a
/// front, `state` is its state afterwards.
pub(crate) fn refused_component(
    alloc: Global,
    state: &mut EndState,
    table: &Table,
    message: &Message,
) -> Result<Option<usize>, AllocError> {
    let count = message.count();
    for behind in 1..=count {
        let place = count.saturating_sub(behind);
        let Some(front) = front_of(alloc, message, place)? else {
            return Ok(Some(place));
        };
        if state.send(table, &front).is_ok() {
            return Ok(Some(place));
        }
    }
    Ok(None)
}
