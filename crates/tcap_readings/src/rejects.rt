//! Takes the Reject that answers a malformed message out of the message that has it.

ghost use Rattle.std.specs.Prelude.{◌≡◌, IfOk};
ghost use Rattle.tcap_readings.specs.Readings.{unrejecting, unrejecting_entry, unrejecting_message, without_first};
ghost use Rattle.tcap_readings.specs.Reactions.{is_fitting};

use crate::reactions::is_fitting;
use std::alloc::{AllocError, Global};
use tcap_msg::{Message, MessageParts};
use tcap_parts::{Component, Portion};
use tcap_record::{Body, Entry};

/// Copies all of these components but the first Reject that fits. Fails if memory runs out.
fn without_first(
    alloc: Global,
    at: Option<i8>,
    components: &[Component],
) -> Result<Vec<Component>, AllocError>
    ensures { IfOk result (λ made. made.items ≡ without_first (is_fitting at) components.now) }
{
    let mut made = Vec::new(alloc);
    let mut is_left_out = false;
    for component in components {
        if !is_left_out && is_fitting(at, component.view()) {
            is_left_out = true;
        } else {
            made.push(component.view().to_component(alloc)?)?;
        }
    }
    Ok(made)
}

/// Returns a component portion without its first Reject that fits; none if it has no other component. Fails if memory
/// runs out.
fn unrejecting(
    alloc: Global,
    at: Option<i8>,
    components: Option<Portion>,
) -> Result<Option<Portion>, AllocError>
    ensures { IfOk result (λ made. made ≡ unrejecting at components) }
{
    match components {
        Some(components) => Ok(Portion::new(without_first(alloc, at, components.items())?)),
        None => Ok(None),
    }
}

/// Returns a message without its first Reject that fits. Fails if memory runs out.
fn unrejecting_message(
    alloc: Global,
    at: Option<i8>,
    message: Message,
) -> Result<Message, AllocError>
    ensures { IfOk result (λ made. made ≡ unrejecting_message at message) }
{
    match message {
        Message::Continue {
            otid,
            dtid,
            dialogue,
            components,
        } => Ok(Message::Continue {
            otid,
            dtid,
            dialogue,
            components: unrejecting(alloc, at, components)?,
        }),
        Message::End {
            dtid,
            dialogue,
            components,
        } => Ok(Message::End {
            dtid,
            dialogue,
            components: unrejecting(alloc, at, components)?,
        }),
        other => Ok(other),
    }
}

/// Copies an entry without its first Reject that fits. Fails if memory runs out.
pub(crate) fn unrejecting_entry(
    alloc: Global,
    at: Option<i8>,
    entry: &Entry,
) -> Result<Entry, AllocError>
    ensures { IfOk result (λ made. made ≡ unrejecting_entry at entry.now) }
{
    let body = match &entry.body {
        Body::Good(message) => {
            Body::Good(unrejecting_message(alloc, at, message.to_message(alloc)?)?)
        }
        Body::Bad(fault) => Body::Bad(*fault),
        Body::Quiet => Body::Quiet,
    };
    Ok(Entry {
        side: entry.side,
        place: entry.place,
        body,
    })
}
