//! Conversions between messages and views of messages.

ghost use Rattle.std.specs.Prelude.{◌≡◌, IfOk};
ghost use Rattle.std.specs.Option.{option_map};
ghost use Rattle.tcap_parts.specs.Meaning.{components_of};
ghost use Rattle.tcap_parts.specs.DialogueMeaning.{dialogue_of};
ghost use Rattle.tcap_msg.specs.declared.message.Message.TheVariants as Message;
ghost use Rattle.tcap_msg.specs.Meaning.{reason_of, message_of};

use crate::message::{AbortReason, Message};
use crate::transaction_id::{TransactionId, TransactionIdView};
use crate::views::{AbortReasonView, MessageView};
use std::alloc::{AllocError, Global};
use tcap_parts::{Dialogue, DialogueView, Portion, PortionView};

/// Returns a view of a dialogue portion.
fn lend_dialogue(dialogue: &Option<Dialogue>) -> Option<DialogueView<'_>>
    ensures { option_map dialogue_of result ≡ dialogue.now }
{
    match dialogue {
        Some(dialogue) => Some(dialogue.view()),
        None => None,
    }
}

/// Returns a view of a component portion.
fn lend_portion(components: &Option<Portion>) -> Option<PortionView<'_>>
    ensures { option_map components_of result ≡ components.now }
{
    match components {
        Some(components) => Some(components.view()),
        None => None,
    }
}

/// Copies a dialogue portion.
fn own_dialogue(
    dialogue: Option<DialogueView>,
    alloc: Global,
) -> Result<Option<Dialogue>, AllocError>
    ensures { IfOk result (λ made. made ≡ option_map dialogue_of dialogue.entry) }
{
    match dialogue {
        Some(dialogue) => Ok(Some(dialogue.to_dialogue(alloc)?)),
        None => Ok(None),
    }
}

/// Copies a component portion.
fn own_portion(
    components: Option<PortionView>,
    alloc: Global,
) -> Result<Option<Portion>, AllocError>
    ensures { IfOk result (λ made. made ≡ option_map components_of components.entry) }
{
    match components {
        Some(components) => Ok(Some(components.to_portion(alloc)?)),
        None => Ok(None),
    }
}

/// Copies the reason of an Abort.
fn own_reason(
    reason: Option<AbortReasonView>,
    alloc: Global,
) -> Result<Option<AbortReason>, AllocError>
    ensures { IfOk result (λ made. made ≡ option_map reason_of reason.entry) }
{
    match reason {
        Some(reason) => Ok(Some(reason.to_reason(alloc)?)),
        None => Ok(None),
    }
}

impl<'a> AbortReasonView<'a> {
    /// Copies the reason into an owned value.
    ///
    /// # Errors
    ///
    /// `AllocError` if memory runs out.
    pub fn to_reason(self, alloc: Global) -> Result<AbortReason, AllocError>
        ensures { IfOk result (λ made. made ≡ reason_of self.entry) }
    {
        match self {
            AbortReasonView::Cause(cause) => Ok(AbortReason::Cause(cause.to_small())),
            AbortReasonView::Dialogue(dialogue) => {
                Ok(AbortReason::Dialogue(dialogue.to_dialogue(alloc)?))
            }
        }
    }
}

impl AbortReason {
    /// Returns a view of the reason.
    pub fn view(&self) -> AbortReasonView<'_>
        ensures { reason_of result ≡ self.now }
    {
        match self {
            AbortReason::Cause(cause) => AbortReasonView::Cause(cause.view()),
            AbortReason::Dialogue(dialogue) => AbortReasonView::Dialogue(dialogue.view()),
        }
    }
}

/// Returns a view of the reason of an Abort.
fn lend_reason(reason: &Option<AbortReason>) -> Option<AbortReasonView<'_>>
    ensures { option_map reason_of result ≡ reason.now }
{
    match reason {
        Some(reason) => Some(reason.view()),
        None => None,
    }
}

/// Returns a view of a Continue with these parts.
fn lend_continue<'a>(
    otid: &'a TransactionId,
    dtid: &'a TransactionId,
    dialogue: &'a Option<Dialogue>,
    components: &'a Option<Portion>,
) -> MessageView<'a>
    ensures { message_of result ≡ Message.Continue otid.now dtid.now dialogue.now components.now }
{
    MessageView::Continue {
        otid: otid.view(),
        dtid: dtid.view(),
        dialogue: lend_dialogue(dialogue),
        components: lend_portion(components),
    }
}

impl Message {
    /// Returns a view of the message.
    pub fn view(&self) -> MessageView<'_>
        ensures { message_of result ≡ self.now }
    {
        match self {
            Message::Unidirectional {
                dialogue,
                components,
            } => MessageView::Unidirectional {
                dialogue: lend_dialogue(dialogue),
                components: components.view(),
            },
            Message::Begin {
                otid,
                dialogue,
                components,
            } => MessageView::Begin {
                otid: otid.view(),
                dialogue: lend_dialogue(dialogue),
                components: lend_portion(components),
            },
            Message::Continue {
                otid,
                dtid,
                dialogue,
                components,
            } => lend_continue(otid, dtid, dialogue, components),
            Message::End {
                dtid,
                dialogue,
                components,
            } => MessageView::End {
                dtid: dtid.view(),
                dialogue: lend_dialogue(dialogue),
                components: lend_portion(components),
            },
            Message::Abort { dtid, reason } => MessageView::Abort {
                dtid: dtid.view(),
                reason: lend_reason(reason),
            },
        }
    }
}

/// Copies the parts into a Unidirectional.
#[inline(never)]
fn own_unidirectional(
    dialogue: Option<DialogueView>,
    components: PortionView,
    alloc: Global,
) -> Result<Message, AllocError>
    ensures { IfOk result (λ made. made ≡ Message.Unidirectional (option_map dialogue_of dialogue.entry)
        (components_of components.entry)) }
{
    Ok(Message::Unidirectional {
        dialogue: own_dialogue(dialogue, alloc)?,
        components: components.to_portion(alloc)?,
    })
}

/// Copies the parts into a Begin.
#[inline(never)]
fn own_begin(
    otid: TransactionIdView,
    dialogue: Option<DialogueView>,
    components: Option<PortionView>,
    alloc: Global,
) -> Result<Message, AllocError>
    ensures { IfOk result (λ made. made ≡ Message.Begin otid.entry.octets.now (option_map dialogue_of dialogue.entry)
        (option_map components_of components.entry)) }
{
    Ok(Message::Begin {
        otid: otid.to_transaction_id(),
        dialogue: own_dialogue(dialogue, alloc)?,
        components: own_portion(components, alloc)?,
    })
}

/// Copies the parts into a Continue.
#[inline(never)]
fn own_continue(
    otid: TransactionIdView,
    dtid: TransactionIdView,
    dialogue: Option<DialogueView>,
    components: Option<PortionView>,
    alloc: Global,
) -> Result<Message, AllocError>
    ensures { IfOk result (λ made. made ≡ Message.Continue otid.entry.octets.now dtid.entry.octets.now
        (option_map dialogue_of dialogue.entry) (option_map components_of components.entry)) }
{
    Ok(Message::Continue {
        otid: otid.to_transaction_id(),
        dtid: dtid.to_transaction_id(),
        dialogue: own_dialogue(dialogue, alloc)?,
        components: own_portion(components, alloc)?,
    })
}

/// Copies the parts into an End.
#[inline(never)]
fn own_end(
    dtid: TransactionIdView,
    dialogue: Option<DialogueView>,
    components: Option<PortionView>,
    alloc: Global,
) -> Result<Message, AllocError>
    ensures { IfOk result (λ made. made ≡ Message.End dtid.entry.octets.now (option_map dialogue_of dialogue.entry)
        (option_map components_of components.entry)) }
{
    Ok(Message::End {
        dtid: dtid.to_transaction_id(),
        dialogue: own_dialogue(dialogue, alloc)?,
        components: own_portion(components, alloc)?,
    })
}

/// Copies the parts into an Abort.
#[inline(never)]
fn own_abort(
    dtid: TransactionIdView,
    reason: Option<AbortReasonView>,
    alloc: Global,
) -> Result<Message, AllocError>
    ensures { IfOk result (λ made. made ≡ Message.Abort dtid.entry.octets.now (option_map reason_of reason.entry)) }
{
    Ok(Message::Abort {
        dtid: dtid.to_transaction_id(),
        reason: own_reason(reason, alloc)?,
    })
}

impl<'a> MessageView<'a> {
    /// Copies the message into an owned value. Each kind has a function, for speed: a function pays at its entry for
    /// all of its locals.
    pub(crate) fn own(self, alloc: Global) -> Result<Message, AllocError>
        ensures { IfOk result (λ message. message ≡ message_of self.entry) }
    {
        match self {
            MessageView::Unidirectional {
                dialogue,
                components,
            } => own_unidirectional(dialogue, components, alloc),
            MessageView::Begin {
                otid,
                dialogue,
                components,
            } => own_begin(otid, dialogue, components, alloc),
            MessageView::Continue {
                otid,
                dtid,
                dialogue,
                components,
            } => own_continue(otid, dtid, dialogue, components, alloc),
            MessageView::End {
                dtid,
                dialogue,
                components,
            } => own_end(dtid, dialogue, components, alloc),
            MessageView::Abort { dtid, reason } => own_abort(dtid, reason, alloc),
        }
    }
}
