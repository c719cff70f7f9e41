//! Access to the parts of a message or of a view.

ghost use Rattle.std.specs.Prelude.{◌≡◌, ◌<◌, ℕ, List, length, slice_get, Some, IfOk};
ghost use Rattle.std.specs.Option.{option_map};
ghost use Rattle.tcap_parts.specs.declared.component.Component.{Component};
ghost use Rattle.tcap_parts.specs.Meaning.{component_of, components_of, components_left};
ghost use Rattle.tcap_parts.specs.DialogueMeaning.{dialogue_of};
ghost use Rattle.tcap_msg.specs.declared.message.Message.{Message};
ghost use Rattle.tcap_msg.specs.Meaning.{id_of, cause_of, message_of};
ghost use Rattle.tcap_msg.specs.Parts.{kind_in, otid_in, dtid_in, cause_in, dialogue_in, portion_in, components_in};

use crate::kind::Kind;
use crate::message::Message;
use crate::transaction_id::TransactionIdView;
use crate::views::{AbortReasonView, MessageView};
use std::alloc::{AllocError, Global};
use tcap_ber::SmallView;
use tcap_parts::{ComponentView, Components, DialogueView, PortionView};

/// A message whose parts can be read (Q.773 4.2.1). Only `to_message` allocates or copies a part.
pub trait MessageParts {
    // The message that the parts belong to.
    ghost meaning: { Self → Message };

    /// Copies the message into an owned value.
    ///
    /// # Errors
    ///
    /// `AllocError` if memory runs out.
    fn to_message(&self, alloc: Global) -> Result<Message, AllocError>
        ensures { IfOk result (λ message. message ≡ meaning self.now) };

    /// Returns the kind of the message.
    fn kind(&self) -> Kind
        ensures { result ≡ kind_in (meaning self.now) };

    /// Returns the originating transaction ID, which a Begin and a Continue have.
    fn otid(&self) -> Option<TransactionIdView<'_>>
        ensures { id_of result ≡ otid_in (meaning self.now) };

    /// Returns the destination transaction ID, which a Continue, an End and an Abort have.
    fn dtid(&self) -> Option<TransactionIdView<'_>>
        ensures { id_of result ≡ dtid_in (meaning self.now) };

    /// Returns the P-Abort cause, which an Abort may have.
    fn cause(&self) -> Option<SmallView>
        ensures { cause_of result ≡ cause_in (meaning self.now) };

    /// Returns the PDU of the dialogue portion. Each message may have one, except an Abort with a P-Abort cause.
    fn dialogue(&self) -> Option<DialogueView<'_>>
        ensures { option_map dialogue_of result ≡ dialogue_in (meaning self.now) };

    /// Returns the number of components, 0 if there is no component portion.
    fn count(&self) -> usize
        ensures { result ≡ length (components_in (meaning self.now)) };

    /// Returns the component at `index`, counted from 0. There must be one. For a view of octets, the components before
    /// it are read too.
    fn component(&self, index: usize) -> ComponentView<'_>
        requires { index < length (components_in (meaning self.now)) }
        ensures { slice_get (components_in (meaning self.now)) index ≡ Some (component_of result) };

    /// Returns an iterator over the components, empty if there is no component portion.
    fn components(&self) -> Components<'_>
        ensures { components_left result ≡ components_in (meaning self.now) };
}

impl<'a> MessageView<'a> {
    fn its_kind(&self) -> Kind
        ensures { result ≡ kind_in (message_of self.now) }
    {
        match self {
            MessageView::Unidirectional { .. } => Kind::Unidirectional,
            MessageView::Begin { .. } => Kind::Begin,
            MessageView::Continue { .. } => Kind::Continue,
            MessageView::End { .. } => Kind::End,
            MessageView::Abort { .. } => Kind::Abort,
        }
    }

    fn its_otid(&self) -> Option<TransactionIdView<'a>>
        ensures { id_of result ≡ otid_in (message_of self.now) }
    {
        match self {
            MessageView::Begin { otid, .. } | MessageView::Continue { otid, .. } => Some(*otid),
            _ => None,
        }
    }

    fn its_dtid(&self) -> Option<TransactionIdView<'a>>
        ensures { id_of result ≡ dtid_in (message_of self.now) }
    {
        match self {
            MessageView::Continue { dtid, .. }
            | MessageView::End { dtid, .. }
            | MessageView::Abort { dtid, .. } => Some(*dtid),
            _ => None,
        }
    }

    fn its_cause(&self) -> Option<SmallView>
        ensures { cause_of result ≡ cause_in (message_of self.now) }
    {
        match self {
            MessageView::Abort {
                reason: Some(AbortReasonView::Cause(cause)),
                ..
            } => Some(*cause),
            _ => None,
        }
    }

    fn its_dialogue(&self) -> Option<DialogueView<'a>>
        ensures { option_map dialogue_of result ≡ dialogue_in (message_of self.now) }
    {
        match self {
            MessageView::Unidirectional {
                dialogue: Some(dialogue),
                ..
            }
            | MessageView::Begin {
                dialogue: Some(dialogue),
                ..
            }
            | MessageView::Continue {
                dialogue: Some(dialogue),
                ..
            }
            | MessageView::End {
                dialogue: Some(dialogue),
                ..
            }
            | MessageView::Abort {
                reason: Some(AbortReasonView::Dialogue(dialogue)),
                ..
            } => Some(*dialogue),
            _ => None,
        }
    }

    /// Returns the component portion, if the message has one.
    pub(crate) fn its_portion(&self) -> Option<PortionView<'a>>
        ensures { option_map components_of result ≡ portion_in (message_of self.now) }
    {
        match self {
            MessageView::Unidirectional { components, .. } => Some(*components),
            MessageView::Begin { components, .. }
            | MessageView::Continue { components, .. }
            | MessageView::End { components, .. } => *components,
            MessageView::Abort { .. } => None,
        }
    }

    fn its_count(&self) -> usize
        ensures { result ≡ length (components_in (message_of self.now)) }
    {
        match self.its_portion() {
            Some(portion) => portion.count(),
            None => 0,
        }
    }

    fn its_component(&self, index: usize) -> ComponentView<'a>
        requires { index < length (components_in (message_of self.now)) }
        ensures { slice_get (components_in (message_of self.now)) index ≡ Some (component_of result) }
    {
        match self.its_portion() {
            Some(portion) => portion.component(index),
            None => unreachable!(),
        }
    }

    fn its_components(&self) -> Components<'a>
        ensures { components_left result ≡ components_in (message_of self.now) }
    {
        match self.its_portion() {
            Some(portion) => portion.components(),
            None => Components::Values(&[]),
        }
    }
}

impl<'a> MessageParts for MessageView<'a> {
    ghost meaning = { message_of };

    fn to_message(&self, alloc: Global) -> Result<Message, AllocError> {
        self.own(alloc)
    }

    fn kind(&self) -> Kind {
        self.its_kind()
    }

    fn otid(&self) -> Option<TransactionIdView<'_>> {
        self.its_otid()
    }

    fn dtid(&self) -> Option<TransactionIdView<'_>> {
        self.its_dtid()
    }

    fn cause(&self) -> Option<SmallView> {
        self.its_cause()
    }

    fn dialogue(&self) -> Option<DialogueView<'_>> {
        self.its_dialogue()
    }

    fn count(&self) -> usize {
        self.its_count()
    }

    fn component(&self, index: usize) -> ComponentView<'_> {
        self.its_component(index)
    }

    fn components(&self) -> Components<'_> {
        self.its_components()
    }
}

impl MessageParts for Message {
    ghost meaning = { λ message. message };

    fn to_message(&self, alloc: Global) -> Result<Message, AllocError> {
        self.view().own(alloc)
    }

    fn kind(&self) -> Kind {
        self.view().its_kind()
    }

    fn otid(&self) -> Option<TransactionIdView<'_>> {
        self.view().its_otid()
    }

    fn dtid(&self) -> Option<TransactionIdView<'_>> {
        self.view().its_dtid()
    }

    fn cause(&self) -> Option<SmallView> {
        self.view().its_cause()
    }

    fn dialogue(&self) -> Option<DialogueView<'_>> {
        self.view().its_dialogue()
    }

    fn count(&self) -> usize {
        self.view().its_count()
    }

    fn component(&self, index: usize) -> ComponentView<'_> {
        self.view().its_component(index)
    }

    fn components(&self) -> Components<'_> {
        self.view().its_components()
    }
}
