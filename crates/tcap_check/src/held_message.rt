//! Messages that wait to be delivered.

ghost use Rattle.std.specs.Prelude.{◌≡◌, IfOk, IfSome};
ghost use Rattle.tcap_msg.specs.Meaning.{message_of};

use std::alloc::{AllocError, Global};
use std::marker::Model;
use tcap_msg::{Message, MessageParts, MessageView};

/// The owner of a message.
#[derive(Debug, Drop)]
pub(crate) enum MessageStorage<'r> {
    /// A copy that the replay owns.
    Own(Message),
    /// A message of a record that outlives the replay.
    Lent(&'r Message),
}

/// A message that is kept until it is delivered.
#[derive(Debug, Drop)]
pub(crate) struct WaitingMessage<'r> {
    keeping: MessageStorage<'r>,
}

impl<'r> Model for WaitingMessage<'r> {
    ghost use Rattle.tcap_msg.specs.declared.message.Message.{Message as Meant};
    ghost use Rattle.tcap_check.specs.HeldMessage.{kept_message};

    ghost Value = { Meant };

    ghost view = { λ h. kept_message h.keeping };
}

impl<'r> WaitingMessage<'r> {
    /// Keeps the lent message if there is one, else a copy of `message`. Fails if memory runs out.
    pub(crate) fn new<M: MessageParts>(
        alloc: Global,
        message: &M,
        lent: Option<&'r Message>,
    ) -> Result<WaitingMessage<'r>, AllocError>
        requires same { IfSome lent (λ lent. lent.now ≡ M.meaning message.now) }
        ensures { IfOk result (λ held. held ≡ M.meaning message.now) }
    {
        let keeping = match lent {
            Some(message) => MessageStorage::Lent(message),
            None => MessageStorage::Own(message.to_message(alloc)?),
        };
        Ok(WaitingMessage { keeping })
    }

    /// Returns a view of the message.
    pub(crate) fn view(&self) -> MessageView<'_>
        ensures { message_of result ≡ self.now }
    {
        match &self.keeping {
            MessageStorage::Own(message) => message.view(),
            MessageStorage::Lent(message) => message.view(),
        }
    }
}
