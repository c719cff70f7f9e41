//! The effects of a message on what is kept of transaction IDs.

ghost use Rattle.std.specs.Prelude.{◌≡◌, ◌&&◌, ℕ, List, Some};
ghost use Rattle.tcap_msg.specs.declared.message.Message.{Message};
ghost use Rattle.tcap_record.specs.declared.entry.End.{End as Side};
ghost use Rattle.tcap_end.specs.Table.{Table};
ghost use Rattle.tcap_model.specs.World.{Item};
ghost use Rattle.tcap_faults.specs.MessageEffects.{AreEffects};
ghost use Rattle.tcap_faults.specs.KeptForMessage.{AreMessageIds};
ghost use Rattle.tcap_faults.specs.UsedAgain.{uses_again};

use crate::transaction::lookup::MessageIds;
use crate::transaction::sent_from_id::begins;
use crate::transaction::sent_to_id::is_ended;

/// The effects of a message. A field that needs an ID means nothing if the message lacks it.
#[derive(Clone, Copy)]
pub(crate) struct Effects {
    /// True if the message uses an own ID again.
    pub(crate) again: bool,
    /// True if its end had used the originating ID before.
    pub(crate) used: bool,
    /// True if its end had begun the originating ID, and the peer had not used the destination ID.
    pub(crate) guesses: bool,
    /// True if its end had sent an End, or an Abort without cause, to the destination ID.
    pub(crate) over: bool,
    /// True if the peer had used the destination ID.
    pub(crate) joins: bool,
    /// True if the peer had used the destination ID, and had sent an End, or an Abort without cause, to the
    /// originating ID.
    pub(crate) peer_over: bool,
}

impl MessageIds<'_> {
    /// Returns the effects of the message. `again` is whether it uses an own ID again.
    pub(crate) fn effects(self, again: bool) -> Effects
        ensures { (table : Table) (side : Side) (items : List Item) (m : Message)
            → AreMessageIds table side items m self.entry
            → again ≡ uses_again table side items m → AreEffects table side items m result }
    {
        let (used, begun, ended) = match self.own {
            Some(own) => (own.from.is_some(), begins(own.from), is_ended(own.to)),
            None => (false, false, false),
        };
        let (joins, over) = match self.peer_id {
            Some(peer_id) => (peer_id.from.is_some(), is_ended(peer_id.to)),
            None => (false, false),
        };
        Effects {
            again,
            used,
            guesses: begun & !joins,
            over,
            joins,
            peer_over: joins & ended,
        }
    }
}
