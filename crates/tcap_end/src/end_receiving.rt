//! How an end receives a message (Q.774 3.2 and 3.3).

ghost use Rattle.std.specs.Prelude.{◌≡◌, ◌≢◌, IsSome, Some, OnErr, option_map};
ghost use Rattle.tcap_parts.specs.DialogueMeaning.{dialogue_of};
ghost use Rattle.tcap_parts.specs.Meaning.{components_left};
ghost use Rattle.tcap_msg.specs.Parts.{otid_in};
ghost use Rattle.tcap_end.specs.Step.{AnswersInMemory};
ghost use Rattle.tcap_end.specs.End.{with_own};
ghost use Rattle.tcap_end.specs.Message.{receive, receive_continue, receive_end};
ghost use Rattle.tcap_end.specs.ReachableEnd.{IsEnd};
ghost use Rattle.tcap_end.specs.Halves.{AllPlaced, IsHeld, end_of};

use crate::changes::Changes;
use crate::dialogues::answers_request;
use crate::fault::EndFault;
use crate::half::{Phase, Slot};
use crate::half_components::Direction;
use crate::halves::{Halves, is_id};
use crate::table::Table;
use tcap_msg::{Kind, MessageParts, TransactionIdView};
use tcap_parts::{Components, DialogueView};

impl Halves {
    /// Receives a message.
    pub(crate) fn receive<M: MessageParts>(
        &mut self,
        changes: &mut Changes,
        table: &Table,
        message: &M,
    ) -> Result<(), EndFault>
        requires held { IsHeld self.old }
        requires sound { IsEnd (end_of self.old) }
        ensures step { AnswersInMemory (receive table.now (end_of self.old) (M.meaning message.now)) result
            (end_of self.new) }
        ensures kept { OnErr result (end_of self.new ≡ end_of self.old) }
        ensures only { OnErr result (IsSome (otid_in (M.meaning message.now))) }
        ensures held { IsHeld self.new }
        ensures placed { AllPlaced self.old → AllPlaced self.new }
    {
        let dialogue = message.dialogue();
        let components = message.components();
        match (message.kind(), message.otid(), message.dtid()) {
            (Kind::Unidirectional, _, _) => Ok(()),
            (Kind::Begin, Some(otid), _) => {
                self.begin(changes, table, Slot::Accepted, otid, dialogue, components)
            }
            (Kind::Continue, Some(otid), Some(dtid)) => {
                self.receive_continue(changes, table, otid, dtid, dialogue, components)
            }
            (Kind::End | Kind::Abort, _, Some(dtid)) => {
                self.receive_end(dtid);
                Ok(())
            }
            // Each kind of message has its transaction IDs.
            _ => unreachable!(),
        }
    }

    /// Receives a Continue.
    fn receive_continue(
        &mut self,
        changes: &mut Changes,
        table: &Table,
        otid: TransactionIdView,
        dtid: TransactionIdView,
        dialogue: Option<DialogueView>,
        components: Components,
    ) -> Result<(), EndFault>
        requires held { IsHeld self.old }
        requires sound { IsEnd (end_of self.old) }
        ensures step { AnswersInMemory (receive_continue table.now
            (end_of self.old) otid.entry.octets.now dtid.entry.octets.now
            (option_map dialogue_of dialogue.entry) (components_left components.entry)) result (end_of self.new) }
        ensures kept { OnErr result (end_of self.new ≡ end_of self.old) }
        ensures held { IsHeld self.new }
        ensures placed { AllPlaced self.old → AllPlaced self.new }
    {
        let Some(found) = self.with_id(Slot::Begun, dtid) else {
            return Err(EndFault::NoTransaction);
        };
        let Some(half) = self.half(&found) else {
            return Err(EndFault::NoTransaction);
        };
        match half.phase {
            Phase::Sent => {
                let dialogue_state = half.dialogue_state;
                if self.with_id(Slot::Accepted, otid).is_some() {
                    return Err(EndFault::IdUsed);
                }
                if !answers_request(dialogue_state, dialogue) {
                    return Err(EndFault::WrongDialogue);
                }
                self.activate_over(changes, table, &found, otid.to_transaction_id(), components)
            }
            Phase::Active => {
                if !is_id(otid, &half.peer) {
                    return Err(EndFault::NoTransaction);
                }
                self.step_over(changes, table, &found, Direction::In, components)
            }
            _ => Err(EndFault::NoTransaction),
        }
    }

    /// Receives an End or an Abort: closes the open half with this own ID, if there is one.
    fn receive_end(&mut self, dtid: TransactionIdView)
        requires held { IsHeld self.old }
        requires sound { IsEnd (end_of self.old) }
        ensures received { end_of self.new ≡ receive_end (end_of self.old)
            (with_own (end_of self.old) dtid.entry.octets.now) }
        ensures held { IsHeld self.new }
        ensures placed { AllPlaced self.old → AllPlaced self.new }
    {
        let Some(found) = self.with_id(Slot::Begun, dtid) else {
            return;
        };
        if self.half(&found).is_some() {
            self.close(found);
        }
    }
}
