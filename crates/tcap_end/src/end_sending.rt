//! How an end sends a message (Q.774 3.2 and 3.3).

ghost use Rattle.std.specs.Prelude.{◌≡◌, ◌≢◌, Some, None, Ok, Err, OnErr, option_map};
ghost use Rattle.tcap_parts.specs.DialogueMeaning.{dialogue_of};
ghost use Rattle.tcap_parts.specs.Meaning.{components_left};
ghost use Rattle.tcap_msg.specs.declared.kind.Kind.TheVariants as Kind;
ghost use Rattle.tcap_msg.specs.Parts.{kind_in};
ghost use Rattle.tcap_end.specs.declared.fault.EndFault.TheVariants as EndFault;
ghost use Rattle.tcap_end.specs.Step.{Answers, AnswersInMemory};
ghost use Rattle.tcap_end.specs.Half.{Half};
ghost use Rattle.tcap_end.specs.End.{End, with_own};
ghost use Rattle.tcap_end.specs.Message.{is_active, is_received, send, send_abort, send_continue, send_end, send_first_continue, send_next_continue};
ghost use Rattle.tcap_end.specs.ReachableEnd.{HasHalf, IsEnd};
ghost use Rattle.tcap_end.specs.Halves.{AllPlaced, IsNumbered, IsHeld, end_of, keyed_half};
ghost use Rattle.tcap_end.specs.AbortReason.{reason_of_dialogue};

use crate::changes::Changes;
use crate::dialogues::{may_abort, may_be_uni, may_go_on};
use crate::fault::EndFault;
use crate::half::{Phase, Slot};
use crate::half_components::Direction;
use crate::halves::{HalfKey, Halves, is_id};
use crate::table::Table;
use crate::unidirectional::check_components;
use std::alloc::Global;
use tcap_msg::{Kind, MessageParts, TransactionIdView};
use tcap_parts::{Components, DialogueView};

/// Returns whether a phase is Active.
fn is_active(phase: Phase) -> bool
    ensures { result ≡ is_active phase }
{
    matches!(phase, Phase::Active)
}

/// Returns whether a phase is Received: this end received a Begin and did not yet answer it.
fn is_received(phase: Phase) -> bool
    ensures { result ≡ is_received phase }
{
    matches!(phase, Phase::Received)
}

/// Checks a Unidirectional that is sent. It belongs to no half, and changes no end.
fn check_unidirectional<M: MessageParts>(
    alloc: Global,
    table: &Table,
    message: &M,
) -> Result<(), EndFault>
    requires kind { kind_in (M.meaning message.now) ≡ Kind.Unidirectional }
    ensures step { (e : End) → AnswersInMemory (send table.now e (M.meaning message.now)) result e }
{
    if !may_be_uni(message.dialogue()) {
        return Err(EndFault::WrongDialogue);
    }
    check_components(alloc, table, message.components())
}

impl Halves {
    /// Sends a message.
    pub(crate) fn send<M: MessageParts>(
        &mut self,
        changes: &mut Changes,
        table: &Table,
        message: &M,
    ) -> Result<(), EndFault>
        requires held { IsHeld self.old }
        requires sound { IsEnd (end_of self.old) }
        ensures step { AnswersInMemory (send table.now (end_of self.old) (M.meaning message.now)) result
            (end_of self.new) }
        ensures kept { OnErr result (end_of self.new ≡ end_of self.old) }
        ensures aborts { kind_in (M.meaning message.now) ≡ Kind.Abort → result ≢ Err EndFault.Memory }
        ensures held { IsHeld self.new }
        ensures placed { AllPlaced self.old → AllPlaced self.new }
    {
        let dialogue = message.dialogue();
        let components = message.components();
        match (message.kind(), message.otid(), message.dtid()) {
            (Kind::Unidirectional, _, _) => check_unidirectional(changes.alloc(), table, message),
            (Kind::Begin, Some(otid), _) => {
                self.begin(changes, table, Slot::Begun, otid, dialogue, components)
            }
            (Kind::Continue, Some(otid), Some(dtid)) => {
                self.send_continue(changes, table, otid, dtid, dialogue, components)
            }
            (Kind::End, _, Some(dtid)) => self.send_end(changes, table, dtid, dialogue, components),
            (Kind::Abort, _, Some(dtid)) if message.cause().is_none() => {
                self.send_abort(dtid, dialogue)
            }
            (Kind::Abort, _, _) => Err(EndFault::WrongPhase),
            // Each kind of message has its transaction IDs.
            _ => unreachable!(),
        }
    }

    /// Sends a Continue, by the half with its originating ID if there is one.
    fn send_continue(
        &mut self,
        changes: &mut Changes,
        table: &Table,
        otid: TransactionIdView,
        dtid: TransactionIdView,
        dialogue: Option<DialogueView>,
        components: Components,
    ) -> Result<(), EndFault>
        requires held { IsHeld self.old }
        requires sound { IsEnd (end_of self.old) }
        ensures step { AnswersInMemory (send_continue table.now
            (end_of self.old) otid.entry.octets.now dtid.entry.octets.now
            (option_map dialogue_of dialogue.entry) (components_left components.entry)
            (with_own (end_of self.old) otid.entry.octets.now)) result (end_of self.new) }
        ensures kept { OnErr result (end_of self.new ≡ end_of self.old) }
        ensures held { IsHeld self.new }
        ensures placed { AllPlaced self.old → AllPlaced self.new }
    {
        match self.with_id(Slot::Begun, otid) {
            Some(found) => {
                self.send_next_continue(changes, table, &found, dtid, dialogue, components)
            }
            None => self.send_first_continue(changes, table, otid, dtid, dialogue, components),
        }
    }

    /// Sends a Continue over the half that has its originating ID.
    fn send_next_continue(
        &mut self,
        changes: &mut Changes,
        table: &Table,
        found: &HalfKey,
        dtid: TransactionIdView,
        dialogue: Option<DialogueView>,
        components: Components,
    ) -> Result<(), EndFault>
        requires held { IsHeld self.old }
        requires exists { (h : Half) × HasHalf (end_of self.old) (keyed_half found.now.slot found.now.key h) }
        requires found { IsNumbered found.now self.old }
        ensures step { (h : Half) → HasHalf (end_of self.old) (keyed_half found.now.slot found.now.key h)
            → AnswersInMemory (send_next_continue table.now (end_of self.old) dtid.entry.octets.now
            (option_map dialogue_of dialogue.entry) (components_left components.entry)
            (keyed_half found.now.slot found.now.key h)) result (end_of self.new) }
        ensures kept { OnErr result (end_of self.new ≡ end_of self.old) }
        ensures held { IsHeld self.new }
        ensures placed { AllPlaced self.old → AllPlaced self.new }
    {
        let Some(half) = self.half(found) else {
            return Err(EndFault::WrongPhase);
        };
        if !is_active(half.phase) {
            return Err(EndFault::WrongPhase);
        }
        if !is_id(dtid, &half.peer) {
            return Err(EndFault::NoTransaction);
        }
        if !may_go_on(half.phase, half.dialogue_state, dialogue) {
            return Err(EndFault::WrongDialogue);
        }
        self.step_over(changes, table, found, Direction::Out, components)
    }

    /// Sends a Continue that answers a Begin. No half has its originating ID.
    fn send_first_continue(
        &mut self,
        changes: &mut Changes,
        table: &Table,
        otid: TransactionIdView,
        dtid: TransactionIdView,
        dialogue: Option<DialogueView>,
        components: Components,
    ) -> Result<(), EndFault>
        requires held { IsHeld self.old }
        requires sound { IsEnd (end_of self.old) }
        requires unused { with_own (end_of self.old) otid.octets.now ≡ None }
        ensures step { AnswersInMemory (send_first_continue table.now
            (end_of self.old) otid.entry.octets.now dtid.entry.octets.now
            (option_map dialogue_of dialogue.entry) (components_left components.entry)) result (end_of self.new) }
        ensures kept { OnErr result (end_of self.new ≡ end_of self.old) }
        ensures held { IsHeld self.new }
        ensures placed { AllPlaced self.old → AllPlaced self.new }
    {
        let Some(found) = self.with_id(Slot::Accepted, dtid) else {
            return Err(EndFault::NoTransaction);
        };
        let Some(half) = self.half(&found) else {
            return Err(EndFault::WrongPhase);
        };
        if !is_received(half.phase) {
            return Err(EndFault::WrongPhase);
        }
        if !may_go_on(half.phase, half.dialogue_state, dialogue) {
            return Err(EndFault::WrongDialogue);
        }
        self.activate_over(changes, table, &found, otid.to_transaction_id(), components)
    }

    /// Sends an End.
    fn send_end(
        &mut self,
        changes: &mut Changes,
        table: &Table,
        dtid: TransactionIdView,
        dialogue: Option<DialogueView>,
        components: Components,
    ) -> Result<(), EndFault>
        requires held { IsHeld self.old }
        requires sound { IsEnd (end_of self.old) }
        ensures step { AnswersInMemory (send_end table.now (end_of self.old) dtid.entry.octets.now
            (option_map dialogue_of dialogue.entry) (components_left components.entry)) result (end_of self.new) }
        ensures kept { OnErr result (end_of self.new ≡ end_of self.old) }
        ensures held { IsHeld self.new }
        ensures placed { AllPlaced self.old → AllPlaced self.new }
    {
        let Some(found) = self.with_id(Slot::Accepted, dtid) else {
            return Err(EndFault::NoTransaction);
        };
        let Some(half) = self.half(&found) else {
            return Err(EndFault::WrongPhase);
        };
        if !may_go_on(half.phase, half.dialogue_state, dialogue) {
            return Err(EndFault::WrongDialogue);
        }
        self.step_over(changes, table, &found, Direction::Out, components)?;
        self.close(found);
        Ok(())
    }

    /// Sends an Abort without a cause.
    fn send_abort(
        &mut self,
        dtid: TransactionIdView,
        dialogue: Option<DialogueView>,
    ) -> Result<(), EndFault>
        requires held { IsHeld self.old }
        requires sound { IsEnd (end_of self.old) }
        ensures step { Answers (send_abort (end_of self.old) dtid.entry.octets.now
            (reason_of_dialogue (option_map dialogue_of dialogue.entry))) result (end_of self.new) }
        ensures memory { result ≢ Err EndFault.Memory }
        ensures kept { OnErr result (end_of self.new ≡ end_of self.old) }
        ensures held { IsHeld self.new }
        ensures placed { AllPlaced self.old → AllPlaced self.new }
    {
        let Some(found) = self.with_id(Slot::Accepted, dtid) else {
            return Err(EndFault::NoTransaction);
        };
        let Some(half) = self.half(&found) else {
            return Err(EndFault::WrongPhase);
        };
        if !may_abort(half.phase, half.dialogue_state, dialogue) {
            return Err(EndFault::WrongDialogue);
        }
        self.close(found);
        Ok(())
    }
}
