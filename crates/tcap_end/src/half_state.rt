//! The state of an open half, and undoing its changes.

ghost use Rattle.std.specs.Prelude.{◌≡◌, ◌∷◌, OnErr, OnOk};
ghost use Rattle.tcap_end.specs.Begins.{fresh_in};
ghost use Rattle.tcap_end.specs.Half.{Half, fresh};
ghost use Rattle.tcap_end.specs.Component.{own_invocation};
ghost use Rattle.tcap_end.specs.HiddenSteps.{may_expire};
ghost use Rattle.tcap_end.specs.HalfState.{CanUndo, IsUndone, Undoes, half_of};

use crate::changes::Changes;
use crate::half::{DialogueState, InvocationState, Phase, Slot};
use crate::own_invocations::{Outs, OwnInvocation};
use crate::received::{Answer, Invocation};
use crate::table::Table;
use std::alloc::{AllocError, Global};
use tcap_lists::Lists;
use tcap_msg::TransactionId;

/// The state of an open half.
#[derive(Debug, Drop)]
pub(crate) struct HalfState {
    pub(crate) slot: Slot,
    pub(crate) phase: Phase,
    pub(crate) own: Option<TransactionId>,
    pub(crate) peer: Option<TransactionId>,
    pub(crate) dialogue_state: DialogueState,
    pub(crate) out: Outs,
    pub(crate) inn: Lists<Invocation>,
    pub(crate) grants: Lists<Answer>,
}

/// A change that a component made in a half, with what is needed to undo it.
#[derive(Debug, Drop)]
pub(crate) enum Change {
    /// The own invocation of an ID was replaced; `was` is the earlier one, if any.
    Out { id: i8, was: Option<OwnInvocation> },
    /// A received invocation was removed from place `at` of an ID's row.
    InnTaken { id: i8, at: usize, kind: usize },
    /// A received answer was removed from place `at` of an ID's row.
    GrantTaken { id: i8, at: usize, kind: usize },
    /// The own invocation of an ID moved to Wait for Reject, after its last answer.
    Waits(i8),
    /// An invocation was added to an ID's row.
    InnJoined(i8),
    /// An answer was added to an ID's row.
    GrantJoined(i8),
}

impl HalfState {
    /// Creates a half with no invocations and no answers.
    fn fresh(
        alloc: Global,
        slot: Slot,
        phase: Phase,
        own: Option<TransactionId>,
        peer: Option<TransactionId>,
        dialogue_state: DialogueState,
    ) -> HalfState
        ensures half { half_of result ≡ fresh phase own peer dialogue_state }
        ensures slot { result.slot ≡ slot }
    {
        HalfState {
            slot,
            phase,
            own,
            peer,
            dialogue_state,
            out: Outs::new(alloc),
            inn: Lists::new(alloc),
            grants: Lists::new(alloc),
        }
    }

    /// Creates the half of a Begin with this originating ID, before the Begin's components.
    pub(crate) fn new(
        alloc: Global,
        slot: Slot,
        id: TransactionId,
        dialogue_state: DialogueState,
    ) -> HalfState
        ensures half { half_of result ≡ fresh_in slot id dialogue_state }
        ensures slot { result.slot ≡ slot }
    {
        match slot {
            Slot::Begun => {
                HalfState::fresh(alloc, slot, Phase::Sent, Some(id), None, dialogue_state)
            }
            Slot::Accepted => {
                HalfState::fresh(alloc, slot, Phase::Received, None, Some(id), dialogue_state)
            }
        }
    }

    /// Returns whether the own invocation of an ID may expire.
    pub(crate) fn may_expire(&self, table: &Table, id: i8) -> bool
        ensures { result ≡ may_expire table.now (own_invocation (half_of self.now) id) }
    {
        match self.out.get(id) {
            Some(own) => match own.state {
                InvocationState::WaitForReject => true,
                InvocationState::OperationSent => table.expires(own.code.view()),
            },
            None => false,
        }
    }

    /// Undoes the latest change.
    fn undo(&mut self, change: Change)
        requires can { CanUndo change self.old }
        ensures { IsUndone change self.old self.new }
    {
        match change {
            Change::Out { id, was } => {
                self.out.put(id, was);
            }
            Change::Waits(id) => self.out.set_state(id, InvocationState::OperationSent),
            Change::InnTaken { id, at, kind } => self.inn.put_back(id, at, kind),
            Change::GrantTaken { id, at, kind } => self.grants.put_back(id, at, kind),
            Change::InnJoined(id) => self.inn.remove_newest(id),
            Change::GrantJoined(id) => self.grants.remove_newest(id),
        }
    }

    /// Undoes all changes, the latest first.
    pub(crate) fn undo_all(&mut self, changes: &mut Changes)
        requires can { (start : Half) × Undoes changes.old self.old start }
        ensures undone { (start : Half) → Undoes changes.old self.old start → half_of self.new ≡ start }
        ensures slot { self.new.slot ≡ self.old.slot }
    {
        for _ in 0..changes.len() {
            if let Some(change) = changes.pop() {
                self.undo(change);
            }
        }
    }

    /// Notes a change that was made, or undoes it if there is no memory to note it.
    pub(crate) fn note(&mut self, changes: &mut Changes, change: Change) -> Result<(), AllocError>
        requires can { CanUndo change self.old }
        ensures noted { OnOk result ((self.new ≡ self.old) × (changes.new ≡ change ∷ changes.old)) }
        ensures undone { OnErr result (IsUndone change self.old self.new × (changes.new ≡ changes.old)) }
    {
        match changes.push(change) {
            Ok(()) => Ok(()),
            Err(failed) => {
                self.undo(failed.value);
                Err(AllocError)
            }
        }
    }

    /// Makes the changes final: empty places to which nothing can return may be removed.
    pub(crate) fn settle(&mut self, changes: &Changes)
        ensures half { half_of self.new ≡ half_of self.old }
        ensures slot { self.new.slot ≡ self.old.slot }
    {
        for change in changes.as_slice() {
            match change {
                Change::InnTaken { id, .. } => self.inn.drop_empty_places(*id),
                Change::GrantTaken { id, .. } => self.grants.drop_empty_places(*id),
                _ => {}
            }
        }
    }
}
