//! A read-only view of an open half.

ghost use Rattle.std.specs.Prelude.{◌≡◌, MatchOption, None, Some, IfSome, is_some, option_copied, option_map};
ghost use Rattle.tcap_parts.specs.Meaning.{code_of};
ghost use Rattle.tcap_end.specs.Half.{Half};
ghost use Rattle.tcap_end.specs.End.{named};
ghost use Rattle.tcap_end.specs.ReachableEnd.{IsEnd};
ghost use Rattle.tcap_end.specs.Halves.{IsNumbered, IsHeld, end_of, keyed_half};
ghost use Rattle.tcap_end.specs.HiddenSteps.{open_named};
ghost use Rattle.tcap_end.specs.Component.{own_invocation};
ghost use Rattle.tcap_end.specs.HalfState.{half_of};

use crate::half::{DialogueState, HalfName, InvocationState, Phase, Slot};
use crate::half_state::HalfState;
use crate::halves::{HalfKey, Halves};
use std::alloc::{AllocError, Global};
use std::marker::Model;
use tcap_msg::TransactionId;
use tcap_parts::CodeView;

/// A view of an open half: what its end knows of the transaction (Q.774 3.2 and 3.3).
#[derive(Debug, Drop)]
pub struct OpenHalf<'a> {
    state: &'a HalfState,
}

impl<'a> Model for OpenHalf<'a> {
    ghost use Rattle.tcap_end.specs.Half.{Half};
    ghost use Rattle.tcap_end.specs.HalfState.{half_of};

    ghost Value = { Half };

    ghost view = { λ a. half_of a.state.now };
}

impl<'a> OpenHalf<'a> {
    /// Creates a view of a state.
    pub(crate) fn of(state: &'a HalfState) -> OpenHalf<'a>
        ensures { result ≡ half_of state.now }
    {
        OpenHalf { state }
    }

    /// Returns the phase.
    pub fn phase(&self) -> Phase
        ensures { result ≡ self.now.phase }
    {
        self.state.phase
    }

    /// Returns the own transaction ID, if the half has one.
    pub fn own(&self) -> Option<&TransactionId>
        ensures { option_copied result ≡ self.now.own }
    {
        self.state.own.as_ref()
    }

    /// Returns the peer's transaction ID, if it is known.
    pub fn peer(&self) -> Option<&TransactionId>
        ensures { option_copied result ≡ self.now.peer }
    {
        self.state.peer.as_ref()
    }

    /// Returns the dialogue state.
    pub fn dialogue_state(&self) -> DialogueState
        ensures { result ≡ self.now.dialogue_state }
    {
        self.state.dialogue_state
    }

    /// Returns the operation of the own invocation with this invoke ID, if there is one.
    pub fn own_operation(&self, id: i8) -> Option<CodeView<'_>>
        ensures { MatchOption result (own_invocation self.now id ≡ None)
            (λ code. option_map (λ own. own.code) (own_invocation self.now id) ≡ Some (code_of code)) }
    {
        match self.state.out.get(id) {
            Some(own) => Some(own.code.view()),
            None => None,
        }
    }

    /// Returns the state of the own invocation with this invoke ID, if there is one.
    pub fn own_state(&self, id: i8) -> Option<InvocationState>
        ensures { result ≡ option_map (λ own. own.state) (own_invocation self.now id) }
    {
        match self.state.out.get(id) {
            Some(own) => Some(own.state),
            None => None,
        }
    }

    /// Returns the operations of the received invocations with this invoke ID that were neither answered nor rejected,
    /// oldest first.
    ///
    /// # Errors
    ///
    /// AllocError if memory runs out.
    pub fn received(&self, alloc: Global, id: i8) -> Result<Vec<CodeView<'a>>, AllocError> {
        let mut codes = Vec::new(alloc);
        if let Some(row) = self.state.inn.get(id) {
            for at in 0..row.len() {
                if let Some(item) = row.item(at) {
                    codes.push(item.code.view())?;
                }
            }
        }
        Ok(codes)
    }

    /// Returns, for each received answer with this invoke ID that was not rejected, whether it is a Return Result,
    /// oldest first.
    ///
    /// # Errors
    ///
    /// AllocError if memory runs out.
    pub fn answers(&self, alloc: Global, id: i8) -> Result<Vec<bool>, AllocError> {
        let mut are_results = Vec::new(alloc);
        if let Some(row) = self.state.grants.get(id) {
            for at in 0..row.len() {
                if let Some(item) = row.item(at) {
                    are_results.push(item.is_result)?;
                }
            }
        }
        Ok(are_results)
    }
}

impl Halves {
    /// Finds the half with this name.
    pub(crate) fn named(&self, name: &HalfName) -> Option<HalfKey>
        requires held { IsHeld self.now }
        requires sound { IsEnd (end_of self.now) }
        ensures half { MatchOption result (named (end_of self.now) name.now ≡ None)
            (λ found. (h : Half) × (named (end_of self.now) name.now ≡ Some (keyed_half found.slot found.key h))) }
        ensures found { IfSome result (λ found. IsNumbered found self.now) }
    {
        match name {
            HalfName::Own(id) => self.with_id(Slot::Begun, id.view()),
            HalfName::Peer(id) => self.with_id(Slot::Accepted, id.view()),
        }
    }

    /// Returns whether there is a half with this name, open or closed.
    pub(crate) fn knows(&self, name: &HalfName) -> bool
        requires held { IsHeld self.now }
        requires sound { IsEnd (end_of self.now) }
        ensures { result ≡ is_some (named (end_of self.now) name.now) }
    {
        self.named(name).is_some()
    }

    /// Returns the open half with this name.
    pub(crate) fn open_named(&self, name: &HalfName) -> Option<&HalfState>
        requires held { IsHeld self.now }
        requires sound { IsEnd (end_of self.now) }
        ensures { MatchOption result (open_named (end_of self.now) name.now ≡ None)
            (λ half. open_named (end_of self.now) name.now ≡ Some (half_of half.now)) }
    {
        let Some(found) = self.named(name) else {
            return None;
        };
        let Some(half) = self.half(&found) else {
            return None;
        };
        Some(half)
    }
}
