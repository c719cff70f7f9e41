//! How sending a component changes a half (Q.774 3.2, component sub-layer; Q.771, operation classes).

ghost use Rattle.std.specs.Prelude.{◌≡◌, Bool, true, Option, Some, None, Err, IsSome, OnOk, option_map, slice_index_or};
ghost use Rattle.tcap_parts.specs.declared.code.Code.{Code};
ghost use Rattle.tcap_parts.specs.Meaning.{code_of, component_of, problem_of};
ghost use Rattle.tcap_end.specs.Step.{AnswersInMemory};
ghost use Rattle.tcap_end.specs.Half.{listed, one_fits};
ghost use Rattle.tcap_end.specs.Component.{may_answer, may_link, send_answer, send_component, send_invoke, send_reject};
ghost use Rattle.tcap_end.specs.HalfState.{StillUndoes, half_of, kept_of, without_grant, without_inn};
ghost use Rattle.tcap_lists.specs.Lists.{rows_of};
ghost use Rattle.tcap_end.specs.OldestPlace.{place_of, rejected_place};
ghost use Rattle.tcap_lists.specs.Row.{fits_in};

use crate::changes::Changes;
use crate::fault::EndFault;
use crate::half::InvocationState;
use crate::half_state::{Change, HalfState};
use crate::own_invocations::OwnInvocation;
use crate::places::{first_answerable, first_rejectable, first_rejectable_answer, links_one};
use crate::table::Table;
use std::alloc::{AllocError, Global};
use tcap_parts::{CodeView, ComponentView, ProblemView};

impl HalfState {
    /// Returns whether the operation may be linked to a received invocation with this linked ID; true without a linked
    /// ID.
    fn may_link(&self, table: &Table, linked: Option<i8>, code: CodeView) -> bool
        ensures { result ≡ may_link table.now (half_of self.now) linked (code_of code.entry) }
    {
        let Some(linked) = linked else {
            return true;
        };
        match self.inn.get(linked) {
            Some(row) => links_one(row, table, code),
            None => false,
        }
    }

    /// Sends an Invoke.
    fn send_invoke(
        &mut self,
        alloc: Global,
        changes: &mut Changes,
        table: &Table,
        id: i8,
        linked: Option<i8>,
        code: CodeView,
    ) -> Result<(), EndFault>
        ensures step { AnswersInMemory (send_invoke table.now (half_of self.old) id linked (code_of code.entry))
            result (half_of self.new) }
        ensures undoes { StillUndoes changes.old self.old changes.new self.new }
        ensures slot { self.new.slot ≡ self.old.slot }
    {
        if !table.has(code) {
            return Err(EndFault::UnknownOperation);
        }
        if self.out.get(id).is_some() {
            return Err(EndFault::InvokeIdBusy);
        }
        if !self.may_link(table, linked, code) {
            return Err(EndFault::BadLink);
        }
        let code = code.to_code(alloc)?;
        let state = InvocationState::OperationSent;
        let was = self.out.join(id, OwnInvocation { code, state })?;
        self.note(changes, Change::Out { id, was })?;
        Ok(())
    }

    /// Finds the place of the oldest invocation of an ID that this answer may answer.
    fn answerable_place(
        &self,
        table: &Table,
        is_result: bool,
        id: i8,
        named: Option<CodeView>,
    ) -> Option<usize>
        ensures { result ≡ place_of (fits_in (may_answer table.now is_result (option_map code_of named.entry)))
            (listed id (rows_of self.now.inn)) }
    {
        first_answerable(self.inn.get(id)?, table, is_result, named)
    }

    /// Returns whether a received invocation has this ID.
    pub(crate) fn has_invocation(&self, id: i8) -> bool
        ensures { result ≡ one_fits id (λ item. true) (half_of self.now).inn }
    {
        match self.inn.get(id) {
            Some(row) => row.oldest().is_some(),
            None => false,
        }
    }

    /// Returns the reason why this answer may answer no invocation of the ID.
    fn why_no_answer(&self, table: &Table, is_result: bool, id: i8) -> EndFault
        ensures { (last : Bool) (named : Option Code)
            → place_of (fits_in (may_answer table.now is_result named)) (listed id (rows_of self.now.inn)) ≡ None
            → send_answer table.now (half_of self.now) is_result last id named ≡ Err result }
    {
        if self.answerable_place(table, is_result, id, None).is_some() {
            return EndFault::WrongOperation;
        }
        if self.has_invocation(id) {
            EndFault::ClassForbids
        } else {
            EndFault::NothingToAnswer
        }
    }

    /// Sends a Return Result (`is_result`) or Return Error, which carries the operation `named` or none. Only a last
    /// answer removes the invocation.
    fn send_answer(
        &mut self,
        changes: &mut Changes,
        table: &Table,
        is_result: bool,
        last: bool,
        id: i8,
        named: Option<CodeView>,
    ) -> Result<(), EndFault>
        ensures step { AnswersInMemory (send_answer table.now (half_of self.old) is_result last id
            (option_map code_of named.entry))
            result (half_of self.new) }
        ensures undoes { StillUndoes changes.old self.old changes.new self.new }
        ensures slot { self.new.slot ≡ self.old.slot }
    {
        let Some(at) = self.answerable_place(table, is_result, id, named) else {
            return Err(self.why_no_answer(table, is_result, id));
        };
        if last {
            self.take_inn(changes, id, at)?;
        }
        Ok(())
    }

    /// Removes the invocation in a place of an ID's row.
    fn take_inn(&mut self, changes: &mut Changes, id: i8, at: usize) -> Result<(), AllocError>
        requires exists { IsSome (slice_index_or (listed id (rows_of self.old.inn)) at None) }
        ensures taken { OnOk result (kept_of self.new ≡ without_inn id at (kept_of self.old)) }
        ensures undoes { StillUndoes changes.old self.old changes.new self.new }
        ensures slot { self.new.slot ≡ self.old.slot }
    {
        let kind = self.inn.take(id, at);
        self.note(changes, Change::InnTaken { id, at, kind })
    }

    /// Removes the answer in a place of an ID's row.
    fn take_grant(&mut self, changes: &mut Changes, id: i8, at: usize) -> Result<(), AllocError>
        requires exists { IsSome (slice_index_or (listed id (rows_of self.old.grants)) at None) }
        ensures taken { OnOk result (kept_of self.new ≡ without_grant id at (kept_of self.old)) }
        ensures undoes { StillUndoes changes.old self.old changes.new self.new }
        ensures slot { self.new.slot ≡ self.old.slot }
    {
        let kind = self.grants.take(id, at);
        self.note(changes, Change::GrantTaken { id, at, kind })
    }

    /// Finds the place of the oldest item that a Reject with this problem rejects.
    fn rejected_place(&self, id: i8, problem: ProblemView) -> Option<usize>
        ensures { result ≡ rejected_place (rows_of self.now.inn) (rows_of self.now.grants) id (problem_of problem) }
    {
        match problem {
            ProblemView::General(_) => None,
            ProblemView::Invoke(n) => first_rejectable(self.inn.get(id)?, n.number),
            ProblemView::ReturnResult(n) => {
                first_rejectable_answer(self.grants.get(id)?, true, n.number)
            }
            ProblemView::ReturnError(n) => {
                first_rejectable_answer(self.grants.get(id)?, false, n.number)
            }
        }
    }

    /// Sends a Reject.
    fn send_reject(
        &mut self,
        changes: &mut Changes,
        id: Option<i8>,
        problem: ProblemView,
    ) -> Result<(), EndFault>
        ensures step { AnswersInMemory (send_reject (half_of self.old) id (problem_of problem)) result
            (half_of self.new) }
        ensures undoes { StillUndoes changes.old self.old changes.new self.new }
        ensures slot { self.new.slot ≡ self.old.slot }
    {
        let Some(id) = id else {
            return Err(EndFault::RejectNotAllowed);
        };
        let Some(at) = self.rejected_place(id, problem) else {
            return Err(EndFault::RejectNotAllowed);
        };
        match problem {
            ProblemView::Invoke(_) => self.take_inn(changes, id, at)?,
            _ => self.take_grant(changes, id, at)?,
        }
        Ok(())
    }

    /// Sends a component. On a fault, or if memory runs out, undoing the changes restores the half as it was before.
    pub(crate) fn send_component(
        &mut self,
        alloc: Global,
        changes: &mut Changes,
        table: &Table,
        component: ComponentView,
    ) -> Result<(), EndFault>
        ensures step { AnswersInMemory (send_component table.now (half_of self.old) (component_of component.entry))
            result (half_of self.new) }
        ensures undoes { StillUndoes changes.old self.old changes.new self.new }
        ensures slot { self.new.slot ≡ self.old.slot }
    {
        match component {
            ComponentView::Invoke {
                id,
                linked,
                code,
                ..
            } => self.send_invoke(alloc, changes, table, id, linked, code),
            ComponentView::ReturnResult { last, id, body } => {
                let named = match body {
                    Some(body) => Some(body.code),
                    None => None,
                };
                self.send_answer(changes, table, true, last, id, named)
            }
            ComponentView::ReturnError { id, .. } => {
                self.send_answer(changes, table, false, true, id, None)
            }
            ComponentView::Reject { id, problem } => self.send_reject(changes, id, problem),
        }
    }
}
