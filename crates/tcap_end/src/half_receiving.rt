//! How receiving a component changes a half (Q.774 3.2, component sub-layer; Q.771, operation classes).

ghost use Rattle.std.specs.Prelude.{◌≡◌, Some, OnOk, IsSome, true, false, option_map};
ghost use Rattle.tcap_parts.specs.declared.code.Code.{Code};
ghost use Rattle.tcap_parts.specs.declared.component.Component.TheVariants as Component;
ghost use Rattle.tcap_parts.specs.Meaning.{code_of, component_of, problem_of};
ghost use Rattle.tcap_end.specs.Component.{
  answered_operation,
  link_problems,
  operation_sent,
  receive_answer,
  receive_component,
  receive_reject,
  wait_for_reject,
  with_grant,
};
ghost use Rattle.tcap_end.specs.HalfState.{StillUndoes, half_of};
ghost use Rattle.tcap_end.specs.RejectProblems.{invoke_problems, link_numbers, target_of, target_problems};
ghost use Rattle.tcap_end.specs.RowJoin.{IsJoined};

use crate::changes::Changes;
use crate::class::reports;
use crate::half::InvocationState;
use crate::half_state::{Change, HalfState};
use crate::places::{join_answer, join_invocation, keep};
use crate::received::{Answer, Invocation, Link, Target};
use crate::table::Table;
use std::alloc::{AllocError, Global};
use tcap_lists::Row;
use tcap_parts::{CodeView, ComponentView, ProblemView};

impl HalfState {
    /// Returns the operation of an own invocation in Operation Sent.
    fn operation_sent(&self, id: i8) -> Option<CodeView<'_>>
        ensures { option_map code_of result ≡ operation_sent (half_of self.now) id }
    {
        let own = self.out.get(id)?;
        match own.state {
            InvocationState::OperationSent => Some(own.code.view()),
            InvocationState::WaitForReject => None,
        }
    }

    /// Returns the fault of an Invoke's link.
    fn link(&self, table: &Table, linked: Option<i8>, code: CodeView) -> Link
        ensures { link_numbers result ≡ link_problems table.now (half_of self.now) linked (code_of code.entry) }
    {
        let Some(linked) = linked else {
            return Link::Fine;
        };
        let Some(to) = self.operation_sent(linked) else {
            return Link::Unrecognized;
        };
        if !table.links_some(to) {
            Link::Unexpected
        } else if table.links(to, code) {
            Link::Fine
        } else {
            Link::Other
        }
    }

    /// Returns which own invocation a received Return Result (`is_result`) or Return Error with this ID is for.
    fn target(&self, table: &Table, is_result: bool, id: i8) -> Target
        ensures { result ≡ target_of is_result (answered_operation table.now (half_of self.now) id) }
    {
        let Some(code) = self.operation_sent(id) else {
            return Target::Nothing;
        };
        match table.class_of(code) {
            None => Target::Nothing,
            Some(class) if reports(is_result, class) => Target::Invocation,
            Some(_) => Target::OtherClass,
        }
    }

    /// Receives an Invoke.
    fn receive_invoke(
        &mut self,
        alloc: Global,
        changes: &mut Changes,
        table: &Table,
        id: i8,
        linked: Option<i8>,
        code: CodeView,
    ) -> Result<(), AllocError>
        ensures received { OnOk result (half_of self.new
            ≡ receive_component table.now (half_of self.old) (Component.Invoke id linked (code_of code.entry) None)) }
        ensures undoes { StillUndoes changes.old self.old changes.new self.new }
        ensures slot { self.new.slot ≡ self.old.slot }
    {
        let duplicate = self.has_invocation(id);
        let link = self.link(table, linked, code);
        let join = move |row: &mut Row<Invocation>|
            ensures { IsJoined (record { code = code_of code.entry; problems = invoke_problems duplicate link })
                row.old result row.new }
        { join_invocation(row, alloc, code, duplicate, link) };
        keep(&mut self.inn, id, join)?;
        self.note(changes, Change::InnJoined(id))
    }

    /// Adds an answer to those of its ID.
    fn join_answer(
        &mut self,
        changes: &mut Changes,
        id: i8,
        is_result: bool,
        target: Target,
    ) -> Result<(), AllocError>
        ensures joined { OnOk result (half_of self.new
            ≡ with_grant (half_of self.old) id is_result (target_problems is_result target)) }
        ensures undoes { StillUndoes changes.old self.old changes.new self.new }
        ensures slot { self.new.slot ≡ self.old.slot }
    {
        keep(&mut self.grants, id, |row: &mut Row<Answer>| {
            join_answer(row, is_result, target)
        })?;
        self.note(changes, Change::GrantJoined(id))
    }

    /// Receives a Return Result (`is_result`) or Return Error.
    fn receive_answer(
        &mut self,
        changes: &mut Changes,
        table: &Table,
        is_result: bool,
        last: bool,
        id: i8,
    ) -> Result<(), AllocError>
        ensures received { OnOk result (half_of self.new
            ≡ receive_answer (half_of self.old) is_result last id
            (answered_operation table.now (half_of self.old) id)) }
        ensures undoes { StillUndoes changes.old self.old changes.new self.new }
        ensures slot { self.new.slot ≡ self.old.slot }
    {
        let target = self.target(table, is_result, id);
        self.join_answer(changes, id, is_result, target)?;
        if last && target == Target::Invocation {
            self.wait(changes, id)?;
        }
        Ok(())
    }

    /// Moves an own invocation, which must be in Operation Sent, to Wait for Reject.
    fn wait(&mut self, changes: &mut Changes, id: i8) -> Result<(), AllocError>
        requires exists { IsSome (operation_sent (half_of self.old) id) }
        ensures waits { (code : Code) → operation_sent (half_of self.old) id ≡ Some code
            → OnOk result (half_of self.new ≡ wait_for_reject (half_of self.old) id code) }
        ensures undoes { StillUndoes changes.old self.old changes.new self.new }
        ensures slot { self.new.slot ≡ self.old.slot }
    {
        self.out.set_state(id, InvocationState::WaitForReject);
        self.note(changes, Change::Waits(id))
    }

    /// Receives a Reject.
    fn receive_reject(
        &mut self,
        changes: &mut Changes,
        id: Option<i8>,
        problem: ProblemView,
    ) -> Result<(), AllocError>
        ensures received { OnOk result (half_of self.new ≡ receive_reject (half_of self.old) id (problem_of problem)) }
        ensures undoes { StillUndoes changes.old self.old changes.new self.new }
        ensures slot { self.new.slot ≡ self.old.slot }
    {
        let (Some(id), ProblemView::Invoke(_)) = (id, problem) else {
            return Ok(());
        };
        if self.out.get(id).is_none() {
            return Ok(());
        }
        let was = self.out.put(id, None);
        self.note(changes, Change::Out { id, was })
    }

    /// Receives a component. If memory runs out, undoing the changes restores the half as it was before.
    pub(crate) fn receive_component(
        &mut self,
        alloc: Global,
        changes: &mut Changes,
        table: &Table,
        component: ComponentView,
    ) -> Result<(), AllocError>
        ensures received { OnOk result (half_of self.new
            ≡ receive_component table.now (half_of self.old) (component_of component.entry)) }
        ensures undoes { StillUndoes changes.old self.old changes.new self.new }
        ensures slot { self.new.slot ≡ self.old.slot }
    {
        match component {
            ComponentView::Invoke {
                id,
                linked,
                code,
                ..
            } => self.receive_invoke(alloc, changes, table, id, linked, code),
            ComponentView::ReturnResult { last, id, .. } => {
                self.receive_answer(changes, table, true, last, id)
            }
            ComponentView::ReturnError { id, .. } => {
                self.receive_answer(changes, table, false, true, id)
            }
            ComponentView::Reject { id, problem } => self.receive_reject(changes, id, problem),
        }
    }
}
