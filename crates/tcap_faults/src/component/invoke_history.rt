//! The counts of components with one invoke ID.

ghost use Rattle.std.specs.Prelude.{◌≡◌, ◌||◌, ℤ, Bool, OnOk, option_map};
ghost use Rattle.std.specs.List.{list_any};
ghost use Rattle.tcap_parts.specs.declared.code.Code.{Code as Coded};
ghost use Rattle.tcap_parts.specs.Meaning.{body_of, code_of, component_of, problem_of};
ghost use Rattle.tcap_faults.specs.TallyMeaning.{count_in, links_at};
ghost use Rattle.tcap_faults.specs.CountUpdate.{IsAnswered, IsInvoked, IsNoted, IsNothing, invoke_rejected, rejected};

use crate::component::class_counts::ByClass;
use crate::component::code_counts::CodeCounts;
use crate::component::component_sort::Sort;
use crate::component::link_hint::FoundLink;
use crate::component::link_problem::LinkProblem;
use crate::component::saturating_sum::more;
use std::alloc::{AllocError, Global};
use std::cell::Cell;
use std::collections::BTreeMap;
use tcap_end::Table;
use tcap_parts::{CodeView, ComponentView, ProblemView, ResultBodyView};

/// The counts of components with an invoke ID.
#[derive(Drop)]
pub(crate) struct IdHistory {
    /// Invokes.
    pub(crate) invokes: ByClass,
    /// Invokes of operations that do not expire.
    pub(crate) lasting: ByClass,
    /// Linked Invokes.
    pub(crate) linked: u128,
    /// Return Results.
    pub(crate) results: u128,
    /// Return Results Last.
    pub(crate) last_results: u128,
    /// Return Results Not Last.
    pub(crate) not_lasts: u128,
    /// Return Errors.
    pub(crate) errors: u128,
    /// Rejects with a general problem.
    pub(crate) general_rejects: u128,
    /// Rejects with an invoke problem.
    pub(crate) invoke_rejects: u128,
    /// Rejects with duplicateInvokeID.
    pub(crate) duplicate_rejects: u128,
    /// Rejects with a problem of a link, 5 to 7.
    pub(crate) link_rejects: u128,
    /// Rejects with a return result problem.
    pub(crate) result_rejects: u128,
    /// Rejects with a return error problem.
    pub(crate) error_rejects: u128,
    /// Invokes, by their operations.
    pub(crate) operations: CodeCounts,
    /// Return Results Last, by the operations that they name.
    pub(crate) named: CodeCounts,
    /// All Return Results, by the operations that they name.
    pub(crate) answered: CodeCounts,
    /// Linked Invokes, by their linked IDs and their operations.
    pub(crate) by_link: BTreeMap<i8, CodeCounts>,
    /// The place, among the operations, of the last that was found to list a linked Invoke. It is a hint for speed
    /// alone.
    pub(crate) listing: Cell<usize>,
    /// A linked Invoke that was found to have problem 6.
    pub(crate) response: FoundLink,
    /// A linked Invoke that was found to have problem 7.
    pub(crate) operation: FoundLink,
}

/// Counts a linked Invoke. Fails if memory runs out.
fn add_link(
    alloc: Global,
    by_link: &mut BTreeMap<i8, CodeCounts>,
    linked: i8,
    code: CodeView,
) -> Result<(), AllocError>
    ensures { OnOk result ((passes : ℤ → Coded → Bool) → list_any (links_at passes) by_link.new.entries
        ≡ list_any (links_at passes) by_link.old.entries || passes linked (code_of code.entry)) }
{
    if let Some(counts) = by_link.get_mut(&linked) {
        return counts.add(alloc, code);
    }
    let mut counts = CodeCounts::new();
    counts.add(alloc, code)?;
    by_link.insert(linked, counts)?;
    Ok(())
}

impl IdHistory {
    /// Creates counts of no components.
    pub(crate) fn new(alloc: Global) -> IdHistory
        ensures { IsNothing result }
    {
        IdHistory {
            invokes: ByClass::new(),
            lasting: ByClass::new(),
            linked: 0,
            results: 0,
            last_results: 0,
            not_lasts: 0,
            errors: 0,
            general_rejects: 0,
            invoke_rejects: 0,
            duplicate_rejects: 0,
            link_rejects: 0,
            result_rejects: 0,
            error_rejects: 0,
            operations: CodeCounts::new(),
            named: CodeCounts::new(),
            answered: CodeCounts::new(),
            by_link: BTreeMap::new(alloc),
            listing: Cell::new(0),
            response: FoundLink::new(),
            operation: FoundLink::new(),
        }
    }

    /// Counts an Invoke of this operation. Fails if memory runs out.
    fn note_invoke(
        &mut self,
        alloc: Global,
        table: &Table,
        linked: Option<i8>,
        code: CodeView,
    ) -> Result<(), AllocError>
        ensures { OnOk result (IsInvoked table.now linked (code_of code.entry) self.old self.new) }
    {
        let class = table.class_of(code);
        self.invokes.add(class);
        if !table.expires(code) {
            self.lasting.add(class);
        }
        self.operations.add(alloc, code)?;
        if let Some(linked) = linked {
            self.linked = more(self.linked, 1);
            add_link(alloc, &mut self.by_link, linked, code)?;
        }
        Ok(())
    }

    /// Counts a Return Result with this body. Fails if memory runs out.
    fn note_result(
        &mut self,
        alloc: Global,
        last: bool,
        body: Option<ResultBodyView>,
    ) -> Result<(), AllocError>
        ensures { OnOk result (IsAnswered last (option_map body_of body.entry) self.old self.new) }
    {
        self.results = more(self.results, 1);
        if let Some(body) = body {
            self.answered.add(alloc, body.code)?;
        }
        if !last {
            self.not_lasts = more(self.not_lasts, 1);
            return Ok(());
        }
        self.last_results = more(self.last_results, 1);
        if let Some(body) = body {
            self.named.add(alloc, body.code)?;
        }
        Ok(())
    }

    /// Counts a Reject with this invoke problem.
    fn note_invoke_reject(&mut self, problem: u8)
        ensures { self.new ≡ invoke_rejected problem self.old }
    {
        self.invoke_rejects = more(self.invoke_rejects, 1);
        match problem {
            0 => self.duplicate_rejects = more(self.duplicate_rejects, 1),
            5 | 6 | 7 => self.link_rejects = more(self.link_rejects, 1),
            _ => {}
        }
    }

    /// Counts a Reject with this problem.
    fn note_reject(&mut self, problem: ProblemView)
        ensures { self.new ≡ rejected (problem_of problem) self.old }
    {
        match problem {
            ProblemView::General(_) => self.general_rejects = more(self.general_rejects, 1),
            ProblemView::Invoke(problem) => self.note_invoke_reject(problem.number),
            ProblemView::ReturnResult(_) => self.result_rejects = more(self.result_rejects, 1),
            ProblemView::ReturnError(_) => self.error_rejects = more(self.error_rejects, 1),
        }
    }

    /// Counts a component with the ID. Fails if memory runs out.
    pub(crate) fn note(
        &mut self,
        alloc: Global,
        table: &Table,
        component: ComponentView,
    ) -> Result<(), AllocError>
        ensures { OnOk result (IsNoted table.now (component_of component.entry) self.old self.new) }
    {
        match component {
            ComponentView::Invoke { linked, code, .. } => {
                self.note_invoke(alloc, table, linked, code)?
            }
            ComponentView::ReturnResult { last, body, .. } => self.note_result(alloc, last, body)?,
            ComponentView::ReturnError { .. } => self.errors = more(self.errors, 1),
            ComponentView::Reject { problem, .. } => self.note_reject(problem),
        }
        Ok(())
    }

    /// Returns the number of components of a sort.
    pub(crate) fn count(&self, sort: Sort) -> u128
        ensures { result ≡ count_in sort self.now }
    {
        match sort {
            Sort::Invokes(class) => self.invokes.count(class),
            Sort::Lasting(class) => self.lasting.count(class),
            Sort::Linked => self.linked,
            Sort::Results => self.results,
            Sort::LastResults => self.last_results,
            Sort::NotLasts => self.not_lasts,
            Sort::Errors => self.errors,
            Sort::GeneralRejects => self.general_rejects,
            Sort::InvokeRejects => self.invoke_rejects,
            Sort::DuplicateRejects => self.duplicate_rejects,
            Sort::LinkRejects => self.link_rejects,
            Sort::ResultRejects => self.result_rejects,
            Sort::ErrorRejects => self.error_rejects,
        }
    }

    /// Returns the hint for a linked Invoke with this problem.
    pub(crate) fn found(&self, problem: LinkProblem) -> &FoundLink {
        match problem {
            LinkProblem::Response => &self.response,
            LinkProblem::Operation => &self.operation,
        }
    }
}
