//! F13: Rejects with a problem that nothing has (Q.774 3.2; problems: Q.773 4.2.2).

ghost use Rattle.std.specs.Prelude.{◌≡◌};
ghost use Rattle.tcap_parts.specs.Meaning.{component_of};
ghost use Rattle.tcap_faults.specs.KindsByCounts.{answers_of, counted, is_answer_reject_wrong_by, is_expected_by, is_invoke_reject_wrong_by, is_known_wrong_by, is_link_fine_by, rejects_of, rejects_wrongly_by, suited_by};
ghost use Rattle.tcap_faults.specs.LinkProblems.{names_so};

use crate::component::component_sort::{Class, Sort};
use crate::component::link_problem::LinkProblem;
use crate::component::linked_invokes::has_link_problem;
use crate::component::preceding_components::PrecedingComponents;
use crate::component::saturating_sum::more;
use crate::component::several_tallies::is_of_no_operation;
use tcap_end::Table;
use tcap_parts::{ComponentView, ProblemView};

/// Returns the sort of Rejects of Return Results, or of Return Errors.
fn rejects_of(of_result: bool) -> Sort
    ensures { result ≡ rejects_of of_result }
{
    if of_result {
        Sort::ResultRejects
    } else {
        Sort::ErrorRejects
    }
}

/// Returns the sort of Return Results, or of Return Errors.
fn answers_of(of_result: bool) -> Sort
    ensures { result ≡ answers_of of_result }
{
    if of_result {
        Sort::Results
    } else {
        Sort::Errors
    }
}

impl PrecedingComponents<'_> {
    /// Returns whether a linked Invoke with this ID has the problem, judged by own invocations.
    fn has_link_problem(&self, table: &Table, id: i8, problem: LinkProblem) -> bool
        ensures { result ≡ (counted self.now).incoming.has_link id
            (names_so table.now (counted self.now).invoked problem) }
    {
        has_link_problem(&self.half.incoming, &self.half.invoked, table, id, problem)
    }

    /// Returns whether the problem is 6 or 7, and no linked Invoke with this ID has it.
    fn is_link_fine(&self, table: &Table, id: i8, problem: u8) -> bool
        ensures { result ≡ is_link_fine_by table.now (counted self.now) id problem }
    {
        match problem {
            6 => !self.has_link_problem(table, id, LinkProblem::Response),
            7 => !self.has_link_problem(table, id, LinkProblem::Operation),
            _ => false,
        }
    }

    /// Returns whether no Invoke with this ID can be rejected with this problem.
    fn is_invoke_reject_wrong(&self, table: &Table, id: i8, problem: u8) -> bool
        ensures { result ≡ is_invoke_reject_wrong_by table.now (counted self.now) id problem }
    {
        match problem {
            0 => {
                self.incoming(id, Sort::Invokes(Class::Any))
                    <= more(self.outgoing(id, Sort::DuplicateRejects), 1)
            }
            5..=7 => {
                self.incoming(id, Sort::Linked) < more(self.outgoing(id, Sort::LinkRejects), 1)
                    || self.is_link_fine(table, id, problem)
            }
            _ => 7 < problem,
        }
    }

    /// Returns the number of own invocations of this ID whose class allows a Return Result (`of_result`) or Return
    /// Error.
    fn suited(&self, of_result: bool, id: i8) -> u128
        ensures { result ≡ suited_by of_result (counted self.now).invoked id }
    {
        let class = if of_result { Class::Three } else { Class::Two };
        let of_1 = self.invoked(id, Sort::Invokes(Class::One));
        more(of_1, self.invoked(id, Sort::Invokes(class)))
    }

    /// Returns whether no Return Result (`of_result`) or Return Error with this ID can be unexpected.
    ///
    /// The class of each own invocation allows it, fewer than two answers were heard, and none names an operation
    /// that no own invocation has.
    fn is_expected(&self, of_result: bool, id: i8) -> bool
        ensures { result ≡ is_expected_by (counted self.now) of_result id }
    {
        self.suited(of_result, id) == self.invoked(id, Sort::Invokes(Class::Any))
            && more(
                self.incoming(id, Sort::Results),
                self.incoming(id, Sort::Errors),
            ) < 2
            && !is_of_no_operation(&self.half.incoming, &self.half.invoked, id)
    }

    /// Returns whether the own invocations of this ID rule out this problem for a Return Result (`of_result`) or Return
    /// Error.
    fn is_known_wrong(&self, of_result: bool, id: i8, problem: u8) -> bool
        ensures { result ≡ is_known_wrong_by (counted self.now) of_result id problem }
    {
        match problem {
            0 => false,
            1 => self.is_expected(of_result, id),
            _ => self.suited(of_result, id) == 0,
        }
    }

    /// Returns whether no Return Result (`of_result`) or Return Error with this ID can be rejected with this problem.
    fn is_answer_reject_wrong(&self, of_result: bool, id: i8, problem: u8) -> bool
        ensures { result ≡ is_answer_reject_wrong_by (counted self.now) of_result id problem }
    {
        let greatest = if of_result { 2 } else { 4 };
        self.incoming(id, answers_of(of_result)) < more(self.outgoing(id, rejects_of(of_result)), 1)
            || greatest < problem
            || self.is_known_wrong(of_result, id, problem)
    }

    /// Returns whether a component is a Reject with a problem that nothing has.
    pub(crate) fn rejects_wrongly(&self, table: &Table, component: ComponentView) -> bool
        ensures { result ≡ rejects_wrongly_by table.now (counted self.now) (component_of component.entry) }
    {
        let ComponentView::Reject {
            id: Some(id),
            problem,
        } = component
        else {
            return false;
        };
        match problem {
            ProblemView::General(_) => false,
            ProblemView::Invoke(n) => self.is_invoke_reject_wrong(table, id, n.number),
            ProblemView::ReturnResult(n) => self.is_answer_reject_wrong(true, id, n.number),
            ProblemView::ReturnError(n) => self.is_answer_reject_wrong(false, id, n.number),
        }
    }
}
