//! F12: answers to an invocation that was answered already (Q.774 3.2; Q.771, operation classes).

ghost use Rattle.std.specs.Prelude.{◌≡◌, Some, option_map};
ghost use Rattle.tcap_parts.specs.Meaning.{body_of, component_of, problem_of};
ghost use Rattle.tcap_parts.specs.declared.component.Component.TheVariants.{Reject};
ghost use Rattle.tcap_faults.specs.KindsByCounts.{answers_again_by, counted, is_operation_overspent_by, is_overspent_by, more_answered_by};

use crate::component::component_sort::{Class, Sort};
use crate::component::preceding_components::PrecedingComponents;
use crate::component::saturating_sum::more;
use crate::component::several_tallies::{invokes_of, results_of};
use tcap_parts::{ComponentView, ProblemView, ResultBodyView};

impl PrecedingComponents<'_> {
    /// Returns whether this many Return Results, Return Errors and Rejects answer more than the invocations of this ID
    /// allow.
    fn is_more_answered(&self, id: i8, results: u128, errors: u128, rejects: u128) -> bool
        ensures { result ≡ more_answered_by (counted self.now).incoming id results errors rejects }
    {
        let of_1 = self.incoming(id, Sort::Invokes(Class::One));
        let of_2 = self.incoming(id, Sort::Invokes(Class::Two));
        let of_3 = self.incoming(id, Sort::Invokes(Class::Three));
        let answers = more(results, errors);
        more(of_1, of_3) < results
            || more(of_1, of_2) < errors
            || more(more(of_1, of_2), of_3) < answers
            || self.incoming(id, Sort::Invokes(Class::Any)) < more(answers, rejects)
    }

    /// Returns whether the end sends more answers than the invocations of this ID allow, with this many Return Results,
    /// Return Errors and Rejects besides those that it sent.
    fn is_overspent(&self, id: i8, results: u128, errors: u128, rejects: u128) -> bool
        ensures { result ≡ is_overspent_by (counted self.now) id results errors rejects }
    {
        self.is_more_answered(
            id,
            more(self.outgoing(id, Sort::LastResults), results),
            more(self.outgoing(id, Sort::Errors), errors),
            more(self.outgoing(id, Sort::InvokeRejects), rejects),
        )
    }

    /// Returns whether a Return Result names an operation, and at least as many Return Results Last of it were sent
    /// as invocations of it were heard.
    fn is_operation_overspent(&self, id: i8, body: Option<ResultBodyView>) -> bool
        ensures { result ≡ is_operation_overspent_by (counted self.now) id (option_map body_of body.entry) }
    {
        match body {
            Some(body) => {
                let outgoing = results_of(&self.half.outgoing, id, body.code);
                let own = self.own.results_of(id, body.code);
                invokes_of(&self.half.incoming, id, body.code) <= more(outgoing, own)
            }
            None => false,
        }
    }

    /// Returns whether a Reject rejects an invocation that was answered already.
    fn rejects_again(&self, id: i8, problem: ProblemView) -> bool
        ensures { result ≡ answers_again_by (counted self.now) (Reject (Some id) (problem_of problem)) }
    {
        match problem {
            ProblemView::Invoke(_) => self.is_overspent(id, 0, 0, 1),
            _ => false,
        }
    }

    /// Returns whether a component answers or rejects an invocation that was answered already.
    pub(crate) fn answers_again(&self, component: ComponentView) -> bool
        ensures { result ≡ answers_again_by (counted self.now) (component_of component.entry) }
    {
        match component {
            ComponentView::ReturnResult { id, body, .. } => {
                self.is_overspent(id, 1, 0, 0) || self.is_operation_overspent(id, body)
            }
            ComponentView::ReturnError { id, .. } => self.is_overspent(id, 0, 1, 0),
            ComponentView::Reject {
                id: Some(id),
                problem,
            } => self.rejects_again(id, problem),
            _ => false,
        }
    }
}
