//! F10 and F11: Invokes of an ID that is in use, and Invokes with a bad linked ID (Q.774 3.2; Q.771 3.1).

ghost use Rattle.std.specs.Prelude.{◌≡◌};
ghost use Rattle.tcap_parts.specs.Meaning.{code_of, component_of};
ghost use Rattle.tcap_faults.specs.KindsByCounts.{counted, ends_by, invokes_busy_by, is_badly_linked_by, is_busy_by, links_badly_by, more_last_by, taken_by};

use crate::component::component_sort::{Class, Sort};
use crate::component::preceding_components::PrecedingComponents;
use crate::component::saturating_sum::more;
use crate::component::several_tallies::lists;
use tcap_end::Table;
use tcap_parts::{CodeView, ComponentView};

/// The counts of components by which own invocations of an ID can have ended.
#[derive(Clone, Copy)]
struct PossibleEnds {
    /// The heard Return Results Last, Return Errors, and Rejects with an invoke or a general problem.
    incoming: u128,
    /// The own Rejects with a return result problem.
    result_rejects: u128,
    /// The own Rejects with a general problem.
    general_rejects: u128,
    /// The heard Return Results Not Last, which may be rejected.
    not_lasts: u128,
}

impl PossibleEnds {
    /// Returns whether these components cannot have ended all lasting invocations: not all `of_1` and `of_3` ones of
    /// class 1 and 3, or not `all` of any class.
    fn is_less(&self, all: u128, of_1: u128, of_3: u128) -> bool
        ensures { result ≡ more_last_by all of_1 of_3 self.now.incoming self.now.result_rejects self.now.general_rejects
            self.now.not_lasts }
    {
        more(
            more(self.incoming, self.result_rejects),
            self.general_rejects,
        ) < more(of_1, of_3)
            || more(self.incoming, self.not_lasts) < all
    }
}

impl PrecedingComponents<'_> {
    /// Returns the number of heard components that can have ended an own invocation of this ID.
    fn ends(&self, id: i8) -> u128
        ensures { result ≡ ends_by (counted self.now).incoming id }
    {
        let results = self.incoming(id, Sort::LastResults);
        let errors = self.incoming(id, Sort::Errors);
        let rejects = self.incoming(id, Sort::InvokeRejects);
        let generals = self.incoming(id, Sort::GeneralRejects);
        more(more(more(results, errors), rejects), generals)
    }

    /// Returns whether this ID is surely in use: some own invocations of it do not expire, and what was heard and sent
    /// cannot have ended all of them.
    fn is_busy(&self, id: i8) -> bool
        ensures { result ≡ is_busy_by (counted self.now) id }
    {
        let all = self.invoked(id, Sort::Lasting(Class::Any));
        if all == 0 {
            return false;
        }
        let ended = PossibleEnds {
            incoming: self.ends(id),
            result_rejects: self.all_outgoing(id, Sort::ResultRejects),
            general_rejects: self.all_outgoing(id, Sort::GeneralRejects),
            not_lasts: self.incoming(id, Sort::NotLasts),
        };
        let of_1 = self.invoked(id, Sort::Lasting(Class::One));
        let of_3 = self.invoked(id, Sort::Lasting(Class::Three));
        ended.is_less(all, of_1, of_3)
    }

    /// Returns whether a component is an Invoke of an ID that is in use.
    pub(crate) fn invokes_busy(&self, component: ComponentView) -> bool
        ensures { result ≡ invokes_busy_by (counted self.now) (component_of component.entry) }
    {
        match component {
            ComponentView::Invoke { id, .. } => {
                0 < self.own.count(id, Sort::Invokes(Class::Any)) || self.is_busy(id)
            }
            _ => false,
        }
    }

    /// Returns the number of invocations of this ID that were taken: by a last answer, or by a Reject of the Invoke.
    fn taken(&self, id: i8) -> u128
        ensures { result ≡ taken_by (counted self.now).outgoing id }
    {
        let results = self.outgoing(id, Sort::LastResults);
        let errors = self.outgoing(id, Sort::Errors);
        let rejects = self.outgoing(id, Sort::InvokeRejects);
        more(more(results, errors), rejects)
    }

    /// Returns whether all invocations of this ID are taken, or none has an operation that lists this one.
    fn is_badly_linked(&self, table: &Table, id: i8, code: CodeView) -> bool
        ensures { result ≡ is_badly_linked_by table.now (counted self.now) id (code_of code.entry) }
    {
        self.incoming(id, Sort::Invokes(Class::Any)) <= self.taken(id)
            || !lists(&self.half.incoming, table, id, code)
    }

    /// Returns whether a component is an Invoke with a bad linked ID.
    pub(crate) fn links_badly(&self, table: &Table, component: ComponentView) -> bool
        ensures { result ≡ links_badly_by table.now (counted self.now) (component_of component.entry) }
    {
        match component {
            ComponentView::Invoke {
                linked: Some(linked),
                code,
                ..
            } => self.is_badly_linked(table, linked, code),
            _ => false,
        }
    }
}
