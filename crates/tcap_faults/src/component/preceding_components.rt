//! The counts before a component of a message.

ghost use Rattle.std.specs.Prelude.{◌≡◌};
ghost use Rattle.tcap_faults.specs.KindsByCounts.{counted};

use crate::component::component_sort::Sort;
use crate::component::saturating_sum::more;
use crate::component::several_tallies::count;
use crate::component::tally::Tally;
use crate::dialogue::half::Half;

/// The counts before a component: those of its half, and those of its message.
#[derive(Clone, Copy)]
pub(crate) struct PrecedingComponents<'a> {
    pub(crate) half: &'a Half<'a>,
    /// The components of the message before this one.
    pub(crate) own: &'a Tally,
    /// All Rejects of the message.
    pub(crate) rejects: &'a Tally,
}

impl PrecedingComponents<'_> {
    /// Returns the number of components with this invoke ID and of this sort that the half heard.
    pub(crate) fn incoming(&self, id: i8, sort: Sort) -> u128
        ensures { result ≡ (counted self.now).incoming.count id sort }
    {
        count(&self.half.incoming, id, sort)
    }

    /// Returns the number of components with this invoke ID and of this sort in the messages that carry the half's own
    /// invocations.
    pub(crate) fn invoked(&self, id: i8, sort: Sort) -> u128
        ensures { result ≡ (counted self.now).invoked.count id sort }
    {
        count(&self.half.invoked, id, sort)
    }

    /// Returns the number of components with this invoke ID and of this sort that the half sent, with those of the
    /// message before this component.
    pub(crate) fn outgoing(&self, id: i8, sort: Sort) -> u128
        ensures { result ≡ (counted self.now).outgoing.count id sort }
    {
        more(
            count(&self.half.outgoing, id, sort),
            self.own.count(id, sort),
        )
    }

    /// Returns the number of components with this invoke ID and of this sort that the half sent, with all Rejects of
    /// the message.
    pub(crate) fn all_outgoing(&self, id: i8, sort: Sort) -> u128
        ensures { result ≡ (counted self.now).all_outgoing.count id sort }
    {
        more(
            count(&self.half.outgoing, id, sort),
            self.rejects.count(id, sort),
        )
    }
}
