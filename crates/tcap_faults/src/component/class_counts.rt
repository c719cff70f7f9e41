//! Counts by operation class.

ghost use Rattle.std.specs.Prelude.{◌≡◌};
ghost use Rattle.tcap_faults.specs.declared.component.component_sort.Class.{Class as Classes};
ghost use Rattle.tcap_faults.specs.InvokeCounts.{more_if};
ghost use Rattle.tcap_faults.specs.TallyMeaning.{count_of_class};
ghost use Rattle.tcap_faults.specs.CountUpdate.{is_of};

use crate::component::component_sort::Class;
use crate::component::saturating_sum::more;

/// Counts by operation class (Q.771 3.1).
#[derive(Clone, Copy)]
pub(crate) struct ByClass {
    /// The count for all operations, also those that the table lacks.
    pub(crate) all: u128,
    pub(crate) one: u128,
    pub(crate) two: u128,
    pub(crate) three: u128,
}

impl ByClass {
    /// Creates counts of 0.
    pub(crate) fn new() -> ByClass
        ensures { (class : Classes) → count_of_class class result ≡ 0 }
    {
        ByClass {
            all: 0,
            one: 0,
            two: 0,
            three: 0,
        }
    }

    /// Returns the count for this class.
    pub(crate) fn count(&self, class: Class) -> u128
        ensures { result ≡ count_of_class class self.now }
    {
        match class {
            Class::Any => self.all,
            Class::One => self.one,
            Class::Two => self.two,
            Class::Three => self.three,
        }
    }

    /// Counts an operation of this class, or an operation that the table lacks.
    pub(crate) fn add(&mut self, class: Option<u8>)
        ensures { (of : Classes) → count_of_class of self.new ≡ more_if (is_of of class) (count_of_class of self.old) }
    {
        self.all = more(self.all, 1);
        match class {
            Some(1) => self.one = more(self.one, 1),
            Some(2) => self.two = more(self.two, 1),
            Some(3) => self.three = more(self.three, 1),
            _ => {}
        }
    }
}
