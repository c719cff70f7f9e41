//! Values for each end.

use tcap_record::End;

/// A value for each end.
#[derive(Clone, Copy)]
pub(crate) struct PerEnd<T> {
    a: T,
    b: T,
}

impl<T: Copy> PerEnd<T> {
    ghost use Rattle.std.specs.Prelude.{◌≡◌, cond};
    ghost use Rattle.tcap_record.specs.declared.entry.End.{End as Side};
    ghost use Rattle.tcap_model.specs.World.{is_side};
    ghost use Rattle.tcap_search.specs.EndValues.{at_end};

    /// Creates a pair with this value for both ends.
    pub(crate) fn both(value: T) -> PerEnd<T>
        ensures { (side : Side) → at_end side result ≡ value }
    {
        PerEnd { a: value, b: value }
    }

    /// Returns the value of an end.
    pub(crate) fn get(&self, side: End) -> T
        ensures { result ≡ at_end side self.now }
    {
        match side {
            End::A => self.a,
            End::B => self.b,
        }
    }

    /// Sets the value of an end.
    pub(crate) fn set(&mut self, side: End, value: T)
        ensures { (other : Side) → at_end other self.new ≡ cond (is_side other side) value (at_end other self.old) }
    {
        match side {
            End::A => self.a = value,
            End::B => self.b = value,
        }
    }
}
