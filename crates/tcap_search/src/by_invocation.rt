//! Values by transaction, end and invoke ID.

ghost use Rattle.std.specs.Prelude.{◌≡◌};
ghost use Rattle.tcap_search.specs.InvocationMap.{key_of};

use std::alloc::{AllocError, Global};
use std::collections::BTreeMap;
use tcap_record::End;

/// A map of values by transaction, end and invoke ID.
#[derive(Drop)]
pub(crate) struct ByInvocation<T> {
    map: BTreeMap<(u64, i8), T>,
}

/// Returns the key of a transaction, an end and an invoke ID. One number stands for the first two.
fn key(transaction: u32, side: End, id: i8) -> (u64, i8)
    ensures { result ≡ key_of transaction side id }
{
    let half = match side {
        End::A => 2 * u64::from(transaction),
        End::B => 2 * u64::from(transaction) + 1,
    };
    (half, id)
}

impl<T: Copy> ByInvocation<T> {
    ghost use Rattle.std.specs.Prelude.{◌≡◌, ◌==◌, ◌&&◌, ℕ, ℤ, Some, None, cond, OnOk};
    ghost use Rattle.std.specs.Ordering.{int_cmp};
    ghost use Rattle.std.specs.BTreeMap.{is_at};
    ghost use Rattle.tcap_record.specs.declared.entry.End.{End as Side};
    ghost use Rattle.tcap_model.specs.World.{is_side};
    ghost use Rattle.tcap_search.specs.InvocationMap.{kept_at};

    /// Creates an empty map.
    pub(crate) fn new(alloc: Global) -> ByInvocation<T>
        ensures { (transaction : ℕ) (side : Side) (id : ℤ) → kept_at transaction side id result ≡ None }
    {
        ByInvocation {
            map: BTreeMap::new(alloc),
        }
    }

    /// Returns the value kept for these keys.
    pub(crate) fn get(&self, transaction: u32, side: End, id: i8) -> Option<T>
        ensures { result ≡ kept_at transaction side id self.now }
    {
        self.map.get(&key(transaction, side, id)).copied()
    }

    /// Keeps a value for these keys, in place of an earlier one. Fails if memory runs out.
    pub(crate) fn put(
        &mut self,
        transaction: u32,
        side: End,
        id: i8,
        value: T,
    ) -> Result<(), AllocError>
        ensures { OnOk result ((t : ℕ) (s : Side) (other : ℤ) → kept_at t s other self.new
            ≡ cond (t == transaction && is_side s side && is_at (int_cmp other) id) (Some value)
            (kept_at t s other self.old)) }
    {
        self.map.insert(key(transaction, side, id), value)?;
        Ok(())
    }
}
