//! Sums of counts that stop at the greatest.

ghost use Rattle.std.specs.Prelude.{◌≡◌};
ghost use Rattle.tcap_faults.specs.InvokeCounts.{sum};

/// Returns the sum of two counts, or the greatest count if the sum exceeds it.
pub(crate) fn more(n: u128, m: u128) -> u128
    ensures { result ≡ sum n m }
{
    n.saturating_add(m)
}
