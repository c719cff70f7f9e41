//! The options for a trace, as numbers that a program in C gives.

ghost use Rattle.std.specs.Prelude.{◌≡◌};
ghost use Rattle.tcap_c.specs.InMemory.{judged_by};
ghost use Rattle.tcap_c.specs.Traces.{flag_of, reuse_of, rules_of};

use tcap_dialogues::Reuse;
use tcap_record::End;

/// The options for a trace, as numbers. The header `clib/tcapjudge.h` explains them.
#[repr(C)]
#[derive(Clone, Copy, Debug, PartialEq, Eq)]
pub struct TestOptions {
    /// The number of entries after which a dialogue that is over is judged.
    pub linger: u64,
    /// The judged end: 0 for both ends, or the octet `A` or `B`.
    pub of: u8,
    /// The rule for the IDs of a dialogue that is over: 0 used again, 1 used again with nothing in transit, 2 used
    /// once.
    pub ids: u8,
    /// 1 if the trace holds whole dialogues, else 0.
    pub complete: u8,
}

/// The options for a trace, by their meaning.
#[derive(Clone, Copy, PartialEq, Eq)]
pub(crate) struct Rules {
    /// The end to judge, or None for both.
    pub(crate) of: Option<End>,
    /// The rule for using transaction IDs again.
    pub(crate) reuse: Reuse,
    /// True if none of a dialogue's messages is in transit when one of its IDs is used again.
    pub(crate) settled: bool,
    /// True if a dialogue that is open at the end of the trace is inconclusive.
    pub(crate) complete: bool,
}

/// Returns the judged end for a number: 0 for both ends, or the octet of an end. None if the number is unknown.
pub(crate) fn end_of_number(number: u8) -> Option<Option<End>>
    ensures { result ≡ judged_by number }
{
    match number {
        0 => Some(None),
        0x41 => Some(Some(End::A)),
        0x42 => Some(Some(End::B)),
        _ => None,
    }
}

/// Returns the rule for using IDs again, and whether nothing is in transit then. None if the number is unknown.
fn reuse_of(number: u8, linger: u64) -> Option<(Reuse, bool)>
    ensures { result ≡ reuse_of number linger }
{
    match number {
        0 => Some((Reuse::Again(linger), false)),
        1 => Some((Reuse::Again(linger), true)),
        2 => Some((Reuse::Once, false)),
        _ => None,
    }
}

/// Returns a flag for 0 or 1. None if the number is unknown.
fn flag_of(number: u8) -> Option<bool>
    ensures { result ≡ flag_of number }
{
    match number {
        0 => Some(false),
        1 => Some(true),
        _ => None,
    }
}

impl TestOptions {
    /// Returns the meaning of the numbers, or None if one of them is unknown.
    pub(crate) fn rules(self) -> Option<Rules>
        ensures { result ≡ rules_of self }
    {
        let of = end_of_number(self.of)?;
        let (reuse, settled) = reuse_of(self.ids, self.linger)?;
        let complete = flag_of(self.complete)?;
        Some(Rules {
            of,
            reuse,
            settled,
            complete,
        })
    }
}
