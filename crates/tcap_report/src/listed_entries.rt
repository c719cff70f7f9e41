//! Which entries of a dialogue are listed.

ghost use Rattle.std.specs.Prelude.{◌<◌, ◌≤◌, ◌+◌, ◌⊎◌, ◌↔◌, IsTrue};

use crate::reaction_words::fault_entry;
use tcap_traces::{EndResult, JudgedDialogue};

/// Returns the number of the entry at which an end is at fault.
pub(crate) fn blamed_by(said: EndResult) -> Option<u64> {
    match said {
        EndResult::Fail(at) | EndResult::Doubtful(at, _) => Some(at.entry),
        EndResult::FailBy(fault) | EndResult::DoubtfulBy(fault, _) => Some(fault_entry(fault)),
        _ => None,
    }
}

/// Returns the number of the last entry listed: the last one at fault, or the last of all if no end is at fault.
pub(crate) fn last_listed(judged: &JudgedDialogue) -> usize {
    let last = judged.record.entries.len().saturating_sub(1);
    let Some(ends) = judged.ends else {
        return last;
    };
    match (blamed_by(ends.a), blamed_by(ends.b)) {
        (Some(a), Some(b)) => last.min(u64::max(a, b) as usize),
        (Some(number), None) | (None, Some(number)) => last.min(number as usize),
        (None, None) => last,
    }
}

/// Returns whether an entry is among the `first` ones, is the `last` one listed, or is among the `before` ones before
/// that.
pub(crate) fn is_near(number: usize, first: usize, before: usize, last: usize) -> bool
    ensures { IsTrue result ↔ ((number < first) ⊎ ((number ≤ last) × (last ≤ number + before))) }
{
    number < first || (number <= last && last.saturating_sub(before) <= number)
}
