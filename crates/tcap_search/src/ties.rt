//! The first rule: the messages that providers' Aborts answer.

ghost use Rattle.std.specs.Prelude.{◌≡◌, ◌≤◌, [], length, reverse, IfOk};
ghost use Rattle.std.specs.List.{list_any};
ghost use Rattle.tcap_search.specs.Candidates.{AreUntied};
ghost use Rattle.tcap_search.specs.ProviderAborts.{aborts_by_provider};
ghost use Rattle.tcap_search.specs.SegmentEntries.{lines_of};
ghost use Rattle.tcap_search.specs.SegmentLists.{AreTies};

use crate::candidates::Candidates;
use crate::fates::is_provider_abort;
use crate::tie::Tie;
use std::alloc::{AllocError, Global};
use tcap_record::Entry;

/// Returns all entries that an Abort may answer. Fails if memory runs out.
fn candidates_of(alloc: Global, entries: &[Entry]) -> Result<Candidates, AllocError>
    requires few { length entries.now ≤ 100000 }
    ensures { IfOk result (λ c. AreUntied [] (reverse (lines_of entries.now)) c) }
{
    let mut candidates = Candidates::new(alloc);
    for (number, entry) in entries.iter().enumerate() {
        candidates.push(alloc, number as u32, entry)?;
    }
    Ok(candidates)
}

/// Returns whether one of the entries is a provider's Abort.
fn has_provider_abort(entries: &[Entry]) -> bool
    ensures { result ≡ list_any aborts_by_provider entries.now }
{
    for entry in entries {
        if is_provider_abort(entry) {
            return true;
        }
    }
    false
}

/// Finds the ties of a segment from the last entry to the first, and returns them in the order of the Aborts. Fails if
/// memory runs out.
fn traced_ties(alloc: Global, entries: &[Entry]) -> Result<Vec<Tie>, AllocError>
    requires few { length entries.now ≤ 100000 }
    ensures { IfOk result (λ ties. AreTies entries.now ties.items) }
{
    let mut candidates = candidates_of(alloc, entries)?;
    let mut ties = Vec::new(alloc);
    let mut number = entries.len();
    while number > 0 {
        number -= 1;
        let entry = &entries[number];
        candidates.drop_top(number as u32, entry);
        if let Some(answered) = candidates.answered(entry) {
            ties.push(Tie {
                entry: answered,
                reply: number as u32,
            })?;
        }
    }
    ties.reverse();
    Ok(ties)
}

#[tactic(auto, using(crate::proofs::UntiedLaws::no_ties))]
/// Finds the ties of a segment, in the order of the Aborts. Without a provider's Abort there are none, and no memory is
/// allocated. Fails if memory runs out.
pub(crate) fn ties_of(alloc: Global, entries: &[Entry]) -> Result<Vec<Tie>, AllocError>
    requires few { length entries.now ≤ 100000 }
    ensures { IfOk result (λ ties. AreTies entries.now ties.items) }
{
    if !has_provider_abort(entries) {
        return Ok(Vec::new(alloc));
    }
    traced_ties(alloc, entries)
}
