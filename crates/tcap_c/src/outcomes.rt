//! Outcomes for octets in memory.

ghost use Rattle.tcap_c.specs.InMemory.{SaysBlamed, SaysChecked, SaysJudged};

use crate::octets::Octets;
use std::alloc::Global;
use tcap_judge::{Blame, Outcome, blame_outcome, check_outcome, judge_outcome};
use tcap_record::End;

/// Returns the outcome of `judge` for a record and a table: of the end `who`, or of both ends.
pub(crate) fn judged(alloc: Global, octets: &[u8], table: &[u8], who: Option<End>) -> Outcome
    ensures { SaysJudged who octets.now table.now result }
{
    let mut entries = Octets::new(octets);
    let mut operations = Octets::new(table);
    judge_outcome(alloc, &mut entries, &mut operations, who)
}

/// Returns the outcome of `check` for a record, a table and a certificate.
pub(crate) fn checked(
    alloc: Global,
    octets: &[u8],
    table: &[u8],
    certificate: &[u8],
    who: Option<End>,
) -> Outcome
    ensures { SaysChecked who octets.now table.now certificate.now result }
{
    let mut entries = Octets::new(octets);
    let mut operations = Octets::new(table);
    let mut given = Octets::new(certificate);
    check_outcome(alloc, &mut entries, &mut operations, &mut given, who)
}

/// Returns the outcome of `blame` for a record and a table, and the finding on each end.
pub(crate) fn blamed(alloc: Global, octets: &[u8], table: &[u8]) -> Blame
    ensures { SaysBlamed octets.now table.now result.outcome result.ends }
{
    let mut entries = Octets::new(octets);
    let mut operations = Octets::new(table);
    blame_outcome(alloc, &mut entries, &mut operations)
}
