//! Finds whether an end may have sent its part, by the certificate proposed for it.

ghost use Rattle.std.specs.Prelude.{◌≡◌, ◌≤◌, List, length, map, None, Ok, IfOk};
ghost use Rattle.tcap_model.specs.Entries.{item_of};
ghost use Rattle.tcap_model.specs.Run.{Event};
ghost use Rattle.tcap_certificate.specs.Replay.{replayed_by};
ghost use Rattle.tcap_faults.specs.Fault.{blamed};
ghost use Rattle.tcap_search.specs.ProposedCertificate.{proposed_for};
ghost use Rattle.tcap_judge.specs.BlameOutcome.{IsFound, finding, items_before};
ghost use Rattle.tcap_judge.specs.EndFindings.{lost_by, lost_of};

use crate::findings::Finding;
use crate::laws;
use crate::outcome::Outcome;
use crate::verdicts::replay;
use std::alloc::{AllocError, Global};
use tcap_check::{Certificate, Fate, Reason};
use tcap_end::Table;
use tcap_record::{Body, End, Entry, Record};
use tcap_refute::Refutation;

/// Returns 1 if the entry is from this end and lost, else 0.
fn lost_by(end: End, fate: Fate, side: Option<End>) -> u64
    ensures { result ≡ lost_by end fate side }
{
    match (fate, side) {
        (Fate::Lost, Some(sender)) if sender == end => 1,
        _ => 0,
    }
}

/// Returns how many messages of this end these fates lose.
fn count_lost(end: End, fates: &[Fate], entries: &[Entry]) -> u64
    requires few { length entries.now ≤ 100000 }
    ensures { result ≡ lost_of end fates.now entries.now }
{
    let mut count = 0;
    let mut fates = fates;
    let mut entries = entries;
    while let [entry, others @ ..] = entries {
        let [fate, more @ ..] = fates else {
            return count;
        };
        count += lost_by(end, *fate, entry.side);
        fates = more;
        entries = others;
    }
    count
}

/// Returns the finding on an end if its proposed certificate is that for both ends and gives a run of both. Nothing is
/// blamed on the end then, it may have sent its part, and the peer's messages that the certificate loses are unheard.
pub(crate) fn find_alike(
    read: &Record,
    table: &Table,
    certificate: &Certificate,
    end: End,
) -> Finding
    requires few { length read.now.entries.items ≤ 100000 }
    requires given { (events : List Event)
        × (replayed_by None table.now certificate.now read.now.entries.items ≡ Ok events) }
    requires alike { certificate.now ≡ proposed_for end read.now.entries.items }
    ensures { (result ≡ finding table.now read.now.entries.items end)
        × IsFound end table.now read.now.entries.items result }
{
    laws::blamed_is_never_given();
    let entries = &read.entries;
    let unheard = count_lost(end.other(), certificate.fates(), entries);
    Finding::Lawful(entries.len(), unheard)
}

/// Returns the number of entries before the first that is no item, or of all entries if there is none.
pub(crate) fn items_before(entries: &[Entry]) -> usize
    ensures { result ≡ items_before (map item_of entries.now) }
{
    let mut count = 0;
    for entry in entries {
        match (entry.side, &entry.body) {
            (Some(_), Body::Good(_)) | (None, Body::Quiet) => count += 1,
            _ => return count,
        }
    }
    count
}

/// Returns the finding on an end on which nothing is blamed, by the certificate proposed for it. Fails if memory runs
/// out.
fn find_by(
    alloc: Global,
    read: &Record,
    table: &Table,
    certificate: &Certificate,
    end: End,
) -> Result<Finding, AllocError>
    requires sound { blamed table.now end read.now.entries.items ≡ None }
    requires proposed { certificate.now ≡ proposed_for end read.now.entries.items }
    ensures { IfOk result (λ reported. (reported ≡ finding table.now read.now.entries.items end)
        × IsFound end table.now read.now.entries.items reported) }
{
    let count = items_before(&read.entries);
    match replay(alloc, read, table, certificate, Some(end)) {
        Ok(outcome) => Ok(Finding::new(count, outcome)),
        Err(fault) if matches!(fault.reason, Reason::Memory) => Err(AllocError),
        Err(fault) => Ok(Finding::new(count, Outcome::Undecided(fault))),
    }
}

/// Returns the finding on an end: the entry blamed on it, or else the result of the certificate proposed for it. Fails
/// if memory runs out.
pub(crate) fn find_with(
    alloc: Global,
    read: &Record,
    table: &Table,
    certificate: &Certificate,
    end: End,
    named: Option<Refutation>,
) -> Result<Finding, AllocError>
    requires proposed { certificate.now ≡ proposed_for end read.now.entries.items }
    requires named { named ≡ blamed table.now end read.now.entries.items }
    ensures { IfOk result (λ reported. (reported ≡ finding table.now read.now.entries.items end)
        × IsFound end table.now read.now.entries.items reported) }
{
    match named {
        Some(refutation) => Ok(Finding::Blamed(refutation)),
        None => find_by(alloc, read, table, certificate, end),
    }
}

/// Returns the finding on an end, by the certificate proposed for it, if another certificate gives a run of both ends.
/// Nothing is blamed on the end then. Fails if memory runs out.
pub(crate) fn find_lawful(
    alloc: Global,
    read: &Record,
    table: &Table,
    both: &Certificate,
    certificate: &Certificate,
    end: End,
) -> Result<Finding, AllocError>
    requires given { (events : List Event) × (replayed_by None table.now both.now read.now.entries.items ≡ Ok events) }
    requires proposed { certificate.now ≡ proposed_for end read.now.entries.items }
    ensures { IfOk result (λ reported. (reported ≡ finding table.now read.now.entries.items end)
        × IsFound end table.now read.now.entries.items reported) }
{
    laws::blamed_is_never_given();
    find_by(alloc, read, table, certificate, end)
}
