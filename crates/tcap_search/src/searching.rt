//! The certificate proposed for a record.

ghost use Rattle.std.specs.Prelude.{◌≡◌, ◌≤◌, ◌+◌, length, IfOk};
ghost use Rattle.tcap_search.specs.ProposedCertificate.{is_mark, proposed, proposed_by, proposed_for};

use crate::certificate_so_far::PartialCertificate;
use std::alloc::{AllocError, Global};
use tcap_certificate::Certificate;
use tcap_record::{Body, End, Entry, Record};
use tcap_refute::SearchFault;

/// Returns whether an entry is a quiet mark.
pub(crate) fn is_mark(entry: &Entry) -> bool
    ensures { result ≡ is_mark entry.now.body }
{
    matches!(entry.body, Body::Quiet)
}

/// Finds the certificate of these entries, segment by segment, for the judged end alone or for both. Fails if memory
/// runs out.
fn found_in(
    alloc: Global,
    judged: Option<End>,
    entries: &[Entry],
) -> Result<PartialCertificate, AllocError>
    requires few { length entries.now ≤ 100000 }
    ensures { IfOk result (λ found.
        (found ≡ proposed_by judged entries.now) × (length found.fates ≡ length entries.now)) }
{
    let mut found = PartialCertificate::new(alloc);
    let mut first = 0;
    for (number, entry) in entries.iter().enumerate() {
        if is_mark(entry) {
            found = found
                .with_segment(alloc, judged, true, first, &entries[first..number])?
                .with_mark(number)?;
            first = number + 1;
        }
    }
    found.with_segment(alloc, judged, false, first, &entries[first..])
}

/// Proposes a certificate for these entries, for the judged end alone or for both. Fails if memory runs out.
fn certificate_of(
    alloc: Global,
    judged: Option<End>,
    entries: &[Entry],
) -> Result<Certificate, SearchFault>
    requires few { length entries.now ≤ 100000 }
    ensures { IfOk result (λ c. c ≡ proposed_by judged entries.now) }
{
    let Ok(found) = found_in(alloc, judged, entries) else {
        return Err(SearchFault::Memory);
    };
    match found.into_certificate() {
        Some(certificate) => Ok(certificate),
        None => unreachable!(),
    }
}

/// Proposes a certificate for a record of at most 100,000 entries, by five rules. The certificate need not give a run,
/// even if another one does: use `tcap_check::check` to replay it.
///
/// # Errors
///
/// `SearchFault::Memory` if memory runs out.
pub fn search(alloc: Global, record: &Record) -> Result<Certificate, SearchFault>
    requires few { length «record».now.entries.items ≤ 100000 }
    ensures { IfOk result (λ c. c ≡ proposed «record».now.entries.items) }
{
    certificate_of(alloc, None, &record.entries)
}

/// Proposes a certificate for this end alone of a record of at most 100,000 entries; its peer may break the rules of
/// TCAP. The rules are those of `search`, but the second is milder, and one more follows it. The certificate need not
/// give a run.
///
/// # Errors
///
/// `SearchFault::Memory` if memory runs out.
pub fn search_for(alloc: Global, record: &Record, end: End) -> Result<Certificate, SearchFault>
    requires few { length «record».now.entries.items ≤ 100000 }
    ensures { IfOk result (λ c. c ≡ proposed_for «end» «record».now.entries.items) }
{
    certificate_of(alloc, Some(end), &record.entries)
}
