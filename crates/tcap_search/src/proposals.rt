//! The certificates proposed for both ends of a record together, and for each alone.

ghost use Rattle.std.specs.Prelude.{◌≡◌, ◌≤◌, ◌+◌, length, None, Some, IfOk};
ghost use Rattle.tcap_record.specs.declared.entry.End.TheVariants as sides;
ghost use Rattle.tcap_search.specs.CertificateSoFar.{nothing_found, or_both};
ghost use Rattle.tcap_search.specs.ProposedCertificate.{behind, of_mark, of_segment, proposed, proposed_by, proposed_for, then_certificate};

use crate::certificate_so_far::PartialCertificate;
use crate::searching::is_mark;
use crate::ties::ties_of;
use crate::transactions::transactions_of;
use std::alloc::{AllocError, Global};
use tcap_certificate::Certificate;
use tcap_record::{End, Entry, Record};
use tcap_refute::SearchFault;

/// The certificates proposed for a record.
#[derive(Debug, Drop)]
pub struct Proposals {
    /// The certificate for both ends.
    pub both: Certificate,
    /// The certificate for A alone, or `None` if it is that for both ends.
    pub a: Option<Certificate>,
    /// The certificate for B alone, or `None` if it is that for both ends.
    pub b: Option<Certificate>,
}

/// The certificates for the segments so far.
#[derive(Drop)]
pub(crate) struct PartialCertificates {
    both: PartialCertificate,
    a: PartialCertificate,
    b: PartialCertificate,
}

impl PartialCertificates {
    /// Creates empty certificates.
    fn new(alloc: Global) -> PartialCertificates
        ensures both { result.both ≡ nothing_found }
        ensures a { result.a ≡ nothing_found }
        ensures b { result.b ≡ nothing_found }
    {
        PartialCertificates {
            both: PartialCertificate::new(alloc),
            a: PartialCertificate::new(alloc),
            b: PartialCertificate::new(alloc),
        }
    }

    /// Appends the certificates of a segment after `first` entries; `marked` says whether a mark follows it.
    /// Transactions and ties are found once for all three, and the rest once for equal fates. Fails if memory runs out.
    fn with_segment(
        self,
        alloc: Global,
        marked: bool,
        first: usize,
        entries: &[Entry],
    ) -> Result<PartialCertificates, AllocError>
        requires few { first + length entries.now ≤ 100000 }
        ensures both { IfOk result (λ each. each.both
            ≡ then_certificate self.both (behind first (of_segment None marked entries.now))) }
        ensures a { IfOk result (λ each. each.a
            ≡ then_certificate self.a (behind first (of_segment (Some sides.A) marked entries.now))) }
        ensures b { IfOk result (λ each. each.b
            ≡ then_certificate self.b (behind first (of_segment (Some sides.B) marked entries.now))) }
    {
        let transactions = transactions_of(alloc, entries)?;
        let ties = ties_of(alloc, entries)?;
        let both = PartialCertificate::of_segment(
            alloc,
            None,
            marked,
            entries,
            &transactions,
            &ties,
        )?;
        let a = both.of_end(alloc, End::A, marked, entries, &transactions, &ties)?;
        let b = both.of_end(alloc, End::B, marked, entries, &transactions, &ties)?;
        Ok(PartialCertificates {
            a: self.a.with_after(first, or_both(&both, &a))?,
            b: self.b.with_after(first, or_both(&both, &b))?,
            both: self.both.with_after(first, &both)?,
        })
    }

    /// Appends the fate of a quiet mark with this number. Fails if memory runs out.
    fn with_mark(self, number: usize) -> Result<PartialCertificates, AllocError>
        requires few { number + 1 ≤ 100000 }
        ensures both { IfOk result (λ each. each.both ≡ then_certificate self.both (of_mark number)) }
        ensures a { IfOk result (λ each. each.a ≡ then_certificate self.a (of_mark number)) }
        ensures b { IfOk result (λ each. each.b ≡ then_certificate self.b (of_mark number)) }
    {
        Ok(PartialCertificates {
            both: self.both.with_mark(number)?,
            a: self.a.with_mark(number)?,
            b: self.b.with_mark(number)?,
        })
    }

    /// Returns the certificates.
    fn into_proposals(self) -> Proposals
        requires both { length self.both.fates ≤ 100000 }
        requires a { length self.a.fates ≤ 100000 }
        requires b { length self.b.fates ≤ 100000 }
        ensures both { result.both ≡ self.both }
        ensures a { or_both result.both result.a ≡ self.a }
        ensures b { or_both result.both result.b ≡ self.b }
    {
        let PartialCertificates { both, a, b } = self;
        let a = certificate_beside(&both, a);
        let b = certificate_beside(&both, b);
        Proposals {
            both: certificate_of(both),
            a,
            b,
        }
    }
}

/// Returns the certificate for one end alone, which is given only if it differs from that for both ends.
fn or_both<'a>(
    both: &'a PartialCertificate,
    alone: &'a Option<PartialCertificate>,
) -> &'a PartialCertificate
    ensures { result.now ≡ or_both both.now alone.now }
{
    match alone {
        Some(alone) => alone,
        None => both,
    }
}

/// Converts what was found to a certificate.
fn certificate_of(found: PartialCertificate) -> Certificate
    requires few { length found.fates ≤ 100000 }
    ensures { result ≡ found }
{
    match found.into_certificate() {
        Some(certificate) => certificate,
        None => unreachable!(),
    }
}

/// Converts what was found for one end alone to a certificate, or returns `None` if it equals that for both ends.
fn certificate_beside(both: &PartialCertificate, alone: PartialCertificate) -> Option<Certificate>
    requires few { length alone.fates ≤ 100000 }
    ensures { or_both both.now result ≡ alone }
{
    if alone.is_same(both) {
        return None;
    }
    Some(certificate_of(alone))
}

/// Proposes certificates for these entries, segment by segment. Fails if memory runs out.
fn each_in(alloc: Global, entries: &[Entry]) -> Result<PartialCertificates, AllocError>
    requires few { length entries.now ≤ 100000 }
    ensures both { IfOk result (λ each.
        (each.both ≡ proposed_by None entries.now) × (length each.both.fates ≡ length entries.now)) }
    ensures a { IfOk result (λ each.
        (each.a ≡ proposed_by (Some sides.A) entries.now) × (length each.a.fates ≡ length entries.now)) }
    ensures b { IfOk result (λ each.
        (each.b ≡ proposed_by (Some sides.B) entries.now) × (length each.b.fates ≡ length entries.now)) }
{
    let mut each = PartialCertificates::new(alloc);
    let mut first = 0;
    for (number, entry) in entries.iter().enumerate() {
        if is_mark(entry) {
            each = each
                .with_segment(alloc, true, first, &entries[first..number])?
                .with_mark(number)?;
            first = number + 1;
        }
    }
    each.with_segment(alloc, false, first, &entries[first..])
}

/// Proposes the certificate of `search` and those of `search_for` for each end, in one pass over a record of at most
/// 100,000 entries.
///
/// # Errors
///
/// `SearchFault::Memory` if memory runs out.
pub fn search_each(alloc: Global, record: &Record) -> Result<Proposals, SearchFault>
    requires few { length «record».now.entries.items ≤ 100000 }
    ensures both { IfOk result (λ p. p.both ≡ proposed «record».now.entries.items) }
    ensures a { IfOk result (λ p. or_both p.both p.a ≡ proposed_for sides.A «record».now.entries.items) }
    ensures b { IfOk result (λ p. or_both p.both p.b ≡ proposed_for sides.B «record».now.entries.items) }
{
    match each_in(alloc, &record.entries) {
        Ok(each) => Ok(each.into_proposals()),
        Err(AllocError) => Err(SearchFault::Memory),
    }
}
