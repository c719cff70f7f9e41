//! The certificate that the search has found so far.

ghost use Rattle.std.specs.Prelude.{◌≡◌, ◌≤◌, ◌+◌, ◌++◌, Bool, true, Option, length, map, None, Some, IfOk, OnOk};
ghost use Rattle.std.specs.List.{AllByRecursion};
ghost use Rattle.tcap_record.specs.declared.entry.End.{End as Side};
ghost use Rattle.tcap_certificate.specs.Certificate.{ClosingFits, ExpiryFits, FateFits};
ghost use Rattle.tcap_search.specs.SegmentEntries.{lines_of};
ghost use Rattle.tcap_search.specs.ProposedCertificate.{behind, closing_after, expiry_after, fate_after, of_mark, of_segment, then_certificate};
ghost use Rattle.tcap_search.specs.CertificateSoFar.{FitsBehind, nothing_found, or_both};
ghost use Rattle.tcap_search.specs.SegmentLists.{AreFates, AreTies, AreTransactions};

use crate::closings::closings_of;
use crate::expiries::expiries_of;
use crate::fates::fates_of;
use crate::tie::Tie;
use crate::ties::ties_of;
use crate::transactions::transactions_of;
use std::alloc::{AllocError, Global};
use std::marker::Model;
use tcap_certificate::{Certificate, Closing, Expiry, Fate};
use tcap_record::{End, Entry};

/// A certificate for the segments so far, whose numbers are within the limits of a certificate.
#[derive(Drop)]
pub(crate) struct PartialCertificate {
    fates: Vec<Fate>,
    expire: Vec<Expiry>,
    close: Vec<Closing>,
}

impl Model for PartialCertificate {
    ghost use Rattle.std.specs.List.{AllByRecursion};
    ghost use Rattle.tcap_certificate.specs.Certificate.{Certificate as Meant};
    ghost use Rattle.tcap_certificate.specs.Certificate.{ClosingFits, ExpiryFits, FateFits};

    ghost Value = { Meant };

    ghost view = { λ c. record { fates = c.fates.items; expire = c.expire.items; close = c.close.items } };

    ghost invariant = { λ c. AllByRecursion FateFits c.fates.items × AllByRecursion ExpiryFits c.expire.items
        × AllByRecursion ClosingFits c.close.items };
}

/// Returns a fate as it is if `first` entries come before the segment.
fn fate_after(first: u32, fate: Fate) -> Fate
    requires few { first ≤ 100000 }
    requires fits { FateFits fate }
    ensures { result ≡ fate_after first fate }
{
    match fate {
        Fate::Gap(gap) => Fate::Gap(first + gap),
        Fate::By(reply) => Fate::By(first + reply),
        Fate::Lost => Fate::Lost,
    }
}

/// Returns an expiry as it is if `first` entries come before the segment.
fn expiry_after(first: u32, x: Expiry) -> Expiry
    requires few { first ≤ 100000 }
    requires fits { ExpiryFits x }
    ensures { result ≡ expiry_after first x }
{
    Expiry {
        gap: first + x.gap,
        component: x.component,
        side: x.side,
        entry: first + x.entry,
    }
}

/// Returns a closing as it is if `first` entries come before the segment.
fn closing_after(first: u32, x: Closing) -> Closing
    requires few { first ≤ 100000 }
    requires fits { ClosingFits x }
    ensures { result ≡ closing_after first x }
{
    Closing {
        gap: first + x.gap,
        side: x.side,
        entry: first + x.entry,
    }
}

/// Appends the fates of a segment after `first` entries. Fails if memory runs out.
fn add_fates(fates: &mut Vec<Fate>, first: u32, more: &[Fate]) -> Result<(), AllocError>
    requires few { first ≤ 100000 }
    requires fit { AllByRecursion FateFits more.now }
    ensures { OnOk result (fates.new.items ≡ fates.old.items ++ map (fate_after first) more.now) }
{
    for fate in more {
        fates.push(fate_after(first, *fate))?;
    }
    Ok(())
}

/// Appends the expiries of a segment after `first` entries. Fails if memory runs out.
fn add_expiries(expire: &mut Vec<Expiry>, first: u32, more: &[Expiry]) -> Result<(), AllocError>
    requires few { first ≤ 100000 }
    requires fit { AllByRecursion ExpiryFits more.now }
    ensures { OnOk result (expire.new.items ≡ expire.old.items ++ map (expiry_after first) more.now) }
{
    for x in more {
        expire.push(expiry_after(first, *x))?;
    }
    Ok(())
}

/// Appends the closings of a segment after `first` entries. Fails if memory runs out.
fn add_closings(close: &mut Vec<Closing>, first: u32, more: &[Closing]) -> Result<(), AllocError>
    requires few { first ≤ 100000 }
    requires fit { AllByRecursion ClosingFits more.now }
    ensures { OnOk result (close.new.items ≡ close.old.items ++ map (closing_after first) more.now) }
{
    for x in more {
        close.push(closing_after(first, *x))?;
    }
    Ok(())
}

impl PartialCertificate {
    /// Creates an empty certificate.
    pub(crate) fn new(alloc: Global) -> PartialCertificate
        ensures { result ≡ nothing_found }
    {
        PartialCertificate {
            fates: Vec::new(alloc),
            expire: Vec::new(alloc),
            close: Vec::new(alloc),
        }
    }

    /// Finds the certificate of a segment with these transactions, ties and fates. Fails if memory runs out.
    fn of_fates(
        alloc: Global,
        entries: &[Entry],
        transactions: &[Option<u32>],
        ties: &[Tie],
        fates: Vec<Fate>,
    ) -> Result<PartialCertificate, AllocError>
        requires few { length entries.now ≤ 100000 }
        requires transactions { AreTransactions entries.now transactions.now }
        requires ties { AreTies entries.now ties.now }
        requires fates { (judged : Option Side) × (marked : Bool) × AreFates judged marked entries.now fates.items }
        ensures { IfOk result (λ found. (judged : Option Side) (marked : Bool)
            → AreFates judged marked entries.now fates.items → found ≡ of_segment judged marked entries.now) }
    {
        let expire = expiries_of(alloc, entries, transactions, &fates)?;
        let close = closings_of(alloc, entries, transactions, ties, &fates)?;
        Ok(PartialCertificate {
            fates,
            expire,
            close,
        })
    }

    /// Finds the certificate of a segment with these transactions and ties, for the judged end alone or for both;
    /// `marked` says whether a mark follows the segment. Fails if memory runs out.
    pub(crate) fn of_segment(
        alloc: Global,
        judged: Option<End>,
        marked: bool,
        entries: &[Entry],
        transactions: &[Option<u32>],
        ties: &[Tie],
    ) -> Result<PartialCertificate, AllocError>
        requires few { length entries.now ≤ 100000 }
        requires transactions { AreTransactions entries.now transactions.now }
        requires ties { AreTies entries.now ties.now }
        ensures { IfOk result (λ found. found ≡ of_segment judged marked entries.now) }
    {
        let fates = fates_of(alloc, judged, marked, entries, transactions, ties)?;
        PartialCertificate::of_fates(alloc, entries, transactions, ties, fates)
    }

    /// Finds the certificate of a segment for one end alone, or returns `None` if its fates are those for both ends,
    /// since the rest is then equal too. Fails if memory runs out.
    pub(crate) fn of_end(
        &self,
        alloc: Global,
        side: End,
        marked: bool,
        entries: &[Entry],
        transactions: &[Option<u32>],
        ties: &[Tie],
    ) -> Result<Option<PartialCertificate>, AllocError>
        requires few { length entries.now ≤ 100000 }
        requires transactions { AreTransactions entries.now transactions.now }
        requires ties { AreTies entries.now ties.now }
        requires both { self.now ≡ of_segment None marked entries.now }
        ensures { IfOk result (λ found. or_both self.now found ≡ of_segment (Some side) marked entries.now) }
    {
        let fates = fates_of(alloc, Some(side), marked, entries, transactions, ties)?;
        if fates == self.fates {
            return Ok(None);
        }
        Ok(Some(PartialCertificate::of_fates(alloc, entries, transactions, ties, fates)?))
    }

    /// Appends the certificate of a segment after `first` entries. Fails if memory runs out.
    pub(crate) fn with_after(
        self,
        first: usize,
        segment: &PartialCertificate,
    ) -> Result<PartialCertificate, AllocError>
        requires few { first ≤ 100000 }
        requires fits { FitsBehind first segment.now }
        ensures { IfOk result (λ found. found ≡ then_certificate self (behind first segment.now)) }
    {
        let mut found = self;
        add_fates(&mut found.fates, first as u32, &segment.fates)?;
        add_expiries(&mut found.expire, first as u32, &segment.expire)?;
        add_closings(&mut found.close, first as u32, &segment.close)?;
        Ok(found)
    }

    /// Finds and appends the certificate of a segment after `first` entries, for the judged end alone or for both;
    /// `marked` says whether a mark follows the segment. Fails if memory runs out.
    pub(crate) fn with_segment(
        self,
        alloc: Global,
        judged: Option<End>,
        marked: bool,
        first: usize,
        entries: &[Entry],
    ) -> Result<PartialCertificate, AllocError>
        requires few { first + length entries.now ≤ 100000 }
        ensures { IfOk result (λ found. found
            ≡ then_certificate self (behind first (of_segment judged marked entries.now))) }
    {
        let transactions = transactions_of(alloc, entries)?;
        let ties = ties_of(alloc, entries)?;
        let segment = PartialCertificate::of_segment(
            alloc,
            judged,
            marked,
            entries,
            &transactions,
            &ties,
        )?;
        self.with_after(first, &segment)
    }

    /// Appends the fate of a quiet mark with this number. Fails if memory runs out.
    pub(crate) fn with_mark(self, number: usize) -> Result<PartialCertificate, AllocError>
        requires few { number + 1 ≤ 100000 }
        ensures { IfOk result (λ found. found ≡ then_certificate self (of_mark number)) }
    {
        let mut found = self;
        found.fates.push(Fate::Gap(number as u32 + 1))?;
        Ok(found)
    }

    /// Returns whether both have equal parts.
    pub(crate) fn is_same(&self, other: &PartialCertificate) -> bool
        ensures { result ≡ true → self.now ≡ other.now }
    {
        self.fates == other.fates && self.expire == other.expire && self.close == other.close
    }

    /// Converts this to a certificate, or returns `None` if it has too many fates.
    pub(crate) fn into_certificate(self) -> Option<Certificate>
        ensures { length self.fates ≤ 100000 → result ≡ Some self }
    {
        Certificate::new(self.fates, self.expire, self.close)
    }
}
