//! A certificate sorted by gap and by entry, and the check of its ranges.

ghost use Rattle.std.specs.Prelude.{◌≡◌, [], ◌∷◌, ◌<◌, ◌≤◌, ◌+◌, ℕ, ◌==◌, ◌||◌, length, slice_get, map, IfOk, OnOk};
ghost use Rattle.tcap_check.specs.Buckets.{count_lists, list_at};
ghost use Rattle.tcap_check.specs.ListedSteps.{listed_in};
ghost use Rattle.tcap_check.specs.EntryOutlines.{is_named};
ghost use Rattle.tcap_check.specs.Plan.{IsPlan, flag_by};
ghost use Rattle.tcap_model.specs.declared.reason.Reason.TheVariants.{FateRange};
ghost use Rattle.tcap_certificate.specs.DescribedRun.{taken_by};
ghost use Rattle.tcap_certificate.specs.Replay.{all_fit, certificate_fits, fate_fits, fates_fit, fault_at, due_in};

use crate::buckets::Buckets;
use crate::listed_steps::ListedStep;
use std::alloc::{AllocError, Global};
use tcap_certificate::{Certificate, CheckFault, Closing, Expiry, Fate};
use tcap_model::Reason;

/// The lines of a certificate, sorted by gap and by entry.
#[derive(Debug, Drop)]
pub struct Plan {
    /// The events listed for each gap: its closings, then its expiries, each in listed order.
    pub listed: Buckets<ListedStep>,
    /// The numbers of the entries that are delivered in each gap, in rising order.
    pub due: Buckets<u32>,
    /// The numbers of the entries that each entry answers as a provider's reply, in rising order.
    pub taken: Buckets<u32>,
    /// For each entry, whether a listed event refers to it.
    pub named: Vec<bool>,
}

/// Returns whether the fate of an entry is a gap or a reply after the entry, within this count of entries, or a loss.
fn fits_after(count: usize, entry: usize, fate: Fate) -> bool
    ensures { result ≡ fate_fits count entry fate }
{
    match fate {
        Fate::Gap(gap) => entry < gap as usize && gap as usize <= count,
        Fate::By(reply) => entry < reply as usize && (reply as usize) < count,
        Fate::Lost => true,
    }
}

/// Checks that all fates are in range. Fails with `FateRange` at the first that is not.
fn check_fates(fates: &[Fate]) -> Result<(), CheckFault>
    ensures { result ≡ fates_fit (length fates.now) 0 fates.now }
{
    for (entry, fate) in fates.iter().enumerate() {
        if !fits_after(fates.len(), entry, *fate) {
            return Err(CheckFault {
                reason: Reason::FateRange,
                entry: entry as u64,
            });
        }
    }
    Ok(())
}

/// Returns the refusal of a number of the certificate that is out of range, at this entry.
pub(crate) fn out_of_range(entry: u32) -> CheckFault
    ensures { result ≡ fault_at FateRange entry }
{
    CheckFault {
        reason: Reason::FateRange,
        entry: u64::from(entry),
    }
}

/// Checks that a listed event is in a gap after the entry that it names, up to the last gap.
fn check_gap(count: usize, entry: u32, gap: u32) -> Result<(), CheckFault>
    ensures { result ≡ all_fit count ((entry, gap) ∷ []) }
{
    if gap <= entry || count < gap as usize {
        return Err(out_of_range(entry));
    }
    Ok(())
}

/// Checks that each closing is in a gap after the entry that it names. Fails with `FateRange` at the first that is not.
fn check_closings(count: usize, close: &[Closing]) -> Result<(), CheckFault>
    ensures { result ≡ all_fit count (map (λ x. (x.entry, x.gap)) close.now) }
{
    for x in close {
        check_gap(count, x.entry, x.gap)?;
    }
    Ok(())
}

/// Checks that each expiry is in a gap after the entry that it names. Fails with `FateRange` at the first that is not.
fn check_expiries(count: usize, expire: &[Expiry]) -> Result<(), CheckFault>
    ensures { result ≡ all_fit count (map (λ x. (x.entry, x.gap)) expire.now) }
{
    for x in expire {
        check_gap(count, x.entry, x.gap)?;
    }
    Ok(())
}

/// Checks that all numbers of a certificate are in range. Fails with `FateRange` at the first that is not.
pub(crate) fn check_ranges(certificate: &Certificate) -> Result<(), CheckFault>
    ensures { result ≡ certificate_fits certificate.now }
{
    let count = certificate.fates().len();
    check_fates(certificate.fates())?;
    check_closings(count, certificate.closings())?;
    check_expiries(count, certificate.expiries())
}

/// Returns the closings of each gap, then its expiries. Fails if memory runs out.
fn listed_by_gap(
    alloc: Global,
    count: usize,
    certificate: &Certificate,
) -> Result<Buckets<ListedStep>, AllocError>
    ensures { IfOk result (λ made. (gap : ℕ) → gap < count → list_at gap made ≡ listed_in certificate.now gap) }
{
    let (close, expire) = (certificate.closings(), certificate.expiries());
    if close.is_empty() && expire.is_empty() {
        return Buckets::new(alloc, 0);
    }
    let mut lists = Buckets::new(alloc, count)?;
    for x in close {
        lists.push(x.gap as usize, ListedStep::Closes(*x))?;
    }
    for x in expire {
        lists.push(x.gap as usize, ListedStep::Expires(*x))?;
    }
    Ok(lists)
}

/// Returns the entries that are delivered in each gap. Fails if memory runs out.
fn due_by_gap(alloc: Global, count: usize, fates: &[Fate]) -> Result<Buckets<u32>, AllocError>
    requires few { length fates.now ≤ 100000 }
    ensures { IfOk result (λ made. (gap : ℕ) → gap < count → list_at gap made ≡ due_in gap 0 fates.now) }
{
    let mut lists = Buckets::new(alloc, count)?;
    for (number, fate) in fates.iter().enumerate() {
        if let Fate::Gap(gap) = *fate {
            lists.push(gap as usize, number as u32)?;
        }
    }
    Ok(lists)
}

/// Returns the entries that each entry answers. Fails if memory runs out.
fn taken_by_entry(alloc: Global, count: usize, fates: &[Fate]) -> Result<Buckets<u32>, AllocError>
    requires few { length fates.now ≤ 100000 }
    ensures { IfOk result (λ made. (entry : ℕ) → entry < count → list_at entry made ≡ taken_by entry 0 fates.now) }
{
    let mut lists = Buckets::new(alloc, count)?;
    for (number, fate) in fates.iter().enumerate() {
        if let Fate::By(reply) = *fate {
            lists.push(reply as usize, number as u32)?;
        }
    }
    Ok(lists)
}

/// Marks an entry as named, if there is a flag for it.
fn mark(named: &mut Vec<bool>, entry: u32)
    ensures marked { (n : ℕ) → n < length named.old.items
        → flag_by (slice_get named.new.items n) ≡ (n == entry) || flag_by (slice_get named.old.items n) }
    ensures count { length named.new.items ≡ length named.old.items }
{
    if let Some(flag) = named.get_mut(entry as usize) {
        *flag = true;
    }
}

/// Returns for each entry whether a listed event refers to it. Fails if memory runs out.
fn named_entries(
    alloc: Global,
    count: usize,
    certificate: &Certificate,
) -> Result<Vec<bool>, AllocError>
    ensures { IfOk result (λ named. (entry : ℕ) → entry < count
        → flag_by (slice_get named.items entry) ≡ is_named certificate.now entry) }
{
    let mut named = Vec::new(alloc);
    named.resize(count, false)?;
    for x in certificate.closings() {
        mark(&mut named, x.entry);
    }
    for x in certificate.expiries() {
        mark(&mut named, x.entry);
    }
    Ok(named)
}

impl Plan {
    /// Creates the plan of a certificate, whose numbers need not be in range.
    ///
    /// # Errors
    ///
    /// `AllocError` if memory runs out.
    pub fn new(alloc: Global, certificate: &Certificate) -> Result<Plan, AllocError>
        ensures plan { IfOk result (λ plan. IsPlan certificate.now plan) }
        ensures few { length certificate.now.fates ≤ 100000 }
    {
        let fates = certificate.fates();
        let count = fates.len() + 1;
        Ok(Plan {
            listed: listed_by_gap(alloc, count, certificate)?,
            due: due_by_gap(alloc, count, fates)?,
            taken: taken_by_entry(alloc, count, fates)?,
            named: named_entries(alloc, count, certificate)?,
        })
    }
}
