//! The fourth rule: which invocations expired.

ghost use Rattle.std.specs.Prelude.{◌≡◌, ◌≤◌, ◌<◌, ◌++◌, ◌∷◌, [], ◌==◌, ℕ, Some, cond, length, IfOk, OnOk};
ghost use Rattle.std.specs.List.{list_any};
ghost use Rattle.tcap_search.specs.SegmentEntries.{lines_of};
ghost use Rattle.tcap_search.specs.ProposedCertificate.{expiries_of, fated, with_expiry};
ghost use Rattle.tcap_search.specs.DeliveryOrder.{AreInOrder};
ghost use Rattle.tcap_search.specs.SegmentLists.{AreTransactions};
ghost use Rattle.tcap_search.specs.GapDeliveries.{due_at};
ghost use Rattle.tcap_certificate.specs.Replay.{due_in};
ghost use Rattle.tcap_search.specs.ListedExpiries.{IsListed, all_rejected, entry_rejected};
ghost use Rattle.tcap_search.specs.Rejections.{has_rejection, rejects};
ghost use Rattle.tcap_search.specs.Sweep.{answer_rejected};

use crate::sweep::{Answer, Sweep, components_of, unrecognized};
use std::alloc::{AllocError, Global};
use std::collections::BTreeSet;
use tcap_certificate::{Expiry, Fate};
use tcap_parts::Component;
use tcap_record::{End, Entry};

/// The expiries listed so far, and the invocations that expire by them. An invocation is given by the number of its
/// entry and the index of its Invoke there.
#[derive(Drop)]
pub(crate) struct ExpiryList {
    expiries: Vec<Expiry>,
    named: BTreeSet<(u32, u32)>,
}

impl ExpiryList {
    /// Creates an empty list.
    fn new(alloc: Global) -> ExpiryList
        ensures none { result.expiries.items ≡ [] }
        ensures listed { IsListed result }
    {
        ExpiryList {
            expiries: Vec::new(alloc),
            named: BTreeSet::new(alloc),
        }
    }

    /// Lists the expiry that an end's rejection of an answer shows: the last invocation of the ID ended in the gap of
    /// the answer. Lists nothing if this invocation is listed. Fails if memory runs out.
    fn add(&mut self, side: End, answer: Answer) -> Result<(), AllocError>
        requires listed { IsListed self.old }
        ensures added { OnOk result (self.new.expiries.items
            ≡ with_expiry self.old.expiries.items (Some side) answer.gap answer.invoked) }
        ensures listed { OnOk result (IsListed self.new) }
    {
        let Some((entry, component)) = answer.invoked else {
            return Ok(());
        };
        if self.named.insert((entry, component))? {
            self.expiries.push(Expiry {
                gap: answer.gap,
                component,
                side,
                entry,
            })?;
        }
        Ok(())
    }

    /// Lists the expiries that components of an end show in a transaction. Fails if memory runs out.
    fn add_all(
        &mut self,
        sweep: &Sweep,
        transaction: u32,
        side: End,
        components: &[Component],
    ) -> Result<(), AllocError>
        requires listed { IsListed self.old }
        ensures added { OnOk result (self.new.expiries.items
            ≡ all_rejected (answer_rejected sweep.now transaction side) side self.old.expiries.items components.now) }
        ensures listed { OnOk result (IsListed self.new) }
    {
        for component in components {
            if let Some(answer) = sweep.rejected(transaction, side, component) {
                self.add(side, answer)?;
            }
        }
        Ok(())
    }

    /// Lists the expiries that an entry shows. Fails if memory runs out.
    fn add_entry(
        &mut self,
        sweep: &Sweep,
        entry: &Entry,
        transaction: Option<u32>,
    ) -> Result<(), AllocError>
        requires listed { IsListed self.old }
        ensures added { OnOk result (self.new.expiries.items
            ≡ entry_rejected (answer_rejected sweep.now) self.old.expiries.items entry.now transaction) }
        ensures listed { OnOk result (IsListed self.new) }
    {
        match (entry.side, transaction) {
            (Some(side), Some(transaction)) => {
                self.add_all(sweep, transaction, side, components_of(entry))
            }
            _ => Ok(()),
        }
    }
}

/// Creates `count` empty lists. Fails if memory runs out.
fn empty_lists(alloc: Global, count: usize) -> Result<Vec<Vec<u32>>, AllocError>
    ensures empty { IfOk result (λ lists. (gap : ℕ) → due_at gap lists.items ≡ []) }
    ensures count { IfOk result (λ lists. length lists.items ≡ count) }
{
    let mut lists = Vec::new(alloc);
    for _ in 0..count {
        lists.push(Vec::new(alloc))?;
    }
    Ok(lists)
}

/// Appends a number to the list of a gap, if there is such a list. Fails if memory runs out.
fn push_due(lists: &mut Vec<Vec<u32>>, gap: u32, number: u32) -> Result<(), AllocError>
    ensures pushed { OnOk result ((g : ℕ) → g < length lists.old.items → due_at g lists.new.items
        ≡ cond (g == gap) (due_at g lists.old.items ++ number ∷ []) (due_at g lists.old.items)) }
    ensures count { length lists.new.items ≡ length lists.old.items }
{
    if let Some(numbers) = lists.get_mut(gap as usize) {
        numbers.push(number)?;
    }
    Ok(())
}

/// Returns the numbers of the entries delivered in each gap, except in the gap after the last entry. Fails if memory
/// runs out.
fn due_by_gap(alloc: Global, fates: &[Fate]) -> Result<Vec<Vec<u32>>, AllocError>
    requires few { length fates.now ≤ 100000 }
    ensures { IfOk result (λ lists. (gap : ℕ) → gap < length fates.now
        → due_at gap lists.items ≡ due_in gap 0 fates.now) }
{
    let mut lists = empty_lists(alloc, fates.len())?;
    for (number, fate) in fates.iter().enumerate() {
        if let Fate::Gap(gap) = *fate {
            push_due(&mut lists, gap, number as u32)?;
        }
    }
    Ok(lists)
}

/// Returns the numbers of a gap.
fn due_at(lists: &[Vec<u32>], gap: usize) -> &[u32]
    ensures { result.now ≡ due_at gap lists.now }
{
    match lists.get(gap) {
        Some(numbers) => numbers,
        None => &[],
    }
}

/// Returns whether one of these components rejects an answer as unrecognized.
fn has_rejection(components: &[Component]) -> bool
    ensures { result ≡ list_any rejects components.now }
{
    for component in components {
        if unrecognized(component).is_some() {
            return true;
        }
    }
    false
}

/// Returns whether a component of one of these entries rejects an answer as unrecognized.
fn is_any_rejected(entries: &[Entry]) -> bool
    ensures { result ≡ list_any has_rejection entries.now }
{
    for entry in entries {
        if has_rejection(components_of(entry)) {
            return true;
        }
    }
    false
}

/// Finds the expiries of a segment with these fates in one sweep over gaps and entries. They are in the order of the
/// rejections. Fails if memory runs out.
fn swept_expiries(
    alloc: Global,
    entries: &[Entry],
    transactions: &[Option<u32>],
    fates: &[Fate],
) -> Result<Vec<Expiry>, AllocError>
    requires few { length entries.now ≤ 100000 }
    requires transactions { AreTransactions entries.now transactions.now }
    requires count { length fates.now ≡ length entries.now }
    requires order { AreInOrder (fated (lines_of entries.now) fates.now) }
    ensures { IfOk result (λ listed. listed.items
        ≡ expiries_of (fated (lines_of entries.now) fates.now) (lines_of entries.now)) }
{
    let due = due_by_gap(alloc, fates)?;
    let mut sweep = Sweep::new(alloc);
    let mut listed = ExpiryList::new(alloc);
    for (number, entry) in entries.iter().enumerate() {
        let transaction = transactions[number];
        sweep.deliver_all(number as u32, due_at(&due, number), entries, transactions)?;
        listed.add_entry(&sweep, entry, transaction)?;
        sweep.note_entry(number as u32, entry, transaction)?;
    }
    let ExpiryList { expiries, .. } = listed;
    Ok(expiries)
}

#[tactic(auto, using(crate::proofs::ExpiryLaws::no_expiries))]
/// Finds the expiries of a segment with these fates. If no answer is rejected as unrecognized, there are none, and no
/// memory is allocated. Fails if memory runs out.
pub(crate) fn expiries_of(
    alloc: Global,
    entries: &[Entry],
    transactions: &[Option<u32>],
    fates: &[Fate],
) -> Result<Vec<Expiry>, AllocError>
    requires few { length entries.now ≤ 100000 }
    requires transactions { AreTransactions entries.now transactions.now }
    requires count { length fates.now ≡ length entries.now }
    requires order { AreInOrder (fated (lines_of entries.now) fates.now) }
    ensures { IfOk result (λ listed. listed.items
        ≡ expiries_of (fated (lines_of entries.now) fates.now) (lines_of entries.now)) }
{
    if !is_any_rejected(entries) {
        return Ok(Vec::new(alloc));
    }
    swept_expiries(alloc, entries, transactions, fates)
}
