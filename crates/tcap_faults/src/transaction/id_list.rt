//! A list of transaction IDs, without one that repeats the ID before it.

ghost use Rattle.std.specs.Prelude.{◌≡◌, ℕ, List, [], ◌∷◌, ◌++◌, Option, Some, OnOk};
ghost use Rattle.tcap_msg.specs.Meaning.{id_of};
ghost use Rattle.tcap_faults.specs.IdList.{AreAmong, AreIds, ids_first};
ghost use Rattle.tcap_faults.specs.TangledIds.{two_differ};

use std::alloc::{AllocError, Global};
use tcap_msg::{TransactionId, TransactionIdView};

/// A list of transaction IDs. Most lists have one ID.
#[derive(Drop)]
pub(crate) struct Ids {
    pub(crate) first: Option<TransactionId>,
    /// The IDs after the first; each differs from the ID before it.
    pub(crate) more: Vec<TransactionId>,
}

impl Ids {
    /// Creates an empty list.
    pub(crate) fn new(alloc: Global) -> Ids
        ensures { AreIds [] result }
    {
        Ids {
            first: None,
            more: Vec::new(alloc),
        }
    }

    /// Appends an ID, unless it repeats the last. Fails if memory runs out.
    pub(crate) fn add(&mut self, id: TransactionIdView) -> Result<(), AllocError>
        ensures { (ids : List (List ℕ)) → AreIds ids self.old
            → OnOk result (AreIds (ids ++ id.entry.octets.now ∷ []) self.new) }
    {
        let Some(first) = &self.first else {
            self.first = Some(id.to_transaction_id());
            return Ok(());
        };
        let last = match self.more.last() {
            Some(last) => last,
            None => first,
        };
        if last.octets() != id.octets {
            self.more.push(id.to_transaction_id())?;
        }
        Ok(())
    }

    /// Returns whether two of the IDs differ.
    pub(crate) fn differ(&self) -> bool
        ensures { (ids : List (List ℕ)) → AreIds ids self.now → result ≡ two_differ ids }
    {
        !self.more.is_empty()
    }

    /// Returns the first ID.
    pub(crate) fn first(&self) -> Option<TransactionIdView<'_>>
        ensures { (ids : List (List ℕ)) → AreIds ids self.now → id_of result ≡ ids_first ids }
    {
        match &self.first {
            Some(first) => Some(first.view()),
            None => None,
        }
    }

    /// Returns whether two of the IDs in both lists together differ.
    pub(crate) fn differs_from(&self, others: &Ids) -> bool
        ensures { (xs ys : List (List ℕ)) → AreAmong xs (Some self.now) → AreAmong ys (Some others.now)
            → result ≡ two_differ (xs ++ ys) }
    {
        if self.differ() || others.differ() {
            return true;
        }
        match (self.first(), others.first()) {
            (Some(one), Some(other)) => one.octets != other.octets,
            _ => false,
        }
    }
}
