//! The least number noted so far, by end and transaction.

ghost use Rattle.std.specs.Prelude.{◌≡◌, ◌<◌, ◌&&◌, ◌==◌, ℕ, None, cond, length, slice_get, IfOk};
ghost use Rattle.tcap_record.specs.declared.entry.End.{End as Side};
ghost use Rattle.tcap_model.specs.Run.{option_then};
ghost use Rattle.tcap_search.specs.LeastNumbers.{HasRoom, is_below, is_transaction, is_within, least_at, lesser};
ghost use Rattle.tcap_record.specs.Ends.{is_entry_of};

use std::alloc::{AllocError, Global};
use tcap_record::End;

/// The least number noted for each end and each transaction below a count.
#[derive(Drop)]
pub(crate) struct Leasts {
    pub(crate) a: Vec<Option<u32>>,
    pub(crate) b: Vec<Option<u32>>,
}

/// Creates a list for `count` transactions without a number. Fails if memory runs out.
fn nothing(alloc: Global, count: usize) -> Result<Vec<Option<u32>>, AllocError>
    ensures nothing { IfOk result (λ made. (at : ℕ) → option_then (slice_get made.items at) (λ least. least) ≡ None) }
    ensures room { IfOk result (λ made. length made.items ≡ count) }
{
    let mut list = Vec::new(alloc);
    list.resize(count, None)?;
    Ok(list)
}

/// Notes a number for a transaction, if there is room for the transaction.
fn note_in(list: &mut Vec<Option<u32>>, transaction: u32, number: u32)
    ensures noted { (at : ℕ) → at < length list.old.items
        → option_then (slice_get list.new.items at) (λ least. least)
        ≡ cond (at == transaction) (lesser number (option_then (slice_get list.old.items at) (λ least. least)))
        (option_then (slice_get list.old.items at) (λ least. least)) }
    ensures room { length list.new.items ≡ length list.old.items }
{
    if let Some(least) = list.get_mut(transaction as usize) {
        *least = match *least {
            Some(before) => Some(before.min(number)),
            None => Some(number),
        };
    }
}

impl Leasts {
    /// Creates a table for `count` transactions without a number. Fails if memory runs out.
    pub(crate) fn new(alloc: Global, count: usize) -> Result<Leasts, AllocError>
        ensures nothing { IfOk result (λ made. (side : Side) (at : ℕ) → least_at side at made ≡ None) }
        ensures room { IfOk result (λ made. HasRoom count made) }
    {
        Ok(Leasts {
            a: nothing(alloc, count)?,
            b: nothing(alloc, count)?,
        })
    }

    /// Returns the least number noted for an end and a transaction.
    pub(crate) fn get(&self, side: End, transaction: u32) -> Option<u32>
        ensures { result ≡ least_at side transaction self.now }
    {
        let list = match side {
            End::A => &self.a,
            End::B => &self.b,
        };
        *list.get(transaction as usize)?
    }

    /// Returns whether a number below the limit was noted for an end and a transaction.
    pub(crate) fn has_below(&self, side: End, transaction: u32, limit: u32) -> bool
        ensures { result ≡ is_below limit (least_at side transaction self.now) }
    {
        match self.get(side, transaction) {
            Some(least) => least < limit,
            None => false,
        }
    }

    /// Returns whether a number up to the limit was noted for an end and a transaction.
    pub(crate) fn has_within(&self, side: End, transaction: u32, limit: u32) -> bool
        ensures { result ≡ is_within limit (least_at side transaction self.now) }
    {
        match self.get(side, transaction) {
            Some(least) => least <= limit,
            None => false,
        }
    }

    /// Notes a number for an end and a transaction, if there is room for the transaction.
    pub(crate) fn note(&mut self, side: Option<End>, transaction: Option<u32>, number: u32)
        ensures noted { (count : ℕ) (at : Side) (t : ℕ) → HasRoom count self.old → t < count
            → least_at at t self.new
            ≡ cond (is_entry_of at side && is_transaction t transaction) (lesser number (least_at at t self.old))
            (least_at at t self.old) }
        ensures room { (count : ℕ) → HasRoom count self.old → HasRoom count self.new }
    {
        let (Some(side), Some(transaction)) = (side, transaction) else {
            return;
        };
        match side {
            End::A => note_in(&mut self.a, transaction, number),
            End::B => note_in(&mut self.b, transaction, number),
        }
    }
}
