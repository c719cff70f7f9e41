//! The transactions to which the entries of a segment between quiet marks belong.

ghost use Rattle.std.specs.Prelude.{◌≡◌, ◌≤◌, ◌&&◌, ℕ, List, None, cond, length, IfOk, OnOk};
ghost use Rattle.std.specs.Str.{bytes_eq};
ghost use Rattle.tcap_record.specs.declared.entry.End.{End as Side};
ghost use Rattle.tcap_model.specs.World.{is_side};
ghost use Rattle.tcap_search.specs.LastEntries.{belongs, latest_at};
ghost use Rattle.tcap_search.specs.SegmentEntries.{is_from};
ghost use Rattle.tcap_record.specs.Ends.{is_entry_of};
ghost use Rattle.tcap_search.specs.SegmentLists.{AreTransactions};

use std::alloc::{AllocError, Global};
use std::collections::BTreeMap;
use tcap_msg::{Message, TransactionId, TransactionIdView};
use tcap_record::{Body, End, Entry};

/// The transaction of the last entry of each end, by originating ID.
#[derive(Drop)]
struct Latest {
    a: BTreeMap<TransactionId, Option<u32>>,
    b: BTreeMap<TransactionId, Option<u32>>,
}

impl Latest {
    /// Creates an empty map, before the first entry.
    fn new(alloc: Global) -> Latest
        ensures { (side : Side) (id : List ℕ) → latest_at side id result ≡ None }
    {
        Latest {
            a: BTreeMap::new(alloc),
            b: BTreeMap::new(alloc),
        }
    }

    /// Returns the transaction of the last entry of this end from this ID.
    fn get(&self, side: End, id: TransactionIdView) -> Option<u32>
        ensures { result ≡ latest_at side id.entry.octets.now self.now }
    {
        let key = id.to_transaction_id();
        let found = match side {
            End::A => self.a.get(&key),
            End::B => self.b.get(&key),
        };
        *found?
    }

    /// Sets the transaction of the last entry of this end from this ID. Fails if memory runs out.
    fn set(
        &mut self,
        side: End,
        id: TransactionIdView,
        transaction: Option<u32>,
    ) -> Result<(), AllocError>
        ensures { OnOk result ((at : Side) (key : List ℕ) → latest_at at key self.new
            ≡ cond (is_side at side && bytes_eq key id.entry.octets.now) transaction (latest_at at key self.old)) }
    {
        let key = id.to_transaction_id();
        match side {
            End::A => self.a.insert(key, transaction)?,
            End::B => self.b.insert(key, transaction)?,
        };
        Ok(())
    }

    /// Returns the transaction of an entry with this number.
    fn transaction_of(&self, number: u32, entry: &Entry) -> Option<u32>
        ensures { result ≡ belongs number entry.now self.now }
    {
        let Body::Good(message) = &entry.body else {
            return None;
        };
        match message {
            Message::Unidirectional { .. } => None,
            Message::Begin { .. } => Some(number),
            Message::Continue { dtid, .. }
            | Message::End { dtid, .. }
            | Message::Abort { dtid, .. } => self.get(entry.side?.other(), dtid.view()),
        }
    }

    /// Notes an entry with its transaction. Fails if memory runs out.
    fn note(&mut self, entry: &Entry, transaction: Option<u32>) -> Result<(), AllocError>
        ensures { OnOk result ((at : Side) (key : List ℕ) → latest_at at key self.new
            ≡ cond (is_entry_of at entry.now.side && is_from key entry.now) transaction (latest_at at key self.old)) }
    {
        let (Some(side), Body::Good(message)) = (entry.side, &entry.body) else {
            return Ok(());
        };
        match message {
            Message::Begin { otid, .. } | Message::Continue { otid, .. } => {
                self.set(side, otid.view(), transaction)
            }
            _ => Ok(()),
        }
    }
}

/// Returns the transaction of each entry, as the number of its Begin. Fails if memory runs out.
pub(crate) fn transactions_of(
    alloc: Global,
    entries: &[Entry],
) -> Result<Vec<Option<u32>>, AllocError>
    requires few { length entries.now ≤ 100000 }
    ensures { IfOk result (λ transactions. AreTransactions entries.now transactions.items) }
{
    let mut latest = Latest::new(alloc);
    let mut transactions = Vec::with_capacity(alloc, entries.len())?;
    for (number, entry) in entries.iter().enumerate() {
        let transaction = latest.transaction_of(number as u32, entry);
        latest.note(entry, transaction)?;
        transactions.push(transaction)?;
    }
    Ok(transactions)
}
