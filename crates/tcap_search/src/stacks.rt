//! Numbers of entries by originating ID.

ghost use Rattle.std.specs.Prelude.{◌≡◌, ◌∷◌, ◌&&◌, [], ℕ, List, cond, reverse, OnOk};
ghost use Rattle.std.specs.Str.{bytes_eq};
ghost use Rattle.tcap_record.specs.declared.entry.End.{End as Side};
ghost use Rattle.tcap_model.specs.World.{is_side};
ghost use Rattle.tcap_search.specs.Candidates.{is_top, stack_at, stack_in, top, under_top, without};

use std::alloc::{AllocError, Global};
use std::collections::BTreeMap;
use tcap_msg::{TransactionId, TransactionIdView};
use tcap_record::End;

/// A stack of numbers of entries for each end and originating ID.
#[derive(Drop)]
pub(crate) struct Stacks {
    pub(crate) a: BTreeMap<TransactionId, Vec<u32>>,
    pub(crate) b: BTreeMap<TransactionId, Vec<u32>>,
}

/// Pushes a number for an ID. Fails if memory runs out.
fn push_to(
    alloc: Global,
    stacks: &mut BTreeMap<TransactionId, Vec<u32>>,
    id: TransactionIdView,
    number: u32,
) -> Result<(), AllocError>
    ensures { OnOk result ((key : List ℕ) → stack_in key stacks.new.entries
        ≡ cond (bytes_eq key id.entry.octets.now) (number ∷ stack_in key stacks.old.entries)
        (stack_in key stacks.old.entries)) }
{
    let key = id.to_transaction_id();
    match stacks.get_mut(&key) {
        Some(stack) => stack.push(number)?,
        None => {
            let mut stack = Vec::new(alloc);
            stack.push(number)?;
            stacks.insert(key, stack)?;
        }
    }
    Ok(())
}

/// Pops the top number of an ID, if there is one.
fn pop_from(stacks: &mut BTreeMap<TransactionId, Vec<u32>>, id: TransactionIdView) -> Option<u32>
    ensures top { result ≡ top (stack_in id.entry.octets.now stacks.old.entries) }
    ensures left { (key : List ℕ) → stack_in key stacks.new.entries
        ≡ cond (bytes_eq key id.entry.octets.now) (under_top (stack_in key stacks.old.entries))
        (stack_in key stacks.old.entries) }
{
    let key = id.to_transaction_id();
    stacks.get_mut(&key)?.pop()
}

/// Returns whether this number is the last of the stack.
fn is_top(stack: &[u32], number: u32) -> bool
    ensures { result ≡ is_top number (reverse stack.now) }
{
    match stack.last() {
        Some(top) => *top == number,
        None => false,
    }
}

/// Pops this number of an ID, if it is on top.
fn drop_from(stacks: &mut BTreeMap<TransactionId, Vec<u32>>, id: TransactionIdView, number: u32)
    ensures { (key : List ℕ) → stack_in key stacks.new.entries
        ≡ cond (bytes_eq key id.entry.octets.now) (without number (stack_in key stacks.old.entries))
        (stack_in key stacks.old.entries) }
{
    let key = id.to_transaction_id();
    if let Some(stack) = stacks.get_mut(&key) {
        if is_top(stack, number) {
            stack.pop();
        }
    }
}

impl Stacks {
    /// Creates empty stacks.
    pub(crate) fn new(alloc: Global) -> Stacks
        ensures { (side : Side) (id : List ℕ) → stack_at side id result ≡ [] }
    {
        Stacks {
            a: BTreeMap::new(alloc),
            b: BTreeMap::new(alloc),
        }
    }

    /// Pushes a number for an ID of an end. Fails if memory runs out.
    pub(crate) fn push(
        &mut self,
        alloc: Global,
        side: End,
        id: TransactionIdView,
        number: u32,
    ) -> Result<(), AllocError>
        ensures { OnOk result ((at : Side) (key : List ℕ) → stack_at at key self.new
            ≡ cond (is_side at side && bytes_eq key id.entry.octets.now) (number ∷ stack_at at key self.old)
            (stack_at at key self.old)) }
    {
        match side {
            End::A => push_to(alloc, &mut self.a, id, number),
            End::B => push_to(alloc, &mut self.b, id, number),
        }
    }

    /// Pops the top number of an ID of an end, if there is one.
    pub(crate) fn pop(&mut self, side: End, id: TransactionIdView) -> Option<u32>
        ensures top { result ≡ top (stack_at side id.entry.octets.now self.old) }
        ensures left { (at : Side) (key : List ℕ) → stack_at at key self.new
            ≡ cond (is_side at side && bytes_eq key id.entry.octets.now) (under_top (stack_at at key self.old))
            (stack_at at key self.old) }
    {
        match side {
            End::A => pop_from(&mut self.a, id),
            End::B => pop_from(&mut self.b, id),
        }
    }

    /// Pops this number of an ID of an end, if it is on top.
    pub(crate) fn drop_top(&mut self, side: End, id: TransactionIdView, number: u32)
        ensures { (at : Side) (key : List ℕ) → stack_at at key self.new
            ≡ cond (is_side at side && bytes_eq key id.entry.octets.now) (without number (stack_at at key self.old))
            (stack_at at key self.old) }
    {
        match side {
            End::A => drop_from(&mut self.a, id, number),
            End::B => drop_from(&mut self.b, id, number),
        }
    }
}
