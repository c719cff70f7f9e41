//! Lists of items, one for each number.

ghost use Rattle.std.specs.Prelude.{◌≡◌, ◌<◌, ◌++◌, ◌∷◌, [], ℕ, ◌==◌, cond, OnOk, OnErr, IfOk, length};
ghost use Rattle.tcap_check.specs.Buckets.{count_lists, list_at};

use std::alloc::{AllocError, Global};

/// A list of items for each number from 0 up to a count.
#[derive(Debug, Drop)]
pub struct Buckets<T> {
    lists: Vec<Vec<T>>,
}

impl<T: Drop> Buckets<T> {
    ghost use Rattle.std.specs.Prelude.{◌≡◌, ◌<◌, ◌++◌, ◌∷◌, [], ℕ, ◌==◌, cond, OnOk, IfOk};
    ghost use Rattle.tcap_check.specs.Buckets.{count_lists, list_at};

    /// Creates this many empty lists. Fails if memory runs out.
    pub(crate) fn new(alloc: Global, count: usize) -> Result<Buckets<T>, AllocError>
        ensures empty { IfOk result (λ made. (n : ℕ) → list_at n made ≡ []) }
        ensures count { IfOk result (λ made. count_lists made ≡ count) }
    {
        let mut lists = Vec::with_capacity(alloc, count)?;
        for _ in 0..count {
            lists.push(Vec::new(alloc))?;
        }
        Ok(Buckets { lists })
    }

    /// Appends an item to the list of this number, or drops it if there is no such list. Fails if memory runs out.
    pub(crate) fn push(&mut self, at: usize, item: T) -> Result<(), AllocError>
        ensures pushed { OnOk result ((n : ℕ) → n < count_lists self.old
            → list_at n self.new ≡ cond (n == at) (list_at n self.old ++ item ∷ []) (list_at n self.old)) }
        ensures count { count_lists self.new ≡ count_lists self.old }
    {
        if let Some(list) = self.lists.get_mut(at) {
            list.push(item)?;
        }
        Ok(())
    }

    /// Returns the items of this number, or none if there is no such list.
    pub fn get(&self, at: usize) -> &[T]
        ensures { result.now ≡ list_at at self.now }
    {
        match self.lists.get(at) {
            Some(list) => list,
            None => &[],
        }
    }
}
