//! Rows of items by invoke ID.

ghost use Rattle.std.specs.Ordering.{int_cmp};
ghost use Rattle.std.specs.Map.{keys_of};
ghost use Rattle.std.specs.List.Sorted.{IsStrictlySortedBy, IsStrictlySortedBy-prop};

use crate::row::Row;
use std::alloc::{AllocError, Global};
use std::collections::BTreeMap;

/// Rows of items by invoke ID. Removing an item and putting it back can't fail. An ID without items may have a row.
#[derive(Debug, Drop)]
pub struct Lists<K> {
    /// The rows by their invoke IDs.
    pub rows: BTreeMap<i8, Box<Row<K>>>,
    alloc: Global,
    pub ghost ordered: { IsStrictlySortedBy int_cmp (keys_of rows.entries) } by { IsStrictlySortedBy-prop int_cmp
        (keys_of rows.entries) },
}

impl<K> Lists<K> {
    ghost use Rattle.std.specs.Prelude.{◌≡◌, [], MatchOption};
    ghost use Rattle.tcap_lists.specs.Items.{listed};
    ghost use Rattle.tcap_lists.specs.Lists.{row_of, rows_of};

    /// Creates lists without rows.
    pub fn new(alloc: Global) -> Lists<K>
        ensures { rows_of result ≡ [] }
    {
        Lists {
            rows: BTreeMap::new(alloc),
            alloc,
        }
    }

    /// Returns the row of an ID, if it was made.
    pub fn get(&self, id: i8) -> Option<&Row<K>>
        ensures { MatchOption result (listed id (rows_of self.now) ≡ [])
            (λ row. listed id (rows_of self.now) ≡ row_of row.now) }
    {
        match self.rows.get(&id) {
            Some(row) => Some(row),
            None => None,
        }
    }
}

impl<K: Drop> Lists<K> {
    ghost use Rattle.std.specs.Prelude.{◌≡◌, ◌<◌, None, OnOk, IsSome, length, slice_index_or};
    ghost use Rattle.tcap_lists.specs.Items.{listed};
    ghost use Rattle.tcap_lists.specs.Lists.{HasRow, KeepsRows, items_of, kind_of, one_less, row_of, rows_of, with_place};

    /// Makes a row for an ID, if it has none.
    ///
    /// # Errors
    ///
    /// AllocError if memory runs out.
    pub fn make(&mut self, id: i8) -> Result<(), AllocError>
        ensures made { OnOk result (HasRow id self.new) }
        ensures rows { rows_of self.new ≡ rows_of self.old }
        ensures keeps { KeepsRows self.old self.new }
    {
        if let Some(_) = self.rows.get(&id) {
            return Ok(());
        }
        let row = Box::new(self.alloc, Row::new(self.alloc))?;
        self.rows.insert(id, row)?;
        Ok(())
    }

    /// Removes the newest place of an ID's row.
    pub fn remove_newest(&mut self, id: i8)
        requires made { HasRow id self.old }
        ensures left { rows_of self.new ≡ one_less id (rows_of self.old) }
        ensures keeps { KeepsRows self.old self.new }
    {
        match self.rows.get_mut(&id) {
            Some(row) => row.remove_newest(),
            None => unreachable!(),
        }
    }

    /// Removes the item in a place of an ID's row, and returns the number of its kind.
    pub fn take(&mut self, id: i8, at: usize) -> usize
        requires exists { IsSome (slice_index_or (listed id (rows_of self.old)) at None) }
        ensures kind { slice_index_or (listed id (rows_of self.old)) at None ≡ kind_of id result self.old }
        ensures taken { rows_of self.new ≡ with_place id at None (rows_of self.old) }
        ensures keeps { KeepsRows self.old self.new }
    {
        match self.rows.get_mut(&id) {
            Some(row) => row.take(at),
            None => unreachable!(),
        }
    }

    /// Puts an item of a kind back into an empty place of an ID's row.
    pub fn put_back(&mut self, id: i8, at: usize, kind: usize)
        requires within { at < length (listed id (rows_of self.old)) }
        requires empty { slice_index_or (listed id (rows_of self.old)) at None ≡ None }
        requires exists { IsSome (kind_of id kind self.old) }
        ensures put { rows_of self.new ≡ with_place id at (kind_of id kind self.old) (rows_of self.old) }
        ensures keeps { KeepsRows self.old self.new }
    {
        match self.rows.get_mut(&id) {
            Some(row) => row.put_back(at, kind),
            None => unreachable!(),
        }
    }

    /// Drops the places of an ID's row, if they are many and all empty.
    pub fn drop_empty_places(&mut self, id: i8)
        ensures { items_of (rows_of self.new) ≡ items_of (rows_of self.old) }
    {
        if let Some(row) = self.rows.get_mut(&id) {
            if row.is_spent() {
                row.clear(self.alloc);
            }
        }
    }
}
