//! Lists of any type that do not allocate for their first item. `smallvec` fills unused places with a blank value,
//! which a type parameter does not have, so it serves only for numbers.

ghost use Rattle.std.specs.Prelude.{◌≡◌, ◌≤◌, ◌++◌, ◌∷◌, [], OnErr, OnOk, IfOk, length, option_copied, slice_get, vec_capacity};
ghost use Rattle.std.specs.Option.{option_to_list};
ghost use Rattle.std.specs.Mem.{FitsInMemory};

use std::alloc::{AllocError, Global};
use std::marker::Model;

/// The storage of the items.
#[derive(Debug, Drop)]
pub(crate) enum Storage<T> {
    /// At most one item, in place.
    Inside(Option<T>),
    /// All items, in a vector.
    Outside(Vec<T>),
}

/// A list of items.
#[derive(Debug, Drop)]
pub(crate) struct InlineList<T> {
    storage: Storage<T>,
}

impl<T> Model for InlineList<T> {
    ghost use Rattle.tcap_lists.specs.InlineList.{Items, items_code};
    ghost use Rattle.tcap_lists.specs.Storage.{items_in};

    ghost Value = { Items T };

    ghost coded = { items_code T.code };

    ghost view = { λ a. items_in a.storage };
}

/// Creates an empty list with a capacity of two items.
fn with_capacity_of_two<T: Drop>(alloc: Global) -> Result<Vec<T>, AllocError>
    ensures items { IfOk result (λ items. items.items ≡ []) }
    ensures capacity { IfOk result (λ items. 2 ≤ vec_capacity items) }
{
    let mut items = Vec::new(alloc);
    items.reserve(2)?;
    Ok(items)
}

/// Moves the first item out of its place, and returns a list of both.
fn both<T: Drop>(first: &mut Option<T>, second: T, mut items: Vec<T>) -> Vec<T>
    requires none { items.items ≡ [] }
    requires capacity { 2 ≤ vec_capacity items }
    ensures { result.items ≡ option_to_list first.old ++ second ∷ [] }
{
    if let Some(first) = first.take() {
        items.push_reserved(first);
    }
    items.push_reserved(second);
    items
}

impl<T> InlineList<T> {
    /// Creates an empty list.
    pub(crate) fn new() -> InlineList<T>
        ensures { result.items ≡ [] }
    {
        InlineList {
            storage: Storage::Inside(None),
        }
    }

    /// Returns the number of items.
    pub(crate) fn len(&self) -> usize
        ensures { result ≡ length self.now.items }
    {
        match &self.storage {
            Storage::Inside(None) => 0,
            Storage::Inside(Some(_)) => 1,
            Storage::Outside(items) => items.len(),
        }
    }

    /// Returns all items.
    pub(crate) fn as_slice(&self) -> &[T]
        requires { FitsInMemory T.row }
        ensures { result.now ≡ self.now.items }
    {
        match &self.storage {
            Storage::Inside(item) => item.as_slice(),
            Storage::Outside(items) => items.as_slice(),
        }
    }

    /// Returns the item at an index.
    pub(crate) fn get(&self, number: usize) -> Option<&T>
        ensures { option_copied result ≡ slice_get self.now.items number }
    {
        match &self.storage {
            Storage::Inside(Some(item)) if number == 0 => Some(item),
            Storage::Inside(_) => None,
            Storage::Outside(items) => items.get(number),
        }
    }

    /// Appends an item.
    pub(crate) fn push(&mut self, alloc: Global, item: T) -> Result<(), AllocError>
    where
        T: Drop,
        ensures more { OnOk result (self.new.items ≡ self.old.items ++ item ∷ []) }
        ensures kept { OnErr result (self.new ≡ self.old) }
    {
        match &mut self.storage {
            Storage::Outside(items) => items.push(item)?,
            Storage::Inside(None) => self.storage = Storage::Inside(Some(item)),
            Storage::Inside(first) => {
                let items = with_capacity_of_two(alloc)?;
                self.storage = Storage::Outside(both(first, item, items));
            }
        }
        Ok(())
    }
}
