//! Items in the order in which they came, each of one kind.

ghost use Rattle.std.specs.Prelude.{◌≡◌, ◌<◌, ◌≤◌, ℕ, List, Option, Some, None, true, false, slice_index_or, slice_set, length, vec_len};
ghost use Rattle.smallvec.specs.SmallVec.{small_vec_len};
ghost use Rattle.tcap_lists.specs.Chains.{AreMarked, kinds_in};
ghost use Rattle.tcap_lists.specs.Row.{AreNumbered, AreOldest, IsOldest, is_wanted, kind_at};

use crate::chains::Chains;
use crate::inline_list::InlineList;
use crate::kind_index::KindIndex;
use crate::kind_numbers::SORTS;
use crate::place_search::{is_wanted, kind_at, oldest_after, oldest_before};
use smallvec::SmallVec;
use std::alloc::{AllocError, Global};
use std::cell::Cell;
use tcap_parts::CodeView;

/// The most kinds that are searched one by one. More kinds are found by guesses from their codes, and the places of
/// each kind are in a chain.
pub const FEW_KINDS: usize = 8;

/// The number of places from which a row without items is dropped.
const SPENT_FROM: usize = 16;

/// Items in the order in which they came, each of one kind.
///
/// An item is in a place, which is empty after the item is removed. Removing an item and putting it back can't fail. A
/// row of one item, or of two items of one kind, does not allocate.
///
/// The place of the oldest item of each kind is known. When that item is removed, the next one is searched for: place
/// by place if kinds are few, else only in the places of the kind.
#[derive(Debug, Drop)]
pub struct Row<K> {
    kinds: InlineList<K>,
    /// The kind number of the item in each place.
    places: SmallVec<Option<usize>, 2>,
    /// The place of the oldest item of each kind, if there is one.
    oldest: SmallVec<usize, 1>,
    /// The place of the oldest item of all, if there is one.
    first: usize,
    /// The numbers of kinds and the places of each, if kinds are many.
    index: KindIndex,
    /// The number of the last kind to which an operation was found to be linked. It is only a hint that saves time.
    linking: Cell<usize>,
    ghost marked: { AreMarked places.items index },
    ghost numbered: { AreNumbered places.items (length kinds.items) },
    ghost for_each: { length kinds.items ≤ small_vec_len oldest },
    ghost oldest_of_each: { AreOldest places.items oldest.items },
    ghost oldest_of_all: { IsOldest None places.items first },
}

/// Returns a place after all items of a kind.
fn end_of(places: &[Option<usize>], chains: &Chains, kind: usize) -> usize
    requires marked { AreMarked places.now (kinds_in chains.now.marks.items) }
    requires all { length places.now ≤ vec_len chains.now.marks }
    ensures within { result ≤ length places.now }
    ensures none { (at : ℕ) → result ≤ at → is_wanted (Some kind) (kind_at places.now at) ≡ false }
{
    let end = chains.end_of(kind);
    if end < places.len() {
        end
    } else {
        places.len()
    }
}

/// Returns the first place at or after `from` with an item of a kind, or a place after all of them.
fn next_of_kind(places: &[Option<usize>], chains: &Chains, kind: usize, from: usize) -> usize
    requires marked { AreMarked places.now (kinds_in chains.now.marks.items) }
    requires all { length places.now ≤ vec_len chains.now.marks }
    ensures after { from ≤ result }
    ensures none { (at : ℕ) → from ≤ at → at < result → is_wanted (Some kind) (kind_at places.now at) ≡ false }
    ensures there { (at : ℕ) → result ≤ at → is_wanted (Some kind) (kind_at places.now at) ≡ true
        → is_wanted (Some kind) (kind_at places.now result) ≡ true }
{
    let end = end_of(places, chains, kind);
    let mut at = from;
    while at < end {
        if is_wanted(places[at], Some(kind)) {
            return at;
        }
        at = chains.after(at, kind);
    }
    at
}

/// Returns the place of the oldest item of a kind after the item in place `at` was removed; `oldest` is the place
/// before that. Searches in the chain of the kind.
fn oldest_in_chain(
    places: &[Option<usize>],
    chains: &Chains,
    kind: usize,
    oldest: usize,
    at: usize,
) -> usize
    requires marked { AreMarked places.now (kinds_in chains.now.marks.items) }
    ensures { (before : List (Option ℕ)) → places.now ≡ slice_set before at None → IsOldest (Some kind) before oldest
        → IsOldest (Some kind) places.now result }
{
    if oldest == at && places.len() <= chains.len() {
        next_of_kind(places, chains, kind, at)
    } else {
        oldest_after(places, Some(kind), oldest, at)
    }
}

/// Returns the place of the oldest item of a kind after the item in place `at` was removed; `oldest` is the place
/// before that. Searches in the chain of the kind if there is one.
fn oldest_of_kind(
    places: &[Option<usize>],
    index: &KindIndex,
    kind: usize,
    oldest: usize,
    at: usize,
) -> usize
    requires marked { AreMarked places.now index.now }
    ensures { (before : List (Option ℕ)) → places.now ≡ slice_set before at None → IsOldest (Some kind) before oldest
        → IsOldest (Some kind) places.now result }
{
    match index.chains() {
        Some(chains) => oldest_in_chain(places, chains, kind, oldest, at),
        None => oldest_after(places, Some(kind), oldest, at),
    }
}

/// Returns the place of the oldest item of a kind; meaningless if there is none.
fn place_of_kind(oldest: &[usize], kind: usize) -> usize
    requires { kind < length oldest.now }
    ensures { result ≡ slice_index_or oldest.now kind 0 }
{
    oldest[kind]
}

/// Replaces the value at an index.
fn put<T: Copy, const N: usize>(items: &mut SmallVec<T, N>, at: usize, value: T)
    requires { at < small_vec_len items.old }
    ensures { items.new.items ≡ slice_set items.old.items at value }
{
    items[at] = value;
}

impl<K> Row<K> {
    ghost use Rattle.std.specs.Prelude.{
      ◌≡◌,
      ◌<◌,
      ◌++◌,
      ◌∷◌,
      [],
      ◌-◌,
      ℕ,
      Some,
      None,
      IfOk,
      OnOk,
      OnErr,
      IsSome,
      IsTrue,
      MatchOption,
      option_copied,
      slice_set,
      take,
      length,
    };
    ghost use Rattle.std.specs.List.{slice_get};
    ghost use Rattle.std.specs.Mem.{FitsInMemory};
    ghost use Rattle.tcap_lists.specs.Row.{is_wanted, kind_at, kind_in, place_of};
    ghost use Rattle.tcap_lists.specs.Lists.{KeepsKinds, row_kinds, row_of, row_places};

    /// Creates a row without places.
    pub(crate) fn new(alloc: Global) -> Row<K>
        ensures { row_of result ≡ [] }
    {
        Row {
            kinds: InlineList::new(),
            places: SmallVec::new(alloc),
            oldest: SmallVec::new(alloc),
            first: 0,
            index: KindIndex::new(),
            linking: Cell::new(0),
        }
    }

    /// Returns the kinds of the row, by their numbers.
    pub fn kinds(&self) -> &[K]
        requires { FitsInMemory K.row }
        ensures kinds { result.now ≡ row_kinds self.now }
        ensures count { length result.now ≡ length (row_kinds self.now) }
    {
        self.kinds.as_slice()
    }

    /// Returns a guess of the number of the kind with this sort and operation code. The caller must check it.
    pub fn guess(&self, code: CodeView, sort: usize) -> Option<usize>
        requires { sort < SORTS }
    {
        self.index.guess(code, sort)
    }

    /// Notes that the next kind will have this sort and operation code.
    ///
    /// # Errors
    ///
    /// AllocError if memory runs out.
    pub fn expect(&mut self, alloc: Global, code: CodeView, sort: usize) -> Result<(), AllocError>
        requires { sort < SORTS }
        ensures kinds { row_kinds self.new ≡ row_kinds self.old }
        ensures places { row_places self.new ≡ row_places self.old }
    {
        let number = self.kinds.len();
        if number < FEW_KINDS {
            return Ok(());
        }
        self.index.expect(alloc, code, sort, number)
    }

    /// Returns the cell with the number of the last kind to which an operation was found to be linked.
    pub fn linking(&self) -> &Cell<usize> {
        &self.linking
    }

    /// Returns the place of the oldest item of a kind, if there is one.
    pub fn oldest_of(&self, kind: usize) -> Option<usize>
        requires { kind < length (row_kinds self.now) }
        ensures { result ≡ place_of (is_wanted (Some kind)) (row_places self.now) }
    {
        let at = place_of_kind(self.oldest.as_slice(), kind);
        if is_wanted(kind_at(self.places.as_slice(), at), Some(kind)) {
            Some(at)
        } else {
            None
        }
    }

    /// Returns the kind of the item in a place, or `None` if the place is empty.
    pub fn item(&self, at: usize) -> Option<&K>
        ensures { option_copied result ≡ kind_in (row_kinds self.now) (kind_at (row_places self.now) at) }
    {
        let kind = kind_at(self.places.as_slice(), at)?;
        self.kinds.get(kind)
    }

    /// Returns the place and the kind of the oldest item, if there is one.
    pub fn oldest(&self) -> Option<(usize, &K)>
        ensures { MatchOption result (place_of (is_wanted None) (row_places self.now) ≡ None)
            (λ first. (place_of (is_wanted None) (row_places self.now) ≡ Some first.0)
            × (kind_in (row_kinds self.now) (kind_at (row_places self.now) first.0) ≡ Some first.1.now)) }
    {
        let kind = self.item(self.first)?;
        Some((self.first, kind))
    }

    /// Returns a place before which all places are empty.
    pub fn front(&self) -> usize
        ensures { (at : ℕ) → at < result → kind_at (row_places self.now) at ≡ None }
    {
        self.first
    }

    /// Returns the number of places.
    pub fn len(&self) -> usize
        ensures { result ≡ length (row_places self.now) }
    {
        self.places.len()
    }

    /// Returns whether the row has many places, all of them empty.
    pub(crate) fn is_spent(&self) -> bool
        ensures { IsTrue result → place_of (is_wanted None) self.now.places.items ≡ None }
    {
        self.places.len() >= SPENT_FROM && self.oldest().is_none()
    }

    /// Drops all places and all kinds.
    pub(crate) fn clear(&mut self, alloc: Global)
    where
        K: Drop,
        ensures { row_of self.new ≡ [] }
    {
        *self = Row::new(alloc);
    }

    /// Adds a kind without items, and returns its number.
    pub(crate) fn begin(&mut self, kind: K) -> Result<usize, AllocError>
    where
        K: Drop,
        ensures number { IfOk result (λ number. (number ≡ length self.old.kinds.items)
            × (self.new.kinds.items ≡ self.old.kinds.items ++ kind ∷ [])) }
        ensures kept { OnErr result (self.new.kinds.items ≡ self.old.kinds.items) }
        ensures places { self.new.places ≡ self.old.places }
    {
        let number = self.kinds.len();
        let alloc = *self.places.allocator();
        self.widen()?;
        self.kinds.push(alloc, kind)?;
        Ok(number)
    }

    /// Makes room for the oldest place of one more kind.
    fn widen(&mut self) -> Result<(), AllocError>
        ensures wide { OnOk result (length self.new.kinds.items < small_vec_len self.new.oldest) }
        ensures kinds { self.new.kinds ≡ self.old.kinds }
        ensures places { self.new.places ≡ self.old.places }
    {
        if self.oldest.len() <= self.kinds.len() {
            self.oldest.push(0)?;
        }
        Ok(())
    }

    /// Puts an item of a kind into an empty place.
    pub(crate) fn put_back(&mut self, at: usize, kind: usize)
        requires within { at < small_vec_len self.old.places }
        requires empty { kind_at self.old.places.items at ≡ None }
        requires exists { kind < length self.old.kinds.items }
        ensures put { self.new.places.items ≡ slice_set self.old.places.items at (Some kind) }
        ensures kinds { self.new.kinds ≡ self.old.kinds }
    {
        self.index.keep(at, kind);
        let oldest = place_of_kind(self.oldest.as_slice(), kind);
        let oldest = oldest_before(self.places.as_slice(), Some(kind), oldest, at);
        put(&mut self.oldest, kind, oldest);
        self.first = oldest_before(self.places.as_slice(), None, self.first, at);
        put(&mut self.places, at, Some(kind));
    }

    /// Appends an empty place.
    fn grow(&mut self) -> Result<(), AllocError>
        ensures more { OnOk result (self.new.places.items ≡ self.old.places.items ++ None ∷ []) }
        ensures kept { OnErr result (self.new.places.items ≡ self.old.places.items) }
        ensures kinds { self.new.kinds ≡ self.old.kinds }
    {
        self.places.push(None)?;
        Ok(())
    }

    /// Notes that the next place will be of this kind, if kinds are many.
    fn follow(&mut self, kind: usize) -> Result<(), AllocError>
        ensures places { self.new.places ≡ self.old.places }
        ensures kinds { self.new.kinds ≡ self.old.kinds }
    {
        if self.kinds.len() <= FEW_KINDS {
            return Ok(());
        }
        self.index.follow(self.places.as_slice(), kind)
    }

    /// Appends an item of a known kind, as the newest.
    ///
    /// # Errors
    ///
    /// AllocError if memory runs out. The places are unchanged then.
    pub fn join(&mut self, kind: usize) -> Result<(), AllocError>
        requires { kind < length (row_kinds self.old) }
        ensures joined { OnOk result (row_places self.new ≡ row_places self.old ++ Some kind ∷ []) }
        ensures kept { OnErr result (row_places self.new ≡ row_places self.old) }
        ensures kinds { row_kinds self.new ≡ row_kinds self.old }
    {
        let at = self.places.len();
        self.follow(kind)?;
        self.grow()?;
        self.put_back(at, kind);
        Ok(())
    }

    /// Appends an item of a new kind, as the newest.
    ///
    /// # Errors
    ///
    /// AllocError if memory runs out. The items are unchanged then.
    pub fn join_first(&mut self, kind: K) -> Result<(), AllocError>
    where
        K: Drop,
        ensures joined { OnOk result (row_of self.new ≡ row_of self.old ++ Some kind ∷ []) }
        ensures kept { OnErr result (row_of self.new ≡ row_of self.old) }
        ensures kinds { KeepsKinds self.old self.new }
    {
        let number = self.begin(kind)?;
        self.join(number)
    }

    /// Removes the newest place.
    pub(crate) fn remove_newest(&mut self)
        ensures left { self.new.places.items ≡ take (length self.old.places.items - 1) self.old.places.items }
        ensures kinds { self.new.kinds ≡ self.old.kinds }
    {
        self.places.pop();
        self.index.pop(self.places.len());
    }

    /// Removes the item in a place, and returns the number of its kind.
    pub(crate) fn take(&mut self, at: usize) -> usize
        requires { IsSome (kind_at self.old.places.items at) }
        ensures kind { kind_at self.old.places.items at ≡ Some result }
        ensures taken { self.new.places.items ≡ slice_set self.old.places.items at None }
        ensures kinds { self.new.kinds ≡ self.old.kinds }
    {
        let Some(kind) = kind_at(self.places.as_slice(), at) else {
            unreachable!()
        };
        put(&mut self.places, at, None);
        let oldest = place_of_kind(self.oldest.as_slice(), kind);
        let oldest = oldest_of_kind(self.places.as_slice(), &self.index, kind, oldest, at);
        put(&mut self.oldest, kind, oldest);
        self.first = oldest_after(self.places.as_slice(), None, self.first, at);
        kind
    }
}
