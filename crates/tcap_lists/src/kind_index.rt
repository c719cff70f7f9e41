//! An index of the kinds of a row, which is made when the row has many.

ghost use Rattle.std.specs.Prelude.{◌≡◌, ◌<◌, ℕ, List, [], Option, Some, IfSome, length, slice_get, slice_set};
ghost use Rattle.tcap_lists.specs.Chains.{AreMarked, kinds_in};
ghost use Rattle.tcap_lists.specs.Row.{kind_at};

use crate::chains::Chains;
use crate::kind_numbers::{KindNumbers, SORTS};
use crate::place_search::kind_at;
use std::alloc::{AllocError, Global};
use std::marker::Model;
use tcap_parts::CodeView;

/// Kinds by their codes, and places by their kinds.
#[derive(Debug, Drop)]
pub(crate) struct IndexParts {
    /// Guesses of the numbers of kinds, by operation codes. No result depends on them.
    numbers: KindNumbers,
    /// The places of each kind.
    chains: Chains,
}

/// An index that is made when a row has many kinds. Before that it does not allocate.
#[derive(Debug, Drop)]
pub(crate) struct KindIndex {
    parts: Option<Box<IndexParts>>,
}

impl Model for KindIndex {
    ghost use Rattle.std.specs.Prelude.{ℕ, List};
    ghost use Rattle.tcap_lists.specs.KindIndex.{indexed_kinds};

    ghost Value = { List ℕ };

    ghost view = { λ a. indexed_kinds a.parts };
}

/// Returns the kind of the item in a place, or `kind` if the place is empty.
fn kind_or(places: &[Option<usize>], at: usize, kind: usize) -> usize
    ensures { (known : ℕ) → kind_at places.now at ≡ Some known → result ≡ known }
{
    match kind_at(places, at) {
        Some(known) => known,
        None => kind,
    }
}

/// Adds the next place to the chain of its kind; an empty place is added to that of `kind`.
fn follow_one(places: &[Option<usize>], chains: &mut Chains, kind: usize) -> Result<(), AllocError>
    ensures { AreMarked places.now (kinds_in chains.old.marks.items)
        → AreMarked places.now (kinds_in chains.new.marks.items) }
{
    let known = kind_or(places, chains.len(), kind);
    chains.push(known)
}

/// Adds all places that are in no chain yet, and then one more place of this kind.
fn follow(places: &[Option<usize>], chains: &mut Chains, kind: usize) -> Result<(), AllocError>
    requires marked { AreMarked places.now (kinds_in chains.old.marks.items) }
    ensures { AreMarked places.now (kinds_in chains.new.marks.items) }
{
    for _ in chains.len()..places.len() {
        follow_one(places, chains, kind)?;
    }
    follow_one(places, chains, kind)
}

impl KindIndex {
    /// Creates an index that is not yet made.
    pub(crate) fn new() -> KindIndex
        ensures { result ≡ [] }
    {
        KindIndex { parts: None }
    }

    /// Returns a guess of the number of the kind with this sort and operation code.
    pub(crate) fn guess(&self, code: CodeView, sort: usize) -> Option<usize>
        requires { sort < SORTS }
    {
        match &self.parts {
            Some(parts) => parts.numbers.get(code, sort),
            None => None,
        }
    }

    /// Notes that the kind with this sort and operation code will have this number. Makes the index if there is none.
    pub(crate) fn expect(
        &mut self,
        alloc: Global,
        code: CodeView,
        sort: usize,
        number: usize,
    ) -> Result<(), AllocError>
        requires { sort < SORTS }
        ensures { self.new ≡ self.old }
    {
        match &mut self.parts {
            Some(parts) => parts.numbers.put(alloc, code, sort, number),
            None => {
                let mut parts = IndexParts {
                    numbers: KindNumbers::new(alloc),
                    chains: Chains::new(alloc),
                };
                parts.numbers.put(alloc, code, sort, number)?;
                self.parts = Some(Box::new(alloc, parts)?);
                Ok(())
            }
        }
    }

    /// Returns the places of each kind, if the index was made.
    pub(crate) fn chains(&self) -> Option<&Chains>
        ensures { IfSome result (λ chains. kinds_in chains.now.marks.items ≡ self.now) }
    {
        match &self.parts {
            Some(parts) => Some(&parts.chains),
            None => None,
        }
    }

    /// Notes that the next place will be of this kind.
    pub(crate) fn follow(&mut self, places: &[Option<usize>], kind: usize) -> Result<(), AllocError>
        requires marked { AreMarked places.now self.old }
        ensures { AreMarked places.now self.new }
    {
        match &mut self.parts {
            Some(parts) => follow(places, &mut parts.chains, kind),
            None => Ok(()),
        }
    }

    /// Forgets the last place, if more than `places` are known.
    pub(crate) fn pop(&mut self, places: usize)
        ensures { (at kind : ℕ) → slice_get self.new at ≡ Some kind → slice_get self.old at ≡ Some kind }
    {
        if let Some(parts) = &mut self.parts {
            parts.chains.pop(places);
        }
    }

    /// Notes that an item of this kind is put in a place. If the place has another kind, forgets all places.
    pub(crate) fn keep(&mut self, at: usize, kind: usize)
        ensures { (places : List (Option ℕ)) → at < length places → AreMarked places self.old
            → AreMarked (slice_set places at (Some kind)) self.new }
    {
        if let Some(parts) = &mut self.parts {
            parts.chains.keep(at, kind);
        }
    }
}
