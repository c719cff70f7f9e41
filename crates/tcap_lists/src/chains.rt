//! For each kind, a chain of its places in a row.

ghost use Rattle.std.specs.Prelude.{◌≡◌, ◌≢◌, ◌<◌, ◌++◌, ◌∷◌, [], ℕ, List, Option, Some, IsTrue, OnErr, OnOk, length, slice_index_or, slice_set, vec_len};
ghost use Rattle.std.specs.List.{slice_get};
ghost use Rattle.tcap_lists.specs.Chains.{AreBefore, AreEnds, AreMarked, kinds_in};

use std::alloc::{AllocError, Global};

/// The kind of a place, and a bound on the earlier places of the kind.
#[derive(Clone, Copy, Debug)]
pub(crate) struct Mark {
    /// The number of the kind, which stays when the item of the place is removed.
    kind: usize,
    /// Greater than all earlier places of the kind.
    before: usize,
}

/// The kind of each place of a row, so that the next place of a kind is found without a look at the places between.
#[derive(Debug, Drop)]
pub(crate) struct Chains {
    marks: Vec<Mark>,
    /// For each kind, a place after its last one.
    ends: Vec<usize>,
    /// For each place, the next place of its kind. It is only a guess that saves a search, so each use checks it.
    next: Vec<usize>,
    ghost all_before: { AreBefore marks.items },
    ghost all_ended: { AreEnds marks.items ends.items },
}

/// Appends zeros until the list has an entry `at`.
fn pad(ends: &mut Vec<usize>, at: usize) -> Result<(), AllocError>
    ensures long { OnOk result (at < vec_len ends.new) }
    ensures same { (n : ℕ) → slice_index_or ends.new.items n 0 ≡ slice_index_or ends.old.items n 0 }
{
    while ends.len() <= at {
        ends.push(0)?;
    }
    Ok(())
}

impl Chains {
    /// Creates chains without places.
    pub(crate) fn new(alloc: Global) -> Chains
        ensures { result.marks.items ≡ [] }
    {
        Chains {
            marks: Vec::new(alloc),
            ends: Vec::new(alloc),
            next: Vec::new(alloc),
        }
    }

    /// Returns the number of places whose kind is known: the first places of the row.
    pub(crate) fn len(&self) -> usize
        ensures { result ≡ vec_len self.now.marks }
    {
        self.marks.len()
    }

    /// Returns whether a place is known to be of this kind.
    pub(crate) fn has(&self, at: usize, kind: usize) -> bool
        ensures { IsTrue result → slice_get (kinds_in self.now.marks.items) at ≡ Some kind }
    {
        at < self.marks.len() && self.marks[at].kind == kind
    }

    /// Returns a place after all known places of this kind.
    pub(crate) fn end_of(&self, kind: usize) -> usize
        ensures { (at : ℕ) → slice_get (kinds_in self.now.marks.items) at ≡ Some kind → at < result }
    {
        if kind < self.ends.len() {
            self.ends[kind]
        } else {
            0
        }
    }

    /// Returns whether place `to` is of this kind, and no place of the kind is between `at` and `to`.
    fn is_next(&self, at: usize, kind: usize, to: usize) -> bool
        requires { at < vec_len self.now.marks }
        ensures { IsTrue result → (n : ℕ) → at < n → n < to → slice_get (kinds_in self.now.marks.items) n ≢ Some kind }
    {
        if self.marks.len() <= to {
            return false;
        }
        let mark = &self.marks[to];
        mark.kind == kind && mark.before <= at + 1
    }

    /// Returns a guess of the next place of the same kind.
    fn guess(&self, at: usize) -> usize {
        if at < self.next.len() {
            self.next[at]
        } else {
            at
        }
    }

    /// Returns a later place, with no place of this kind between.
    pub(crate) fn after(&self, at: usize, kind: usize) -> usize
        requires { at < vec_len self.now.marks }
        ensures later { at < result }
        ensures none { (n : ℕ) → at < n → n < result → slice_get (kinds_in self.now.marks.items) n ≢ Some kind }
    {
        let to = self.guess(at);
        if at < to && self.is_next(at, kind, to) {
            to
        } else {
            at + 1
        }
    }

    /// Sets the end of a kind, a place after all of its places.
    fn set_end(&mut self, kind: usize, end: usize) -> Result<(), AllocError>
        requires { (at : ℕ) → slice_get (kinds_in self.old.marks.items) at ≡ Some kind → at < end }
        ensures end { OnOk result (slice_index_or self.new.ends.items kind 0 ≡ end) }
        ensures marks { self.new.marks ≡ self.old.marks }
    {
        pad(&mut self.ends, kind)?;
        self.ends[kind] = end;
        Ok(())
    }

    /// Notes that the kind whose end was `end` has its next place at `to`.
    fn link(&mut self, to: usize, end: usize) -> Result<(), AllocError>
        ensures { self.new.marks ≡ self.old.marks }
    {
        if self.next.len() <= to {
            self.next.push(0)?;
        }
        if 0 < end && end <= self.next.len() {
            self.next[end - 1] = to;
        }
        Ok(())
    }

    /// Appends a place of this kind.
    pub(crate) fn push(&mut self, kind: usize) -> Result<(), AllocError>
        ensures more { OnOk result (kinds_in self.new.marks.items ≡ kinds_in self.old.marks.items ++ kind ∷ []) }
        ensures kept { OnErr result (kinds_in self.new.marks.items ≡ kinds_in self.old.marks.items) }
    {
        let at = self.marks.len();
        let before = self.end_of(kind);
        self.link(at, before)?;
        self.set_end(kind, at + 1)?;
        self.marks.push(Mark { kind, before })?;
        Ok(())
    }

    /// Forgets the last known place, if more than `places` are known.
    pub(crate) fn pop(&mut self, places: usize)
        ensures { (at kind : ℕ) → slice_get (kinds_in self.new.marks.items) at ≡ Some kind
            → slice_get (kinds_in self.old.marks.items) at ≡ Some kind }
    {
        if self.marks.len() <= places {
            return;
        }
        if let Some(mark) = self.marks.pop() {
            if mark.kind < self.ends.len() {
                self.ends[mark.kind] = mark.before;
            }
        }
    }

    /// Notes that an item of this kind is put in a place. Unless the place is known to have this kind, forgets the
    /// kinds of all places.
    pub(crate) fn keep(&mut self, at: usize, kind: usize)
        ensures { (places : List (Option ℕ)) → at < length places → AreMarked places (kinds_in self.old.marks.items)
            → AreMarked (slice_set places at (Some kind)) (kinds_in self.new.marks.items) }
    {
        if !self.has(at, kind) {
            self.marks.clear();
            self.ends.clear();
        }
    }
}
