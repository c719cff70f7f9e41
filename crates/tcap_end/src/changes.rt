//! The changes that the components of a message made in a half, kept so that they can be undone.

ghost use Rattle.std.specs.Prelude.{◌≡◌, ◌∷◌, [], IfErr, MatchOption, if◌then◌else◌, is_ok, length};

use crate::half_state::Change;
use std::alloc::{AllocFailed, Global};
use std::marker::Model;

/// The most changes for which the list keeps memory between two messages.
const CHANGES_KEPT: usize = 32;

/// The changes of a half, the latest first. The memory of a short list is used again for the next message.
#[derive(Drop)]
pub(crate) struct Changes {
    /// The changes in the order in which they were made.
    made: Vec<Change>,
}

impl Model for Changes {
    ghost use Rattle.std.specs.Prelude.{List, reverse};
    ghost use Rattle.tcap_end.specs.declared.half_state.Change.{Change as Made};

    ghost Value = { List Made };

    ghost view = { λ a. reverse a.made.items };
}

impl Changes {
    /// Creates an empty list.
    pub(crate) fn new(alloc: Global) -> Changes
        ensures { result ≡ [] }
    {
        Changes {
            made: Vec::new(alloc),
        }
    }

    /// Returns the allocator of the list.
    pub(crate) fn alloc(&self) -> Global {
        *self.made.allocator()
    }

    /// Returns the number of changes.
    pub(crate) fn len(&self) -> usize
        ensures { result ≡ length self.now }
    {
        self.made.len()
    }

    /// Returns all changes, in the order in which they were made.
    pub(crate) fn as_slice(&self) -> &[Change] {
        self.made.as_slice()
    }

    /// Adds a change as the latest, or returns it if memory runs out.
    pub(crate) fn push(&mut self, change: Change) -> Result<(), AllocFailed<Change>>
        ensures items { self.new ≡ (if is_ok result then change ∷ self.old else self.old) }
        ensures value_returned { IfErr result (λ failed. failed.value ≡ change) }
    {
        self.made.push(change)
    }

    /// Removes and returns the latest change.
    pub(crate) fn pop(&mut self) -> Option<Change>
        ensures items { MatchOption result ((self.old ≡ []) × (self.new ≡ []))
            (λ change. self.old ≡ change ∷ self.new) }
    {
        self.made.pop()
    }

    /// Removes all changes, and frees the memory of a long list.
    pub(crate) fn clear(&mut self)
        ensures { self.new ≡ [] }
    {
        if self.made.capacity() > CHANGES_KEPT {
            self.made = Vec::new(self.alloc());
        } else {
            self.made.clear();
        }
    }
}
