//! The entries that an Abort of the receiver's provider may answer.

ghost use Rattle.std.specs.Prelude.{◌≡◌, ◌∷◌, [], ℕ, List, cond, OnOk};
ghost use Rattle.tcap_record.specs.declared.entry.End.{End as Side};
ghost use Rattle.tcap_search.specs.Candidates.{answered_of, asks, candidates_at, is_candidate, under_top, without};

use crate::stacks::Stacks;
use std::alloc::{AllocError, Global};
use tcap_msg::{AbortReason, Message};
use tcap_record::{Body, Entry};

/// The P-Abort cause of the answer to a Continue whose destination ID no transaction has (Q.773 4.2.1).
const UNRECOGNIZED_TRANSACTION_ID: u8 = 1;

/// The P-Abort cause of the answer to a Begin if resources are short (Q.773 4.2.1).
const RESOURCE_LIMITATION: u8 = 4;

/// The untied entries that an Abort may answer, by their numbers; the newest of an ID is on top.
#[derive(Drop)]
pub(crate) struct Candidates {
    pub(crate) begins: Stacks,
    pub(crate) continues: Stacks,
}

impl Candidates {
    /// Creates an empty set of candidates.
    pub(crate) fn new(alloc: Global) -> Candidates
        ensures { (side : Side) (id : List ℕ) (cause : ℕ) → candidates_at side id cause result ≡ [] }
    {
        Candidates {
            begins: Stacks::new(alloc),
            continues: Stacks::new(alloc),
        }
    }

    /// Adds an entry, which is the newest. Fails if memory runs out.
    pub(crate) fn push(
        &mut self,
        alloc: Global,
        number: u32,
        entry: &Entry,
    ) -> Result<(), AllocError>
        ensures { OnOk result ((side : Side) (id : List ℕ) (cause : ℕ) → candidates_at side id cause self.new
            ≡ cond (is_candidate side id cause entry.now) (number ∷ candidates_at side id cause self.old)
            (candidates_at side id cause self.old)) }
    {
        let (Some(side), Body::Good(message)) = (entry.side, &entry.body) else {
            return Ok(());
        };
        match message {
            Message::Begin { otid, .. } => self.begins.push(alloc, side, otid.view(), number),
            Message::Continue { otid, .. } => self.continues.push(alloc, side, otid.view(), number),
            _ => Ok(()),
        }
    }

    /// Removes an entry, if it is on top.
    pub(crate) fn drop_top(&mut self, number: u32, entry: &Entry)
        ensures { (side : Side) (id : List ℕ) (cause : ℕ) → candidates_at side id cause self.new
            ≡ cond (is_candidate side id cause entry.now) (without number (candidates_at side id cause self.old))
            (candidates_at side id cause self.old) }
    {
        let (Some(side), Body::Good(message)) = (entry.side, &entry.body) else {
            return;
        };
        match message {
            Message::Begin { otid, .. } => self.begins.drop_top(side, otid.view(), number),
            Message::Continue { otid, .. } => self.continues.drop_top(side, otid.view(), number),
            _ => {}
        }
    }

    /// Takes the newest entry that this Abort answers, if the entry is an Abort with a cause and there is one.
    pub(crate) fn answered(&mut self, entry: &Entry) -> Option<u32>
        ensures answered { result ≡ answered_of self.old entry.now }
        ensures left { (side : Side) (id : List ℕ) (cause : ℕ) → candidates_at side id cause self.new
            ≡ cond (asks side id cause entry.now) (under_top (candidates_at side id cause self.old))
            (candidates_at side id cause self.old) }
    {
        let (Some(side), Body::Good(message)) = (entry.side, &entry.body) else {
            return None;
        };
        let Message::Abort {
            dtid,
            reason: Some(AbortReason::Cause(cause)),
        } = message
        else {
            return None;
        };
        match cause.view().number {
            UNRECOGNIZED_TRANSACTION_ID => self.continues.pop(side.other(), dtid.view()),
            RESOURCE_LIMITATION => self.begins.pop(side.other(), dtid.view()),
            _ => None,
        }
    }
}
