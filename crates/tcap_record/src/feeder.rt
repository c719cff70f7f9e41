//! Reading a record in pieces, with a queue of its entries.

ghost use Rattle.std.specs.Prelude.{◌≡◌, ◌≢◌, ◌++◌, ◌∷◌, ◌≤◌, ◌⊎◌, [], ℕ, List, length, take, true, false, Some, None, Ok, Err, OnOk, OnErr, IfOk, IfErr, IfSome, MatchResult};
ghost use Rattle.tcap_record.specs.declared.entry.Entry.{Entry};
ghost use Rattle.tcap_record.specs.declared.fault.FeedFault.{FeedFault};
ghost use Rattle.tcap_record.specs.declared.fault.FeedReason.{FeedReason};
ghost use Rattle.tcap_record.specs.FramingResult.{feed_fault};
ghost use Rattle.tcap_record.specs.PartialRecord.{IsFramedSoFar, IsFront, IsFramerState, IsPart, IsWhole};

use crate::entry::Entry;
use crate::entry_octets::OUT_OF_MEMORY;
use crate::fault::{FeedFault, FeedReason};
use crate::frames::Frames;
use std::alloc::{AllocError, Global};
use std::collections::VecDeque;
use std::marker::Model;

/// A reader of a record in pieces of any length. It queues the entries until they are taken.
#[derive(Debug, Drop)]
pub struct Feeder {
    alloc: Global,
    // The incomplete entry at the end of what was fed.
    frames: Frames,
    // The entries that were not taken yet.
    waiting: VecDeque<Entry>,
}

impl Model for Feeder {
    ghost use Rattle.std.specs.Prelude.{◌≡◌, None};
    ghost use Rattle.tcap_record.specs.PartialRecord.{IsPart, IsFramerState};
    ghost use Rattle.tcap_record.specs.FeederState.{FeederState};

    ghost Value = { FeederState };

    ghost view = { λ a. record { held = a.frames; waiting = a.waiting.items } };

    ghost invariant = { λ a. IsFramerState a.frames × (a.frames.fault ≡ None → IsPart a.frames.octets) };
}

/// Appends a copy of the whole entry at the front to `waiting`. Returns whether there is one.
fn keep_front(
    alloc: Global,
    frames: &Frames,
    waiting: &mut VecDeque<Entry>,
) -> Result<bool, AllocError>
    ensures kept { result ≡ Ok true → (entry : Entry) × IsFront entry frames.now × (frames.now.fault ≡ None)
        × IsWhole frames.now.octets
        × (waiting.new.items ≡ waiting.old.items ++ entry ∷ []) }
    ensures none { result ≡ Ok false → ((frames.now.fault ≡ None) × IsWhole frames.now.octets → ⊥)
        × (waiting.new.items ≡ waiting.old.items) }
    ensures failed { OnErr result (IsWhole frames.now.octets × (waiting.new.items ≡ waiting.old.items)) }
{
    let Some(entry) = frames.front() else {
        return Ok(false);
    };
    let owned = entry.to_entry(alloc)?;
    waiting.push_back(owned)?;
    Ok(true)
}

/// Feeds all of `piece`, up to a fault, and appends the entries that are then whole to `waiting`.
fn keep_all(
    alloc: Global,
    frames: &mut Frames,
    piece: &[u8],
    waiting: &mut VecDeque<Entry>,
) -> Result<(), FeedFault>
    ensures kept { (more : List Entry) × (waiting.new.items ≡ waiting.old.items ++ more) }
    ensures sound { OnOk result ((frames.new.fault ≡ None) × IsPart frames.new.octets) }
    ensures failed { (f : FeedFault) → result ≡ Err f → (f ≡ feed_fault FeedReason.Memory 0)
        ⊎ (frames.new.fault ≡ Some f) }
    ensures held { IsFramerState frames.old → IsFramerState frames.new }
    ensures fed { (octets : List ℕ) (taken : List Entry) → IsFramedSoFar octets (taken ++ waiting.old.items) frames.old
        → MatchResult result (λ _. IsFramedSoFar (octets ++ piece.now) (taken ++ waiting.new.items) frames.new)
        (λ _. (n : ℕ) × (n ≤ length piece.now) × IsFramedSoFar (octets ++ take n piece.now)
        (taken ++ waiting.new.items) frames.new) }
{
    let mut rest = piece;
    loop {
        let taken = frames.feed_some(rest)?;
        rest = &rest[taken..];
        if !keep_front(alloc, frames, waiting)? {
            return Ok(());
        }
        frames.drop_front();
    }
}

/// Returns whether memory ran out.
fn ran_out(kept: Result<(), FeedFault>) -> bool
    ensures { result ≡ false → IfErr kept (λ f. f ≢ feed_fault FeedReason.Memory 0) }
{
    match kept {
        Ok(()) => false,
        Err(fault) => fault.reason == FeedReason::Memory,
    }
}

/// Appends the entry at the front, and those in `piece` after it, to `waiting`. Returns the framer after them and the
/// result of feeding `piece`. `None` if there is no whole entry at the front.
fn keep_rest(
    alloc: Global,
    frames: &Frames,
    piece: &[u8],
    waiting: &mut VecDeque<Entry>,
) -> Result<Option<(Frames, Result<(), FeedFault>)>, AllocError>
    requires sound { frames.now.fault ≡ None }
    requires held { IsFramerState frames.now }
    ensures none { result ≡ Ok None → (IsWhole frames.now.octets → ⊥) × (waiting.new.items ≡ waiting.old.items) }
    ensures memory { OnErr result (IsWhole frames.now.octets) }
    ensures kept { (more : List Entry) × (waiting.new.items ≡ waiting.old.items ++ more) }
    ensures sound { IfOk result (λ found. IfSome found (λ x. OnOk x.1 ((x.0.fault ≡ None) × IsPart x.0.octets))) }
    ensures failed { IfOk result (λ found. IfSome found (λ x. IfErr x.1 (λ f. x.0.fault ≡ Some f))) }
    ensures held { IfOk result (λ found. IfSome found (λ x. IsFramerState x.0)) }
    ensures fed { IfOk result (λ found. IfSome found (λ x. (octets : List ℕ) (taken : List Entry)
        → IsFramedSoFar octets (taken ++ waiting.old.items) frames.now
        → MatchResult x.1 (λ _. IsFramedSoFar (octets ++ piece.now) (taken ++ waiting.new.items) x.0)
        (λ _. (n : ℕ) × (n ≤ length piece.now)
        × IsFramedSoFar (octets ++ take n piece.now) (taken ++ waiting.new.items) x.0))) }
{
    if !keep_front(alloc, frames, waiting)? {
        return Ok(None);
    }
    let mut later = frames.after_front(alloc);
    let kept = keep_all(alloc, &mut later, piece, waiting);
    if ran_out(kept) {
        return Err(AllocError);
    }
    Ok(Some((later, kept)))
}

impl Feeder {
    ghost use Rattle.std.specs.Prelude.{◌≡◌, ◌+◌, ◌++◌, ◌∷◌, ◌≤◌, ◌↔◌, [], ℕ, List, length, take, Some, None, Err, IsOk, OnOk, MatchResult, MatchOption};
    ghost use Rattle.tcap_record.specs.declared.entry.Entry.{Entry};
    ghost use Rattle.tcap_record.specs.declared.fault.FeedFault.{FeedFault};
    ghost use Rattle.tcap_record.specs.PartialRecord.{empty_framer, IsFramerState, IsPart};
    ghost use Rattle.tcap_record.specs.FeederResult.{FinishesAs};
    ghost use Rattle.tcap_record.specs.FeederState.{FeederState, IsFedSoFar, FailsToFeed};

    /// Creates a feeder to which nothing was fed.
    pub fn new(alloc: Global) -> Feeder
        ensures { result ≡ record { held = empty_framer; waiting = [] } }
    {
        Feeder {
            alloc,
            frames: Frames::new(alloc),
            waiting: VecDeque::new(alloc),
        }
    }

    /// Feeds the next piece, and queues the entries that are then whole.
    ///
    /// # Errors
    ///
    /// - `TooManyEntries`, `BadEnd` or `Element`, at its offset in the record. Every later call returns the same fault.
    ///   The entries before it can still be taken.
    /// - `Memory` if memory runs out. Then nothing was fed, and the piece may be fed again.
    pub fn feed(&mut self, piece: &[u8]) -> Result<(), FeedFault>
        // On success, there is no fault, and only a part of an entry or nothing is held.
        ensures sound { OnOk result ((self.old.held.fault ≡ None) × (self.new.held.fault ≡ None)
            × IsPart self.new.held.octets) }
        ensures fails { (f : FeedFault) → result ≡ Err f → FailsToFeed f self.old self.new piece.now }
        // The octets held stay consistent.
        ensures held { IsFramerState self.new.held }
        // The queued entries stay, before the new ones.
        ensures kept { (more : List Entry) × (self.new.waiting ≡ self.old.waiting ++ more) }
        // All octets fed so far are the entries taken, the entries queued and the octets held.
        ensures fed { (octets : List ℕ) (taken : List Entry) → IsFedSoFar octets taken self.old
            → MatchResult result (λ _. IsFedSoFar (octets ++ piece.now) taken self.new)
            (λ _. (n : ℕ) × (n ≤ length piece.now) × IsFedSoFar (octets ++ take n piece.now) taken self.new) }
    {
        let (held, walk) = (self.frames.buffered(), self.frames.walk());
        let waiting = self.waiting.len();
        let taken = self.frames.feed_some(piece)?;
        match keep_rest(self.alloc, &self.frames, &piece[taken..], &mut self.waiting) {
            Ok(None) => Ok(()),
            Ok(Some((frames, kept))) => {
                self.frames = frames;
                kept
            }
            Err(AllocError) => {
                self.waiting.truncate(waiting);
                self.frames.cut(held, walk);
                Err(OUT_OF_MEMORY)
            }
        }
    }

    /// Takes the first queued entry, or returns `None` if there is none.
    pub fn take(&mut self) -> Option<Entry>
        ensures first { MatchOption result ((self.old.waiting ≡ []) × (self.new ≡ self.old))
            (λ entry. self.old.waiting ≡ entry ∷ self.new.waiting) }
        ensures held { self.new.held ≡ self.old.held }
        ensures fed { (octets : List ℕ) (taken : List Entry) → IsFedSoFar octets taken self.old
            → MatchOption result (IsFedSoFar octets taken self.new)
            (λ entry. IsFedSoFar octets (taken ++ entry ∷ []) self.new) }
    {
        self.waiting.pop_front()
    }

    /// Returns the number of octets fed.
    pub(crate) fn fed(&self) -> u64
        ensures { result ≡ self.now.held.place + length self.now.held.octets }
    {
        self.frames.taken()
    }

    /// Returns the queued entries, in their order.
    pub(crate) fn into_waiting(self) -> Vec<Entry>
        ensures { result.items ≡ self.waiting }
    {
        self.waiting.into_vec()
    }

    /// Checks that the record may end here. Entries may still be queued.
    ///
    /// # Errors
    ///
    /// The fault of [`feed`](Feeder::feed), if there was one. Otherwise `CutRecord` at the number of octets fed, if a
    /// part of an entry is held.
    pub fn finish(&self) -> Result<(), FeedFault>
        ensures ok { IsOk result ↔ ((self.now.held.fault ≡ None) × (self.now.held.octets ≡ [])) }
        ensures ends { FinishesAs result self.now.held }
    {
        self.frames.finish()
    }
}
