//! Framing the entries of a record in pieces, one entry at a time.

ghost use Rattle.std.specs.Prelude.{◌≡◌, ◌≢◌, ◌+◌, ◌<◌, ◌≤◌, ◌++◌, [], ℕ, List, length, drop, Result, IfOk, IfErr};
ghost use Rattle.tcap_ber.specs.WalkResult.{outer_at};
ghost use Rattle.tcap_ber.specs.ResumedWalk.{resumes};
ghost use Rattle.tcap_record.specs.declared.frames.Front.{Front};
ghost use Rattle.tcap_record.specs.RecordOctets.{entry_limit};
ghost use Rattle.tcap_record.specs.PartialRecord.{IsPart};
ghost use Rattle.tcap_record.specs.FrontEntry.{IsAnswerWithin, IsLonger, IsTaken, entry_room, front_by, front_at, taken_of};

use crate::entry::EntryView;
use crate::entry_octets::{ENTRY_LIMIT, QUIET_OCTET, end_of};
use crate::fault::{FeedFault, FeedReason};
use crate::lending::{entry_view, front_view};
use std::alloc::{AllocError, Global};
use std::marker::Model;
use tcap_ber::{Fault, Outer, Walk};

/// More octets than an incomplete entry has: one of its end, and more than an incomplete element has.
const ENTRY_ROOM: usize = 65_552;

/// The result of framing the front of a record's octets.
#[derive(Clone, Copy, Debug)]
pub(crate) enum Front {
    /// A whole entry of this many octets.
    Whole(usize),
    /// A part of an entry.
    Part,
    /// A refusal for this reason, at this offset in the octets.
    Refused(FeedReason, usize),
}

/// A framer of a record's entries in pieces of any length. It holds the octets of at most one entry, and walks each
/// octet once.
#[derive(Debug, Drop)]
pub struct Frames {
    // The octets taken that belong to no dropped entry.
    octets: Vec<u8>,
    // The offset in the record of the first of these octets.
    place: u64,
    // The number of entries dropped.
    count: usize,
    // The walk over the element of the octets held.
    walk: Walk,
    // Whether the octets held are a whole entry.
    whole: bool,
    // The framing fault, if one was found.
    fault: Option<FeedFault>,
}

impl Model for Frames {
    ghost use Rattle.std.specs.Prelude.{◌≡◌, ◌+◌, ◌*◌, ◌<◌, ◌≤◌, ◌++◌, ℕ, List, length, drop, true, false, None};
    ghost use Rattle.tcap_ber.specs.WalkResult.{outer_at};
    ghost use Rattle.tcap_ber.specs.ResumedWalk.{resumes};
    ghost use Rattle.tcap_record.specs.RecordOctets.{entry_limit};
    ghost use Rattle.tcap_record.specs.FrontEntry.{entry_room};
    ghost use Rattle.tcap_record.specs.PartialRecord.{FramerState, IsPart, IsWhole, IsFramerState};

    ghost Value = { FramerState };

    ghost view = { λ a. record { octets = a.octets.items; place = a.place; count = a.count; fault = a.fault } };

    ghost invariant = { λ a.
        IsFramerState (record { octets = a.octets.items; place = a.place; count = a.count; fault = a.fault })
        × (a.whole ≡ true → (a.fault ≡ None) × IsWhole a.octets.items)
        × (a.whole ≡ false → a.fault ≡ None → IsPart a.octets.items
        × ((more : List ℕ) → resumes a.walk more ≡ outer_at (drop 1 a.octets.items ++ more)))
        × (length a.octets.items ≤ entry_room)
        × (a.place ≤ a.count * entry_room) };
}

/// Returns the front of octets that begin with an end's octet, given the result of framing the element after it.
fn front_by(answer: Result<Outer, Fault>) -> Front
    requires { IsAnswerWithin answer }
    ensures { result ≡ front_by answer }
{
    match answer {
        Ok(Outer::Whole(len)) => Front::Whole(len + 1),
        Ok(Outer::Need(_)) => Front::Part,
        Err(fault) => Front::Refused(FeedReason::Element(fault.reason), fault.place as usize + 1),
    }
}

/// Frames the first octets of an entry, after `count` entries. Returns the front, and the walk over its element.
fn begin(count: usize, walk: Walk, octets: &[u8]) -> (Front, Walk)
    requires some { 0 < length octets.now }
    requires fits { length octets.now ≤ entry_room }
    requires walk { (more : List ℕ) → resumes walk more ≡ outer_at more }
    ensures front { result.0 ≡ front_at count octets.now }
    ensures walk { (more : List ℕ) → result.0 ≡ Front.Part
        → resumes result.1 more ≡ outer_at (drop 1 octets.now ++ more) }
{
    let (first, more) = (octets[0], &octets[1..]);
    if count == ENTRY_LIMIT {
        return (Front::Refused(FeedReason::TooManyEntries, 0), walk);
    }
    if first == QUIET_OCTET {
        return (Front::Whole(1), walk);
    }
    if end_of(first).is_none() {
        return (Front::Refused(FeedReason::BadEnd, 0), walk);
    }
    go_on(walk, &octets[..1], more)
}

/// Frames a part of an entry and the octets after it. Returns their front, and the walk over their element.
fn go_on(walk: Walk, part: &[u8], octets: &[u8]) -> (Front, Walk)
    requires fits { length part.now + length octets.now ≤ entry_room }
    requires some { 0 < length part.now }
    requires walk { (more : List ℕ) → resumes walk more ≡ outer_at (drop 1 part.now ++ more) }
    ensures front { result.0 ≡ front_by (outer_at (drop 1 part.now ++ octets.now)) }
    ensures walk { (more : List ℕ) → resumes result.1 more ≡ outer_at (drop 1 (part.now ++ octets.now) ++ more) }
{
    let mut walk = walk;
    let answer = walk.go_on(octets);
    (front_by(answer), walk)
}

/// Frames the octets held, which may be none, and those after them. Returns their front, and the walk over their
/// element.
fn front_with(part: &[u8], count: usize, walk: Walk, octets: &[u8]) -> (Front, Walk)
    requires part { IsPart part.now }
    requires room { part.now ≢ [] → count < entry_limit }
    requires some { 0 < length octets.now }
    requires fits { length part.now + length octets.now ≤ entry_room }
    requires walk { (more : List ℕ) → resumes walk more ≡ outer_at (drop 1 part.now ++ more) }
    ensures front { result.0 ≡ front_at count (part.now ++ octets.now) }
    ensures walk { (more : List ℕ) → result.0 ≡ Front.Part
        → resumes result.1 more ≡ outer_at (drop 1 (part.now ++ octets.now) ++ more) }
{
    if part.is_empty() {
        begin(count, walk, octets)
    } else {
        go_on(walk, part, octets)
    }
}

/// Returns how many of the `count` new octets belong to the entry that the `held` octets begin: all of them if it is
/// incomplete or refused.
fn taken_of(front: Front, held: usize, count: usize) -> usize
    requires { IsLonger held front }
    ensures { result ≡ taken_of held count front }
{
    match front {
        Front::Whole(len) => len - held,
        _ => count,
    }
}

/// Appends octets of `piece` to `part`, up to the end of its entry. Returns the front, the walk over its element, and
/// how many octets were taken.
fn extend(
    part: &mut Vec<u8>,
    count: usize,
    walk: Walk,
    piece: &[u8],
) -> Result<(Front, Walk, usize), AllocError>
    requires part { IsPart part.old.items }
    requires room { part.old.items ≢ [] → count < entry_limit }
    requires within { count ≤ entry_limit }
    requires some { 0 < length piece.now }
    requires walk { (more : List ℕ) → resumes walk more ≡ outer_at (drop 1 part.old.items ++ more) }
    ensures taken { IfOk result (λ x. IsTaken count part.old.items piece.now part.new.items x.0 x.2) }
    ensures walk { IfOk result (λ x. (more : List ℕ) → x.0 ≡ Front.Part
        → resumes x.1 more ≡ outer_at (drop 1 part.new.items ++ more)) }
    ensures kept { IfErr result (λ _. part.new.items ≡ part.old.items) }
{
    let held = part.len();
    let (window, _) = piece.split_at((ENTRY_ROOM - held).min(piece.len()));
    let (front, walk) = front_with(part, count, walk, window);
    let taken = taken_of(front, held, window.len());
    part.extend_from_slice(&window[..taken])?;
    Ok((front, walk, taken))
}

impl Frames {
    ghost use Rattle.std.specs.Prelude.{◌≡◌, ◌<◌, ◌≤◌, ◌↔◌, ◌++◌, ◌∷◌, [], ℕ, List, length, take, drop, Some, None, Ok, Err, IfOk, MatchResult, IfSome, IsSome, IsTrue};
    ghost use Rattle.tcap_ber.specs.WalkResult.{outer_at};
    ghost use Rattle.tcap_ber.specs.ResumedWalk.{resumes};
    ghost use Rattle.tcap_record.specs.declared.entry.Entry.{Entry};
    ghost use Rattle.tcap_record.specs.declared.fault.FeedFault.{FeedFault};
    ghost use Rattle.tcap_record.specs.RecordOctets.{IsEntry, entry_limit};
    ghost use Rattle.tcap_record.specs.PartialRecord.{IsPart, IsWhole, IsFramerState, IsFront, IsFramedSoFar, empty_framer, grown, dropped, cut_to};
    ghost use Rattle.tcap_record.specs.FeederResult.{FailsFrom, FinishesAs};
    ghost use Rattle.tcap_record.specs.FrontEntry.{entry_room};
    ghost use Rattle.tcap_record.specs.EntryView.{entry_read};
    ghost use Rattle.tcap_record.specs.LentEntry.{IsLent};

    /// Creates an empty framer.
    pub fn new(alloc: Global) -> Frames
        ensures { result ≡ empty_framer }
    {
        Frames {
            octets: Vec::new(alloc),
            place: 0,
            count: 0,
            walk: Walk::new(),
            whole: false,
            fault: None,
        }
    }

    /// Returns the number of octets held: those taken that belong to no dropped entry.
    pub fn buffered(&self) -> usize
        ensures count { result ≡ length self.now.octets }
        ensures most { result ≤ entry_room }
    {
        self.octets.len()
    }

    /// Returns the number of octets taken in all.
    pub fn taken(&self) -> u64
        ensures { result ≡ self.now.place + length self.now.octets }
    {
        self.place + self.octets.len() as u64
    }

    /// Returns the number of entries dropped, which is the number of the entry at the front.
    pub fn dropped(&self) -> usize
        ensures count { result ≡ self.now.count }
        ensures most { result ≤ entry_limit }
    {
        self.count
    }

    /// Takes octets of `piece` until there is a whole entry at the front or the piece ends. Returns how many; 0 if
    /// there was a whole entry already. At most one entry is held.
    ///
    /// # Errors
    ///
    /// - `TooManyEntries`, `BadEnd` or `Element`, at its offset in the record. Every later call returns the same fault.
    /// - `Memory` if memory runs out. Then nothing was taken, and the piece may be given again.
    pub fn feed_some(&mut self, piece: &[u8]) -> Result<usize, FeedFault>
        ensures most { IfOk result (λ n. n ≤ length piece.now) }
        // The octets taken follow those that were held, and there is no fault.
        ensures taken { IfOk result (λ n. (self.old.fault ≡ None)
            × (self.new ≡ grown self.old (take n piece.now) None)) }
        // If octets are left, there is a whole entry at the front.
        ensures all { IfOk result (λ n. n < length piece.now → IsWhole self.new.octets) }
        // If there was a whole entry, no octet is taken.
        ensures none { IsWhole self.old.octets → IfOk result (λ n. n ≡ 0) }
        ensures fails { (f : FeedFault) → result ≡ Err f → FailsFrom f self.old self.new piece.now }
        // The octets held stay consistent.
        ensures held { IsFramerState self.new }
        // All octets taken so far are the dropped entries and the octets held.
        ensures fed { (octets : List ℕ) (entries : List Entry) → IsFramedSoFar octets entries self.old
            → MatchResult result (λ n. IsFramedSoFar (octets ++ take n piece.now) entries self.new)
            (λ _. (n : ℕ) × (n ≤ length piece.now) × IsFramedSoFar (octets ++ take n piece.now) entries self.new) }
    {
        if let Some(fault) = self.fault {
            return Err(fault);
        }
        if self.whole || piece.is_empty() {
            return Ok(0);
        }
        let (front, walk, taken) = extend(&mut self.octets, self.count, self.walk, piece)?;
        self.walk = walk;
        match front {
            Front::Whole(_) => self.whole = true,
            Front::Part => {}
            Front::Refused(reason, offset) => {
                let fault = FeedFault {
                    reason,
                    place: self.place + offset as u64,
                };
                self.fault = Some(fault);
                return Err(fault);
            }
        }
        Ok(taken)
    }

    /// Returns the whole entry at the front as a view, if there is one.
    pub fn front(&self) -> Option<EntryView<'_>>
        ensures exact { IsSome result ↔ ((self.now.fault ≡ None) × IsWhole self.now.octets) }
        ensures entry { IfSome result (λ v. IsFront (entry_read v) self.now) }
    {
        if !self.whole {
            return None;
        }
        Some(entry_view(&self.octets, self.place))
    }

    /// Drops the whole entry at the front. Returns whether there was one.
    pub fn drop_front(&mut self) -> bool
        ensures exact { IsTrue result ↔ ((self.old.fault ≡ None) × IsWhole self.old.octets) }
        ensures dropped { self.old.fault ≡ None → IsWhole self.old.octets → self.new ≡ dropped self.old }
        ensures kept { ((self.old.fault ≡ None) × IsWhole self.old.octets → ⊥) → self.new ≡ self.old }
        ensures fed { (octets : List ℕ) (entries : List Entry) (entry : Entry) → self.old.fault ≡ None
            → IsFront entry self.old
            → IsFramedSoFar octets entries self.old → IsFramedSoFar octets (entries ++ entry ∷ []) self.new }
    {
        if !self.whole {
            return false;
        }
        self.place += self.octets.len() as u64;
        self.count += 1;
        self.octets.clear();
        self.walk = Walk::new();
        self.whole = false;
        true
    }

    /// Returns the entry at the front of `piece` as a view, and its length in octets, without taking octets: see
    /// [`pass`](Frames::pass). `None` if octets are held, a fault was found, the record may have no more entries, or no
    /// whole entry begins `piece`.
    pub fn lend<'a>(&self, piece: &'a [u8]) -> Option<(EntryView<'a>, usize)>
        ensures exact { IsSome result ↔ ((self.now.fault ≡ None) × (self.now.octets ≡ [])
            × (self.now.count < entry_limit)
            × ((n : ℕ) × IsWhole (take n piece.now))) }
        ensures entry { IfSome result (λ x. IsLent self.now.place piece.now (entry_read x.0) x.1) }
    {
        if self.fault.is_none() && self.octets.is_empty() && self.count < ENTRY_LIMIT {
            front_view(piece, self.place)
        } else {
            None
        }
    }

    /// Takes and drops an entry that is all of `octets`. No octets may be held, and no fault found.
    pub fn pass(&mut self, octets: &[u8])
        requires sound { self.old.fault ≡ None }
        requires nothing { self.old.octets ≡ [] }
        requires room { self.old.count < entry_limit }
        requires whole { IsWhole octets.now }
        ensures dropped { self.new ≡ dropped (grown self.old octets.now None) }
        ensures held { IsFramerState self.new }
        ensures fed { (returned : List ℕ) (entries : List Entry) (entry : Entry)
            → IsEntry self.old.place entry octets.now []
            → IsFramedSoFar returned entries self.old
            → IsFramedSoFar (returned ++ octets.now) (entries ++ entry ∷ []) self.new }
    {
        let count = self.count + 1;
        self.place += octets.len() as u64;
        self.count = count;
    }

    /// Returns the walk over the element of the part of an entry that is held.
    pub(crate) fn walk(&self) -> Walk
        ensures { self.now.fault ≡ None → IsPart self.now.octets
            → (more : List ℕ) → resumes result more ≡ outer_at (drop 1 self.now.octets ++ more) }
    {
        self.walk
    }

    /// Removes octets from the end, so that `len` are left, which are a part of an entry. `walk` is the walk over its
    /// element.
    pub(crate) fn cut(&mut self, len: usize, walk: Walk)
        requires sound { self.old.fault ≡ None }
        requires part { IsPart (take len self.old.octets) }
        requires walk { (more : List ℕ) → resumes walk more ≡ outer_at (drop 1 (take len self.old.octets) ++ more) }
        ensures { self.new ≡ cut_to len self.old }
    {
        self.octets.truncate(len);
        self.walk = walk;
        self.whole = false;
    }

    /// Returns an empty framer that begins after the entry at the front.
    pub(crate) fn after_front(&self, alloc: Global) -> Frames
        requires sound { self.now.fault ≡ None }
        requires whole { IsWhole self.now.octets }
        ensures { result ≡ dropped self.now }
    {
        Frames {
            octets: Vec::new(alloc),
            place: self.place + self.octets.len() as u64,
            count: self.count + 1,
            walk: Walk::new(),
            whole: false,
            fault: None,
        }
    }

    /// Checks that the record may end here.
    ///
    /// # Errors
    ///
    /// The fault of [`feed_some`](Frames::feed_some), if there was one. Otherwise `CutRecord` at the number of octets
    /// taken, if a part of an entry is held.
    pub fn finish(&self) -> Result<(), FeedFault>
        ensures { FinishesAs result self.now }
    {
        if let Some(fault) = self.fault {
            return Err(fault);
        }
        if self.whole || self.octets.is_empty() {
            return Ok(());
        }
        Err(FeedFault {
            reason: FeedReason::CutRecord,
            place: self.place + self.octets.len() as u64,
        })
    }
}
