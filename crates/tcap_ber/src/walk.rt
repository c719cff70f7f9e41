//! A walk over an element's octets that can stop after any octet and resume when more have come.

ghost use Rattle.std.specs.Prelude.{◌≡◌, ◌+◌, ◌<◌, ◌≤◌, ◌⊎◌, ◌++◌, ◌∷◌, ◌↔◌, [], ℕ, List, length, take, Option, None, Err, IsTrue, IfSome};
ghost use Rattle.tcap_ber.specs.Element.{content_limit, header_limit, opening_limit};
ghost use Rattle.tcap_ber.specs.Progress.{IsPlaced, IsUnfinishedHeader};

use crate::element::{Outer, Window};
use crate::fault::Fault;
use crate::header::read_opening;
use crate::progress::Progress;

/// The greatest header length in octets: five of the tag, five of the length.
const HEADER_LIMIT: usize = 10;

/// A walk over the octets of one element from left to right (X.690 8.1).
///
/// The walk skips the content of an element of definite length. It goes through one of indefinite length element by
/// element, up to the end-of-contents octets. It keeps only the octets of an unfinished header, and does not allocate.
#[derive(Clone, Copy, Debug)]
pub struct Walk {
    // Where the walk resumes, after the octets to skip.
    progress: Progress,
    // How many octets of a content of definite length are still to come.
    skip: usize,
    // The octets of an unfinished header; the first `held` are in use.
    header: [u8; HEADER_LIMIT],
    held: usize,
    // The first fault of the octets, if there is one.
    fault: Option<Fault>,
    ghost placed: { IsPlaced progress },
    ghost room: { (held ≤ 9) × (length (take held header) ≡ held)
        × (skip ≤ content_limit + opening_limit + header_limit) },
    ghost unfinished: { IsUnfinishedHeader progress (take held header) },
}

impl Walk {
    ghost use Rattle.tcap_ber.specs.HeaderReading.{Gives};
    ghost use Rattle.tcap_ber.specs.WalkResult.{outer_at};
    ghost use Rattle.tcap_ber.specs.ResumedWalk.{resumes, IsStopped};

    /// Creates a walk that begins at an element's first octet.
    pub fn new() -> Walk
        ensures { (octets : List ℕ) → resumes result octets ≡ outer_at octets }
    {
        Walk {
            progress: Progress::new(),
            skip: 0,
            header: [0; HEADER_LIMIT],
            held: 0,
            fault: None,
        }
    }

    /// Returns this walk with `fault` as its result on every later call.
    fn failed(self, fault: Fault) -> Walk
        ensures { (octets : List ℕ) → resumes result octets ≡ Err fault }
    {
        let header = self.header;
        Walk {
            progress: self.progress,
            skip: 0,
            header,
            held: self.held,
            fault: Some(fault),
        }
    }

    /// Returns this walk with the first `held` octets of `header` as its unfinished header.
    fn holding(self, header: [u8; HEADER_LIMIT], held: usize) -> Walk
        requires unfinished { IsUnfinishedHeader self.progress (take held header) }
        requires all { length (take held header) ≡ held }
        ensures fault { result.fault ≡ None }
        ensures skip { result.skip ≡ 0 }
        ensures progress { result.progress ≡ self.progress }
        ensures octets { take result.held result.header ≡ take held header }
    {
        Walk {
            progress: self.progress,
            skip: 0,
            header,
            held,
            fault: None,
        }
    }

    /// Returns the walk that resumes at `progress` after skipping `skip` octets.
    fn behind(self, progress: Progress, skip: usize) -> Walk
        requires placed { IsPlaced progress }
        requires few { skip ≤ content_limit + opening_limit + header_limit }
        ensures fault { result.fault ≡ None }
        ensures skip { result.skip ≡ skip }
        ensures progress { result.progress ≡ progress }
        ensures octets { take result.held result.header ≡ [] }
    {
        let header = self.header;
        Walk {
            progress,
            skip,
            header,
            held: 0,
            fault: None,
        }
    }

    /// Returns whether later octets can't change the result: the walk failed, or found the element's end.
    fn is_stopped(self) -> bool
        ensures { IsTrue result ↔ IsStopped self }
    {
        self.fault.is_some() || (self.skip == 0 && self.progress.depth == 0 && self.progress.at > 0)
    }

    /// Skips as many of `octets` as this walk has to. Returns the new walk and the octets left.
    fn skipping(self, octets: &[u8]) -> (Walk, &[u8])
        ensures same { (more : List ℕ) → resumes result.0 (result.1.now ++ more) ≡ resumes self (octets.now ++ more) }
        ensures fewer { length result.1.now ≤ length octets.now }
        ensures over { 0 < length result.1.now → result.0.skip ≡ 0 }
    {
        let count = self.skip.min(octets.len());
        let header = self.header;
        let walk = Walk {
            progress: self.progress,
            skip: self.skip - count,
            header,
            held: self.held,
            fault: self.fault,
        };
        (walk, &octets[count..])
    }

    /// Returns the held octets of the header with `octet` after them.
    fn header_with(self, octet: u8) -> [u8; HEADER_LIMIT]
        ensures { take (self.held + 1) result ≡ take self.held self.header ++ octet ∷ [] }
    {
        let mut header = self.header;
        header[self.held] = octet;
        header
    }

    /// Returns the walk after one more octet, which must not be one to skip.
    fn with_octet(self, octet: u8) -> Walk
        requires none { self.skip ≡ 0 }
        requires goes { IsStopped self → ⊥ }
        ensures { (more : List ℕ) → resumes result more ≡ resumes self (octet ∷ more) }
    {
        let header = self.header_with(octet);
        let held = self.held + 1;
        let octets = &header[..held];
        let window = Window {
            octets,
            place: self.progress.at as u64,
        };
        let opening = match read_opening(window) {
            Ok(Some(opening)) => opening,
            Ok(None) => return self.holding(header, held),
            Err(fault) => return self.failed(fault),
        };
        match self.progress.behind_header(octets, opening) {
            Ok(next) => self.behind(next, next.at - self.progress.at - held),
            Err(fault) => self.failed(fault),
        }
    }

    /// Goes past a whole header at the front of `octets`. Returns the new walk and the octets left, or `None` if the
    /// header is incomplete or faulty.
    fn behind_whole(self, octets: &[u8]) -> Option<(Walk, &[u8])>
        requires none { self.skip ≡ 0 }
        requires goes { IsStopped self → ⊥ }
        requires nothing { self.held ≡ 0 }
        ensures same { IfSome result (λ x. (more : List ℕ)
            → resumes x.0 (x.1.now ++ more) ≡ resumes self (octets.now ++ more)) }
        ensures fewer { IfSome result (λ x. length x.1.now < length octets.now) }
    {
        let window = Window {
            octets,
            place: self.progress.at as u64,
        };
        let Ok(Some(opening)) = read_opening(window) else {
            return None;
        };
        let Ok(next) = self.progress.behind_header(octets, opening) else {
            return None;
        };
        let len = opening.len();
        Some((
            self.behind(next, next.at - self.progress.at - len),
            &octets[len..],
        ))
    }

    /// Goes past some of `octets`, with none left to skip. Returns the new walk and the octets left.
    fn with_octets(self, octets: &[u8]) -> (Walk, &[u8])
        requires none { self.skip ≡ 0 }
        requires goes { IsStopped self → ⊥ }
        requires some { 0 < length octets.now }
        ensures same { (more : List ℕ) → resumes result.0 (result.1.now ++ more) ≡ resumes self (octets.now ++ more) }
        ensures fewer { length result.1.now < length octets.now }
    {
        // A whole header has at least two octets.
        if self.held == 0 && octets.len() > 1 {
            if let Some(found) = self.behind_whole(octets) {
                return found;
            }
        }
        match octets {
            [octet, more @ ..] => (self.with_octet(*octet), more),
            [] => unreachable!(),
        }
    }

    /// Returns the result of framing the octets that the walk has gone over.
    fn answer(self) -> Result<Outer, Fault>
        ensures exact { Gives (λ x. x) result (resumes self []) }
    {
        if let Some(fault) = self.fault {
            return Err(fault);
        }
        let Progress { at, depth, .. } = self.progress;
        if self.skip > 0 {
            Ok(Outer::Need(at + 2 * depth))
        } else if depth == 0 && at > 0 {
            Ok(Outer::Whole(at))
        } else {
            Ok(Outer::Need(at + self.held + 1))
        }
    }

    /// Continues the walk with the next `octets`, up to the element's end or the first fault.
    ///
    /// Returns the result of framing all octets so far, as [`outer`](crate::outer) does for all of them at once.
    ///
    /// # Errors
    ///
    /// The faults of [`outer`](crate::outer). Every later call returns the same fault.
    pub fn go_on(&mut self, octets: &[u8]) -> Result<Outer, Fault>
        ensures answer { Gives (λ x. x) result (resumes self.old octets.now) }
        ensures goes_on { (more : List ℕ) → resumes self.new more ≡ resumes self.old (octets.now ++ more) }
    {
        let mut walk = *self;
        let mut rest = octets;
        loop {
            let (skipped, left) = walk.skipping(rest);
            walk = skipped;
            rest = left;
            if rest.is_empty() || walk.is_stopped() {
                break;
            }
            let (further, left) = walk.with_octets(rest);
            walk = further;
            rest = left;
        }
        *self = walk;
        walk.answer()
    }
}
