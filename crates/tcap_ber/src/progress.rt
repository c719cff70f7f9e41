//! How far a walk over an element's octets has come.

ghost use Rattle.std.specs.Prelude.{◌≡◌, ◌+◌, ◌^◌, ◌<◌, ◌≤◌, ◌-◌, length, IfOk, IfSome};
ghost use Rattle.tcap_ber.specs.Element.{content_limit, header_limit};
ghost use Rattle.tcap_ber.specs.HeaderReading.{Gives};
ghost use Rattle.tcap_ber.specs.WalkResult.{is_ending, within_limit, opened, closed, passed, behind_header, goes};
ghost use Rattle.tcap_ber.specs.Progress.{IsPlaced, IsHeaderWithin};

use crate::element::Window;
use crate::fault::{Fault, Reason};
use crate::header::{CONTENT_LIMIT, Opening, read_opening};

/// The greatest number of nested elements of indefinite length, a limit of this profile.
pub const DEPTH_LIMIT: usize = 32;

/// An offset that a walk reached. If elements are open, an element of the innermost one or its end-of-contents octets
/// begin there.
#[derive(Clone, Copy, Debug)]
pub(crate) struct Progress {
    /// The offset from the outermost element's first octet.
    pub(crate) at: usize,
    /// The number of open elements of indefinite length.
    pub(crate) depth: usize,
    /// The last offset that the content of the outermost open element may reach.
    pub(crate) limit: usize,
}

/// Returns whether the octets begin with end-of-contents octets, which are two zero octets (X.690 8.1.5).
fn is_ending(octets: &[u8]) -> bool
    ensures { result ≡ is_ending octets.now }
{
    match octets {
        [first, second, ..] => *first == 0 && *second == 0,
        _ => false,
    }
}

impl Progress {
    /// Creates the state before the first octet.
    pub(crate) fn new() -> Progress
        ensures { result ≡ record { at = 0; depth = 0; limit = 0 } }
    {
        Progress {
            at: 0,
            depth: 0,
            limit: 0,
        }
    }

    /// Returns `next`, or `TooLong` at 0 if the content of the outermost open element is then over the limit.
    fn within_limit(self, next: Progress) -> Result<Progress, Fault>
        ensures exact { Gives (λ p. p) result (within_limit self next) }
    {
        if next.at > self.limit {
            return Err(Fault {
                reason: Reason::TooLong,
                place: 0,
            });
        }
        Ok(next)
    }

    /// Returns the progress after a header of `len` octets with the length octet 80. `TooDeep` at this offset if too
    /// many elements are open, else the fault of `within_limit`.
    fn opened(self, len: usize) -> Result<Progress, Fault>
        requires placed { IsPlaced self }
        requires few { len ≤ 6 }
        requires some { 0 < len }
        requires first { self.depth ≡ 0 → self.at ≡ 0 }
        ensures exact { Gives (λ p. p) result (opened self len) }
        ensures placed { IfOk result IsPlaced }
    {
        if self.depth >= DEPTH_LIMIT {
            return Err(Fault {
                reason: Reason::TooDeep,
                place: self.at as u64,
            });
        }
        let at = self.at + len;
        if self.depth == 0 {
            return Ok(Progress {
                at,
                depth: 1,
                limit: at + CONTENT_LIMIT,
            });
        }
        self.within_limit(Progress {
            at,
            depth: self.depth + 1,
            limit: self.limit,
        })
    }

    /// Returns the progress after the end-of-contents octets of the innermost open element, or the fault of
    /// `within_limit`.
    fn closed(self) -> Result<Progress, Fault>
        requires placed { IsPlaced self }
        requires inside { 0 < self.depth }
        ensures exact { Gives (λ p. p) result (closed self) }
        ensures placed { IfOk result IsPlaced }
    {
        let next = Progress {
            at: self.at + 2,
            depth: self.depth - 1,
            limit: self.limit,
        };
        if self.depth == 1 {
            return Ok(next);
        }
        self.within_limit(next)
    }

    /// Returns the progress after an element of definite length of `len` octets, or the fault of `within_limit`.
    fn passed(self, len: usize) -> Result<Progress, Fault>
        requires placed { IsPlaced self }
        requires few { len ≤ content_limit + header_limit }
        requires first { self.depth ≡ 0 → self.at ≡ 0 }
        ensures exact { Gives (λ p. p) result (passed self len) }
        ensures placed { IfOk result IsPlaced }
    {
        let next = Progress {
            at: self.at + len,
            depth: self.depth,
            limit: self.limit,
        };
        if self.depth == 0 {
            return Ok(next);
        }
        self.within_limit(next)
    }

    /// Returns the progress after what `opening` begins at the front of `octets`: a whole element of definite length,
    /// the header of one of indefinite length, or end-of-contents octets (X.690 8.1.3.6). `TooDeep` at this offset,
    /// `TooLong` at the outermost element.
    pub(crate) fn behind_header(self, octets: &[u8], opening: Opening) -> Result<Progress, Fault>
        requires placed { IsPlaced self }
        requires within { IsHeaderWithin (length octets.now) opening }
        requires first { self.depth ≡ 0 → self.at ≡ 0 }
        ensures exact { Gives (λ p. p) result (behind_header self octets.now opening) }
        ensures placed { IfOk result IsPlaced }
    {
        match opening {
            Opening::Indefinite(tag_len) => self.opened(tag_len + 1),
            Opening::Definite(_) if self.depth > 0 && is_ending(octets) => self.closed(),
            Opening::Definite(header) => self.passed(header.len + header.content_len),
        }
    }

    /// Returns where a walk goes on from here, with `octets` next. `None` if the walk fails, ends or needs more octets.
    #[tactic(auto, unfolding(crate::specs::WalkResult::goes))]
    pub(crate) fn goes(self, octets: &[u8]) -> Option<Progress>
        requires placed { IsPlaced self }
        requires first { self.depth ≡ 0 → self.at ≡ 0 }
        requires fits { self.at + length octets.now < 2 ^ 64 }
        ensures exact { result ≡ goes self octets.now }
        ensures placed { IfSome result (λ p. IsPlaced p × (0 < p.depth) × (self.at < p.at)
            × (p.at - self.at ≤ length octets.now)) }
    {
        let window = Window {
            octets,
            place: self.at as u64,
        };
        let Ok(Some(opening)) = read_opening(window) else {
            return None;
        };
        let Ok(next) = self.behind_header(octets, opening) else {
            return None;
        };
        if next.depth == 0 || octets.len() < next.at - self.at {
            return None;
        }
        Some(next)
    }
}
