//! The innermost incomplete element.

ghost use Rattle.std.specs.Prelude.{◌≡◌, ◌-◌, ◌≤◌, length, drop};
ghost use Rattle.tcap_ber.specs.WalkResult.{note, stopped, last_opened, innermost_at};
ghost use Rattle.tcap_ber.specs.Progress.{IsPlaced};

use crate::progress::Progress;

/// Returns the octets left when a walk that is at the front of `octets` goes on to `next`.
fn left(octets: &[u8], progress: Progress, next: Progress) -> &[u8]
    requires order { progress.at ≤ next.at }
    requires within { next.at - progress.at ≤ length octets.now }
    ensures { result.now ≡ drop (next.at - progress.at) octets.now }
{
    &octets[next.at - progress.at..]
}

/// Returns the offset of `progress` if an element opens there at this depth, else `noted`.
fn note(depth: usize, noted: usize, progress: Progress, next: Progress) -> usize
    requires { IsPlaced progress }
    ensures { result ≡ note depth noted progress next }
{
    if progress.depth + 1 == depth && next.depth == depth {
        progress.at
    } else {
        noted
    }
}

/// Returns where a walk over `octets` stops, and the octets left there.
fn stopped(octets: &[u8]) -> (Progress, &[u8])
    ensures exact { (result.0, result.1.now) ≡ stopped octets.now }
{
    let mut progress = Progress::new();
    let mut rest = octets;
    while let Some(next) = progress.goes(rest) {
        rest = left(rest, progress, next);
        progress = next;
    }
    (progress, rest)
}

/// Returns the offset of the last element of indefinite length that a walk over `octets` opens at this depth.
fn last_opened(octets: &[u8], depth: usize) -> usize
    ensures exact { result ≡ last_opened depth octets.now }
{
    let mut noted = 0;
    let mut progress = Progress::new();
    let mut rest = octets;
    while let Some(next) = progress.goes(rest) {
        noted = note(depth, noted, progress, next);
        rest = left(rest, progress, next);
        progress = next;
    }
    noted
}

#[tactic(auto, unfolding(crate::specs::WalkResult::innermost_at))]
fn find_innermost(octets: &[u8]) -> usize
    ensures { result ≡ innermost_at octets.now }
{
    let (progress, rest) = stopped(octets);
    if rest.is_empty() {
        last_opened(octets, progress.depth)
    } else {
        progress.at
    }
}

/// Returns the offset of the innermost incomplete element of `octets`. If octets are left after the walk, that element
/// begins with them; otherwise it is the innermost open one (X.690 8.1.3.6).
pub(crate) fn innermost(octets: &[u8]) -> usize
    ensures exact { result ≡ innermost_at octets.now }
    ensures within { result ≤ length octets.now }
{
    find_innermost(octets)
}
