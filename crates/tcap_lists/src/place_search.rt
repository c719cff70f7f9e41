//! Searches for a place with a wanted item. A place has the number of a kind, or is empty.

ghost use Rattle.std.specs.Prelude.{◌≡◌, ◌<◌, ◌≤◌, ℕ, List, Option, Some, None, true, false, slice_set, length};
ghost use Rattle.tcap_lists.specs.Row.{IsOldest, is_wanted, kind_at};

/// Returns whether a place has an item, and of the wanted kind if one is given.
pub(crate) fn is_wanted(place: Option<usize>, wanted: Option<usize>) -> bool
    ensures { result ≡ is_wanted wanted place }
{
    match (place, wanted) {
        (None, _) => false,
        (Some(_), None) => true,
        (Some(kind), Some(wanted)) => kind == wanted,
    }
}

/// Returns the kind number in a place, or None if the place is empty or beyond the end.
pub(crate) fn kind_at(places: &[Option<usize>], at: usize) -> Option<usize>
    ensures { result ≡ kind_at places.now at }
{
    if at < places.len() { places[at] } else { None }
}

/// Returns the first place at or after `from` with a wanted item, or the number of places.
pub(crate) fn next_of(places: &[Option<usize>], wanted: Option<usize>, from: usize) -> usize
    ensures after { from ≤ result }
    ensures none { (at : ℕ) → from ≤ at → at < result → is_wanted wanted (kind_at places.now at) ≡ false }
    ensures there { result < length places.now → is_wanted wanted (kind_at places.now result) ≡ true }
{
    let mut at = from;
    while at < places.len() {
        if is_wanted(places[at], wanted) {
            return at;
        }
        at += 1;
    }
    at
}

/// Returns the place of the oldest wanted item after the item in place `at` was removed; `oldest` is the place before
/// that.
pub(crate) fn oldest_after(
    places: &[Option<usize>],
    wanted: Option<usize>,
    oldest: usize,
    at: usize,
) -> usize
    ensures { (before : List (Option ℕ)) → places.now ≡ slice_set before at None → IsOldest wanted before oldest
        → IsOldest wanted places.now result }
{
    if oldest == at {
        next_of(places, wanted, at)
    } else {
        oldest
    }
}

/// Returns the place of the oldest wanted item after a wanted item is put into the empty place `at`; `oldest` is the
/// place before that.
pub(crate) fn oldest_before(
    places: &[Option<usize>],
    wanted: Option<usize>,
    oldest: usize,
    at: usize,
) -> usize
    ensures { (kind : ℕ) → at < length places.now → is_wanted wanted (Some kind) ≡ true
        → IsOldest wanted places.now oldest → IsOldest wanted (slice_set places.now at (Some kind)) result }
{
    if oldest < at && is_wanted(kind_at(places, oldest), wanted) {
        oldest
    } else {
        at
    }
}
