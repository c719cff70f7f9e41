//! The order in which the ends of a dialogue are reported.

use crate::listed_entries::blamed_by;
use tcap_record::End;
use tcap_traces::{EndResult, Ends};

/// Returns whether the verdict on an end is asked.
pub(crate) fn is_asked(of: Option<End>, end: End) -> bool {
    match of {
        Some(options) => options == end,
        None => true,
    }
}

/// Returns the end that is blamed for the later entry, if both ends are asked and blamed for different entries.
pub(crate) fn later_end(ends: Ends, of: Option<End>) -> Option<End> {
    match (of, blamed_by(ends.a), blamed_by(ends.b)) {
        (None, Some(a), Some(b)) if a < b => Some(End::B),
        (None, Some(a), Some(b)) if b < a => Some(End::A),
        _ => None,
    }
}

/// Returns the last end that is asked and open. If an end is open, at most one is blamed, so B comes after A.
pub(crate) fn last_open(ends: Ends, of: Option<End>) -> Option<End> {
    if is_asked(of, End::B) && ends.b == EndResult::Open {
        Some(End::B)
    } else if is_asked(of, End::A) && ends.a == EndResult::Open {
        Some(End::A)
    } else {
        None
    }
}

/// Returns the ends in the order of their reports: A before B, unless A's fault comes later than B's.
pub(crate) fn in_order(ends: Ends, of: Option<End>) -> [End; 2] {
    match later_end(ends, of) {
        Some(End::A) => [End::B, End::A],
        _ => [End::A, End::B],
    }
}
