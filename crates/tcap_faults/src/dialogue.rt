//! The half over which a message goes, and messages that do not fit it (F8, F9, F14, F15).

pub(crate) mod half;
pub(crate) mod half_lookup;
pub(crate) mod half_origin;
pub(crate) mod open_halves;
pub(crate) mod portion_faults;
