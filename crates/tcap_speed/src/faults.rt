//! The faults of generated records.

/// The parts of messages that are at fault.
#[derive(Clone, Copy)]
pub(crate) enum Faults {
    /// No part.
    None,
    /// One transaction ID, Invoke or answer in this many refers to something that was never sent.
    Unknown(u32),
    /// One Invoke or answer in this many is sent twice, so that its invoke ID is in use or already answered.
    Twice(u32),
}

impl Faults {
    /// Returns the count of `Unknown`, or 0.
    pub(crate) fn unknown(self) -> u32 {
        match self {
            Faults::Unknown(count) => count,
            Faults::None | Faults::Twice(_) => 0,
        }
    }

    /// Returns the count of `Twice`, or 0.
    pub(crate) fn twice(self) -> u32 {
        match self {
            Faults::Twice(count) => count,
            Faults::None | Faults::Unknown(_) => 0,
        }
    }
}
