//! The messages that providers' Aborts answer.

/// An entry that an Abort of its receiver's provider answers (Q.774 3.3). Entries are counted from 0 in their segment
/// between quiet marks.
#[derive(Clone, Copy, PartialEq, Eq)]
pub(crate) struct Tie {
    /// The number of the entry.
    pub(crate) entry: u32,
    /// The number of the Abort.
    pub(crate) reply: u32,
}
