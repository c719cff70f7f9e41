//! Whether transaction IDs may be reused.

/// The reuse of transaction IDs in a segment between quiet marks.
#[derive(Clone, Copy, Debug, PartialEq, Eq)]
pub enum Reuse {
    /// IDs are not reused: entries that share an ID are in one dialogue.
    Once,
    /// IDs are free after their dialogue is over: if their owner uses one of them for another dialogue, or if more
    /// entries than this have come since.
    Again(u64),
}
