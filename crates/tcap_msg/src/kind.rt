//! The kinds of messages (Q.773 4.2.1).

/// The kind of a message (Q.773 4.2.1).
#[derive(Clone, Copy, Debug, PartialEq, Eq)]
pub enum Kind {
    /// A Unidirectional, outside any transaction.
    Unidirectional,
    /// A Begin, which begins a transaction.
    Begin,
    /// A Continue, which continues a transaction.
    Continue,
    /// An End, which ends a transaction.
    End,
    /// An Abort, which ends a transaction abnormally.
    Abort,
}
