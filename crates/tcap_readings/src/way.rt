//! The ways in which an end may take a malformed message.

/// A way in which an end may take a malformed message of its peer (Q.774 3.2.1, 3.2.2.2, 3.3.4).
#[derive(Clone, Copy, Debug, PartialEq, Eq)]
pub enum Way {
    /// It drops the message.
    Dropped,
    /// The message ends the transaction of its destination ID.
    Closed,
    /// It takes the sound part of the message.
    InPart,
    /// It takes the sound part, and rejects the component at fault.
    Rejected,
    /// It answers the message with an Abort.
    Aborted,
    /// It refuses the transaction of the message with an Abort.
    Refused,
}
