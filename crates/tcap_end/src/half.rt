//! The state of a half of a transaction.

use tcap_msg::TransactionId;

/// The phase of a half (Q.774 3.3).
#[derive(Clone, Copy, Debug, PartialEq, Eq)]
pub enum Phase {
    /// This end sent a Begin.
    Sent,
    /// This end received a Begin.
    Received,
    /// A Continue answered the Begin.
    Active,
    /// The transaction is over.
    Closed,
}

/// The dialogue state of a half (Q.774 3.2).
#[derive(Clone, Copy, Debug, PartialEq, Eq)]
pub enum DialogueState {
    /// There is no dialogue.
    Without,
    /// A dialogue request was sent or received.
    Requested,
    /// A dialogue response answered the request.
    Confirmed,
}

/// The state of an own invocation (Q.774 3.2).
#[derive(Clone, Copy, Debug, PartialEq, Eq)]
pub enum InvocationState {
    /// The Invoke was sent, and its last answer was not yet received.
    OperationSent,
    /// The last answer was received. The invoke ID is not free until the invocation ends.
    WaitForReject,
}

/// The list in which an end keeps a half. The ID by which the list has the half is its key.
#[derive(Clone, Copy, Debug, PartialEq, Eq)]
pub enum Slot {
    /// The halves whose Begin this end sent, by their own transaction IDs.
    Begun,
    /// The halves whose Begin this end received, by the peer's transaction IDs.
    Accepted,
}

/// The name of a half: its own transaction ID, or the peer's.
#[derive(Debug, Drop)]
pub enum HalfName {
    /// The half with this own transaction ID.
    Own(TransactionId),
    /// The half with this transaction ID of the peer.
    Peer(TransactionId),
}
