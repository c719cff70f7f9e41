//! The facts that entries show about a fault.

use tcap_faults::Sort;

/// A fact that entries show about a message at fault and the end that sent it. "Components" are those of the invoke ID
/// in question.
#[derive(Clone, Copy, Debug)]
pub enum ShownFact {
    /// The peer's Begins from the message's destination ID.
    PeerBegins,
    /// The Begins of `PeerBegins` with a dialogue request (AARQ).
    PeerRequests,
    /// The peer's Continues from the destination ID.
    PeerContinues,
    /// The end's messages from the message's originating ID.
    Used,
    /// The end's Continues from the message's originating ID to another destination ID.
    WentElsewhere,
    /// The end's Begins from the half's own ID or, if that is unknown, from the message's originating ID.
    Begun,
    /// The Begins of `Begun` with a dialogue request (AARQ).
    OwnRequests,
    /// The end's messages to the destination ID, without its provider's Aborts.
    OutgoingComponents,
    /// The end's Continues to the destination ID.
    OutgoingContinues,
    /// The end's Ends to the destination ID, and its user's Aborts.
    Ended,
    /// The end's provider's Aborts to the destination ID with cause 1, unrecognizedTransactionID.
    Unknown,
    /// The end's provider's Aborts to the destination ID with cause 4, resourceLimitation.
    Refused,
    /// Components of a sort in the peer's messages from the destination ID.
    PeerComponents(Sort),
    /// Components of a sort in the messages that the half heard.
    IncomingComponents(Sort),
    /// Components of a sort in the end's messages to the destination ID, and, in the message at fault,
    /// before the component at fault.
    Before(Sort),
    /// Components of a sort in the end's messages to the destination ID, and in the whole message.
    Whole(Sort),
    /// Components of a sort in the messages that carry the half's own invocations: its Begin, and its messages to
    /// the destination ID.
    Invoked(Sort),
    /// The end's Continues from IDs whose halves are certainly open.
    Open,
}
