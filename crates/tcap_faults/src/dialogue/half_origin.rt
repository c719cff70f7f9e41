//! The ways in which a half can begin.

/// The way in which the half with an ID of the peer began (Q.774 3.3), as far as a list of messages shows it.
#[derive(Clone, Copy, Debug, PartialEq, Eq)]
pub enum HalfOrigin {
    /// The peer sent a Begin, and the end's provider did not refuse it.
    Accepted,
    /// The peer sent a Begin, and the end's provider refused it (P-Abort cause 4).
    Refused,
    /// The end sent a Begin, and a Continue of the peer answered it.
    Begun,
    /// The end sent a Begin, and none of the peer's Continues can be received as an answer.
    Unanswered,
    /// There is no such half.
    Nowhere,
}
