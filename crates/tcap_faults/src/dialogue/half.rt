//! The half of an end with an ID of its peer, with the counts of its components.

use crate::component::tally::Tally;
use crate::dialogue::half_origin::HalfOrigin;
use tcap_msg::TransactionId;

/// The half with an ID of the peer.
#[derive(Drop)]
pub(crate) struct Half<'a> {
    pub(crate) origin: HalfOrigin,
    /// Its own ID, if it is known.
    pub(crate) own: Option<TransactionId>,
    /// True if the Begin that began it has a dialogue request.
    pub(crate) requests: bool,
    /// The components that it heard.
    pub(crate) incoming: Vec<&'a Tally>,
    /// The components that it sent to the peer before.
    pub(crate) outgoing: Vec<&'a Tally>,
    /// The components among which its own invocations are.
    pub(crate) invoked: Vec<&'a Tally>,
}
