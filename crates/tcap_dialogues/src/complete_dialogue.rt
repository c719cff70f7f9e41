//! A complete dialogue.

use std::collections::BTreeSet;
use tcap_msg::TransactionId;

/// A complete dialogue, whose IDs are free or whose segment has ended.
#[derive(Debug, Drop)]
pub struct CompleteDialogue {
    /// The numbers of its entries in the segment, counted from 0, in ascending order.
    pub numbers: Vec<u64>,
    /// The transaction IDs of end A in its entries.
    pub a: BTreeSet<TransactionId>,
    /// The transaction IDs of end B in its entries.
    pub b: BTreeSet<TransactionId>,
    /// The number of the first entry with which it is over: an End, an Abort, or an entry without IDs.
    pub over: Option<u64>,
    /// If an earlier dialogue of the segment had one of its IDs, the number of the first entry of the last such
    /// dialogue. It is the highest such number, counted from 0 in the segment.
    pub earlier: Option<u64>,
    /// Whether the owner of such an ID had not sent a message from it in an earlier dialogue that began before the
    /// under-way directive.
    pub unsettled: bool,
}
