//! TCAP messages (Q.773): reading them into a borrowed view or an owned value, and writing them.
#![tactic(auto)]

mod encode_message;
mod kind;
pub mod laws;
mod lending;
mod message;
mod parts;
pub mod tags;
mod transaction_id;
mod views;

pub use encode_message::{EncodeFault, encode, encoded_len};
pub use kind::Kind;
pub use message::{AbortReason, DecodeFault, Message, decode};
pub use parts::MessageParts;
pub use transaction_id::{TransactionId, TransactionIdView};
pub use views::{AbortReasonView, MessageView, dialogue_portion, dtid, otid, view};
