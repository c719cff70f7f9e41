//! Says in words which fault of its kind a blame is about, and what else is known of it.
#![tactic(auto)]

mod at_fault;
mod blame;
mod fault_details;
mod no_message;
mod q773_names;
mod sentence_parts;
mod which;
mod which_answers;
mod which_ids;
mod which_operations;
mod which_portions;

pub use blame::Blame;
pub use fault_details::push_details;
pub use no_message::push_no_message;
pub use which::push_alternative;
