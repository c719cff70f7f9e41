//! The verdict on a record: the first fault of an end, what it is about, and why there is none.

pub(crate) mod earlier_entries;
pub(crate) mod fault_subject;
pub(crate) mod first_fault;
pub(crate) mod lowest_kind;
pub(crate) mod next_entry;
pub(crate) mod relevant_entries;
pub(crate) mod unblamed;
pub(crate) mod unblamed_reason;
