//! Finds the first entry of a record that no end that keeps the rules of TCAP sends (Q.771, Q.773, Q.774). Each kind
//! of such an entry is a fact about a list of messages.
#![tactic(auto)]

mod codes;
mod components;
mod dialogues;
mod first_kinds;
mod judging;
mod kind;
mod kinds_by_notes;
pub mod laws;
mod notes;
mod refuting;
mod sent_from_id;
mod sent_with_invoke_id;
pub mod worked;

pub use first_kinds::{faulty_component, first_kind, kind_of_reason};
pub use judging::is_limit;
pub use kind::{Kind, Refutation};
pub use refuting::{SearchFault, refute};
pub use sent_from_id::FromId;
