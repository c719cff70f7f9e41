//! The evidence for a fault of an end of TCAP dialogues: the entries of a record that show it, and their text (Q.771,
//! Q.773, Q.774).
#![tactic(auto)]

mod evidence_lines;
mod finding;
mod listing;
mod mark;
mod operation_lines;
mod operations;
mod pairing;
mod scene;
mod sent;
mod shown_by_kind;
mod shown_facts;
mod unblamed;
mod words;

pub use evidence_lines::{push_evidence, push_fact, push_fault, push_sentence, push_why};
pub use finding::{Evidence, Ground, component_at, find_evidence};
pub use operations::Invocation;
pub use shown_facts::ShownFact;
pub use unblamed::push_unblamed;
