//! Finds what an end of TCAP dialogues did wrong, no matter what its peer did (Q.771, Q.773, Q.774). Each kind of
//! fault is a fact about a list of messages that can be checked by hand.
#![tactic(auto)]

mod component;
mod dialogue;
pub mod laws;
mod transaction;
mod verdict;

pub use component::component_sort::{Class, Sort};
pub use dialogue::half_origin::HalfOrigin;
pub use verdict::fault_subject::{Subject, subject_of};
pub use verdict::first_fault::{BlamedEnds, blame, blame_both};
pub use verdict::unblamed::unblamed;
pub use verdict::unblamed_reason::{Tangle, TangledId, Unblamed};
