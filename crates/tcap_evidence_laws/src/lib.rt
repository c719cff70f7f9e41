//! Laws of what the entries listed as grounds show about a fault (Q.771, Q.774).
#![tactic(auto)]

pub mod laws;
