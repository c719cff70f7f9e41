//! The model of two TCAP ends over two channels: worlds, events and runs (Q.771, Q.774). It defines the lists of
//! messages that two lawful ends, or one, may have sent, and has laws over all runs.
#![tactic(auto)]

pub mod laws;
mod reason;

pub use reason::Reason;
