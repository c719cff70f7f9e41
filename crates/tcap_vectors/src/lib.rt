//! Test data that several test programs share: messages of each kind with their expected output, octets spelled by
//! words, and a device that fails in mid-stream.
#![tactic(auto)]

mod failing;
mod octets;
mod vectors;

pub use failing::Failing;
pub use octets::octets_of;
pub use vectors::{VECTORS, vector};
