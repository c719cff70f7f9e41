//! Reads a dialogue with a malformed message as the records that the end which received it may have taken it for (Q.774
//! 3.2.1, 3.2.2.2, 3.3.4).
#![tactic(auto)]

mod malformed;
mod reactions;
mod readings;
mod rejects;
mod transaction;
mod way;

pub use malformed::{Malformed, first_malformed, next_malformed, read_malformed, within_limits};
pub use reactions::{Reaction, answer, goes_on_at, is_in_doubt};
pub use readings::{Reading, copy_entries, read_by};
pub use transaction::{is_sole, is_wrong_at};
pub use way::Way;
