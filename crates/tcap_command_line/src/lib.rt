//! Reads the command line of `tcapjudge`.
#![tactic(auto)]

mod command_line;
mod requests;
mod words;

pub use command_line::VERSION;
pub use requests::{Ids, Request, Test};
pub use words::{WordsFault, request};
