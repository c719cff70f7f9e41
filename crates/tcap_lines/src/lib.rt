//! The commands `tcapjudge show` and `tcapjudge pack`: printing a record as lines, and packing lines into a record.
//! Also the line of a fault, and the status of a run.
#![tactic(auto)]

mod fault_lines;
mod packing;
mod showing;
mod status;
mod stop;

pub use fault_lines::{MEMORY_LINE, write_fault, write_line};
pub use packing::run_pack;
pub use showing::run_show;
pub use status::{Status, WriteFailed};
pub use stop::Stop;
