//! The HTML page that the program writes: its frame, and the texts, fields and entries of the JSON objects in it.
#![tactic(auto)]

mod entry;
mod frame;
mod json;

pub use entry::{push_component, push_entry};
pub use frame::{FRAME_HEAD, FRAME_TAIL};
pub use json::{push_flag, push_named, push_numbers, push_octets, push_text};
