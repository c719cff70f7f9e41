//! Records of TCAP messages: entries one after the other. An entry is an end's octet and one element, usually a
//! message, or a quiet mark.
#![tactic(auto)]

mod component_lines;
mod digits;
mod entry;
mod entry_lines;
mod entry_octets;
mod fault;
mod feeder;
mod frames;
mod lending;
mod lines;
mod numbers;
mod packing;
mod printing;
mod reading;

pub use component_lines::{push_code, push_component};
pub use digits::push_hex;
pub use entry::{Body, BodyView, End, Entry, EntryView, Record};
pub use entry_lines::{push_fault, push_view};
pub use fault::{FeedFault, FeedReason};
pub use feeder::Feeder;
pub use frames::Frames;
pub use lines::push_head;
pub use packing::{LINE_LIMIT, LINES_LIMIT, Line, LineFault, PackFault, pack, read_line};
pub use printing::{ShowFault, show};
pub use reading::{PIECE_LEN, read_record};
