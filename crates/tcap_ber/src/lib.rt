//! The basic encoding rules (X.690) as far as TCAP needs them: elements, the walk over an element, and devices to read
//! octets from and write them to.
#![tactic(auto)]

mod counted;
mod device;
mod element;
mod fault;
mod header;
mod innermost;
mod integers;
mod nulls;
mod object_ids;
mod progress;
mod put;
mod raw;
mod small_numbers;
mod to_end;
mod unopened_device;
mod walk;
mod window;

pub use counted::Counted;
pub use device::{Failed, Read, Write};
pub use element::{Outer, Tag, Tlv, Window};
pub use fault::{Fault, Reason};
pub use header::CONTENT_LIMIT;
pub use integers::{integer, octet_integer, small_integer};
pub use nulls::null;
pub use object_ids::{ObjectId, ObjectIdView, object_id};
pub use progress::DEPTH_LIMIT;
pub use put::{element_len, header_len, integer_len, put_element, put_header, put_integer};
pub use raw::{Raw, RawView};
pub use small_numbers::{Small, SmallView, small_number};
pub use to_end::{ReadError, read_to_end};
pub use unopened_device::Unopened;
pub use walk::Walk;
pub use window::{begins_with, content_so_far, ended, next_tlv, outer, required, required_any};
