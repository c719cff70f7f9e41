//! The parts of TCAP messages (Q.773): components, and the PDUs of dialogue portions. A reader returns a view that
//! borrows the octets, and a view can be copied into an owned value.
#![tactic(auto)]

mod code;
mod component;
mod components;
mod dialogue;
mod dialogue_reading;
mod dialogue_writing;
mod info;
mod portion;
mod problem;
mod reading;
mod short_integer;
mod tags;
mod writing;

pub use code::{Code, CodeView};
pub use component::{Component, ComponentView, ResultBody, ResultBodyView};
pub use components::{Components, OctetComponents};
pub use dialogue::{Dialogue, DialogueView, Source, SourceView};
pub use dialogue_reading::view_dialogue;
pub use dialogue_writing::{len_dialogue, write_dialogue};
pub use info::{Info, InfoView};
pub use portion::{OctetPortion, Portion, PortionView};
pub use problem::{Problem, ProblemView};
pub use reading::view_component;
pub use writing::{len_components, write_components};
