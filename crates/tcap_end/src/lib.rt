//! One end of TCAP dialogues: which messages it may send, and how the messages that it receives change it (Q.771,
//! Q.774).
#![tactic(auto)]

mod changes;
mod class;
mod dialogues;
mod end_beginning;
mod end_hidden;
mod end_receiving;
mod end_replies;
mod end_sending;
mod end_state;
mod fault;
mod half;
mod half_components;
mod half_receiving;
mod half_sending;
mod half_state;
mod half_view;
mod halves;
pub mod laws;
mod own_invocations;
mod places;
mod received;
mod table;
mod table_text;
mod unidirectional;

pub use class::{reports, reports_neither};
pub use dialogues::{accepts_dialogue, is_request, is_response, is_user_abort, refuses_dialogue};
pub use end_state::EndState;
pub use fault::EndFault;
pub use half::{DialogueState, HalfName, InvocationState, Phase, Slot};
pub use half_view::OpenHalf;
pub use table::{Table, TableFault, TableReason};
pub use table_text::has_only;
