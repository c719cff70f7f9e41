//! Finds the dialogues of a record of two ends (Q.774 3.3), with laws that carry over what holds for the record to each
//! dialogue.
#![tactic(auto)]

mod complete_dialogue;
mod cut;
mod free_ids;
mod heading;
mod join;
mod known_ids;
pub mod laws;
mod live;
mod malformed;
mod reuse;

pub use complete_dialogue::CompleteDialogue;
pub use cut::Cut;
pub use heading::{HeadingView, dialogue_after_ids, heading_of_message, read_heading};
pub use malformed::{SoundPart, sound_part};
pub use reuse::Reuse;
