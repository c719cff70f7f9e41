//! Replay of certificates over a record, for both ends or for one, and what is proved of all that certificates give
//! (Q.774 3.2 and 3.3).
#![tactic(auto)]

mod buckets;
mod checker;
mod deliveries;
mod entries_taken;
pub mod given_run_laws;
mod held_message;
mod listed_steps;
mod losses;
mod marks;
pub mod one_end_laws;
mod outline;
mod plan;
mod progress;
mod records;
mod replaying;
mod runs;
mod sent_messages;
mod step;
mod steps;
pub mod worked_partial_replays;

pub use buckets::Buckets;
pub use checker::{Checker, Report};
pub use listed_steps::ListedStep;
pub use plan::Plan;
pub use records::check;
pub use runs::{Partial, run_of, run_until};
pub use step::Step;
pub use tcap_certificate::{Certificate, CheckFault, Closing, Expiry, Fate};
pub use tcap_model::Reason;
