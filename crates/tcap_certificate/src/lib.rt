//! Certificates, which say what became of each message of a record (Q.774 3.2 and 3.3). Definitions and worked runs
//! show which run a certificate gives for both ends or for one.
#![tactic(auto)]

mod certificate;
mod fault;
pub mod worked_one_end;
pub mod worked_refusals;
pub mod worked_replays;
pub mod worked_runs;

pub use certificate::{Certificate, Closing, Expiry, FATES_LIMIT, Fate, NUMBER_LIMIT};
pub use fault::CheckFault;
pub use tcap_model::Reason;
