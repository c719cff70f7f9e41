//! Searches for a certificate of a record of TCAP messages: five rules propose one certificate. The result is not
//! trusted: `tcap_check` replays it.
#![tactic(auto)]

mod by_invocation;
mod candidates;
mod certificate_so_far;
mod closings;
mod end_values;
mod expiries;
mod fates;
mod leasts;
mod proposals;
mod searching;
mod stacks;
mod sweep;
mod tie;
mod ties;
mod transactions;
mod unanswered;
pub mod worked;

pub use proposals::{Proposals, search_each};
pub use searching::{search, search_for};
pub use tcap_refute::{Kind, Refutation, SearchFault, refute};
