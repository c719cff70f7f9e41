//! Explains verdicts in words: the run that shows a record lawful, step by step, and why a record is refuted or
//! undecided or an end is blamed (Q.774 3.2 and 3.3).
#![tactic(auto)]

mod chart;
mod explaining;
mod faults;
mod half_states;
mod indenting;
mod reasons;
mod refused_component;
mod refuted_text;
mod runs;
mod step_lines;
mod stops;

pub use explaining::{ExplainOptions, run_explain, run_explain_check};
