//! Reads traces for `tcapjudge test` and reports the verdicts on their dialogues as text, JSON, JUnit XML and an HTML
//! page.
#![tactic(auto)]

mod awaited_answers;
mod case_names;
mod context_notes;
mod doubt_words;
mod end_names;
mod end_runs;
mod ending;
mod fault;
mod fields;
mod grounds;
mod headline;
mod json;
mod junit;
pub mod laws;
mod listed_entries;
mod messages;
mod no_message;
mod order;
mod page;
mod passing;
mod places;
mod reaction_words;
mod reason;
mod reason_codes;
mod run;
mod sinks;
mod sum;
mod text;
mod trace;
mod trace_notes;
mod trace_reader;
mod unheard;
mod used_again;
mod watch;
mod xml;

pub use ending::report_unread;
pub use fault::Stop;
pub use junit::{Junit, NOT_ENDED};
pub use page::Page;
pub use run::{Opened, Traces, run_test};
pub use sinks::{Lines, Sinks};
pub use sum::Sum;
pub use trace::{TraceOptions, run_trace};
pub use watch::{NoWatch, Watch};
