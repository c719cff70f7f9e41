//! The runs of `tcapjudge` that judge a record, over readers and writers, and their outcomes as values.
#![tactic(auto)]

mod blaming;
mod checking;
mod each_end;
mod findings;
mod judging;
pub mod laws;
mod outcome;
mod table_and_certificate;
mod text_reading;
mod verdicts;

pub use blaming::{Blame, blame_outcome, blame_record, find_both, run_blame};
pub use checking::{check_outcome, run_check};
pub use findings::{Ends, Finding, blame_status, comes_after, push_finding};
pub use judging::{judge_outcome, run_judge};
pub use outcome::{OUT_OF_MEMORY, Outcome, inner_number, push_outcome, write_outcome};
pub use table_and_certificate::{read_certificate, read_table};
pub use tcap_certificate_text::CertificateText;
pub use tcap_command_line::{Request, WordsFault, request};
pub use tcap_lines::{Status, WriteFailed, run_pack, run_show};
pub use verdicts::{RecordVerdict, judge_record, named, propose, replay};
