//! Judges a dialogue of a trace of TCAP messages, for `tcapjudge test`.
#![tactic(auto)]

mod before_marks;
mod case;
mod directive;
mod doubts;
mod end_result;
mod judging;
pub mod laws;
mod pieces;
mod reaction;
mod table_choice;
mod trace_line;
mod unreadable_entries;
mod verdict;

pub use before_marks::{BeforeMarks, InUse};
pub use case::{Case, JudgedDialogue, MOST, NextItem, Rules, TraceEntry, begins, judge, sent_by};
pub use directive::{Directive, directive_of};
pub use end_result::{Circumstances, Doubt, EndResult, ReactionFault, Taken};
pub use judging::{Ends, judge_dialogue};
pub use pieces::{FormRule, LineRule, Piece, PieceFault, PieceReader};
pub use reaction::judge_reaction;
pub use table_choice::context_in;
pub use unreadable_entries::Unread;
pub use verdict::{Verdict, trace_verdict};
