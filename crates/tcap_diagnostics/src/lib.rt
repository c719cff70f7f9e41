//! Explains faults in words: the part of a message with a fault, the rule that a line of digits breaks, and files given
//! by mistake. Also prints operation tables.
#![tactic(auto)]

mod code_hints;
mod fault_reasons;
mod fault_writer;
mod first_octets;
mod hints;
mod line_reader;
mod lines;
mod names;
mod octets_around;
mod part_tables;
mod parts;
mod path;
mod rules;
mod showing;
mod table_faults;
mod table_rows;
mod tables;

pub use fault_reasons::run_why;
pub use fault_writer::FaultWriter;
pub use first_octets::FirstOctets;
pub use hints::{Role, hint_of, write_hint};
pub use line_reader::LineReader;
pub use lines::run_lines;
pub use names::name_of;
pub use rules::{BrokenRule, broken_by, push_broken_rule, write_rule};
pub use tables::{run_table, write_code_hints};
