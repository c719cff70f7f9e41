//! Books (table sets): the operation table of each dialogue, and the names of operations.
#![tactic(auto)]

mod bare;
mod book;
mod book_text;
mod carried;
mod dotted;
mod fault;
mod names;

pub use book::{AMBIGUOUS, Book, CLASH, Context, NamedTable};
pub use carried::CARRIED_BOOK;
pub use fault::BookFault;
