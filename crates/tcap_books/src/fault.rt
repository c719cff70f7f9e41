//! The reasons why a text is not a book.

ghost use Rattle.std.specs.Prelude.{◌≡◌};
ghost use Rattle.tcap_books.specs.declared.fault.BookFault.TheVariants as BookFault;

use std::alloc::AllocError;
use std::fmt;
use tcap_end::{TableFault, TableReason};

/// The reason why a text is not a book. Tables, and the rows of each, are counted from 0.
#[derive(Clone, Copy, Debug, PartialEq, Eq)]
pub enum BookFault {
    /// The text is not JSON (RFC 8259), or not UTF-8.
    NotJson,
    /// The book has a key other than `"tables"`.
    OtherKey,
    /// `"tables"` is not a list, or is empty.
    NoTables,
    /// There are more than 100 tables, this profile's limit.
    TooManyTables,
    /// The table with this number has this fault. A text without `"tables"` is table 0.
    Table(u64, TableFault),
    /// The name of the table with this number is not a string.
    TableName(u64),
    /// The contexts of the table with this number are not a list of strings of hex digits, two for each octet, or of
    /// dotted numbers.
    Contexts(u64),
    /// The name of a row is not a string. The first number is that of the table, the second that of the row.
    RowName(u64, u64),
    /// Memory ran out.
    Memory,
}

impl From<AllocError> for BookFault {
    ghost from_gives = { λ _ fault. fault ≡ BookFault.Memory };

    fn from(_: AllocError) -> BookFault {
        BookFault::Memory
    }
}

/// Returns the words for a fault of a table.
fn words_of(reason: TableReason) -> &'static str {
    match reason {
        TableReason::NotJson => "the text is no JSON",
        TableReason::TableShape => "it has not the shape of a table, or of a row",
        TableReason::DoubleCode => "an earlier row has this \"code\"",
        TableReason::BadClass => "\"class\" is not 1, 2, 3 or 4",
        TableReason::TooManyRows => "there are over 1,000 rows",
        TableReason::Memory => "out of memory",
    }
}

impl fmt::Display for BookFault {
    fn fmt<W: fmt::Write>(&self, f: &mut fmt::Formatter<W>) -> fmt::Result {
        match self {
            BookFault::NotJson => f.write_str("the text is no JSON, or not UTF-8"),
            BookFault::OtherKey => f.write_str("beside \"tables\" the book has another key"),
            BookFault::NoTables => f.write_str("\"tables\" is no list, or an empty one"),
            BookFault::TooManyTables => f.write_str("there are over 100 tables"),
            BookFault::Table(table, fault) => {
                write!(
                    f,
                    "table {table}, row {}: {}",
                    fault.place,
                    words_of(fault.reason)
                )
            }
            BookFault::TableName(table) => write!(f, "table {table}: \"name\" is no text"),
            BookFault::Contexts(table) => write!(
                f,
                "table {table}: \"contexts\" is no list of hex digits, two for each octet, or dotted numbers"
            ),
            BookFault::RowName(table, row) => {
                write!(f, "table {table}, row {row}: \"name\" is no text")
            }
            BookFault::Memory => f.write_str("out of memory"),
        }
    }
}
