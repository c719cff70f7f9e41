//! Prints an operation table or a table set.

ghost use Rattle.std.specs.Prelude.{◌≡◌, ℕ, List, Ok, Err, IfOk, OnOk, OnErr};
ghost use Rattle.std.specs.Io.KnownBytes.{Consumes, IsAtEnd};
ghost use Rattle.tcap_ber.specs.Device.{one_more};
ghost use Rattle.tcap_diagnostics.specs.Tables.{IsTableText};
ghost use Rattle.tcap_lines.specs.declared.status.Status.{Status};

use crate::code_hints::{push_code_hints, push_unlisted};
use crate::table_faults::push_book_fault;
use crate::table_rows::push_book;
use serde_json::Value;
use std::alloc::{AllocError, Global};
use tcap_ber::{Failed, Read, Write};
use tcap_books::{Book, BookFault, CLASH};
use tcap_end::TableReason;
use tcap_lines::{MEMORY_LINE, Status, WriteFailed};
use tcap_record::{FeedReason, PIECE_LEN, push_fault};

/// The most octets of a table.
const TABLE_LIMIT: usize = 67_108_864;

/// The reason why a text was not read.
#[derive(Clone, Copy, PartialEq, Eq)]
enum TextFault {
    /// The text is longer than the limit.
    TooLong,
    /// The reader failed after this many octets.
    Read(u64),
    /// Memory ran out.
    Memory,
}

impl From<AllocError> for TextFault {
    fn from(_: AllocError) -> TextFault {
        TextFault::Memory
    }
}

/// Reads all octets of `reader`, at most `TABLE_LIMIT`.
fn read_text<R: Read>(alloc: Global, reader: &mut R) -> Result<Vec<u8>, TextFault>
    ensures returned { IfOk result (λ text. Consumes (R.remaining reader.old) (R.remaining reader.new) text.items
        × IsAtEnd (R.remaining reader.new)) }
{
    let mut piece = [0; PIECE_LEN];
    let mut text = Vec::new(alloc);
    for _ in 0..u64::MAX {
        let returned = match reader.read(&mut piece) {
            Ok(0) => return Ok(text),
            Ok(returned) => returned,
            Err(Failed) => return Err(TextFault::Read(text.len() as u64)),
        };
        if returned > TABLE_LIMIT.saturating_sub(text.len()) {
            return Err(TextFault::TooLong);
        }
        text.extend_from_slice(&piece[..returned])?;
    }
    Err(TextFault::TooLong)
}

/// Parses a JSON text. None if it is no JSON, `AllocError` if memory runs out.
fn value_of(alloc: Global, octets: &[u8]) -> Result<Option<Value>, AllocError> {
    match Value::from_slice(alloc, octets) {
        Ok(value) => Ok(Some(value)),
        Err(error) if error.is_memory() => Err(AllocError),
        Err(_) => Ok(None),
    }
}

/// Appends which two tables of a set have the same context, if two have. Returns the status of the run.
fn push_clash(text: &mut String, book: &Book) -> Result<Status, AllocError> {
    let Some(pair) = book.clash() else {
        return Ok(Status::Fine);
    };
    write!(text, "error: {CLASH}: ")?;
    book.push_pair(text, pair)?;
    text.push_str("\n")?;
    Ok(Status::Fault)
}

/// Appends the lines of a table set, or of its fault, and the hints. Returns the status of the run.
#[tactic(auto, using(crate::proofs::TableLaws::text_of_book))]
fn push_text(
    alloc: Global,
    text: &mut String,
    hints: &mut String,
    octets: &[u8],
) -> Result<Status, AllocError>
    ensures table { result ≡ Ok Status.Fine → IsTableText octets.now }
{
    let value = value_of(alloc, octets)?;
    if let Some(value) = &value {
        push_code_hints(alloc, hints, None, value)?;
    }
    match Book::from_json(alloc, octets) {
        Ok(book) => {
            if let Some(value) = &value {
                push_book(alloc, text, &book, value)?;
                push_unlisted(alloc, hints, None, value)?;
            }
            push_clash(hints, &book)
        }
        Err(BookFault::Memory) => Err(AllocError),
        Err(fault) => {
            push_book_fault(alloc, text, fault, value.as_ref())?;
            Ok(Status::Fault)
        }
    }
}

/// Appends the text to print for the result of reading.
fn push_read(
    alloc: Global,
    text: &mut String,
    hints: &mut String,
    read: Result<Vec<u8>, TextFault>,
) -> Result<Status, AllocError>
    ensures table { result ≡ Ok Status.Fine → IfOk read (λ octets. IsTableText octets.items) }
    ensures read { OnErr read (result ≡ Ok Status.Fine → ⊥) }
{
    match read {
        Ok(octets) => push_text(alloc, text, hints, &octets),
        Err(TextFault::Memory) => Err(AllocError),
        Err(TextFault::TooLong) => {
            push_fault(text, TableReason::NotJson.number(), 0)?;
            text.push_str("  why: the text has over 67,108,864 octets\n")?;
            Ok(Status::Fault)
        }
        Err(TextFault::Read(place)) => {
            push_fault(text, FeedReason::Read.number(), place)?;
            text.push_str("  why: the reader failed\n")?;
            Ok(Status::Fault)
        }
    }
}

/// Prints an operation table or a table set: a line for each row, ordered by code; or the line of its fault and a line
/// that explains it.
///
/// `faults` receives hints: codes that may be meant as numbers, linked codes that no row has, and two tables with one
/// context. A failure of `faults` is ignored. The status says whether a fault was printed, or two tables have one
/// context. If memory runs out, only that fault is printed.
///
/// # Errors
/// `WriteFailed` if `writer` fails in this call.
pub fn run_table<R: Read, W: Write, F: Write>(
    alloc: Global,
    reader: &mut R,
    writer: &mut W,
    faults: &mut F,
) -> Result<Status, WriteFailed>
    // If the status is fine, all octets of the reader are the text of an operation table or of a table set.
    ensures table { result ≡ Ok Status.Fine → (returned : List ℕ)
        × Consumes (R.remaining reader.old) (R.remaining reader.new) returned × IsAtEnd (R.remaining reader.new)
        × IsTableText returned }
    ensures counts { OnOk result (W.failures writer.new ≡ W.failures writer.old) }
    ensures failed { OnErr result (W.failures writer.new ≡ one_more (W.failures writer.old)) }
{
    let read = read_text(alloc, reader);
    let mut text = String::new(alloc);
    let mut hints = String::new(alloc);
    match push_read(alloc, &mut text, &mut hints, read) {
        Ok(status) => {
            writer.write_all(text.as_bytes()).map_err(|_| WriteFailed)?;
            let _ = faults.write_all(hints.as_bytes());
            Ok(status)
        }
        Err(AllocError) => {
            writer
                .write_all(MEMORY_LINE.as_bytes())
                .map_err(|_| WriteFailed)?;
            Ok(Status::Fault)
        }
    }
}

/// Appends hints on codes that may be meant as numbers, and on linked codes that no row has. Appends nothing if the
/// text is no JSON.
fn push_codes(
    alloc: Global,
    text: &mut String,
    path: &str,
    octets: &[u8],
) -> Result<(), AllocError> {
    match value_of(alloc, octets)? {
        Some(value) => {
            push_code_hints(alloc, text, Some(path), &value)?;
            push_unlisted(alloc, text, Some(path), &value)
        }
        None => Ok(()),
    }
}

/// Writes the hints that `run_table` gives on codes, each with `path`. Writes nothing if there are none, or if memory
/// runs out.
///
/// # Errors
/// `WriteFailed` if the writer fails in this call.
pub fn write_code_hints<W: Write>(
    alloc: Global,
    path: &str,
    table: &[u8],
    writer: &mut W,
) -> Result<(), WriteFailed>
    ensures counts { OnOk result (W.failures writer.new ≡ W.failures writer.old) }
    ensures failed { OnErr result (W.failures writer.new ≡ one_more (W.failures writer.old)) }
{
    let mut text = String::new(alloc);
    match push_codes(alloc, &mut text, path, table) {
        Ok(()) => writer.write_all(text.as_bytes()).map_err(|_| WriteFailed),
        Err(AllocError) => Ok(()),
    }
}
