//! The faults of an operation table, or of a table set, in words.
//!
//! Each function that returns `AllocError` does so if memory runs out.

use serde_json::{Map, Value};
use std::alloc::{AllocError, Global};
use tcap_ber::ObjectIdView;
use tcap_books::BookFault;
use tcap_end::{TableFault, TableReason};
use tcap_record::push_fault;

/// The keys of a table. Only a table of a set may have the last two.
static TABLE_KEYS: [&str; 4] = ["operations", "prearranged", "name", "contexts"];

/// The keys of a row. Only a row of a table set may have the last.
static ROW_KEYS: [&str; 5] = ["class", "code", "expires", "linked", "name"];

/// Returns the keys that a table may have.
fn table_keys(in_book: bool) -> &'static [&'static str] {
    if in_book {
        &TABLE_KEYS
    } else {
        &TABLE_KEYS[..2]
    }
}

/// Returns the keys that a row may have.
fn row_keys(in_book: bool) -> &'static [&'static str] {
    if in_book { &ROW_KEYS } else { &ROW_KEYS[..4] }
}

/// The most codes in a row's list of linked operations.
const LINKED_LIMIT: usize = 1000;

/// Returns whether a key is one of these.
fn is_one_of(keys: &[&str], key: &str) -> bool {
    keys.contains(&key)
}

/// Returns the first key of an object that is not one of these.
fn other_key<'a>(keys: &[&str], members: &'a Map<String, Value>) -> Option<&'a str> {
    for key in members.keys() {
        if !is_one_of(keys, key) {
            return Some(key.as_str());
        }
    }
    None
}

/// Returns whether a text is the digits of a global code.
pub(crate) fn is_global(alloc: Global, digits: &str) -> Result<bool, AllocError> {
    match hex::decode(alloc, digits) {
        Ok(octets) => Ok(ObjectIdView::new(&octets).is_some()),
        Err(hex::FromHexError::OutOfMemory) => Err(AllocError),
        Err(_) => Ok(false),
    }
}

/// Returns whether a value is a code.
fn is_code(alloc: Global, value: &Value) -> Result<bool, AllocError> {
    if let Some(digits) = value.as_str() {
        return is_global(alloc, digits);
    }
    let whole = value.as_number().and_then(|number| number.as_i128());
    Ok(whole.is_some_and(|whole| i32::try_from(whole).is_ok()))
}

/// Returns the fault of a value of `linked`, if there is one.
fn linked_trouble(alloc: Global, value: &Value) -> Result<Option<&'static str>, AllocError> {
    let Some(codes) = value.as_array() else {
        return Ok(Some("\"linked\" is no list"));
    };
    if codes.len() > LINKED_LIMIT {
        return Ok(Some("\"linked\" has over 1,000 codes"));
    }
    for code in codes {
        if !is_code(alloc, code)? {
            return Ok(Some("\"linked\" has what is no code"));
        }
    }
    Ok(None)
}

/// Returns the fault of the values of a row.
fn values_trouble(alloc: Global, row: &Value) -> Result<&'static str, AllocError> {
    let Some(code) = row.get("code") else {
        return Ok("\"code\" is missing");
    };
    let Some(class) = row.get("class") else {
        return Ok("\"class\" is missing");
    };
    if class
        .as_number()
        .and_then(|number| number.as_i128())
        .is_none()
    {
        return Ok("\"class\" is no whole number");
    }
    if row
        .get("expires")
        .is_some_and(|value| value.as_bool().is_none())
    {
        return Ok("\"expires\" is neither true nor false");
    }
    if !is_code(alloc, code)? {
        return Ok(
            "\"code\" is neither a whole number of 32 bits nor the digits of an OBJECT IDENTIFIER",
        );
    }
    if let Some(linked) = row.get("linked") {
        if let Some(trouble) = linked_trouble(alloc, linked)? {
            return Ok(trouble);
        }
    }
    Ok("it has not the shape of a row")
}

/// Appends that a key is not allowed. The key is written as a JSON text.
fn push_other(alloc: Global, text: &mut String, key: &str) -> Result<(), AllocError> {
    let key = Value::String(String::from_str(alloc, key)?).to_string(alloc)?;
    write!(text, "no key {key} may stand there")
}

/// Appends the fault in the shape of a row.
fn push_row_shape(
    alloc: Global,
    text: &mut String,
    row: &Value,
    in_book: bool,
) -> Result<(), AllocError> {
    let Some(members) = row.as_object() else {
        return text.push_str("the row is no object");
    };
    if let Some(key) = other_key(row_keys(in_book), members) {
        return push_other(alloc, text, key);
    }
    text.push_str(values_trouble(alloc, row)?)
}

/// Appends the fault in the shape of a table, its rows aside.
fn push_table_shape(
    alloc: Global,
    text: &mut String,
    table: &Value,
    in_book: bool,
) -> Result<(), AllocError> {
    let Some(members) = table.as_object() else {
        return text.push_str("the table is no object");
    };
    if let Some(key) = other_key(table_keys(in_book), members) {
        return push_other(alloc, text, key);
    }
    match table.get("operations") {
        None => text.push_str("\"operations\" is missing"),
        Some(rows) if rows.as_array().is_none() => text.push_str("\"operations\" is no list"),
        Some(_) => text.push_str("\"prearranged\" is neither true nor false"),
    }
}

/// Returns whether a table has the right shape, its rows aside. If so, a fault of shape is in a row.
fn is_whole(table: &Value, in_book: bool) -> bool {
    let Some(members) = table.as_object() else {
        return false;
    };
    other_key(table_keys(in_book), members).is_none()
        && table
            .get("operations")
            .is_some_and(|rows| rows.as_array().is_some())
        && table
            .get("prearranged")
            .is_none_or(|value| value.as_bool().is_some())
}

/// Returns the item `number` of a list.
fn item_of(list: Option<&Value>, number: u64) -> Option<&Value> {
    list?.as_array()?.get(usize::try_from(number).ok()?)
}

/// Appends the numbers of a table and a row, if they are given.
fn push_place(text: &mut String, table: Option<u64>, row: Option<u64>) -> Result<(), AllocError> {
    match (table, row) {
        (None, None) => Ok(()),
        (None, Some(row)) => write!(text, "row {row}; "),
        (Some(table), None) => write!(text, "table {table}: "),
        (Some(table), Some(row)) => write!(text, "table {table}, row {row}: "),
    }
}

/// Appends the fault of a table. `number` is its number in a set, and `table` its JSON.
fn push_of_table(
    alloc: Global,
    text: &mut String,
    fault: TableFault,
    number: Option<u64>,
    table: &Value,
) -> Result<(), AllocError> {
    let in_book = number.is_some();
    if fault.reason == TableReason::TooManyRows {
        push_place(text, number, None)?;
        return text.push_str("there are over 1,000 rows");
    }
    if !is_whole(table, in_book) {
        push_place(text, number, None)?;
        return push_table_shape(alloc, text, table, in_book);
    }
    push_place(text, number, Some(fault.place))?;
    let Some(row) = item_of(table.get("operations"), fault.place) else {
        return text.push_str("there is no such row");
    };
    match fault.reason {
        TableReason::BadClass => text.push_str("\"class\" is not 1, 2, 3 or 4"),
        TableReason::DoubleCode => text.push_str("an earlier row has this \"code\""),
        _ => push_row_shape(alloc, text, row, in_book),
    }
}

/// Appends the fault of a table set or of a single table. `book` is its JSON.
fn push_of_book(
    alloc: Global,
    text: &mut String,
    fault: BookFault,
    book: &Value,
) -> Result<(), AllocError> {
    let tables = book.get("tables");
    match fault {
        BookFault::Table(_, fault) if tables.is_none() => {
            push_of_table(alloc, text, fault, None, book)
        }
        BookFault::Table(number, of_table) => match item_of(tables, number) {
            Some(table) => push_of_table(alloc, text, of_table, Some(number), table),
            None => write!(text, "{fault}"),
        },
        _ => write!(text, "{fault}"),
    }
}

/// Returns the number of a fault's reason, and the number of the row, or 0 if no row has the fault.
fn line_of(fault: BookFault) -> (u8, u64) {
    match fault {
        BookFault::NotJson => (TableReason::NotJson.number(), 0),
        BookFault::TooManyTables => (TableReason::TooManyRows.number(), 0),
        BookFault::Table(_, fault) => (fault.reason.number(), fault.place),
        BookFault::RowName(_, row) => (TableReason::TableShape.number(), row),
        _ => (TableReason::TableShape.number(), 0),
    }
}

/// Appends the line of a fault of a table set or a table, and the line that explains it. `book` is its JSON, if the
/// text is JSON.
pub(crate) fn push_book_fault(
    alloc: Global,
    text: &mut String,
    fault: BookFault,
    book: Option<&Value>,
) -> Result<(), AllocError> {
    let (number, place) = line_of(fault);
    push_fault(text, number, place)?;
    text.push_str("  why: ")?;
    match book {
        Some(book) => push_of_book(alloc, text, fault, book)?,
        None => text.push_str("the text is no JSON")?,
    }
    text.push_str("\n")
}
