//! The rows of operation tables, as lines of text.
//!
//! Each function returns `AllocError` if memory runs out.

use serde_json::Value;
use std::alloc::{AllocError, Global};
use std::collections::BTreeMap;
use tcap_ber::ObjectIdView;
use tcap_books::{Book, NamedTable};
use tcap_end::Table;
use tcap_parts::CodeView;
use tcap_record::push_hex;

/// The numbers of a table's rows, ordered by code: first local codes by number, then global codes by octets.
#[derive(Drop)]
pub(crate) struct Order {
    locals: BTreeMap<i32, usize>,
    globals: BTreeMap<Vec<u8>, usize>,
}

impl Order {
    /// Returns whether a row has this code. A value that is no code counts as found.
    pub(crate) fn has(&self, alloc: Global, code: &Value) -> Result<bool, AllocError> {
        if let Some(local) = local_of(code) {
            return Ok(self.locals.contains_key(&local));
        }
        match global_of(alloc, code)? {
            Some(octets) => Ok(self.globals.contains_key(&octets)),
            None => Ok(true),
        }
    }
}

/// Returns the number in a value that is a local code.
fn local_of(value: &Value) -> Option<i32> {
    i32::try_from(value.as_number()?.as_i128()?).ok()
}

/// Returns the octets in a value that is a global code.
fn global_of(alloc: Global, value: &Value) -> Result<Option<Vec<u8>>, AllocError> {
    let Some(digits) = value.as_str() else {
        return Ok(None);
    };
    match hex::decode(alloc, digits) {
        Ok(octets) => Ok(Some(octets)),
        Err(hex::FromHexError::OutOfMemory) => Err(AllocError),
        Err(_) => Ok(None),
    }
}

/// Appends a code.
fn push_code(alloc: Global, text: &mut String, value: &Value) -> Result<(), AllocError> {
    if let Some(local) = local_of(value) {
        return write!(text, "{local}");
    }
    if let Some(octets) = global_of(alloc, value)? {
        text.push_str("g:")?;
        push_hex(text, &octets)?;
    }
    Ok(())
}

/// Appends the linked codes, in the order of the table.
fn push_linked(alloc: Global, text: &mut String, codes: &[Value]) -> Result<(), AllocError> {
    for (number, code) in codes.iter().enumerate() {
        text.push_str(if number == 0 { " linked=" } else { "," })?;
        push_code(alloc, text, code)?;
    }
    Ok(())
}

/// Orders rows by their codes.
pub(crate) fn order_of(alloc: Global, rows: &[Value]) -> Result<Order, AllocError> {
    let mut order = Order {
        locals: BTreeMap::new(alloc),
        globals: BTreeMap::new(alloc),
    };
    for (number, row) in rows.iter().enumerate() {
        let Some(code) = row.get("code") else {
            continue;
        };
        if let Some(local) = local_of(code) {
            order.locals.insert(local, number)?;
        } else if let Some(octets) = global_of(alloc, code)? {
            order.globals.insert(octets, number)?;
        }
    }
    Ok(order)
}

/// Appends the name of a table or a row as a JSON text, if it has one.
fn push_name(alloc: Global, text: &mut String, named: &Value) -> Result<(), AllocError> {
    if let Some(name) = named.get("name") {
        let name = name.to_string(alloc)?;
        text.push_str(" name=")?;
        text.push_str(&name)?;
    }
    Ok(())
}

/// Appends the line of an operation's row.
fn push_row(
    alloc: Global,
    text: &mut String,
    table: &Table,
    code: CodeView,
    row: &Value,
) -> Result<(), AllocError> {
    if let Some(class) = table.class_of(code) {
        text.push_str("op=")?;
        if let Some(value) = row.get("code") {
            push_code(alloc, text, value)?;
        }
        write!(text, " class={class}")?;
        if let Some(codes) = row.get("linked").and_then(Value::as_array) {
            push_linked(alloc, text, codes)?;
        }
        if !table.expires(code) {
            text.push_str(" expires=false")?;
        }
        push_name(alloc, text, row)?;
        text.push_str("\n")?;
    }
    Ok(())
}

/// Appends the lines of the rows, ordered by code.
fn push_ordered(
    alloc: Global,
    text: &mut String,
    table: &Table,
    rows: &[Value],
) -> Result<(), AllocError> {
    let order = order_of(alloc, rows)?;
    for (local, number) in &order.locals {
        if let Some(row) = rows.get(*number) {
            push_row(alloc, text, table, CodeView::Local(*local), row)?;
        }
    }
    for (octets, number) in &order.globals {
        if let (Some(row), Some(id)) = (rows.get(*number), ObjectIdView::new(octets)) {
            push_row(alloc, text, table, CodeView::Global(id), row)?;
        }
    }
    Ok(())
}

/// Appends the lines of a table: its rows ordered by code, and `prearranged=true` if it allows prearranged ends (Q.774
/// 3.3). `value` is its JSON.
fn push_table(
    alloc: Global,
    text: &mut String,
    table: &Table,
    value: &Value,
) -> Result<(), AllocError> {
    if let Some(rows) = value.get("operations").and_then(Value::as_array) {
        push_ordered(alloc, text, table, rows)?;
    }
    if table.prearranged() {
        text.push_str("prearranged=true\n")?;
    }
    Ok(())
}

/// Appends the lines of a table of a set: its number and name, its contexts, and the table itself.
fn push_named(
    alloc: Global,
    text: &mut String,
    number: usize,
    named: &NamedTable,
    value: &Value,
) -> Result<(), AllocError> {
    write!(text, "table {number}")?;
    push_name(alloc, text, value)?;
    text.push_str("\n")?;
    for context in named.contexts() {
        text.push_str("context=")?;
        push_hex(text, context.octets())?;
        text.push_str("\n")?;
    }
    push_table(alloc, text, named.table(), value)
}

/// Appends the lines of a table set, or of a single table. `value` is its JSON.
pub(crate) fn push_book(
    alloc: Global,
    text: &mut String,
    book: &Book,
    value: &Value,
) -> Result<(), AllocError> {
    let listed = value.get("tables").and_then(Value::as_array);
    for (number, named) in book.tables().iter().enumerate() {
        match listed {
            None => push_table(alloc, text, named.table(), value)?,
            Some(tables) => {
                if let Some(table) = tables.get(number) {
                    push_named(alloc, text, number, named, table)?;
                }
            }
        }
    }
    Ok(())
}
