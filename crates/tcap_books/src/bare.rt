//! Removes the members that only a book has from a table: its name, its contexts, and the names of its rows.

ghost use Rattle.std.specs.Prelude.{◌≡◌, IfOk, map};
ghost use Rattle.serde_json.specs.View.{view, members_view};
ghost use Rattle.tcap_books.specs.BookText.{bare_members, bare_row, bare_rows, bare_table, bare_value, is_books, is_name, without_name};

use serde_json::{Map, Value};
use std::alloc::{AllocError, Global};

/// Returns whether a key is "name".
fn is_name(key: &str) -> bool
    ensures { result ≡ is_name key.now }
{
    key == "name"
}

/// Copies the members of a row without its name.
fn without_name(
    alloc: Global,
    members: &Map<String, Value>,
) -> Result<Map<String, Value>, AllocError>
    ensures { IfOk result (λ m. members_view m.entries ≡ without_name (members_view members.now.entries)) }
{
    let mut kept = Map::new(alloc);
    for (key, value) in members.iter() {
        if is_name(key.as_str()) {
            continue;
        }
        let name = key.clone()?;
        drop(kept.insert(name, value.clone()?)?);
    }
    Ok(kept)
}

/// Copies a row without its name.
fn bare_row(alloc: Global, row: &Value) -> Result<Value, AllocError>
    ensures { IfOk result (λ v. view v ≡ bare_row (view row.now)) }
{
    match row {
        Value::Object(members) => Ok(Value::Object(without_name(alloc, members)?)),
        _ => row.clone(),
    }
}

/// Copies rows without their names.
fn bare_items(alloc: Global, rows: &Vec<Value>) -> Result<Vec<Value>, AllocError>
    ensures { IfOk result (λ v. map view v.items ≡ map (λ row. bare_row (view row)) rows.now.items) }
{
    let mut bare = Vec::new(alloc);
    for row in rows {
        bare.push(bare_row(alloc, row)?)?;
    }
    Ok(bare)
}

/// Copies a list of rows without their names.
fn bare_rows(alloc: Global, rows: &Value) -> Result<Value, AllocError>
    ensures { IfOk result (λ v. view v ≡ bare_rows (view rows.now)) }
{
    match rows {
        Value::Array(items) => Ok(Value::Array(bare_items(alloc, items)?)),
        _ => rows.clone(),
    }
}

/// Returns whether a key is one that only a table of a book has.
fn is_books(key: &str) -> bool
    ensures { result ≡ is_books key.now }
{
    is_name(key) || key == "contexts"
}

/// Copies the value of a table's member, without the names of rows.
fn bare_value(alloc: Global, key: &str, value: &Value) -> Result<Value, AllocError>
    ensures { IfOk result (λ v. view v ≡ bare_value key.now (view value.now)) }
{
    if key == "operations" {
        bare_rows(alloc, value)
    } else {
        value.clone()
    }
}

/// Copies the members of a table without its name, its contexts, and the names of its rows.
fn bare_members(
    alloc: Global,
    members: &Map<String, Value>,
) -> Result<Map<String, Value>, AllocError>
    ensures { IfOk result (λ m. members_view m.entries ≡ bare_members (members_view members.now.entries)) }
{
    let mut kept = Map::new(alloc);
    for (key, value) in members.iter() {
        if is_books(key.as_str()) {
            continue;
        }
        let name = key.clone()?;
        let bare = bare_value(alloc, key.as_str(), value)?;
        drop(kept.insert(name, bare)?);
    }
    Ok(kept)
}

/// Copies a table without its name, its contexts, and the names of its rows.
pub(crate) fn bare_table(alloc: Global, table: &Value) -> Result<Value, AllocError>
    ensures { IfOk result (λ v. view v ≡ bare_table (view table.now)) }
{
    match table {
        Value::Object(members) => Ok(Value::Object(bare_members(alloc, members)?)),
        _ => table.clone(),
    }
}
