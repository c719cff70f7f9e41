//! Reads an operation table from a JSON text (RFC 8259).

ghost use Rattle.std.specs.Prelude.{◌≡◌, ◌≢◌, [], Some, Ok, Err, IfOk, OnOk, map, option_map, option_and_then};
ghost use Rattle.std.specs.List.{list_any};
ghost use Rattle.std.specs.Str.{bytes_eq};
ghost use Rattle.hex.specs.Hex.{decode_of};
ghost use Rattle.tcap_end.specs.declared.table.TableFault.{TableFault};
ghost use Rattle.serde_json.specs.Data.{array};
ghost use Rattle.serde_json.specs.View.{view, items_view, members_view};
ghost use Rattle.tcap_end.specs.declared.table.TableReason.{TableReason};
ghost use Rattle.tcap_lists.specs.CodeMap.{coded, key_code};
ghost use Rattle.tcap_end.specs.TableText.{class_in, code_in, codes_in, flag_in, global_of, linked_in, local_of, whole_in};
ghost use Rattle.tcap_end.specs.TableText.{IsTableOf, has_only, operations_in, row_in, table_by, table_fault, table_in, with_row};
ghost use Rattle.tcap_end.specs.TableReading.{row_of, operations_of};

use crate::table::{Operation, Table, TableFault, TableReason};
use hex::FromHexError;
use serde_json::{Map, Value};
use std::alloc::{AllocError, Global};
use tcap_ber::ObjectIdView;
use tcap_lists::{CodeKey, CodeMap};

/// The largest number of rows.
const ROWS_LIMIT: usize = 1000;

/// The largest number of codes in a row's list of linked operations.
const LINKED_LIMIT: usize = 1000;

/// A row whose class is not yet checked.
#[derive(Debug, Drop)]
struct Row {
    key: CodeKey,
    class: i128,
    linked: CodeMap<()>,
    expires: bool,
}

/// Returns whether a key is in a list.
fn is_one_of(keys: &[&str], key: &str) -> bool
    ensures { result ≡ list_any (bytes_eq key.now) (map (λ k. k.now) keys.now) }
{
    keys.contains(&key)
}

/// Returns whether each key of a JSON object is in a list.
pub fn has_only(keys: &[&str], members: &Map<String, Value>) -> bool
    ensures { result ≡ has_only (map (λ k. k.now) keys.now) (members_view members.now.entries) }
{
    for key in members.keys() {
        if !is_one_of(keys, key) {
            return false;
        }
    }
    true
}

/// Reads a whole number, written without a fraction or exponent.
fn whole_in(value: &Value) -> Option<i128>
    ensures { result ≡ whole_in (view value.now) }
{
    value.as_number()?.as_i128()
}

/// Reads a Boolean, or returns `default` if the member is absent.
fn flag_in(default: bool, value: Option<&Value>) -> Option<bool>
    ensures { result ≡ flag_in default (option_map (λ v. view v.now) value.entry) }
{
    match value {
        None => Some(default),
        Some(value) => value.as_bool(),
    }
}

/// Reads a global code from hex digits of either case. Returns None if they are not the content of an object
/// identifier.
fn global_in(alloc: Global, digits: &str) -> Result<Option<CodeKey>, AllocError>
    ensures { IfOk result (λ key. option_map key_code key ≡ global_of (decode_of digits.now)) }
{
    let octets = match hex::decode(alloc, digits) {
        Ok(octets) => octets,
        Err(FromHexError::OutOfMemory) => return Err(AllocError),
        Err(_) => return Ok(None),
    };
    if ObjectIdView::new(&octets).is_none() {
        return Ok(None);
    }
    Ok(Some(CodeKey::Global(octets)))
}

/// Reads a code: a 32-bit whole number, or a string with the hex digits of a global code.
fn code_in(alloc: Global, value: &Value) -> Result<Option<CodeKey>, AllocError>
    ensures { IfOk result (λ key. option_map key_code key ≡ code_in (view value.now)) }
{
    if let Some(digits) = value.as_str() {
        return global_in(alloc, digits);
    }
    Ok(local_in(value))
}

/// Reads a local code from a 32-bit whole number.
fn local_in(value: &Value) -> Option<CodeKey>
    ensures { option_map key_code result ≡ option_and_then local_of (whole_in (view value.now)) }
{
    let local = i32::try_from(whole_in(value)?).ok()?;
    Some(CodeKey::Local(local))
}

/// Reads the set of the codes in a list.
fn codes_in(alloc: Global, items: &[Value]) -> Result<Option<CodeMap<()>>, AllocError>
    ensures { IfOk result (λ set. option_map coded set ≡ codes_in [] (items_view items.now)) }
{
    let mut found = CodeMap::new(alloc);
    for item in items {
        let Some(key) = code_in(alloc, item)? else {
            return Ok(None);
        };
        found.insert(key, ())?;
    }
    Ok(Some(found))
}

/// Reads the linked operations of a row; none if the member is absent.
fn linked_in(alloc: Global, value: Option<&Value>) -> Result<Option<CodeMap<()>>, AllocError>
    ensures { IfOk result (λ set. option_map coded set ≡ linked_in (option_map (λ v. view v.now) value.entry)) }
{
    let Some(value) = value else {
        return Ok(Some(CodeMap::new(alloc)));
    };
    let Some(items) = value.as_array() else {
        return Ok(None);
    };
    if items.len() > LINKED_LIMIT {
        return Ok(None);
    }
    codes_in(alloc, items)
}

/// Reads a row, or returns None if the value has another shape.
fn row_in(alloc: Global, value: &Value) -> Result<Option<Row>, AllocError>
    ensures { IfOk result (λ row. option_map row_of row ≡ row_in (view value.now)) }
{
    let Some(members) = value.as_object() else {
        return Ok(None);
    };
    if !has_only(&["class", "code", "expires", "linked"], members) {
        return Ok(None);
    }
    let code = value.get("code");
    let class = value.get("class").and_then(whole_in);
    let expires = flag_in(true, value.get("expires"));
    let (Some(code), Some(class), Some(expires)) = (code, class, expires) else {
        return Ok(None);
    };
    let Some(key) = code_in(alloc, code)? else {
        return Ok(None);
    };
    let Some(linked) = linked_in(alloc, value.get("linked"))? else {
        return Ok(None);
    };
    Ok(Some(Row {
        key,
        class,
        linked,
        expires,
    }))
}

/// Reads a class, 1 to 4.
fn class_in(class: i128) -> Option<u8>
    ensures { result ≡ class_in class }
{
    match class {
        1..=4 => Some(class as u8),
        _ => None,
    }
}

/// Returns a fault of the row with that number.
fn refused(reason: TableReason, place: usize) -> TableFault
    ensures { result ≡ table_fault reason place }
{
    TableFault {
        reason,
        place: place as u64,
    }
}

/// Adds the operation of a row, or returns the fault of row number `place`. If memory runs out, the fault is `Memory`
/// at 0.
fn add_row(
    operations: &mut CodeMap<Operation>,
    place: usize,
    row: Option<Row>,
) -> Result<(), TableFault>
    ensures added { OnOk result (with_row place (coded operations.old) (option_map row_of row)
        ≡ Ok (coded operations.new)) }
    ensures refused { (f : TableFault) → result ≡ Err f → f ≢ table_fault TableReason.Memory 0
        → with_row place (coded operations.old) (option_map row_of row) ≡ Err f }
{
    let Some(row) = row else {
        return Err(refused(TableReason::TableShape, place));
    };
    let Some(class) = class_in(row.class) else {
        return Err(refused(TableReason::BadClass, place));
    };
    if operations.has(&row.key) {
        return Err(refused(TableReason::DoubleCode, place));
    }
    let operation = Operation {
        class,
        linked: row.linked,
        expires: row.expires,
    };
    operations.insert(row.key, operation)?;
    Ok(())
}

/// Reads the operations of the rows, or returns the first fault.
fn operations_in(alloc: Global, rows: &[Value]) -> Result<CodeMap<Operation>, TableFault>
    ensures { result ≢ Err (table_fault TableReason.Memory 0)
        → operations_of result ≡ operations_in 0 [] (items_view rows.now) }
{
    let mut operations = CodeMap::new(alloc);
    for (place, value) in rows.iter().enumerate() {
        let row = row_in(alloc, value)?;
        add_row(&mut operations, place, row)?;
    }
    Ok(operations)
}

/// Reads the table with these rows, or returns the first fault.
#[tactic(auto, using(crate::proofs::TableLaws::rows_within, crate::proofs::TableLaws::rows_beyond))]
fn table_of(alloc: Global, rows: &[Value], prearranged: bool) -> Result<Table, TableFault>
    ensures { result ≢ Err (table_fault TableReason.Memory 0)
        → result ≡ table_by (Some (array (items_view rows.now))) (Some prearranged) }
{
    if rows.len() > ROWS_LIMIT {
        return Err(refused(TableReason::TooManyRows, 0));
    }
    Ok(Table {
        operations: operations_in(alloc, rows)?,
        prearranged,
    })
}

/// Reads the table from a JSON value, or returns the first fault.
fn table_in(alloc: Global, value: &Value) -> Result<Table, TableFault>
    ensures { result ≢ Err (table_fault TableReason.Memory 0) → result ≡ table_in (view value.now) }
{
    let shape = refused(TableReason::TableShape, 0);
    let Some(members) = value.as_object() else {
        return Err(shape);
    };
    if !has_only(&["operations", "prearranged"], members) {
        return Err(shape);
    }
    let rows = value.get("operations").and_then(Value::as_array);
    let (Some(rows), Some(prearranged)) = (rows, flag_in(false, value.get("prearranged"))) else {
        return Err(shape);
    };
    table_of(alloc, rows, prearranged)
}

/// Reads the table from a JSON text, or returns the first fault.
pub(crate) fn read_table(alloc: Global, octets: &[u8]) -> Result<Table, TableFault>
    ensures { result ≢ Err (table_fault TableReason.Memory 0) → IsTableOf octets.now result }
{
    match Value::from_slice(alloc, octets) {
        Ok(value) => table_in(alloc, &value),
        Err(error) if error.is_memory() => Err(refused(TableReason::Memory, 0)),
        Err(_) => Err(refused(TableReason::NotJson, 0)),
    }
}
