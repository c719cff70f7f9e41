//! Hints on codes: texts of digits that may be meant as numbers, and linked codes that no row has.
//!
//! Each function returns `AllocError` if memory runs out.

use crate::table_faults::is_global;
use crate::table_rows::order_of;
use serde_json::Value;
use std::alloc::{AllocError, Global};

/// A code that is written as a text, and the JSON around it.
#[derive(Clone, Copy)]
struct TextCode<'a> {
    before: &'static str,
    digits: &'a str,
    behind: &'static str,
}

/// Returns the digits of a global code of one or two octets, if they are all decimal.
fn short_digits(alloc: Global, code: &Value) -> Result<Option<&str>, AllocError> {
    let Some(digits) = code.as_str() else {
        return Ok(None);
    };
    let is_short = matches!(digits.len(), 2 | 4);
    if is_short && digits.bytes().all(|digit| digit.is_ascii_digit()) && is_global(alloc, digits)? {
        return Ok(Some(digits));
    }
    Ok(None)
}

/// Returns the first code of a row that may be meant as a number.
fn text_code_in(alloc: Global, row: &Value) -> Result<Option<TextCode>, AllocError> {
    if let Some(code) = row.get("code") {
        if let Some(digits) = short_digits(alloc, code)? {
            return Ok(Some(TextCode {
                before: "\"code\":",
                digits,
                behind: "",
            }));
        }
    }
    let Some(linked) = row.get("linked").and_then(Value::as_array) else {
        return Ok(None);
    };
    for code in linked {
        if let Some(digits) = short_digits(alloc, code)? {
            return Ok(Some(TextCode {
                before: "\"linked\":[",
                digits,
                behind: "]",
            }));
        }
    }
    Ok(None)
}

/// Appends what such a code is, and how to write the number.
fn push_text_code(text: &mut String, meant: TextCode) -> Result<(), AllocError> {
    let TextCode {
        before,
        digits,
        behind,
    } = meant;
    let octets = if digits.len() == 2 { "octet" } else { "octets" };
    let number = digits.parse::<u32>().unwrap_or(0);
    write!(
        text,
        "{before}\"{digits}\"{behind} is an OBJECT IDENTIFIER of the {octets} {digits}"
    )?;
    write!(
        text,
        "; a local code is a number: {before}{number}{behind}\n"
    )
}

/// Appends the beginning of a hint on a row: the path, if there is one, the table's number in a set, and the row's
/// number.
fn push_place(
    text: &mut String,
    path: Option<&str>,
    number: Option<usize>,
    row: usize,
) -> Result<(), AllocError> {
    text.push_str("  hint: ")?;
    if let Some(path) = path {
        text.push_str(path)?;
        text.push_str(": ")?;
    }
    match number {
        Some(number) => write!(text, "table {number}, row {row}: "),
        None => write!(text, "row {row}: "),
    }
}

/// Returns the first linked code that no row of a table has, and the number of the row that lists it.
fn unlisted_in(alloc: Global, rows: &[Value]) -> Result<Option<(usize, &Value)>, AllocError> {
    let order = order_of(alloc, rows)?;
    for (row, value) in rows.iter().enumerate() {
        let Some(linked) = value.get("linked").and_then(Value::as_array) else {
            continue;
        };
        for code in linked {
            if !order.has(alloc, code)? {
                return Ok(Some((row, code)));
            }
        }
    }
    Ok(None)
}

/// Appends a hint on the first linked code that no row of a table has. `number` is the table's number in a set.
fn push_unlisted_in(
    alloc: Global,
    text: &mut String,
    path: Option<&str>,
    number: Option<usize>,
    table: &Value,
) -> Result<(), AllocError> {
    let Some(rows) = table.get("operations").and_then(Value::as_array) else {
        return Ok(());
    };
    let Some((row, code)) = unlisted_in(alloc, rows)? else {
        return Ok(());
    };
    push_place(text, path, number, row)?;
    text.push_str("\"linked\":[")?;
    text.push_str(&code.to_string(alloc)?)?;
    text.push_str("] is the code of no row\n")
}

/// Appends, for each table of a set or for a single table, a hint on the first linked code that no row of that table
/// has. A hint names the path, if there is one.
pub(crate) fn push_unlisted(
    alloc: Global,
    text: &mut String,
    path: Option<&str>,
    value: &Value,
) -> Result<(), AllocError> {
    let Some(tables) = value.get("tables").and_then(Value::as_array) else {
        return push_unlisted_in(alloc, text, path, None, value);
    };
    for (number, table) in tables.iter().enumerate() {
        push_unlisted_in(alloc, text, path, Some(number), table)?;
    }
    Ok(())
}

/// Appends a hint for each row of a table with a code that may be meant as a number. `number` is the table's number in
/// a set.
fn push_rows(
    alloc: Global,
    text: &mut String,
    path: Option<&str>,
    number: Option<usize>,
    table: &Value,
) -> Result<(), AllocError> {
    let Some(rows) = table.get("operations").and_then(Value::as_array) else {
        return Ok(());
    };
    for (row, value) in rows.iter().enumerate() {
        let Some(meant) = text_code_in(alloc, value)? else {
            continue;
        };
        push_place(text, path, number, row)?;
        push_text_code(text, meant)?;
    }
    Ok(())
}

/// Appends a hint for each row, of a table or a table set, with a code that may be meant as a number: decimal digits
/// that make an OBJECT IDENTIFIER of one or two octets. A hint names the path, if there is one.
pub(crate) fn push_code_hints(
    alloc: Global,
    text: &mut String,
    path: Option<&str>,
    value: &Value,
) -> Result<(), AllocError> {
    let Some(tables) = value.get("tables").and_then(Value::as_array) else {
        return push_rows(alloc, text, path, None, value);
    };
    for (number, table) in tables.iter().enumerate() {
        push_rows(alloc, text, path, Some(number), table)?;
    }
    Ok(())
}
