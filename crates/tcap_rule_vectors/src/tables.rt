//! Rows about operation tables: what a text of JSON gives, and the first fault if it is no table.

use std::alloc::Global;
use tcap_ber::ObjectIdView;
use tcap_end::Table;
use tcap_parts::CodeView;

/// Returns the text of the table with this name, or the column if it is no name. The usual table has an operation of
/// each class, 45 to 48, and 50, to which 48 may be linked. In the other tables some invocations do not expire, or
/// transactions end by prearrangement.
pub(crate) fn table_text(column: &str) -> &str {
    match column {
        "usual" => {
            r#"{"operations":[{"class":1,"code":45},{"class":2,"code":46},{"class":3,"code":47},
            {"class":4,"code":48},{"class":1,"code":50,"linked":[48]}]}"#
        }
        "lasting" => {
            r#"{"operations":[{"class":1,"code":45,"expires":false},{"class":2,"code":46},{"class":3,"code":47},
            {"class":4,"code":48},{"class":1,"code":50,"linked":[48]}]}"#
        }
        "lasting_but_47" => {
            r#"{"operations":[{"class":1,"code":45,"expires":false},{"class":2,"code":46,"expires":false},
            {"class":3,"code":47},{"class":4,"code":48,"expires":false},{"class":1,"code":50,"linked":[48]}]}"#
        }
        "all_lasting" => {
            r#"{"operations":[{"class":1,"code":45,"expires":false},{"class":2,"code":46,"expires":false},
            {"class":3,"code":47,"expires":false},{"class":4,"code":48,"expires":false},
            {"class":1,"code":50,"linked":[48]}]}"#
        }
        "prearranged" => {
            r#"{"operations":[{"class":1,"code":45},{"class":2,"code":46},{"class":3,"code":47},
            {"class":4,"code":48},{"class":1,"code":50,"linked":[48]}],"prearranged":true}"#
        }
        text => text,
    }
}

/// Returns the table of a column, or `None` if the column is no table or memory runs out.
pub(crate) fn table_of(alloc: Global, column: &str) -> Option<Table> {
    Table::from_json(alloc, table_text(column).as_bytes()).ok()
}

/// Returns the text of a table with this many rows, of a row with this many linked codes, or of this many nested lists.
pub(crate) fn long_text(alloc: Global, kind: &str, count: usize) -> Option<String> {
    let mut text = String::from_str(alloc, "{\"operations\":[").ok()?;
    match kind {
        "rows" => {
            text.push_str("{\"class\":1,\"code\":0}").ok()?;
            for code in 1..count {
                write!(text, ",{{\"class\":1,\"code\":{code}}}").ok()?;
            }
        }
        "links" => {
            text.push_str("{\"class\":1,\"code\":1,\"linked\":[0").ok()?;
            for code in 1..count {
                write!(text, ",{code}").ok()?;
            }
            text.push_str("]}").ok()?;
        }
        "lists" => {
            text = String::new(alloc);
            for bracket in ["[", "]"] {
                for _ in 0..count {
                    text.push_str(bracket).ok()?;
                }
            }
            return Some(text);
        }
        _ => return None,
    }
    text.push_str("]}").ok()?;
    Some(text)
}

/// Returns whether a text is a table, if `fine` is expected, or has the fault with this number at this row.
pub(crate) fn is_table(alloc: Global, text: &[u8], wanted: &[&str]) -> Option<bool> {
    let fault = Table::from_json(alloc, text).err();
    match (wanted, fault) {
        (["fine"], fault) => Some(fault.is_none()),
        ([number, place], Some(fault)) => Some(
            fault.reason.number() == number.parse::<u8>().ok()?
                && fault.place == place.parse::<u64>().ok()?,
        ),
        ([_, _], None) => Some(false),
        _ => None,
    }
}

/// Returns the class of a local code in decimal digits, or of a global one in hexadecimal digits after `g:`; 0 for
/// none.
fn class_of(alloc: Global, table: &Table, code: &str) -> Option<u8> {
    let class = match code.strip_prefix("g:") {
        Some(digits) => {
            let octets = hex::decode(alloc, digits).ok()?;
            table.class_of(CodeView::Global(ObjectIdView::new(&octets)?))
        }
        None => table.class_of(CodeView::Local(code.parse::<i32>().ok()?)),
    };
    Some(class.unwrap_or(0))
}

/// Checks a row of `classes`: the text of a table, and codes with their classes.
pub(crate) fn are_classes(alloc: Global, text: &str, codes: &[&str]) -> Option<bool> {
    let table = table_of(alloc, text)?;
    let mut is_wanted = !codes.is_empty();
    for pair in codes {
        let (code, class) = pair.split_once('=')?;
        let class = class.parse::<u8>().ok()?;
        is_wanted = is_wanted && class_of(alloc, &table, code)? == class;
    }
    drop(table);
    Some(is_wanted)
}
