//! Texts and fields of JSON objects (RFC 8259).

ghost use Rattle.std.specs.Prelude.{◌≡◌, ◌<◌, ◌≤◌, ◌⊎◌, ◌↔◌, IsTrue};

use std::alloc::AllocError;
use tcap_record::push_hex;

/// Returns whether a character is escaped by its number: control characters, line and paragraph separators, and `<`, so
/// that the text is safe in an HTML page.
fn is_escaped_by_number(code: u32) -> bool
    ensures { IsTrue result ↔ ((code < 32) ⊎ (code ≡ 60) ⊎ ((127 ≤ code) × (code < 160)) ⊎ (code ≡ 8232) ⊎ (code ≡ 8233)) }
{
    code < 0x20
        || code == '<' as u32
        || (0x7F <= code && code < 0xA0)
        || code == 0x2028
        || code == 0x2029
}

/// Appends a JSON text that is safe in an HTML page: control characters and `<` are escaped.
///
/// # Errors
/// `AllocError` if memory runs out. `json` may then hold part of the text.
pub fn push_text(json: &mut String, text: &str) -> Result<(), AllocError> {
    json.push_str("\"")?;
    for c in text.chars() {
        match c {
            '"' => json.push_str("\\\"")?,
            '\\' => json.push_str("\\\\")?,
            '\n' => json.push_str("\\n")?,
            c if is_escaped_by_number(c as u32) => {
                let code = c as u32;
                write!(json, "\\u{code:04x}")?;
            }
            c => json.push(c)?,
        }
    }
    json.push_str("\"")
}

/// Appends a comma and the name of a field.
fn push_name(json: &mut String, name: &str) -> Result<(), AllocError> {
    json.push_str(",\"")?;
    json.push_str(name)?;
    json.push_str("\":")
}

/// Appends a comma and a field with a text.
///
/// # Errors
/// `AllocError` if memory runs out.
pub fn push_named(json: &mut String, name: &str, text: &str) -> Result<(), AllocError> {
    push_name(json, name)?;
    push_text(json, text)
}

/// Appends a comma and a field with octets, as hexadecimal digits.
///
/// # Errors
/// `AllocError` if memory runs out.
pub fn push_octets(json: &mut String, name: &str, octets: &[u8]) -> Result<(), AllocError> {
    push_name(json, name)?;
    json.push_str("\"")?;
    push_hex(json, octets)?;
    json.push_str("\"")
}

/// Appends a comma and a field that is true or false.
///
/// # Errors
/// `AllocError` if memory runs out.
pub fn push_flag(json: &mut String, name: &str, so: bool) -> Result<(), AllocError> {
    push_name(json, name)?;
    json.push_str(if so { "true" } else { "false" })
}

/// Appends a list of numbers.
///
/// # Errors
/// `AllocError` if memory runs out.
pub fn push_numbers(json: &mut String, numbers: &[u64]) -> Result<(), AllocError> {
    json.push_str("[")?;
    let mut first = true;
    for number in numbers {
        json.push_str(if first { "" } else { "," })?;
        write!(json, "{number}")?;
        first = false;
    }
    json.push_str("]")
}
