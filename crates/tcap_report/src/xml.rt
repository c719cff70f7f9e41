//! Text in XML, escaped.
//!
//! Each function that returns `AllocError` does so if memory runs out.

use std::alloc::AllocError;

/// Returns whether a character is a control character, or is none of XML 1.0 (section 2.2).
fn is_unlike_text(c: char) -> bool {
    let code = c as u32;
    code < 0x20 || (code >= 0x7F && code <= 0x9F) || code == 0xFFFE || code == 0xFFFF
}

/// Appends a character of a text, escaped if it is special in XML. If it is a control character other than a tab or a
/// newline, or if XML does not allow it, U+FFFD is appended.
fn push_char(xml: &mut String, c: char) -> Result<(), AllocError> {
    match c {
        '<' => xml.push_str("&lt;"),
        '>' => xml.push_str("&gt;"),
        '&' => xml.push_str("&amp;"),
        '"' => xml.push_str("&quot;"),
        '\n' | '\t' => xml.push(c),
        c if is_unlike_text(c) => xml.push('\u{FFFD}'),
        c => xml.push(c),
    }
}

/// Appends the text of an element.
pub(crate) fn push_text(xml: &mut String, text: &str) -> Result<(), AllocError> {
    for c in text.chars() {
        push_char(xml, c)?;
    }
    Ok(())
}

/// Appends the value of an attribute. Readers of XML return a tab, a newline or a carriage return only if it is written
/// by its number.
pub(crate) fn push_value(xml: &mut String, value: &str) -> Result<(), AllocError> {
    for c in value.chars() {
        match c {
            '\t' => xml.push_str("&#9;")?,
            '\n' => xml.push_str("&#10;")?,
            '\r' => xml.push_str("&#13;")?,
            c => push_char(xml, c)?,
        }
    }
    Ok(())
}
