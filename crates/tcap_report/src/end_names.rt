//! The names of the two ends, which the directives `A TEXT` and `B TEXT` of a trace give.

use std::alloc::AllocError;
use tcap_page::push_text;
use tcap_record::End;

/// The names of the ends of a trace.
#[derive(Debug, Drop)]
pub(crate) struct EndNames {
    a: Option<String>,
    b: Option<String>,
}

impl EndNames {
    /// Creates the state in which neither end has a name.
    pub(crate) fn new() -> EndNames {
        EndNames { a: None, b: None }
    }

    /// Sets the name of an end.
    pub(crate) fn set(&mut self, end: End, text: String) {
        match end {
            End::A => self.a = Some(text),
            End::B => self.b = Some(text),
        }
    }

    /// Returns the name of an end, if it has one.
    fn of(&self, end: End) -> Option<&str> {
        match end {
            End::A => self.a.as_deref(),
            End::B => self.b.as_deref(),
        }
    }

    /// Appends a line for each end that has a name. If memory runs out, `AllocError` is returned.
    pub(crate) fn push_lines(&self, text: &mut String) -> Result<(), AllocError> {
        for end in [End::A, End::B] {
            if let Some(name) = self.of(end) {
                text.push_str("  ")?;
                text.push_str(end.letter())?;
                text.push_str(" is ")?;
                push_printable(text, name)?;
                text.push_str("\n")?;
            }
        }
        Ok(())
    }

    /// Appends the object `names` with the texts, if there is one. If memory runs out, `AllocError` is returned.
    pub(crate) fn push_object(&self, json: &mut String) -> Result<(), AllocError> {
        if self.a.is_none() && self.b.is_none() {
            return Ok(());
        }
        json.push_str(",\"names\":{")?;
        let mut first = true;
        for end in [End::A, End::B] {
            if let Some(name) = self.of(end) {
                json.push_str(if first { "\"" } else { ",\"" })?;
                json.push_str(end.letter())?;
                json.push_str("\":")?;
                push_text(json, name)?;
                first = false;
            }
        }
        json.push_str("}")
    }
}

/// Returns whether a terminal may take a character for a command.
fn is_control(c: char) -> bool {
    let code = c as u32;
    code < 0x20 || (code >= 0x7F && code <= 0x9F)
}

/// Appends a text, with U+FFFD for each control character. If memory runs out, `AllocError` is returned.
pub(crate) fn push_printable(text: &mut String, said: &str) -> Result<(), AllocError> {
    for c in said.chars() {
        text.push(if is_control(c) { '\u{FFFD}' } else { c })?;
    }
    Ok(())
}
