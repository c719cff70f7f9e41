//! Indented lines.

ghost use Rattle.std.specs.Prelude.{◌≡◌, ◌++◌, OnOk, codes};
ghost use Rattle.std.specs.String.{string_bytes};
ghost use Rattle.tcap_record.specs.Lines.{line_end};
ghost use Rattle.tcap_explain.specs.IndentedText.{indented};

use std::alloc::AllocError;

/// Appends a line, with two spaces before it.
fn push_line(text: &mut String, line: &str) -> Result<(), AllocError>
    ensures { OnOk result (string_bytes text.new ≡ string_bytes text.old ++ codes "  " ++ line.now ++ line_end) }
{
    text.push_str("  ")?;
    text.push_str(line)?;
    text.push_str("\n")
}

/// Appends these lines with two spaces before each, and ends the last one.
pub(crate) fn push_indented(text: &mut String, lines: &str) -> Result<(), AllocError>
    ensures { OnOk result (string_bytes text.new ≡ string_bytes text.old ++ indented lines.now) }
{
    let mut left = lines;
    while let Some((line, more)) = left.split_once('\n') {
        push_line(text, line)?;
        left = more;
    }
    if left.is_empty() {
        return Ok(());
    }
    push_line(text, left)
}
