//! The lines of an entry. Each function appends to `text`, and returns `AllocError` if memory runs out.

ghost use Rattle.std.specs.Prelude.{◌≡◌, ◌++◌, OnOk, codes};
ghost use Rattle.std.specs.Fmt.{decimal};
ghost use Rattle.std.specs.String.{string_bytes};
ghost use Rattle.tcap_record.specs.declared.entry.Body.TheVariants.{Quiet};
ghost use Rattle.tcap_record.specs.Lines.{body_text, entry_lines, fault_line, side_text};
ghost use Rattle.tcap_record.specs.EntryView.{body_read, entry_read};

use crate::entry::{BodyView, End, EntryView};
use crate::lines::push_message;
use crate::numbers::push_number;
use std::alloc::AllocError;

/// Appends the end that sent an entry, between spaces, or a space for a quiet mark.
#[inline(always)]
fn push_side(text: &mut String, side: Option<End>) -> Result<(), AllocError>
    ensures { OnOk result (string_bytes text.new ≡ string_bytes text.old ++ codes " " ++ side_text side) }
{
    match side {
        Some(End::A) => text.push_str(" A "),
        Some(End::B) => text.push_str(" B "),
        None => text.push_str(" "),
    }
}

/// Appends an entry's number, and the end that sent it, if one did.
#[inline(always)]
fn push_front(text: &mut String, number: usize, side: Option<End>) -> Result<(), AllocError>
    ensures { OnOk result (string_bytes text.new
        ≡ string_bytes text.old ++ decimal number ++ codes " " ++ side_text side) }
{
    push_number(text, number)?;
    push_side(text, side)
}

/// Appends the line of a fault: the number of its reason, and its offset.
///
/// # Errors
///
/// `AllocError` if memory runs out. The content of `text` is then unspecified.
pub fn push_fault(text: &mut String, number: u8, place: u64) -> Result<(), AllocError>
    ensures { OnOk result (string_bytes text.new ≡ string_bytes text.old ++ fault_line number place) }
{
    writeln!(text, "FAULT {number} {place}")
}

/// Appends the line of a quiet mark.
fn push_quiet(text: &mut String) -> Result<(), AllocError>
    ensures { OnOk result (string_bytes text.new ≡ string_bytes text.old ++ body_text Quiet) }
{
    text.push_str("Q\n")
}

/// Appends the content of an entry: the rest of its line, and the lines of its components.
#[inline(always)]
fn push_body_view(text: &mut String, body: &BodyView) -> Result<(), AllocError>
    ensures { OnOk result (string_bytes text.new ≡ string_bytes text.old ++ body_text (body_read body.now)) }
{
    match body {
        BodyView::Good(message) => push_message(text, message),
        BodyView::Bad(fault) => push_fault(text, fault.reason.number(), fault.place),
        BodyView::Quiet => push_quiet(text),
    }
}

/// Appends the lines of an entry with this number, as `show` prints them.
///
/// # Errors
///
/// `AllocError` if memory runs out. The content of `text` is then unspecified.
#[inline(always)]
pub fn push_view(text: &mut String, number: usize, entry: &EntryView) -> Result<(), AllocError>
    ensures { OnOk result (string_bytes text.new ≡ string_bytes text.old ++ entry_lines number (entry_read entry.now)) }
{
    push_front(text, number, entry.side)?;
    push_body_view(text, &entry.body)
}
