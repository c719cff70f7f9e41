//! Decimal numbers.

ghost use Rattle.std.specs.Prelude.{◌≡◌, ◌++◌, OnOk};
ghost use Rattle.std.specs.String.{string_bytes};

use itoa::{Buffer, Integer};
use std::alloc::AllocError;

/// Appends a number to `text`. `AllocError` if memory runs out.
pub(crate) fn push_number<I: Integer>(text: &mut String, number: I) -> Result<(), AllocError>
    ensures { OnOk result (string_bytes text.new ≡ string_bytes text.old ++ I.text number) }
{
    text.push_str(Buffer::new().format(number))
}
