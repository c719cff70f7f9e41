//! The line of a fault.

ghost use Rattle.std.specs.Prelude.{◌≡◌, ◌⊎◌, ℕ, List, OnOk, OnErr};
ghost use Rattle.std.specs.Io.KnownBytes.{Appends};
ghost use Rattle.tcap_ber.specs.Device.{one_more};
ghost use Rattle.tcap_lines.specs.ShowRun.{feed_fault_line, memory_line};

use crate::status::WriteFailed;
use std::alloc::{AllocError, Global};
use tcap_ber::Write;
use tcap_record::{FeedFault, push_fault};

/// The line that is printed if memory runs out.
pub const MEMORY_LINE: &str = "FAULT 99 0\n";

/// Writes a line.
///
/// # Errors
///
/// `WriteFailed` if the writer fails.
pub fn write_line<W: Write>(writer: &mut W, line: &[u8]) -> Result<(), WriteFailed>
    ensures line { OnOk result (Appends (W.taken writer.old) (W.taken writer.new) line.now) }
    ensures counts { OnOk result (W.failures writer.new ≡ W.failures writer.old) }
    ensures failed { OnErr result (W.failures writer.new ≡ one_more (W.failures writer.old)) }
{
    writer.write_all(line).map_err(|_| WriteFailed)
}

/// Writes the line of a fault of the record, or [`MEMORY_LINE`] if memory runs out.
///
/// # Errors
///
/// `WriteFailed` if the writer fails.
pub fn write_fault<W: Write>(
    alloc: Global,
    fault: FeedFault,
    writer: &mut W,
) -> Result<(), WriteFailed>
    ensures line { OnOk result ((line : List ℕ) × ((line ≡ feed_fault_line fault) ⊎ (line ≡ memory_line))
        × Appends (W.taken writer.old) (W.taken writer.new) line) }
    ensures counts { OnOk result (W.failures writer.new ≡ W.failures writer.old) }
    ensures failed { OnErr result (W.failures writer.new ≡ one_more (W.failures writer.old)) }
{
    let mut line = String::new(alloc);
    match push_fault(&mut line, fault.reason.number(), fault.place) {
        Ok(()) => write_line(writer, line.as_bytes()),
        Err(AllocError) => write_line(writer, MEMORY_LINE.as_bytes()),
    }
}
