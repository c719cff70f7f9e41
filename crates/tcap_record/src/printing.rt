//! Writing the lines of a record.

ghost use Rattle.std.specs.Prelude.{◌≡◌, ◌≢◌, ℕ, Err, OnOk, take};
ghost use Rattle.std.specs.Io.KnownBytes.{Appends};
ghost use Rattle.tcap_ber.specs.Device.{one_more};
ghost use Rattle.tcap_record.specs.declared.printing.ShowFault.{ShowFault};
ghost use Rattle.tcap_record.specs.Lines.{lines_of};

use crate::entry::Record;
use crate::entry_lines::push_view;
use std::alloc::{AllocError, Global};
use tcap_ber::{Failed, Write};

/// Why lines were not written.
#[derive(Clone, Copy, Debug, PartialEq, Eq)]
pub enum ShowFault {
    /// The writer failed.
    Write,
    /// Memory ran out.
    Memory,
}

impl From<Failed> for ShowFault {
    ghost from_gives = { λ _ fault. fault ≡ ShowFault.Write };

    fn from(_: Failed) -> ShowFault {
        ShowFault::Write
    }
}

impl From<AllocError> for ShowFault {
    ghost from_gives = { λ _ fault. fault ≡ ShowFault.Memory };

    fn from(_: AllocError) -> ShowFault {
        ShowFault::Memory
    }
}

/// Writes the lines of the entries of `record`, one entry at a time.
///
/// # Errors
///
/// `Write` at the writer's first failure, `Memory` if memory runs out.
pub fn show<W: Write>(alloc: Global, record: &Record, writer: &mut W) -> Result<(), ShowFault>
    // On success, exactly the lines of all entries were written.
    ensures ok { OnOk result (Appends (W.taken writer.old) (W.taken writer.new) (lines_of «record».now.entries.items)) }
    // If memory ran out, exactly the lines of the first entries were written.
    ensures memory { result ≡ Err ShowFault.Memory → (n : ℕ)
        × Appends (W.taken writer.old) (W.taken writer.new) (lines_of (take n «record».now.entries.items)) }
    // A failure of the writer is counted once, and nothing else is.
    ensures write { result ≡ Err ShowFault.Write → W.failures writer.new ≡ one_more (W.failures writer.old) }
    ensures others { result ≢ Err ShowFault.Write → W.failures writer.new ≡ W.failures writer.old }
{
    let mut text = String::new(alloc);
    for (number, entry) in record.entries.iter().enumerate() {
        text.clear();
        push_view(&mut text, number, &entry.view())?;
        writer.write_all(text.as_bytes())?;
    }
    Ok(())
}
