//! A writer that remembers whether the last fault was a bad line, or a record with too many entries.

ghost use Rattle.std.specs.Prelude.{◌≡◌, false};
ghost use Rattle.tcap_ber.specs.Device.{CountsFailure, Takes};
ghost use Rattle.tcap_diagnostics.specs.Devices.{fault_writer_inner, is_too_many, notes_too_many};

use tcap_ber::{Failed, Write};

/// The beginning of the fault of a bad line of digits.
const BAD_LINE: &[u8] = b"FAULT 24 ";

/// The beginning of the fault of a record with too many entries.
const TOO_MANY: &[u8] = b"FAULT 22 ";

/// A writer that passes octets on to another writer, and notes whether the last ones begin with the fault of a bad line
/// of digits, or of a record with too many entries.
#[derive(Drop)]
pub struct FaultWriter<W> {
    writer: W,
    bad_line: bool,
    too_many: bool,
}

impl<W> FaultWriter<W> {
    /// Creates a writer over `writer` to which nothing was written yet.
    pub fn new(writer: W) -> FaultWriter<W>
        ensures inner { fault_writer_inner result ≡ writer }
        ensures nothing { notes_too_many result ≡ false }
    {
        FaultWriter {
            writer,
            bad_line: false,
            too_many: false,
        }
    }

    /// Returns whether the last octets written are the fault of a bad line of digits.
    pub(crate) fn is_bad_line(&self) -> bool {
        self.bad_line
    }

    /// Returns whether the last octets written begin with the fault of a record with too many entries.
    pub fn is_too_many(&self) -> bool
        ensures { result ≡ notes_too_many self.now }
    {
        self.too_many
    }
}

impl<W: Write> Write for FaultWriter<W> {
    ghost taken = { λ device. W.taken (fault_writer_inner device) };

    ghost failures = { λ device. W.failures (fault_writer_inner device) };

    fn write_all(&mut self, octets: &[u8]) -> Result<(), Failed>
        ensures takes { Takes (W.taken (fault_writer_inner self.old)) (W.taken (fault_writer_inner self.new)) result
            octets.now }
        ensures counts { CountsFailure (W.failures (fault_writer_inner self.old))
            (W.failures (fault_writer_inner self.new)) result }
        ensures noted { notes_too_many self.new ≡ is_too_many octets.now }
    {
        self.bad_line = octets.starts_with(BAD_LINE);
        self.too_many = octets.starts_with(TOO_MANY);
        self.writer.write_all(octets)
    }
}
