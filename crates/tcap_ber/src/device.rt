//! Readers and writers of octets that count their failures.

ghost use Rattle.std.specs.Prelude.{◌≡◌, ℕ, ◌<◌, ◌≤◌, List, Option, length, IfOk};
ghost use Rattle.std.specs.Io.KnownBytes.{IsAtEnd};
ghost use Rattle.tcap_ber.specs.Device.{CountsFailure, Tells, Takes};

/// A failure of a device. Each call says what a failed device has read or written; the device counts its failures.
#[derive(Clone, Copy, Debug, PartialEq, Eq)]
pub struct Failed;

/// A source of octets.
pub trait Read {
    // The octets that are still to be read, if they are known.
    ghost remaining: { Self → Option (List ℕ) };

    // The number of failures, at most 2 ^ 64 - 1.
    ghost failures: { Self → ℕ };

    /// Reads octets into the front of `buffer`. Returns how many: 0 only at the end, or if `buffer` is empty.
    ///
    /// # Errors
    ///
    /// `Failed` if the device fails; no octet is read then.
    fn read(&mut self, buffer: &mut [u8]) -> Result<usize, Failed>
        ensures within { IfOk result (λ n. n ≤ length buffer.new) }
        ensures tells { Tells (remaining self.old) (remaining self.new) result buffer.new }
        ensures end { IfOk result (λ n. n ≡ 0 → 0 < length buffer.new → IsAtEnd (remaining self.new)) }
        ensures counts { CountsFailure (failures self.old) (failures self.new) result };
}

/// A sink of octets.
pub trait Write {
    // The octets that were written, if they are known.
    ghost taken: { Self → Option (List ℕ) };

    // The number of failures, at most 2 ^ 64 - 1.
    ghost failures: { Self → ℕ };

    /// Writes all of `octets`.
    ///
    /// # Errors
    ///
    /// `Failed` if the device fails. An unknown number of the first octets may have been written then.
    fn write_all(&mut self, octets: &[u8]) -> Result<(), Failed>
        ensures takes { Takes (taken self.old) (taken self.new) result octets.now }
        ensures counts { CountsFailure (failures self.old) (failures self.new) result };
}
