//! A reader that notes the first octets.

ghost use Rattle.std.specs.Prelude.{◌≡◌, ◌<◌, ◌≤◌, [], length, IfOk};
ghost use Rattle.std.specs.Io.KnownBytes.{IsAtEnd};
ghost use Rattle.tcap_ber.specs.Device.{CountsFailure, Tells};
ghost use Rattle.tcap_diagnostics.specs.Devices.{Notes, first_octets_inner, first_octets_noted};

use std::alloc::Global;
use tcap_ber::{Failed, Read};

/// The number of octets that are noted.
const NOTED: usize = 512;

/// A reader that passes octets on from another reader, and notes the first 512 of them.
#[derive(Drop)]
pub struct FirstOctets<R> {
    reader: R,
    first: Vec<u8>,
    // Memory ran out, so nothing more is noted.
    lost: bool,
}

impl<R> FirstOctets<R> {
    /// Creates a reader over `reader` that has noted nothing yet.
    pub fn new(alloc: Global, reader: R) -> FirstOctets<R>
        ensures inner { first_octets_inner result ≡ reader }
        ensures nothing { first_octets_noted result ≡ [] }
    {
        FirstOctets {
            reader,
            first: Vec::new(alloc),
            lost: false,
        }
    }

    /// Returns the first octets that were read, at most 512, or fewer if memory ran out.
    pub fn first(&self) -> &[u8]
        ensures { result.now ≡ first_octets_noted self.now }
    {
        &self.first
    }
}

impl<R: Read> Read for FirstOctets<R> {
    ghost remaining = { λ device. R.remaining (first_octets_inner device) };

    ghost failures = { λ device. R.failures (first_octets_inner device) };

    fn read(&mut self, buffer: &mut [u8]) -> Result<usize, Failed>
        ensures within { IfOk result (λ n. n ≤ length buffer.new) }
        ensures tells { Tells (R.remaining (first_octets_inner self.old))
            (R.remaining (first_octets_inner self.new)) result buffer.new }
        ensures end { IfOk result (λ n. n ≡ 0 → 0 < length buffer.new
            → IsAtEnd (R.remaining (first_octets_inner self.new))) }
        ensures counts { CountsFailure (R.failures (first_octets_inner self.old))
            (R.failures (first_octets_inner self.new)) result }
        ensures notes { Notes (first_octets_noted self.old) (first_octets_noted self.new) result buffer.new }
    {
        let returned = self.reader.read(buffer)?;
        let room = NOTED.saturating_sub(self.first.len()).min(returned);
        if !self.lost && self.first.extend_from_slice(&buffer[..room]).is_err() {
            self.lost = true;
        }
        Ok(returned)
    }
}
