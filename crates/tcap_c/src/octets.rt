//! A reader of octets in memory.

ghost use Rattle.std.specs.Prelude.{◌≡◌, ◌≤◌, ◌<◌, length, Some, IfOk};
ghost use Rattle.std.specs.Io.KnownBytes.{IsAtEnd};
ghost use Rattle.tcap_ber.specs.Device.{CountsFailure, Tells};

use std::io;
use tcap_ber::{Failed, Read};

/// The octets left to read. Reading never fails.
#[derive(Drop)]
pub(crate) struct Octets<'a> {
    rest: &'a [u8],
}

impl<'a> Octets<'a> {
    /// Creates a reader of these octets.
    pub(crate) fn new(octets: &'a [u8]) -> Octets<'a>
        ensures { result.rest.now ≡ octets.now }
    {
        Octets { rest: octets }
    }
}

impl Read for Octets<'_> {
    ghost remaining = { λ octets. Some octets.rest.now };

    ghost failures = { λ _. 0 };

    fn read(&mut self, buffer: &mut [u8]) -> Result<usize, Failed>
        ensures within { IfOk result (λ n. n ≤ length buffer.new) }
        ensures tells { Tells (Some self.old.rest.now) (Some self.new.rest.now) result buffer.new }
        ensures end { IfOk result (λ n. n ≡ 0 → 0 < length buffer.new → IsAtEnd (Some self.new.rest.now)) }
        ensures counts { CountsFailure 0 0 result }
    {
        io::Read::read(&mut self.rest, buffer).map_err(|_| Failed)
    }
}
