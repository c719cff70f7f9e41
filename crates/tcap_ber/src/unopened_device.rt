//! A device that could not be opened.

ghost use Rattle.std.specs.Prelude.{◌≡◌, ◌≤◌, ◌<◌, length, None, IfOk, IsErr};
ghost use Rattle.std.specs.Io.KnownBytes.{IsAtEnd};
ghost use Rattle.tcap_ber.specs.Device.{CountsFailure, Tells, unopened_failures};

use crate::device::{Failed, Read};

/// A reader for a file that could not be opened: each read fails.
#[derive(Debug, Drop)]
pub struct Unopened {
    failures: u64,
}

impl Unopened {
    /// Creates a reader for a file that could not be opened, with no failure counted yet.
    pub fn new() -> Unopened
        ensures { unopened_failures result ≡ 0 }
    {
        Unopened { failures: 0 }
    }
}

impl Read for Unopened {
    ghost remaining = { λ _. None };

    ghost failures = { unopened_failures };

    fn read(&mut self, buffer: &mut [u8]) -> Result<usize, Failed>
        ensures within { IfOk result (λ n. n ≤ length buffer.new) }
        ensures tells { Tells None None result buffer.new }
        ensures end { IfOk result (λ n. n ≡ 0 → 0 < length buffer.new → IsAtEnd None) }
        ensures counts { CountsFailure (unopened_failures self.old) (unopened_failures self.new) result }
        ensures fails { IsErr result }
    {
        let _ = buffer;
        self.failures = self.failures.saturating_add(1);
        Err(Failed)
    }
}
