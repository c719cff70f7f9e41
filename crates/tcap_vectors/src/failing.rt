//! A device that fails in mid-stream, for tests.

ghost use Rattle.std.specs.Prelude.{◌≡◌, ℕ, ◌<◌, ◌≤◌, ◌⊎◌, length, take, Some, None, IfOk, OnOk, OnErr, IsErr};
ghost use Rattle.std.specs.Io.KnownBytes.{Appends, IsAtEnd};
ghost use Rattle.tcap_ber.specs.Device.{CountsFailure, Tells, Takes, counted_inner, one_more};
ghost use Rattle.tcap_vectors.specs.Failing.{Passes, failing_failures, failing_inner, failing_left};

use std::io;
use tcap_ber::{Counted, Failed, Read, Write};

/// A reader or writer of std that fails once, after a given count of octets, and then goes on.
#[derive(Drop)]
pub struct Failing<T> {
    device: Counted<T>,
    /// The count of failures, up to `u64::MAX`.
    failures: u64,
    /// The count of octets that pass before the injected failure, or `None` after it.
    left: Option<usize>,
}

impl<T> Failing<T> {
    /// Creates a device over `inner` that fails after `after` octets.
    pub fn new(inner: T, after: usize) -> Failing<T>
        ensures inner { failing_inner result ≡ inner }
        ensures failures { failing_failures result ≡ 0 }
        ensures left { failing_left result ≡ Some after }
    {
        Failing {
            device: Counted::new(inner),
            failures: 0,
            left: Some(after),
        }
    }

    /// Returns the reader or writer inside.
    pub fn into_inner(self) -> T
        ensures { result ≡ failing_inner self }
    {
        self.device.into_inner()
    }

    /// Counts a failure, and returns it.
    fn fail(&mut self) -> Failed
        ensures device { self.new.device ≡ self.old.device }
        ensures failures { failing_failures self.new ≡ one_more (failing_failures self.old) }
        ensures left { failing_left self.new ≡ failing_left self.old }
    {
        self.failures = self.failures.saturating_add(1);
        Failed
    }
}

impl<T: io::Read> Read for Failing<T> {
    ghost remaining = { λ device. T.remaining (failing_inner device) };

    ghost failures = { failing_failures };

    fn read(&mut self, buffer: &mut [u8]) -> Result<usize, Failed>
        ensures within { IfOk result (λ n. n ≤ length buffer.new) }
        ensures tells { Tells (T.remaining (failing_inner self.old))
            (T.remaining (failing_inner self.new)) result buffer.new }
        ensures end { IfOk result (λ n. n ≡ 0 → 0 < length buffer.new
            → IsAtEnd (T.remaining (failing_inner self.new))) }
        ensures counts { CountsFailure (failing_failures self.old)
            (failing_failures self.new) result }

        // The injected failure occurs when no more octets may pass, and never again.
        ensures passes { IfOk result (Passes (failing_left self.old) (failing_left self.new)) }
        ensures fails { failing_left self.old ≡ Some 0 → 0 < length buffer.old
            → IsErr result × (failing_left self.new ≡ None) }
        ensures early { failing_left self.new ≡ None
            → (failing_left self.old ≡ None) ⊎ (failing_left self.old ≡ Some 0) }
        ensures kept { OnErr result ((failing_left self.old ≡ Some 0)
            ⊎ (failing_left self.new ≡ failing_left self.old)) }
        ensures once { failing_left self.old ≡ None → failing_left self.new ≡ None }
    {
        let most = match self.left {
            Some(0) if !buffer.is_empty() => {
                self.left = None;
                return Err(self.fail());
            }
            Some(left) => left.min(buffer.len()),
            None => buffer.len(),
        };
        let Ok(count) = self.device.read(&mut buffer[..most]) else {
            return Err(self.fail());
        };
        if let Some(left) = self.left {
            self.left = Some(left - count);
        }
        Ok(count)
    }
}

impl<T: io::Write> Write for Failing<T> {
    ghost taken = { λ device. T.contents (failing_inner device) };

    ghost failures = { failing_failures };

    fn write_all(&mut self, octets: &[u8]) -> Result<(), Failed>
        ensures takes { Takes (T.contents (failing_inner self.old))
            (T.contents (failing_inner self.new)) result octets.now }
        ensures counts { CountsFailure (failing_failures self.old)
            (failing_failures self.new) result }

        // The injected failure occurs when more octets are given than may still pass. Those that may pass are written.
        ensures passes { OnOk result
            (Passes (failing_left self.old) (failing_left self.new) (length octets.now)) }
        ensures cuts { failing_left self.new ≡ None → (left : ℕ) → failing_left self.old ≡ Some left
            → (left < length octets.now)
            × Appends (T.contents (failing_inner self.old)) (T.contents (failing_inner self.new))
            (take left octets.now) }
        ensures kept { OnErr result ((failing_left self.new ≡ None)
            ⊎ (failing_left self.new ≡ failing_left self.old)) }
        ensures once { failing_left self.old ≡ None → failing_left self.new ≡ None }
    {
        let most = match self.left {
            Some(left) => left.min(octets.len()),
            None => octets.len(),
        };
        let taken = self.device.write_all(&octets[..most]);
        if taken.is_err() || most < octets.len() {
            if taken.is_ok() {
                self.left = None;
            }
            return Err(self.fail());
        }
        if let Some(left) = self.left {
            self.left = Some(left - most);
        }
        Ok(())
    }
}
