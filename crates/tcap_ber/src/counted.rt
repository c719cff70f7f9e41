//! Readers and writers of std as devices.

ghost use Rattle.std.specs.Prelude.{◌≡◌, ◌≤◌, IfOk, MatchResult, length, take, drop};
ghost use Rattle.std.specs.Io.KnownBytes.{Appends, Keeps};
ghost use Rattle.tcap_ber.specs.Device.{CountsFailure, Takes, counted_inner, counted_failures, one_more};

use crate::device::{Failed, Read, Write};
use std::io;
use std::io::ErrorKind;

/// A device over a reader or writer of std that counts its failures. A call that a signal interrupted is repeated, and
/// does not count as a failure.
#[derive(Drop)]
pub struct Counted<T> {
    inner: T,
    failures: u64,
}

impl<T> Counted<T> {
    /// Creates the device over `inner`, with no failure yet.
    pub fn new(inner: T) -> Counted<T>
        ensures inner { counted_inner result ≡ inner }
        ensures failures { counted_failures result ≡ 0 }
    {
        Counted { inner, failures: 0 }
    }

    /// Returns the reader or writer inside.
    pub fn into_inner(self) -> T
        ensures { result ≡ counted_inner self }
    {
        self.inner
    }

    /// Returns how often the device has failed, up to `u64::MAX`.
    pub fn failures(&self) -> u64
        ensures { result ≡ counted_failures self.now }
    {
        self.failures
    }

    /// Counts a failure, and returns it.
    pub(crate) fn fail(&mut self) -> Failed
        ensures inner { counted_inner self.new ≡ counted_inner self.old }
        ensures failures { counted_failures self.new ≡ one_more (counted_failures self.old) }
    {
        self.failures = self.failures.saturating_add(1);
        Failed
    }
}

impl<T: io::Write> Counted<T> {
    /// Flushes the writer.
    ///
    /// # Errors
    ///
    /// `Failed` if the writer fails; the failure is counted.
    pub fn flush(&mut self) -> Result<(), Failed>
        ensures taken { Keeps (T.contents (counted_inner self.old))
            (T.contents (counted_inner self.new)) }
        ensures counts { CountsFailure (counted_failures self.old)
            (counted_failures self.new) result }
    {
        for _ in 0..u64::MAX {
            match self.inner.flush() {
                Ok(()) => return Ok(()),
                Err(error) if error.kind() == ErrorKind::Interrupted => {}
                Err(_) => break,
            }
        }
        Err(self.fail())
    }
}

impl<T: io::Read> Read for Counted<T> {
    ghost remaining = { λ device. T.remaining (counted_inner device) };

    ghost failures = { counted_failures };

    fn read(&mut self, buffer: &mut [u8]) -> Result<usize, Failed> {
        for _ in 0..u64::MAX {
            match self.inner.read(buffer) {
                Ok(count) => return Ok(count),
                Err(error) if error.kind() == ErrorKind::Interrupted => {}
                Err(_) => break,
            }
        }
        Err(self.fail())
    }
}

impl<T: io::Write> Counted<T> {
    /// Writes once. Returns how many octets the writer took: 0 if a signal interrupted it or `octets` is empty.
    /// `Failed` if the writer fails, or takes no octet of a non-empty slice.
    #[inline(always)]
    fn write_once(&mut self, octets: &[u8]) -> Result<usize, Failed>
        ensures within { IfOk result (λ n. n ≤ length octets.now) }
        ensures taken { MatchResult result (λ n. Appends (T.contents (counted_inner self.old))
            (T.contents (counted_inner self.new)) (take n octets.now))
            (λ _. Keeps (T.contents (counted_inner self.old)) (T.contents (counted_inner self.new))) }
        ensures counts { CountsFailure (counted_failures self.old) (counted_failures self.new) result }
    {
        match self.inner.write(octets) {
            Ok(0) if !octets.is_empty() => Err(self.fail()),
            Ok(count) => Ok(count),
            Err(error) if error.kind() == ErrorKind::Interrupted => Ok(0),
            Err(_) => Err(self.fail()),
        }
    }

    /// Writes the octets after the first `taken`, which the first write took.
    #[cold]
    #[inline(never)]
    fn write_rest(&mut self, octets: &[u8], taken: usize) -> Result<(), Failed>
        requires { taken ≤ length octets.now }
        ensures takes { Takes (T.contents (counted_inner self.old)) (T.contents (counted_inner self.new)) result
            (drop taken octets.now) }
        ensures counts { CountsFailure (counted_failures self.old) (counted_failures self.new) result }
    {
        let mut rest = &octets[taken..];
        for _ in 0..u64::MAX {
            if rest.is_empty() {
                return Ok(());
            }
            let count = self.write_once(rest)?;
            rest = &rest[count..];
        }
        Err(self.fail())
    }
}

impl<T: io::Write> Write for Counted<T> {
    ghost taken = { λ device. T.contents (counted_inner device) };

    ghost failures = { counted_failures };

    #[inline(always)]
    fn write_all(&mut self, octets: &[u8]) -> Result<(), Failed> {
        let taken = self.write_once(octets)?;
        if taken == octets.len() {
            return Ok(());
        }
        self.write_rest(octets, taken)
    }
}
