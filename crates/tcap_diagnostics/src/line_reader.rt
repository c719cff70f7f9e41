//! A reader of lines that keeps the last lines.

ghost use Rattle.std.specs.Prelude.{◌≡◌};
ghost use Rattle.tcap_diagnostics.specs.Devices.{line_reader_inner};

use std::alloc::Global;
use tcap_ber::{Failed, Read};

/// The last lines of a reader.
#[derive(Drop)]
pub(crate) struct Tail {
    /// The octets of these lines, from the beginning of the first.
    pub(crate) octets: Vec<u8>,
    /// The number of lines before them.
    pub(crate) lines: u64,
    /// True if the reader has ended.
    pub(crate) ended: bool,
    /// True if octets are missing because memory ran out.
    pub(crate) lost: bool,
}

impl Tail {
    /// Drops the finished lines. The caller asks for more octets only after lines without a fault.
    fn drop_whole(&mut self) {
        let Some(last) = self.octets.iter().rposition(|octet| *octet == b'\n') else {
            return;
        };
        let count = self.octets.iter().filter(|octet| **octet == b'\n').count();
        self.lines = self.lines.saturating_add(count as u64);
        let len = self.octets.len();
        let first = last.saturating_add(1).min(len);
        self.octets.copy_within(first.., 0);
        self.octets.truncate(len - first);
    }

    /// Keeps the octets that were read next.
    fn keep(&mut self, returned: &[u8]) {
        self.ended = returned.is_empty();
        self.lost = self.lost || self.octets.extend_from_slice(returned).is_err();
    }
}

/// A reader that passes octets on from another reader, and keeps the last lines: those that end in the last piece or
/// are unfinished.
#[derive(Drop)]
pub struct LineReader<R> {
    reader: R,
    tail: Tail,
}

impl<R> LineReader<R> {
    /// Creates a reader over `reader` that has kept nothing yet.
    pub fn new(alloc: Global, reader: R) -> LineReader<R>
        ensures { line_reader_inner result ≡ reader }
    {
        LineReader {
            reader,
            tail: Tail {
                octets: Vec::new(alloc),
                lines: 0,
                ended: false,
                lost: false,
            },
        }
    }

    /// Returns the reader within.
    pub fn inner(&self) -> &R
        ensures { result.now ≡ line_reader_inner self.now }
    {
        &self.reader
    }

    /// Returns the last lines.
    pub(crate) fn tail(&self) -> &Tail {
        &self.tail
    }
}

impl<R: Read> Read for LineReader<R> {
    ghost remaining = { λ device. R.remaining (line_reader_inner device) };

    ghost failures = { λ device. R.failures (line_reader_inner device) };

    fn read(&mut self, buffer: &mut [u8]) -> Result<usize, Failed> {
        self.tail.drop_whole();
        let returned = self.reader.read(buffer)?;
        self.tail.keep(&buffer[..returned]);
        Ok(returned)
    }
}
