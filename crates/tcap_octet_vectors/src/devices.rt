//! Looks at devices whose calls are interrupted or fail.

use std::alloc::Global;
use std::io;
use std::io::ErrorKind;
use tcap_ber::{Counted, Read, ReadError, Write, read_to_end};
use tcap_vectors::Failing;

/// A device that interrupts every second call and moves at most two octets in each other call. If it is broken, each
/// call fails.
#[derive(Drop)]
struct Unsteady<T> {
    inner: T,
    is_steady: bool,
    is_broken: bool,
}

impl<T> Unsteady<T> {
    fn turn(&mut self) -> io::Result<()> {
        if self.is_broken {
            return Err(io::Error::from(ErrorKind::BrokenPipe));
        }
        self.is_steady = !self.is_steady;
        if self.is_steady {
            return Ok(());
        }
        Err(io::Error::from(ErrorKind::Interrupted))
    }
}

impl<T: io::Read> io::Read for Unsteady<T> {
    fn read(&mut self, buffer: &mut [u8]) -> io::Result<usize> {
        self.turn()?;
        let most = buffer.len().min(2);
        self.inner.read(&mut buffer[..most])
    }
}

impl<T: io::Write> io::Write for Unsteady<T> {
    fn write(&mut self, buffer: &[u8]) -> io::Result<usize> {
        self.turn()?;
        self.inner.write(&buffer[..buffer.len().min(2)])
    }

    fn flush(&mut self) -> io::Result<()> {
        self.turn()?;
        self.inner.flush()
    }
}

/// Looks at a row of `devices`. An interrupted device must cause no failure, and a broken one must fail at each call.
pub(crate) fn is_device(alloc: Global, octets: &[u8]) -> Option<bool> {
    for is_broken in [false, true] {
        let failures = u64::from(is_broken);
        let mut taken = Vec::new(alloc);
        let mut source = Counted::new(Unsteady {
            inner: octets,
            is_steady: true,
            is_broken,
        });
        let is_read = read_to_end(&mut source, &mut taken).is_ok() && taken.as_slice() == octets;
        let mut sink = Counted::new(Unsteady {
            inner: Vec::new(alloc),
            is_steady: true,
            is_broken,
        });
        let is_written = sink.write_all(octets).is_ok();
        let is_flushed = sink.flush().is_ok();
        if is_read == is_broken
            || is_written == is_broken
            || is_flushed == is_broken
            || source.failures() != failures
            || sink.failures() != failures * 2
            || (sink.into_inner().inner.as_slice() == octets) == is_broken
        {
            return Some(false);
        }
    }
    Some(true)
}

/// Looks at a row of `failing devices`. After the call that fails, reading and writing continue.
pub(crate) fn is_failing_device(alloc: Global, octets: &[u8], count: usize) -> Option<bool> {
    let mut source = Failing::new(octets, count);
    let mut taken = Vec::new(alloc);
    let is_failed = read_to_end(&mut source, &mut taken) == Err(ReadError::Failed)
        && Some(taken.as_slice()) == octets.get(..count);
    let is_read = read_to_end(&mut source, &mut taken).is_ok() && taken.as_slice() == octets;

    let mut sink = Failing::new(Vec::new(alloc), count);
    let is_cut = sink.write_all(octets).is_err();
    let is_written = sink.write_all(octets.get(count..)?).is_ok();
    Some(is_failed && is_read && is_cut && is_written && sink.into_inner().as_slice() == octets)
}
