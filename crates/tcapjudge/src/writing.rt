//! The writers of `test`: files, and the standard output.

ghost use Rattle.std.specs.Prelude.{None};
ghost use Rattle.tcap_ber.specs.Device.{CountsFailure};

use std::fs::{File, OpenOptions};
use std::io;
use std::io::{BufWriter, Write as _};
use std::os::unix::fs::FileExt;
use tcap_ber::{Failed, Write};
use tcap_report::{Lines, Stop};

/// A writer that keeps the error of its last failure.
#[derive(Drop)]
pub(crate) struct Sink<W> {
    writer: W,
    error: Option<io::Error>,
    failures: u64,
}

impl<W: io::Write> Sink<W> {
    /// Creates a sink over a writer that has not failed.
    pub(crate) fn new(writer: W) -> Sink<W> {
        Sink {
            writer,
            error: None,
            failures: 0,
        }
    }

    /// Writes what the writer keeps back.
    fn flush(&mut self) -> Result<(), Failed> {
        let ended = self.writer.flush();
        self.note_failure(ended)
    }
}

impl<W> Sink<W> {
    /// Keeps the error of a call, if it failed, and counts the failure.
    fn note_failure(&mut self, ended: io::Result<()>) -> Result<(), Failed>
        ensures { CountsFailure self.old.failures self.new.failures result }
    {
        match ended {
            Ok(()) => Ok(()),
            Err(error) => {
                self.error = Some(error);
                self.failures = self.failures.saturating_add(1);
                Err(Failed)
            }
        }
    }
}

impl<W: io::Write> Write for Sink<W> {
    ghost taken = { λ _. None };

    ghost failures = { λ sink. sink.failures };

    fn write_all(&mut self, octets: &[u8]) -> Result<(), Failed> {
        let ended = self.writer.write_all(octets);
        self.note_failure(ended)
    }
}

/// Reports on standard error why standard output can't be written, if it can't. A pipe that its reader closed, as
/// `head` does, is not reported.
pub(crate) fn report_unprinted<W>(rt: &HostRuntime, sink: &Sink<W>) {
    match &sink.error {
        Some(error) if error.kind() != io::ErrorKind::BrokenPipe => {
            let _ = eprintln!(rt; "error: standard output can't be written: {error}");
        }
        _ => {}
    }
}

/// An output file, and its path.
#[derive(Drop)]
pub(crate) struct Output {
    path: String,
    sink: Sink<BufWriter<File>>,
}

impl Write for Output {
    ghost taken = { λ _. None };

    ghost failures = { λ output. output.sink.failures };

    fn write_all(&mut self, octets: &[u8]) -> Result<(), Failed> {
        self.sink.write_all(octets)
    }
}

impl Lines for Output {
    fn flush(&mut self) -> Result<(), Failed> {
        self.sink.flush()
    }
}

/// Reports on standard error why the file with this path can't be written.
fn report_write_failure(rt: &HostRuntime, path: &str, error: io::Error) -> Stop {
    let _ = eprintln!(rt; "error: {path}: {error}");
    Stop::Write
}

/// Puts `text` in place of what a plain file holds. What is written next goes over it. Does nothing to other files,
/// such as pipes.
fn begin(file: &File, text: &str) -> io::Result<()> {
    if file.metadata()?.is_file() {
        file.set_len(0)?;
        file.write_all_at(text.as_bytes(), 0)?;
    }
    Ok(())
}

/// Cuts off what a plain file has after `len` octets.
fn cut(file: &File, len: usize) -> io::Result<()> {
    if file.metadata()?.is_file() {
        file.set_len(len as u64)?;
    }
    Ok(())
}

impl Output {
    /// Opens the file with this path, if there is a path, and creates it if it is missing. Keeps its contents. If this
    /// fails, standard error says why.
    pub(crate) fn open(rt: &HostRuntime, path: Option<&str>) -> Result<Option<Output>, Stop> {
        let Some(path) = path else {
            return Ok(None);
        };
        let file = match OpenOptions::new().write(true).create(true).open(rt, path) {
            Ok(file) => file,
            Err(error) => return Err(report_write_failure(rt, path, error)),
        };
        let Ok(buffer) = BufWriter::new(rt.alloc(), file) else {
            return Err(Stop::Memory);
        };
        let mut name = String::new(rt.alloc());
        name.push_str(path)?;
        Ok(Some(Output {
            path: name,
            sink: Sink::new(buffer),
        }))
    }

    /// Puts `text` in place of what a plain file holds, if there is one, and returns the file. What is written next
    /// goes over it. If this fails, standard error says why.
    pub(crate) fn begin(
        rt: &HostRuntime,
        output: Option<Output>,
        text: &str,
    ) -> Result<Option<Output>, Stop> {
        let Some(output) = output else {
            return Ok(None);
        };
        match begin(output.sink.writer.get_ref(), text) {
            Ok(()) => Ok(Some(output)),
            Err(error) => Err(report_write_failure(rt, &output.path, error)),
        }
    }

    /// Writes all that a file is to hold, over the text with which it began.
    pub(crate) fn replace(&mut self, octets: &[u8]) -> Result<(), Failed> {
        self.sink.write_all(octets)?;
        self.sink.flush()?;
        let ended = cut(self.sink.writer.get_ref(), octets.len());
        self.sink.note_failure(ended)
    }

    /// Writes the rest of a file, if there is one. If a write failed, standard error says why.
    pub(crate) fn finish(rt: &HostRuntime, output: Option<Output>) -> Result<(), Stop> {
        let Some(output) = output else {
            return Ok(());
        };
        let Output { path, sink } = output;
        let Sink {
            writer: mut buffer,
            error,
            ..
        } = sink;
        let ended = match error {
            Some(error) => Err(error),
            None => buffer.flush(),
        };
        // Nothing is written after a failure, so drop what the buffer still holds.
        let _ = buffer.into_parts();
        match ended {
            Ok(()) => Ok(()),
            Err(error) => Err(report_write_failure(rt, &path, error)),
        }
    }
}
