//! The source of the octets that the program reads: a file, or the standard input.

ghost use Rattle.std.specs.Prelude.{◌≡◌, None};

use crate::opening::{DASH, is_folder};
use std::fs;
use std::fs::File;
use std::io::StdinLock;
use tcap_ber::{Counted, Failed, Read};
use tcap_diagnostics::FirstOctets;

/// The origin of a source's octets.
#[derive(Drop)]
enum Origin {
    /// A file.
    File(Counted<File>),
    /// The standard input.
    Input(Counted<StdinLock<'static>>),
    /// A file that could not be opened.
    Unopened,
}

/// A reader of a file or of the standard input. Each read of a file that could not be opened fails.
#[derive(Drop)]
pub(crate) struct Source {
    origin: Origin,
    failures: u64,
}

impl Source {
    /// Creates a reader of this origin.
    fn new(origin: Origin) -> Source
        ensures { result.failures ≡ 0 }
    {
        Source {
            origin,
            failures: 0,
        }
    }

    /// Creates a reader of a file.
    pub(crate) fn file(file: File) -> Source
        ensures { result.failures ≡ 0 }
    {
        Source::new(Origin::File(Counted::new(file)))
    }

    /// Creates a reader of the standard input.
    pub(crate) fn input(rt: &HostRuntime) -> Source
        ensures { result.failures ≡ 0 }
    {
        Source::new(Origin::Input(Counted::new(rt.reader())))
    }

    /// Returns how many reads failed, at most 2 ^ 64 - 1.
    pub(crate) fn failures(&self) -> u64
        ensures { result ≡ self.now.failures }
    {
        self.failures
    }

    /// Opens the file with this path, or the standard input if the path is `-`. If the file can't be opened, or is a
    /// directory, standard error says so.
    pub(crate) fn open(rt: &HostRuntime, path: &str) -> Source {
        if path == DASH {
            return Source::input(rt);
        }
        match fs::open(rt, path) {
            Ok(file) => {
                if is_folder(rt, path) {
                    let _ = eprintln!(rt; "error: {path}: it is a directory");
                }
                Source::file(file)
            }
            Err(error) => {
                let _ = eprintln!(rt; "error: {path}: {error}");
                Source::new(Origin::Unopened)
            }
        }
    }

    /// Opens the file with this path, as `open` does. Its first octets are noted.
    pub(crate) fn noted(rt: &HostRuntime, path: &str) -> FirstOctets<Source> {
        FirstOctets::new(rt.alloc(), Source::open(rt, path))
    }
}

impl Read for Source {
    ghost remaining = { λ _. None };

    ghost failures = { λ source. source.failures };

    fn read(&mut self, buffer: &mut [u8]) -> Result<usize, Failed> {
        let read = match &mut self.origin {
            Origin::File(file) => file.read(buffer),
            Origin::Input(input) => input.read(buffer),
            Origin::Unopened => Err(Failed),
        };
        if read.is_err() {
            self.failures = self.failures.saturating_add(1);
        }
        read
    }
}
