//! The traces of `test`, as files.

ghost use Rattle.std.specs.Prelude.{◌≡◌, None, IfOk};
ghost use Rattle.tcapjudge.specs.TraceFiles.{HasNotFailed};

use crate::opening::{DASH, is_folder};
use crate::outputs::INPUT;
use crate::source::Source;
use std::alloc::AllocError;
use std::fs;
use tcap_report::{Opened, Stop, Traces};

/// The reason why a directory is no trace.
const IS_FOLDER: &str = "it is a directory";

/// The traces of the command line: files, or the standard input if the path is `-`.
#[derive(Drop)]
pub(crate) struct TraceFiles<'a> {
    rt: &'a HostRuntime,
    paths: &'a [&'a str],
    opened: u64,
    unread: u64,
}

impl<'a> TraceFiles<'a> {
    /// Creates the traces with these paths. None is opened yet.
    pub(crate) fn new(rt: &'a HostRuntime, paths: &'a [&'a str]) -> TraceFiles<'a>
        ensures { (result.opened ≡ 0) × (result.unread ≡ 0) }
    {
        TraceFiles {
            rt,
            paths,
            opened: 0,
            unread: 0,
        }
    }

    /// Returns that a trace can't be read, with the reason.
    fn unread(&self, why: &str) -> Result<Opened<Source>, AllocError>
        ensures { IfOk result HasNotFailed }
    {
        let mut text = String::new(self.rt.alloc());
        text.push_str(why)?;
        Ok(Opened::Unread(text))
    }

    /// Opens the standard input.
    fn open_input(&self) -> Result<Opened<Source>, AllocError>
        ensures { IfOk result HasNotFailed }
    {
        if is_folder(self.rt, INPUT) {
            return self.unread(IS_FOLDER);
        }
        Ok(Opened::Octets(Source::input(self.rt), None))
    }

    /// Opens the trace with this number.
    fn open_number(&self, number: u64) -> Result<Opened<Source>, Stop>
        ensures { IfOk result HasNotFailed }
    {
        match self.paths.get(number as usize) {
            Some(path) => self.open_path(*path),
            None => Ok(self.unread("it is not on the command line")?),
        }
    }

    /// Opens the trace with this path.
    fn open_path(&self, path: &str) -> Result<Opened<Source>, Stop>
        ensures { IfOk result HasNotFailed }
    {
        if path == DASH {
            return Ok(self.open_input()?);
        }
        match fs::open(self.rt, path) {
            Ok(_) if is_folder(self.rt, path) => Ok(self.unread(IS_FOLDER)?),
            Ok(file) => Ok(Opened::Octets(Source::file(file), size_of(self.rt, path))),
            Err(error) => {
                let mut text = String::new(self.rt.alloc());
                if write!(text, "{error}").is_err() {
                    return Err(Stop::Memory);
                }
                Ok(Opened::Unread(text))
            }
        }
    }
}

/// Returns the number of octets of the plain file with this path, if there is one.
fn size_of(rt: &HostRuntime, path: &str) -> Option<u64> {
    match fs::metadata(rt, path) {
        Ok(found) if found.is_file() => Some(found.len()),
        _ => None,
    }
}

impl Traces for TraceFiles<'_> {
    type Octets = Source;

    ghost octets = { λ _ _. None };

    ghost opened = { λ files. files.opened };

    ghost unread = { λ files. files.unread };

    fn open(&mut self) -> Result<Opened<Source>, Stop> {
        let Some(next) = self.opened.checked_add(1) else {
            return Err(Stop::Memory);
        };
        let opened = self.open_number(self.opened)?;
        self.opened = next;
        if let Opened::Unread(_) = &opened {
            self.unread = self.unread.saturating_add(1);
        }
        Ok(opened)
    }

    fn close(&mut self, reader: Source) {
        if reader.failures() > 0 {
            self.unread = self.unread.saturating_add(1);
        }
    }
}
