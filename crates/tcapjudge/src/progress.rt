//! Progress of `test`, on standard error.

use std::alloc::AllocError;
use std::time::Instant;
use tcap_command_line::Test;
use tcap_report::{Sum, Watch};

/// The state of the reading when a report was written.
#[derive(Clone, Copy)]
struct Reading {
    time: Instant,
    /// The messages of all traces so far.
    messages: u64,
    /// The octets of the trace so far. None if another trace has begun since.
    octets: Option<u64>,
}

/// A progress report on standard error, at most once a second. The first one comes a second after the first look.
#[derive(Drop)]
pub(crate) struct Progress<'a> {
    rt: &'a HostRuntime,
    is_asked: bool,
    /// The last report or, before the first report, the first look.
    last: Option<Reading>,
    /// The number of octets of the trace that were read.
    octets: u64,
    /// The number of octets of the trace, if it is a plain file.
    size: Option<u64>,
}

impl<'a> Progress<'a> {
    /// Creates a progress report that has written nothing yet.
    pub(crate) fn new(rt: &'a HostRuntime, test: &Test) -> Progress<'a> {
        Progress {
            rt,
            is_asked: test.progress,
            last: None,
            octets: 0,
            size: None,
        }
    }

    /// Appends the line of the sum, and the speed since `last`.
    fn push(
        &self,
        text: &mut String,
        sum: &Sum,
        waiting: usize,
        now: Reading,
        last: Reading,
    ) -> Result<(), AllocError> {
        sum.push(text)?;
        self.push_speed(text, waiting, now, last)
    }

    /// Appends a line with the messages a second since `last`, the number of dialogues that are not judged yet and, if
    /// the size of the trace is known, how much of it was read.
    fn push_speed(
        &self,
        text: &mut String,
        waiting: usize,
        now: Reading,
        last: Reading,
    ) -> Result<(), AllocError> {
        let passed = now.time.saturating_duration_since(last.time);
        let millis = u64::try_from(passed.as_millis()).unwrap_or(u64::MAX);
        let messages = now.messages.saturating_sub(last.messages);
        let speed = messages.saturating_mul(1000) / millis.max(1);
        write!(
            text,
            "  {speed} messages a second, {waiting} dialogues not judged yet"
        )?;
        match self.size {
            Some(size) if self.octets <= size => self.push_rest(text, size, millis, last)?,
            _ => {}
        }
        text.push_str("\n")
    }

    /// Appends how much of a trace of `size` octets was read. If octets were read in the last `millis` milliseconds,
    /// appends how many seconds the rest takes at this speed, rounded up.
    fn push_rest(
        &self,
        text: &mut String,
        size: u64,
        millis: u64,
        last: Reading,
    ) -> Result<(), AllocError> {
        let percent = self.octets.saturating_mul(100) / size.max(1);
        write!(text, "; {percent} % of the trace is read")?;
        let read = match last.octets {
            Some(octets) => self.octets.saturating_sub(octets),
            None => 0,
        };
        let rest = size.saturating_sub(self.octets);
        if read > 0 && rest > 0 {
            // Rounded up: whole seconds before the last, and the last.
            let whole = rest.saturating_mul(millis).saturating_sub(1) / read / 1000;
            let left = whole.saturating_add(1);
            write!(text, ", {left} s to its end")?;
        }
        Ok(())
    }
}

impl Watch for Progress<'_> {
    fn begin(&mut self, octets: Option<u64>) {
        self.octets = 0;
        self.size = octets;
        if let Some(last) = &mut self.last {
            last.octets = None;
        }
    }

    fn read(&mut self, octets: usize) {
        self.octets = self.octets.saturating_add(octets as u64);
    }

    fn look(&mut self, sum: &Sum, waiting: usize) {
        if !self.is_asked {
            return;
        }
        let Ok(time) = Instant::now(self.rt) else {
            return;
        };
        let now = Reading {
            time,
            messages: sum.messages(),
            octets: Some(self.octets),
        };
        let Some(last) = self.last else {
            self.last = Some(now);
            return;
        };
        if time.saturating_duration_since(last.time).as_secs() == 0 {
            return;
        }
        let mut text = String::new(self.rt.alloc());
        if self.push(&mut text, sum, waiting, now, last).is_ok() {
            let _ = eprint!(self.rt; "{text}");
        }
        self.last = Some(now);
    }
}
