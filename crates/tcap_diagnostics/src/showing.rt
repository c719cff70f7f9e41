//! Shows the entries of a record while its octets are read.

ghost use Rattle.std.specs.Prelude.{◌≡◌, ◌≢◌, ◌≤◌, length, Err, IfOk, IsErr, OnOk, OnErr};
ghost use Rattle.tcap_ber.specs.Device.{one_more};
ghost use Rattle.tcap_lines.specs.declared.stop.Stop.{Stop};

use crate::fault_reasons::{push_entry_why, push_record_why};
use crate::octets_around::SIDE;
use std::alloc::{AllocError, Global};
use tcap_ber::Write;
use tcap_lines::{MEMORY_LINE, Status, Stop, WriteFailed};
use tcap_record::{BodyView, FeedFault, FeedReason, Frames, push_fault, push_view};

/// The state of showing a record.
#[derive(Debug, Drop)]
pub(crate) struct ShowState {
    alloc: Global,
    frames: Frames,
    // The last octets read: the entry at the front, at most `SIDE` octets before it, and after a fault some octets
    // after it.
    held: Vec<u8>,
    // The number of held octets after a fault, which were not taken.
    behind: usize,
    // The lines of one entry.
    text: String,
    // Whether faults are explained.
    why: bool,
    // Whether an entry was no message.
    bad: bool,
}

/// Keeps the last `count` octets.
fn keep_last(octets: &mut Vec<u8>, count: usize) {
    let first = octets.len().saturating_sub(count);
    if first > 0 {
        octets.copy_within(first.., 0);
        octets.truncate(count);
    }
}

/// Returns the message octets of the entry at the front. The held octets end with this entry.
fn message_of<'a>(frames: &Frames, held: &'a [u8]) -> &'a [u8] {
    match &held[held.len().saturating_sub(frames.buffered())..] {
        [_, message @ ..] => message,
        [] => held,
    }
}

/// Appends the lines of the entry at the front, if it is whole. Returns whether it is bad, or None if there is no whole
/// entry.
fn push_front(
    alloc: Global,
    frames: &Frames,
    held: &[u8],
    why: bool,
    text: &mut String,
) -> Result<Option<bool>, AllocError> {
    let Some(entry) = frames.front() else {
        return Ok(None);
    };
    push_view(text, frames.dropped(), &entry)?;
    let BodyView::Bad(fault) = entry.body else {
        return Ok(Some(false));
    };
    if why {
        push_entry_why(alloc, text, fault, message_of(frames, held), entry.place)?;
    }
    Ok(Some(true))
}

impl ShowState {
    /// Creates the state before the first octet. `why`: faults are explained.
    pub(crate) fn new(alloc: Global, why: bool) -> ShowState {
        ShowState {
            alloc,
            frames: Frames::new(alloc),
            held: Vec::new(alloc),
            behind: 0,
            text: String::new(alloc),
            why,
            bad: false,
        }
    }

    /// Returns the number of octets taken in all.
    pub(crate) fn taken(&self) -> u64 {
        self.frames.taken()
    }

    /// Checks that the record may end here.
    pub(crate) fn finish(&self) -> Result<(), FeedFault> {
        self.frames.finish()
    }

    /// Takes octets of `piece` until an entry is whole or the piece ends. Returns their number.
    fn take_some(&mut self, piece: &[u8]) -> Result<usize, FeedFault>
        ensures most { IfOk result (λ n. n ≤ length piece.now) }
    {
        let before = self.frames.taken();
        let fed = self.frames.feed_some(piece);
        let taken = self.frames.taken().saturating_sub(before);
        let taken = taken.min(piece.len() as u64) as usize;
        let (front, behind) = piece.split_at(taken);
        self.held.extend_from_slice(front)?;
        if let Err(fault) = fed {
            self.behind = SIDE.min(behind.len());
            self.held.extend_from_slice(&behind[..self.behind])?;
            return Err(fault);
        }
        Ok(taken)
    }

    /// Writes the lines of the entry at the front and drops the entry, if it is whole. Returns whether it was whole.
    fn show_front<W: Write>(&mut self, writer: &mut W) -> Result<bool, Stop>
        ensures write { result ≡ Err Stop.Write → W.failures writer.new ≡ one_more (W.failures writer.old) }
        ensures others { result ≢ Err Stop.Write → W.failures writer.new ≡ W.failures writer.old }
    {
        self.text.clear();
        let shown = push_front(
            self.alloc,
            &self.frames,
            &self.held,
            self.why,
            &mut self.text,
        )?;
        let Some(bad) = shown else {
            return Ok(false);
        };
        writer.write_all(self.text.as_bytes())?;
        self.bad = self.bad || bad;
        self.frames.drop_front();
        keep_last(&mut self.held, SIDE);
        Ok(true)
    }

    /// Takes all octets of `piece`, up to a fault, and writes the lines of the entries that become whole.
    pub(crate) fn show_piece<W: Write>(&mut self, piece: &[u8], writer: &mut W) -> Result<(), Stop>
        ensures write { result ≡ Err Stop.Write → W.failures writer.new ≡ one_more (W.failures writer.old) }
        ensures others { result ≢ Err Stop.Write → W.failures writer.new ≡ W.failures writer.old }
    {
        let mut rest = piece;
        for _ in 0..u64::MAX {
            let taken = self.take_some(rest)?;
            rest = &rest[taken..];
            if !self.show_front(writer)? {
                break;
            }
        }
        Ok(())
    }

    /// Appends the line of a fault of the record. If `why` is set, and octets are to be seen, also appends the line
    /// that explains it.
    fn push_end(&mut self, fault: FeedFault) -> Result<(), AllocError> {
        self.text.clear();
        push_fault(&mut self.text, fault.reason.number(), fault.place)?;
        if !self.why || matches!(fault.reason, FeedReason::Memory | FeedReason::BadHexLine) {
            return Ok(());
        }
        let back = self.frames.taken().saturating_sub(fault.place);
        let taken = self.held.len().saturating_sub(self.behind) as u64;
        let at = taken.saturating_sub(back) as usize;
        push_record_why(&mut self.text, fault, &self.held, at)
    }

    /// Writes the lines of a fault of the record.
    fn write_end<W: Write>(&mut self, fault: FeedFault, writer: &mut W) -> Result<(), WriteFailed>
        ensures counts { OnOk result (W.failures writer.new ≡ W.failures writer.old) }
        ensures failed { OnErr result (W.failures writer.new ≡ one_more (W.failures writer.old)) }
    {
        let line = match self.push_end(fault) {
            Ok(()) => self.text.as_bytes(),
            Err(AllocError) => MEMORY_LINE.as_bytes(),
        };
        writer.write_all(line).map_err(|_| WriteFailed)
    }

    /// Ends the output: writes the lines of the fault, if there is one, and returns the status of the run.
    pub(crate) fn end<W: Write>(
        mut self,
        ended: Result<(), Stop>,
        writer: &mut W,
    ) -> Result<Status, WriteFailed>
        ensures stopped { ended ≡ Err Stop.Write → IsErr result
            × (W.failures writer.new ≡ W.failures writer.old) }
        ensures counts { OnOk result (W.failures writer.new ≡ W.failures writer.old) }
        ensures failed { ended ≢ Err Stop.Write
            → OnErr result (W.failures writer.new ≡ one_more (W.failures writer.old)) }
    {
        match ended {
            Ok(()) if self.bad => Ok(Status::Fault),
            Ok(()) => Ok(Status::Fine),
            Err(Stop::Write) => Err(WriteFailed),
            Err(Stop::Fault(fault)) => {
                self.write_end(fault, writer)?;
                Ok(Status::Fault)
            }
        }
    }
}
