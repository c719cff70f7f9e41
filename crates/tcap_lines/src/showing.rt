//! Printing the entries of a record.

ghost use Rattle.std.specs.Prelude.{◌≡◌, ◌≢◌, ◌⊎◌, ◌+◌, ◌<◌, ◌≤◌, ℕ, Bool, length, take, false, Some, None, Ok, Err, IfOk, OnOk, OnErr};
ghost use Rattle.std.specs.Io.KnownBytes.{Appends};
ghost use Rattle.tcap_ber.specs.Device.{one_more};
ghost use Rattle.tcap_record.specs.declared.fault.FeedFault.{FeedFault};
ghost use Rattle.tcap_record.specs.declared.fault.FeedReason.{FeedReason};
ghost use Rattle.tcap_record.specs.declared.entry.Entry.{Entry};
ghost use Rattle.tcap_record.specs.FramingResult.{feed_fault};
ghost use Rattle.tcap_record.specs.PartialRecord.{IsFront, IsFramerState, IsPart, IsWhole, empty_framer};
ghost use Rattle.tcap_record.specs.Lines.{entry_lines};
ghost use Rattle.tcap_record.specs.EntryView.{entry_read};
ghost use Rattle.tcap_lines.specs.declared.stop.Stop.{Stop};
ghost use Rattle.tcap_lines.specs.ShowRun.{Shows, is_bad};
ghost use Rattle.tcap_lines.specs.RecordLines.{Leads, ShowsAll, UnlessWrite};

use crate::fault_lines::write_fault;
use crate::status::{Status, WriteFailed};
use crate::stop::Stop;
use std::alloc::Global;
use tcap_ber::{Failed, Read, Write};
use tcap_record::{BodyView, EntryView, FeedFault, FeedReason, Frames, PIECE_LEN, push_view};

/// The state of printing a record in pieces.
#[derive(Drop)]
struct ShowState {
    frames: Frames,
    // The lines of one entry.
    text: String,
    // Whether an entry so far is not a message.
    bad: bool,
}

/// Writes the lines of the entry with this number. Returns whether it is bad, that is, not a message.
#[inline(always)]
fn show_entry<W: Write>(
    number: usize,
    entry: &EntryView,
    text: &mut String,
    writer: &mut W,
) -> Result<bool, Stop>
    ensures shown { (bad : Bool) → result ≡ Ok bad
        → Appends (W.taken writer.old) (W.taken writer.new) (entry_lines number (entry_read entry.now))
        × (bad ≡ is_bad (entry_read entry.now)) }
    ensures memory { (f : FeedFault) → result ≡ Err (Stop.Fault f) → (f ≡ feed_fault FeedReason.Memory 0)
        × (writer.new ≡ writer.old) }
    ensures write { result ≡ Err Stop.Write → W.failures writer.new ≡ one_more (W.failures writer.old) }
    ensures others { result ≢ Err Stop.Write → W.failures writer.new ≡ W.failures writer.old }
{
    let is_bad = matches!(entry.body, BodyView::Bad(_));
    text.clear();
    push_view(text, number, entry)?;
    writer.write_all(text.as_bytes())?;
    Ok(is_bad)
}

/// Writes the lines of the whole entry at the front. Returns whether it is bad, or `None` if there is no whole entry.
#[inline(never)]
fn show_front<W: Write>(
    frames: &Frames,
    text: &mut String,
    writer: &mut W,
) -> Result<Option<bool>, Stop>
    ensures shown { (bad : Bool) → result ≡ Ok (Some bad) → (entry : Entry) × IsFront entry frames.now
        × (frames.now.fault ≡ None) × IsWhole frames.now.octets
        × Appends (W.taken writer.old) (W.taken writer.new) (entry_lines frames.now.count entry)
        × (bad ≡ is_bad entry) }
    ensures none { result ≡ Ok None → ((frames.now.fault ≡ None) × IsWhole frames.now.octets → ⊥)
        × (writer.new ≡ writer.old) }
    ensures memory { (f : FeedFault) → result ≡ Err (Stop.Fault f) → (f ≡ feed_fault FeedReason.Memory 0)
        × (writer.new ≡ writer.old) }
    ensures write { result ≡ Err Stop.Write → W.failures writer.new ≡ one_more (W.failures writer.old) }
    ensures others { result ≢ Err Stop.Write → W.failures writer.new ≡ W.failures writer.old }
{
    let Some(entry) = frames.front() else {
        return Ok(None);
    };
    Ok(Some(show_entry(frames.dropped(), &entry, text, writer)?))
}

impl ShowState {
    /// Takes the whole entries at the front of `piece`, if no octets are held, and writes their lines. Returns the
    /// number of octets taken.
    fn show_whole<W: Write>(&mut self, piece: &[u8], writer: &mut W) -> Result<usize, Stop>
        ensures most { IfOk result (λ n. n ≤ length piece.now) }
        ensures shows { IfOk result (λ n. Leads self.old.frames self.old.bad (W.taken writer.old)
            (take n piece.now) self.new.frames self.new.bad (W.taken writer.new)) }
        ensures failed { (f : FeedFault) → result ≡ Err (Stop.Fault f) → (f ≡ feed_fault FeedReason.Memory 0)
            × ((n : ℕ) × (n ≤ length piece.now)
            × Leads self.old.frames self.old.bad (W.taken writer.old) (take n piece.now) self.new.frames self.new.bad
            (W.taken writer.new)) }
        ensures octets { self.new.frames.octets ≡ self.old.frames.octets }
        ensures held { IsFramerState self.old.frames → IsFramerState self.new.frames }
        ensures write { result ≡ Err Stop.Write → W.failures writer.new ≡ one_more (W.failures writer.old) }
        ensures others { result ≢ Err Stop.Write → W.failures writer.new ≡ W.failures writer.old }
    {
        let mut taken = 0;
        loop {
            let rest = &piece[taken..];
            let Some((entry, len)) = &self.frames.lend(rest) else {
                return Ok(taken);
            };
            let bad = show_entry(self.frames.dropped(), entry, &mut self.text, writer)?;
            self.bad = self.bad || bad;
            self.frames.pass(&rest[..*len]);
            taken += *len;
        }
    }

    /// Takes octets of `piece` until a whole entry is held or the piece ends, and writes the lines of the entries
    /// before it. Returns the number of octets taken.
    fn take_some<W: Write>(&mut self, piece: &[u8], writer: &mut W) -> Result<usize, Stop>
        ensures most { IfOk result (λ n. n ≤ length piece.now) }
        ensures sound { IfOk result (λ n. self.new.frames.fault ≡ None) }
        ensures all { IfOk result (λ n. n < length piece.now → IsWhole self.new.frames.octets) }
        ensures framed { IfOk result (λ n. IsFramerState self.new.frames) }
        ensures grows { IfOk result (λ n. length self.new.frames.octets ≤ length self.old.frames.octets + n) }
        ensures shows { IfOk result (λ n. Leads self.old.frames self.old.bad (W.taken writer.old)
            (take n piece.now) self.new.frames self.new.bad (W.taken writer.new)) }
        ensures failed { (f : FeedFault) → result ≡ Err (Stop.Fault f)
            → ((f ≡ feed_fault FeedReason.Memory 0) ⊎ (self.new.frames.fault ≡ Some f))
            × ((n : ℕ) × (n ≤ length piece.now)
            × Leads self.old.frames self.old.bad (W.taken writer.old) (take n piece.now) self.new.frames self.new.bad
            (W.taken writer.new)) }
        ensures held { IsFramerState self.old.frames → IsFramerState self.new.frames }
        ensures write { result ≡ Err Stop.Write → W.failures writer.new ≡ one_more (W.failures writer.old) }
        ensures others { result ≢ Err Stop.Write → W.failures writer.new ≡ W.failures writer.old }
    {
        let passed = self.show_whole(piece, writer)?;
        let taken = self.frames.feed_some(&piece[passed..])?;
        Ok(passed + taken)
    }

    /// Takes all of `piece`, up to a fault, and writes the lines of the entries that are then whole.
    fn show_piece<W: Write>(&mut self, piece: &[u8], writer: &mut W) -> Result<(), Stop>
        ensures shows { result ≢ Err Stop.Write → (n : ℕ) × (n ≤ length piece.now)
            × (result ≡ Ok tt → n ≡ length piece.now)
            × Leads self.old.frames self.old.bad (W.taken writer.old) (take n piece.now) self.new.frames self.new.bad
            (W.taken writer.new) }
        ensures sound { OnOk result ((self.new.frames.fault ≡ None) × IsPart self.new.frames.octets) }
        ensures fault { (f : FeedFault) → result ≡ Err (Stop.Fault f) → (f ≡ feed_fault FeedReason.Memory 0)
            ⊎ (self.new.frames.fault ≡ Some f) }
        ensures held { IsFramerState self.old.frames → IsFramerState self.new.frames }
        ensures write { result ≡ Err Stop.Write → W.failures writer.new ≡ one_more (W.failures writer.old) }
        ensures others { result ≢ Err Stop.Write → W.failures writer.new ≡ W.failures writer.old }
    {
        let mut rest = piece;
        loop {
            let taken = self.take_some(rest, writer)?;
            rest = &rest[taken..];
            let Some(bad) = show_front(&self.frames, &mut self.text, writer)? else {
                return Ok(());
            };
            self.bad = self.bad || bad;
            self.frames.drop_front();
        }
    }
}

/// Writes the lines of the record of `reader`, up to its end or the first fault.
fn show_all<R: Read, W: Write>(
    showing: &mut ShowState,
    reader: &mut R,
    writer: &mut W,
) -> Result<(), Stop>
    requires fresh { showing.old.frames ≡ empty_framer }
    requires fine { showing.old.bad ≡ false }
    ensures shows { UnlessWrite (ShowsAll (R.remaining reader.old) (R.remaining reader.new) (R.failures reader.old)
        (R.failures reader.new)
        showing.new.bad (W.taken writer.old) (W.taken writer.new)) result }
    ensures write { result ≡ Err Stop.Write → W.failures writer.new ≡ one_more (W.failures writer.old) }
    ensures others { result ≢ Err Stop.Write → W.failures writer.new ≡ W.failures writer.old }
{
    let mut piece = [0; PIECE_LEN];
    loop {
        let taken = showing.frames.taken();
        let returned = match reader.read(&mut piece) {
            Ok(0) => return Ok(showing.frames.finish()?),
            Ok(returned) => returned,
            Err(Failed) => {
                return Err(Stop::Fault(FeedFault {
                    reason: FeedReason::Read,
                    place: taken,
                }));
            }
        };
        showing.show_piece(&piece[..returned], writer)?;
    }
}

/// Prints the entries of the record of `reader` up to its end, and then the record's fault, if it has one. Prints each
/// entry as soon as its last octet is read, and holds one entry at a time.
///
/// Returns `Fault` if a fault line was printed, else `Fine`. If memory runs out, the lines of the first entries and
/// [`MEMORY_LINE`](crate::MEMORY_LINE) are printed.
///
/// # Errors
///
/// `WriteFailed` if the writer fails in this call.
pub fn run_show<R: Read, W: Write>(
    alloc: Global,
    reader: &mut R,
    writer: &mut W,
) -> Result<Status, WriteFailed>
    ensures shown { IfOk result (Shows (R.remaining reader.old) (R.remaining reader.new)
        (R.failures reader.old) (R.failures reader.new)
        (W.taken writer.old) (W.taken writer.new)) }
    ensures counts { OnOk result (W.failures writer.new ≡ W.failures writer.old) }
    ensures failed { OnErr result (W.failures writer.new ≡ one_more (W.failures writer.old)) }
{
    let mut showing = ShowState {
        frames: Frames::new(alloc),
        text: String::new(alloc),
        bad: false,
    };
    match show_all(&mut showing, reader, writer) {
        Ok(()) if showing.bad => Ok(Status::Fault),
        Ok(()) => Ok(Status::Fine),
        Err(Stop::Write) => Err(WriteFailed),
        Err(Stop::Fault(fault)) => {
            write_fault(alloc, fault, writer)?;
            Ok(Status::Fault)
        }
    }
}
