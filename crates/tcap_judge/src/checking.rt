//! Replays a certificate over a record.

ghost use Rattle.std.specs.Prelude.{◌≡◌, ◌≢◌, ◌⊎◌, ◌++◌, ◌∷◌, ◌+◌, ◌≤◌, [], ℕ, List, Bool, true, false, length, take, Result, Some, None, Ok, Err, IfOk, IfSome, OnOk, OnErr};
ghost use Rattle.std.specs.Io.KnownBytes.{Appends};
ghost use Rattle.tcap_ber.specs.Device.{one_more};
ghost use Rattle.tcap_record.specs.declared.entry.Entry.{Entry};
ghost use Rattle.tcap_record.specs.declared.fault.FeedFault.{FeedFault};
ghost use Rattle.tcap_record.specs.declared.fault.FeedReason.{FeedReason};
ghost use Rattle.tcap_record.specs.FramingResult.{feed_fault};
ghost use Rattle.tcap_record.specs.PartialRecord.{IsFront, IsFramerState, IsPart, IsWhole, empty_framer};
ghost use Rattle.tcap_record.specs.EntryView.{entry_read};
ghost use Rattle.tcap_judge.specs.CheckOutcome.{Checks, Judges, JudgesRecord};
ghost use Rattle.tcap_judge.specs.Device.{device};
ghost use Rattle.tcap_judge.specs.LawfulEnd.{FindsLawfulBy};
ghost use Rattle.tcap_judge.specs.LawfulOutcome.{lawful_outcome};
ghost use Rattle.tcap_judge.specs.PiecewiseReplay.{Finishes, Leads, LeadsFed, LeadsToEnd, IsCheckerOf, Takes};
ghost use Rattle.tcap_judge.specs.Outcome.{IsOutcomeLine};

use crate::outcome::{OUT_OF_MEMORY, Outcome, write_outcome};
use crate::table_and_certificate::{read_certificate, read_table};
use std::alloc::{AllocError, Global};
use tcap_ber::{Failed, Read, Write};
use tcap_check::{Certificate, CheckFault, Checker, Reason, Report};
use tcap_end::Table;
use tcap_lines::{Status, WriteFailed};
use tcap_record::{End, EntryView, FeedFault, FeedReason, Frames, PIECE_LEN};

/// Gives the next entry to the checker, which keeps a refusal. Fails if memory runs out.
fn take_entry(checker: &mut Result<Checker, CheckFault>, entry: &EntryView) -> Result<(), FeedFault>
    ensures takes { OnOk result (Takes checker.old (entry_read entry.now) checker.new) }
    ensures memory { (f : FeedFault) → result ≡ Err f → f ≡ feed_fault FeedReason.Memory 0 }
{
    let Ok(checker) = checker else {
        return Ok(());
    };
    match checker.take(entry) {
        Err(fault) if matches!(fault.reason, Reason::Memory) => Err(FeedFault::from(AllocError)),
        _ => Ok(()),
    }
}

/// Gives the first whole entry of the frames to the checker, and returns whether there was one. Fails if memory runs
/// out.
fn take_front(frames: &Frames, checker: &mut Result<Checker, CheckFault>) -> Result<bool, FeedFault>
    ensures taken { result ≡ Ok true → (entry : Entry) × IsFront entry frames.now × (frames.now.fault ≡ None)
        × IsWhole frames.now.octets × Takes checker.old entry checker.new }
    ensures none { result ≡ Ok false → ((frames.now.fault ≡ None) × IsWhole frames.now.octets → ⊥)
        × (checker.new ≡ checker.old) }
    ensures memory { (f : FeedFault) → result ≡ Err f → f ≡ feed_fault FeedReason.Memory 0 }
{
    let Some(entry) = frames.front() else {
        return Ok(false);
    };
    take_entry(checker, &entry)?;
    Ok(true)
}

/// Takes all octets of a piece, up to a fault, and gives the whole entries to the checker.
fn take_piece(
    frames: &mut Frames,
    checker: &mut Result<Checker, CheckFault>,
    piece: &[u8],
) -> Result<(), FeedFault>
    ensures leads { OnOk result (Leads frames.old checker.old piece.now frames.new checker.new) }
    ensures sound { OnOk result ((frames.new.fault ≡ None) × IsPart frames.new.octets) }
    ensures why { (f : FeedFault) → result ≡ Err f → (f ≡ feed_fault FeedReason.Memory 0)
        ⊎ (frames.new.fault ≡ Some f) }
    ensures fed { OnErr result ((n : ℕ) × (n ≤ length piece.now)
        × LeadsFed frames.old checker.old (take n piece.now) frames.new) }
    ensures grows { OnOk result (frames.new.place + length frames.new.octets
        ≡ frames.old.place + length frames.old.octets + length piece.now) }
    ensures held { IsFramerState frames.old → IsFramerState frames.new }
{
    let mut rest = piece;
    loop {
        let taken = frames.feed_some(rest)?;
        rest = &rest[taken..];
        if !take_front(frames, checker)? {
            return Ok(());
        }
        frames.drop_front();
    }
}

/// Takes the record that `reader` returns, up to its end or the first fault.
fn take_all<R: Read>(
    frames: &mut Frames,
    checker: &mut Result<Checker, CheckFault>,
    reader: &mut R,
) -> Result<(), FeedFault>
    requires fresh { frames.old ≡ empty_framer }
    ensures { LeadsToEnd checker.old (device R.remaining R.failures reader.old reader.new)
        frames.new checker.new result }
{
    let mut piece = [0; PIECE_LEN];
    loop {
        let taken = frames.taken();
        let returned = match reader.read(&mut piece) {
            Ok(0) => return frames.finish(),
            Ok(returned) => returned,
            Err(Failed) => {
                return Err(FeedFault {
                    reason: FeedReason::Read,
                    place: taken,
                });
            }
        };
        take_piece(frames, checker, &piece[..returned])?;
    }
}

/// Returns the lawful outcome for this many entries, from the report of a run.
pub(crate) fn lawful_of(judged: Option<End>, count: usize, report: Report) -> Outcome
    ensures { result ≡ lawful_outcome judged count report.unheard }
{
    match judged {
        None => Outcome::Lawful(count),
        Some(_) => Outcome::LawfulFor(count, report.unheard),
    }
}

/// Returns the outcome after all entries of a record, of which there are `count`.
fn finish(judged: Option<End>, checker: Result<Checker, CheckFault>, count: usize) -> Outcome
    ensures { Finishes judged checker.entry count result }
{
    match checker {
        Ok(checker) => match checker.finish() {
            Ok(report) => lawful_of(judged, count, report),
            Err(fault) if matches!(fault.reason, Reason::Memory) => OUT_OF_MEMORY,
            Err(fault) => Outcome::NotShown(fault),
        },
        Err(fault) => Outcome::NotShown(fault),
    }
}

/// Creates a checker before the first entry, or returns why the certificate is out of range. Returns `None` if memory
/// runs out.
fn start<'a>(
    alloc: Global,
    table: &'a Table,
    certificate: &'a Certificate,
    judged: Option<End>,
) -> Option<Result<Checker<'a>, CheckFault>>
    ensures { IfSome result (λ checker. IsCheckerOf judged table.entry.now certificate.entry.now checker []) }
{
    match Checker::judging(alloc, table, certificate, judged) {
        Err(fault) if matches!(fault.reason, Reason::Memory) => None,
        made => Some(made),
    }
}

/// Replays the certificate over the record that `reader` returns.
fn judge_record<R: Read>(
    alloc: Global,
    reader: &mut R,
    table: &Table,
    certificate: &Certificate,
    judged: Option<End>,
) -> Outcome
    ensures { JudgesRecord judged table.now certificate.now (device R.remaining R.failures reader.old reader.new)
        result }
{
    let mut frames = Frames::new(alloc);
    let Some(mut checker) = start(alloc, table, certificate, judged) else {
        return OUT_OF_MEMORY;
    };
    match take_all(&mut frames, &mut checker, reader) {
        Ok(()) => finish(judged, checker, frames.dropped()),
        Err(fault) => Outcome::Faulty(fault.reason.number(), fault.place),
    }
}

/// Replays the certificate that `certificate` returns over the record that `entries` returns, by the operation table
/// that `table` returns. It judges one end alone, or both if `judged` is `None`. `run_check` writes the line of this
/// result. If the table or the certificate has a fault, nothing of the record is read.
pub fn check_outcome<R: Read, T: Read, C: Read>(
    alloc: Global,
    entries: &mut R,
    table: &mut T,
    certificate: &mut C,
    judged: Option<End>,
) -> Outcome
    ensures { Judges judged (device R.remaining R.failures entries.old entries.new)
        (device T.remaining T.failures table.old table.new)
        (device C.remaining C.failures certificate.old certificate.new) result }
{
    let table = match read_table(alloc, table) {
        Ok(table) => table,
        Err(outcome) => return outcome,
    };
    let certificate = match read_certificate(alloc, certificate) {
        Ok(certificate) => certificate,
        Err(outcome) => return outcome,
    };
    judge_record(alloc, entries, &table, &certificate, judged)
}

/// Replays the certificate that `certificate` returns over the record that `entries` returns, by the operation table
/// that `table` returns; writes one line and returns the status.
///
/// The line reports that the record is lawful, or why the certificate does not show this, or a fault. A fault of the
/// table comes before one of the certificate, and that before one of the record.
///
/// If `judged` is an end, this end is judged alone: the line reports whether it may have sent its part of the record,
/// no matter what its peer sends. It then also has the number of the peer's messages that are unheard in the run.
///
/// The texts of the table and of the certificate have at most 67,108,864 octets each. One entry of the record is held
/// at a time, and none is read before the table and the certificate.
///
/// # Errors
///
/// `WriteFailed` if the writer fails.
pub fn run_check<R: Read, T: Read, C: Read, W: Write>(
    alloc: Global,
    entries: &mut R,
    table: &mut T,
    certificate: &mut C,
    judged: Option<End>,
    writer: &mut W,
) -> Result<Status, WriteFailed>
    ensures checks { IfOk result (Checks judged (device R.remaining R.failures entries.old entries.new)
        (device T.remaining T.failures table.old table.new)
        (device C.remaining C.failures certificate.old certificate.new)
        (W.taken writer.old) (W.taken writer.new)) }
    ensures lawful { result ≡ Ok Status.Fine
        → FindsLawfulBy judged (device R.remaining R.failures entries.old entries.new)
        (device T.remaining T.failures table.old table.new) (W.taken writer.old) (W.taken writer.new) }
    ensures counts { OnOk result (W.failures writer.new ≡ W.failures writer.old) }
    ensures failed { OnErr result (W.failures writer.new ≡ one_more (W.failures writer.old)) }
{
    let outcome = check_outcome(alloc, entries, table, certificate, judged);
    write_outcome(alloc, outcome, "", writer)
}
