//! Judges a record, and finds for each end whether an entry is blamed on it, or whether it may have sent its part.

ghost use Rattle.std.specs.Prelude.{◌≡◌, ◌++◌, ◌≤◌, ℕ, List, Some, None, length, map, IfOk, OnOk, OnErr};
ghost use Rattle.std.specs.Io.KnownBytes.{Appends};
ghost use Rattle.std.specs.String.{string_bytes};
ghost use Rattle.tcap_ber.specs.Device.{one_more};
ghost use Rattle.tcap_record.specs.declared.entry.End.TheVariants as sides;
ghost use Rattle.tcap_model.specs.Entries.{item_of};
ghost use Rattle.tcap_certificate.specs.Replay.{replayed_by};
ghost use Rattle.tcap_model.specs.Run.{Event};
ghost use Rattle.tcap_refute.specs.Kind.{refuted};
ghost use Rattle.tcap_faults.specs.Fault.{blamed};
ghost use Rattle.tcap_search.specs.CertificateSoFar.{or_both};
ghost use Rattle.tcap_search.specs.ProposedCertificate.{proposed, proposed_for};
ghost use Rattle.tcap_judge.specs.BlameOutcome.{AreFound, FindsLawfulEnds, GivesBlame, IsBlamed, IsFound, PrintsBlame, IsBlameText, ends_of, finding, lines_after};
ghost use Rattle.tcap_judge.specs.Device.{device};
ghost use Rattle.tcap_judge.specs.EndFindings.{AreBlamed};
ghost use Rattle.tcap_judge.specs.LawfulOutcome.{IsShown};
ghost use Rattle.tcap_judge.specs.Outcome.{outcome_line};
ghost use Rattle.tcap_judge.specs.Verdict.{verdict};

use crate::each_end::{find_alike, find_lawful, find_with, items_before};
use crate::findings::{Ends, Finding, blame_status};
use crate::outcome::{OUT_OF_MEMORY, Outcome, push_outcome};
use crate::table_and_certificate::read_table;
use crate::verdicts::{judge_by_search, replay};
use std::alloc::{AllocError, Global};
use tcap_ber::{Read, Write};
use tcap_check::{Certificate, Reason};
use tcap_end::Table;
use tcap_faults::{BlamedEnds, blame_both, laws};
use tcap_lines::{MEMORY_LINE, Status, WriteFailed, write_line};
use tcap_record::{End, Record, read_record};
use tcap_refute::{Refutation, refute};
use tcap_search::{Proposals, search_each};

/// A verdict on a record, with the findings on its ends.
#[derive(Clone, Copy, Debug)]
pub struct Blame {
    /// The verdict on the record.
    pub outcome: Outcome,
    /// The findings on both ends. `None` if the table or the record has a fault, or memory ran out.
    pub ends: Option<Ends>,
}

impl Blame {
    /// Returns this verdict without findings.
    fn alone(outcome: Outcome) -> Blame
        ensures outcome { result.outcome ≡ outcome }
        ensures ends { result.ends ≡ None }
    {
        Blame {
            outcome,
            ends: None,
        }
    }
}

/// Finds the entry that is blamed on each end. Fails if memory runs out.
fn named_of_both(alloc: Global, read: &Record, table: &Table) -> Result<BlamedEnds, AllocError>
    ensures { IfOk result (λ r. (r.a ≡ blamed table.now sides.A read.now.entries.items)
        × (r.b ≡ blamed table.now sides.B read.now.entries.items)) }
{
    blame_both(alloc, read, table).map_err(|_| AllocError)
}

/// Returns the finding on an end, given the entry that is blamed on it. Fails if memory runs out.
fn find_end(
    alloc: Global,
    read: &Record,
    table: &Table,
    end: End,
    named: Option<Refutation>,
) -> Result<Finding, AllocError>
    requires few { length read.now.entries.items ≤ 100000 }
    requires named { named ≡ blamed table.now end read.now.entries.items }
    ensures { IfOk result (λ reported. (reported ≡ finding table.now read.now.entries.items end)
        × IsFound end table.now read.now.entries.items reported) }
{
    if let Some(refutation) = named {
        return Ok(Finding::Blamed(refutation));
    }
    let judged = judge_by_search(alloc, read, table, Some(end), false)?;
    Ok(Finding::new(items_before(&read.entries), judged.outcome))
}

/// Returns the findings on both ends of a record of at most 100,000 entries.
///
/// # Errors
///
/// `AllocError` if memory runs out.
pub fn find_both(alloc: Global, read: &Record, table: &Table) -> Result<Ends, AllocError>
    requires few { length read.now.entries.items ≤ 100000 }
    ensures { IfOk result (λ ends. (ends ≡ ends_of table.now read.now.entries.items)
        × AreFound table.now read.now.entries.items ends) }
{
    tcap_model::laws::blame_is_whole();
    let named = named_of_both(alloc, read, table)?;
    Ok(Ends {
        a: find_end(alloc, read, table, End::A, named.a)?,
        b: find_end(alloc, read, table, End::B, named.b)?,
    })
}

/// Returns the finding on an end if the certificate for both ends gives a run. `alone` is the certificate proposed for
/// this end, if it differs. Fails if memory runs out.
fn find_lawful_end(
    alloc: Global,
    read: &Record,
    table: &Table,
    both: &Certificate,
    alone: &Option<Certificate>,
    end: End,
) -> Result<Finding, AllocError>
    requires few { length read.now.entries.items ≤ 100000 }
    requires given { (events : List Event) × (replayed_by None table.now both.now read.now.entries.items ≡ Ok events) }
    requires proposed { or_both both.now alone.now ≡ proposed_for end read.now.entries.items }
    ensures { IfOk result (λ reported. (reported ≡ finding table.now read.now.entries.items end)
        × IsFound end table.now read.now.entries.items reported) }
{
    match alone {
        Some(certificate) => find_lawful(alloc, read, table, both, certificate, end),
        None => Ok(find_alike(read, table, both, end)),
    }
}

/// Returns the finding on an end if the certificate for both ends gives no run. `alone` is the certificate proposed for
/// this end, if it differs. Fails if memory runs out.
fn find_other_end(
    alloc: Global,
    read: &Record,
    table: &Table,
    both: &Certificate,
    alone: &Option<Certificate>,
    end: End,
    named: Option<Refutation>,
) -> Result<Finding, AllocError>
    requires proposed { or_both both.now alone.now ≡ proposed_for end read.now.entries.items }
    requires named { named ≡ blamed table.now end read.now.entries.items }
    ensures { IfOk result (λ reported. (reported ≡ finding table.now read.now.entries.items end)
        × IsFound end table.now read.now.entries.items reported) }
{
    match alone {
        Some(certificate) => find_with(alloc, read, table, certificate, end, named),
        None => find_with(alloc, read, table, both, end, named),
    }
}

/// Returns the findings on both ends if the certificate for both gives a run. Fails if memory runs out.
fn find_lawful_ends(
    alloc: Global,
    read: &Record,
    table: &Table,
    proposals: &Proposals,
) -> Result<Ends, AllocError>
    requires few { length read.now.entries.items ≤ 100000 }
    requires given { (events : List Event)
        × (replayed_by None table.now proposals.now.both read.now.entries.items ≡ Ok events) }
    requires a { or_both proposals.now.both proposals.now.a ≡ proposed_for sides.A read.now.entries.items }
    requires b { or_both proposals.now.both proposals.now.b ≡ proposed_for sides.B read.now.entries.items }
    ensures { IfOk result (λ ends. (ends ≡ ends_of table.now read.now.entries.items)
        × AreFound table.now read.now.entries.items ends) }
{
    tcap_model::laws::blame_is_whole();
    let Proposals { both, a, b } = proposals;
    Ok(Ends {
        a: find_lawful_end(alloc, read, table, both, a, End::A)?,
        b: find_lawful_end(alloc, read, table, both, b, End::B)?,
    })
}

/// Returns the findings on both ends if the certificate for both gives no run. Fails if memory runs out.
fn find_other_ends(
    alloc: Global,
    read: &Record,
    table: &Table,
    proposals: &Proposals,
) -> Result<Ends, AllocError>
    requires a { or_both proposals.now.both proposals.now.a ≡ proposed_for sides.A read.now.entries.items }
    requires b { or_both proposals.now.both proposals.now.b ≡ proposed_for sides.B read.now.entries.items }
    ensures { IfOk result (λ ends. (ends ≡ ends_of table.now read.now.entries.items)
        × AreFound table.now read.now.entries.items ends) }
{
    tcap_model::laws::blame_is_whole();
    let named = named_of_both(alloc, read, table)?;
    let Proposals { both, a, b } = proposals;
    Ok(Ends {
        a: find_other_end(alloc, read, table, both, a, End::A, named.a)?,
        b: find_other_end(alloc, read, table, both, b, End::B, named.b)?,
    })
}

/// Joins the verdict on both ends together with the findings on each: the record is lawful if each end alone is.
fn joined(read: &Record, table: &Table, outcome: Outcome, ends: Ends) -> Blame
    requires verdict { outcome ≡ verdict table.now read.now.entries.items }
    requires shown { IsShown None table.now read.now.entries.items outcome }
    requires ends { ends ≡ ends_of table.now read.now.entries.items }
    requires found { AreFound table.now read.now.entries.items ends }
    ensures { AreBlamed table.now read.now.entries.items result.outcome result.ends }
{
    Blame {
        outcome: ends.joint_verdict(read.entries.len(), outcome),
        ends: Some(ends),
    }
}

/// Judges a record that is not refuted. One search proposes the certificates for both ends together and for each alone.
/// Fails if memory runs out.
fn blame_by_search(alloc: Global, read: &Record, table: &Table) -> Result<Blame, AllocError>
    requires few { length read.now.entries.items ≤ 100000 }
    requires sound { refuted table.now (map item_of read.now.entries.items) ≡ None }
    ensures { IfOk result (λ reported. AreBlamed table.now read.now.entries.items reported.outcome reported.ends) }
{
    let Ok(proposals) = search_each(alloc, read) else {
        return Err(AllocError);
    };
    match replay(alloc, read, table, &proposals.both, None) {
        Ok(outcome) => {
            let ends = find_lawful_ends(alloc, read, table, &proposals)?;
            Ok(joined(read, table, outcome, ends))
        }
        Err(fault) if matches!(fault.reason, Reason::Memory) => Err(AllocError),
        Err(fault) => {
            let ends = find_other_ends(alloc, read, table, &proposals)?;
            Ok(joined(read, table, Outcome::Undecided(fault), ends))
        }
    }
}

/// Judges a record of at most 100,000 entries, and each of its ends.
///
/// # Errors
///
/// `AllocError` if memory runs out.
pub fn blame_record(alloc: Global, read: &Record, table: &Table) -> Result<Blame, AllocError>
    requires few { length read.now.entries.items ≤ 100000 }
    ensures { IfOk result (λ reported. AreBlamed table.now read.now.entries.items reported.outcome reported.ends) }
{
    match refute(alloc, read, table) {
        Ok(Some(refutation)) => {
            let ends = find_both(alloc, read, table)?;
            Ok(joined(read, table, Outcome::Refuted(refutation), ends))
        }
        Ok(None) => blame_by_search(alloc, read, table),
        Err(_) => Err(AllocError),
    }
}

/// Judges the record that `reader` returns, and each of its ends.
fn blame_by_table<R: Read>(alloc: Global, reader: &mut R, table: &Table) -> Blame
    ensures { GivesBlame table.now (device R.remaining R.failures reader.old reader.new) result.outcome result.ends }
{
    laws::blamed_is_at_fault();
    match read_record(alloc, reader) {
        Ok(read) => match blame_record(alloc, &read, table) {
            Ok(reported) => reported,
            Err(AllocError) => Blame::alone(OUT_OF_MEMORY),
        },
        Err(fault) => Blame::alone(Outcome::Faulty(fault.reason.number(), fault.place)),
    }
}

/// Judges the record that `entries` returns, and each of its ends, by the operation table that `table` returns.
/// `run_blame` writes the lines of this result. If the table has a fault, nothing of the record is read.
pub fn blame_outcome<R: Read, T: Read>(alloc: Global, entries: &mut R, table: &mut T) -> Blame
    ensures { IsBlamed (device R.remaining R.failures entries.old entries.new)
        (device T.remaining T.failures table.old table.new) result.outcome result.ends }
{
    match read_table(alloc, table) {
        Ok(table) => blame_by_table(alloc, entries, &table),
        Err(outcome) => Blame::alone(outcome),
    }
}

/// Appends the line of the outcome, and the lines of the findings. Fails if memory runs out.
fn push_said(text: &mut String, reported: &Blame) -> Result<(), AllocError>
    ensures { OnOk result (string_bytes text.new
        ≡ string_bytes text.old ++ outcome_line reported.now.outcome ++ lines_after reported.now.ends) }
{
    push_outcome(text, reported.outcome)?;
    match reported.ends {
        Some(ends) => ends.push(text),
        None => Ok(()),
    }
}

/// Writes the lines of a verdict with findings, or the line that memory ran out, and returns the status. The text is
/// complete before its first octet is written. Fails if the writer fails.
fn write_said<W: Write>(
    alloc: Global,
    reported: &Blame,
    writer: &mut W,
) -> Result<Status, WriteFailed>
    ensures text { IfOk result (λ status. (text : List ℕ)
        × IsBlameText reported.now.outcome reported.now.ends text status
        × Appends (W.taken writer.old) (W.taken writer.new) text) }
    ensures counts { OnOk result (W.failures writer.new ≡ W.failures writer.old) }
    ensures failed { OnErr result (W.failures writer.new ≡ one_more (W.failures writer.old)) }
{
    let mut text = String::new(alloc);
    match push_said(&mut text, reported) {
        Ok(()) => {
            write_line(writer, text.as_bytes())?;
            Ok(blame_status(reported.ends, reported.outcome))
        }
        Err(AllocError) => {
            write_line(writer, MEMORY_LINE.as_bytes())?;
            Ok(Status::Fault)
        }
    }
}

/// Judges the record that `entries` returns by the operation table that `table` returns, and each of its ends; writes
/// the lines and returns the status.
///
/// The first line is that of `run_judge`, or `LAWFUL COUNT` if each end alone is lawful, since two lawful ends may then
/// have sent the record. If the record and the table have no fault, a line for each end follows:
///
/// - `BLAMED END ENTRY KIND`: the lowest entry for which the end is blamed, with its lowest kind. No run in which this
///   end keeps the rules has this entry, or quiet mark, no matter what its peer sends. Fifteen kinds show this (Q.771,
///   Q.773, Q.774).
/// - `LAWFUL END COUNT unheard COUNT`: what `run_judge` finds for this end alone.
/// - `NOT BLAMED END COUNT`: the number of entries before the first that is no message, or of all entries.
///
/// Blamed ends come first, in the order of their entries; else A comes before B. No memory is allocated after the first
/// octet is written.
///
/// The status is that of REFUTED if an entry is blamed on an end. If an entry is refuted but not blamed on an end, it
/// is that of UNDECIDED. Otherwise it is that of the first line.
///
/// # Errors
///
/// `WriteFailed` if the writer fails.
pub fn run_blame<R: Read, T: Read, W: Write>(
    alloc: Global,
    entries: &mut R,
    table: &mut T,
    writer: &mut W,
) -> Result<Status, WriteFailed>
    ensures blames { IfOk result (PrintsBlame (device R.remaining R.failures entries.old entries.new)
        (device T.remaining T.failures table.old table.new)
        (W.taken writer.old) (W.taken writer.new)) }
    ensures lawful { result ≡ Ok Status.Fine
        → FindsLawfulEnds (device R.remaining R.failures entries.old entries.new)
        (device T.remaining T.failures table.old table.new)
        (W.taken writer.old) (W.taken writer.new) }
    ensures counts { OnOk result (W.failures writer.new ≡ W.failures writer.old) }
    ensures failed { OnErr result (W.failures writer.new ≡ one_more (W.failures writer.old)) }
{
    let reported = blame_outcome(alloc, entries, table);
    write_said(alloc, &reported, writer)
}
