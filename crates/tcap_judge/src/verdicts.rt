//! The verdict on a record in memory: on both ends, or on one alone.

ghost use Rattle.std.specs.Prelude.{◌≡◌, ◌≢◌, [], ◌≤◌, length, map, is_some, Some, Err, IfOk};
ghost use Rattle.std.specs.String.{string_bytes};
ghost use Rattle.tcap_check.specs.CheckerMeaning.{map_ok};
ghost use Rattle.tcap_certificate.specs.Replay.{fault_at};
ghost use Rattle.tcap_model.specs.declared.reason.Reason.TheVariants as reasons;
ghost use Rattle.tcap_model.specs.Entries.{item_of};
ghost use Rattle.tcap_refute.specs.Kind.{refuted};
ghost use Rattle.tcap_judge.specs.LawfulOutcome.{IsShown, lawful_by, replayed_by};
ghost use Rattle.tcap_judge.specs.Verdict.{IsVerdict, IsVerdictBySearch, line_asked, line_of_certificate, refutation_by, proposed_by};

use crate::checking::lawful_of;
use crate::laws;
use crate::outcome::Outcome;
use std::alloc::{AllocError, Global};
use tcap_certificate_text::to_json;
use tcap_check::{Certificate, CheckFault, Reason, check};
use tcap_end::Table;
use tcap_faults::blame;
use tcap_record::{End, Record};
use tcap_refute::{Refutation, refute};
use tcap_search::{search, search_for};

/// A verdict on a record, with the text to print after its line.
#[derive(Debug, Drop)]
pub struct RecordVerdict {
    /// The verdict.
    pub outcome: Outcome,
    /// The text after the verdict's line: the certificate on its own line, or nothing.
    pub after: String,
}

impl RecordVerdict {
    /// Returns this verdict with no text after it.
    pub(crate) fn alone(alloc: Global, outcome: Outcome) -> RecordVerdict
        ensures outcome { result.outcome ≡ outcome }
        ensures after { string_bytes result.after ≡ [] }
    {
        RecordVerdict {
            outcome,
            after: String::new(alloc),
        }
    }
}

/// Finds the lowest entry at fault, with its lowest kind (Q.771, Q.773, Q.774). For both ends, the seven kinds of
/// `refute` count; for one end, the fifteen kinds of `blame`. Returns `None` if there is no such entry up to the first
/// that is no message.
///
/// # Errors
///
/// `AllocError` if memory runs out.
pub fn named(
    alloc: Global,
    read: &Record,
    table: &Table,
    judged: Option<End>,
) -> Result<Option<Refutation>, AllocError>
    ensures { IfOk result (λ r. r ≡ refutation_by judged table.now read.now.entries.items) }
{
    let found = match judged {
        None => refute(alloc, read, table),
        Some(end) => blame(alloc, read, table, end),
    };
    found.map_err(|_| AllocError)
}

/// Proposes a certificate for a record of at most 100,000 entries.
///
/// # Errors
///
/// `AllocError` if memory runs out.
pub fn propose(alloc: Global, read: &Record, judged: Option<End>) -> Result<Certificate, AllocError>
    requires few { length read.now.entries.items ≤ 100000 }
    ensures { IfOk result (λ c. c ≡ proposed_by judged read.now.entries.items) }
{
    let found = match judged {
        None => search(alloc, read),
        Some(end) => search_for(alloc, read, end),
    };
    found.map_err(|_| AllocError)
}

/// Replays a certificate over a record, for one end alone, or for both if `judged` is `None`. Returns the lawful
/// outcome.
///
/// # Errors
///
/// The first reason why the certificate gives no run, with its entry, or `Memory` if memory runs out.
pub fn replay(
    alloc: Global,
    read: &Record,
    table: &Table,
    certificate: &Certificate,
    judged: Option<End>,
) -> Result<Outcome, CheckFault>
    ensures exact { result ≢ Err (fault_at reasons.Memory 0) → result ≡ map_ok
        (lawful_by judged (length read.now.entries.items))
        (replayed_by judged table.now certificate.now read.now.entries.items) }
    ensures shown { IfOk result (λ outcome. IsShown judged table.now read.now.entries.items outcome) }
{
    let report = check(alloc, read, table, certificate, judged)?;
    Ok(lawful_of(judged, read.entries.len(), report))
}

/// Returns the certificate on its own line. Fails if memory runs out.
fn line_of(alloc: Global, certificate: &Certificate) -> Result<String, AllocError>
    ensures { IfOk result (λ line. string_bytes line ≡ line_of_certificate certificate.now) }
{
    let mut line = to_json(alloc, certificate)?;
    line.push_str("\n")?;
    Ok(line)
}

/// Returns this verdict, followed by the certificate that shows it if requested. Fails if memory runs out.
fn shown(
    alloc: Global,
    outcome: Outcome,
    certificate: &Certificate,
    with_certificate: bool,
) -> Result<RecordVerdict, AllocError>
    ensures { IfOk result (λ reported. (reported.outcome ≡ outcome)
        × (string_bytes reported.after ≡ line_asked with_certificate certificate.now)) }
{
    if !with_certificate {
        return Ok(RecordVerdict::alone(alloc, outcome));
    }
    Ok(RecordVerdict {
        outcome,
        after: line_of(alloc, certificate)?,
    })
}

/// Judges a record without an entry at fault, by the proposed certificate. Fails if memory runs out.
pub(crate) fn judge_by_search(
    alloc: Global,
    read: &Record,
    table: &Table,
    judged: Option<End>,
    with_certificate: bool,
) -> Result<RecordVerdict, AllocError>
    requires few { length read.now.entries.items ≤ 100000 }
    ensures { IfOk result
        (λ reported. IsVerdictBySearch judged table.now with_certificate read.now.entries.items reported.outcome
        (string_bytes reported.after)) }
{
    let certificate = propose(alloc, read, judged)?;
    match replay(alloc, read, table, &certificate, judged) {
        Ok(outcome) => shown(alloc, outcome, &certificate, with_certificate),
        Err(fault) if matches!(fault.reason, Reason::Memory) => Err(AllocError),
        Err(fault) => Ok(RecordVerdict::alone(alloc, Outcome::Undecided(fault))),
    }
}

/// Returns whether `refute` refutes the record. If it does, one end is usually to blame, so this is checked before a
/// certificate is searched for. Fails if memory runs out.
fn is_refuted(alloc: Global, read: &Record, table: &Table) -> Result<bool, AllocError>
    ensures { IfOk result (λ so. so ≡ is_some (refuted table.now (map item_of read.now.entries.items))) }
{
    match refute(alloc, read, table) {
        Ok(found) => Ok(found.is_some()),
        Err(_) => Err(AllocError),
    }
}

/// Judges one end alone. If the proposed certificate gives a run, nothing is blamed on the end, so blame is searched
/// for only if it gives none. Fails if memory runs out.
fn judge_end(
    alloc: Global,
    read: &Record,
    table: &Table,
    end: End,
    with_certificate: bool,
) -> Result<RecordVerdict, AllocError>
    requires few { length read.now.entries.items ≤ 100000 }
    ensures { IfOk result (λ reported. IsVerdict
        (Some end) table.now with_certificate read.now.entries.items reported.outcome
        (string_bytes reported.after)) }
{
    laws::blamed_is_never_given();
    let reported = judge_by_search(alloc, read, table, Some(end), with_certificate)?;
    if let Outcome::LawfulFor(_, _) = reported.outcome {
        return Ok(reported);
    }
    if let Some(refutation) = named(alloc, read, table, Some(end))? {
        return Ok(RecordVerdict::alone(alloc, Outcome::Refuted(refutation)));
    }
    Ok(reported)
}

/// Judges a record of at most 100,000 entries: one end alone, or both if `judged` is `None`. The verdict is an entry at
/// fault, or the result of the proposed certificate.
///
/// # Errors
///
/// `AllocError` if memory runs out.
pub fn judge_record(
    alloc: Global,
    read: &Record,
    table: &Table,
    judged: Option<End>,
    with_certificate: bool,
) -> Result<RecordVerdict, AllocError>
    requires few { length read.now.entries.items ≤ 100000 }
    ensures { IfOk result
        (λ reported. IsVerdict judged table.now with_certificate read.now.entries.items reported.outcome
        (string_bytes reported.after)) }
{
    if let Some(end) = judged {
        if !is_refuted(alloc, read, table)? {
            return judge_end(alloc, read, table, end, with_certificate);
        }
    }
    match named(alloc, read, table, judged)? {
        Some(refutation) => Ok(RecordVerdict::alone(alloc, Outcome::Refuted(refutation))),
        None => judge_by_search(alloc, read, table, judged, with_certificate),
    }
}
