//! Judges a record and explains the verdict.

ghost use Rattle.std.specs.Prelude.{◌≡◌, ◌⊎◌, ◌≤◌, ◌&&◌, [], ℕ, List, true, false, None, Some, Ok, Err, IfOk, IfSome, OnOk, OnErr, length};
ghost use Rattle.std.specs.String.{string_bytes};
ghost use Rattle.tcap_ber.specs.Device.{one_more};
ghost use Rattle.tcap_certificate.specs.LossCounts.{unheard_of};
ghost use Rattle.tcap_judge.specs.declared.outcome.Outcome.TheVariants.{Lawful, Refuted, Undecided};
ghost use Rattle.tcap_judge.specs.CheckOutcome.{out_of_memory, replay_outcome};
ghost use Rattle.tcap_judge.specs.Device.{device};
ghost use Rattle.tcap_judge.specs.LawfulOutcome.{IsShown, lawful_by, replayed_by};
ghost use Rattle.tcap_judge.specs.Verdict.{refutation_by, proposed_by, verdict_of};
ghost use Rattle.tcap_judge.specs.BlameOutcome.{ends_of, is_lawful, joint_verdict};
ghost use Rattle.tcap_check.specs.ReportedSteps.{events_of};
ghost use Rattle.tcap_explain.specs.Faults.{IsFaultBehind};
ghost use Rattle.tcap_explain.specs.StepLines.{run_lines};
ghost use Rattle.tcap_explain.specs.RefutedLines.{refuted_lines};
ghost use Rattle.tcap_explain.specs.VerdictLines.{AreLinesOfBoth, EndsWithEnds, Explains, ExplainsBy, GivesExplanation, GivesExplanationBy, IsExplained, IsExplainedBy, IsExplanation};

use crate::chart::Chart;
use crate::faults::fault_text;
use crate::refuted_text::{ends_judged, refuted_text};
use crate::runs::{lawful_ends_text, run_so_far};
use crate::step_lines::{is_lost_from, push_steps};
use crate::stops::stop_text;
use std::alloc::{AllocError, Global};
use tcap_ber::{Read, Write};
use tcap_check::{Certificate, CheckFault, Partial, Step, run_until};
use tcap_end::Table;
use tcap_judge::{
    Ends, OUT_OF_MEMORY, Outcome, named, propose, read_certificate, read_table, write_outcome,
};
use tcap_lines::{Status, WriteFailed};
use tcap_record::{End, Record, read_record};
use tcap_refute::Refutation;

/// A verdict, with its explanation.
#[derive(Drop)]
struct Explanation {
    outcome: Outcome,
    // The text after the line of the verdict.
    after: String,
    // The run as a page; empty if none is asked for, or if there is no record.
    chart: String,
}

/// The options of a run.
#[derive(Clone, Copy, Debug)]
pub struct ExplainOptions {
    /// The end that is judged alone, or None for both.
    pub judged: Option<End>,
    /// True if a chart is asked for.
    pub with_chart: bool,
}

impl Explanation {
    /// Returns this verdict with no text after it.
    fn alone(alloc: Global, outcome: Outcome) -> Explanation
        ensures outcome { result.outcome ≡ outcome }
        ensures after { string_bytes result.after ≡ [] }
    {
        Explanation {
            outcome,
            after: String::new(alloc),
            chart: String::new(alloc),
        }
    }

    /// Returns the verdict on a file with a fault, with a text that names the file.
    fn of_fault(alloc: Global, outcome: Outcome) -> Explanation
        ensures outcome { result.outcome ≡ outcome }
        ensures after { IsFaultBehind outcome (string_bytes result.after) }
    {
        match fault_text(alloc, outcome) {
            Ok(after) => Explanation {
                outcome,
                after,
                chart: String::new(alloc),
            },
            Err(AllocError) => Explanation::alone(alloc, outcome),
        }
    }
}

/// Returns how many of its peer's messages an end does not receive in a run.
fn count_unheard(end: End, steps: &[Step]) -> u64
    ensures { result ≡ unheard_of end (events_of steps.now) }
{
    let mut unheard = 0;
    for step in steps {
        if is_lost_from(end.other(), step) {
            unheard += 1;
        }
    }
    unheard
}

/// Returns the verdict on `count` entries with this run.
fn said_of(judged: Option<End>, count: usize, steps: &[Step]) -> Outcome
    ensures { result ≡ lawful_by judged count (events_of steps.now) }
{
    match judged {
        None => Outcome::Lawful(count),
        Some(end) => Outcome::LawfulFor(count, count_unheard(end, steps)),
    }
}

/// Returns the chart of these steps, or an empty text if none is asked for.
fn chart_of(
    alloc: Global,
    read: &Record,
    options: ExplainOptions,
    outcome: Outcome,
    after: &str,
    steps: &[Step],
) -> Result<String, AllocError> {
    if !options.with_chart {
        return Ok(String::new(alloc));
    }
    let judged = options.judged;
    Chart {
        read,
        judged,
        outcome,
        after,
    }
    .of_steps(alloc, steps)
}

/// Explains that a record is lawful, by the run that shows it.
fn explain_run(
    alloc: Global,
    read: &Record,
    steps: &[Step],
    options: ExplainOptions,
) -> Result<Explanation, AllocError>
    ensures outcome { IfOk result (λ why. why.outcome
        ≡ lawful_by options.judged (length read.now.entries.items) (events_of steps.now)) }
    ensures after { IfOk result (λ why. string_bytes why.after ≡ run_lines options.judged steps.now) }
{
    let outcome = said_of(options.judged, read.entries.len(), steps);
    let mut after = String::new(alloc);
    push_steps(&mut after, options.judged, steps)?;
    let chart = chart_of(alloc, read, options, outcome, &after, steps)?;
    Ok(Explanation {
        outcome,
        after,
        chart,
    })
}

/// Explains an outcome for which the certificate gives no run: the stop of its run, and the findings on `ends`. May
/// change the ends of the run.
fn explain_stop(
    alloc: Global,
    read: &Record,
    table: &Table,
    certificate: &Certificate,
    options: ExplainOptions,
    ends: Option<Ends>,
    run: &mut Partial,
    fault: CheckFault,
    outcome: Outcome,
) -> Result<Explanation, AllocError>
    requires found { IfSome ends (λ both. both ≡ ends_of table.now read.now.entries.items) }
    ensures { IfOk result (λ why. (why.outcome ≡ outcome)
        × EndsWithEnds table.now read.now.entries.items ends (string_bytes why.after)) }
{
    let after = stop_text(alloc, read, table, certificate, ends, fault, run)?;
    let chart = chart_of(alloc, read, options, outcome, &after, &run.steps)?;
    Ok(Explanation {
        outcome,
        after,
        chart,
    })
}

/// Explains that a record is lawful by a run of each end. Two ends that are each lawful may have sent it together.
fn explain_ends(
    alloc: Global,
    read: &Record,
    table: &Table,
    options: ExplainOptions,
    ends: Ends,
) -> Result<Explanation, AllocError>
    requires few { length read.now.entries.items ≤ 100000 }
    requires ends { ends ≡ ends_of table.now read.now.entries.items }
    requires lawful { (is_lawful ends.a && is_lawful ends.b) ≡ true }
    ensures outcome { IfOk result (λ why. why.outcome ≡ Lawful (length read.now.entries.items)) }
    ensures after { IfOk result (λ why. AreLinesOfBoth table.now read.now.entries.items (string_bytes why.after)) }
{
    let after = lawful_ends_text(alloc, read, table, ends)?;
    let outcome = Outcome::Lawful(read.entries.len());
    let chart = chart_of(alloc, read, options, outcome, &after, &[])?;
    Ok(Explanation {
        outcome,
        after,
        chart,
    })
}

/// Returns these ends, if each is lawful on its own.
fn lawful_both(ends: Option<Ends>) -> Option<Ends>
    ensures some { IfSome result (λ both. (ends ≡ Some both) × ((is_lawful both.a && is_lawful both.b) ≡ true)) }
    ensures none { result ≡ None → IfSome ends (λ both. (is_lawful both.a && is_lawful both.b) ≡ false) }
{
    match ends {
        Some(both) if both.are_lawful() => Some(both),
        _ => None,
    }
}

/// Explains the verdict on a record in which no entry is at fault, and for which the proposed certificate gives no run.
/// The record is lawful if each end is lawful on its own; else it is undecided.
fn explain_other(
    alloc: Global,
    read: &Record,
    table: &Table,
    certificate: &Certificate,
    options: ExplainOptions,
    run: &mut Partial,
    fault: CheckFault,
) -> Result<Explanation, AllocError>
    requires few { length read.now.entries.items ≤ 100000 }
    requires verdict { verdict_of options.judged table.now read.now.entries.items ≡ Undecided fault }
    requires refused { replayed_by options.judged table.now certificate.now read.now.entries.items ≡ Err fault }
    ensures { IfOk result (λ why. (why.outcome ≡ joint_verdict options.judged table.now read.now.entries.items)
        × IsShown options.judged table.now read.now.entries.items why.outcome
        × IsExplanation options.judged table.now certificate.now read.now.entries.items why.outcome
        (string_bytes why.after)) }
{
    let outcome = Outcome::Undecided(fault);
    let ends = ends_judged(alloc, read, table, options.judged)?;
    match lawful_both(ends) {
        Some(both) => explain_ends(alloc, read, table, options, both),
        None => explain_stop(
            alloc,
            read,
            table,
            certificate,
            options,
            ends,
            run,
            fault,
            outcome,
        ),
    }
}

/// Explains that an entry is at fault. Only the chart needs the proposed certificate.
fn explain_refuted(
    alloc: Global,
    read: &Record,
    table: &Table,
    options: ExplainOptions,
    refutation: Refutation,
) -> Result<Explanation, AllocError>
    requires named { refutation_by options.judged table.now read.now.entries.items ≡ Some refutation }
    requires few { length read.now.entries.items ≤ 100000 }
    ensures { IfOk result (λ why. (why.outcome ≡ Refuted refutation)
        × (string_bytes why.after ≡ refuted_lines options.judged table.now read.now.entries.items refutation)) }
{
    let outcome = Outcome::Refuted(refutation);
    let after = refuted_text(alloc, read, table, options.judged, refutation)?;
    let chart = if options.with_chart {
        let certificate = propose(alloc, read, options.judged)?;
        let run = run_until(alloc, read, table, &certificate, options.judged)?;
        chart_of(alloc, read, options, outcome, &after, &run.steps)?
    } else {
        String::new(alloc)
    };
    Ok(Explanation {
        outcome,
        after,
        chart,
    })
}

/// Explains the verdict on a record in which no entry is at fault, by the proposed certificate.
fn explain_by_search(
    alloc: Global,
    read: &Record,
    table: &Table,
    options: ExplainOptions,
) -> Result<Explanation, AllocError>
    requires few { length read.now.entries.items ≤ 100000 }
    requires sound { refutation_by options.judged table.now read.now.entries.items ≡ None }
    ensures { IfOk result (λ why. (why.outcome ≡ joint_verdict options.judged table.now read.now.entries.items)
        × IsShown options.judged table.now read.now.entries.items why.outcome
        × IsExplanation options.judged table.now
        (proposed_by options.judged read.now.entries.items) read.now.entries.items why.outcome
        (string_bytes why.after)) }
{
    let certificate = propose(alloc, read, options.judged)?;
    let mut run = run_so_far(alloc, read, table, &certificate, options.judged)?;
    match run.refused {
        None => explain_run(alloc, read, &run.steps, options),
        Some(fault) => explain_other(alloc, read, table, &certificate, options, &mut run, fault),
    }
}

/// Judges a record, and explains the verdict. `AllocError` if memory runs out.
fn explain_verdict(
    alloc: Global,
    read: &Record,
    table: &Table,
    options: ExplainOptions,
) -> Result<Explanation, AllocError>
    requires few { length read.now.entries.items ≤ 100000 }
    ensures { IfOk result (λ why. (why.outcome ≡ joint_verdict options.judged table.now read.now.entries.items)
        × IsShown options.judged table.now read.now.entries.items why.outcome
        × IsExplanation options.judged table.now
        (proposed_by options.judged read.now.entries.items) read.now.entries.items why.outcome
        (string_bytes why.after)) }
{
    match named(alloc, read, table, options.judged)? {
        Some(refutation) => explain_refuted(alloc, read, table, options, refutation),
        None => explain_by_search(alloc, read, table, options),
    }
}

/// Explains what a certificate shows of a record. `AllocError` if memory runs out.
fn explain_replay(
    alloc: Global,
    read: &Record,
    table: &Table,
    certificate: &Certificate,
    options: ExplainOptions,
) -> Result<Explanation, AllocError>
    requires few { length read.now.entries.items ≤ 100000 }
    ensures { IfOk result (λ why. (why.outcome ≡ replay_outcome options.judged (length read.now.entries.items)
        (replayed_by options.judged table.now certificate.now read.now.entries.items))
        × IsShown options.judged table.now read.now.entries.items why.outcome
        × IsExplanation options.judged table.now certificate.now read.now.entries.items why.outcome
        (string_bytes why.after)) }
{
    let mut run = run_so_far(alloc, read, table, certificate, options.judged)?;
    match run.refused {
        None => explain_run(alloc, read, &run.steps, options),
        Some(fault) => {
            let outcome = Outcome::NotShown(fault);
            let ends = ends_judged(alloc, read, table, options.judged)?;
            explain_stop(
                alloc,
                read,
                table,
                certificate,
                options,
                ends,
                &mut run,
                fault,
                outcome,
            )
        }
    }
}

/// Judges the record in `reader`, and explains the verdict.
fn explain_by_table<R: Read>(
    alloc: Global,
    reader: &mut R,
    table: &Table,
    options: ExplainOptions,
) -> Explanation
    ensures { GivesExplanation options.judged table.now
        (device R.remaining R.failures reader.old reader.new) result.outcome (string_bytes result.after) }
{
    match read_record(alloc, reader) {
        Ok(read) => match explain_verdict(alloc, &read, table, options) {
            Ok(why) => why,
            Err(AllocError) => Explanation::alone(alloc, OUT_OF_MEMORY),
        },
        Err(fault) => Explanation::of_fault(
            alloc,
            Outcome::Faulty(fault.reason.number(), fault.place),
        ),
    }
}

/// Explains what a certificate shows of the record in `reader`.
fn explain_by_certificate<R: Read>(
    alloc: Global,
    reader: &mut R,
    table: &Table,
    certificate: &Certificate,
    options: ExplainOptions,
) -> Explanation
    ensures { GivesExplanationBy options.judged table.now (Ok certificate.now)
        (device R.remaining R.failures reader.old reader.new) result.outcome (string_bytes result.after) }
{
    match read_record(alloc, reader) {
        Ok(read) => match explain_replay(alloc, &read, table, certificate, options) {
            Ok(why) => why,
            Err(AllocError) => Explanation::alone(alloc, OUT_OF_MEMORY),
        },
        Err(fault) => Explanation::of_fault(
            alloc,
            Outcome::Faulty(fault.reason.number(), fault.place),
        ),
    }
}

/// Judges a record by a table, both from readers, and explains the verdict.
fn explain_both<R: Read, T: Read>(
    alloc: Global,
    entries: &mut R,
    table: &mut T,
    options: ExplainOptions,
) -> Explanation
    ensures { IsExplained options.judged (device R.remaining R.failures entries.old entries.new)
        (device T.remaining T.failures table.old table.new) result.outcome (string_bytes result.after) }
{
    match read_table(alloc, table) {
        Ok(table) => explain_by_table(alloc, entries, &table, options),
        Err(outcome) => Explanation::of_fault(alloc, outcome),
    }
}

/// Explains what a certificate shows of a record, all three files from readers.
fn explain_all<R: Read, T: Read, C: Read>(
    alloc: Global,
    entries: &mut R,
    table: &mut T,
    certificate: &mut C,
    options: ExplainOptions,
) -> Explanation
    ensures { IsExplainedBy options.judged (device R.remaining R.failures entries.old entries.new)
        (device T.remaining T.failures table.old table.new)
        (device C.remaining C.failures certificate.old certificate.new) result.outcome (string_bytes result.after) }
{
    let table = match read_table(alloc, table) {
        Ok(table) => table,
        Err(outcome) => return Explanation::of_fault(alloc, outcome),
    };
    match read_certificate(alloc, certificate) {
        Ok(certificate) => explain_by_certificate(alloc, entries, &table, &certificate, options),
        Err(outcome) => Explanation::of_fault(alloc, outcome),
    }
}

/// Judges the record in `entries` by the operation table in `table`, and writes the verdict and the reasons.
///
/// The first line is that of `judge`, except that a record is also LAWFUL if each end is lawful on its own. The reasons
/// are:
///
/// - LAWFUL: the run that shows it, step by step (Q.774 3.2 and 3.3), or a run of each end.
/// - REFUTED: the rule that the entry breaks, and the entries that show it.
/// - UNDECIDED: the point at which the run stops, and what the end knows there.
///
/// After REFUTED and UNDECIDED, if both ends are judged, come the findings of `blame` on each, with the reasons. The
/// status is that of the first line. `chart` becomes an HTML page of the run if one is asked for and no file has a
/// fault, and else empty. All memory is taken before the first octet is written; if it runs out, `FAULT 99 0` is the
/// only line.
///
/// # Errors
///
/// `WriteFailed` if the writer fails.
pub fn run_explain<R: Read, T: Read, W: Write>(
    alloc: Global,
    entries: &mut R,
    table: &mut T,
    options: ExplainOptions,
    chart: &mut String,
    writer: &mut W,
) -> Result<Status, WriteFailed>
    ensures explains { IfOk result (Explains options.judged (device R.remaining R.failures entries.old entries.new)
        (device T.remaining T.failures table.old table.new)
        (W.taken writer.old) (W.taken writer.new)) }
    ensures counts { OnOk result (W.failures writer.new ≡ W.failures writer.old) }
    ensures failed { OnErr result (W.failures writer.new ≡ one_more (W.failures writer.old)) }
{
    let why = explain_both(alloc, entries, table, options);
    *chart = why.chart;
    write_outcome(alloc, why.outcome, &why.after, writer)
}

/// Writes what the certificate in `certificate` shows of a record, and the reasons.
///
/// The first line and the status are those of `check`; NOT SHOWN has the reasons of UNDECIDED. For the rest, see
/// [`run_explain`].
///
/// # Errors
///
/// `WriteFailed` if the writer fails.
pub fn run_explain_check<R: Read, T: Read, C: Read, W: Write>(
    alloc: Global,
    entries: &mut R,
    table: &mut T,
    certificate: &mut C,
    options: ExplainOptions,
    chart: &mut String,
    writer: &mut W,
) -> Result<Status, WriteFailed>
    ensures explains { IfOk result (ExplainsBy options.judged (device R.remaining R.failures entries.old entries.new)
        (device T.remaining T.failures table.old table.new)
        (device C.remaining C.failures certificate.old certificate.new)
        (W.taken writer.old) (W.taken writer.new)) }
    ensures counts { OnOk result (W.failures writer.new ≡ W.failures writer.old) }
    ensures failed { OnErr result (W.failures writer.new ≡ one_more (W.failures writer.old)) }
{
    let why = explain_all(alloc, entries, table, certificate, options);
    *chart = why.chart;
    write_outcome(alloc, why.outcome, &why.after, writer)
}
