//! The runs that certificates give, and the lines of the runs of both ends.

ghost use Rattle.std.specs.Prelude.{◌≡◌, ◌≤◌, ◌++◌, ◌&&◌, ℕ, List, true, IfOk, OnOk, length, map};
ghost use Rattle.std.specs.String.{string_bytes};
ghost use Rattle.tcap_certificate.specs.Replay.{discards_by};
ghost use Rattle.tcap_check.specs.CheckerMeaning.{map_ok};
ghost use Rattle.tcap_check.specs.RunSoFar.{answered};
ghost use Rattle.tcap_check.specs.ReportedSteps.{discards_of, events_of};
ghost use Rattle.tcap_model.specs.Entries.{item_of};
ghost use Rattle.tcap_judge.specs.BlameOutcome.{ends_of, finding, is_lawful};
ghost use Rattle.tcap_judge.specs.LawfulOutcome.{IsShown, lawful_by, replayed_by};
ghost use Rattle.tcap_explain.specs.VerdictLines.{AreLinesOf, AreLinesOfBoth};

use crate::step_lines::push_steps;
use std::alloc::{AllocError, Global};
use tcap_check::{Certificate, Partial, run_until};
use tcap_end::Table;
use tcap_judge::{Ends, Finding, propose, push_finding};
use tcap_record::{End, Record};

/// Returns the run that a certificate gives for a record, as far as it goes, and why it stops, if it does. The run is
/// of both ends, or of the judged end.
pub(crate) fn run_so_far(
    alloc: Global,
    read: &Record,
    table: &Table,
    certificate: &Certificate,
    judged: Option<End>,
) -> Result<Partial, AllocError>
    ensures exact { IfOk result (λ run. map_ok events_of (answered run.refused run.steps.items)
        ≡ replayed_by judged table.now certificate.now read.now.entries.items) }
    ensures lawful { IfOk result (λ run. IfOk (answered run.refused run.steps.items) (λ steps. IsShown judged table.now
        read.now.entries.items (lawful_by judged (length read.now.entries.items) (events_of steps)))) }
    ensures discards { IfOk result (λ run. map_ok discards_of (answered run.refused run.steps.items)
        ≡ discards_by judged table.now certificate.now (map item_of read.now.entries.items)) }
{
    run_until(alloc, read, table, certificate, judged)
}

/// Appends the line of a lawful end, and the run that the certificate proposed for this end gives.
fn push_lawful_end(
    alloc: Global,
    text: &mut String,
    read: &Record,
    table: &Table,
    end: End,
    found: Finding,
) -> Result<(), AllocError>
    requires few { length read.now.entries.items ≤ 100000 }
    requires found { found ≡ finding table.now read.now.entries.items end }
    requires lawful { is_lawful found ≡ true }
    ensures { OnOk result ((lines : List ℕ) × (string_bytes text.new ≡ string_bytes text.old ++ lines)
        × AreLinesOf table.now read.now.entries.items end lines) }
{
    push_finding(text, end, found)?;
    let certificate = propose(alloc, read, Some(end))?;
    let run = run_so_far(alloc, read, table, &certificate, Some(end))?;
    push_steps(text, Some(end), &run.steps)?;
    Ok(())
}

/// Returns the lines of two ends that are each lawful, with the run that shows it for each.
pub(crate) fn lawful_ends_text(
    alloc: Global,
    read: &Record,
    table: &Table,
    ends: Ends,
) -> Result<String, AllocError>
    requires few { length read.now.entries.items ≤ 100000 }
    requires ends { ends ≡ ends_of table.now read.now.entries.items }
    requires lawful { (is_lawful ends.a && is_lawful ends.b) ≡ true }
    ensures { IfOk result (λ text. AreLinesOfBoth table.now read.now.entries.items (string_bytes text)) }
{
    let mut text = String::new(alloc);
    push_lawful_end(alloc, &mut text, read, table, End::A, ends.a)?;
    push_lawful_end(alloc, &mut text, read, table, End::B, ends.b)?;
    Ok(text)
}
