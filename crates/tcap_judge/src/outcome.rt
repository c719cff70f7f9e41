//! The outcome of a run, and its line.

ghost use Rattle.std.specs.Prelude.{◌≡◌, ◌++◌, ℕ, List, IfOk, OnOk, OnErr};
ghost use Rattle.std.specs.Io.KnownBytes.{Appends};
ghost use Rattle.std.specs.String.{string_bytes};
ghost use Rattle.tcap_ber.specs.Device.{one_more};
ghost use Rattle.tcap_judge.specs.Outcome.{IsOutcomeText, inner_number, not_shown_line, reason_text};
ghost use Rattle.tcap_judge.specs.Outcome.{outcome_line, outcome_status, refuted_line, undecided_line};

use std::alloc::{AllocError, Global};
use tcap_ber::Write;
use tcap_check::{CheckFault, Reason};
use tcap_lines::{MEMORY_LINE, Status, WriteFailed, write_line};
use tcap_record::push_fault;
use tcap_refute::Refutation;

/// The outcome of judging a record.
#[derive(Clone, Copy, Debug, PartialEq, Eq)]
pub enum Outcome {
    /// The record, with this many entries, is lawful.
    Lawful(usize),
    /// The judged end alone may have sent its part of this many entries, with this many of its peer's messages unheard.
    LawfulFor(usize, u64),
    /// The certificate does not show the record lawful.
    NotShown(CheckFault),
    /// The sender of this entry broke the rules. If one end is judged alone, the entry is blamed on this end.
    Refuted(Refutation),
    /// No entry is refuted, and the proposed certificate does not show the record lawful.
    Undecided(CheckFault),
    /// The input has a fault: the number of its reason, and its place.
    Faulty(u8, u64),
}

/// The outcome if memory ran out.
pub const OUT_OF_MEMORY: Outcome = Outcome::Faulty(99, 0);

impl Outcome {
    /// Returns the status of a run with this outcome.
    pub fn status(self) -> Status
        ensures { result ≡ outcome_status self }
    {
        match self {
            Outcome::Lawful(_) | Outcome::LawfulFor(_, _) => Status::Fine,
            Outcome::Refuted(_) => Status::Refuted,
            Outcome::NotShown(_) | Outcome::Undecided(_) => Status::NotShown,
            Outcome::Faulty(_, _) => Status::Fault,
        }
    }
}

/// Returns the number of the inner fault of a reason, if it has one: that of the end's refusal, or of the message's
/// fault.
pub fn inner_number(reason: Reason) -> Option<u8>
    ensures { result ≡ inner_number reason }
{
    match reason {
        Reason::SendRefused(fault) | Reason::HiddenRefused(fault) => Some(fault.number()),
        Reason::BadMessage(fault) => Some(fault.reason.number()),
        _ => None,
    }
}

/// Appends the number of a reason and, after `/`, the number of its inner fault, if it has one. Fails if memory runs
/// out.
fn push_reason(text: &mut String, reason: Reason) -> Result<(), AllocError>
    ensures { OnOk result (string_bytes text.new ≡ string_bytes text.old ++ reason_text reason) }
{
    let number = reason.number();
    match inner_number(reason) {
        Some(inner) => write!(text, "{number}/{inner}"),
        None => write!(text, "{number}"),
    }
}

/// Appends the line `NOT SHOWN ENTRY REASON`, for a certificate that does not show a record lawful. Fails if memory
/// runs out.
fn push_not_shown(text: &mut String, fault: CheckFault) -> Result<(), AllocError>
    ensures { OnOk result (string_bytes text.new ≡ string_bytes text.old ++ not_shown_line fault) }
{
    let entry = fault.entry;
    write!(text, "NOT SHOWN {entry} ")?;
    push_reason(text, fault.reason)?;
    text.push_str("\n")
}

/// Appends the line `REFUTED ENTRY KIND`, for an entry at fault. Fails if memory runs out.
fn push_refuted(text: &mut String, refutation: Refutation) -> Result<(), AllocError>
    ensures { OnOk result (string_bytes text.new ≡ string_bytes text.old ++ refuted_line refutation) }
{
    let entry = refutation.entry;
    let number = refutation.kind.number();
    writeln!(text, "REFUTED {entry} F{number}")
}

/// Appends the line `UNDECIDED ENTRY REASON`, for a record that is neither refuted nor shown lawful. Fails if memory
/// runs out.
fn push_undecided(text: &mut String, fault: CheckFault) -> Result<(), AllocError>
    ensures { OnOk result (string_bytes text.new ≡ string_bytes text.old ++ undecided_line fault) }
{
    let entry = fault.entry;
    write!(text, "UNDECIDED {entry} ")?;
    push_reason(text, fault.reason)?;
    text.push_str("\n")
}

/// Appends the line of an outcome.
///
/// # Errors
///
/// `AllocError` if memory runs out.
pub fn push_outcome(text: &mut String, outcome: Outcome) -> Result<(), AllocError>
    ensures { OnOk result (string_bytes text.new ≡ string_bytes text.old ++ outcome_line outcome) }
{
    match outcome {
        Outcome::Lawful(count) => writeln!(text, "LAWFUL {count}"),
        Outcome::LawfulFor(count, unheard) => writeln!(text, "LAWFUL {count} unheard {unheard}"),
        Outcome::NotShown(fault) => push_not_shown(text, fault),
        Outcome::Refuted(refutation) => push_refuted(text, refutation),
        Outcome::Undecided(fault) => push_undecided(text, fault),
        Outcome::Faulty(number, place) => push_fault(text, number, place),
    }
}

/// Appends the line of an outcome, and the text after it. Fails if memory runs out.
fn push_with(text: &mut String, outcome: Outcome, after: &str) -> Result<(), AllocError>
    ensures { OnOk result (string_bytes text.new ≡ string_bytes text.old ++ outcome_line outcome ++ after.now) }
{
    push_outcome(text, outcome)?;
    text.push_str(after)
}

/// Writes the line of an outcome and the text after it, or the line that memory ran out, and returns the status. The
/// text is complete before its first octet is written.
///
/// # Errors
///
/// `WriteFailed` if the writer fails.
pub fn write_outcome<W: Write>(
    alloc: Global,
    outcome: Outcome,
    after: &str,
    writer: &mut W,
) -> Result<Status, WriteFailed>
    ensures text { IfOk result (λ status. (text : List ℕ) × IsOutcomeText outcome after.now text status
        × Appends (W.taken writer.old) (W.taken writer.new) text) }
    ensures counts { OnOk result (W.failures writer.new ≡ W.failures writer.old) }
    ensures failed { OnErr result (W.failures writer.new ≡ one_more (W.failures writer.old)) }
{
    let mut text = String::new(alloc);
    match push_with(&mut text, outcome, after) {
        Ok(()) => {
            write_line(writer, text.as_bytes())?;
            Ok(outcome.status())
        }
        Err(AllocError) => {
            write_line(writer, MEMORY_LINE.as_bytes())?;
            Ok(Status::Fault)
        }
    }
}
