//! The finding on each end of a record, and its line.

ghost use Rattle.std.specs.Prelude.{◌≡◌, ◌&&◌, ◌++◌, Some, OnOk};
ghost use Rattle.std.specs.String.{string_bytes};
ghost use Rattle.tcap_judge.specs.BlameOutcome.{blame_status, ends_lines, finding_by, finding_line, is_blamed, is_lawful, comes_after, unblamed_status, verdict_by_ends};

use crate::outcome::Outcome;
use std::alloc::AllocError;
use tcap_lines::Status;
use tcap_record::End;
use tcap_refute::Refutation;

/// The finding on an end.
#[derive(Clone, Copy, Debug, PartialEq, Eq)]
pub enum Finding {
    /// An entry is blamed on the end.
    Blamed(Refutation),
    /// The end may have sent its part of this many entries, with this many of its peer's messages unheard.
    Lawful(usize, u64),
    /// No entry among this many is blamed on the end.
    NotBlamed(usize),
}

/// The findings on both ends.
#[derive(Clone, Copy, Debug, PartialEq, Eq)]
pub struct Ends {
    /// The finding on A.
    pub a: Finding,
    /// The finding on B.
    pub b: Finding,
}

impl Finding {
    /// Creates a finding from the verdict on the end alone, and from the number of entries before the first that is no
    /// item.
    pub(crate) fn new(count: usize, verdict: Outcome) -> Finding
        ensures { result ≡ finding_by count verdict }
    {
        match verdict {
            Outcome::Refuted(refutation) => Finding::Blamed(refutation),
            Outcome::LawfulFor(all, unheard) => Finding::Lawful(all, unheard),
            _ => Finding::NotBlamed(count),
        }
    }

    /// Returns whether an entry is blamed on the end.
    fn is_blamed(self) -> bool
        ensures { result ≡ is_blamed self }
    {
        matches!(self, Finding::Blamed(_))
    }

    /// Returns whether the end may have sent its part.
    fn is_lawful(self) -> bool
        ensures { result ≡ is_lawful self }
    {
        matches!(self, Finding::Lawful(_, _))
    }
}

/// Appends the line of a finding.
///
/// # Errors
///
/// `AllocError` if memory runs out.
pub fn push_finding(text: &mut String, end: End, finding: Finding) -> Result<(), AllocError>
    ensures { OnOk result (string_bytes text.new ≡ string_bytes text.old ++ finding_line end finding) }
{
    let letter = end.letter();
    match finding {
        Finding::Blamed(refutation) => {
            let entry = refutation.entry;
            let number = refutation.kind.number();
            writeln!(text, "BLAMED {letter} {entry} F{number}")
        }
        Finding::Lawful(count, unheard) => {
            writeln!(text, "LAWFUL {letter} {count} unheard {unheard}")
        }
        Finding::NotBlamed(count) => writeln!(text, "NOT BLAMED {letter} {count}"),
    }
}

/// Returns whether the line of A comes after the line of B: B is blamed, and A is not, or for a later entry.
pub fn comes_after(a: Finding, b: Finding) -> bool
    ensures { result ≡ comes_after a b }
{
    match (a, b) {
        (Finding::Blamed(a), Finding::Blamed(b)) => b.entry < a.entry,
        (_, Finding::Blamed(_)) => true,
        _ => false,
    }
}

/// Returns the status of an outcome if no entry is blamed on an end.
fn unblamed_status(outcome: Outcome) -> Status
    ensures { result ≡ unblamed_status outcome }
{
    match outcome {
        Outcome::Refuted(_) => Status::NotShown,
        _ => outcome.status(),
    }
}

impl Ends {
    /// Appends the lines of both ends: blamed ends first, in the order of their entries, else A before B. Fails if
    /// memory runs out.
    pub(crate) fn push(self, text: &mut String) -> Result<(), AllocError>
        ensures { OnOk result (string_bytes text.new ≡ string_bytes text.old ++ ends_lines self) }
    {
        if comes_after(self.a, self.b) {
            push_finding(text, End::B, self.b)?;
            push_finding(text, End::A, self.a)
        } else {
            push_finding(text, End::A, self.a)?;
            push_finding(text, End::B, self.b)
        }
    }

    /// Returns whether each end alone may have sent its part. Then two lawful ends may have sent the record.
    pub fn are_lawful(self) -> bool
        ensures { result ≡ (is_lawful self.a && is_lawful self.b) }
    {
        self.a.is_lawful() && self.b.is_lawful()
    }

    /// Returns the verdict on a record of `count` entries: lawful if each end alone is lawful, else `outcome`.
    pub(crate) fn joint_verdict(self, count: usize, outcome: Outcome) -> Outcome
        ensures { result ≡ verdict_by_ends count self outcome }
    {
        if self.are_lawful() {
            Outcome::Lawful(count)
        } else {
            outcome
        }
    }

    /// Returns the status of a run with this outcome and these findings.
    fn status(self, outcome: Outcome) -> Status
        ensures { result ≡ blame_status (Some self) outcome }
    {
        if self.a.is_blamed() || self.b.is_blamed() {
            Status::Refuted
        } else {
            unblamed_status(outcome)
        }
    }
}

/// Returns the status of a run with this outcome and these findings. It is that of REFUTED if an entry is blamed on an
/// end. If an entry is refuted but not blamed on an end, it is that of UNDECIDED. Otherwise it is that of the outcome.
pub fn blame_status(ends: Option<Ends>, outcome: Outcome) -> Status
    ensures { result ≡ blame_status ends outcome }
{
    match ends {
        Some(ends) => ends.status(outcome),
        None => outcome.status(),
    }
}
