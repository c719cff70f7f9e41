//! Answers as numbers, for programs in C.

ghost use Rattle.std.specs.Prelude.{◌≡◌};
ghost use Rattle.tcap_lines.specs.ShowRun.{status_number};
ghost use Rattle.tcap_judge.specs.Outcome.{outcome_status};
ghost use Rattle.tcap_judge.specs.BlameOutcome.{blame_status};
ghost use Rattle.tcap_c.specs.InMemory.{answer, blame_answers, fault_answer, finding_answer, no_answer, outcome_answer, refutation_answer};

use tcap_check::CheckFault;
use tcap_judge::{Blame, Ends, Finding, Outcome, blame_status, inner_number};
use tcap_refute::Refutation;

/// The answer on a record or on an end. The header `clib/tcapjudge.h` explains the numbers.
#[repr(C)]
#[derive(Clone, Copy, Debug, PartialEq, Eq)]
pub struct Answer {
    /// The number of entries that are LAWFUL or NOT BLAMED; the number of the entry that is REFUTED, BLAMED, UNDECIDED
    /// or NOT SHOWN, counted from 0; or the place of a FAULT.
    pub entry: u64,
    /// The number of the peer's messages that a LAWFUL end did not receive.
    pub unheard: u64,
    /// LAWFUL 0, REFUTED 1, UNDECIDED 2, FAULT 3, NOT SHOWN 4, BLAMED 5, NOT BLAMED 6, or 7 for an empty answer.
    pub verdict: u8,
    /// The kind of a REFUTED or BLAMED entry; the reason of UNDECIDED, NOT SHOWN or FAULT.
    pub reason: u8,
    /// The number after the `/` of a reason, or 0 if it has none.
    pub inner: u8,
}

/// The answers on a record and on each of its ends.
#[repr(C)]
#[derive(Clone, Copy, Debug, PartialEq, Eq)]
pub struct Answers {
    /// The answer on the record.
    pub both: Answer,
    /// The answer on end A.
    pub a: Answer,
    /// The answer on end B.
    pub b: Answer,
}

const LAWFUL: u8 = 0;

const REFUTED: u8 = 1;

const UNDECIDED: u8 = 2;

const FAULT: u8 = 3;

const NOT_SHOWN: u8 = 4;

const BLAMED: u8 = 5;

const NOT_BLAMED: u8 = 6;

const NOTHING: u8 = 7;

impl Answer {
    /// Creates an answer with a verdict and an entry, count or offset.
    fn new(verdict: u8, entry: u64) -> Answer
        ensures { result ≡ answer verdict entry 0 0 0 }
    {
        Answer {
            entry,
            unheard: 0,
            verdict,
            reason: 0,
            inner: 0,
        }
    }

    /// Creates the empty answer.
    pub(crate) fn nothing() -> Answer
        ensures { result ≡ no_answer }
    {
        Answer::new(NOTHING, 0)
    }

    /// Creates the answer that `count` entries are lawful, with `unheard` unheard messages.
    fn lawful(count: usize, unheard: u64) -> Answer
        ensures { result ≡ answer 0 count 0 0 unheard }
    {
        Answer {
            unheard,
            ..Answer::new(LAWFUL, count as u64)
        }
    }

    /// Creates the answer for a certificate that fails.
    fn of_fault(verdict: u8, fault: CheckFault) -> Answer
        ensures { result ≡ fault_answer verdict fault }
    {
        Answer {
            reason: fault.reason.number(),
            inner: inner_number(fault.reason).unwrap_or(0),
            ..Answer::new(verdict, fault.entry)
        }
    }

    /// Creates the answer for an entry at fault.
    fn of_refutation(verdict: u8, refutation: Refutation) -> Answer
        ensures { result ≡ refutation_answer verdict refutation }
    {
        Answer {
            reason: refutation.kind.number(),
            ..Answer::new(verdict, refutation.entry)
        }
    }

    /// Converts an outcome for a record.
    fn of_outcome(outcome: Outcome) -> Answer
        ensures { result ≡ outcome_answer outcome }
    {
        match outcome {
            Outcome::Lawful(count) => Answer::lawful(count, 0),
            Outcome::LawfulFor(count, unheard) => Answer::lawful(count, unheard),
            Outcome::Refuted(refutation) => Answer::of_refutation(REFUTED, refutation),
            Outcome::Undecided(fault) => Answer::of_fault(UNDECIDED, fault),
            Outcome::NotShown(fault) => Answer::of_fault(NOT_SHOWN, fault),
            Outcome::Faulty(number, place) => Answer {
                reason: number,
                ..Answer::new(FAULT, place)
            },
        }
    }

    /// Converts a finding on an end.
    fn of_finding(finding: Finding) -> Answer
        ensures { result ≡ finding_answer finding }
    {
        match finding {
            Finding::Lawful(count, unheard) => Answer::lawful(count, unheard),
            Finding::Blamed(refutation) => Answer::of_refutation(BLAMED, refutation),
            Finding::NotBlamed(count) => Answer::new(NOT_BLAMED, count as u64),
        }
    }

    /// Stores the answer for an outcome, and returns its exit status.
    pub(crate) fn put(&mut self, outcome: Outcome) -> u8
        ensures given { self.new ≡ outcome_answer outcome }
        ensures status { result ≡ status_number (outcome_status outcome) }
    {
        *self = Answer::of_outcome(outcome);
        outcome.status().number()
    }
}

impl Answers {
    /// Converts the result of `blame`. The answers on the ends are empty if there are no findings.
    fn of_blame(blame: Blame) -> Answers
        ensures { result ≡ blame_answers blame.outcome blame.ends }
    {
        let both = Answer::of_outcome(blame.outcome);
        match blame.ends {
            Some(Ends { a, b }) => Answers {
                both,
                a: Answer::of_finding(a),
                b: Answer::of_finding(b),
            },
            None => Answers {
                both,
                a: Answer::nothing(),
                b: Answer::nothing(),
            },
        }
    }

    /// Stores the answers for the result of `blame`, and returns its exit status.
    pub(crate) fn put(&mut self, blame: Blame) -> u8
        ensures given { self.new ≡ blame_answers blame.outcome blame.ends }
        ensures status { result ≡ status_number (blame_status blame.ends blame.outcome) }
    {
        *self = Answers::of_blame(blame);
        blame_status(blame.ends, blame.outcome).number()
    }
}
