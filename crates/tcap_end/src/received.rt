//! The components that a half received: invocations, and answers to its own invocations.

use std::marker::Model;
use tcap_parts::Code;

/// The link problem with which an Invoke may be rejected (Q.773 4.2.2).
#[derive(Clone, Copy, Debug, PartialEq, Eq)]
pub(crate) enum Link {
    /// The link is correct, or there is none.
    Fine,
    /// unrecognizedLinkedID (5).
    Unrecognized,
    /// linkedResponseUnexpected (6).
    Unexpected,
    /// unexpectedLinkedOperation (7).
    Other,
}

/// A received invocation.
#[derive(Debug, Drop)]
pub(crate) struct Invocation {
    /// The operation.
    pub(crate) code: Code,
    /// Whether an earlier received invocation had the same invoke ID.
    pub(crate) duplicate: bool,
    /// The fault of the link.
    pub(crate) link: Link,
}

impl Model for Invocation {
    ghost use Rattle.tcap_end.specs.Half.{Invocation as Meant};
    ghost use Rattle.tcap_end.specs.RejectProblems.{invoke_problems};

    ghost Value = { Meant };

    ghost view = { λ a. record { code = a.code; problems = invoke_problems a.duplicate a.link } };
}

/// What an answer is for.
#[derive(Clone, Copy, Debug, PartialEq, Eq)]
pub(crate) enum Target {
    /// No own invocation still waits for its last answer, or the table does not have its operation.
    Nothing,
    /// An own invocation of an operation whose class does not report this kind of answer.
    OtherClass,
    /// An own invocation that the answer may answer.
    Invocation,
}

/// A received answer.
#[derive(Debug, Drop)]
pub(crate) struct Answer {
    /// Whether the answer is a Return Result.
    pub(crate) is_result: bool,
    /// What the answer is for.
    pub(crate) target: Target,
}

impl Model for Answer {
    ghost use Rattle.tcap_end.specs.Half.{Answer as Meant};
    ghost use Rattle.tcap_end.specs.RejectProblems.{target_problems};

    ghost Value = { Meant };

    ghost view = { λ a. record { is_result = a.is_result; problems = target_problems a.is_result a.target } };
}

impl Invocation {
    ghost use Rattle.std.specs.Prelude.{◌≡◌};
    ghost use Rattle.tcap_end.specs.Half.{is_one_of};

    /// Returns whether the invocation may be rejected with this invoke problem.
    pub(crate) fn allows(&self, problem: u8) -> bool
        ensures { result ≡ is_one_of problem self.now.problems }
    {
        match problem {
            0 => self.duplicate,
            1..=4 => true,
            5 => self.link == Link::Unrecognized,
            6 => self.link == Link::Unexpected,
            7 => self.link == Link::Other,
            _ => false,
        }
    }
}

impl Answer {
    ghost use Rattle.std.specs.Prelude.{◌≡◌};
    ghost use Rattle.tcap_end.specs.Component.{allows_for};

    /// Returns whether the answer may be rejected with this problem of a Return Result (`is_result`) or Return Error.
    pub(crate) fn allows(&self, is_result: bool, problem: u8) -> bool
        ensures { result ≡ allows_for is_result problem self.now }
    {
        self.is_result == is_result
            && match self.target {
                Target::Nothing => problem == 0,
                Target::OtherClass => problem == 1,
                Target::Invocation if is_result => problem == 2,
                Target::Invocation => matches!(problem, 2..=4),
            }
    }
}
