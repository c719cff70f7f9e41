//! Problems of rejected components (Q.773 4.2.2).

ghost use Rattle.std.specs.Prelude.{◌≡◌};
ghost use Rattle.tcap_ber.specs.Reading.{Gives, span};
ghost use Rattle.tcap_parts.specs.Meaning.{problem_of};
ghost use Rattle.tcap_parts.specs.Reading.{problem_at};

use tcap_ber::{Fault, Reason, Small, SmallView, Window, required_any, small_number};

/// Why a component is rejected: the kind of problem, and its number.
#[derive(Clone, Copy, Debug)]
pub enum Problem {
    /// A general problem: 0 is an unrecognized component, for example.
    General(Small),
    /// A problem of an Invoke: 0 is a duplicate invoke ID, for example.
    Invoke(Small),
    /// A problem of a Return Result: 0 is an unrecognized invoke ID, for example.
    ReturnResult(Small),
    /// A problem of a Return Error: 0 is an unrecognized invoke ID, for example.
    ReturnError(Small),
}

/// A problem as views of octets hold it.
#[derive(Clone, Copy, Debug)]
pub enum ProblemView {
    /// A general problem.
    General(SmallView),
    /// A problem of an Invoke.
    Invoke(SmallView),
    /// A problem of a Return Result.
    ReturnResult(SmallView),
    /// A problem of a Return Error.
    ReturnError(SmallView),
}

const GENERAL: u8 = 0x80;

const INVOKE: u8 = 0x81;

const RETURN_RESULT: u8 = 0x82;

const RETURN_ERROR: u8 = 0x83;

/// Reads the problem at the front of a window (Q.773 4.2.2). Returns it and the window after it.
#[tactic(auto, unfolding(crate::specs::Reading::problem_at))]
pub(crate) fn read_problem(window: Window) -> Result<(ProblemView, Window), Fault>
    ensures exact { Gives (λ x. (problem_of x.0, span x.1)) result (problem_at (span window.entry)) }
{
    let (found, rest) = required_any(window)?;
    let problem = if found.tag.is(GENERAL) {
        ProblemView::General(small_number(found)?)
    } else if found.tag.is(INVOKE) {
        ProblemView::Invoke(small_number(found)?)
    } else if found.tag.is(RETURN_RESULT) {
        ProblemView::ReturnResult(small_number(found)?)
    } else if found.tag.is(RETURN_ERROR) {
        ProblemView::ReturnError(small_number(found)?)
    } else {
        return Err(found.refused(Reason::UnexpectedTag));
    };
    Ok((problem, rest))
}

impl ProblemView {
    /// Returns the problem as an owned value.
    pub fn to_problem(self) -> Problem
        ensures { result ≡ problem_of self }
    {
        match self {
            ProblemView::General(number) => Problem::General(number.to_small()),
            ProblemView::Invoke(number) => Problem::Invoke(number.to_small()),
            ProblemView::ReturnResult(number) => Problem::ReturnResult(number.to_small()),
            ProblemView::ReturnError(number) => Problem::ReturnError(number.to_small()),
        }
    }
}

impl Problem {
    /// Returns the problem in the type that views hold.
    pub fn view(self) -> ProblemView
        ensures { problem_of result ≡ self }
    {
        match self {
            Problem::General(number) => ProblemView::General(number.view()),
            Problem::Invoke(number) => ProblemView::Invoke(number.view()),
            Problem::ReturnResult(number) => ProblemView::ReturnResult(number.view()),
            Problem::ReturnError(number) => ProblemView::ReturnError(number.view()),
        }
    }
}
