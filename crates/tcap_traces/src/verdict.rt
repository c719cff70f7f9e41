//! Verdicts, in the words of TTCN-3 (ES 201 873-1).

ghost use Rattle.std.specs.Prelude.{◌≡◌};
ghost use Rattle.tcap_traces.specs.Verdict.{rank, status_of, trace_verdict, word_of, worse};

/// The verdict on an end, a dialogue, a trace or a run, from best to worst.
#[derive(Clone, Copy, Debug, PartialEq, Eq)]
pub enum Verdict {
    /// Each judged end may have sent its part.
    Pass,
    /// Neither a pass nor a failure is shown; or a failure depends on the bench's statements.
    Inconclusive,
    /// A judged end broke the rules.
    Fail,
    /// There is nothing to judge: a file, a line or a table has a fault, or a trace has no message.
    Error,
}

impl Verdict {
    /// Returns the rank of a verdict, from 0 for the best.
    fn rank(self) -> u8
        ensures { result ≡ rank self }
    {
        match self {
            Verdict::Pass => 0,
            Verdict::Inconclusive => 1,
            Verdict::Fail => 2,
            Verdict::Error => 3,
        }
    }

    /// Returns the worse of two verdicts.
    pub fn worse(self, other: Verdict) -> Verdict
        ensures { result ≡ worse self other }
    {
        if self.rank() <= other.rank() {
            other
        } else {
            self
        }
    }

    /// Returns the exit status of a run whose worst verdict this is: 0 for pass, 1 for fail, 2 for inconclusive, 3 for
    /// error.
    pub fn status(self) -> u8
        ensures { result ≡ status_of self }
    {
        match self {
            Verdict::Pass => 0,
            Verdict::Fail => 1,
            Verdict::Inconclusive => 2,
            Verdict::Error => 3,
        }
    }

    /// Returns the word for a verdict.
    pub fn word(self) -> &'static str
        ensures { result.now ≡ word_of self }
    {
        match self {
            Verdict::Pass => "pass",
            Verdict::Inconclusive => "inconc",
            Verdict::Fail => "fail",
            Verdict::Error => "error",
        }
    }
}

/// Returns the verdict on a trace, by the worst of its dialogues and the number of entries with a readable tag. It is
/// an error if the trace has a fault of form, or no such entry.
pub fn trace_verdict(is_faulty: bool, readable: u64, worst: Verdict) -> Verdict
    ensures { result ≡ trace_verdict is_faulty readable worst }
{
    if is_faulty || readable == 0 {
        Verdict::Error
    } else {
        worst
    }
}
