//! Counts of verdicts.

ghost use Rattle.std.specs.Prelude.{◌≡◌};
ghost use Rattle.tcap_report.specs.Counts.{all_of, no_counts, no_sum, with_all, with_one, worst_of};

use std::alloc::AllocError;
use tcap_traces::Verdict;

/// Appends a count and the noun for what it counts, in the plural unless the count is 1.
fn push_count(text: &mut String, count: u64, thing: &str) -> Result<(), AllocError> {
    write!(text, "{count} ")?;
    text.push_str(thing)?;
    text.push_str(if count == 1 { "" } else { "s" })
}

/// Appends the numbers of messages, of dialogues by verdict, and of dialogues that pass unheard or unanswered.
pub(crate) fn push_counts(
    text: &mut String,
    messages: u64,
    dialogues: &Counts,
    unheard: u64,
) -> Result<(), AllocError> {
    push_count(text, messages, "message")?;
    text.push_str(", ")?;
    push_count(text, dialogues.all(), "dialogue")?;
    text.push_str(": ")?;
    dialogues.push(text)?;
    writeln!(text, "; {unheard} pass unheard or unanswered")
}

/// The number of each verdict, and the worst verdict.
#[derive(Clone, Copy, Debug)]
pub(crate) struct Counts {
    pub(crate) pass: u64,
    pub(crate) inconc: u64,
    pub(crate) fail: u64,
    pub(crate) error: u64,
    pub(crate) worst: Verdict,
}

impl Counts {
    /// Creates counts of zero. The worst verdict is pass.
    pub(crate) fn new() -> Counts
        ensures { result ≡ no_counts }
    {
        Counts {
            pass: 0,
            inconc: 0,
            fail: 0,
            error: 0,
            worst: Verdict::Pass,
        }
    }

    /// Counts one more verdict.
    pub(crate) fn add(&mut self, verdict: Verdict)
        ensures { self.new ≡ with_one verdict self.old }
    {
        self.worst = self.worst.worse(verdict);
        match verdict {
            Verdict::Pass => self.pass = self.pass.saturating_add(1),
            Verdict::Inconclusive => self.inconc = self.inconc.saturating_add(1),
            Verdict::Fail => self.fail = self.fail.saturating_add(1),
            Verdict::Error => self.error = self.error.saturating_add(1),
        }
    }

    /// Adds the counts of `others`.
    pub(crate) fn add_all(&mut self, others: Counts)
        ensures { self.new ≡ with_all others self.old }
    {
        self.pass = self.pass.saturating_add(others.pass);
        self.inconc = self.inconc.saturating_add(others.inconc);
        self.fail = self.fail.saturating_add(others.fail);
        self.error = self.error.saturating_add(others.error);
        self.worst = self.worst.worse(others.worst);
    }

    /// Returns the number of verdicts.
    pub(crate) fn all(&self) -> u64
        ensures { result ≡ all_of self.now }
    {
        let judged = self
            .pass
            .saturating_add(self.inconc)
            .saturating_add(self.fail);
        judged.saturating_add(self.error)
    }

    /// Appends the number of each verdict.
    pub(crate) fn push(&self, text: &mut String) -> Result<(), AllocError> {
        let Counts {
            pass,
            inconc,
            fail,
            error,
            ..
        } = *self;
        write!(text, "{pass} pass, {inconc} inconc, ")?;
        write!(text, "{fail} fail, {error} error")
    }
}

/// The sum over all traces.
#[derive(Clone, Copy, Debug)]
pub struct Sum {
    pub(crate) traces: Counts,
    pub(crate) dialogues: Counts,
    pub(crate) messages: u64,
    pub(crate) unheard: u64,
}

impl Sum {
    /// Creates the sum over no trace.
    pub fn new() -> Sum
        ensures { result ≡ no_sum }
    {
        Sum {
            traces: Counts::new(),
            dialogues: Counts::new(),
            messages: 0,
            unheard: 0,
        }
    }

    /// Returns the worst verdict on a trace, or pass if there was none.
    pub fn worst(&self) -> Verdict
        ensures { result ≡ worst_of self.now }
    {
        self.traces.worst
    }

    /// Returns the number of messages.
    pub fn messages(&self) -> u64
        ensures { result ≡ self.now.messages }
    {
        self.messages
    }

    /// Appends the line with the sum over all traces.
    ///
    /// # Errors
    /// `AllocError` if memory runs out.
    pub fn push(&self, text: &mut String) -> Result<(), AllocError> {
        push_count(text, self.traces.all(), "trace")?;
        text.push_str(": ")?;
        self.traces.push(text)?;
        text.push_str("; ")?;
        push_counts(text, self.messages, &self.dialogues, self.unheard)
    }
}
