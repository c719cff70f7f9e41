//! The end of a trace: its verdict, its line, and its share in the sum.

ghost use Rattle.std.specs.Prelude.{◌≡◌, [], ◌∷◌, is_some, IfOk, OnOk};
ghost use Rattle.tcap_traces.specs.declared.verdict.Verdict.TheVariants as verdicts;
ghost use Rattle.tcap_traces.specs.Verdict.{trace_verdict};
ghost use Rattle.tcap_report.specs.Counts.{HasJudged, no_counts, with_read, with_verdict};

use crate::doubt_words::push_hint;
use crate::fault::{FormFault, Stop};
use crate::sinks::{Lines, Sinks, TraceSummary, write_text};
use crate::sum::{Sum, push_counts};
use crate::trace::{Trace, TraceOptions};
use crate::unheard::push_unnamed;
use crate::watch::Watch;
use std::alloc::{AllocError, Global};
use tcap_ber::Write;
use tcap_traces::{Verdict, trace_verdict};

/// Returns the line of the fault, if the fault has one.
fn line_in(fault: &Option<FormFault>) -> Option<u64> {
    match fault {
        Some(fault) => fault.line,
        None => None,
    }
}

/// Appends what is wrong with a trace, if anything is. A trace without an entry of a readable kind is wrong, too.
fn push_fault(
    text: &mut String,
    fault: &Option<FormFault>,
    readable: u64,
) -> Result<(), AllocError> {
    match fault {
        Some(
            FormFault {
                line: Some(line),
                text: what,
            },
        ) => {
            write!(text, "line {line}: ")?;
            text.push_str(what)
        }
        Some(
            FormFault {
                line: None,
                text: what,
            },
        ) => text.push_str(what),
        None if readable == 0 => text.push_str("no entry has the tag of a message"),
        None => Ok(()),
    }
}

impl Trace<'_> {
    /// Returns the sum of the traces before and of this one, as far as it was read.
    pub(crate) fn so_far(&self, before: &Sum) -> Sum
        ensures { result ≡ with_read self.now.dialogues self.now.messages self.now.unheard before.now }
    {
        let mut sum = *before;
        sum.dialogues.add_all(self.dialogues);
        sum.messages = sum.messages.saturating_add(self.messages);
        sum.unheard = sum.unheard.saturating_add(self.unheard);
        sum
    }

    /// Reports the verdict on the trace, counts it in the sum, and returns it.
    ///
    /// `fault` is a fault of its form, and `hint` what its octets look like. Fails with `Stop` if memory runs out or a
    /// sink fails.
    pub(crate) fn end<W: Write, J: Lines, P: Watch>(
        &self,
        fault: Option<FormFault>,
        hint: Option<&str>,
        sinks: &mut Sinks<W, J, P>,
    ) -> Result<Verdict, Stop>
        ensures is { IfOk result (λ verdict.
            verdict ≡ trace_verdict (is_some fault) self.now.readable self.now.dialogues.worst) }
        ensures sum { IfOk result (λ verdict. sinks.new.sum.now
            ≡ with_verdict verdict
            (with_read self.now.dialogues self.now.messages self.now.unheard sinks.old.sum.now)) }
        ensures same_sum { sinks.new.sum.ghost_name ≡ sinks.old.sum.ghost_name }
    {
        let verdict = trace_verdict(fault.is_some(), self.readable, self.dialogues.worst);
        let mut why = String::new(self.alloc);
        push_fault(&mut why, &fault, self.readable)?;
        let mut line = String::new(self.alloc);
        self.push_others(&mut line)?;
        self.push_line(&mut line, verdict, &why)?;
        push_hint(&mut line, hint)?;
        write_text(sinks.text, &line)?;
        let returned = TraceSummary {
            name: self.name,
            names: &self.names,
            verdict,
            messages: self.messages,
            dialogues: self.dialogues,
            unheard: self.unheard,
            why: &why,
            line: line_in(&fault),
            hint,
        };
        sinks.report_trace(self.alloc, returned)?;
        sinks.flush()?;
        *sinks.sum = self.so_far(sinks.sum);
        sinks.sum.traces.add(verdict);
        Ok(verdict)
    }

    /// Reports the verdict on a trace that was read to its end. It may have said that it is broken off.
    pub(crate) fn end_whole<W: Write, J: Lines, P: Watch>(
        &mut self,
        sinks: &mut Sinks<W, J, P>,
    ) -> Result<Verdict, Stop>
        ensures is { IfOk result (λ verdict.
            verdict ≡ trace_verdict (is_some self.old.broken_off) self.old.readable self.old.dialogues.worst) }
        ensures sum { IfOk result (λ verdict. sinks.new.sum.now
            ≡ with_verdict verdict
            (with_read self.old.dialogues self.old.messages self.old.unheard sinks.old.sum.now)) }
        ensures same_sum { sinks.new.sum.ghost_name ≡ sinks.old.sum.ghost_name }
    {
        match self.broken_off.take() {
            Some(text) => self.end(Some(FormFault { line: None, text }), None, sinks),
            None => self.end(None, None, sinks),
        }
    }

    /// Appends a line with the number of dialogues that pass unheard or unanswered and are not named, if there are any.
    fn push_others(&self, text: &mut String) -> Result<(), AllocError> {
        let mut before = String::from_str(self.alloc, self.name)?;
        before.push_str(": ")?;
        push_unnamed(text, &before, self.unheard)
    }

    /// Appends the line of the trace: its name, its verdict, `why` and its counts.
    fn push_line(&self, text: &mut String, verdict: Verdict, why: &str) -> Result<(), AllocError> {
        text.push_str(self.name)?;
        text.push_str(": ")?;
        text.push_str(verdict.word())?;
        if !why.is_empty() {
            text.push_str(": ")?;
            text.push_str(why)?;
        }
        text.push_str("; ")?;
        push_counts(text, self.messages, &self.dialogues, self.unheard)
    }
}

/// Reports a trace that can't be read as an error, and returns that verdict. `why` is the text to print.
///
/// # Errors
/// `Stop::Memory` if memory runs out, `Stop::Write` if a sink fails.
pub fn report_unread<W: Write, J: Lines, P: Watch>(
    alloc: Global,
    name: &str,
    options: TraceOptions,
    why: &str,
    sinks: &mut Sinks<W, J, P>,
) -> Result<Verdict, Stop>
    ensures error { IfOk result (λ verdict. verdict ≡ verdicts.Error) }
    ensures counted { IfOk result (λ verdict. HasJudged (verdict ∷ []) sinks.old.sum.now sinks.new.sum.now) }
    ensures sum { OnOk result
        (sinks.new.sum.now ≡ with_verdict verdicts.Error (with_read no_counts 0 0 sinks.old.sum.now)) }
    ensures same_sum { sinks.new.sum.ghost_name ≡ sinks.old.sum.ghost_name }
{
    let mut text = String::new(alloc);
    text.push_str(why)?;
    Trace::new(alloc, name, options).end(Some(FormFault { line: None, text }), None, sinks)
}
