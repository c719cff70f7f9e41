//! Reports as JUnit XML, with a testcase for each trace.

use crate::case_names::CaseNames;
use crate::doubt_words::push_hint;
use crate::grounds::Grounds;
use crate::headline::push_headline;
use crate::sinks::TraceSummary;
use crate::sum::{Counts, push_counts};
use crate::unheard::push_unnamed;
use crate::xml::{push_text, push_value};
use std::alloc::{AllocError, Global};
use tcap_record::End;
use tcap_traces::{Case, JudgedDialogue, Verdict};

/// The most dialogues whose lines a testcase has.
const MOST: usize = 20;

/// The number of testcases, and how many of them fail or have an error.
#[derive(Clone, Copy, Debug)]
struct Tally {
    tests: u64,
    failures: u64,
    errors: u64,
}

/// The testcases of the traces so far.
#[derive(Debug, Drop)]
pub struct Junit {
    alloc: Global,
    // The finished testcases, their names and their tally.
    cases: String,
    names: CaseNames,
    tally: Tally,
    // Of the current trace, the worst verdict on a dialogue so far, and the headline of the first dialogue with it.
    worst: Verdict,
    headline: String,
    // The lines of the dialogues of the current trace that do not pass, as far as they have room.
    dialogues: Vec<String>,
    // The lines of the dialogues of the current trace that pass unheard or unanswered and are named.
    passing: String,
}

/// The XML of a run that did not end: one error.
pub const NOT_ENDED: &str = "<?xml version=\"1.0\" encoding=\"UTF-8\"?>
<testsuites tests=\"1\" failures=\"0\" errors=\"1\">
  <testsuite name=\"tcapjudge\" tests=\"1\" failures=\"0\" errors=\"1\">
    <testcase classname=\"tcapjudge\" name=\"run\">
      <error type=\"error\" message=\"this run did not end\"></error>
    </testcase>
  </testsuite>
</testsuites>
";

impl Tally {
    /// Creates a tally of zero.
    fn new() -> Tally {
        Tally {
            tests: 0,
            failures: 0,
            errors: 0,
        }
    }

    /// Counts one more testcase, which passes, fails, or else has an error.
    fn add(&mut self, verdict: Verdict) {
        self.tests = self.tests.saturating_add(1);
        match verdict {
            Verdict::Pass => {}
            Verdict::Fail => self.failures = self.failures.saturating_add(1),
            _ => self.errors = self.errors.saturating_add(1),
        }
    }

    /// Appends the tally as attributes.
    fn push(self, xml: &mut String) -> Result<(), AllocError> {
        let Tally {
            tests,
            failures,
            errors,
        } = self;
        write!(xml, " tests=\"{tests}\" failures=\"{failures}\" ")?;
        write!(xml, "errors=\"{errors}\"")
    }
}

/// Appends the fault of a trace's form and the hint, if there are any, each with a newline.
fn push_form_fault(
    alloc: Global,
    xml: &mut String,
    returned: TraceSummary,
) -> Result<(), AllocError> {
    if returned.why.is_empty() {
        return Ok(());
    }
    push_text(xml, returned.why)?;
    let mut hint = String::from_str(alloc, "\n")?;
    push_hint(&mut hint, returned.hint)?;
    push_text(xml, &hint)
}

/// Appends the lines of dialogues, and how many others of the trace do not pass.
fn push_dialogues(
    xml: &mut String,
    dialogues: &Vec<String>,
    counts: &Counts,
) -> Result<(), AllocError> {
    for lines in dialogues {
        push_text(xml, lines)?;
    }
    let failing = counts.all().saturating_sub(counts.pass);
    match failing.saturating_sub(dialogues.len() as u64) {
        0 => Ok(()),
        1 => xml.push_str("and 1 more dialogue that does not pass\n"),
        others => writeln!(xml, "and {others} more dialogues that do not pass"),
    }
}

impl Junit {
    /// Creates the testcases of no trace.
    pub fn new(alloc: Global) -> Junit {
        Junit {
            alloc,
            cases: String::new(alloc),
            names: CaseNames::new(alloc),
            tally: Tally::new(),
            worst: Verdict::Pass,
            headline: String::new(alloc),
            dialogues: Vec::new(alloc),
            passing: String::new(alloc),
        }
    }

    /// Keeps the lines of a dialogue, if there is room for them. If `is_worse` is set, they take the place of the last
    /// ones then.
    fn keep(&mut self, lines: &str, is_worse: bool) -> Result<(), AllocError> {
        if self.dialogues.len() >= MOST {
            if !is_worse {
                return Ok(());
            }
            let _ = self.dialogues.pop();
        }
        let lines = String::from_str(self.alloc, lines)?;
        self.dialogues.push(lines)?;
        Ok(())
    }

    /// Adds a dialogue of the current trace that does not pass, or passes unheard or unanswered, with the lines on it.
    pub(crate) fn add_dialogue(
        &mut self,
        case: &Case,
        judged: &JudgedDialogue,
        of: Option<End>,
        grounds: &Grounds,
        lines: &str,
    ) -> Result<(), AllocError> {
        if judged.verdict == Verdict::Pass {
            return self.passing.push_str(lines);
        }
        let worst = self.worst.worse(judged.verdict);
        let is_worse = worst != self.worst;
        if is_worse {
            let mut headline = String::new(self.alloc);
            push_headline(self.alloc, &mut headline, case, judged, of, grounds)?;
            self.headline = headline;
            self.worst = worst;
        }
        self.keep(lines, is_worse)
    }

    /// Appends the failure or the error of the current trace, unless it passes.
    fn push_failure(&mut self, returned: TraceSummary) -> Result<(), AllocError> {
        let tag = match returned.verdict {
            Verdict::Pass => return Ok(()),
            Verdict::Fail => "failure",
            _ => "error",
        };
        let xml = &mut self.cases;
        xml.push_str("      <")?;
        xml.push_str(tag)?;
        xml.push_str(" type=\"")?;
        xml.push_str(returned.verdict.word())?;
        xml.push_str("\" message=\"")?;
        push_value(xml, returned.why.lines().next().unwrap_or(&self.headline))?;
        xml.push_str("\">")?;
        push_form_fault(self.alloc, xml, returned)?;
        push_dialogues(xml, &self.dialogues, &returned.dialogues)?;
        xml.push_str("</")?;
        xml.push_str(tag)?;
        xml.push_str(">\n")
    }

    /// Ends the testcase of the current trace.
    pub(crate) fn end_trace(&mut self, returned: TraceSummary) -> Result<(), AllocError> {
        self.tally.add(returned.verdict);
        self.cases.push_str("    <testcase ")?;
        self.names.push(&mut self.cases, returned.name)?;
        self.cases.push_str(">\n")?;
        self.push_failure(returned)?;
        let xml = &mut self.cases;
        xml.push_str("      <system-out>")?;
        push_counts(
            xml,
            returned.messages,
            &returned.dialogues,
            returned.unheard,
        )?;
        push_text(xml, &self.passing)?;
        push_unnamed(xml, "", returned.unheard)?;
        xml.push_str("</system-out>\n    </testcase>\n")?;
        self.worst = Verdict::Pass;
        self.headline = String::new(self.alloc);
        self.dialogues = Vec::new(self.alloc);
        self.passing = String::new(self.alloc);
        Ok(())
    }

    /// Returns the XML text of all testcases, as one testsuite. `version` is that of the program.
    ///
    /// # Errors
    /// `AllocError` if memory runs out.
    pub fn text(&self, version: &str) -> Result<String, AllocError> {
        let mut xml = String::new(self.alloc);
        xml.push_str("<?xml version=\"1.0\" encoding=\"UTF-8\"?>\n<testsuites")?;
        self.tally.push(&mut xml)?;
        xml.push_str(">\n  <testsuite name=\"tcapjudge\"")?;
        self.tally.push(&mut xml)?;
        xml.push_str(">\n    <properties>\n      <property name=\"version\" value=\"")?;
        push_value(&mut xml, version)?;
        xml.push_str("\"/>\n    </properties>\n")?;
        xml.push_str(&self.cases)?;
        xml.push_str("  </testsuite>\n</testsuites>\n")?;
        Ok(xml)
    }
}
