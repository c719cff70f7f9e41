//! The sinks of the reports on traces and their dialogues.

ghost use Rattle.std.specs.Prelude.{◌≡◌};

use crate::end_names::EndNames;
use crate::fault::{FormFault, Stop};
use crate::grounds::Grounds;
use crate::junit::Junit;
use crate::page::Page;
use crate::sum::{Counts, Sum};
use crate::{json, text};
use std::alloc::Global;
use std::io;
use tcap_ber::{Counted, Failed, Write};
use tcap_record::End;
use tcap_traces::{Case, JudgedDialogue, Verdict};

/// A writer of lines that may keep some of them back for a while.
pub trait Lines: Write {
    /// Writes the lines that are still in a buffer.
    ///
    /// # Errors
    /// `Failed` if the writer fails.
    fn flush(&mut self) -> Result<(), Failed>;
}

impl<T: io::Write> Lines for Counted<T> {
    fn flush(&mut self) -> Result<(), Failed> {
        Counted::flush(self)
    }
}

/// The sinks of the reports, and the sum.
#[derive(Debug, Drop)]
pub struct Sinks<'a, W, J, P> {
    /// The text.
    pub text: &'a mut W,
    /// The lines of JSON.
    pub json: Option<&'a mut J>,
    /// The HTML page.
    pub page: Option<Page<'a, J>>,
    /// The JUnit XML.
    pub junit: Option<&'a mut Junit>,
    /// The sum over all traces.
    pub sum: &'a mut Sum,
    /// The observer of progress.
    pub watch: &'a mut P,
}

/// The report on a trace.
#[derive(Clone, Copy)]
pub(crate) struct TraceSummary<'a> {
    pub(crate) name: &'a str,
    pub(crate) names: &'a EndNames,
    pub(crate) verdict: Verdict,
    pub(crate) messages: u64,
    pub(crate) dialogues: Counts,
    pub(crate) unheard: u64,
    /// The fault of the trace, in words; empty if there is none.
    pub(crate) why: &'a str,
    /// The line of the fault.
    pub(crate) line: Option<u64>,
    /// A guess at what the octets are, if they do not look like a trace.
    pub(crate) hint: Option<&'a str>,
}

/// Writes a text. Returns `Stop::Write` if the writer fails.
pub(crate) fn write_text<W: Write>(writer: &mut W, text: &str) -> Result<(), Stop> {
    writer.write_all(text.as_bytes()).map_err(|_| Stop::Write)
}

impl<W: Write, J: Lines, P> Sinks<'_, W, J, P> {
    /// Reports the verdict on a dialogue. The page has only dialogues that do not pass; the text and JUnit XML also have
    /// those that pass and are named.
    pub(crate) fn report_case(
        &mut self,
        alloc: Global,
        name: &str,
        names: &EndNames,
        case: &Case,
        judged: &JudgedDialogue,
        of: Option<End>,
        is_named: bool,
    ) -> Result<(), Stop>
        ensures { self.new.sum ≡ self.old.sum }
    {
        let is_listed = is_named || judged.verdict != Verdict::Pass;
        if !is_listed && self.json.is_none() {
            return Ok(());
        }
        let grounds = Grounds::of(alloc, judged, of)?;
        self.report_found(alloc, name, names, case, judged, of, &grounds, is_listed)
    }

    /// Reports the verdict on a dialogue, with the evidence that was found for it. The text and JUnit XML have it if
    /// `is_listed` is set.
    fn report_found(
        &mut self,
        alloc: Global,
        name: &str,
        names: &EndNames,
        case: &Case,
        judged: &JudgedDialogue,
        of: Option<End>,
        grounds: &Grounds,
        is_listed: bool,
    ) -> Result<(), Stop>
        ensures { self.new.sum ≡ self.old.sum }
    {
        let shown = match &mut self.page {
            Some(page) if judged.verdict != Verdict::Pass => page.takes_dialogue(),
            _ => false,
        };
        if shown || self.json.is_some() {
            let mut line = String::new(alloc);
            json::push_case(alloc, &mut line, name, case, judged, of, grounds)?;
            self.report_object(&line, shown)?;
        }
        if !is_listed {
            return Ok(());
        }
        let mut lines = String::new(alloc);
        text::push_case(alloc, &mut lines, name, names, case, judged, of, grounds)?;
        if let Some(junit) = &mut self.junit {
            junit.add_dialogue(case, judged, of, grounds, &lines)?;
        }
        write_text(self.text, &lines)
    }

    /// Writes the line of an object to the lines of JSON and, if `shown` is set, to the page.
    fn report_object(&mut self, line: &str, shown: bool) -> Result<(), Stop>
        ensures { self.new.sum ≡ self.old.sum }
    {
        if let Some(writer) = &mut self.json {
            write_text(*writer, line)?;
        }
        match &mut self.page {
            Some(page) if shown => page.write(line),
            _ => Ok(()),
        }
    }

    /// Writes the lines of JSON that are kept back.
    pub(crate) fn flush(&mut self) -> Result<(), Stop>
        ensures { self.new.sum ≡ self.old.sum }
    {
        match &mut self.json {
            Some(lines) => lines.flush().map_err(|_| Stop::Write),
            None => Ok(()),
        }
    }

    /// Reports the verdict on a trace as JSON, on the page, and as JUnit XML.
    pub(crate) fn report_trace(&mut self, alloc: Global, returned: TraceSummary) -> Result<(), Stop>
        ensures { self.new.sum ≡ self.old.sum }
    {
        if self.json.is_some() || self.page.is_some() {
            let mut line = String::new(alloc);
            json::push_trace(&mut line, returned)?;
            self.report_object(&line, true)?;
        }
        if let Some(junit) = &mut self.junit {
            junit.end_trace(returned)?;
        }
        Ok(())
    }

    /// Ends the reports on all traces: writes the object of the run as JSON, and ends the page. Both have `version`,
    /// which is that of the program.
    ///
    /// # Errors
    /// `Stop::Memory` if memory runs out, `Stop::Write` if a sink fails.
    pub fn end_run(&mut self, alloc: Global, version: &str) -> Result<(), Stop>
        ensures { self.new.sum ≡ self.old.sum }
    {
        if let Some(writer) = &mut self.json {
            let mut line = String::new(alloc);
            json::push_run(&mut line, self.sum, version)?;
            write_text(*writer, &line)?;
        }
        match &mut self.page {
            Some(page) => page.end(alloc, self.sum, version),
            None => Ok(()),
        }
    }
}
