//! The chart of a run: an HTML page that holds one JSON object.
//!
//! Each function returns `AllocError` if memory runs out.

use crate::step_lines::{is_entry, push_half, push_owner, push_reason};
use std::alloc::{AllocError, Global};
use tcap_check::Step;
use tcap_end::HalfName;
use tcap_judge::{Outcome, push_outcome};
use tcap_page::{FRAME_HEAD, FRAME_TAIL, push_entry, push_named};
use tcap_record::{Body, End, Entry, Record};

/// The largest number of rows in a chart.
const MOST: usize = 2_000;

/// The subject of a chart: a record, the end that is judged alone, if any, the outcome, and the text after its line.
#[derive(Clone, Copy)]
pub(crate) struct Chart<'a> {
    pub(crate) read: &'a Record,
    pub(crate) judged: Option<End>,
    pub(crate) outcome: Outcome,
    pub(crate) after: &'a str,
}

/// A row of a chart.
#[derive(Clone, Copy)]
enum Row<'a> {
    /// A step, with the number of entries that were sent before it.
    Step(usize, &'a Step),
    /// The entry with this number, after the last step.
    Stands(usize),
}

/// Returns the number of the entry in a row, if the row has one.
fn entry_in(row: Row) -> Option<usize> {
    match row {
        Row::Step(number, step) if is_entry(step) => Some(number),
        Row::Step(_, _) => None,
        Row::Stands(number) => Some(number),
    }
}

/// Returns the rows of a run: each step, then each entry after the last step.
fn rows_of<'a>(
    alloc: Global,
    read: &Record,
    steps: &'a [Step],
) -> Result<Vec<Row<'a>>, AllocError> {
    let mut rows = Vec::new(alloc);
    let mut number: usize = 0;
    for step in steps {
        rows.push(Row::Step(number, step))?;
        if is_entry(step) {
            number = number.saturating_add(1);
        }
    }
    for number in number..read.entries.len() {
        rows.push(Row::Stands(number))?;
    }
    Ok(rows)
}

/// Returns the entry that an outcome is about, if there is one.
fn marked(outcome: Outcome) -> Option<u64> {
    match outcome {
        Outcome::Refuted(refutation) => Some(refutation.entry),
        Outcome::NotShown(fault) | Outcome::Undecided(fault) => Some(fault.entry),
        _ => None,
    }
}

/// Returns the index of the row of the marked entry: 0 if no entry is marked, and the number of rows if no row has the
/// entry.
fn place_of(rows: &[Row], marked: Option<u64>) -> usize {
    let Some(marked) = marked else {
        return 0;
    };
    let mut place: usize = 0;
    for row in rows {
        if entry_in(*row) == Some(marked as usize) {
            return place;
        }
        place = place.saturating_add(1);
    }
    place
}

/// Returns how many rows are left out before those shown, so that the row at `place` is in the middle.
fn left_before(count: usize, place: usize) -> usize {
    place
        .saturating_sub(MOST / 2)
        .min(count.saturating_sub(MOST))
}

/// Appends the object of an entry.
fn push_entry_object(
    alloc: Global,
    json: &mut String,
    number: usize,
    entry: &Entry,
) -> Result<(), AllocError> {
    let mut fault = String::new(alloc);
    if let Body::Bad(found) = &entry.body {
        let (reason, place) = (found.reason.number(), found.place);
        write!(fault, "FAULT {reason} {place}")?;
    }
    push_entry(alloc, json, number, entry, &fault, None)?;
    json.push_str("}")
}

/// Appends the entries in these rows.
fn push_entries(
    alloc: Global,
    json: &mut String,
    read: &Record,
    rows: &[Row],
) -> Result<(), AllocError> {
    json.push_str(",\"entries\":[")?;
    let mut first = true;
    for row in rows {
        if let Some(number) = entry_in(*row) {
            if let Some(entry) = read.entries.get(number) {
                json.push_str(if first { "" } else { "," })?;
                push_entry_object(alloc, json, number, entry)?;
                first = false;
            }
        }
    }
    json.push_str("]")
}

/// Appends the beginning of a row.
fn push_word(json: &mut String, word: &str, end: Option<End>) -> Result<(), AllocError> {
    json.push_str("{\"step\":\"")?;
    json.push_str(word)?;
    json.push_str("\"")?;
    match end {
        Some(end) => push_named(json, "end", end.letter()),
        None => Ok(()),
    }
}

/// Appends a row for what an end does with an entry.
fn push_act(json: &mut String, word: &str, end: End, number: u64) -> Result<(), AllocError> {
    push_word(json, word, Some(end))?;
    write!(json, ",\"entry\":{number}")
}

/// Appends a row for a hidden step of an end: the expiry of an invocation with this ID or, without an ID, the closing
/// of a half.
fn push_internal(
    alloc: Global,
    json: &mut String,
    end: End,
    name: &HalfName,
    id: Option<i8>,
) -> Result<(), AllocError> {
    let mut half = String::new(alloc);
    let Some(id) = id else {
        push_word(json, "closes", Some(end))?;
        push_half(&mut half, name)?;
        return push_named(json, "half", &half);
    };
    push_word(json, "expires", Some(end))?;
    push_owner(&mut half, name)?;
    push_named(json, "half", &half)?;
    write!(json, ",\"invoke\":{id}")
}

/// Appends the object of a step, without its closing brace. `number` entries were sent before the step.
fn push_step(
    alloc: Global,
    json: &mut String,
    number: usize,
    step: &Step,
) -> Result<(), AllocError> {
    match step {
        Step::Sends(end, _) => push_act(json, "sends", *end, number as u64),
        Step::Tells(end, _) => push_act(json, "tells", *end, number as u64),
        Step::Receives(end, received) => push_act(json, "receives", *end, *received),
        Step::Replies(end, answered) => {
            push_act(json, "replies", *end, number as u64)?;
            write!(json, ",\"answers\":{answered}")
        }
        Step::Loses(sender, lost) => push_act(json, "loses", *sender, *lost),
        Step::Discards(sender, lost, reason) => {
            push_act(json, "discards", sender.other(), *lost)?;
            let mut words = String::new(alloc);
            push_reason(&mut words, *reason)?;
            push_named(json, "reason", &words)
        }
        Step::Expires(end, name, id) => push_internal(alloc, json, *end, name, Some(*id)),
        Step::Closes(end, name) => push_internal(alloc, json, *end, name, None),
        Step::Quiet => {
            push_word(json, "quiet", None)?;
            write!(json, ",\"entry\":{number}")
        }
    }
}

/// Appends these rows.
fn push_rows(alloc: Global, json: &mut String, rows: &[Row]) -> Result<(), AllocError> {
    json.push_str(",\"steps\":[")?;
    let mut first = true;
    for row in rows {
        json.push_str(if first { "" } else { "," })?;
        match row {
            Row::Step(number, step) => push_step(alloc, json, *number, step)?,
            Row::Stands(number) => {
                push_word(json, "stands", None)?;
                write!(json, ",\"entry\":{number}")?;
            }
        }
        json.push_str("}")?;
        first = false;
    }
    json.push_str("]")
}

impl Chart<'_> {
    /// Appends the head of the run: the line of the outcome, the judged end, and the entry that the outcome is about.
    /// If there is such an entry, also appends the text after the line.
    fn push_head(self, alloc: Global, json: &mut String) -> Result<(), AllocError> {
        let mut title = String::new(alloc);
        push_outcome(&mut title, self.outcome)?;
        let count = self.read.entries.len();
        write!(json, "{{\"run\":{{\"count\":{count}")?;
        push_named(json, "title", title.trim_end())?;
        if let Some(end) = self.judged {
            push_named(json, "of", end.letter())?;
        }
        let Some(marked) = marked(self.outcome) else {
            return Ok(());
        };
        write!(json, ",\"marked\":{marked}")?;
        push_named(json, "text", self.after)
    }

    /// Returns the page of a run. A run of over 2,000 rows, with the entries after its last step, is shown in part: the
    /// rows around the entry that the outcome is about, or the first ones. The page says how many rows are left out
    /// before and after.
    pub(crate) fn of_steps(self, alloc: Global, steps: &[Step]) -> Result<String, AllocError> {
        let rows = rows_of(alloc, self.read, steps)?;
        let before = left_before(rows.len(), place_of(&rows, marked(self.outcome)));
        let end = before.saturating_add(MOST).min(rows.len());
        let returned = rows.get(before..end).unwrap_or(&[]);
        let mut page = String::new(alloc);
        page.push_str(FRAME_HEAD)?;
        self.push_head(alloc, &mut page)?;
        push_entries(alloc, &mut page, self.read, returned)?;
        push_rows(alloc, &mut page, returned)?;
        let after = rows.len().saturating_sub(end);
        writeln!(page, ",\"left_out\":[{before},{after}]}}}}")?;
        page.push_str(FRAME_TAIL)?;
        Ok(page)
    }
}
