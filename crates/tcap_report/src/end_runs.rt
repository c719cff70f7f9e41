//! What the run of one end alone shows: the last message that the end does not hear in it, or the entry at which the
//! search for a run stopped.

use crate::order::is_asked;
use std::alloc::{AllocError, Global};
use tcap_check::{Partial, Step, run_until};
use tcap_end::Table;
use tcap_record::{Body, End, Entry, Record};
use tcap_search::search_for;
use tcap_traces::{EndResult, JudgedDialogue, MOST};

/// Returns the number of entries before the first that is no message, or of all entries if there is none.
fn count_items(entries: &[Entry]) -> usize {
    let mut count = 0;
    for entry in entries {
        if matches!(entry.body, Body::Bad(_)) {
            return count;
        }
        count = usize::saturating_add(count, 1);
    }
    count
}

/// Copies the first `count` entries.
fn first_entries(alloc: Global, entries: &[Entry], count: usize) -> Result<Record, AllocError> {
    let mut copied = Vec::new(alloc);
    for entry in entries.iter().take(count) {
        copied.push(entry.view().to_entry(alloc)?)?;
    }
    Ok(Record { entries: copied })
}

/// Returns the run of an end alone that the proposed certificate gives for a record. None if the record has more
/// entries than are judged.
fn run_of(
    alloc: Global,
    read: &Record,
    table: &Table,
    end: End,
) -> Result<Option<Partial>, AllocError> {
    if read.entries.len() > MOST {
        return Ok(None);
    }
    match search_for(alloc, read, end) {
        Ok(certificate) => Ok(Some(run_until(alloc, read, table, &certificate, Some(end))?)),
        Err(_) => Err(AllocError),
    }
}

/// Returns the run of an end alone by which a dialogue is judged: that of the entries before the first that is no
/// message.
fn judged_run(
    alloc: Global,
    judged: &JudgedDialogue,
    end: End,
) -> Result<Option<Partial>, AllocError> {
    let Some(table) = judged.table else {
        return Ok(None);
    };
    let entries = &judged.record.entries;
    let count = count_items(entries);
    if count == entries.len() {
        return run_of(alloc, &judged.record, table.table(), end);
    }
    let read = first_entries(alloc, entries, count)?;
    run_of(alloc, &read, table.table(), end)
}

/// Returns the greatest number of a message from `sender` that is lost or discarded in these steps.
fn last_lost(steps: &[Step], sender: End) -> Option<u64> {
    let mut last = None;
    for step in steps {
        match step {
            Step::Loses(end, number) | Step::Discards(end, number, _) if sender.is(*end) => {
                last = Some(last.unwrap_or(0).max(*number));
            }
            _ => {}
        }
    }
    last
}

/// Returns the entry at which a run stops, if it does.
fn stop_of(run: &Partial) -> Option<u64> {
    match run.refused {
        Some(fault) => Some(fault.entry),
        None => None,
    }
}

/// Returns the entry that a run shows for the result of an end: the last message of its peer that it does not hear, if
/// it may have sent its part; the entry at which the search for a run stopped, if no run was found. None for another
/// result, or if the end is not asked. `AllocError` if memory runs out.
pub(crate) fn shown_by_run(
    alloc: Global,
    judged: &JudgedDialogue,
    of: Option<End>,
    end: End,
) -> Result<Option<u64>, AllocError> {
    let Some(ends) = judged.ends else {
        return Ok(None);
    };
    if !is_asked(of, end) {
        return Ok(None);
    }
    let is_stop = match ends.of(end) {
        EndResult::Pass(0) => return Ok(None),
        EndResult::Pass(_) | EndResult::Unheard(_) => false,
        EndResult::Undecided => true,
        _ => return Ok(None),
    };
    let Some(run) = judged_run(alloc, judged, end)? else {
        return Ok(None);
    };
    if is_stop {
        Ok(stop_of(&run))
    } else {
        Ok(last_lost(&run.steps, end.other()))
    }
}
