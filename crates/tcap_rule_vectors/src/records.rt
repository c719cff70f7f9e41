//! Rows about records: what the commands of the program print over memory, even if their devices fail.

use crate::certificates::certificate_of;
use crate::tables::table_text;
use std::alloc::Global;
use tcap_judge::{run_blame, run_check, run_judge};
use tcap_lines::{Status, run_show};
use tcap_vectors::{Failing, octets_of};

/// A count of octets that no device reaches.
const NEVER: usize = 1_000_000_000;

/// A command and its inputs: the texts of a table and of a certificate, empty if it takes none, and a record.
#[derive(Drop)]
struct Command<'a> {
    word: &'a str,
    table: &'a str,
    certificate: String,
    record: Vec<u8>,
}

/// The outcome of a command: its output, its status, or `None` if the writer failed, and how many octets of the table,
/// the certificate and the record it did not read.
#[derive(Drop)]
struct Outcome {
    printed: Vec<u8>,
    status: Option<Status>,
    left: [usize; 3],
}

/// Returns the command of these columns: its word, a record, and its table and its certificate if it takes them.
fn command_of<'a>(alloc: Global, columns: &[&'a str]) -> Option<Command<'a>> {
    let (word, record, table, certificate) = match columns {
        [word, record] => (*word, *record, "", ""),
        [word, record, table] => (*word, *record, *table, ""),
        [word, record, table, certificate] => (*word, *record, *table, *certificate),
        _ => return None,
    };
    let record = octets_of(alloc, record)?;
    let certificate = certificate_of(alloc, certificate)?;
    Some(Command {
        word,
        table: table_text(table),
        certificate,
        record,
    })
}

/// Returns the outcome of a command whose devices fail after these counts of octets: the readers of the table, the
/// certificate and the record, and the writer. Returns `None` if there is no such command.
fn outcome_of(alloc: Global, command: &Command, limits: [usize; 4]) -> Option<Outcome> {
    let mut table = Failing::new(command.table.as_bytes(), limits[0]);
    let mut certificate = Failing::new(command.certificate.as_bytes(), limits[1]);
    let mut record = Failing::new(command.record.as_slice(), limits[2]);
    let mut writer = Failing::new(Vec::new(alloc), limits[3]);
    let status = match command.word {
        "show" => run_show(alloc, &mut record, &mut writer),
        "check" => run_check(
            alloc,
            &mut record,
            &mut table,
            &mut certificate,
            None,
            &mut writer,
        ),
        "judge" => run_judge(alloc, &mut record, &mut table, None, false, &mut writer),
        "judge --cert" => run_judge(alloc, &mut record, &mut table, None, true, &mut writer),
        "blame" => run_blame(alloc, &mut record, &mut table, &mut writer),
        _ => return None,
    };
    Some(Outcome {
        printed: writer.into_inner(),
        status: status.ok(),
        left: [
            table.into_inner().len(),
            certificate.into_inner().len(),
            record.into_inner().len(),
        ],
    })
}

/// Returns the status of a command, a colon, and the lines that it printed, with bars between them.
fn said(alloc: Global, outcome: &Outcome) -> Option<String> {
    let Some(status) = outcome.status else {
        return String::from_str(alloc, "the writer failed").ok();
    };
    let number = status.number();
    let mut said = format!(in alloc; "{number}:").ok()?;
    let printed = str::from_utf8(&outcome.printed).ok()?;
    for (index, line) in printed.lines().enumerate() {
        said.push_str(if index == 0 { " " } else { "|" }).ok()?;
        said.push_str(line).ok()?;
    }
    if !printed.is_empty() && !printed.ends_with('\n') {
        said.push_str(", and a line has no end").ok()?;
    }
    Some(said)
}

/// Checks a row of `commands`: a command, and its status with its lines.
pub(crate) fn is_said(alloc: Global, columns: &[&str], wanted: &str) -> Option<bool> {
    let outcome = outcome_of(alloc, &command_of(alloc, columns)?, [NEVER; 4])?;
    Some(said(alloc, &outcome)?.as_str() == wanted)
}

/// Checks a row of `left`: a command, its status with its lines, and how many octets of the record it did not read.
pub(crate) fn is_left(alloc: Global, columns: &[&str], wanted: &str, left: usize) -> Option<bool> {
    let outcome = outcome_of(alloc, &command_of(alloc, columns)?, [NEVER; 4])?;
    Some(said(alloc, &outcome)?.as_str() == wanted && outcome.left[2] == left)
}

/// Returns whether a command reports that this reader failed after this count of octets, and left its other octets and
/// all octets of the readers after it.
fn is_read_fault(
    alloc: Global,
    found: &Outcome,
    (reader, count): (usize, usize),
    lens: [usize; 3],
) -> Option<bool> {
    let wanted = format!(in alloc; "3: FAULT 23 {count}").ok()?;
    let mut left = lens;
    for (number, len) in left.iter_mut().enumerate() {
        if number < reader {
            *len = 0;
        } else if number == reader {
            *len = len.saturating_sub(count);
        }
    }
    Some(said(alloc, found)? == wanted && found.left == left)
}

/// Returns whether a command reports the failure of this reader after each count of octets.
fn are_read_faults(
    alloc: Global,
    command: &Command,
    reader: usize,
    lens: [usize; 3],
) -> Option<bool> {
    for count in 0..=*lens.get(reader)? {
        let mut limits = [NEVER; 4];
        *limits.get_mut(reader)? = count;
        let found = outcome_of(alloc, command, limits)?;
        if !is_read_fault(alloc, &found, (reader, count), lens)? {
            return Some(false);
        }
    }
    Some(true)
}

/// Returns whether the writer of a command, if it fails after any count of octets, gets that many octets of the whole
/// output.
fn are_write_faults(alloc: Global, command: &Command, whole: &Outcome) -> Option<bool> {
    let len = whole.printed.len();
    for count in 0..=len {
        let found = outcome_of(alloc, command, [NEVER, NEVER, NEVER, count])?;
        let wanted = if count < len { None } else { whole.status };
        if whole.printed.get(..count) != Some(found.printed.as_slice()) || found.status != wanted {
            return Some(false);
        }
    }
    Some(true)
}

/// Checks a row of `failing`: a command, and its status with its lines. Each of its devices also fails after each count
/// of octets.
pub(crate) fn is_failing(alloc: Global, columns: &[&str], wanted: &str) -> Option<bool> {
    let command = command_of(alloc, columns)?;
    let lens = [
        command.table.len(),
        command.certificate.len(),
        command.record.len(),
    ];
    let readers = if command.word == "check" {
        [0, 1, 2].as_slice()
    } else {
        [0, 2].as_slice()
    };
    for reader in readers {
        if !are_read_faults(alloc, &command, *reader, lens)? {
            return Some(false);
        }
    }
    let whole = outcome_of(alloc, &command, [NEVER; 4])?;
    Some(are_write_faults(alloc, &command, &whole)? && said(alloc, &whole)?.as_str() == wanted)
}

/// Returns the entry and the kind in `ENTRY KIND ..`, or `None` if there are none.
fn fact_of(column: &str) -> Option<(usize, &str)> {
    let mut words = column.split(' ');
    let entry = words.next()?.parse::<usize>().ok()?;
    Some((entry, words.next()?))
}

/// Returns whether `judge` may print this text. If the first entry at fault has a kind that `judge` checks, `judge` must
/// report it. Else `judge` must refute no entry up to this one, or none at all if no entry is at fault.
fn may_be_said(said: &str, first: Option<(usize, &str)>) -> bool {
    let refuted = match said.strip_prefix("1: REFUTED ") {
        Some(fact) => fact_of(fact),
        None => None,
    };
    match (refuted, first) {
        (refuted, Some((_, kind))) if kind != "-" => refuted == first,
        (Some((entry, _)), Some((least, _))) => least < entry,
        (refuted, _) => refuted.is_none(),
    }
}

/// Checks a row of `first faults`: a record, a table, and the first entry at fault with its lowest kind that `judge`
/// checks, or a dash for none.
pub(crate) fn is_first(alloc: Global, record: &str, table: &str, fact: &str) -> Option<bool> {
    let asked = format!(in alloc; "judge;{record};{table}").ok()?;
    let columns: Vec<&str> = asked.split(';').collect(alloc).ok()?;
    let outcome = outcome_of(alloc, &command_of(alloc, &columns)?, [NEVER; 4])?;
    Some(may_be_said(&said(alloc, &outcome)?, fact_of(fact)))
}
