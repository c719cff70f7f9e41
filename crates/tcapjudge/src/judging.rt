//! The words `judge`, `blame` and `check`: verdicts on a record, by an operation table.

use crate::opening::{WRONG_WORDS, hint_on, hint_on_record, is_fault, is_read_twice, status_of};
use crate::source::Source;
use std::io;
use tcap_ber::Counted;
use tcap_diagnostics::{FaultWriter, Role};
use tcap_judge::{run_blame, run_check, run_judge};
use tcap_record::End;

/// A question about a record, given an operation table.
#[derive(Clone, Copy)]
pub(crate) enum Question {
    /// The verdict on both ends, or on the given end alone. If the flag is true, the certificate of a lawful record is
    /// printed too.
    Verdict(Option<End>, bool),
    /// The verdict, and which end is at fault.
    Blame,
}

/// Replays the certificate of the file `cert` over the record of the file `entries`, by the table of the file `table`;
/// for one end alone if `judged` is given. The files are opened in the order in which they are read: the table, the
/// certificate, the record. The line is printed at once. Returns the exit status.
pub(crate) fn check<'a>(
    rt: &HostRuntime,
    entries: &'a str,
    table: &'a str,
    cert: &'a str,
    judged: Option<End>,
) -> u8 {
    if is_read_twice(
        rt,
        &["RECORD", "TABLE", "CERT"],
        &[&[entries], &[table], &[cert]],
    ) {
        return WRONG_WORDS;
    }
    let mut book = Source::noted(rt, table);
    let mut certificate = Source::noted(rt, cert);
    let mut record = Source::noted(rt, entries);
    let (alloc, mut writer) = (rt.alloc(), FaultWriter::new(Counted::new(io::writer(rt))));
    let ended = run_check(
        alloc,
        &mut record,
        &mut book,
        &mut certificate,
        judged,
        &mut writer,
    );
    if is_fault(&ended) {
        hint_on_record(rt, entries, &mut record, &writer);
        hint_on(rt, Role::Table, table, &mut book);
        hint_on(rt, Role::Certificate, cert, &mut certificate);
    }
    status_of(ended)
}

/// Answers a question about the record of the file `entries`, by the table of the file `table`. The table is opened
/// first, since it is read first. The output is not buffered. Returns the exit status.
pub(crate) fn judge<'a>(
    rt: &HostRuntime,
    entries: &'a str,
    table: &'a str,
    question: Question,
) -> u8 {
    if is_read_twice(rt, &["RECORD", "TABLE"], &[&[entries], &[table]]) {
        return WRONG_WORDS;
    }
    let mut book = Source::noted(rt, table);
    let mut record = Source::noted(rt, entries);
    let (alloc, mut writer) = (rt.alloc(), FaultWriter::new(Counted::new(io::writer(rt))));
    let ended = match question {
        Question::Verdict(judged, with_certificate) => run_judge(
            alloc,
            &mut record,
            &mut book,
            judged,
            with_certificate,
            &mut writer,
        ),
        Question::Blame => run_blame(alloc, &mut record, &mut book, &mut writer),
    };
    if is_fault(&ended) {
        hint_on_record(rt, entries, &mut record, &writer);
        hint_on(rt, Role::Table, table, &mut book);
    }
    status_of(ended)
}
