//! The subcommand `explain`: a verdict, its reasons, and a chart of the run.

use crate::opening::{
    DASH, WRONG_WORDS, hint_on, hint_on_record, is_fault, is_read_twice, status_of,
};
use crate::outputs::is_input;
use crate::source::Source;
use std::{fs, io};
use tcap_ber::Counted;
use tcap_diagnostics::{FaultWriter, FirstOctets, Role};
use tcap_explain::{ExplainOptions, run_explain, run_explain_check};
use tcap_lines::{Status, WriteFailed};

/// The paths on the command line.
#[derive(Clone, Copy)]
pub(crate) struct Paths<'a> {
    pub(crate) entries: &'a str,
    pub(crate) table: &'a str,
    pub(crate) cert: Option<&'a str>,
    pub(crate) chart: Option<&'a str>,
}

/// Writes the chart to the file with this path, if there are both, and returns the exit status. A chart that can't be
/// written is a fault.
fn finish(
    rt: &HostRuntime,
    path: Option<&str>,
    chart: &str,
    ended: Result<Status, WriteFailed>,
) -> u8 {
    if ended.is_err() {
        return Status::Fault.number();
    }
    match path {
        Some(path) if !chart.is_empty() => match fs::write(rt, path, chart) {
            Ok(()) => status_of(ended),
            Err(error) => {
                let _ = eprintln!(rt; "error: the chart can't be written to {path}: {error}");
                Status::Fault.number()
            }
        },
        _ => status_of(ended),
    }
}

/// Explains the verdict on a record, with a certificate that is searched for. Returns the exit status.
fn explained(
    rt: &HostRuntime,
    entries: &mut FirstOctets<Source>,
    table: &mut FirstOctets<Source>,
    paths: Paths,
    asked: ExplainOptions,
) -> u8 {
    let alloc = rt.alloc();
    let mut chart = String::new(alloc);
    let mut writer = FaultWriter::new(Counted::new(io::writer(rt)));
    let ended = run_explain(alloc, entries, table, asked, &mut chart, &mut writer);
    if is_fault(&ended) {
        hint_on_record(rt, paths.entries, entries, &writer);
        hint_on(rt, Role::Table, paths.table, table);
    }
    finish(rt, paths.chart, &chart, ended)
}

/// Explains what the certificate in the file `path` shows of a record. Returns the exit status.
fn explained_check(
    rt: &HostRuntime,
    entries: &mut FirstOctets<Source>,
    table: &mut FirstOctets<Source>,
    path: &str,
    paths: Paths,
    asked: ExplainOptions,
) -> u8 {
    let alloc = rt.alloc();
    let mut cert = Source::noted(rt, path);
    let mut chart = String::new(alloc);
    let mut writer = FaultWriter::new(Counted::new(io::writer(rt)));
    let ended = run_explain_check(
        alloc,
        entries,
        table,
        &mut cert,
        asked,
        &mut chart,
        &mut writer,
    );
    if is_fault(&ended) {
        hint_on_record(rt, paths.entries, entries, &writer);
        hint_on(rt, Role::Table, paths.table, table);
        hint_on(rt, Role::Certificate, path, &mut cert);
    }
    finish(rt, paths.chart, &chart, ended)
}

/// Returns whether `-` is given for several inputs, or for the chart. If so, standard error says so.
fn is_wrong(rt: &HostRuntime, paths: Paths) -> bool {
    if paths.chart == Some(DASH) {
        let _ = eprintln!(rt; "error: --chart takes the path of a file");
        return true;
    }
    let cert = paths.cert.unwrap_or("");
    is_read_twice(
        rt,
        &["RECORD", "TABLE", "CERT"],
        &[&[paths.entries], &[paths.table], &[cert]],
    )
}

/// Returns whether the file of the chart is one of the input files.
fn is_overwritten(rt: &HostRuntime, paths: Paths) -> bool {
    let Some(chart) = paths.chart else {
        return false;
    };
    if is_input(rt, paths.table, chart) || is_input(rt, paths.entries, chart) {
        return true;
    }
    match paths.cert {
        Some(cert) => is_input(rt, cert, chart),
        None => false,
    }
}

/// Explains the verdict on the record in the file `paths.entries`, by the table in the file `paths.table`. Returns the
/// exit status.
///
/// The files are opened in the order in which they are read: the table, the record, the certificate. If the chart would
/// overwrite one of them, nothing is read, and standard error says so.
pub(crate) fn explain(rt: &HostRuntime, paths: Paths, asked: ExplainOptions) -> u8 {
    if is_wrong(rt, paths) {
        return WRONG_WORDS;
    }
    if is_overwritten(rt, paths) {
        let _ = eprintln!(rt; "error: the chart would be written over a file that is read");
        return Status::Fault.number();
    }
    let mut table = Source::noted(rt, paths.table);
    let mut entries = Source::noted(rt, paths.entries);
    match paths.cert {
        Some(path) => explained_check(rt, &mut entries, &mut table, path, paths, asked),
        None => explained(rt, &mut entries, &mut table, paths, asked),
    }
}
