//! The timed calls, over records in memory, and a digest of their output.

use crate::traffic::TABLE;
use std::alloc::Global;
use tcap_ber::Counted;
use tcap_books::Book;
use tcap_dialogues::Reuse;
use tcap_end::Table;
use tcap_explain::{ExplainOptions, run_explain};
use tcap_judge::{blame_record, blame_status, run_blame, run_check, run_judge};
use tcap_lines::{Status, WriteFailed, run_pack, run_show};
use tcap_record::{End, read_record};
use tcap_report::{NoWatch, Sinks, Stop, Sum, TraceOptions, run_trace};
use tcap_traces::Verdict;

/// Returns the status that corresponds to a verdict on a trace.
fn status_of(verdict: Verdict) -> Status {
    match verdict {
        Verdict::Pass => Status::Fine,
        Verdict::Fail => Status::Refuted,
        Verdict::Inconclusive => Status::NotShown,
        Verdict::Error => Status::Fault,
    }
}

/// The answers of all calls so far.
#[derive(Clone, Copy)]
pub(crate) struct Answers {
    /// The numbers of calls that ended as LAWFUL or without a fault, as REFUTED or BLAMED, as UNDECIDED, and with a
    /// fault.
    pub(crate) fine: u64,
    pub(crate) refuted: u64,
    pub(crate) undecided: u64,
    pub(crate) faulty: u64,
    /// The digest (64-bit FNV-1a) of everything that was printed.
    pub(crate) digest: u64,
}

/// Returns the status of `blame` for a record. Returns None if the record is faulty or has more than 100,000 entries,
/// or if memory runs out.
fn blame_of(alloc: Global, octets: &[u8], table: &Table) -> Option<Status> {
    let read = read_record(alloc, &mut Counted::new(octets)).ok()?;
    if read.entries.len() > 100_000 {
        return None;
    }
    let blame = blame_record(alloc, &read, table).ok()?;
    Some(blame_status(blame.ends, blame.outcome))
}

/// Returns the options for judging both ends of a trace with this table set.
fn asked_by(book: &Book) -> TraceOptions<'_> {
    TraceOptions {
        of: None,
        reuse: Reuse::Again(10_000),
        settled: false,
        complete: false,
        heard: false,
        book,
    }
}

/// Judges a trace of lines. Returns the verdict and the printed text.
fn said_of(alloc: Global, lines: &[u8], asked: TraceOptions) -> Result<(Verdict, Vec<u8>), Stop> {
    let (mut text, mut watch, mut sum) = (Counted::new(Vec::new(alloc)), NoWatch, Sum::new());
    let mut nowhere: Option<Counted<Vec<u8>>> = None;
    let json = nowhere.as_mut();
    let mut sinks = Sinks {
        text: &mut text,
        json,
        page: None,
        junit: None,
        sum: &mut sum,
        watch: &mut watch,
    };
    let verdict = run_trace(alloc, "trace", &mut Counted::new(lines), asked, &mut sinks)?;
    Ok((verdict, text.into_inner()))
}

impl Answers {
    pub(crate) fn new() -> Answers {
        Answers {
            fine: 0,
            refuted: 0,
            undecided: 0,
            faulty: 0,
            digest: 0xCBF2_9CE4_8422_2325,
        }
    }

    /// Adds printed octets to the digest.
    fn note_octets(&mut self, octets: &[u8]) {
        let mut digest = self.digest;
        for octet in octets {
            digest = (digest ^ u64::from(*octet)).wrapping_mul(0x100_0000_01B3);
        }
        self.digest = digest;
    }

    /// Counts how a call ended, and adds its output to the digest.
    fn note(&mut self, ended: Result<Status, WriteFailed>, printed: &[u8]) {
        let count = match ended {
            Ok(Status::Fine) => &mut self.fine,
            Ok(Status::Refuted) => &mut self.refuted,
            Ok(Status::NotShown) => &mut self.undecided,
            _ => &mut self.faulty,
        };
        *count = count.saturating_add(1);
        self.note_octets(printed);
    }

    /// Judges both ends and prints the certificate, or judges the given end alone.
    pub(crate) fn judge(&mut self, alloc: Global, octets: &[u8], judged: Option<End>) {
        let mut writer = Counted::new(Vec::new(alloc));
        let mut table = Counted::new(TABLE.as_bytes());
        let ended = run_judge(
            alloc,
            &mut Counted::new(octets),
            &mut table,
            judged,
            judged.is_none(),
            &mut writer,
        );
        self.note(ended, &writer.into_inner());
    }

    /// Finds which end is at fault.
    pub(crate) fn blame(&mut self, alloc: Global, octets: &[u8]) {
        let mut writer = Counted::new(Vec::new(alloc));
        let mut table = Counted::new(TABLE.as_bytes());
        let ended = run_blame(alloc, &mut Counted::new(octets), &mut table, &mut writer);
        self.note(ended, &writer.into_inner());
    }

    /// Finds which end is at fault without printing, as a program does that calls the library for many small records.
    pub(crate) fn blame_small(&mut self, alloc: Global, octets: &[u8], table: &Table) {
        let ended = match blame_of(alloc, octets, table) {
            Some(status) => Ok(status),
            None => Err(WriteFailed),
        };
        self.note(ended, b"");
    }

    /// Judges each dialogue of a trace of lines.
    pub(crate) fn test(&mut self, alloc: Global, lines: &[u8], book: &Book) {
        match said_of(alloc, lines, asked_by(book)) {
            Ok((verdict, text)) => self.note(Ok(status_of(verdict)), &text),
            Err(_) => self.note(Err(WriteFailed), b""),
        }
    }

    /// Judges a record and explains the verdict.
    pub(crate) fn explain(&mut self, alloc: Global, octets: &[u8]) {
        let mut writer = Counted::new(Vec::new(alloc));
        let mut table = Counted::new(TABLE.as_bytes());
        let mut chart = String::new(alloc);
        let asked = ExplainOptions {
            judged: None,
            with_chart: false,
        };
        let ended = run_explain(
            alloc,
            &mut Counted::new(octets),
            &mut table,
            asked,
            &mut chart,
            &mut writer,
        );
        self.note(ended, &writer.into_inner());
    }

    /// Prints the entries of a record.
    pub(crate) fn show(&mut self, alloc: Global, octets: &[u8]) {
        let mut writer = Counted::new(Vec::new(alloc));
        let ended = run_show(alloc, &mut Counted::new(octets), &mut writer);
        self.note(ended, &writer.into_inner());
    }

    /// Makes a record from lines of hexadecimal digits.
    pub(crate) fn pack(&mut self, alloc: Global, lines: &[u8]) {
        let mut writer = Counted::new(Vec::new(alloc));
        let mut faults = Counted::new(Vec::new(alloc));
        let ended = run_pack(alloc, &mut Counted::new(lines), &mut writer, &mut faults);
        self.note(ended, &writer.into_inner());
        self.note_octets(&faults.into_inner());
    }

    /// Replays a certificate.
    pub(crate) fn check(&mut self, alloc: Global, octets: &[u8], certificate: &str) {
        let mut writer = Counted::new(Vec::new(alloc));
        let mut table = Counted::new(TABLE.as_bytes());
        let mut certificate_reader = Counted::new(certificate.as_bytes());
        let ended = run_check(
            alloc,
            &mut Counted::new(octets),
            &mut table,
            &mut certificate_reader,
            None,
            &mut writer,
        );
        self.note(ended, &writer.into_inner());
    }
}
