//! Judges a record without a certificate: both ends, or one alone.

ghost use Rattle.std.specs.Prelude.{◌≡◌, ℕ, List, false, None, Some, Ok, IfOk, OnOk, OnErr};
ghost use Rattle.std.specs.String.{string_bytes};
ghost use Rattle.tcap_ber.specs.Device.{one_more};
ghost use Rattle.tcap_judge.specs.Device.{device};
ghost use Rattle.tcap_judge.specs.Verdict.{FindsFault, FindsLawfulThen, GivesVerdict, IsJudged, PrintsVerdict};

use crate::outcome::{OUT_OF_MEMORY, Outcome, write_outcome};
use crate::table_and_certificate::read_table;
use crate::verdicts::{RecordVerdict, judge_record};
use std::alloc::{AllocError, Global};
use tcap_ber::{Read, Write};
use tcap_end::Table;
use tcap_lines::{Status, WriteFailed};
use tcap_record::{End, read_record};
use tcap_refute::laws;

/// Judges the record that `reader` returns.
fn judge_by_table<R: Read>(
    alloc: Global,
    reader: &mut R,
    table: &Table,
    judged: Option<End>,
    with_certificate: bool,
) -> RecordVerdict
    ensures { GivesVerdict judged table.now with_certificate (device R.remaining R.failures reader.old reader.new)
        result.outcome (string_bytes result.after) }
{
    match read_record(alloc, reader) {
        Ok(read) => match judge_record(alloc, &read, table, judged, with_certificate) {
            Ok(reported) => reported,
            Err(AllocError) => RecordVerdict::alone(alloc, OUT_OF_MEMORY),
        },
        Err(fault) => RecordVerdict::alone(
            alloc,
            Outcome::Faulty(fault.reason.number(), fault.place),
        ),
    }
}

/// Judges the record that `entries` returns by the operation table that `table` returns. If the table has a fault,
/// nothing of the record is read.
fn judge<R: Read, T: Read>(
    alloc: Global,
    entries: &mut R,
    table: &mut T,
    judged: Option<End>,
    with_certificate: bool,
) -> RecordVerdict
    ensures { IsJudged judged with_certificate (device R.remaining R.failures entries.old entries.new)
        (device T.remaining T.failures table.old table.new) result.outcome (string_bytes result.after) }
{
    match read_table(alloc, table) {
        Ok(table) => judge_by_table(alloc, entries, &table, judged, with_certificate),
        Err(outcome) => RecordVerdict::alone(alloc, outcome),
    }
}

/// Judges the record that `entries` returns by the operation table that `table` returns: one end alone, or both if
/// `judged` is `None`. `run_judge` writes the line of this result. If the table has a fault, nothing of the record is
/// read.
pub fn judge_outcome<R: Read, T: Read>(
    alloc: Global,
    entries: &mut R,
    table: &mut T,
    judged: Option<End>,
) -> Outcome
    ensures { (after : List ℕ) × IsJudged judged false (device R.remaining R.failures entries.old entries.new)
        (device T.remaining T.failures table.old table.new) result after }
{
    judge(alloc, entries, table, judged, false).outcome
}

/// Judges the record that `entries` returns by the operation table that `table` returns; writes one line and returns
/// the status.
///
/// The line reports one of these:
///
/// - the first entry found at fault: it is no message, or no run in which its sender keeps the rules has it there;
/// - that the record is lawful by the proposed certificate;
/// - why the proposed certificate gives no run;
/// - a fault of the table, or else of the record. If the table has a fault, nothing of the record is read.
///
/// If `judged` is an end, this end is judged alone. An entry, or quiet mark, is then at fault if no run in which this
/// end keeps the rules has it, no matter what its peer sends. If the end may have sent its part of the record, the line
/// also has the number of the peer's messages that are unheard.
///
/// After LAWFUL, the certificate follows on its own line if `with_certificate` is true. No memory is allocated after
/// the first octet is written.
///
/// # Errors
///
/// `WriteFailed` if the writer fails.
pub fn run_judge<R: Read, T: Read, W: Write>(
    alloc: Global,
    entries: &mut R,
    table: &mut T,
    judged: Option<End>,
    with_certificate: bool,
    writer: &mut W,
) -> Result<Status, WriteFailed>
    ensures judges { IfOk result (PrintsVerdict judged with_certificate
        (device R.remaining R.failures entries.old entries.new) (device T.remaining T.failures table.old table.new)
        (W.taken writer.old) (W.taken writer.new)) }
    ensures lawful { result ≡ Ok Status.Fine
        → FindsLawfulThen judged with_certificate (device R.remaining R.failures entries.old entries.new)
        (device T.remaining T.failures table.old table.new) (W.taken writer.old) (W.taken writer.new) }
    ensures refuted { result ≡ Ok Status.Refuted
        → FindsFault judged (device R.remaining R.failures entries.old entries.new)
        (device T.remaining T.failures table.old table.new) (W.taken writer.old) (W.taken writer.new) }
    ensures counts { OnOk result (W.failures writer.new ≡ W.failures writer.old) }
    ensures failed { OnErr result (W.failures writer.new ≡ one_more (W.failures writer.old)) }
{
    laws::refuted_is_at_fault();
    tcap_faults::laws::blamed_is_at_fault();
    let reported = judge(alloc, entries, table, judged, with_certificate);
    write_outcome(alloc, reported.outcome, &reported.after, writer)
}
