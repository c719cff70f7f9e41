//! `tcapjudge` for programs in C: the answers of `judge`, `check` and `blame` on octets in memory, as numbers, and
//! those of `test` on a trace, as lines of JSON.
//!
//! The header `clib/tcapjudge.h` declares these functions; `make clib` makes the library.
#![tactic(auto)]

mod answer;
mod caller_buffer;
mod octets;
mod options;
mod outcomes;
mod traces;

ghost use Rattle.std.specs.Prelude.{◌≡◌, ◌≢◌, ◌<◌, length, Option, None, Some};
ghost use Rattle.tcap_record.specs.declared.entry.End.{End as Side};
ghost use Rattle.tcap_c.specs.InMemory.{AreRight, Gives, GivesBlame, IsRight, IsWrongCall, MayBeSentBy, SaysChecked, SaysJudged, judged_by};
ghost use Rattle.tcap_c.specs.declared.options.Rules.{Rules};
ghost use Rattle.tcap_c.specs.Traces.{IsClearBook, WritesReport, WritesNothing, rules_of};

use crate::options::end_of_number;
use crate::outcomes::{blamed, checked, judged};
use crate::traces::test;
pub use answer::{Answer, Answers};
pub use options::TestOptions;
use std::alloc::Global;
use tcap_record::End;

/// The status of a call with an unknown number.
const WRONG_CALL: u8 = 4;

/// Judges a record, stores the answer, and returns the status.
fn judge(alloc: Global, octets: &[u8], table: &[u8], who: Option<End>, answer: &mut Answer) -> u8
    ensures gives { Gives (SaysJudged who octets.now table.now) answer.new result }
    ensures right { IsRight who octets.now table.now answer.new }
{
    tcap_refute::laws::refuted_is_at_fault();
    tcap_faults::laws::blamed_is_at_fault();
    answer.put(judged(alloc, octets, table, who))
}

/// Replays a certificate over a record, stores the answer, and returns the status.
fn check(
    alloc: Global,
    octets: &[u8],
    table: &[u8],
    certificate: &[u8],
    who: Option<End>,
    answer: &mut Answer,
) -> u8
    ensures gives { Gives (SaysChecked who octets.now table.now certificate.now) answer.new result }
    ensures right { answer.new.verdict ≡ 0 → MayBeSentBy who octets.now table.now }
{
    answer.put(checked(alloc, octets, table, certificate, who))
}

/// Stores the answer to a wrong call, and returns its status.
fn refuse(answer: &mut Answer) -> u8
    ensures { IsWrongCall answer.new result }
{
    *answer = Answer::nothing();
    WRONG_CALL
}

/// Judges the record `octets` by an operation table, like `tcapjudge judge`, and stores the answer.
///
/// `end` is 0 for both ends, or the octet `A` or `B` for that end alone, like `judge --end`. Returns the exit status: 0
/// LAWFUL, 1 REFUTED, 2 UNDECIDED, 3 for a fault of the table or the record or if memory runs out (reason 99). If `end`
/// is another number, the answer is empty and the status is 4.
#[unsafe(no_mangle)]
pub extern "C" fn tcapjudge_judge(
    alloc: Global,
    octets: &[u8],
    table: &[u8],
    end: u8,
    answer: &mut Answer,
) -> u8
    ensures gives { (who : Option Side) → judged_by end ≡ Some who
        → Gives (SaysJudged who octets.now table.now) answer.new result }
    ensures right { (who : Option Side) → judged_by end ≡ Some who → IsRight who octets.now table.now answer.new }
    ensures wrong { judged_by end ≡ None → IsWrongCall answer.new result }
{
    match end_of_number(end) {
        Some(who) => judge(alloc, octets, table, who, answer),
        None => refuse(answer),
    }
}

/// Replays a certificate over a record, like `tcapjudge check` and `check --end`, and stores the answer.
///
/// Returns the exit status: 0 LAWFUL, 2 NOT SHOWN, 3 for a fault of a file or if memory runs out (reason 99). If `end`
/// is none of 0, `A` and `B`, the answer is empty and the status is 4.
#[unsafe(no_mangle)]
pub extern "C" fn tcapjudge_check(
    alloc: Global,
    octets: &[u8],
    table: &[u8],
    certificate: &[u8],
    end: u8,
    answer: &mut Answer,
) -> u8
    ensures gives { (who : Option Side) → judged_by end ≡ Some who
        → Gives (SaysChecked who octets.now table.now certificate.now) answer.new result }
    ensures right { (who : Option Side) → judged_by end ≡ Some who → answer.new.verdict ≡ 0
        → MayBeSentBy who octets.now table.now }
    ensures wrong { judged_by end ≡ None → IsWrongCall answer.new result }
{
    match end_of_number(end) {
        Some(who) => check(alloc, octets, table, certificate, who, answer),
        None => refuse(answer),
    }
}

/// Judges a record and each of its ends, like `tcapjudge blame`, and stores the answers.
///
/// Returns the exit status: 1 if an end is BLAMED, and 0 if both ends are LAWFUL. Else the record decides: 0 LAWFUL, 2
/// REFUTED or UNDECIDED, 3 for a fault of the table or the record or if memory runs out (reason 99). After a status of
/// 3, the answers on the ends are empty.
#[unsafe(no_mangle)]
pub extern "C" fn tcapjudge_blame(
    alloc: Global,
    octets: &[u8],
    table: &[u8],
    answers: &mut Answers,
) -> u8
    ensures gives { GivesBlame octets.now table.now answers.new result }
    ensures right { AreRight octets.now table.now answers.new }
{
    tcap_refute::laws::refuted_is_at_fault();
    tcap_faults::laws::blamed_is_at_fault();
    answers.put(blamed(alloc, octets, table))
}

/// Judges each dialogue of a trace, like `tcapjudge test`, and writes the lines of JSON.
///
/// `trace` is lines of digits or a record. `book` is the text of a table or a table set, or empty for the set that the
/// library carries. As many octets of the lines as fit are copied to `lines`; `len` becomes the number of all of them.
///
/// Returns the exit status: 0 pass, 1 fail, 2 inconclusive, 3 error. A fault of `book` or a lack of memory is an error,
/// which the only line reports. If a number in `asked` is unknown, nothing is written and the status is 4.
#[unsafe(no_mangle)]
pub extern "C" fn tcapjudge_test(
    alloc: Global,
    trace: &[u8],
    book: &[u8],
    asked: &TestOptions,
    lines: &mut [u8],
    len: &mut usize,
) -> u8
    ensures tells { (rules : Rules) → rules_of asked.now ≡ Some rules
        → WritesReport trace.now book.now rules lines.old lines.new len.new result }
    ensures book { rules_of asked.now ≢ None → result ≢ 3 → 0 < length book.now → IsClearBook book.now }
    ensures wrong { rules_of asked.now ≡ None → WritesNothing lines.old lines.new len.new result }
{
    match asked.rules() {
        Some(rules) => test(alloc, trace, book, rules, lines, len),
        None => {
            *len = 0;
            WRONG_CALL
        }
    }
}
