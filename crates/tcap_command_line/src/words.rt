//! Turns the words of the command line into a request.

ghost use Rattle.std.specs.Prelude.{◌≡◌, ◌≢◌, [], IfErr, IfOk, IfSome, List, MatchResult, None, Some, codes};
ghost use Rattle.std.specs.Prelude.{is_some, option_map, true};
ghost use Rattle.clap.specs.Words.{Text, fault_of, first_of, found_of, takes};
ghost use Rattle.clap.specs.Walk.{rows_of, texts};
ghost use Rattle.tcap_record.specs.declared.entry.End.{End as Side};
ghost use Rattle.tcap_record.specs.Ends.{letter};
ghost use Rattle.tcap_command_line.specs.CommandLine.{ids_word, tool};
ghost use Rattle.tcap_command_line.specs.Subcommands.{HasNeeded, is_known};
ghost use Rattle.tcap_command_line.specs.Tests.{ids_value, linger_value, values_of};
ghost use Rattle.tcap_command_line.specs.Words.{IsRequestBy, IsRequest, Becomes, IsFaultOf, IsMemory, is_letter, is_printed};
ghost use Rattle.tcap_command_line.specs.Words.{is_ids_word, is_number, is_set, number_of, path_text, words_status};
ghost use Rattle.tcap_command_line.specs.declared.requests.Request.TheVariants as asked;

use crate::command_line::command;
use crate::requests::{Ids, Request, Test};
use clap::error::ErrorKind;
use clap::{ArgMatches, Error};
use std::alloc::{AllocError, Global};
use std::{error, fmt};
use tcap_record::End;

/// Why the words are not a request. Its `Display` is the text for the user.
#[derive(Debug, Drop)]
pub enum WordsFault {
    /// The error of clap: wrong words, or a request for help or the version.
    Words(Error),
    /// Memory ran out.
    Memory,
}

impl WordsFault {
    /// Returns whether the words ask for help or the version, whose text goes to standard output.
    pub fn is_printed(&self) -> bool
        ensures { result ≡ is_printed self.now }
    {
        match self {
            WordsFault::Words(error) => {
                matches!(
                    error.kind(),
                    ErrorKind::DisplayHelp | ErrorKind::DisplayVersion
                )
            }
            WordsFault::Memory => false,
        }
    }

    /// Returns the exit status of the program: 0 for help or the version, 4 for wrong words, 3 if memory ran out.
    pub fn status(&self) -> u8
        ensures { result ≡ words_status self.now }
    {
        match self {
            WordsFault::Words(_) if self.is_printed() => 0,
            WordsFault::Words(_) => 4,
            WordsFault::Memory => 3,
        }
    }
}

impl From<AllocError> for WordsFault {
    ghost from_gives = { λ _ f. IsMemory f };

    fn from(_error: AllocError) -> WordsFault {
        WordsFault::Memory
    }
}

impl From<Error> for WordsFault {
    ghost from_gives = { Becomes };

    fn from(error: Error) -> WordsFault {
        if matches!(error.kind(), ErrorKind::OutOfMemory) {
            WordsFault::Memory
        } else {
            WordsFault::Words(error)
        }
    }
}

impl fmt::Display for WordsFault {
    fn fmt<W: fmt::Write>(&self, f: &mut fmt::Formatter<W>) -> fmt::Result {
        match self {
            WordsFault::Words(error) => error.fmt(f),
            WordsFault::Memory => f.write_str("error: out of memory\n"),
        }
    }
}

impl error::Error for WordsFault {}

/// Returns the first value of the argument `id`, if it has one.
fn value_of<'a>(found: &ArgMatches<'a>, id: &str) -> Option<&'a str>
    ensures { path_text result ≡ first_of id.now (rows_of (found_of found.now)) }
{
    found.get_str(id)
}

/// Returns the first value of the argument `id`, which has one.
fn needed<'a>(found: &ArgMatches<'a>, id: &str) -> &'a str
    requires { is_some (first_of id.now (rows_of (found_of found.now))) ≡ true }
    ensures { Some result.now ≡ first_of id.now (rows_of (found_of found.now)) }
{
    let Some(value) = value_of(found, id) else {
        unreachable!()
    };
    value
}

/// Returns whether the flag `id` is set.
fn is_set(found: &ArgMatches, id: &str) -> bool
    ensures { result ≡ is_set (first_of id.now (rows_of (found_of found.now))) }
{
    matches!(value_of(found, id), Some("true"))
}

/// Returns the end with this letter.
fn end_of(word: &str) -> End
    requires { is_letter word.now ≡ true }
    ensures { letter result ≡ word.now }
{
    match word {
        "A" => End::A,
        "B" => End::B,
        _ => unreachable!(),
    }
}

/// Returns the end that the option `id` names, or None if the option is not given.
fn end_named(found: &ArgMatches, id: &str) -> Option<End>
    requires { IfSome (first_of id.now (rows_of (found_of found.now))) (λ word. is_letter word ≡ true) }
    ensures { option_map letter result ≡ first_of id.now (rows_of (found_of found.now)) }
{
    match value_of(found, id) {
        Some(word) => Some(end_of(word)),
        None => None,
    }
}

/// Returns the end that the option `--end` names, or None if the option is not given.
fn end_given(found: &ArgMatches) -> Option<End>
    requires { IfSome (first_of (codes "end") (rows_of (found_of found.now))) (λ word. is_letter word ≡ true) }
    ensures { option_map letter result ≡ first_of (codes "end") (rows_of (found_of found.now)) }
{
    end_named(found, "end")
}

/// Returns the rule for reused IDs that this value of `--ids` names.
fn ids_of(word: &str) -> Ids
    requires { is_ids_word word.now ≡ true }
    ensures { ids_word result ≡ word.now }
{
    match word {
        "again" => Ids::Again,
        "settled" => Ids::Settled,
        "once" => Ids::Once,
        _ => unreachable!(),
    }
}

/// Returns the rule for reused IDs that the option `--ids` names, or `Again` if the option is not given.
fn ids_given(found: &ArgMatches) -> Ids
    requires { IfSome (first_of (codes "ids") (rows_of (found_of found.now))) (λ word. is_ids_word word ≡ true) }
    ensures { ids_word result ≡ ids_value (first_of (codes "ids") (rows_of (found_of found.now))) }
{
    match value_of(found, "ids") {
        Some(word) => ids_of(word),
        None => Ids::Again,
    }
}

/// Reads a word as a number.
fn number_of(word: &str) -> u64
    requires { is_number word.now ≡ true }
    ensures { result ≡ number_of word.now }
{
    let Ok(number) = word.parse::<u64>() else {
        unreachable!()
    };
    number
}

/// The value of `--linger` if the option is not given.
const LINGER: u64 = 10_000;

/// Returns the number that the option `--linger` gives, or `LINGER`.
fn linger_given(found: &ArgMatches) -> u64
    requires { IfSome (first_of (codes "linger") (rows_of (found_of found.now))) (λ word. is_number word ≡ true) }
    ensures { result ≡ linger_value (first_of (codes "linger") (rows_of (found_of found.now))) }
{
    match value_of(found, "linger") {
        Some(word) => number_of(word),
        None => LINGER,
    }
}

/// Returns all values of the argument `id`, in order, or fails if memory runs out.
fn all_values<'a>(
    alloc: Global,
    found: &ArgMatches<'a>,
    id: &str,
) -> Result<Vec<&'a str>, AllocError>
    ensures { IfOk result (λ values. texts values.items ≡ values_of id.now (rows_of (found_of found.now))) }
{
    let mut values = Vec::new(alloc);
    if let Some(given) = found.get_strs(id) {
        values.extend_from_slice(given)?;
    }
    Ok(values)
}

/// Builds the request to judge the dialogues of traces, or fails if memory runs out.
fn test_request<'a>(alloc: Global, found: &ArgMatches<'a>) -> Result<Test<'a>, AllocError>
    requires { HasNeeded (codes "test") (rows_of (found_of found.now)) }
    ensures { IfOk result (λ test. IsRequestBy (Some (codes "test", rows_of (found_of found.now))) (asked.Test test)) }
{
    let tables = all_values(alloc, found, "table")?;
    let traces = all_values(alloc, found, "TRACE")?;
    Ok(Test {
        of: end_named(found, "of"),
        tables,
        ids: ids_given(found),
        complete: is_set(found, "complete"),
        heard: is_set(found, "heard"),
        linger: linger_given(found),
        json: value_of(found, "json"),
        junit: value_of(found, "junit"),
        html: value_of(found, "html"),
        progress: is_set(found, "progress"),
        traces,
    })
}

/// Builds the request to explain a record.
fn explain_request<'a>(found: &ArgMatches<'a>) -> Request<'a>
    requires { HasNeeded (codes "explain") (rows_of (found_of found.now)) }
    ensures { IsRequestBy (Some (codes "explain", rows_of (found_of found.now))) result }
{
    let entries = needed(found, "RECORD");
    let table = needed(found, "TABLE");
    let cert = value_of(found, "CERT");
    let end = end_given(found);
    let chart = value_of(found, "chart");
    Request::Explain {
        entries,
        table,
        cert,
        end,
        chart,
    }
}

/// Builds the request of the subcommand `name`, or fails if memory runs out.
fn request_of<'a>(
    alloc: Global,
    name: &str,
    found: &ArgMatches<'a>,
) -> Result<Request<'a>, AllocError>
    requires known { is_known name.now ≡ true }
    requires values { HasNeeded name.now (rows_of (found_of found.now)) }
    ensures { IfOk result (IsRequestBy (Some (name.now, rows_of (found_of found.now)))) }
{
    match name {
        "show" => {
            let path = value_of(found, "RECORD");
            let with_reasons = is_set(found, "why");
            let of_lines = is_set(found, "lines");
            Ok(Request::Show(path, with_reasons, of_lines))
        }
        "pack" => {
            let path = value_of(found, "LINES");
            Ok(Request::Pack(path, value_of(found, "output")))
        }
        "check" => {
            let record = needed(found, "RECORD");
            let table = needed(found, "TABLE");
            let cert = needed(found, "CERT");
            Ok(Request::Check(record, table, cert, end_given(found)))
        }
        "judge" => {
            let record = needed(found, "RECORD");
            let table = needed(found, "TABLE");
            let with_certificate = is_set(found, "cert");
            Ok(Request::Judge(record, table, with_certificate, end_given(found)))
        }
        "explain" => Ok(explain_request(found)),
        "blame" => {
            let record = needed(found, "RECORD");
            let table = needed(found, "TABLE");
            Ok(Request::Blame(record, table))
        }
        "table" => Ok(Request::Table(value_of(found, "TABLE"))),
        "test" => Ok(Request::Test(test_request(alloc, found)?)),
        _ => unreachable!(),
    }
}

/// Reads the words of the command line, the program's name first, as a request.
///
/// # Errors
///
/// `WordsFault::Words` if the words are wrong, or ask for help or the version; `WordsFault::Memory` if memory runs out.
pub fn request<'a>(alloc: Global, words: &'a [&'a str]) -> Result<Request<'a>, WordsFault>
    ensures asks { IfOk result (IsRequest (texts words.entry.now)) }
    ensures taken { takes tool (texts words.entry.now) ≡ true → IfErr result IsMemory }
    ensures faults { MatchResult result (λ _. fault_of tool (texts words.entry.now) ≡ [])
        (IsFaultOf (fault_of tool (texts words.entry.now))) }
{
    let command = command(alloc)?;
    let matches = command.try_get_matches_from(words)?;
    let Some((name, found)) = matches.subcommand() else {
        unreachable!()
    };
    Ok(request_of(alloc, name, found)?)
}
