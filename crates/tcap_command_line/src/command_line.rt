//! The command line of the program: its subcommands and their arguments.

ghost use Rattle.std.specs.Prelude.{◌≡◌, IfOk, codes, false};
ghost use Rattle.clap.specs.Walk.{texts};
ghost use Rattle.clap.specs.Words.{app_of, rule_of, shape_of};
ghost use Rattle.clap.specs.declared.builder.command.Command.TheViews.{out-Command};
ghost use Rattle.tcap_command_line.specs.CommandLine.{blame_shape, check_shape, choice_rule, end_rule, explain_shape, file_rule};
ghost use Rattle.tcap_command_line.specs.CommandLine.{flag_rule, ids_rule, judge_shape, left_out_rule, linger_rule, needed_rule, output_rule, pack_shape, show_shape};
ghost use Rattle.tcap_command_line.specs.CommandLine.{tables_rule, test_shape, traces_rule, with_path};
ghost use Rattle.tcap_command_line.specs.CommandLine.{placeless, placeless_rule, placeless_shape, tool};

use clap::{Arg, ArgAction, Command, value_parser};
use std::alloc::{AllocError, Global};

/// The version, with the kit that proved the program. dev/unproved.py writes `not proved` instead in a copy of this
/// file.
pub const VERSION: &str = "0.1.0 (proved, rattle-kit-13f logic dac8208d650f15bf)";

/// The meaning of each exit status.
static STATUSES: &str = "Exit statuses:
  0  nothing is wrong: LAWFUL, or all was printed or packed
  1  REFUTED; for `blame`, only BLAMED
  2  NOT SHOWN, UNDECIDED, or REFUTED and `blame` blames no end
  3  a fault was printed, or the output could not be written
  4  the command line is wrong
For `test`: 0 if all pass, 1 if a dialogue fails, 2 if one is inconclusive, 3 if there is an error";

/// The help on the file of a record.
static RECORD_HELP: &str = "The file of the record; - is the standard input";

/// The help on the file of an operation table.
static TABLE_HELP: &str = "The file of the operation table; - is the standard input";

/// Creates a required positional argument.
fn needed_arg<'a>(alloc: Global, id: &'a str, text: &'a str) -> Arg<'a>
    ensures rule { rule_of result ≡ needed_rule id.entry.now }
    ensures local { result.global ≡ false }
{
    Arg::new(alloc, id)
        .required(true)
        .action(ArgAction::Set)
        .help(text)
}

/// Creates an optional positional argument.
fn left_out_arg<'a>(alloc: Global, id: &'a str, text: &'a str) -> Arg<'a>
    ensures rule { rule_of result ≡ left_out_rule id.entry.now }
    ensures local { result.global ≡ false }
{
    Arg::new(alloc, id).action(ArgAction::Set).help(text)
}

/// Creates a flag with this name.
fn flag_arg<'a>(alloc: Global, name: &'a str, text: &'a str) -> Arg<'a>
    ensures rule { rule_of result ≡ flag_rule name.entry.now }
    ensures local { result.global ≡ false }
{
    Arg::new(alloc, name)
        .long(name)
        .action(ArgAction::SetTrue)
        .help(text)
}

/// The letters of the ends on the command line.
static LETTERS: [&str; 2] = ["A", "B"];

/// The values of the option `--ids`.
static IDS: [&str; 3] = ["again", "settled", "once"];

/// Creates an option with this name, whose value is one of `choices`.
fn choice_arg<'a>(
    alloc: Global,
    name: &'a str,
    value: &'a str,
    choices: &'a [&'a str],
    text: &'a str,
) -> Arg<'a>
    ensures rule { placeless_rule (rule_of result) ≡ choice_rule name.entry.now (texts choices.entry.now) }
    ensures local { result.global ≡ false }
{
    Arg::new(alloc, name)
        .long(name)
        .action(ArgAction::Set)
        .value_name(value)
        .value_parser(choices)
        .help(text)
}

/// Creates the option `--end`, whose value is the letter of an end.
fn end_arg<'a>(alloc: Global) -> Arg<'a>
    ensures rule { placeless_rule (rule_of result) ≡ end_rule (codes "end") }
    ensures local { result.global ≡ false }
{
    let text = "Judges this end alone, whatever its peer sends";
    choice_arg(alloc, "end", "END", LETTERS.as_slice(), text)
}

/// Creates an option with this name, whose value is the path of a file.
fn file_arg<'a>(alloc: Global, name: &'a str, text: &'a str) -> Arg<'a>
    ensures rule { rule_of result ≡ file_rule name.entry.now }
    ensures local { result.global ≡ false }
{
    Arg::new(alloc, name)
        .long(name)
        .action(ArgAction::Set)
        .value_name("FILE")
        .help(text)
}

/// Creates the option `-o`, whose value is the path of the file for a record.
fn output_arg<'a>(alloc: Global) -> Arg<'a>
    ensures rule { rule_of result ≡ output_rule }
    ensures local { result.global ≡ false }
{
    let text = "Writes the record to this file, if no line has a fault";
    file_arg(alloc, "output", text).short('o')
}

/// Creates the option `--of`, whose value is the letter of an end.
fn of_arg<'a>(alloc: Global) -> Arg<'a>
    ensures rule { placeless_rule (rule_of result) ≡ end_rule (codes "of") }
    ensures local { result.global ≡ false }
{
    let text = "Reports on this end alone; by default, on both";
    choice_arg(alloc, "of", "END", LETTERS.as_slice(), text)
}

/// Creates the option `--ids`, whose value is one of `IDS`.
fn ids_arg<'a>(alloc: Global) -> Arg<'a>
    ensures rule { placeless_rule (rule_of result) ≡ ids_rule }
    ensures local { result.global ≡ false }
{
    let text = "Says how IDs come again after a dialogue is over; by default, `again`";
    choice_arg(alloc, "ids", "WORD", IDS.as_slice(), text)
}

/// Creates the option `--table`, which may be given several times, each time with the path of a file.
fn tables_arg<'a>(alloc: Global) -> Arg<'a>
    ensures rule { rule_of result ≡ tables_rule }
    ensures local { result.global ≡ false }
{
    Arg::new(alloc, "table")
        .long("table")
        .action(ArgAction::Append)
        .value_name("FILE")
        .help(
            "The file of a table, or of a book of them; - is the standard input; may be given several times",
        )
}

/// Creates the option `--linger`, whose value is a number.
fn linger_arg<'a>(alloc: Global) -> Arg<'a>
    ensures rule { rule_of result ≡ linger_rule }
    ensures local { result.global ≡ false }
{
    Arg::new(alloc, "linger")
        .long("linger")
        .action(ArgAction::Set)
        .value_name("N")
        .value_parser(value_parser!(u64))
        .help("Judges a dialogue this many entries after it is over; by default, 10000")
}

/// Creates the required argument for the paths of one or more traces.
fn traces_arg<'a>(alloc: Global) -> Arg<'a>
    ensures rule { rule_of result ≡ traces_rule }
    ensures local { result.global ≡ false }
{
    Arg::new(alloc, "TRACE")
        .required(true)
        .action(ArgAction::Append)
        .help("The file of a trace; - is the standard input")
}

/// Creates the subcommand `check`, or fails if memory runs out.
fn check_command<'a>(alloc: Global) -> Result<Command<'a>, AllocError>
    ensures { IfOk result (λ c. (placeless_shape (shape_of c) ≡ check_shape) × ((out-Command c).has_globals ≡ false)) }
{
    let record = needed_arg(alloc, "RECORD", RECORD_HELP);
    let table = needed_arg(alloc, "TABLE", TABLE_HELP);
    let cert = needed_arg(
        alloc,
        "CERT",
        "The file of the certificate; - is the standard input",
    );
    Command::new(alloc, "check")
        .about("Replays a certificate for a record")
        .after_help("Example: tcapjudge check record table.json cert.json")
        .arg(record)?
        .arg(table)?
        .arg(cert)?
        .arg(end_arg(alloc))
}

/// Creates the subcommand `judge`, or fails if memory runs out.
fn judge_command<'a>(alloc: Global) -> Result<Command<'a>, AllocError>
    ensures { IfOk result (λ c. (placeless_shape (shape_of c) ≡ judge_shape) × ((out-Command c).has_globals ≡ false)) }
{
    let record = needed_arg(alloc, "RECORD", RECORD_HELP);
    let table = needed_arg(alloc, "TABLE", TABLE_HELP);
    let cert = flag_arg(alloc, "cert", "Prints the certificate after LAWFUL");
    Command::new(alloc, "judge")
        .about("Judges a record; `blame` and `test` say which end is at fault")
        .after_help("Example: tcapjudge judge record table.json --cert")
        .arg(record)?
        .arg(table)?
        .arg(cert)?
        .arg(end_arg(alloc))
}

/// Creates the subcommand `explain`, or fails if memory runs out.
fn explain_command<'a>(alloc: Global) -> Result<Command<'a>, AllocError>
    ensures { IfOk result
        (λ c. (placeless_shape (shape_of c) ≡ explain_shape) × ((out-Command c).has_globals ≡ false)) }
{
    let record = needed_arg(alloc, "RECORD", RECORD_HELP);
    let table = needed_arg(alloc, "TABLE", TABLE_HELP);
    let cert = left_out_arg(
        alloc,
        "CERT",
        "The file of a certificate to replay, or - for the standard input; by default, one is searched for",
    );
    let chart = file_arg(
        alloc,
        "chart",
        "Writes a chart of the run to this file, as a page of HTML",
    );
    Command::new(alloc, "explain")
        .about("Says in words why a record is lawful, refuted or undecided")
        .after_help("Example: tcapjudge explain record table.json --chart run.html")
        .arg(record)?
        .arg(table)?
        .arg(cert)?
        .arg(end_arg(alloc))?
        .arg(chart)
}

/// Creates the subcommand `blame`, or fails if memory runs out.
fn blame_command<'a>(alloc: Global) -> Result<Command<'a>, AllocError>
    ensures { IfOk result (λ c. (shape_of c ≡ blame_shape) × ((out-Command c).has_globals ≡ false)) }
{
    let record = needed_arg(alloc, "RECORD", RECORD_HELP);
    let table = needed_arg(alloc, "TABLE", TABLE_HELP);
    Command::new(alloc, "blame")
        .about("Says which end is at fault")
        .after_help("Example: tcapjudge blame record table.json")
        .arg(record)?
        .arg(table)
}

/// Creates the subcommand `show`, or fails if memory runs out.
fn show_command<'a>(alloc: Global) -> Result<Command<'a>, AllocError>
    ensures { IfOk result (λ c. (shape_of c ≡ show_shape) × ((out-Command c).has_globals ≡ false)) }
{
    let record = left_out_arg(
        alloc,
        "RECORD",
        "The file of the record; by default, or if it is -, the standard input",
    );
    let why = flag_arg(
        alloc,
        "why",
        "Explains why an entry or the record is refused",
    );
    let lines = flag_arg(alloc, "lines", "Takes lines of hex digits, as `pack` does");
    Command::new(alloc, "show")
        .about("Prints the entries of a record")
        .after_help("Example: tcapjudge show --why record")
        .arg(record)?
        .arg(why)?
        .arg(lines)
}

/// Creates the subcommand `pack`, or fails if memory runs out.
fn pack_command<'a>(alloc: Global) -> Result<Command<'a>, AllocError>
    ensures { IfOk result (λ c. (shape_of c ≡ pack_shape) × ((out-Command c).has_globals ≡ false)) }
{
    let lines = left_out_arg(
        alloc,
        "LINES",
        "The file of the lines; by default, or if it is -, the standard input",
    );
    Command::new(alloc, "pack")
        .about("Makes a record of lines of hex digits")
        .after_help("Example: tcapjudge pack -o record dialogue.hex")
        .arg(lines)?
        .arg(output_arg(alloc))
}

/// Creates the subcommand `table`, or fails if memory runs out.
fn table_command<'a>(alloc: Global) -> Result<Command<'a>, AllocError>
    ensures { IfOk result (λ c. (shape_of c ≡ with_path (codes "table") (codes "TABLE"))
        × ((out-Command c).has_globals ≡ false)) }
{
    let table = left_out_arg(
        alloc,
        "TABLE",
        "The file of a table or a book of them; - is the standard input; by default, the book that the program carries",
    );
    Command::new(alloc, "table")
        .about("Prints the rows of an operation table, or of a book of them")
        .after_help("Example: tcapjudge table table.json")
        .arg(table)
}

/// Creates the subcommand `test`, or fails if memory runs out.
fn test_command<'a>(alloc: Global) -> Result<Command<'a>, AllocError>
    ensures { IfOk result (λ c. (placeless_shape (shape_of c) ≡ test_shape) × ((out-Command c).has_globals ≡ false)) }
{
    let complete = flag_arg(
        alloc,
        "complete",
        "A dialogue that is open at the end of its trace, or at a quiet mark, is inconclusive",
    );
    let heard = flag_arg(
        alloc,
        "heard",
        "An end that did not hear each message of its peer is inconclusive",
    );
    let json = file_arg(
        alloc,
        "json",
        "Writes the verdicts to this file, as lines of JSON",
    );
    let junit = file_arg(
        alloc,
        "junit",
        "Writes the verdicts to this file, as JUnit XML",
    );
    let html = file_arg(
        alloc,
        "html",
        "Writes a page with the dialogues that do not pass to this file",
    );
    let progress = flag_arg(alloc, "progress", "Shows progress on standard error");
    Command::new(alloc, "test")
        .about("Judges each dialogue of traces")
        .after_help("Example: tcapjudge test --table map.json traces/*.hex")
        .arg(traces_arg(alloc))?
        .arg(of_arg(alloc))?
        .arg(tables_arg(alloc))?
        .arg(ids_arg(alloc))?
        .arg(complete)?
        .arg(heard)?
        .arg(linger_arg(alloc))?
        .arg(json)?
        .arg(junit)?
        .arg(html)?
        .arg(progress)
}

/// Creates the command line of the program, or fails if memory runs out.
pub(crate) fn command<'a>(alloc: Global) -> Result<Command<'a>, AllocError>
    ensures { IfOk result (λ c. placeless (app_of c) ≡ tool) }
{
    let show = show_command(alloc)?;
    let pack = pack_command(alloc)?;
    let check = check_command(alloc)?;
    let judge = judge_command(alloc)?;
    let explain = explain_command(alloc)?;
    let blame = blame_command(alloc)?;
    let table = table_command(alloc)?;
    let test = test_command(alloc)?;
    Command::new(alloc, "tcapjudge")
        .about("Judges records of TCAP messages")
        .version(VERSION)
        .subcommand_required(true)
        .after_help(STATUSES)
        .subcommand(show)?
        .subcommand(pack)?
        .subcommand(check)?
        .subcommand(judge)?
        .subcommand(explain)?
        .subcommand(blame)?
        .subcommand(table)?
        .subcommand(test)
}
