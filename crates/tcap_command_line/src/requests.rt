//! What a user can ask the program to do.

use tcap_record::End;

/// A rule for reusing the transaction IDs of a finished dialogue (`--ids`).
#[derive(Clone, Copy, Debug, PartialEq, Eq)]
pub enum Ids {
    /// They may be used again while messages of that dialogue are still in transit.
    Again,
    /// They may be used again once no message of that dialogue is in transit.
    Settled,
    /// Each ID is used only once.
    Once,
}

/// The options of `test`.
#[derive(Debug, Drop)]
pub struct Test<'a> {
    /// The end to judge, or None for both.
    pub of: Option<End>,
    /// The paths of the operation tables and table sets, in order.
    pub tables: Vec<&'a str>,
    /// The rule for reusing the IDs of a finished dialogue.
    pub ids: Ids,
    /// Whether the traces are complete.
    pub complete: bool,
    /// Whether each message was heard.
    pub heard: bool,
    /// The number of entries after the end of a dialogue at which it is judged.
    pub linger: u64,
    /// The path of the file for the verdicts as JSON, if requested.
    pub json: Option<&'a str>,
    /// The path of the file for the verdicts as JUnit's XML, if requested.
    pub junit: Option<&'a str>,
    /// The path of the file for a page of the dialogues that do not pass, if requested.
    pub html: Option<&'a str>,
    /// Whether to print progress.
    pub progress: bool,
    /// The paths of the traces, in order; `-` is the standard input.
    pub traces: Vec<&'a str>,
}

/// A request to the program.
#[derive(Debug, Drop)]
pub enum Request<'a> {
    /// Print the entries of the record at this path, or on standard input. The flags ask for the reason why an entry
    /// or the record is refused, and say that the input is lines of hex digits.
    Show(Option<&'a str>, bool, bool),
    /// Make a record from lines of hex digits. The paths of the lines (None: standard input) and of the file for the
    /// record (None: standard output).
    Pack(Option<&'a str>, Option<&'a str>),
    /// Replay a certificate for a record: the paths of the record, the operation table and the certificate, and the
    /// end to judge alone, if given.
    Check(&'a str, &'a str, &'a str, Option<End>),
    /// Judge a record: the paths of the record and the operation table, whether to print the certificate, and the end
    /// to judge alone, if given.
    Judge(&'a str, &'a str, bool, Option<End>),
    /// Explain why a record is lawful, refuted or undecided: the paths of the record, the operation table and, if
    /// given, a certificate; the end to judge alone, if given; and the path of the file for a chart of the run, if
    /// requested.
    Explain {
        entries: &'a str,
        table: &'a str,
        cert: Option<&'a str>,
        end: Option<End>,
        chart: Option<&'a str>,
    },
    /// Report which end is at fault: the paths of the record and the operation table.
    Blame(&'a str, &'a str),
    /// Print the rows of the operation table or table set at this path, or of the program's own table set.
    Table(Option<&'a str>),
    /// Judge each dialogue of traces.
    Test(Test<'a>),
}
