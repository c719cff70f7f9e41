//! A trace as it is read, and the faults of its form in words.

ghost use Rattle.std.specs.Prelude.{◌≡◌, ◌++◌, ℕ, false, List, OnOk};
ghost use Rattle.tcap_traces.specs.Pieces.{is_nothing, pieces_of};
ghost use Rattle.tcap_traces.specs.PieceReader.{pieces_left};
ghost use Rattle.tcap_report.specs.TraceReading.{Returns};

use crate::fault::{FormFault, Halt};
use std::alloc::{AllocError, Global};
use tcap_diagnostics::{broken_by, hint_of, name_of, push_broken_rule};
use tcap_traces::{FormRule, LineRule, Piece, PieceFault, PieceReader};

/// A reader of the pieces of a trace, which is fed with octets.
#[derive(Drop)]
pub(crate) struct TraceReader {
    alloc: Global,
    pub(crate) pieces: PieceReader,
    // The first octets of the trace, at most `FIRST`.
    first: Vec<u8>,
}

/// The number of first octets that are kept.
const FIRST: usize = 64;

/// Appends the rule of the format that a line breaks, with the column.
fn push_line_rule(alloc: Global, text: &mut String, line: &[u8]) -> Result<(), AllocError> {
    match broken_by(alloc, line)? {
        Some(broken) => push_broken_rule(text, broken),
        None => Ok(()),
    }
}

/// Returns the fault of a line in words. `content` is the line without its end.
fn line_text(alloc: Global, rule: LineRule, content: &[u8]) -> Result<String, AllocError> {
    let mut text = String::new(alloc);
    match rule {
        LineRule::TooLong | LineRule::NoLine | LineRule::CutLine => {
            push_line_rule(alloc, &mut text, content)
        }
        LineRule::AfterBreak => {
            text.push_str("an entry or a quiet mark after the trace was broken off")
        }
        LineRule::DirectiveAfterBreak => {
            text.push_str("a directive after the trace was broken off")
        }
        LineRule::UnknownDirective => text.push_str("unknown directive"),
        LineRule::LateDirective => {
            text.push_str("a directive of an end after the first entry or quiet mark")
        }
        LineRule::SecondDirective => text.push_str("a second directive of an end"),
    }?;
    Ok(text)
}

/// Returns a fault of a record in words, with its offset.
fn record_text(alloc: Global, what: &str, place: u64) -> Result<String, AllocError> {
    let mut text = String::new(alloc);
    text.push_str(what)?;
    write!(text, ", at octet {place}")?;
    Ok(text)
}

impl TraceReader {
    /// Creates a reader that has no octets yet.
    pub(crate) fn new(alloc: Global) -> TraceReader
        ensures left { (more : List ℕ) → pieces_left result.pieces more ≡ pieces_of more }
        ensures ended { result.pieces.ended ≡ false }
    {
        TraceReader {
            alloc,
            pieces: PieceReader::new(alloc),
            first: Vec::new(alloc),
        }
    }

    /// Takes the next octets, or none if the trace has ended. Fails if memory runs out.
    pub(crate) fn feed(&mut self, octets: &[u8]) -> Result<(), AllocError>
        ensures left { OnOk result
            ((more : List ℕ) → pieces_left self.new.pieces more ≡ pieces_left self.old.pieces (octets.now ++ more)) }
        ensures ended { OnOk result (self.new.pieces.ended ≡ is_nothing octets.now) }
    {
        let room = FIRST.saturating_sub(self.first.len()).min(octets.len());
        self.first.extend_from_slice(&octets[..room])?;
        self.pieces.feed(octets)
    }

    /// Returns what the first octets look like, in words, if they look like neither lines of digits nor a record.
    pub(crate) fn hint(&self) -> Option<&'static str> {
        hint_of(&self.first)
    }

    /// Returns the next piece, or None if more octets are needed.
    ///
    /// Returns `Halt::Form` if the trace's form has a fault, and `Halt::Stop` if memory runs out.
    pub(crate) fn next(&mut self) -> Result<Option<Piece>, Halt>
        ensures returns { Returns self.old.pieces result self.new.pieces }
        ensures ended { self.new.pieces.ended ≡ self.old.pieces.ended }
    {
        match self.pieces.next() {
            Ok(piece) => Ok(piece),
            Err(PieceFault::Form(rule)) => Err(Halt::Form(self.fault_of(rule)?)),
            Err(PieceFault::Memory) => Err(Halt::from(AllocError)),
        }
    }

    /// Returns a fault of the form in words. Fails if memory runs out.
    fn fault_of(&self, rule: FormRule) -> Result<FormFault, AllocError> {
        let alloc = self.alloc;
        let (line, text) = match rule {
            FormRule::InLine(number, rule) => {
                (Some(number), line_text(alloc, rule, self.pieces.line())?)
            }
            FormRule::NoEnd(place) => {
                let what = "an entry begins with neither A, B nor Q";
                (None, record_text(alloc, what, place)?)
            }
            FormRule::CutEntry(place) => {
                (
                    None,
                    record_text(alloc, "the record ends within an entry", place)?,
                )
            }
            FormRule::BadElement(reason, place) => {
                (None, record_text(alloc, name_of(reason), place)?)
            }
        };
        Ok(FormFault { line, text })
    }
}
