//! A line of a trace.

ghost use Rattle.std.specs.Prelude.{◌≡◌, IfOk, option_copied};
ghost use Rattle.tcap_record.specs.FramingResult.{end_in};
ghost use Rattle.tcap_traces.specs.Pieces.{meaning_of, message_of, text_of};
ghost use Rattle.tcap_traces.specs.PieceReader.{line_as};

use crate::directive::{Directive, directive_of};
use hex::FromHexError;
use std::alloc::{AllocError, Global};
use tcap_record::End;

/// The meaning of a line of a trace.
#[derive(Drop)]
pub(crate) enum TraceLine<'a> {
    /// An empty line.
    Empty,
    /// A comment, with its text.
    Comment(&'a [u8]),
    /// A directive.
    Directive(Directive<'a>),
    /// A quiet mark.
    Mark,
    /// The octets that an end sent.
    Message(End, Vec<u8>),
    /// A line that breaks the rules of a trace.
    Invalid,
}

/// Returns the text of a comment, given what comes after its `#`, without a space at its front.
fn text_of(text: &[u8]) -> &[u8]
    ensures { result.now ≡ text_of text.now }
{
    match text {
        [b' ', rest @ ..] => rest,
        _ => text,
    }
}

/// Returns the end with this letter.
fn end_in(letter: u8) -> Option<End>
    ensures { result ≡ end_in letter }
{
    match letter {
        b'A' => Some(End::A),
        b'B' => Some(End::B),
        _ => None,
    }
}

/// Reads the digits of a message. Fails if memory runs out.
fn message_of(
    alloc: Global,
    sender: Option<End>,
    digits: &[u8],
) -> Result<TraceLine<'_>, AllocError>
    ensures { IfOk result (λ line. line_as line ≡ message_of sender digits.now) }
{
    let Some(sender) = sender else {
        return Ok(TraceLine::Invalid);
    };
    if digits.is_empty() {
        return Ok(TraceLine::Invalid);
    }
    match hex::decode(alloc, digits) {
        Ok(octets) => Ok(TraceLine::Message(sender, octets)),
        Err(FromHexError::OutOfMemory) => Err(AllocError),
        Err(_) => Ok(TraceLine::Invalid),
    }
}

/// Reads a line of a trace, given without its end. Fails if memory runs out.
pub(crate) fn read_trace_line(alloc: Global, line: &[u8]) -> Result<TraceLine<'_>, AllocError>
    ensures { IfOk result (λ read. line_as read ≡ meaning_of line.now) }
{
    if let Some(directive) = directive_of(line) {
        return Ok(TraceLine::Directive(directive));
    }
    match line {
        [] => Ok(TraceLine::Empty),
        [b'#', text @ ..] => Ok(TraceLine::Comment(text_of(text))),
        [b'Q'] => Ok(TraceLine::Mark),
        [letter, b' ', digits @ ..] => message_of(alloc, end_in(*letter), digits),
        _ => Ok(TraceLine::Invalid),
    }
}
