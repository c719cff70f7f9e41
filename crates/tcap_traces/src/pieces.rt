//! The pieces of a trace: entries, quiet marks and directives.

ghost use Rattle.std.specs.Prelude.{◌≡◌, ◌≢◌, ◌∷◌, ◌≤◌, ◌<◌, ◌+◌, ◌++◌, [], true, false, cond, drop, length, not, slice_index, Some, ◌&&◌, take, ℕ, List, Ok, Err, IfOk, OnOk, option_map};
ghost use Rattle.tcap_record.specs.RecordOctets.{octet_of};
ghost use Rattle.tcap_record.specs.HexLines.{HasNoNewline, line_limit, newline};
ghost use Rattle.tcap_traces.specs.declared.pieces.Form.TheVariants as forms;
ghost use Rattle.tcap_traces.specs.declared.pieces.PieceFault.{PieceFault};
ghost use Rattle.tcap_traces.specs.Directive.{statement_of};
ghost use Rattle.tcap_traces.specs.Pieces.{ends_a_mark, entry_fault, further, has_named, is_blank_or_digit, is_cut, first_content, is_nothing, is_record, lines_of, pieces_of, with_named, without_return};
ghost use Rattle.tcap_traces.specs.PieceReader.{Begins, IsFront, IsFrontLine, NoMatterWhat, Returns, Steps, Takes, is_record_as, line_found, pieces_left, rest};

use crate::case::TraceEntry;
use crate::directive::Directive;
use crate::trace_line::{TraceLine, read_trace_line};
use memchr::memchr;
use std::alloc::{AllocError, Global};
use std::mem;
use tcap_ber::{Outer, Reason, outer};
use tcap_record::{End, LINE_LIMIT};

/// A piece of a trace. A line number is 0 in a record.
#[derive(Drop)]
pub enum Piece {
    /// An entry.
    Entry(TraceEntry),
    /// A quiet mark, with its line number.
    Mark(u64),
    /// The directive `under way`, with its line number: dialogues may have been under way.
    UnderWay(u64),
    /// The directive `broken off`, with its line number, and its text on missing messages.
    BrokenOff(u64, Vec<u8>),
    /// A directive that describes an end, with its line number.
    About(u64, End, Vec<u8>),
}

/// The rule that a line of a trace breaks.
#[derive(Clone, Copy, Debug, PartialEq, Eq)]
pub enum LineRule {
    /// The line is longer than the limit.
    TooLong,
    /// The line is not one of the lines of a trace.
    NoLine,
    /// An entry or a quiet mark comes after the directive `broken off`.
    AfterBreak,
    /// A directive comes after the directive `broken off`.
    DirectiveAfterBreak,
    /// The directive is unknown.
    UnknownDirective,
    /// A directive about an end comes after an entry or a quiet mark.
    LateDirective,
    /// A second directive is about one end.
    SecondDirective,
    /// The last line has no line feed, and its octets end within an element.
    CutLine,
}

/// The rule that the form of a trace breaks.
#[derive(Clone, Copy, Debug, PartialEq, Eq)]
pub enum FormRule {
    /// A line has a fault. Its number, counted from 1, and the rule that it breaks.
    InLine(u64, LineRule),
    /// At this offset of a record neither an entry nor a quiet mark begins.
    NoEnd(u64),
    /// The record ends within the entry at this offset.
    CutEntry(u64),
    /// An element of a record has a fault, at this offset.
    BadElement(Reason, u64),
}

/// Why no piece is returned.
#[derive(Clone, Copy, Debug, PartialEq, Eq)]
pub enum PieceFault {
    /// The form of the trace has a fault.
    Form(FormRule),
    /// Memory ran out.
    Memory,
}

impl From<AllocError> for PieceFault {
    ghost from_gives = { λ _ fault. fault ≡ PieceFault.Memory };

    fn from(_: AllocError) -> PieceFault {
        PieceFault::Memory
    }
}

/// The form of a trace, known from its first octets.
#[derive(Clone, Copy, PartialEq, Eq)]
pub(crate) enum Form {
    Unknown,
    Lines,
    Record,
}

/// The lines of a trace so far, as far as they decide whether an entry or a directive may follow.
#[derive(Clone, Copy)]
pub(crate) struct Progress {
    /// True if an entry or a quiet mark was read.
    pub(crate) begun: bool,
    /// True if a directive about A was read, and (`b`) one about B.
    pub(crate) a: bool,
    pub(crate) b: bool,
    /// True if the directive `broken off` was read.
    pub(crate) broken_off: bool,
}

/// A reader of pieces, which is fed with octets.
#[derive(Drop)]
pub struct PieceReader {
    pub(crate) alloc: Global,
    pub(crate) form: Form,
    // The octets that were read; those from `from` on belong to no piece yet.
    pub(crate) held: Vec<u8>,
    pub(crate) from: usize,
    // The number of the line at `from`, counted from 1.
    pub(crate) line: u64,
    // The offset of `from` in the trace.
    pub(crate) place: u64,
    // The text of the line above, if that is a comment.
    pub(crate) comment: Vec<u8>,
    // Whether all octets were read.
    pub(crate) ended: bool,
    pub(crate) progress: Progress,
}

impl Progress {
    /// Returns whether a directive about this end was read.
    fn has_named(self, end: End) -> bool
        ensures { result ≡ has_named «end» self }
    {
        match end {
            End::A => self.a,
            End::B => self.b,
        }
    }

    /// Returns what was read after a directive about this end.
    fn with_named(self, end: End) -> Progress
        ensures { result ≡ with_named «end» self }
    {
        match end {
            End::A => Progress { a: true, ..self },
            End::B => Progress { b: true, ..self },
        }
    }

    /// Takes an entry or a quiet mark in this line, and returns what was read after it. Fails if the trace was broken
    /// off.
    fn begin(self, line: u64) -> Result<Progress, PieceFault>
        ensures { Begins (entry_fault self) self line result }
    {
        if self.broken_off {
            return Err(in_line(line, LineRule::AfterBreak));
        }
        Ok(Progress {
            begun: true,
            ..self
        })
    }

    /// Takes the octets of a message in this line, and returns what was read after it. `ended`: the line ends with a
    /// line feed.
    ///
    /// # Errors
    ///
    /// `CutLine` if it does not, and the octets end within an element; `AfterBreak` if the trace was broken off.
    fn begin_message(self, line: u64, ended: bool, octets: &[u8]) -> Result<Progress, PieceFault>
        ensures { Begins (cond (not ended && is_cut octets.now) (Some LineRule.CutLine) (entry_fault self)) self line
            result }
    {
        if !ended && is_cut(octets) {
            return Err(in_line(line, LineRule::CutLine));
        }
        self.begin(line)
    }

    /// Takes a directive in this line, and returns its piece and what was read after it.
    ///
    /// # Errors
    ///
    /// The rule that is broken if the directive may not come there; `Memory` if memory runs out.
    fn take(
        self,
        alloc: Global,
        line: u64,
        directive: Directive,
    ) -> Result<(Piece, Progress), PieceFault>
        ensures { Takes self line (statement_of directive.entry) result }
    {
        if self.broken_off {
            return Err(in_line(line, LineRule::DirectiveAfterBreak));
        }
        match directive {
            Directive::UnderWay => Ok((Piece::UnderWay(line), self)),
            Directive::BrokenOff(missing) => {
                let progress = Progress {
                    broken_off: true,
                    ..self
                };
                Ok((Piece::BrokenOff(line, copied(alloc, missing)?), progress))
            }
            Directive::About(end, text) => {
                if self.begun {
                    return Err(in_line(line, LineRule::LateDirective));
                }
                if self.has_named(end) {
                    return Err(in_line(line, LineRule::SecondDirective));
                }
                Ok((
                    Piece::About(line, end, copied(alloc, text)?),
                    self.with_named(end),
                ))
            }
            Directive::Unknown => Err(in_line(line, LineRule::UnknownDirective)),
        }
    }
}

/// Returns the fault of a line that breaks this rule.
fn in_line(line: u64, rule: LineRule) -> PieceFault
    ensures { result ≡ PieceFault.Form (FormRule.InLine line rule) }
{
    PieceFault::Form(FormRule::InLine(line, rule))
}

/// Copies octets. Fails if memory runs out.
fn copied(alloc: Global, octets: &[u8]) -> Result<Vec<u8>, AllocError>
    ensures { IfOk result (λ made. made.items ≡ octets.now) }
{
    let mut made = Vec::new(alloc);
    made.extend_from_slice(octets)?;
    Ok(made)
}

/// Returns whether these octets end within an element.
fn is_cut(octets: &[u8]) -> bool
    ensures { result ≡ is_cut octets.now }
{
    matches!(outer(octets), Ok(Outer::Need(_)))
}

/// Returns whether an octet is a space, a tab or a decimal digit.
fn is_blank_or_digit(octet: u8) -> bool
    ensures { result ≡ is_blank_or_digit octet }
{
    matches!(octet, b' ' | b'\t' | b'0'..=b'9')
}

/// Returns whether an octet is a line feed, a carriage return or a space.
fn ends_a_mark(octet: u8) -> bool
    ensures { result ≡ ends_a_mark octet }
{
    matches!(octet, b'\n' | b'\r' | b' ')
}

/// Returns whether a trace of these octets is a record.
fn is_record(octets: &[u8]) -> bool
    ensures { result ≡ is_record octets.now }
{
    match octets {
        [b'A' | b'B' | b'Q'] => true,
        [b'A' | b'B', second, ..] => !is_blank_or_digit(*second),
        [b'Q', second, ..] => !ends_a_mark(*second),
        _ => false,
    }
}

/// Returns the form of a trace that begins with these octets, if they decide it. `ended`: the trace has no more.
fn form_of(first: &[u8], ended: bool) -> Form
    ensures record { (more : List ℕ) → (ended ≡ true → more ≡ [])
        → is_record_as result (first.now ++ more) ≡ is_record (first.now ++ more) }
    ensures known { ended ≡ true → result ≢ forms.Unknown }
{
    if !ended && first.len() < 2 {
        return Form::Unknown;
    }
    if is_record(first) {
        Form::Record
    } else {
        Form::Lines
    }
}

/// A line at the front of octets.
#[derive(Clone, Copy)]
pub(crate) struct FrontLine<'a> {
    /// The line without its end.
    pub(crate) content: &'a [u8],
    /// The number of octets with its end.
    pub(crate) count: usize,
    /// True if a line feed ends it.
    pub(crate) ended: bool,
}

/// Returns the octets without a carriage return at their end.
fn without_return(octets: &[u8]) -> &[u8]
    ensures { result.now ≡ without_return octets.now }
{
    match octets {
        [front @ .., b'\r'] => front,
        _ => octets,
    }
}

/// Returns the number of octets before the first line feed, or of all if there is none.
fn line_len(octets: &[u8]) -> usize
    ensures most { result ≤ length octets.now }
    ensures front { HasNoNewline (take result octets.now) }
    ensures end { result < length octets.now → slice_index octets.now result ≡ newline }
{
    memchr(b'\n', octets).unwrap_or(octets.len())
}

/// Returns the first line of these octets, or None if more are needed. `ended`: no more follow.
fn front_line(octets: &[u8], ended: bool) -> Option<FrontLine<'_>>
    ensures { IsFrontLine octets.now ended (option_map line_found result) }
{
    let len = line_len(octets);
    if len < octets.len() {
        return Some(FrontLine {
            content: without_return(&octets[..len]),
            count: len + 1,
            ended: true,
        });
    }
    if ended && !octets.is_empty() {
        return Some(FrontLine {
            content: octets,
            count: octets.len(),
            ended: false,
        });
    }
    None
}

/// The entry or quiet mark at the front of a record's octets.
#[derive(Clone, Copy)]
pub(crate) enum Frame {
    /// A quiet mark.
    Mark,
    /// An entry, with its sender and the length of its element.
    Entry(End, usize),
}

/// Returns what is at the front of a record's octets, or None if there are none or more are needed. `place`: the offset
/// of the first. `ended`: no more follow.
///
/// # Errors
///
/// The fault of the framing.
fn front_frame(octets: &[u8], place: u64, ended: bool) -> Result<Option<Frame>, FormRule>
    ensures { IsFront octets.now place ended result }
{
    match octets {
        [] => Ok(None),
        [b'Q', ..] => Ok(Some(Frame::Mark)),
        [b'A', element @ ..] => front_entry(End::A, element, place, ended),
        [b'B', element @ ..] => front_entry(End::B, element, place, ended),
        _ => Err(FormRule::NoEnd(place)),
    }
}

/// Returns the entry at the front of a record's octets, given its sender and the octets after the sender's, or None if
/// more are needed. `place`: the offset of the entry. `ended`: no more follow.
///
/// # Errors
///
/// The fault of its element.
fn front_entry(
    sender: End,
    element: &[u8],
    place: u64,
    ended: bool,
) -> Result<Option<Frame>, FormRule>
    ensures { IsFront (octet_of sender ∷ element.now) place ended result }
{
    match outer(element) {
        Ok(Outer::Whole(len)) => Ok(Some(Frame::Entry(sender, len))),
        Ok(Outer::Need(_)) if ended => Err(FormRule::CutEntry(place)),
        Ok(Outer::Need(_)) => Ok(None),
        Err(fault) => Err(FormRule::BadElement(
            fault.reason,
            place.saturating_add(fault.place.saturating_add(1)),
        )),
    }
}

/// The result of a step over a line.
#[derive(Drop)]
pub(crate) enum Step {
    /// A piece.
    Found(Piece),
    /// Nothing: the line was an empty one or a comment.
    Skipped,
    /// Nothing: more octets are needed, or there are none.
    NeedsMore,
}

impl PieceReader {
    /// Creates a reader that has no octets yet.
    pub fn new(alloc: Global) -> PieceReader
        ensures left { (more : List ℕ) → pieces_left result more ≡ pieces_of more }
        ensures ended { result.ended ≡ false }
    {
        PieceReader {
            alloc,
            form: Form::Unknown,
            held: Vec::new(alloc),
            from: 0,
            line: 1,
            place: 0,
            comment: Vec::new(alloc),
            ended: false,
            progress: Progress {
                begun: false,
                a: false,
                b: false,
                broken_off: false,
            },
        }
    }

    /// Takes the next octets of the trace. An empty slice says that the trace has ended.
    ///
    /// # Errors
    ///
    /// `AllocError` if memory runs out.
    pub fn feed(&mut self, octets: &[u8]) -> Result<(), AllocError>
        ensures left { OnOk result
            ((more : List ℕ) → pieces_left self.new more ≡ pieces_left self.old (octets.now ++ more)) }
        ensures ended { OnOk result (self.new.ended ≡ is_nothing octets.now) }
    {
        let from = self.from.min(self.held.len());
        self.held.copy_within(from.., 0);
        self.held.truncate(self.held.len() - from);
        self.from = 0;
        self.ended = octets.is_empty();
        self.held.extend_from_slice(octets)
    }

    /// Returns the next piece, or None if more octets are needed or all were read and there is none.
    ///
    /// # Errors
    ///
    /// `Form` if the form of the trace has a fault there, `Memory` if memory runs out.
    pub fn next(&mut self) -> Result<Option<Piece>, PieceFault>
        ensures returns { Returns self.old result self.new }
        ensures ended { self.new.ended ≡ self.old.ended }
    {
        self.decide();
        match self.form {
            Form::Unknown => Ok(None),
            Form::Lines => self.next_line(),
            Form::Record => self.next_entry(),
        }
    }

    /// Decides the form, if the octets are enough.
    fn decide(&mut self)
        ensures left { NoMatterWhat self.old (λ more. pieces_left self.new more ≡ pieces_left self.old more) }
        ensures known { self.old.ended ≡ true → self.new.form ≢ forms.Unknown }
        ensures ended { self.new.ended ≡ self.old.ended }
    {
        match self.form {
            Form::Unknown => self.form = form_of(self.rest(), self.ended),
            _ => {}
        }
    }

    /// Returns the next line without its end, as far as it was read. After a fault of a line this is that line.
    pub fn line(&self) -> &[u8]
        ensures { result.now ≡ first_content (lines_of (rest self.now)) }
    {
        let octets = self.rest();
        match front_line(octets, self.ended) {
            Some(line) => line.content,
            None => octets,
        }
    }

    /// Returns the octets that belong to no piece yet.
    fn rest(&self) -> &[u8]
        ensures { result.now ≡ rest self.now }
    {
        &self.held[self.from.min(self.held.len())..]
    }

    /// Passes over the line at the front, which has this many octets. `comment`: its text, if it is a comment.
    fn pass(&mut self, count: usize, comment: Vec<u8>) -> Step
        ensures skipped { result ≡ Step.Skipped }
        ensures rest { rest self.new ≡ drop count (rest self.old) }
        ensures line { self.new.line ≡ further self.old.line 1 }
        ensures same { self.new ≡ record self.old { from = self.new.from; line = self.new.line; comment = comment } }
    {
        self.from = self.from.saturating_add(count);
        self.line = self.line.saturating_add(1);
        self.comment = comment;
        Step::Skipped
    }

    /// Returns the piece of the line at the front, which has this many octets, and passes over the line. `progress`:
    /// what was read after it.
    fn take_line(&mut self, count: usize, progress: Progress, piece: Piece) -> Step
        ensures found { result ≡ Step.Found piece }
        ensures rest { rest self.new ≡ drop count (rest self.old) }
        ensures line { self.new.line ≡ further self.old.line 1 }
        ensures same { self.new ≡ record self.old
            { from = self.new.from; line = self.new.line; comment = self.new.comment; progress = progress } }
        ensures comment { self.new.comment.items ≡ [] }
    {
        self.progress = progress;
        self.pass(count, Vec::new(self.alloc));
        Step::Found(piece)
    }

    /// Returns the next piece of a trace of lines.
    fn next_line(&mut self) -> Result<Option<Piece>, PieceFault>
        requires lines { self.old.form ≡ forms.Lines }
        ensures returns { Returns self.old result self.new }
        ensures ended { self.new.ended ≡ self.old.ended }
    {
        for _ in 0..self.rest().len() {
            match self.step()? {
                Step::Found(piece) => return Ok(Some(piece)),
                Step::Skipped => {}
                Step::NeedsMore => return Ok(None),
            }
        }
        Ok(None)
    }

    /// Passes over the line at the front and returns its piece, if it has one.
    fn step(&mut self) -> Result<Step, PieceFault>
        requires lines { self.old.form ≡ forms.Lines }
        ensures steps { Steps self.old result self.new }
        ensures lines { self.new.form ≡ forms.Lines }
        ensures ended { self.new.ended ≡ self.old.ended }
    {
        let Some(line) = self.front() else {
            return self.unfinished();
        };
        let (number, count) = (self.line, line.count);
        if line.content.len() > LINE_LIMIT {
            return Err(in_line(number, LineRule::TooLong));
        }
        match read_trace_line(self.alloc, line.content)? {
            TraceLine::Empty => Ok(self.pass(count, Vec::new(self.alloc))),
            TraceLine::Comment(text) => {
                let comment = copied(self.alloc, text)?;
                Ok(self.pass(count, comment))
            }
            TraceLine::Directive(stated) => {
                let (piece, progress) = self.progress.take(self.alloc, number, stated)?;
                Ok(self.take_line(count, progress, piece))
            }
            TraceLine::Mark => {
                let progress = self.progress.begin(number)?;
                Ok(self.take_line(count, progress, Piece::Mark(number)))
            }
            TraceLine::Message(sender, octets) => {
                let progress = self.progress.begin_message(number, line.ended, &octets)?;
                let comment = mem::replace(&mut self.comment, Vec::new(self.alloc));
                let entry = TraceEntry {
                    sender,
                    octets,
                    line: number,
                    comment,
                };
                Ok(self.take_line(count, progress, Piece::Entry(entry)))
            }
            TraceLine::Invalid => Err(in_line(number, LineRule::NoLine)),
        }
    }

    /// Returns the line at the front, or None if more octets are needed.
    fn front(&self) -> Option<FrontLine<'_>>
        ensures { IsFrontLine (rest self.now) self.now.ended (option_map line_found result) }
    {
        front_line(self.rest(), self.ended)
    }

    /// Returns that the line at the front needs more octets. The last octet may be a carriage return, which belongs to
    /// the line's end.
    ///
    /// # Errors
    ///
    /// The fault of a line that is too long, no matter how it ends.
    fn unfinished(&self) -> Result<Step, PieceFault>
        ensures short { length (rest self.now) ≤ line_limit + 1 → result ≡ Ok Step.NeedsMore }
        ensures long { line_limit + 1 < length (rest self.now)
            → result ≡ Err (PieceFault.Form (FormRule.InLine self.now.line LineRule.TooLong)) }
    {
        if self.rest().len() <= LINE_LIMIT + 1 {
            Ok(Step::NeedsMore)
        } else {
            Err(in_line(self.line, LineRule::TooLong))
        }
    }

    /// Returns the next piece of a record.
    fn next_entry(&mut self) -> Result<Option<Piece>, PieceFault>
        requires record { self.old.form ≡ forms.Record }
        ensures returns { Returns self.old result self.new }
        ensures ended { self.new.ended ≡ self.old.ended }
    {
        match front_frame(self.rest(), self.place, self.ended) {
            Ok(None) => Ok(None),
            Ok(Some(Frame::Mark)) => {
                self.skip(1);
                Ok(Some(Piece::Mark(0)))
            }
            Ok(Some(Frame::Entry(sender, len))) => {
                let octets = copied(self.alloc, &self.rest()[1..len + 1])?;
                self.skip(len + 1);
                Ok(Some(Piece::Entry(TraceEntry {
                    sender,
                    octets,
                    line: 0,
                    comment: Vec::new(self.alloc),
                })))
            }
            Err(rule) => Err(PieceFault::Form(rule)),
        }
    }

    /// Passes over a piece of a record, which has this many octets.
    fn skip(&mut self, count: usize)
        ensures rest { rest self.new ≡ drop count (rest self.old) }
        ensures place { self.new.place ≡ further self.old.place count }
        ensures same { self.new ≡ record self.old { from = self.new.from; place = self.new.place } }
    {
        self.from = self.from.saturating_add(count);
        self.place = self.place.saturating_add(count as u64);
    }
}
