//! Packing lines of hexadecimal digits into a record.

ghost use Rattle.std.specs.Prelude.{◌≡◌, ◌≢◌, ◌+◌, ◌<◌, ◌≤◌, ◌++◌, ◌∷◌, [], ℕ, List, Option, Ok, Err, length, slice_index, take, IfOk, OnOk, MatchResult};
ghost use Rattle.std.specs.List.{concat};
ghost use Rattle.std.specs.Io.KnownBytes.{Appends, Consumes, IsAtEnd};
ghost use Rattle.hex.specs.Hex.{decode_of};
ghost use Rattle.tcap_ber.specs.Device.{CountsFailure, one_more};
ghost use Rattle.tcap_ber.specs.Element.{IsRaw};
ghost use Rattle.tcap_record.specs.declared.fault.FeedFault.{FeedFault};
ghost use Rattle.tcap_record.specs.declared.fault.FeedReason.{FeedReason};
ghost use Rattle.tcap_record.specs.declared.packing.LineFault.{LineFault};
ghost use Rattle.tcap_record.specs.declared.packing.PackFault.{PackFault};
ghost use Rattle.tcap_record.specs.FramingResult.{feed_fault};
ghost use Rattle.tcap_record.specs.HexLines.{HasNoNewline, IsNoLine, StandsFor, IsPacked, IsPackedUpTo, entries_in, line_limit, lines_limit, newline};
ghost use Rattle.tcap_record.specs.PackState.{Finishes, IsBehind, IsContentOf, IsFresh, IsLineRefused, IsOpen, Packs, PacksFrom, PacksUpTo, line_fault, line_of};

use crate::digits::octets_of;
use crate::entry::End;
use crate::entry_octets::{OUT_OF_MEMORY, QUIET_OCTET, end_of, octet_of};
use crate::fault::{FeedFault, FeedReason};
use crate::reading::PIECE_LEN;
use memchr::memchr;
use std::alloc::{AllocError, Global};
use tcap_ber::{Failed, RawView, Read, Write};

/// The greatest number of octets of a line without its end, a limit of this profile.
pub const LINE_LIMIT: usize = 131_092;

/// The greatest number of lines, a limit of this profile.
pub const LINES_LIMIT: u64 = 1_000_000;

const NEWLINE: u8 = b'\n';

const CARRIAGE_RETURN: u8 = b'\r';

/// Why lines were not packed.
#[derive(Clone, Copy, Debug, PartialEq, Eq)]
pub enum PackFault {
    /// A line is neither an entry nor skipped, the reader failed, or memory ran out.
    Fault(FeedFault),
    /// The writer failed.
    Write,
}

/// The meaning of a line of hexadecimal digits.
#[derive(Debug, Drop)]
pub enum Line {
    /// No entry: the line is skipped.
    Skipped,
    /// A quiet mark.
    Mark,
    /// An element that an end sent.
    Sent(End, Vec<u8>),
}

impl Line {
    /// Returns the number of entries of this line.
    fn count(&self) -> u64
        ensures { result ≡ length (entries_in (line_of self.now ∷ [])) }
    {
        match self {
            Line::Skipped => 0,
            Line::Mark | Line::Sent(_, _) => 1,
        }
    }

    /// Writes the entry of this line, if it has one.
    fn write<W: Write>(&self, writer: &mut W) -> Result<(), Failed>
        ensures taken { OnOk result (Appends (W.taken writer.old) (W.taken writer.new)
            (concat (entries_in (line_of self.now ∷ [])))) }
        ensures counts { CountsFailure (W.failures writer.old) (W.failures writer.new) result }
    {
        match self {
            Line::Skipped => Ok(()),
            Line::Mark => writer.write_all(&[QUIET_OCTET]),
            Line::Sent(side, element) => {
                writer.write_all(&[octet_of(*side)])?;
                writer.write_all(element)
            }
        }
    }
}

/// Why a line was not read.
#[derive(Clone, Copy, Debug, PartialEq, Eq)]
pub enum LineFault {
    /// The line is neither an entry nor skipped.
    Bad,
    /// Memory ran out.
    Memory,
}

impl From<Failed> for PackFault {
    ghost from_gives = { λ _ fault. fault ≡ PackFault.Write };

    fn from(_: Failed) -> PackFault {
        PackFault::Write
    }
}

impl From<AllocError> for LineFault {
    ghost from_gives = { λ _ fault. fault ≡ LineFault.Memory };

    fn from(_: AllocError) -> LineFault {
        LineFault::Memory
    }
}

/// Returns the element that hexadecimal digits spell. `Bad` if they do not spell exactly one.
fn read_element(alloc: Global, digits: &[u8]) -> Result<Vec<u8>, LineFault>
    ensures element { IfOk result (λ element. (decode_of digits.now ≡ Ok element.items) × IsRaw element.items) }
    ensures bad { result ≡ Err LineFault.Bad → (element : List ℕ) → decode_of digits.now ≡ Ok element → IsRaw element
        → ⊥ }
{
    let Some(octets) = octets_of(alloc, digits)? else {
        return Err(LineFault::Bad);
    };
    if RawView::new(&octets).is_none() {
        return Err(LineFault::Bad);
    }
    Ok(octets)
}

/// Reads one line, given its content without the line end. [`pack`] describes the lines.
///
/// # Errors
///
/// `Bad` if the line is neither an entry nor skipped, `Memory` if memory runs out.
pub fn read_line(alloc: Global, content: &[u8]) -> Result<Line, LineFault>
    ensures stands { MatchResult result (λ line. StandsFor content.now (line_of line))
        (λ fault. fault ≡ LineFault.Bad → IsNoLine content.now) }
{
    if content.len() > LINE_LIMIT {
        return Err(LineFault::Bad);
    }
    match content {
        [] | [b'#', ..] => Ok(Line::Skipped),
        [QUIET_OCTET] => Ok(Line::Mark),
        [letter, b' ', digits @ ..] => match end_of(*letter) {
            Some(side) => Ok(Line::Sent(side, read_element(alloc, digits)?)),
            None => Err(LineFault::Bad),
        },
        _ => Err(LineFault::Bad),
    }
}

/// Returns the length of a line without a carriage return at its end.
fn content_len(line: &[u8]) -> usize
    ensures most { result ≤ length line.now }
    ensures content { IsContentOf line.now (take result line.now) }
{
    match line {
        [front @ .., CARRIAGE_RETURN] => front.len(),
        _ => line.len(),
    }
}

/// Returns the number of octets before the first newline, or of all if there is none.
fn line_len(octets: &[u8]) -> usize
    ensures most { result ≤ length octets.now }
    ensures front { HasNoNewline (take result octets.now) }
    ensures end { result < length octets.now → slice_index octets.now result ≡ newline }
{
    memchr(NEWLINE, octets).unwrap_or(octets.len())
}

/// The state of packing: the front of the current line, and the numbers of lines and entries before it.
#[derive(Debug, Drop)]
struct PackState {
    alloc: Global,
    line: Vec<u8>,
    lines: u64,
    entries: u64,
}

impl PackState {
    /// Creates the state before the first line.
    fn new(alloc: Global) -> PackState
        ensures { IsFresh result }
    {
        PackState {
            alloc,
            line: Vec::new(alloc),
            lines: 0,
            entries: 0,
        }
    }

    /// Returns the fault `BadHexLine` at the current line.
    fn bad_line(&self) -> FeedFault
        requires { self.now.lines ≤ lines_limit }
        ensures { result ≡ feed_fault FeedReason.BadHexLine (self.now.lines + 1) }
    {
        FeedFault {
            reason: FeedReason::BadHexLine,
            place: self.lines + 1,
        }
    }

    /// Returns the fault of the current line for this reason.
    fn refused(&self, fault: LineFault) -> FeedFault
        requires { self.now.lines ≤ lines_limit }
        ensures { result ≡ line_fault (self.now.lines + 1) fault }
    {
        match fault {
            LineFault::Bad => self.bad_line(),
            LineFault::Memory => OUT_OF_MEMORY,
        }
    }

    /// Appends octets without a newline to the current line. `Bad` if it is then too long.
    fn hold(&mut self, octets: &[u8]) -> Result<(), LineFault>
        requires fits { length self.old.line.items ≤ line_limit + 1 }
        ensures held { OnOk result (self.new.line.items ≡ self.old.line.items ++ octets.now) }
        ensures short { OnOk result (length self.new.line.items ≤ line_limit + 1) }
        ensures long { result ≡ Err LineFault.Bad → line_limit + 1 < length (self.old.line.items ++ octets.now) }
        ensures counts { (self.new.lines ≡ self.old.lines) × (self.new.entries ≡ self.old.entries) }
    {
        if octets.len() > LINE_LIMIT + 1 - self.line.len() {
            return Err(LineFault::Bad);
        }
        self.line.extend_from_slice(octets)?;
        Ok(())
    }

    /// Packs the current line, whose content is its first `len` octets.
    fn end_line<W: Write>(&mut self, len: usize, writer: &mut W) -> Result<(), PackFault>
        requires within { len ≤ length self.old.line.items }
        requires open { IsOpen self.old }
        requires room { self.old.lines < lines_limit }
        ensures packed { OnOk result ((line : Option (List ℕ)) × StandsFor (take len self.old.line.items) line
            × IsBehind line self.old self.new
            × Appends (W.taken writer.old) (W.taken writer.new) (concat (entries_in (line ∷ [])))) }
        ensures refused { (fault : FeedFault) → result ≡ Err (PackFault.Fault fault)
            → IsLineRefused (take len self.old.line.items) (self.old.lines + 1) fault
            × (W.taken writer.new ≡ W.taken writer.old) }
        ensures write { result ≡ Err PackFault.Write → W.failures writer.new ≡ one_more (W.failures writer.old) }
        ensures others { result ≢ Err PackFault.Write → W.failures writer.new ≡ W.failures writer.old }
    {
        let line = match read_line(self.alloc, &self.line[..len]) {
            Ok(line) => line,
            Err(fault) => return Err(PackFault::Fault(self.refused(fault))),
        };
        line.write(writer)?;
        self.entries += line.count();
        self.lines += 1;
        self.line.clear();
        Ok(())
    }

    /// Packs the last line, which has no line end. Returns the number of entries.
    fn finish<W: Write>(mut self, writer: &mut W) -> Result<u64, PackFault>
        requires open { IsOpen «self» }
        ensures packed { IfOk result (λ count. Finishes «self» count (W.taken writer.old) (W.taken writer.new)) }
        ensures refused { (fault : FeedFault) → result ≡ Err (PackFault.Fault fault) → (remaining : Option (List ℕ))
            → IsAtEnd remaining
            → PacksUpTo «self» [] fault remaining (W.taken writer.old) (W.taken writer.new) }
        ensures write { result ≡ Err PackFault.Write → W.failures writer.new ≡ one_more (W.failures writer.old) }
        ensures others { result ≢ Err PackFault.Write → W.failures writer.new ≡ W.failures writer.old }
    {
        if !self.line.is_empty() {
            let len = self.line.len();
            self.end_line(len, writer)?;
        }
        Ok(self.entries)
    }

    /// Packs the current line if it ends in `piece`, or else appends all of `piece` to it. Returns the octets left.
    fn pack_line<'a, W: Write>(
        &mut self,
        piece: &'a [u8],
        writer: &mut W,
    ) -> Result<&'a [u8], PackFault>
        requires open { IsOpen self.old }
        requires some { 0 < length piece.now }
        ensures packed { IfOk result (λ rest. PacksFrom self.old self.new piece.now rest.now
            (W.taken writer.old) (W.taken writer.new)) }
        ensures open { OnOk result (IsOpen self.new) }
        ensures refused { (fault : FeedFault) → result ≡ Err (PackFault.Fault fault) → (remaining : Option (List ℕ))
            → PacksUpTo self.old piece.now fault remaining (W.taken writer.old) (W.taken writer.new) }
        ensures write { result ≡ Err PackFault.Write → W.failures writer.new ≡ one_more (W.failures writer.old) }
        ensures others { result ≢ Err PackFault.Write → W.failures writer.new ≡ W.failures writer.old }
    {
        if self.lines == LINES_LIMIT {
            return Err(PackFault::Fault(self.bad_line()));
        }
        let (front, behind) = piece.split_at(line_len(piece));
        if let Err(fault) = self.hold(front) {
            return Err(PackFault::Fault(self.refused(fault)));
        }
        match behind {
            [_, more @ ..] => {
                let len = content_len(&self.line);
                self.end_line(len, writer)?;
                Ok(more)
            }
            [] => Ok(behind),
        }
    }

    /// Packs the lines that end in `piece`, and holds the octets after them.
    fn pack_piece<W: Write>(&mut self, piece: &[u8], writer: &mut W) -> Result<(), PackFault>
        requires open { IsOpen self.old }
        ensures packed { OnOk result (Packs self.old self.new piece.now (W.taken writer.old) (W.taken writer.new)) }
        ensures open { OnOk result (IsOpen self.new) }
        ensures refused { (fault : FeedFault) → result ≡ Err (PackFault.Fault fault) → (remaining : Option (List ℕ))
            → PacksUpTo self.old piece.now fault remaining (W.taken writer.old) (W.taken writer.new) }
        ensures write { result ≡ Err PackFault.Write → W.failures writer.new ≡ one_more (W.failures writer.old) }
        ensures others { result ≢ Err PackFault.Write → W.failures writer.new ≡ W.failures writer.old }
    {
        let mut rest = piece;
        while !rest.is_empty() {
            rest = self.pack_line(rest, writer)?;
        }
        Ok(())
    }
}

/// Packs lines of hexadecimal digits into a record, up to the end of `reader`. Returns the number of entries written.
///
/// A line is one of these:
///
/// - `A` or `B`, a space and the digits of one element, upper or lower case,
/// - `Q` for a quiet mark,
/// - an empty line or a comment that begins with `#`, which is skipped.
///
/// A carriage return before a newline is dropped, and the last line needs no newline.
///
/// # Errors
///
/// - `BadHexLine` at the first other line, at a line of more than 131,092 octets, or at line 1,000,001. Its place is
///   the line number from 1.
/// - `Read` at the number of octets read, if the reader fails.
/// - `Memory` if memory runs out.
/// - `Write` if the writer fails. How many octets were written is then unknown.
///
/// After a fault other than `Write`, the entries of the lines before it are written.
pub fn pack<R: Read, W: Write>(
    alloc: Global,
    reader: &mut R,
    writer: &mut W,
) -> Result<u64, PackFault>
    ensures packed { IfOk result (λ count. IsAtEnd (R.remaining reader.new)
        × ((returned : List ℕ) × Consumes (R.remaining reader.old) (R.remaining reader.new) returned
        × IsPacked returned count (W.taken writer.old) (W.taken writer.new))) }
    ensures refused { (fault : FeedFault) → result ≡ Err (PackFault.Fault fault) → (returned : List ℕ)
        × Consumes (R.remaining reader.old) (R.remaining reader.new) returned
        × IsPackedUpTo returned fault (R.remaining reader.new) (W.taken writer.old) (W.taken writer.new) }
    // Each failure of the reader or writer is counted once, and nothing else is.
    ensures read { (fault : FeedFault) → result ≡ Err (PackFault.Fault fault) → fault.reason ≡ FeedReason.Read
        → R.failures reader.new ≡ one_more (R.failures reader.old) }
    ensures unread { ((fault : FeedFault) → result ≡ Err (PackFault.Fault fault) → fault.reason ≢ FeedReason.Read)
        → R.failures reader.new ≡ R.failures reader.old }
    ensures write { result ≡ Err PackFault.Write → W.failures writer.new ≡ one_more (W.failures writer.old) }
    ensures others { result ≢ Err PackFault.Write → W.failures writer.new ≡ W.failures writer.old }
{
    let mut piece = [0; PIECE_LEN];
    let mut read: u64 = 0;
    let mut packing = PackState::new(alloc);
    loop {
        let returned = match reader.read(&mut piece) {
            Ok(0) => return packing.finish(writer),
            Ok(returned) => returned,
            Err(Failed) => {
                return Err(PackFault::Fault(FeedFault {
                    reason: FeedReason::Read,
                    place: read,
                }));
            }
        };
        read += returned as u64;
        packing.pack_piece(&piece[..returned], writer)?;
    }
}
