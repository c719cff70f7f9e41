//! Lines of digits, packed and shown in one step.

ghost use Rattle.std.specs.Prelude.{◌≡◌, ◌≢◌, Err, IsErr, OnOk, OnErr};
ghost use Rattle.tcap_ber.specs.Device.{one_more};
ghost use Rattle.tcap_lines.specs.declared.stop.Stop.{Stop};

use crate::rules::{BrokenRule, Rule, broken_by, push_broken};
use crate::showing::ShowState;
use std::alloc::{AllocError, Global};
use tcap_ber::{Counted, Failed, Read, Write};
use tcap_lines::{Status, Stop, WriteFailed};
use tcap_record::{FeedFault, FeedReason, LINE_LIMIT, LINES_LIMIT, PIECE_LEN, PackFault, pack};

/// The most octets of a line, with its end.
const HELD_LIMIT: usize = LINE_LIMIT + 2;

/// The state of showing lines: the octets of the unfinished line, the number of lines before it, and the number of
/// octets that were read.
#[derive(Debug, Drop)]
struct Lines {
    alloc: Global,
    showing: ShowState,
    line: Vec<u8>,
    lines: u64,
    read: u64,
}

/// Returns a line without its end.
fn content_of(line: &[u8]) -> &[u8] {
    match line {
        [front @ .., b'\r', b'\n'] => front,
        [front @ .., b'\n'] => front,
        _ => line,
    }
}

/// Returns the record of one line. `BadHexLine` if the line has none, `Memory` if memory runs out.
fn packed(alloc: Global, line: &[u8]) -> Result<Vec<u8>, FeedReason> {
    let mut record = Counted::new(Vec::new(alloc));
    match pack(alloc, &mut Counted::new(line), &mut record) {
        Ok(_) => Ok(record.into_inner()),
        Err(PackFault::Fault(fault)) => Err(fault.reason),
        // A vector takes all octets, unless memory runs out.
        Err(PackFault::Write) => Err(FeedReason::Memory),
    }
}

impl Lines {
    /// Returns the fault that the current line is bad.
    fn bad_line(&self) -> FeedFault {
        FeedFault {
            reason: FeedReason::BadHexLine,
            place: self.lines.saturating_add(1),
        }
    }

    /// Adds octets to the current line. Fails if the line grows too long or memory runs out.
    fn hold(&mut self, octets: &[u8]) -> Result<(), FeedFault> {
        let room = HELD_LIMIT.saturating_sub(self.line.len());
        if octets.len() > room {
            self.line.extend_from_slice(&octets[..room])?;
            return Err(self.bad_line());
        }
        self.line.extend_from_slice(octets)?;
        Ok(())
    }

    /// Shows the current line, and drops it.
    fn end_line<W: Write>(&mut self, writer: &mut W) -> Result<(), Stop>
        ensures write { result ≡ Err Stop.Write → W.failures writer.new ≡ one_more (W.failures writer.old) }
        ensures others { result ≢ Err Stop.Write → W.failures writer.new ≡ W.failures writer.old }
    {
        if self.lines >= LINES_LIMIT {
            return Err(Stop::Fault(self.bad_line()));
        }
        let record = match packed(self.alloc, &self.line) {
            Ok(record) => record,
            Err(FeedReason::BadHexLine) => return Err(Stop::Fault(self.bad_line())),
            Err(_) => return Err(Stop::from(AllocError)),
        };
        self.showing.show_piece(&record, writer)?;
        self.lines = self.lines.saturating_add(1);
        self.line.clear();
        Ok(())
    }

    /// Shows the lines that end in `piece`, and holds the octets after them.
    fn show_lines<W: Write>(&mut self, piece: &[u8], writer: &mut W) -> Result<(), Stop>
        ensures write { result ≡ Err Stop.Write → W.failures writer.new ≡ one_more (W.failures writer.old) }
        ensures others { result ≢ Err Stop.Write → W.failures writer.new ≡ W.failures writer.old }
    {
        let mut rest = piece;
        for _ in 0..piece.len() {
            let Some(end) = rest.iter().position(|octet| *octet == b'\n') else {
                break;
            };
            let (line, more) = rest.split_at(end.saturating_add(1).min(rest.len()));
            self.hold(line)?;
            self.end_line(writer)?;
            rest = more;
        }
        self.hold(rest)?;
        Ok(())
    }

    /// Shows all lines of `reader`.
    fn show_all<R: Read, W: Write>(&mut self, reader: &mut R, writer: &mut W) -> Result<(), Stop>
        ensures write { result ≡ Err Stop.Write → W.failures writer.new ≡ one_more (W.failures writer.old) }
        ensures others { result ≢ Err Stop.Write → W.failures writer.new ≡ W.failures writer.old }
    {
        let mut piece = [0; PIECE_LEN];
        for _ in 0..u64::MAX {
            let returned = match reader.read(&mut piece) {
                Ok(0) => break,
                Ok(returned) => returned,
                Err(Failed) => {
                    return Err(Stop::Fault(FeedFault {
                        reason: FeedReason::Read,
                        place: self.read,
                    }));
                }
            };
            self.read = self.read.saturating_add(returned as u64);
            self.show_lines(&piece[..returned], writer)?;
        }
        if self.line.is_empty() {
            return Ok(());
        }
        self.end_line(writer)
    }

    /// Returns the rule that the current line breaks.
    fn broken(&self) -> Result<Option<BrokenRule>, AllocError> {
        if self.lines >= LINES_LIMIT {
            return Ok(Some(BrokenRule {
                rule: Rule::Many,
                column: 1,
            }));
        }
        broken_by(self.alloc, content_of(&self.line))
    }

    /// Returns the text on the rule that the current line breaks.
    fn rule_line(&self) -> Result<String, AllocError> {
        let mut text = String::new(self.alloc);
        if let Some(broken) = self.broken()? {
            push_broken(&mut text, broken)?;
        }
        Ok(text)
    }

    /// Ends the output. If a line of digits is bad, the rule that it breaks comes after its fault.
    fn end<W: Write>(self, ended: Result<(), Stop>, writer: &mut W) -> Result<Status, WriteFailed>
        ensures stopped { ended ≡ Err Stop.Write → IsErr result
            × (W.failures writer.new ≡ W.failures writer.old) }
        ensures counts { OnOk result (W.failures writer.new ≡ W.failures writer.old) }
        ensures failed { ended ≢ Err Stop.Write
            → OnErr result (W.failures writer.new ≡ one_more (W.failures writer.old)) }
    {
        let is_line = matches!(
            ended,
            Err(Stop::Fault(FeedFault {
                reason: FeedReason::BadHexLine,
                ..
            }))
        );
        let rule = self.rule_line();
        let status = self.showing.end(ended, writer)?;
        if let (true, Ok(text)) = (is_line, &rule) {
            writer.write_all(text.as_bytes()).map_err(|_| WriteFailed)?;
        }
        Ok(status)
    }
}

/// Prints the entries of a record that is given as lines of digits: packs the lines like
/// [`run_pack`](tcap_lines::run_pack), and prints like [`run_show`](tcap_lines::run_show).
///
/// After the fault of a line of digits comes the rule that the line breaks, and the column. With `why`, each other
/// fault is followed by a line that explains it. The status says whether a fault was printed. If memory runs out, the
/// whole lines of the first entries are printed, then the fault for lack of memory. The run holds one line and one
/// entry at a time.
///
/// # Errors
/// `WriteFailed` if the writer fails in this call.
pub fn run_lines<R: Read, W: Write>(
    alloc: Global,
    reader: &mut R,
    why: bool,
    writer: &mut W,
) -> Result<Status, WriteFailed>
    ensures counts { OnOk result (W.failures writer.new ≡ W.failures writer.old) }
    ensures failed { OnErr result (W.failures writer.new ≡ one_more (W.failures writer.old)) }
{
    let mut lines = Lines {
        alloc,
        showing: ShowState::new(alloc, why),
        line: Vec::new(alloc),
        lines: 0,
        read: 0,
    };
    let ended = lines.show_all(reader, writer);
    lines.end(ended, writer)
}
