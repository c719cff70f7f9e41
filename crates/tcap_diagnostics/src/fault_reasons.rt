//! The reasons why an entry or a record is refused, in words.

ghost use Rattle.std.specs.Prelude.{◌≡◌, ◌≢◌, Err, OnOk, OnErr};
ghost use Rattle.tcap_ber.specs.Device.{one_more};
ghost use Rattle.tcap_lines.specs.declared.stop.Stop.{Stop};

use crate::names::{feed_name_of, name_of};
use crate::octets_around::push_around;
use crate::path::path_to;
use crate::showing::ShowState;
use std::alloc::{AllocError, Global};
use tcap_ber::{Failed, Fault, Read, Reason, Window, Write, next_tlv};
use tcap_lines::{Status, Stop, WriteFailed};
use tcap_record::{FeedFault, FeedReason, PIECE_LEN, push_hex};

/// The tag of an originating transaction ID (Q.773 4.2.1).
const ORIGINATING: u8 = 0x48;

/// The tag of a destination transaction ID.
const DESTINATION: u8 = 0x49;

/// Returns the kind of a message by its tag, and the tags of its transaction IDs (Q.773 4.2.1).
fn kind_of(tag: u8) -> Option<(&'static str, &'static [u8])> {
    match tag {
        0x61 => Some(("Unidirectional", &[])),
        0x62 => Some(("Begin", &[ORIGINATING])),
        0x64 => Some(("End", &[DESTINATION])),
        0x65 => Some(("Continue", &[ORIGINATING, DESTINATION])),
        0x67 => Some(("Abort", &[DESTINATION])),
        _ => None,
    }
}

/// Appends a transaction ID, if it has one to four octets.
fn push_id(text: &mut String, tag: u8, octets: &[u8]) -> Result<(), AllocError> {
    if octets.is_empty() || octets.len() > 4 {
        return Ok(());
    }
    text.push_str(if tag == ORIGINATING {
        " otid="
    } else {
        " dtid="
    })?;
    push_hex(text, octets)
}

/// Appends the kind of a message and its transaction IDs, as far as they can be read.
fn push_kind(text: &mut String, octets: &[u8]) -> Result<(), AllocError> {
    let [first, ..] = octets else {
        return Ok(());
    };
    let Some((kind, ids)) = kind_of(*first) else {
        return Ok(());
    };
    text.push_str("; ")?;
    text.push_str(kind)?;
    let Ok((message, _)) = next_tlv(Window::new(octets)) else {
        return Ok(());
    };
    let mut rest = message.content;
    for tag in ids {
        if rest.octets.is_empty() {
            break;
        }
        let Ok((found, behind)) = next_tlv(rest) else {
            break;
        };
        if found.tag.is(*tag) {
            push_id(text, *tag, found.content.octets)?;
            rest = behind;
        }
    }
    Ok(())
}

/// Appends the names of parts, from the outermost to the innermost.
fn push_names(text: &mut String, names: &[&str]) -> Result<(), AllocError> {
    for (number, name) in names.iter().enumerate() {
        text.push_str(if number == 0 { "; " } else { " / " })?;
        text.push_str(*name)?;
    }
    Ok(())
}

/// Appends the line that explains the fault of an entry: the reason, the offset in the message, the path of parts to
/// it, the octets around it, and the kind and IDs of the message. `octets` are the message, which begins at offset
/// `place` of the record.
pub(crate) fn push_entry_why(
    alloc: Global,
    text: &mut String,
    fault: Fault,
    octets: &[u8],
    place: u64,
) -> Result<(), AllocError> {
    let at = fault.place.saturating_sub(place);
    text.push_str("  why: ")?;
    text.push_str(name_of(fault.reason))?;
    write!(text, "; place {at} of the message")?;
    let names = path_to(alloc, octets, at, fault.reason == Reason::Missing)?;
    push_names(text, &names)?;
    text.push_str("; octets ")?;
    push_around(text, octets, at.min(octets.len() as u64) as usize)?;
    push_kind(text, octets)?;
    text.push_str("\n")
}

/// Appends the line that explains why a record is refused: the reason, the offset, and the octets around it.
/// `octets[at]` is the octet at the offset of the fault.
pub(crate) fn push_record_why(
    text: &mut String,
    fault: FeedFault,
    octets: &[u8],
    at: usize,
) -> Result<(), AllocError> {
    let place = fault.place;
    text.push_str("  why: ")?;
    text.push_str(feed_name_of(fault.reason))?;
    write!(text, "; place {place} of the record; octets ")?;
    push_around(text, octets, at)?;
    text.push_str("\n")
}

/// Writes the lines of the entries in `reader`, up to its end or the first fault.
fn show_all<R: Read, W: Write>(
    showing: &mut ShowState,
    reader: &mut R,
    writer: &mut W,
) -> Result<(), Stop>
    ensures write { result ≡ Err Stop.Write → W.failures writer.new ≡ one_more (W.failures writer.old) }
    ensures others { result ≢ Err Stop.Write → W.failures writer.new ≡ W.failures writer.old }
{
    let mut piece = [0; PIECE_LEN];
    for _ in 0..u64::MAX {
        let returned = match reader.read(&mut piece) {
            Ok(0) => return Ok(showing.finish()?),
            Ok(returned) => returned,
            Err(Failed) => {
                return Err(Stop::Fault(FeedFault {
                    reason: FeedReason::Read,
                    place: showing.taken(),
                }));
            }
        };
        showing.show_piece(&piece[..returned], writer)?;
    }
    Ok(())
}

/// Prints the entries of a record like [`run_show`](tcap_lines::run_show), with a line after each fault that explains
/// it.
///
/// The status says whether a fault was printed. If memory runs out, the whole lines of the first entries are printed,
/// then the fault for lack of memory. The run holds one entry at a time.
///
/// # Errors
/// `WriteFailed` if the writer fails in this call.
pub fn run_why<R: Read, W: Write>(
    alloc: Global,
    reader: &mut R,
    writer: &mut W,
) -> Result<Status, WriteFailed>
    ensures counts { OnOk result (W.failures writer.new ≡ W.failures writer.old) }
    ensures failed { OnErr result (W.failures writer.new ≡ one_more (W.failures writer.old)) }
{
    let mut showing = ShowState::new(alloc, true);
    let ended = show_all(&mut showing, reader, writer);
    showing.end(ended, writer)
}
