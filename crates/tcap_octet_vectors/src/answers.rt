//! Returns the answers of the public calls over messages. Each message is dropped in the function that made it.

use std::alloc::Global;
use tcap_ber::Counted;
use tcap_lines::run_show;
use tcap_msg::{
    DecodeFault, EncodeFault, Message, MessageParts, decode, encode, encoded_len, view,
};

/// The length of the message at the front of octets, or the number and the place of its fault.
pub(crate) type Answer = Result<usize, (u8, u64)>;

/// Returns the answer of `view`.
pub(crate) fn viewed(octets: &[u8]) -> Answer {
    match view(octets) {
        Ok((_, len)) => Ok(len),
        Err(fault) => Err((fault.reason.number(), fault.place)),
    }
}

/// Returns the answer of `decode`, or `None` if memory runs out.
fn decoded(alloc: Global, octets: &[u8]) -> Option<Answer> {
    match decode(alloc, octets) {
        Ok((message, len)) => {
            drop(message);
            Some(Ok(len))
        }
        Err(DecodeFault::Fault(fault)) => Some(Err((fault.reason.number(), fault.place))),
        Err(DecodeFault::Memory) => None,
    }
}

/// Returns whether both `view` and `decode` give this answer, or `None` if memory runs out.
pub(crate) fn is_answered(alloc: Global, octets: &[u8], wanted: Answer) -> Option<bool> {
    Some(viewed(octets) == wanted && decoded(alloc, octets)? == wanted)
}

/// Encodes a message. Returns its length by `encoded_len` and the octets written, or no length and no octets if it is
/// too long. Returns `None` if `encode` and `encoded_len` disagree.
pub(crate) fn counted(alloc: Global, message: Message) -> Option<(Option<usize>, Vec<u8>)> {
    let mut writer = Counted::new(Vec::new(alloc));
    let answer = encode(&message, &mut writer);
    let len = encoded_len(&message);
    drop(message);
    let wanted = if len.is_some() {
        Ok(())
    } else {
        Err(EncodeFault::TooLong)
    };
    if answer != wanted {
        return None;
    }
    Some((len, writer.into_inner()))
}

/// Encodes a message. Returns the octets, or `None` if their count is not what `encoded_len` gives.
pub(crate) fn written(alloc: Global, message: Message) -> Option<Vec<u8>> {
    let (len, octets) = counted(alloc, message)?;
    if len == Some(octets.len()) {
        Some(octets)
    } else {
        None
    }
}

/// Decodes the message at the front of the octets, and encodes it again.
pub(crate) fn encoded_again(alloc: Global, octets: &[u8]) -> Option<Vec<u8>> {
    let (message, _) = decode(alloc, octets).ok()?;
    written(alloc, message)
}

/// Encodes the message that is made from a view of the octets, and the one that is made from the message's own view.
pub(crate) fn lent_again(alloc: Global, octets: &[u8]) -> Option<(Vec<u8>, Vec<u8>)> {
    let (lent, _) = view(octets).ok()?;
    let of_view = written(alloc, lent.to_message(alloc).ok()?)?;
    let (message, _) = decode(alloc, octets).ok()?;
    let made = message.view().to_message(alloc);
    drop(message);
    Some((of_view, written(alloc, made.ok()?)?))
}

/// Returns the text that `run_show` prints for a record, and the number of its status.
pub(crate) fn shown(alloc: Global, record: &[u8]) -> Option<(Vec<u8>, u8)> {
    let mut writer = Counted::new(Vec::new(alloc));
    let status = run_show(alloc, &mut Counted::new(record), &mut writer);
    Some((writer.into_inner(), status.ok()?.number()))
}

/// Returns the lines of a message that end A sent.
pub(crate) fn lines_of(alloc: Global, message: &[u8]) -> Option<Vec<u8>> {
    let mut record = [0x41].to_vec(alloc).ok()?;
    record.extend_from_slice(message).ok()?;
    Some(shown(alloc, &record)?.0)
}
