//! Reads what can be read of a malformed message.

ghost use Rattle.std.specs.Prelude.{◌≡◌, ◌+◌, ◌<◌, IfOk, drop, length, option_map, suc};
ghost use Rattle.tcap_dialogues.specs.HeadingReading.{heading_read};
ghost use Rattle.tcap_readings.specs.Malformed.{first_malformed, is_malformed, is_malformed_of, is_over_limit, malformed_at, next_malformed, within_limits};

use std::alloc::{AllocError, Global};
use tcap_dialogues::{SoundPart, dialogue_after_ids, read_heading, sound_part};
use tcap_msg::{Kind, TransactionId, TransactionIdView};
use tcap_record::{Body, End, Entry};
use tcap_refute::is_limit;

/// A malformed message: what can be read of it (Q.773 4.2.1).
#[derive(Debug, Drop)]
pub struct Malformed {
    /// The end that sent it.
    pub sender: End,
    /// The number of its entry in the dialogue, counted from 0.
    pub number: u64,
    /// The kind of message, by the tag.
    pub kind: Option<Kind>,
    /// The originating transaction ID.
    pub otid: Option<TransactionId>,
    /// The destination transaction ID.
    pub dtid: Option<TransactionId>,
    /// Whether the IDs are those of its kind, in their places.
    pub in_place: bool,
    /// Whether a dialogue portion follows the IDs, which are in place.
    pub has_dialogue: bool,
    /// The sound part.
    pub sound: Option<SoundPart>,
}

impl Malformed {
    ghost use Rattle.tcap_msg.specs.Meaning.{id_of};

    /// Returns a view of the originating transaction ID.
    pub fn otid(&self) -> Option<TransactionIdView<'_>>
        ensures { id_of result ≡ self.now.otid }
    {
        match &self.otid {
            Some(id) => Some(id.view()),
            None => None,
        }
    }

    /// Returns a view of the destination transaction ID.
    pub fn dtid(&self) -> Option<TransactionIdView<'_>>
        ensures { id_of result ≡ self.now.dtid }
    {
        match &self.dtid {
            Some(id) => Some(id.view()),
            None => None,
        }
    }
}

/// Returns whether an entry is no message for another reason than a limit of the profile.
fn is_malformed(entry: &Entry) -> bool
    ensures { result ≡ is_malformed entry.now }
{
    match entry.body {
        Body::Bad(fault) => !is_limit(fault.reason),
        _ => false,
    }
}

/// Returns whether this end sent the entry, and it is no message for another reason than a limit of the profile.
pub fn is_malformed_of(end: End, entry: &Entry) -> bool
    ensures { result ≡ is_malformed_of end entry.now }
{
    match entry.side {
        Some(sender) => end.is(sender) && is_malformed(entry),
        None => false,
    }
}

/// Returns whether an entry is no message because of a limit of the profile.
pub fn is_over_limit(entry: &Entry) -> bool
    ensures { result ≡ is_over_limit entry.now }
{
    match entry.body {
        Body::Bad(fault) => is_limit(fault.reason),
        _ => false,
    }
}

/// Returns the entries before the first that is no message because of a limit of the profile.
pub fn within_limits(entries: &[Entry]) -> &[Entry]
    ensures { result.now ≡ within_limits entries.now }
{
    let mut count = 0;
    for entry in entries {
        if is_over_limit(entry) {
            return &entries[..count];
        }
        count += 1;
    }
    entries
}

/// Returns the entries after this number, which is that of an entry.
pub(crate) fn entries_after(after: u64, entries: &[Entry]) -> &[Entry]
    requires is_one { after < length entries.now }
    ensures are { result.now ≡ drop (suc after) entries.now }
    ensures few { after + length result.now < length entries.now }
{
    &entries[after as usize + 1..]
}

/// Returns the number of the first malformed message of an end.
pub fn first_malformed(end: End, entries: &[Entry]) -> Option<u64>
    ensures { result ≡ first_malformed «end» entries.now }
{
    let mut at = 0;
    for entry in entries {
        if is_malformed_of(end, entry) {
            return Some(at);
        }
        at += 1;
    }
    None
}

/// Returns the number of the first malformed message of an end after this number.
pub fn next_malformed(end: End, after: u64, entries: &[Entry]) -> Option<u64>
    ensures { result ≡ next_malformed «end» after entries.now }
{
    if after as usize >= entries.len() {
        return None;
    }
    let rest = entries_after(after, entries);
    let mut at = after;
    for entry in rest {
        at += 1;
        if is_malformed_of(end, entry) {
            return Some(at);
        }
    }
    None
}

/// Copies a transaction ID.
fn own_id(id: Option<TransactionIdView>) -> Option<TransactionId>
    ensures { result ≡ option_map (λ id. id.octets.now) id.entry }
{
    match id {
        Some(id) => Some(id.to_transaction_id()),
        None => None,
    }
}

/// Reads what can be read of the octets of an entry that is malformed, given its sender and its number in the dialogue.
///
/// # Errors
///
/// `AllocError` if memory runs out.
pub fn read_malformed(
    alloc: Global,
    sender: End,
    number: u64,
    octets: &[u8],
) -> Result<Malformed, AllocError>
    ensures { IfOk result (λ made. made ≡ malformed_at sender number octets.now) }
{
    let heading = read_heading(sender, octets);
    let dialogue = dialogue_after_ids(octets);
    Ok(Malformed {
        sender,
        number,
        kind: heading.kind,
        otid: own_id(heading.otid),
        dtid: own_id(heading.dtid),
        in_place: dialogue.is_some(),
        has_dialogue: dialogue.unwrap_or(false),
        sound: sound_part(alloc, octets)?,
    })
}
