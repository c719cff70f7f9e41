//! Reads a dialogue with one malformed message as a record without it.

ghost use Rattle.std.specs.Prelude.{◌≡◌, ◌≤◌, ◌∷◌, ◌&&◌, [], IfOk, IfSome, OnOk, is_none, is_some, length, option_map};
ghost use Rattle.tcap_readings.specs.declared.reactions.Reaction.TheVariants as reactions;
ghost use Rattle.tcap_readings.specs.Reactions.{later};
ghost use Rattle.tcap_readings.specs.Readings.{aborted, bare, closed, closing, entry_of, in_part, number_behind, number_in_dialogue, put, reading_by, reading_of, refused, rejected, sound, unrejecting_at, with_message, with_or_without, without};

use crate::malformed::Malformed;
use crate::reactions::{Reaction, answer, faulty_id, later};
use crate::rejects::unrejecting_entry;
use crate::way::Way;
use std::alloc::{AllocError, Global};
use tcap_msg::{Kind, Message, MessageParts};
use tcap_record::{Body, End, Entry, Record};

/// A record as which the entries of a dialogue are read.
#[derive(Debug, Drop)]
pub struct Reading {
    /// The record.
    pub record: Record,
    /// The number in the dialogue of the malformed message, if the record has nothing in its place.
    pub lacks: Option<u64>,
    /// The number in the dialogue of the answer, if the record lacks it.
    pub lacks_answer: Option<u64>,
}

// ---- entries

/// Returns a message of this end as an entry.
fn entry_of(end: End, message: Message) -> Entry
    ensures { result ≡ entry_of end message }
{
    Entry {
        side: Some(end),
        place: 0,
        body: Body::Good(message),
    }
}

/// Returns an entry as an owned value. Fails if memory runs out.
fn copy_entry(alloc: Global, entry: &Entry) -> Result<Entry, AllocError>
    ensures { IfOk result (λ made. made ≡ entry.now) }
{
    let body = match &entry.body {
        Body::Good(message) => Body::Good(message.to_message(alloc)?),
        Body::Bad(fault) => Body::Bad(*fault),
        Body::Quiet => Body::Quiet,
    };
    Ok(Entry {
        side: entry.side,
        place: entry.place,
        body,
    })
}

/// Copies entries.
///
/// # Errors
///
/// `AllocError` if memory runs out.
pub fn copy_entries(alloc: Global, entries: &[Entry]) -> Result<Vec<Entry>, AllocError>
    ensures { IfOk result (λ made. made.items ≡ entries.now) }
{
    let mut made = Vec::new(alloc);
    for entry in entries {
        made.push(copy_entry(alloc, entry)?)?;
    }
    Ok(made)
}

/// Takes out the entry with this number, if there is one.
fn take_out(entries: &mut Vec<Entry>, number: u64)
    ensures { entries.new.items ≡ put number [] entries.old.items }
{
    if (number as usize) < entries.len() {
        entries.remove(number as usize);
    }
}

/// Puts this entry in place of the one with this number, if there is one.
fn replace(entries: &mut Vec<Entry>, number: u64, entry: Entry)
    ensures { entries.new.items ≡ put number (entry ∷ []) entries.old.items }
{
    if let Some(place) = entries.get_mut(number as usize) {
        *place = entry;
    }
}

/// Returns the reading with this message in place of the malformed one.
fn with_message(malformed: &Malformed, entries: Vec<Entry>, message: Message) -> Reading
    ensures { reading_of result ≡ with_message malformed.now entries.items message }
{
    let mut entries = entries;
    replace(
        &mut entries,
        malformed.number,
        entry_of(malformed.sender, message),
    );
    Reading {
        record: Record { entries },
        lacks: None,
        lacks_answer: None,
    }
}

/// Returns the reading without the malformed message.
fn without(malformed: &Malformed, entries: Vec<Entry>) -> Reading
    ensures { reading_of result ≡ without malformed.now entries.items }
{
    let mut entries = entries;
    take_out(&mut entries, malformed.number);
    Reading {
        record: Record { entries },
        lacks: Some(malformed.number),
        lacks_answer: None,
    }
}

/// Returns the reading with this message in place of the malformed one, or with nothing if it is `None`.
fn with_or_without(malformed: &Malformed, entries: Vec<Entry>, message: Option<Message>) -> Reading
    ensures { reading_of result ≡ with_or_without malformed.now entries.items message }
{
    match message {
        Some(message) => with_message(malformed, entries, message),
        None => without(malformed, entries),
    }
}

// ---- messages in place of the malformed one

/// Returns an Abort without a cause to the destination ID of a malformed message.
fn closing(malformed: &Malformed) -> Option<Message>
    ensures { result ≡ closing malformed.now }
{
    let dtid = malformed.dtid()?.to_transaction_id();
    Some(Message::Abort { dtid, reason: None })
}

/// Copies the sound part of a malformed message. Fails if memory runs out.
fn sound(alloc: Global, malformed: &Malformed) -> Result<Option<Message>, AllocError>
    ensures { IfOk result (λ made. made ≡ sound malformed.now) }
{
    match &malformed.sound {
        Some(sound) => Ok(Some(sound.message.to_message(alloc)?)),
        None => Ok(None),
    }
}

/// Returns a message with the kind and IDs of a malformed one and nothing else, if that is a Begin or Continue.
fn bare(malformed: &Malformed) -> Option<Message>
    ensures { result ≡ bare malformed.now }
{
    match malformed.kind? {
        Kind::Begin => Some(Message::Begin {
            otid: malformed.otid()?.to_transaction_id(),
            dialogue: None,
            components: None,
        }),
        Kind::Continue => Some(Message::Continue {
            otid: malformed.otid()?.to_transaction_id(),
            dtid: malformed.dtid()?.to_transaction_id(),
            dialogue: None,
            components: None,
        }),
        _ => None,
    }
}

// ---- the readings

/// Returns the reading by which the message ends its transaction, if it has a destination ID.
fn closed(malformed: &Malformed, entries: Vec<Entry>) -> Option<Reading>
    ensures { option_map reading_of result ≡ closed malformed.now entries.items }
{
    match closing(malformed) {
        Some(message) => Some(with_message(malformed, entries, message)),
        None => None,
    }
}

/// Returns the reading by which the sound part is taken, if there is one. Fails if memory runs out.
fn in_part(
    alloc: Global,
    malformed: &Malformed,
    entries: Vec<Entry>,
) -> Result<Option<Reading>, AllocError>
    ensures { IfOk result (λ made. option_map reading_of made ≡ in_part malformed.now entries.items) }
{
    match sound(alloc, malformed)? {
        Some(message) => Ok(Some(with_message(malformed, entries, message))),
        None => Ok(None),
    }
}

/// Takes the first Reject that fits out of the entry with this number. Fails if memory runs out.
fn unreject(
    alloc: Global,
    at: Option<i8>,
    number: u64,
    entries: &mut Vec<Entry>,
) -> Result<(), AllocError>
    ensures { OnOk result (entries.new.items ≡ unrejecting_at at number entries.old.items) }
{
    let entry = match entries.get(number as usize) {
        Some(entry) => unrejecting_entry(alloc, at, entry)?,
        None => return Ok(()),
    };
    replace(entries, number, entry);
    Ok(())
}

/// Returns the reading by which the sound part is taken and a later Reject is about the rest, if there are both. Fails if
/// memory runs out.
fn rejected(
    alloc: Global,
    malformed: &Malformed,
    entries: Vec<Entry>,
) -> Result<Option<Reading>, AllocError>
    ensures { IfOk result (λ made. option_map reading_of made ≡ rejected malformed.now entries.items) }
{
    let Some(message) = sound(alloc, malformed)? else {
        return Ok(None);
    };
    let Some(number) = later(Reaction::Reject, malformed, &entries) else {
        return Ok(None);
    };
    let mut entries = entries;
    unreject(
        alloc,
        faulty_id(malformed.sound.as_ref()),
        number,
        &mut entries,
    )?;
    Ok(Some(with_message(malformed, entries, message)))
}

/// Returns the reading by which an Abort answers the message, if there is one.
fn aborted(malformed: &Malformed, entries: Vec<Entry>) -> Option<Reading>
    ensures { option_map reading_of result ≡ aborted malformed.now entries.items }
{
    let number = answer(malformed, &entries)?;
    let mut entries = entries;
    take_out(&mut entries, number);
    let Reading { record, lacks, .. } = with_or_without(malformed, entries, closing(malformed));
    Some(Reading {
        record,
        lacks,
        lacks_answer: Some(number),
    })
}

/// Returns whether an Abort refuses the transaction of a malformed message that has its IDs in place and no sound part.
fn is_refused(malformed: &Malformed, entries: &[Entry]) -> bool
    ensures { result ≡ malformed.now.in_place && is_none malformed.now.sound
        && is_some (later reactions.Refusal malformed.now entries.now) }
{
    malformed.in_place
        && malformed.sound.is_none()
        && later(Reaction::Refusal, malformed, entries).is_some()
}

/// Returns the reading by which an Abort refuses the transaction of the message, if there is one.
fn refused(malformed: &Malformed, entries: Vec<Entry>) -> Option<Reading>
    ensures { option_map reading_of result ≡ refused malformed.now entries.items }
{
    if !is_refused(malformed, &entries) {
        return None;
    }
    match bare(malformed) {
        Some(message) => Some(with_message(malformed, entries, message)),
        None => None,
    }
}

/// Returns the reading by this way, if there is one. Fails if memory runs out.
fn read_entries(
    alloc: Global,
    way: Way,
    malformed: &Malformed,
    entries: Vec<Entry>,
) -> Result<Option<Reading>, AllocError>
    ensures { IfOk result (λ made. option_map reading_of made ≡ reading_by way malformed.now entries.items) }
{
    match way {
        Way::Dropped => Ok(Some(without(malformed, entries))),
        Way::Closed => Ok(closed(malformed, entries)),
        Way::InPart => in_part(alloc, malformed, entries),
        Way::Rejected => rejected(alloc, malformed, entries),
        Way::Aborted => Ok(aborted(malformed, entries)),
        Way::Refused => Ok(refused(malformed, entries)),
    }
}

/// Returns the record as which a dialogue with these entries is read if its end takes the malformed message in this way.
/// Returns `None` if it cannot have been taken so. The record has no more entries than the dialogue.
///
/// # Errors
///
/// `AllocError` if memory runs out.
pub fn read_by(
    alloc: Global,
    way: Way,
    malformed: &Malformed,
    entries: &[Entry],
) -> Result<Option<Reading>, AllocError>
    ensures are { IfOk result (λ made. option_map reading_of made ≡ reading_by way malformed.now entries.now) }
    ensures few { IfOk result (λ made. IfSome made (λ r. length r.record.entries.items ≤ length entries.now)) }
{
    read_entries(alloc, way, malformed, copy_entries(alloc, entries)?)
}

// ---- numbers

/// Returns the number of an entry, given its number in a list that lacks the entry with another number.
fn number_behind(lacking: Option<u64>, number: u64) -> u64
    ensures { result ≡ number_behind lacking number }
{
    match lacking {
        Some(lacking) if lacking <= number => number.saturating_add(1),
        _ => number,
    }
}

impl Reading {
    /// Returns the number in the dialogue of the entry with this number in the reading.
    pub fn number_in_dialogue(&self, number: u64) -> u64
        ensures { result ≡ number_in_dialogue (reading_of self.now) number }
    {
        number_behind(self.lacks_answer, number_behind(self.lacks, number))
    }
}
