//! Looks at records that arrive in pieces: with frames, which hold one entry, and with a feeder, which keeps the
//! entries.

use crate::answers::shown;
use crate::octets::text_of;
use std::alloc::Global;
use tcap_ber::Counted;
use tcap_lines::run_show;
use tcap_record::{
    BodyView, End, Entry, EntryView, FeedFault, FeedReason, Feeder, Frames, Record, push_view,
    read_record, show,
};
use tcap_vectors::{Failing, octets_of};

/// Returns the lines of these entries.
fn lines_of(alloc: Global, entries: Vec<Entry>) -> Option<Vec<u8>> {
    let record = Record { entries };
    let mut writer = Counted::new(Vec::new(alloc));
    let answer = show(alloc, &record, &mut writer);
    drop(record);
    answer.ok()?;
    Some(writer.into_inner())
}

/// Takes all entries that a feeder keeps, of which there are at most `most`.
fn take_all(feeder: &mut Feeder, entries: &mut Vec<Entry>, most: usize) -> Option<()> {
    for _ in 0..=most {
        let Some(entry) = feeder.take() else {
            return Some(());
        };
        entries.push(entry).ok()?;
    }
    None
}

/// Feeds the octets in pieces of `len` octets until a fault, and takes entries after each piece if `is_taken` is set.
fn feed_pieces(
    feeder: &mut Feeder,
    entries: &mut Vec<Entry>,
    octets: &[u8],
    len: usize,
    is_taken: bool,
) -> Option<Result<(), FeedFault>> {
    for piece in octets.chunks(len.max(1)) {
        let end = feeder.feed(piece);
        if is_taken {
            take_all(feeder, entries, octets.len())?;
        }
        if end.is_err() {
            return Some(end);
        }
    }
    Some(feeder.finish())
}

/// Feeds a new feeder in pieces of `len` octets. Returns the lines of the entries, and the fault.
fn fed(alloc: Global, octets: &[u8], len: usize) -> Option<(Vec<u8>, Result<(), FeedFault>)> {
    let mut feeder = Feeder::new(alloc);
    let mut entries = Vec::new(alloc);
    let end = feed_pieces(&mut feeder, &mut entries, octets, len, true);
    drop(feeder);
    Some((lines_of(alloc, entries)?, end?))
}

/// Feeds frames in pieces of `len` octets, and drops each entry. Returns the lines of the entries, and the fault.
fn framed(
    alloc: Global,
    frames: &mut Frames,
    octets: &[u8],
    len: usize,
) -> Option<(String, Result<(), FeedFault>)> {
    let mut text = String::new(alloc);
    for piece in octets.chunks(len.max(1)) {
        let mut rest = piece;
        for _ in 0..=piece.len() {
            match frames.feed_some(rest) {
                Ok(taken) => rest = rest.get(taken..)?,
                Err(fault) => return Some((text, Err(fault))),
            }
            let Some(entry) = frames.front() else {
                break;
            };
            push_view(&mut text, frames.dropped(), &entry).ok()?;
            frames.drop_front();
        }
    }
    Some((text, frames.finish()))
}

/// Returns whether a feeder and frames give these lines and this end for the octets in pieces of `len` octets.
fn ends_with(
    alloc: Global,
    octets: &[u8],
    len: usize,
    (lines, end): (&[u8], Result<(), FeedFault>),
) -> Option<bool> {
    let mut frames = Frames::new(alloc);
    let (lent, framed_end) = framed(alloc, &mut frames, octets, len)?;
    let (kept, fed_end) = fed(alloc, octets, len)?;
    Some(
        kept.as_slice() == lines && lent.as_bytes() == lines && fed_end == end && framed_end == end,
    )
}

/// Returns whether a feeder and frames report the fault again for the octets, a quiet mark and no octets, and at the
/// end after each; and whether frames have no entry at the front.
fn is_final(feeder: &mut Feeder, frames: &mut Frames, octets: &[u8], fault: FeedFault) -> bool {
    for more in [octets, &[0x51], &[]] {
        if feeder.feed(more) != Err(fault) || feeder.finish() != Err(fault) {
            return false;
        }
        if frames.feed_some(more) != Err(fault) || frames.finish() != Err(fault) {
            return false;
        }
        if frames.front().is_some() || frames.drop_front() {
            return false;
        }
    }
    true
}

/// Returns whether a fault stays after pieces of `len` octets, and whether the feeder still gives the entries before
/// it.
fn stays(
    alloc: Global,
    octets: &[u8],
    len: usize,
    (lines, fault): (&[u8], FeedFault),
) -> Option<bool> {
    let mut frames = Frames::new(alloc);
    let (_, framed_end) = framed(alloc, &mut frames, octets, len)?;
    let mut feeder = Feeder::new(alloc);
    let mut entries = Vec::new(alloc);
    let fed_end = feed_pieces(&mut feeder, &mut entries, octets, len, false);
    let is_first = is_final(&mut feeder, &mut frames, octets, fault);
    let all = take_all(&mut feeder, &mut entries, octets.len());
    let is_still = is_final(&mut feeder, &mut frames, octets, fault);
    drop(feeder);
    let count = entries.len();
    let kept = lines_of(alloc, entries)?;
    all?;
    Some(
        framed_end == Err(fault)
            && fed_end? == Err(fault)
            && is_first
            && is_still
            && frames.dropped() == count
            && kept.as_slice() == lines,
    )
}

/// Returns whether the first `count` octets have this fault, and one octet less is a cut record, in pieces of each
/// size.
fn is_known_with(
    alloc: Global,
    octets: &[u8],
    count: usize,
    (lines, fault): (&[u8], FeedFault),
) -> Option<bool> {
    let known = octets.get(..count)?;
    let (_, cut) = known.split_last()?;
    let unknown = FeedFault {
        reason: FeedReason::CutRecord,
        place: cut.len() as u64,
    };
    for len in [1, 7, 1024] {
        if !ends_with(alloc, cut, len, (lines, Err(unknown)))?
            || !ends_with(alloc, known, len, (lines, Err(fault)))?
        {
            return Some(false);
        }
    }
    Some(true)
}

/// Returns whether `run_show` prints this text for a record, with the status that goes with the text.
fn is_shown(alloc: Global, octets: &[u8], wanted: &str) -> Option<bool> {
    let (printed, status) = shown(alloc, octets)?;
    let wanted_status = if wanted.contains("FAULT") { 3 } else { 0 };
    Some(printed.as_slice() == wanted.as_bytes() && status == wanted_status)
}

/// Looks at a row of `records`.
pub(crate) fn is_record(alloc: Global, octets: &[u8], lines: &str) -> Option<bool> {
    let lines = text_of(alloc, lines)?;
    for len in [1, 2, 3, 7, 16, 1024] {
        if !ends_with(alloc, octets, len, (lines.as_bytes(), Ok(())))? {
            return Some(false);
        }
    }
    is_shown(alloc, octets, &lines)
}

/// Looks at a row of `faulty records`.
pub(crate) fn is_faulty_record(
    alloc: Global,
    octets: &[u8],
    lines: &str,
    (number, place): (u8, u64),
    known: &str,
) -> Option<bool> {
    let lines = text_of(alloc, lines)?;
    let fault = fed(alloc, octets, octets.len())?.1.err()?;
    let wanted = (lines.as_bytes(), fault);
    for len in [1, 2, 7, 1024] {
        if !ends_with(alloc, octets, len, (wanted.0, Err(fault)))?
            || !stays(alloc, octets, len, wanted)?
        {
            return Some(false);
        }
    }
    let text = format!(in alloc; "{lines}FAULT {number} {place}\n").ok()?;
    Some(
        (fault.reason.number(), fault.place) == (number, place)
            && is_shown(alloc, octets, &text)?
            && (known == "-"
                || is_known_with(alloc, octets, known.parse::<usize>().ok()?, wanted)?),
    )
}

/// Returns whether the first `count` octets are a record if an entry ends there, and else a cut one. A reader that
/// fails there must give the same lines.
fn is_cut_at(alloc: Global, octets: &[u8], count: usize, is_end: bool) -> Option<bool> {
    let cut = octets.get(..count)?;
    let mut fault = FeedFault {
        reason: FeedReason::CutRecord,
        place: count as u64,
    };
    let wanted = if is_end { Ok(()) } else { Err(fault) };
    let (lines, _) = fed(alloc, cut, 1024)?;
    for len in [1, 7, 1024] {
        if !ends_with(alloc, cut, len, (&lines, wanted))? {
            return Some(false);
        }
    }
    let lines = str::from_utf8(&lines).ok()?;
    let end = format!(in alloc; "FAULT 21 {count}\n").ok()?;
    let printed = format!(in alloc; "{lines}{}", if is_end { "" } else { end.as_str() }).ok()?;
    fault.reason = FeedReason::Read;
    let read = read_record(alloc, &mut Failing::new(octets, count)).err();
    let mut writer = Counted::new(Vec::new(alloc));
    let status = run_show(alloc, &mut Failing::new(octets, count), &mut writer);
    let failed = format!(in alloc; "{lines}FAULT 23 {count}\n").ok()?;
    Some(
        is_shown(alloc, cut, &printed)?
            && read == Some(fault)
            && writer.into_inner().as_slice() == failed.as_bytes()
            && status.ok()?.number() == 3,
    )
}

/// Looks at a row of `cut records`.
pub(crate) fn is_cut_record(alloc: Global, octets: &[u8], ends: &str) -> Option<bool> {
    let mut next_ends = ends.split(' ');
    let mut end = next_ends.next()?.parse::<usize>().ok()?;
    for count in 0..=octets.len() {
        if !is_cut_at(alloc, octets, count, count == end)? {
            return Some(false);
        }
        if count == end && count < octets.len() {
            end = next_ends.next()?.parse::<usize>().ok()?;
        }
    }
    Some(next_ends.next().is_none())
}

/// Looks at a row of `failing writers`.
pub(crate) fn is_failing_writer(alloc: Global, octets: &[u8], wanted: &str) -> Option<bool> {
    let wanted = text_of(alloc, wanted)?;
    for count in 0..=wanted.len() {
        let mut writer = Failing::new(Vec::new(alloc), count);
        let answer = run_show(alloc, &mut Counted::new(octets), &mut writer);
        let taken = writer.into_inner();
        if answer.is_err() != (count < wanted.len())
            || wanted.as_bytes().get(..count) != Some(taken.as_slice())
        {
            return Some(false);
        }
    }
    Some(true)
}

/// Returns the state of frames: the counts of octets held, of octets taken and of entries dropped, and the end and
/// the place of the message at the front.
fn state_of(frames: &Frames) -> (usize, u64, usize, Option<(End, u64)>) {
    let front = match frames.front() {
        Some(
            EntryView {
                side: Some(side),
                place,
                body: BodyView::Good(_),
            },
        ) => Some((side, place)),
        _ => None,
    };
    (frames.buffered(), frames.taken(), frames.dropped(), front)
}

/// Looks at a row of `held entries`. Frames take the first entry in two pieces, and the second entry after the first
/// is dropped.
pub(crate) fn is_held(alloc: Global, first: &[u8], second: &str) -> Option<bool> {
    let second = octets_of(alloc, second)?;
    let (len, others) = (first.len(), second.len());
    let mut both = first.to_vec(alloc).ok()?;
    both.extend_from_slice(&second).ok()?;
    let mut frames = Frames::new(alloc);
    let is_begun = frames.feed_some(first.get(..5)?) == Ok(5)
        && !frames.drop_front()
        && state_of(&frames) == (5, 5, 0, None);
    let is_first = frames.feed_some(both.get(5..)?) == Ok(len.checked_sub(5)?)
        && frames.feed_some(&second) == Ok(0)
        && state_of(&frames) == (len, len as u64, 0, Some((End::A, 1)))
        && frames.finish() == Ok(());
    let is_dropped = frames.drop_front() && state_of(&frames) == (0, len as u64, 1, None);
    let place = (len as u64).checked_add(1)?;
    let is_second = frames.feed_some(&second) == Ok(others)
        && state_of(&frames) == (others, both.len() as u64, 1, Some((End::B, place)))
        && frames.drop_front()
        && state_of(&frames) == (0, both.len() as u64, 2, None);
    Some(is_begun && is_first && is_dropped && is_second)
}

/// Looks at a row of `entries in two feeds`. The entry is of end A.
pub(crate) fn is_fed_twice(alloc: Global, first: &[u8], second: &str, lines: &str) -> Option<bool> {
    let cut = FeedFault {
        reason: FeedReason::CutRecord,
        place: first.len() as u64,
    };
    let mut feeder = Feeder::new(alloc);
    let mut entries = Vec::new(alloc);
    let begun = feeder.feed(first);
    take_all(&mut feeder, &mut entries, 1)?;
    let is_begun = begun == Ok(()) && feeder.finish() == Err(cut) && entries.is_empty();
    let ended = feeder.feed(&octets_of(alloc, second)?);
    take_all(&mut feeder, &mut entries, 1)?;
    let is_ended = ended == Ok(()) && feeder.finish() == Ok(());
    drop(feeder);
    let is_first = match entries.as_slice() {
        [entry] => entry.side == Some(End::A) && entry.place == 1,
        _ => false,
    };
    let shown = lines_of(alloc, entries)?;
    let lines = text_of(alloc, lines)?;
    Some(is_begun && is_ended && is_first && shown.as_slice() == lines.as_bytes())
}
