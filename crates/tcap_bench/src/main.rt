//! A program for `make bench` and `make memory`, which works on standard input.
//!
//! Without a word it reads the messages there as views, in `ROUNDS` rounds, and prints how many it read. With `walk`
//! or `octets` it walks the element there, at once or one octet at a time, and prints its length summed over all
//! rounds. With `frames` or `frames-octets` it frames the record there, at once or one octet at a time, and prints
//! the number of its entries.
//!
//! With `feed` it feeds the record one octet at a time, and each octet once more if memory runs out. It prints how
//! many entries it took, how often memory ran out, and whether the record ended well. With `end` it gives the record
//! to one end, and prints how many entries that end took.
#![tactic(auto)]

mod ends;

ghost use Rattle.std.specs.Prelude.{◌≡◌};
ghost use Rattle.tcap_ber.specs.WalkResult.{outer_at};
ghost use Rattle.tcap_bench.specs.ElementLength.{whole_len};

use crate::ends::count_taken;
use std::alloc::Global;
use std::process::ExitCode;
use std::{env, io};
use tcap_ber::{Counted, Fault, Outer, Walk, outer, read_to_end};
use tcap_msg::view;
use tcap_record::{FeedReason, Feeder, Frames};

/// How often the octets are read.
const ROUNDS: u32 = 200;

/// Returns the number of consecutive messages in `octets`, up to the first fault or the end.
fn count_messages(octets: &[u8]) -> usize {
    let mut rest = octets;
    let mut count: usize = 0;
    while let Ok((_, len)) = view(rest) {
        rest = &rest[len..];
        count = count.saturating_add(1);
    }
    count
}

/// Returns the number of messages that were read in all rounds.
fn count_rounds(octets: &[u8]) -> usize {
    let mut count: usize = 0;
    for _ in 0..ROUNDS {
        count = count.saturating_add(count_messages(octets));
    }
    count
}

/// Returns the length of the element, or 0 if it is not whole.
fn whole_len(answer: Result<Outer, Fault>) -> usize
    ensures { result ≡ whole_len answer }
{
    match answer {
        Ok(Outer::Whole(len)) => len,
        _ => 0,
    }
}

/// Walks `octets` one at a time. Returns the length of the whole element at their front, or 0 if there is none.
fn count_walked(octets: &[u8]) -> usize
    ensures { result ≡ whole_len (outer_at octets.now) }
{
    let mut walk = Walk::new();
    let mut len = 0;
    let mut rest = octets;
    while !rest.is_empty() {
        let (octet, more) = rest.split_at(1);
        len = whole_len(walk.go_on(octet));
        rest = more;
    }
    len
}

/// Returns the length of the element at the front of `octets`, summed over all rounds.
fn count_walks(octets: &[u8], one_at_a_time: bool) -> usize {
    let mut count: usize = 0;
    for _ in 0..ROUNDS {
        let len = if one_at_a_time {
            count_walked(octets)
        } else {
            whole_len(outer(octets))
        };
        count = count.saturating_add(len);
    }
    count
}

/// Returns the number of entries of the record up to the first fault, framed at once or one octet at a time.
fn count_entries(alloc: Global, octets: &[u8], one_at_a_time: bool) -> usize {
    let mut frames = Frames::new(alloc);
    let len = if one_at_a_time {
        1
    } else {
        octets.len().max(1)
    };
    for piece in octets.chunks(len) {
        let mut rest = piece;
        for _ in 0..=piece.len() {
            let Ok(taken) = frames.feed_some(rest) else {
                break;
            };
            rest = &rest[taken..];
            if !frames.drop_front() {
                break;
            }
        }
    }
    frames.dropped()
}

/// Feeds the record one octet at a time, and each octet once more if memory runs out. Returns how many entries were
/// taken, how often memory ran out, and whether the record may end there.
fn feed_octets(alloc: Global, octets: &[u8]) -> (usize, usize, bool) {
    let mut feeder = Feeder::new(alloc);
    let mut taken: usize = 0;
    let mut failed: usize = 0;
    for octet in octets.chunks(1) {
        if feeder
            .feed(octet)
            .is_err_and(|fault| fault.reason == FeedReason::Memory)
        {
            failed = failed.saturating_add(1);
            let _ = feeder.feed(octet);
        }
        if feeder.take().is_some() {
            taken = taken.saturating_add(1);
        }
    }
    (taken, failed, feeder.finish().is_ok())
}

/// Returns the first word after the program's name, if there is one.
fn word(rt: &HostRuntime) -> io::Result<Option<String>> {
    let texts: Vec<String> = env::args(rt)?.collect(rt.alloc())?;
    let mut texts = texts.into_iter();
    texts.next();
    Ok(texts.next())
}

fn run(rt: &HostRuntime) -> io::Result<()> {
    let mut octets = Vec::new(rt.alloc());
    if read_to_end(&mut Counted::new(rt.reader()), &mut octets).is_err() {
        return Err(io::Error::from(io::ErrorKind::Other));
    }
    let count = match word(rt)? {
        Some(word) if word.as_str() == "walk" => count_walks(&octets, false),
        Some(word) if word.as_str() == "octets" => count_walks(&octets, true),
        Some(word) if word.as_str() == "frames" => count_entries(rt.alloc(), &octets, false),
        Some(word) if word.as_str() == "frames-octets" => count_entries(rt.alloc(), &octets, true),
        Some(word) if word.as_str() == "feed" => {
            let (taken, failed, ended) = feed_octets(rt.alloc(), &octets);
            return println!(rt; "{taken} {failed} {ended}");
        }
        Some(word) if word.as_str() == "end" => match count_taken(rt.alloc(), &octets) {
            Some(count) => count,
            None => return Err(io::Error::from(io::ErrorKind::OutOfMemory)),
        },
        _ => count_rounds(&octets),
    };
    println!(rt; "{count}")
}

fn main(rt: HostRuntime) -> ExitCode {
    match run(&rt) {
        Ok(()) => ExitCode::SUCCESS,
        Err(_) => ExitCode::FAILURE,
    }
}
