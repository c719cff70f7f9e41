//! Command lines with a word that is not text.

use std::env::Env;
use std::str;

/// The most octets of a word that the system takes.
const LONGEST: usize = 131_072;

/// Returns the number of the first word after the program's name that is not text, counted from 1.
fn no_text(rt: &HostRuntime) -> Option<usize> {
    let mut room = Vec::new(rt.alloc());
    room.resize(LONGEST, 0u8).ok()?;
    for number in 1..usize::MAX {
        let Ok(len) = rt.arg(number, &mut room) else {
            return None;
        };
        if str::from_utf8(&room[..len]).is_err() {
            return Some(number);
        }
    }
    None
}

/// Reports on standard error which word is not text.
pub(crate) fn report_no_text(rt: &HostRuntime) {
    let _ = match no_text(rt) {
        Some(number) => eprintln!(rt; "error: a word of the command is not text: word {number}"),
        None => eprintln!(rt; "error: a word of the command is not text"),
    };
}
