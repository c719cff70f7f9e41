//! The commands in the heads of the rows, and the function that checks each row.

use crate::books::{are_names, is_added, is_book, is_carried, is_choice, long_book};
use crate::certificates::{
    are_refused, are_same, certificate_of, is_certificate, is_made, is_written,
};
use crate::cuts::{is_cut, is_sound};
use crate::dialogues::{are_verdicts, is_judged, is_trace, is_trace_verdict};
use crate::ends::{are_answered, are_texts, is_linked};
use crate::packing::{are_packed, lines_of};
use crate::records::{is_failing, is_first, is_left, is_said};
use crate::runs::{Question, is_answered, is_replayed};
use crate::tables::{are_classes, is_table, long_text};
use std::alloc::Global;
use tcap_vectors::octets_of;

/// Checks a row about a table or a book.
fn holds_of_table(alloc: Global, command: &str, columns: &[&str]) -> Option<bool> {
    match (command, columns) {
        ("[tables]", [text, wanted @ ..]) => is_table(alloc, text.as_bytes(), wanted),
        ("[tables of octets]", [digits, wanted @ ..]) => {
            is_table(alloc, &hex::decode(alloc, digits).ok()?, wanted)
        }
        ("[long tables]", [kind, count, wanted @ ..]) => {
            let text = long_text(alloc, kind, count.parse::<usize>().ok()?)?;
            is_table(alloc, text.as_bytes(), wanted)
        }
        ("[classes]", [text, codes @ ..]) => are_classes(alloc, text, codes),
        ("[books]", [text, wanted]) => is_book(alloc, text.as_bytes(), wanted),
        ("[books of octets]", [digits, wanted]) => {
            is_book(alloc, &hex::decode(alloc, digits).ok()?, wanted)
        }
        ("[long books]", [count, wanted]) => {
            let text = long_book(alloc, count.parse::<usize>().ok()?)?;
            is_book(alloc, text.as_bytes(), wanted)
        }
        ("[names]", [text, codes @ ..]) => are_names(alloc, text, codes),
        ("[choices]", [contexts, context, wanted]) => is_choice(alloc, contexts, context, wanted),
        ("[carried]", [context, wanted]) => is_carried(alloc, context, wanted),
        ("[added]", [first, second, wanted]) => is_added(alloc, first, second, wanted),
        _ => None,
    }
}

/// Checks a row about the text of a certificate.
fn holds_of_certificate(alloc: Global, command: &str, column: &str, wanted: &str) -> Option<bool> {
    let text = if command == "[certificates of octets]" {
        hex::decode(alloc, column).ok()?
    } else {
        certificate_of(alloc, column)?.into_bytes()
    };
    match command {
        "[certificates]" => is_certificate(alloc, &text, wanted),
        "[beginnings]" => are_refused(alloc, &text, wanted.parse::<usize>().ok()?),
        "[other octets]" => are_same(alloc, &text, wanted.parse::<usize>().ok()?),
        _ => is_written(alloc, &text, wanted),
    }
}

/// Checks a row about a record, a run, a certificate made by hand, a dialogue or a trace.
fn holds_of_verdict(alloc: Global, command: &str, columns: &[&str]) -> Option<bool> {
    match (command, columns) {
        ("[moves]", [asked @ .., wanted]) => is_answered(alloc, Question::Moves, asked, wanted),
        ("[runs]", [asked @ .., wanted]) => is_answered(alloc, Question::Run, asked, wanted),
        ("[runs so far]", [asked @ .., wanted]) => {
            is_answered(alloc, Question::Until, asked, wanted)
        }
        ("[pieces]", [len, asked @ .., wanted]) => {
            is_replayed(alloc, len.parse::<usize>().ok()?, asked, wanted)
        }
        ("[commands]", [asked @ .., wanted]) => is_said(alloc, asked, wanted),
        ("[left]", [asked @ .., wanted, left]) => {
            is_left(alloc, asked, wanted, left.parse::<usize>().ok()?)
        }
        ("[failing]", [asked @ .., wanted]) => is_failing(alloc, asked, wanted),
        ("[first faults]", [_, record, table, fact]) => is_first(alloc, record, table, fact),
        ("[packed lines]", [run, library, digits, lines]) => {
            are_packed(alloc, (run, library, digits), &lines_of(alloc, lines)?)
        }
        ("[packed octets]", [run, library, digits, octets]) => {
            are_packed(alloc, (run, library, digits), &octets_of(alloc, octets)?)
        }
        ("[made certificates]", [fate, component, gap, wanted]) => {
            let numbers = (component.parse::<u32>().ok()?, gap.parse::<u32>().ok()?);
            is_made(alloc, fate, numbers, wanted)
        }
        ("[cuts]", [linger, entries, wanted @ ..]) => is_cut(alloc, linger, entries, wanted),
        ("[sound parts]", [digits, message, id]) => {
            is_sound(alloc, &hex::decode(alloc, digits).ok()?, message, id)
        }
        ("[dialogues]", [asked @ .., a, b]) => is_judged(alloc, asked, a, b),
        ("[verdicts on dialogues]", [a, b, asked @ ..]) => are_verdicts(alloc, a, b, asked),
        ("[verdicts on traces]", [readable, worst, wanted]) => {
            is_trace_verdict(alloc, readable.parse::<u64>().ok()?, worst, wanted)
        }
        ("[traces]", [lines, book, wanted]) => is_trace(alloc, lines, book, wanted),
        _ => None,
    }
}

/// Returns whether a row of this command holds, and counts the calls in which memory runs out. Returns `None` if the
/// row cannot be read, the command is unknown, or memory runs out outside a call of `calls`.
pub(crate) fn holds(alloc: Global, command: &str, row: &str, failed: &mut usize) -> Option<bool> {
    let columns: Vec<&str> = row.split(';').collect(alloc).ok()?;
    match (command, columns.as_slice()) {
        ("[calls]", calls) => are_answered(alloc, calls, failed),
        ("[linked codes]", [first, number]) => is_linked(
            alloc,
            first.parse::<u32>().ok()?,
            number.parse::<u8>().ok()?,
        ),
        ("[texts for debugging]", [first, second, of_end, of_id]) => {
            are_texts(alloc, first, second, (of_end, of_id))
        }
        (
            "[certificates]"
            | "[certificates alone]"
            | "[certificates of octets]"
            | "[beginnings]"
            | "[other octets]",
            [column, wanted],
        ) => holds_of_certificate(alloc, command, column, wanted),
        (_, columns) => match holds_of_table(alloc, command, columns) {
            None => holds_of_verdict(alloc, command, columns),
            found => found,
        },
    }
}
