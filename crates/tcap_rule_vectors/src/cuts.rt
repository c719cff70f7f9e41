//! Rows about how a record is cut into dialogues, and about the sound part of malformed messages.

use std::alloc::Global;
use std::collections::BTreeSet;
use std::fmt::Write;
use tcap_ber::Counted;
use tcap_dialogues::{CompleteDialogue, Cut, HeadingView, Reuse, sound_part};
use tcap_msg::{Kind, Message, TransactionId, encode};
use tcap_record::End;

/// Returns the kind of message that this letter means.
fn kind_of(letter: u8) -> Option<Kind> {
    match letter {
        b'u' => Some(Kind::Unidirectional),
        b'b' => Some(Kind::Begin),
        b'c' => Some(Kind::Continue),
        b'e' => Some(Kind::End),
        _ => None,
    }
}

/// Returns the transaction ID with this octet, or `None` for a dash.
fn id_of(letter: u8) -> Option<TransactionId> {
    if letter == b'-' {
        None
    } else {
        TransactionId::new(&[letter])
    }
}

/// Takes an entry, and returns whether it begins one more dialogue.
fn take(cut: &mut Cut, word: &str, done: &mut Vec<CompleteDialogue>) -> Option<bool> {
    let [sender, kind, from, to, rest @ ..] = word.as_bytes() else {
        return None;
    };
    let otid = id_of(*from);
    let dtid = id_of(*to);
    let heading = HeadingView {
        sender: if *sender == b'A' { End::A } else { End::B },
        kind: kind_of(*kind),
        otid: match &otid {
            Some(id) => Some(id.view()),
            None => None,
        },
        dtid: match &dtid {
            Some(id) => Some(id.view()),
            None => None,
        },
        under_way: matches!(rest, [b'w']),
        known: matches!(rest, [b'k']),
    };
    cut.take(heading, done).ok()
}

/// Appends the numbers of the entries of a dialogue, and of the earlier dialogue that had one of its IDs.
fn push_dialogue(text: &mut String, dialogue: &CompleteDialogue) -> Option<()> {
    for number in &dialogue.numbers {
        write!(text, "{number},").ok()?;
    }
    if let Some(earlier) = dialogue.earlier {
        write!(text, "!{earlier}").ok()?;
    }
    if dialogue.unsettled {
        text.push_str("?").ok()?;
    }
    text.push_str(" ").ok()
}

/// Appends the IDs from which an end sent.
fn push_sent(alloc: Global, text: &mut String, cut: &Cut, end: End) -> Option<()> {
    let mut ids = BTreeSet::new(alloc);
    cut.sent_from(end, &mut ids).ok()?;
    for id in &ids {
        for octet in id.octets() {
            text.push(char::from(*octet)).ok()?;
        }
    }
    Some(())
}

/// Returns the dialogues, the count of entries that begin one more dialogue, and the IDs from which the ends sent, with
/// semicolons between them.
fn text_of(alloc: Global, done: &[CompleteDialogue], begun: u64, sent: &str) -> Option<String> {
    let mut text = String::new(alloc);
    for dialogue in done {
        push_dialogue(&mut text, dialogue)?;
    }
    write!(text, ";{begun};{sent}").ok()?;
    Some(text)
}

/// Cuts a record of these entries into dialogues, and returns their text.
fn cut(alloc: Global, reuse: Reuse, entries: &str) -> Option<String> {
    let mut cut = Cut::new(alloc, reuse);
    let mut done = Vec::new(alloc);
    let mut begun = 0_u64;
    for word in entries.split(' ') {
        if take(&mut cut, word, &mut done)? {
            begun = begun.saturating_add(1);
        }
    }
    let mut sent = String::new(alloc);
    push_sent(alloc, &mut sent, &cut, End::A)?;
    sent.push_str("/").ok()?;
    push_sent(alloc, &mut sent, &cut, End::B)?;
    cut.finish(&mut done).ok()?;
    text_of(alloc, &done, begun, sent.as_str())
}

/// Checks a row of `cuts`: for how many entries IDs linger, or `once`; the entries; the dialogues; the count of entries
/// that begin one more dialogue; and the IDs from which A and from which B sent.
pub(crate) fn is_cut(alloc: Global, linger: &str, entries: &str, wanted: &[&str]) -> Option<bool> {
    let [dialogues, begun, sent] = wanted else {
        return None;
    };
    let reuse = match linger.parse::<u64>() {
        Ok(linger) => Reuse::Again(linger),
        Err(_) => Reuse::Once,
    };
    let text = cut(alloc, reuse, entries)?;
    let wanted = format!(in alloc; "{dialogues};{begun};{sent}").ok()?;
    Some(text == wanted)
}

/// Returns whether a message is written as these octets.
fn is_written(alloc: Global, message: &Message, digits: &str) -> Option<bool> {
    let mut writer = Counted::new(Vec::new(alloc));
    encode(message, &mut writer).ok()?;
    let wanted = hex::decode(alloc, digits).ok()?;
    Some(writer.into_inner().as_slice() == wanted.as_slice())
}

/// Returns whether an invoke ID has this text; a dash stands for none.
fn is_id(alloc: Global, id: Option<i8>, wanted: &str) -> Option<bool> {
    match id {
        Some(id) => Some(format!(in alloc; "{id}").ok()?.as_str() == wanted),
        None => Some(wanted == "-"),
    }
}

/// Checks a row of `sound parts`: octets; the message that is their sound part, as octets; and the invoke ID of the
/// malformed component. A dash stands for what is not there.
pub(crate) fn is_sound(alloc: Global, octets: &[u8], message: &str, id: &str) -> Option<bool> {
    match sound_part(alloc, octets).ok()? {
        Some(sound) => Some(
            is_written(alloc, &sound.message, message)? && is_id(alloc, sound.invoke_id, id)?,
        ),
        None => Some(message == "-" && id == "-"),
    }
}
