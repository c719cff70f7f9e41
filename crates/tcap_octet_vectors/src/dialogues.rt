//! Looks at dialogue portions: read and written alone, and in each kind of message.

use crate::messages::is_message;
use std::alloc::Global;
use tcap_ber::{Counted, Window};
use tcap_parts::{len_dialogue, view_dialogue, write_dialogue};
use tcap_vectors::octets_of;

/// Messages with room for a dialogue portion: the words before and after it, the line before its text, and the lines
/// of the components.
const AROUND: &str = r"
61( 6b(;) 6c05a203020101 );Unidirectional;  ReturnResultLast id=1\n
62( 480101 6b(;) 6c05a203020101 );Begin otid=01;  ReturnResultLast id=1\n
64( 490101 6b(;) );End dtid=01;
65( 480102 490101 6b(;) );Continue otid=02 dtid=01;
67( 490101 6b(;) );Abort dtid=01;";

/// Writes the content of a dialogue portion again. Returns `None` if the count of octets is not what `len_dialogue`
/// gives.
fn portion_again(alloc: Global, content: &[u8]) -> Option<Vec<u8>> {
    let mut writer = Counted::new(Vec::new(alloc));
    let dialogue = view_dialogue(Window::new(content)).ok()?;
    let len = len_dialogue(dialogue)?;
    write_dialogue(dialogue, &mut writer).ok()?;
    let octets = writer.into_inner();
    if octets.len() == len {
        Some(octets)
    } else {
        None
    }
}

/// Looks at a row of `dialogue portions`.
pub(crate) fn is_dialogue_portion(
    alloc: Global,
    content: &str,
    text: &str,
    written: &str,
) -> Option<bool> {
    let octets = octets_of(alloc, content)?;
    if portion_again(alloc, &octets)? != octets_of(alloc, written)? {
        return Some(false);
    }
    for message in AROUND.lines().skip(1) {
        let columns: Vec<&str> = message.split(';').collect(alloc).ok()?;
        let [before, after, head, components] = columns.as_slice() else {
            return None;
        };
        let octets = octets_of(
            alloc,
            &format!(in alloc; "{before} {content} {after}").ok()?,
        )?;
        let wanted = format!(in alloc; "{before} {written} {after}").ok()?;
        let lines = format!(in alloc; "0 A {head} {text}\\n{components}").ok()?;
        if !is_message(alloc, &octets, &wanted, &lines)? {
            return Some(false);
        }
    }
    Some(true)
}
