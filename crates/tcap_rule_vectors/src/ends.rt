//! Rows about one end: calls, and the expected results.

use crate::tables::table_of;
use std::alloc::Global;
use tcap_end::{EndFault, EndState, HalfName, Table};
use tcap_msg::{Message, MessageParts, TransactionId, decode, view};
use tcap_vectors::octets_of;

/// Returns the half with this name.
fn half_of(side: &str, octet: &str) -> Option<HalfName> {
    let id = TransactionId::new(&[octet.parse::<u8>().ok()?])?;
    match side {
        "own" => Some(HalfName::Own(id)),
        "peer" => Some(HalfName::Peer(id)),
        _ => None,
    }
}

/// Sends or receives a message, and returns the end's result.
fn moved<M: MessageParts>(
    table: &Table,
    end: &mut EndState,
    message: &M,
    is_sent: bool,
) -> Result<(), EndFault> {
    if is_sent {
        end.send(table, message)
    } else {
        end.receive(table, message)
    }
}

/// Sends or receives the message with this name, as a value or as a view of its octets.
fn moved_by_name(
    alloc: Global,
    end: &mut EndState,
    name: &str,
    is_sent: bool,
    as_value: bool,
) -> Option<Result<(), EndFault>> {
    let octets = octets_of(alloc, name)?;
    let table = table_of(alloc, "usual")?;
    let answered = match view(&octets) {
        Ok((message, _)) if !as_value => Some(moved(&table, end, &message, is_sent)),
        _ => match decode(alloc, &octets).ok() {
            Some((message, _)) => {
                let answered = moved(&table, end, &message, is_sent);
                drop(message);
                Some(answered)
            }
            None => None,
        },
    };
    drop(table);
    answered
}

/// Returns the result of `refuse_begin` or `refuse_continue` for views of two messages.
fn refused_views(
    end: &EndState,
    octets: &[u8],
    abort: &[u8],
    is_begin: bool,
) -> Option<Result<(), EndFault>> {
    let (message, _) = view(octets).ok()?;
    let (abort, _) = view(abort).ok()?;
    Some(if is_begin {
        end.refuse_begin(&message, &abort)
    } else {
        end.refuse_continue(&message, &abort)
    })
}

/// Returns the result of `refuse_begin` or `refuse_continue` for a message and the Abort of these octets, as values.
fn refused_value(
    alloc: Global,
    end: &EndState,
    message: &Message,
    abort: &[u8],
    is_begin: bool,
) -> Option<Result<(), EndFault>> {
    let (abort, _) = decode(alloc, abort).ok()?;
    let answered = if is_begin {
        end.refuse_begin(message, &abort)
    } else {
        end.refuse_continue(message, &abort)
    };
    drop(abort);
    Some(answered)
}

/// Returns the result of `refuse_begin` or `refuse_continue` for two messages as values.
fn refused_values(
    alloc: Global,
    end: &EndState,
    octets: &[u8],
    abort: &[u8],
    is_begin: bool,
) -> Option<Result<(), EndFault>> {
    let (message, _) = decode(alloc, octets).ok()?;
    let answered = refused_value(alloc, end, &message, abort, is_begin);
    drop(message);
    answered
}

/// Returns the result of `refuse_begin` or `refuse_continue` for the messages with these names, as values or as views
/// of their octets.
fn refused_by_name(
    alloc: Global,
    end: &EndState,
    names: (&str, &str),
    is_begin: bool,
    as_value: bool,
) -> Option<Result<(), EndFault>> {
    let octets = octets_of(alloc, names.0)?;
    let abort = octets_of(alloc, names.1)?;
    if as_value {
        refused_values(alloc, end, &octets, &abort, is_begin)
    } else {
        refused_views(end, &octets, &abort, is_begin)
    }
}

/// Closes a half, or expires an invocation on it, and returns the end's result.
fn internal(
    alloc: Global,
    end: &mut EndState,
    table: &str,
    half: HalfName,
    invoke: Option<i8>,
) -> Option<Result<(), EndFault>> {
    let table = table_of(alloc, table)?;
    let answered = match invoke {
        Some(invoke) => end.expire(&table, half, invoke),
        None => end.close(&table, half),
    };
    drop(table);
    Some(answered)
}

/// Makes a call, and returns the number of its result, 0 for success, and the expected number.
fn answer(alloc: Global, end: &mut EndState, row: &str, as_value: bool) -> Option<(u8, u8)> {
    let mut words = row.split(' ');
    let wanted = words.next()?.parse::<u8>().ok()?;
    let call = words.next()?;
    let answered = match call {
        "send" | "receive" => moved_by_name(alloc, end, words.next()?, call == "send", as_value)?,
        "refuse_begin" | "refuse_continue" => {
            let names = (words.next()?, words.next()?);
            refused_by_name(alloc, end, names, call == "refuse_begin", as_value)?
        }
        "expire" => {
            let table = words.next()?;
            let half = half_of(words.next()?, words.next()?)?;
            let invoke = words.next()?.parse::<i8>().ok()?;
            internal(alloc, end, table, half, Some(invoke))?
        }
        "close" => {
            let table = words.next()?;
            internal(
                alloc,
                end,
                table,
                half_of(words.next()?, words.next()?)?,
                None,
            )?
        }
        "quiet" => end.quiet(),
        _ => return None,
    };
    match answered {
        Ok(()) => Some((0, wanted)),
        Err(fault) => Some((fault.number(), wanted)),
    }
}

/// Makes these calls on an end, and returns whether each has the expected result. A call in which memory runs out is
/// counted and made again.
fn made_on(
    alloc: Global,
    end: &mut EndState,
    calls: &[&str],
    as_values: bool,
    failed: &mut usize,
) -> Option<bool> {
    let mut is_wanted = true;
    for call in calls {
        let (mut number, wanted) = answer(alloc, end, call, as_values)?;
        if number == EndFault::Memory.number() {
            *failed = failed.saturating_add(1);
            number = answer(alloc, end, call, as_values)?.0;
        }
        is_wanted = is_wanted && number == wanted;
    }
    Some(is_wanted)
}

/// Checks a row of `calls`, on views of messages and on messages as values. Returns `None` if a call cannot be read, or
/// memory runs out outside a call.
pub(crate) fn are_answered(alloc: Global, calls: &[&str], failed: &mut usize) -> Option<bool> {
    for as_values in [false, true] {
        let mut end = EndState::new(alloc);
        let is_wanted = made_on(alloc, &mut end, calls, as_values, failed);
        drop(end);
        if !is_wanted? {
            return Some(false);
        }
    }
    Some(true)
}

/// Returns the text of a table with two operations: 48, and 50, to which 1,000 operations from `first` on are linked.
fn table_of_many(alloc: Global, first: u32) -> Option<String> {
    let mut text = format!(in alloc;
        "{{\"operations\":[{{\"class\":4,\"code\":48}},{{\"class\":1,\"code\":50,\"linked\":[{first}"
    ).ok()?;
    for code in first.saturating_add(1)..first.saturating_add(1_000) {
        write!(text, ",{code}").ok()?;
    }
    text.push_str("]}]}").ok()?;
    Some(text)
}

/// Checks a row of `linked codes`: an end receives an Invoke of 50, and sends a linked Invoke of 48.
pub(crate) fn is_linked(alloc: Global, first: u32, wanted: u8) -> Option<bool> {
    let table = table_of(alloc, &table_of_many(alloc, first)?)?;
    let begin = octets_of(alloc, "begin_with_invoke_of_50")?;
    let continued = octets_of(alloc, "continue_with_linked_invoke")?;
    let (begin, _) = view(&begin).ok()?;
    let (continued, _) = view(&continued).ok()?;
    let mut end = EndState::new(alloc);
    let received = end.receive(&table, &begin);
    let sent = end.send(&table, &continued);
    drop(end);
    drop(table);
    let number = match sent {
        Ok(()) => 0,
        Err(fault) => fault.number(),
    };
    Some(received == Ok(()) && number == wanted)
}

/// Checks a row of `texts for debugging`: the text of an end that receives the first message and sends the second, and
/// the text of the ID 0102.
pub(crate) fn are_texts(
    alloc: Global,
    first: &str,
    second: &str,
    texts: (&str, &str),
) -> Option<bool> {
    let table = table_of(alloc, "usual")?;
    let begin = octets_of(alloc, first)?;
    let (begin, _) = view(&begin).ok()?;
    let answer = octets_of(alloc, second)?;
    let (answer, _) = view(&answer).ok()?;
    let mut end = EndState::new(alloc);
    let received = end.receive(&table, &begin);
    let sent = end.send(&table, &answer);
    let text = format!(in alloc; "{end:?}");
    drop(end);
    drop(table);
    let id = TransactionId::new(&[1, 2])?;
    Some(
        received == Ok(())
            && sent == Ok(())
            && text.ok()?.as_str() == texts.0
            && format!(in alloc; "{id:?}").ok()?.as_str() == texts.1,
    )
}
