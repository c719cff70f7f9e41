//! Words for results and doubts.
//!
//! Each function that returns `AllocError` does so if memory runs out.

use crate::reaction_words::push_unsure_reaction;
use crate::used_again::push_used_again;
use std::alloc::{AllocError, Global};
use std::collections::BTreeSet;
use tcap_msg::TransactionId;
use tcap_record::{End, push_hex};
use tcap_traces::{Case, Doubt, EndResult, NextItem};

/// The words for a dialogue that may have begun before its trace.
const UNDER_WAY: &str =
    "its first message goes to an ID that was never sent in the trace: dialogues may have been under way when it began";

/// Appends that the quiet mark before a dialogue may have come too early, and the ID that suggests it.
fn push_early_mark(text: &mut String, case: &Case) -> Result<(), AllocError> {
    text.push_str("the quiet mark before this dialogue may have come too early")?;
    let Some(in_use) = &case.in_use else {
        return Ok(());
    };
    text.push_str(": ID ")?;
    push_hex(text, in_use.id.octets())?;
    text.push_str(" of ")?;
    text.push_str(in_use.end.letter())?;
    text.push_str(" was in use before it")
}

/// Appends that an earlier dialogue had an ID of this one, and which dialogue.
fn push_came_again(text: &mut String, case: &Case) -> Result<(), AllocError> {
    text.push_str(
        "an ID of the dialogue was one of an earlier one, of which a message may have been under way",
    )?;
    if !case.rules.settled {
        text.push_str(" (--ids settled says that none was)")?;
    }
    let Some(earlier) = case.earlier() else {
        return Ok(());
    };
    let number = case.number();
    write!(
        text,
        "; this is dialogue {number}, and that was dialogue {earlier}"
    )
}

/// Appends what makes a blame inconclusive.
pub(crate) fn push_doubt(
    alloc: Global,
    text: &mut String,
    case: &Case,
    doubt: Doubt,
) -> Result<(), AllocError> {
    match doubt {
        Doubt::EarlyMark => push_early_mark(text, case)?,
        Doubt::CameAgain => push_came_again(text, case)?,
        _ => text.push_str(doubt_words(doubt))?,
    }
    push_used_again(alloc, text, case)
}

/// Appends that this many messages of the peer are unheard in the run that was found.
fn push_unheard(text: &mut String, unheard: u64) -> Result<(), AllocError> {
    write!(text, "in the run that was found, {unheard} ")?;
    text.push_str(if unheard == 1 {
        "message of its peer is unheard"
    } else {
        "messages of its peer are unheard"
    })?;
    text.push_str("; another run may have fewer")
}

/// Appends why an end is undecided. `said` is neither a pass nor a blame.
pub(crate) fn push_said(
    alloc: Global,
    text: &mut String,
    case: &Case,
    said: EndResult,
) -> Result<(), AllocError> {
    match said {
        EndResult::EarlyMark => push_early_mark(text, case)?,
        EndResult::Open if case.is_marked() => text.push_str(
            "the dialogue is open at the quiet mark after it",
        )?,
        EndResult::Unheard(unheard) => push_unheard(text, unheard)?,
        EndResult::SeveralMalformed(..)
        | EndResult::UnlikelyAnswer(_)
        | EndResult::UnclearReading(_)
        | EndResult::AsIfMessage(_) => push_unsure_reaction(alloc, text, case, said)?,
        _ => text.push_str(undecided_words(said))?,
    }
    push_used_again(alloc, text, case)
}

/// Returns the words for a doubt, or no words if they differ from dialogue to dialogue.
fn doubt_words(doubt: Doubt) -> &'static str {
    match doubt {
        Doubt::UnderWay => UNDER_WAY,
        Doubt::AtMark => "the trace's quiet mark is the bench's word, and it may stand too early",
        Doubt::LackingOperation => "the table lacks the operation",
        Doubt::MaybeOver =>
            "the transaction of the ID that is begun again may have been given up or may have ended in silence",
        Doubt::UnsureTable =>
            "it is of what the table says, and it is not sure that this is the table of the dialogue: it has no Begin, or its Begins ask for different contexts",
        Doubt::UsedBefore =>
            "dialogues may have been under way before this one, and its peer, which began it, may have used its ID in one of them (if stacks do not use an ID again at once, say --ids settled)",
        Doubt::Unread => "an entry before it can't be read, and may have been one of this dialogue",
        Doubt::EarlyMark | Doubt::CameAgain => "",
    }
}

/// Returns the words for an undecided end, or no words if they differ from dialogue to dialogue.
fn undecided_words(said: EndResult) -> &'static str {
    match said {
        EndResult::Undecided =>
            "it is not found how it can have sent its part, and no entry of it is blamed",
        EndResult::AfterBadEntry(_) =>
            "is no message that is judged, and is its own or stands before others of its own",
        EndResult::TooLong =>
            "the dialogue has more than 100,000 entries, and of those nothing is blamed",
        EndResult::UnderWay => UNDER_WAY,
        EndResult::UnsureTable =>
            "by this table it may have sent its part, and it is not sure that this is the table of the dialogue",
        EndResult::Open => "the dialogue is open at the end of its trace",
        _ => "",
    }
}

/// Appends the line of a hint, if there is one.
pub(crate) fn push_hint(text: &mut String, hint: Option<&str>) -> Result<(), AllocError> {
    let Some(hint) = hint else {
        return Ok(());
    };
    text.push_str("  hint: ")?;
    text.push_str(hint)?;
    text.push_str("\n")
}

/// Returns the IDs of an end.
pub(crate) fn ids_of(case: &Case, end: End) -> &BTreeSet<TransactionId> {
    match end {
        End::A => &case.gathered.a,
        End::B => &case.gathered.b,
    }
}

/// Appends the IDs of an end, each after a space.
pub(crate) fn push_ids(text: &mut String, case: &Case, end: End) -> Result<(), AllocError> {
    for id in ids_of(case, end) {
        text.push_str(" ")?;
        push_hex(text, id.octets())?;
    }
    Ok(())
}

/// Returns the line number of an entry of a dialogue, or of the quiet mark after it; 0 if there is none.
pub(crate) fn line_of(case: &Case, entry: u64) -> u64 {
    match case.entries.get(entry as usize) {
        Some(held) => held.line,
        None => match case.next {
            NextItem::Mark { line, .. } => line,
            _ => 0,
        },
    }
}

/// Returns the comment above an entry, as text.
pub(crate) fn comment_of(alloc: Global, case: &Case, entry: u64) -> Result<String, AllocError> {
    match case.entries.get(entry as usize) {
        Some(held) => String::from_utf8_lossy(alloc, &held.comment),
        None => Ok(String::new(alloc)),
    }
}
