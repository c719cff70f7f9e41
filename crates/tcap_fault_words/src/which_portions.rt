//! Which fault it is, of the kinds of dialogue portions: F7 and F9 (Q.774 3.2, Q.773 4.2.3).
//!
//! Each function that returns a truth value returns whether it appended a sentence. Each returns `AllocError` if memory
//! runs out.

use crate::at_fault::{AtFault, Fact};
use crate::q773_names::{push_diagnostic, push_outcome};
use crate::sentence_parts::{DIALOGUE, form_words, push_end, push_id};
use std::alloc::AllocError;
use tcap_end::{accepts_dialogue, refuses_dialogue};
use tcap_msg::{Kind as Form, MessageParts};
use tcap_parts::{DialogueView, SourceView};

/// The result of an AARE that refuses.
const REJECTED: u8 = 1;

/// The greatest source of an ABRT that Q.773 4.2.3 defines.
const LAST_SOURCE: u8 = 1;

/// Appends the message in which a PDU goes, and the one in which it is.
fn push_place(text: &mut String, words: &str, at: &AtFault) -> Result<bool, AllocError> {
    text.push_str(words)?;
    text.push_str(" alone, and this is ")?;
    text.push_str(form_words(at.message.kind()))?;
    Ok(true)
}

/// Appends the result and the diagnostic of an AARE.
fn push_answer(
    text: &mut String,
    words: &str,
    outcome: u8,
    diagnostic: SourceView,
) -> Result<bool, AllocError> {
    text.push_str(words)?;
    push_outcome(text, outcome)?;
    text.push_str(" and ")?;
    push_diagnostic(text, diagnostic)?;
    Ok(true)
}

/// Appends what is wrong with an AARE in a Continue, an End or an Abort that answers an AARQ.
fn push_wrong_answer(
    text: &mut String,
    at: &AtFault,
    outcome: u8,
    diagnostic: SourceView,
) -> Result<bool, AllocError> {
    let words = match (at.message.kind(), outcome) {
        (Form::Abort, 0) =>
            "an AARE that accepts goes in a Continue or an End, and this one in an Abort has ",
        (Form::Abort, _) => "an AARE in an Abort is a refusal of the user, and this one has ",
        (_, REJECTED) => "a refusal goes in an Abort, and this AARE has ",
        _ => "an AARE that accepts has result 0 and diagnostic 0, and this one has ",
    };
    push_answer(text, words, outcome, diagnostic)
}

/// Appends what is wrong with an AARE in a message that may have one.
fn push_response(
    text: &mut String,
    at: &AtFault,
    outcome: u8,
    diagnostic: SourceView,
) -> Result<bool, AllocError> {
    if at.entries(Fact::PeerRequests).is_empty() {
        text.push_str("an AARE answers an AARQ, and ")?;
        push_end(text, at.end.other(), " had sent none from ")?;
        push_id(text, "", at.to())?;
        text.push_str(DIALOGUE)?;
        return Ok(true);
    }
    let portion = at.message.dialogue();
    let is_fine = match at.message.kind() {
        Form::Abort => refuses_dialogue(portion),
        _ => accepts_dialogue(portion),
    };
    if is_fine {
        return Ok(false);
    }
    push_wrong_answer(text, at, outcome, diagnostic)
}

/// Appends that the source of an ABRT is not defined, or that an ABRT goes in an Abort.
fn push_abort(text: &mut String, at: &AtFault, source: u8) -> Result<bool, AllocError> {
    if at.message.kind() != Form::Abort {
        return push_place(text, "an ABRT goes in an Abort", at);
    }
    if source <= LAST_SOURCE {
        return Ok(false);
    }
    write!(
        text,
        "the source {source} of the ABRT is neither 0 (dialogue-service-user)"
    )?;
    text.push_str(" nor 1 (dialogue-service-provider)")?;
    Ok(true)
}

/// Appends a sentence for F7.
pub(crate) fn push_misplaced(text: &mut String, at: &AtFault) -> Result<bool, AllocError> {
    match (at.message.kind(), at.message.dialogue()) {
        (_, None) => Ok(false),
        (_, Some(DialogueView::Request { .. })) => push_place(text, "an AARQ goes in a Begin", at),
        (_, Some(DialogueView::Uni { .. })) => {
            push_place(text, "an AUDT goes in a Unidirectional", at)
        }
        (_, Some(DialogueView::Abort { source, .. })) => push_abort(text, at, source.number),
        (Form::Begin, Some(DialogueView::Response { .. })) => {
            text.push_str("a Begin may have an AARQ alone, and this one has an AARE")?;
            Ok(true)
        }
        (Form::Unidirectional, Some(DialogueView::Response { .. })) => {
            text.push_str("a Unidirectional may have an AUDT alone, and this one has an AARE")?;
            Ok(true)
        }
        (
            _,
            Some(
                DialogueView::Response {
                    result,
                    diagnostic,
                    ..
                },
            ),
        ) => push_response(text, at, result.number, diagnostic),
    }
}

/// Appends that only the first answer may have an AARE, and the entry of that answer.
fn push_too_many(text: &mut String, at: &AtFault) -> Result<bool, AllocError> {
    let Some(number) = at.first(Fact::OutgoingContinues) else {
        return Ok(false);
    };
    text.push_str("only the first answer to a Begin may have an AARE, and that was entry ")?;
    write!(text, "{number}")?;
    Ok(true)
}

/// Appends a sentence for F9. An AARE that does not answer an AARQ is F7.
pub(crate) fn push_unfit(text: &mut String, at: &AtFault) -> Result<bool, AllocError> {
    match (at.message.kind(), at.message.dialogue()) {
        (Form::Continue | Form::End, None) => {
            text.push_str("an AARE is missing: this is the first answer to a Begin with an AARQ")?;
            if let Some(number) = at.first(Fact::PeerRequests) {
                write!(text, ", entry {number}")?;
            }
            Ok(true)
        }
        (_, Some(DialogueView::Response { .. })) => push_too_many(text, at),
        (Form::Abort, Some(DialogueView::Abort { .. })) => {
            text.push_str(
                "an ABRT of the user needs an AARQ, and the Begin of the transaction has none",
            )?;
            Ok(true)
        }
        _ => Ok(false),
    }
}
