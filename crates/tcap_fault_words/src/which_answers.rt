//! Which fault it is, of the kinds of answers and Rejects: F5, F12 and F13 (Q.774 3.2).
//!
//! Each function that returns a truth value returns whether it appended a sentence. Each returns `AllocError` if memory
//! runs out.

use crate::at_fault::{AtFault, Fact, Wanted};
use crate::q773_names::push_problem;
use crate::sentence_parts::{
    TRANSACTION, form_words, is_taken, push_before, push_end, push_none_in, push_short, push_taken,
};
use std::alloc::AllocError;
use tcap_evidence::Invocation;
use tcap_msg::{Kind as Form, MessageParts};
use tcap_parts::{ComponentView, ProblemView};

/// The greatest problems that Q.773 4.2.2 defines for an Invoke, a Return Result and a Return Error.
const LAST_OF_INVOKE: u8 = 7;

const LAST_OF_RESULT: u8 = 2;

const LAST_OF_ERROR: u8 = 4;

/// The problem of an answer that is not expected.
const UNEXPECTED: u8 = 1;

// ---- F5

/// Appends that a component is in a message that comes first.
fn push_in_first(
    text: &mut String,
    at: &AtFault,
    what: &str,
    words: &str,
) -> Result<bool, AllocError> {
    text.push_str(what)?;
    text.push_str(" is in ")?;
    text.push_str(form_words(at.message.kind()))?;
    text.push_str(words)?;
    Ok(true)
}

/// Appends that the peer did not invoke this ID.
fn push_not_invoked(text: &mut String, at: &AtFault, id: i8) -> Result<bool, AllocError> {
    write!(text, "invoke ID {id} is not one that ")?;
    push_end(text, at.end.other(), " had invoked")?;
    push_none_in(text, at, TRANSACTION, Wanted::Invoke(id))?;
    Ok(true)
}

/// Appends what a problem rejects, and that the peer sent none of it.
fn push_rejects_none(
    text: &mut String,
    at: &AtFault,
    problem: ProblemView,
    id: i8,
) -> Result<bool, AllocError> {
    let (words, wanted) = match problem {
        ProblemView::General(_) => return push_readable(text, at, Some(id), problem),
        ProblemView::Invoke(_) => (" rejects an Invoke of ", Wanted::Invoke(id)),
        ProblemView::ReturnResult(_) => (" rejects a Return Result of ", Wanted::ReturnResult(id)),
        ProblemView::ReturnError(_) => (" rejects a Return Error of ", Wanted::ReturnError(id)),
    };
    push_problem(text, problem)?;
    text.push_str(words)?;
    write!(text, "{id}, and ")?;
    push_end(text, at.end.other(), " had sent none")?;
    push_none_in(text, at, TRANSACTION, wanted)?;
    Ok(true)
}

/// Appends that a Reject has a general problem or no invoke ID, though all that the peer sent can be read.
fn push_readable(
    text: &mut String,
    at: &AtFault,
    id: Option<i8>,
    problem: ProblemView,
) -> Result<bool, AllocError> {
    push_problem(text, problem)?;
    match id {
        Some(_) => text.push_str(" rejects what can't be read, and ")?,
        None => text.push_str(" without an invoke ID rejects what can't be read, and ")?,
    }
    text.push_str("all that ")?;
    push_end(
        text,
        at.end.other(),
        " had sent in this dialogue can be read",
    )?;
    Ok(true)
}

/// Appends a sentence for F5.
pub(crate) fn push_answers_nothing(
    text: &mut String,
    at: &AtFault,
    component: ComponentView,
) -> Result<bool, AllocError> {
    let is_first = matches!(at.message.kind(), Form::Begin | Form::Unidirectional);
    match component {
        ComponentView::Invoke { .. } => Ok(false),
        ComponentView::Reject { .. } if is_first => {
            push_in_first(text, at, "a Reject", ", which can reject nothing")
        },
        _ if is_first => push_in_first(text, at, "an answer", ", which can answer nothing"),
        ComponentView::ReturnResult { id, .. } | ComponentView::ReturnError { id, .. } => {
            push_not_invoked(text, at, id)
        }
        ComponentView::Reject {
            id: Some(id),
            problem,
        } => { push_rejects_none(text, at, problem, id) }
        ComponentView::Reject { id: None, problem } => push_readable(text, at, None, problem),
    }
}

// ---- F12

/// Appends that the only invocation of an ID was answered or rejected before.
fn push_once(
    text: &mut String,
    at: &AtFault,
    id: i8,
    invocation: &Invocation,
) -> Result<bool, AllocError> {
    write!(text, "invocation {id} of ")?;
    push_short(text, at.table, invocation.code.view())?;
    push_taken(text, at)?;
    Ok(true)
}

/// Appends a sentence for F12.
pub(crate) fn push_answered_again(text: &mut String, at: &AtFault) -> Result<bool, AllocError> {
    let Some(id) = at.found.id else {
        return Ok(false);
    };
    if let Some(only) = at.only_invocation() {
        if is_taken(at) {
            return push_once(text, at, id, only);
        }
    }
    let count = at.found.invocations.len();
    if count == 0 {
        push_end(text, at.end, " can't have received an Invoke of ")?;
        write!(text, "{id} in this transaction")?;
        return Ok(true);
    }
    if count == 1 {
        return Ok(false);
    }
    write!(
        text,
        "with it, more answers or Rejects of {id} were sent than its {count} invocations allow"
    )?;
    Ok(true)
}

// ---- F13

/// Appends that the number of a problem is over the greatest one.
fn push_over(text: &mut String, problem: ProblemView, last: u8) -> Result<bool, AllocError> {
    push_problem(text, problem)?;
    write!(text, " is greater than {last}, the last")?;
    Ok(true)
}

/// Appends that a duplicate was rejected, and how often the ID was received and rejected as one before.
fn push_duplicate(
    text: &mut String,
    at: &AtFault,
    problem: ProblemView,
    id: i8,
) -> Result<bool, AllocError> {
    let (invokes, rejects) = (at.count(Fact::Invokes), at.count(Fact::OwnDuplicateRejects));
    if rejects < usize::saturating_sub(invokes, 1) {
        return Ok(false);
    }
    push_problem(text, problem)?;
    if invokes == 1 {
        write!(text, " rejects the second Invoke of {id}, and ")?;
        push_end(text, at.end, " had received one in this transaction")?;
        return Ok(true);
    }
    let times = rejects.saturating_add(1);
    write!(text, " is in {times} Rejects of {id}, and ")?;
    push_end(text, at.end, " had received ")?;
    write!(
        text,
        "{invokes} Invokes of it in this transaction, the first of which is no duplicate"
    )?;
    Ok(true)
}

/// Returns words on the linked Invokes of an ID, if none has the problem `number`. They follow on the letter of the end
/// that received them.
fn link_words(number: u8, linked: usize, rejects: usize) -> &'static str {
    if linked == 0 {
        " had received no linked one"
    } else if rejects >= linked {
        " had rejected each linked one in this way already"
    } else {
        match number {
            6 => " had received none that is linked to an operation that lists none",
            7 => " had received none that is linked to an operation that lists only others",
            _ => "",
        }
    }
}

/// Appends what is wrong with a Reject of a link.
fn push_of_link(
    text: &mut String,
    at: &AtFault,
    problem: ProblemView,
    number: u8,
    id: i8,
) -> Result<bool, AllocError> {
    let words = link_words(
        number,
        at.count(Fact::LinkedInvokes),
        at.count(Fact::OwnLinkRejects),
    );
    if words.is_empty() {
        return Ok(false);
    }
    push_problem(text, problem)?;
    write!(
        text,
        " rejects the link of an Invoke of {id}, and in this transaction "
    )?;
    push_end(text, at.end, words)?;
    Ok(true)
}

/// Appends what is wrong with a Reject of an Invoke.
fn push_of_invoke(
    text: &mut String,
    at: &AtFault,
    problem: ProblemView,
    number: u8,
    id: i8,
) -> Result<bool, AllocError> {
    match number {
        0 => push_duplicate(text, at, problem, id),
        1..=4 => Ok(false),
        5..=7 => push_of_link(text, at, problem, number, id),
        _ => push_over(text, problem, LAST_OF_INVOKE),
    }
}

/// A Reject of an answer.
#[derive(Clone, Copy)]
struct AnswerReject<'a> {
    problem: ProblemView,
    /// The number of the problem, and the greatest one that Q.773 4.2.2 defines.
    number: u8,
    last: u8,
    /// The sort of the answer, with its article, and its invoke ID.
    what: &'static str,
    id: i8,
    /// The number of such answers that were received, and the entries of their Rejects before this one.
    answers: usize,
    rejects: &'a [u64],
}

/// Appends the problem, and what it rejects.
fn push_rejected(text: &mut String, reject: &AnswerReject) -> Result<(), AllocError> {
    let id = reject.id;
    push_problem(text, reject.problem)?;
    text.push_str(" rejects ")?;
    text.push_str(reject.what)?;
    write!(text, " of {id}")
}

/// Appends that the end had invoked nothing under the ID of an answer. Then the answer is of an unrecognized ID, and no
/// class or operation makes it wrong.
fn push_never_invoked(
    text: &mut String,
    at: &AtFault,
    reject: &AnswerReject,
) -> Result<bool, AllocError> {
    let id = reject.id;
    push_rejected(text, reject)?;
    text.push_str(", and ")?;
    push_end(text, at.end, " had invoked no ")?;
    write!(text, "{id}")?;
    text.push_str(TRANSACTION)?;
    Ok(true)
}

/// Appends that an answer is not unexpected, with the operation if there is only one invocation.
fn push_expected(
    text: &mut String,
    at: &AtFault,
    reject: &AnswerReject,
) -> Result<bool, AllocError> {
    push_rejected(text, reject)?;
    match at.only_invocation() {
        Some(only) => {
            text.push_str(" that the class of ")?;
            push_short(text, at.table, only.code.view())?;
            text.push_str(" allows")?;
        }
        None => text.push_str(" that the classes of its invocations allow")?,
    }
    Ok(true)
}

/// Appends that all such answers were rejected before, or that there were none.
fn push_one_too_many(
    text: &mut String,
    at: &AtFault,
    reject: &AnswerReject,
) -> Result<bool, AllocError> {
    push_rejected(text, reject)?;
    match (reject.answers, reject.rejects) {
        (0, _) => text.push_str(", and none had been received in this transaction")?,
        (1, [only]) => {
            push_before(text, at, " that was rejected already, by the Reject", *only)?;
        }
        _ => text.push_str(", and each that had been received was rejected already")?,
    }
    Ok(true)
}

/// Appends what is wrong with a Reject of an answer.
fn push_of_answer(
    text: &mut String,
    at: &AtFault,
    reject: &AnswerReject,
) -> Result<bool, AllocError> {
    if reject.number > reject.last {
        return push_over(text, reject.problem, reject.last);
    }
    if reject.rejects.len() >= reject.answers {
        return push_one_too_many(text, at, reject);
    }
    match reject.number {
        0 => Ok(false),
        _ if at.found.invocations.is_empty() => push_never_invoked(text, at, reject),
        UNEXPECTED => push_expected(text, at, reject),
        _ => {
            push_rejected(text, reject)?;
            text.push_str(", and the class of no invocation of it allows one")?;
            Ok(true)
        }
    }
}

/// Returns the Reject of a Return Result or a Return Error.
fn reject_of<'a>(at: &AtFault<'a>, problem: ProblemView, number: u8, id: i8) -> AnswerReject<'a> {
    let is_result = matches!(problem, ProblemView::ReturnResult(_));
    let (answers, rejects) = if is_result {
        (at.count(Fact::Results), at.entries(Fact::OwnResultRejects))
    } else {
        (at.count(Fact::Errors), at.entries(Fact::OwnErrorRejects))
    };
    AnswerReject {
        problem,
        number,
        last: if is_result {
            LAST_OF_RESULT
        } else {
            LAST_OF_ERROR
        },
        what: if is_result {
            "a Return Result"
        } else {
            "a Return Error"
        },
        id,
        answers,
        rejects,
    }
}

/// Appends a sentence for F13.
pub(crate) fn push_rejects_wrongly(
    text: &mut String,
    at: &AtFault,
    component: ComponentView,
) -> Result<bool, AllocError> {
    let ComponentView::Reject {
        id: Some(id),
        problem,
    } = component
    else {
        return Ok(false);
    };
    match problem {
        ProblemView::General(_) => Ok(false),
        ProblemView::Invoke(small) => push_of_invoke(text, at, problem, small.number, id),
        ProblemView::ReturnResult(small) | ProblemView::ReturnError(small) => {
            push_of_answer(text, at, &reject_of(at, problem, small.number, id))
        }
    }
}
