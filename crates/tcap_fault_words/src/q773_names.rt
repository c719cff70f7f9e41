//! The names of numbers in Q.773: causes, problems, results and diagnostics.
//!
//! Each function that returns `AllocError` does so if memory runs out.

use std::alloc::AllocError;
use tcap_parts::{ProblemView, SourceView};

/// The words for a number that Q.773 does not define.
const UNDEFINED: &str = "not in Q.773";

/// Returns the name of the cause of an Abort (Q.773 4.2.1).
fn name_of_cause(number: u8) -> &'static str {
    match number {
        0 => "unrecognized message type",
        1 => "unrecognized transaction ID",
        2 => "badly formatted transaction portion",
        3 => "incorrect transaction portion",
        4 => "resource limitation",
        _ => UNDEFINED,
    }
}

/// Returns the name of a general problem (Q.773 4.2.2).
fn name_of_general(number: u8) -> &'static str {
    match number {
        0 => "unrecognizedComponent",
        1 => "mistypedComponent",
        2 => "badlyStructuredComponent",
        _ => UNDEFINED,
    }
}

/// Returns the name of an invoke problem (Q.773 4.2.2).
fn name_of_invoke(number: u8) -> &'static str {
    match number {
        0 => "duplicateInvokeID",
        1 => "unrecognizedOperation",
        2 => "mistypedParameter",
        3 => "resourceLimitation",
        4 => "initiatingRelease",
        5 => "unrecognizedLinkedID",
        6 => "linkedResponseUnexpected",
        7 => "unexpectedLinkedOperation",
        _ => UNDEFINED,
    }
}

/// Returns the name of a return result problem (Q.773 4.2.2).
fn name_of_result(number: u8) -> &'static str {
    match number {
        0 => "unrecognizedInvokeID",
        1 => "returnResultUnexpected",
        2 => "mistypedParameter",
        _ => UNDEFINED,
    }
}

/// Returns the name of a return error problem (Q.773 4.2.2).
fn name_of_error(number: u8) -> &'static str {
    match number {
        0 => "unrecognizedInvokeID",
        1 => "returnErrorUnexpected",
        2 => "unrecognizedError",
        3 => "unexpectedError",
        4 => "mistypedParameter",
        _ => UNDEFINED,
    }
}

/// Returns the name of the result of an AARE (Q.773 4.2.3).
fn name_of_outcome(number: u8) -> &'static str {
    match number {
        0 => "accepted",
        1 => "reject-permanent",
        _ => UNDEFINED,
    }
}

/// Returns the name of a diagnostic of the user (Q.773 4.2.3).
fn name_of_user_diagnostic(number: u8) -> &'static str {
    match number {
        0 => "null",
        1 => "no-reason-given",
        2 => "application-context-name-not-supported",
        _ => UNDEFINED,
    }
}

/// Returns the name of a diagnostic of the provider (Q.773 4.2.3).
fn name_of_provider_diagnostic(number: u8) -> &'static str {
    match number {
        0 => "null",
        1 => "no-reason-given",
        2 => "no-common-dialogue-portion",
        _ => UNDEFINED,
    }
}

/// Appends words, a number and its name.
fn push_number(text: &mut String, words: &str, number: u8, name: &str) -> Result<(), AllocError> {
    text.push_str(words)?;
    write!(text, " {number} (")?;
    text.push_str(name)?;
    text.push_str(")")
}

/// Appends the cause of an Abort.
pub(crate) fn push_cause(text: &mut String, number: u8) -> Result<(), AllocError> {
    push_number(text, "cause", number, name_of_cause(number))
}

/// Appends the problem of a Reject.
pub(crate) fn push_problem(text: &mut String, problem: ProblemView) -> Result<(), AllocError> {
    match problem {
        ProblemView::General(small) => {
            push_number(
                text,
                "general problem",
                small.number,
                name_of_general(small.number),
            )
        }
        ProblemView::Invoke(small) => {
            push_number(
                text,
                "invoke problem",
                small.number,
                name_of_invoke(small.number),
            )
        }
        ProblemView::ReturnResult(small) => {
            push_number(
                text,
                "return result problem",
                small.number,
                name_of_result(small.number),
            )
        }
        ProblemView::ReturnError(small) => {
            push_number(
                text,
                "return error problem",
                small.number,
                name_of_error(small.number),
            )
        }
    }
}

/// Appends the result of an AARE.
pub(crate) fn push_outcome(text: &mut String, number: u8) -> Result<(), AllocError> {
    push_number(text, "result", number, name_of_outcome(number))
}

/// Appends the diagnostic of an AARE, with its source.
pub(crate) fn push_diagnostic(text: &mut String, diagnostic: SourceView) -> Result<(), AllocError> {
    match diagnostic {
        SourceView::User(small) => push_number(
            text,
            "user diagnostic",
            small.number,
            name_of_user_diagnostic(small.number),
        ),
        SourceView::Provider(small) => push_number(
            text,
            "provider diagnostic",
            small.number,
            name_of_provider_diagnostic(small.number),
        ),
    }
}
