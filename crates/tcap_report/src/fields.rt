//! Fields of JSON objects: sums, and numbers that may be missing.

use crate::sum::Counts;
use std::alloc::AllocError;

/// Appends the field `name` and a comma, if there is a number.
pub(crate) fn push_some(
    json: &mut String,
    name: &str,
    number: Option<i64>,
) -> Result<(), AllocError> {
    match number {
        Some(number) => write!(json, "\"{name}\":{number},"),
        None => Ok(()),
    }
}

/// Appends an object with the number of each verdict.
pub(crate) fn push_verdicts(json: &mut String, counts: &Counts) -> Result<(), AllocError> {
    let Counts {
        pass,
        inconc,
        fail,
        error,
        ..
    } = *counts;
    write!(json, "{{\"pass\":{pass},\"inconc\":{inconc},")?;
    write!(json, "\"fail\":{fail},\"error\":{error}}}")
}

/// Appends the numbers of messages, of dialogues by verdict, and of dialogues that pass unheard or unanswered.
pub(crate) fn push_sums(
    json: &mut String,
    messages: u64,
    dialogues: &Counts,
    unheard: u64,
) -> Result<(), AllocError> {
    write!(json, ",\"messages\":{messages},\"dialogues\":")?;
    push_verdicts(json, dialogues)?;
    write!(json, ",\"unheard\":{unheard}")
}
