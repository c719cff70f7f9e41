//! Words for the reaction of an end to a malformed message of its peer.
//!
//! Each function that appends returns `AllocError` if memory runs out.

use crate::places::push_entry_place;
use std::alloc::{AllocError, Global};
use tcap_msg::MessageParts;
use tcap_readings::Way;
use tcap_record::{Body, End};
use tcap_traces::{Case, EndResult, JudgedDialogue, ReactionFault, Taken};

/// Returns the entry in which an end has this fault in its reaction.
pub(crate) fn fault_entry(fault: ReactionFault) -> u64 {
    match fault {
        ReactionFault::Wrong(at) => at.entry,
        ReactionFault::GoesOn { entry, .. } => entry,
    }
}

/// Returns the name of a way for programs.
pub(crate) fn way_name(way: Way) -> &'static str {
    match way {
        Way::Dropped => "dropped",
        Way::Closed => "closed",
        Way::InPart => "in part",
        Way::Rejected => "rejected",
        Way::Aborted => "aborted",
        Way::Refused => "refused",
    }
}

/// Appends how an end took a malformed message of its peer.
pub(crate) fn push_taken(
    alloc: Global,
    text: &mut String,
    case: &Case,
    taken: Taken,
) -> Result<(), AllocError> {
    let (before, after) = match taken.way {
        Way::Dropped => ("it discards ", ""),
        Way::Closed => ("its transaction ends with ", ""),
        Way::InPart => ("it takes the sound part of ", ""),
        Way::Rejected => ("it takes the sound part of ", ", and rejects the rest"),
        Way::Aborted => ("it answers ", ", with an Abort"),
        Way::Refused => ("it refuses the transaction of ", ", with an Abort"),
    };
    text.push_str(before)?;
    push_entry_place(alloc, text, case, taken.entry)?;
    text.push_str(", which is no message")?;
    text.push_str(after)
}

/// Returns the P-Abort cause of an entry, if it is an Abort with one.
fn cause_of(judged: &JudgedDialogue, entry: u64) -> Option<u8> {
    match &judged.record.entry_at(entry)?.body {
        Body::Good(message) => Some(message.cause()?.number),
        _ => None,
    }
}

/// Appends why an entry of an end is wrong no matter how it took the malformed message of its peer.
fn push_wrong(
    text: &mut String,
    judged: &JudgedDialogue,
    end: End,
    entry: u64,
) -> Result<(), AllocError> {
    let Some(cause) = cause_of(judged, entry) else {
        return text.push_str("its octets are no message");
    };
    write!(text, "cause {cause} answers no message of ")?;
    text.push_str(end.other().letter())?;
    text.push_str(", no matter how ")?;
    text.push_str(end.letter())?;
    text.push_str(" took the one that is malformed")
}

/// Appends why the reaction of an end is a fault.
pub(crate) fn push_reaction_fault(
    alloc: Global,
    text: &mut String,
    case: &Case,
    judged: &JudgedDialogue,
    end: End,
    fault: ReactionFault,
) -> Result<(), AllocError> {
    match fault {
        ReactionFault::GoesOn { answer, .. } => {
            text.push_str("it goes on in a transaction that it aborted with ")?;
            push_entry_place(alloc, text, case, answer)
        }
        ReactionFault::Wrong(at) => push_wrong(text, judged, end, at.entry),
    }
}

/// Appends why the reaction of an end is inconclusive.
pub(crate) fn push_unsure_reaction(
    alloc: Global,
    text: &mut String,
    case: &Case,
    said: EndResult,
) -> Result<(), AllocError> {
    match said {
        EndResult::SeveralMalformed(first, second) => {
            push_entry_place(alloc, text, case, first)?;
            text.push_str(" and ")?;
            push_entry_place(alloc, text, case, second)?;
            text.push_str(" are malformed; only one malformed message can be judged")
        }
        EndResult::UnlikelyAnswer(entry) => {
            text.push_str("it may have sent its part only if an Abort answers ")?;
            push_entry_place(alloc, text, case, entry)?;
            text.push_str(", which is no message; Q.774 names another answer, or the end goes on")
        }
        EndResult::UnclearReading(entry) => {
            text.push_str("by some way of taking ")?;
            push_entry_place(alloc, text, case, entry)?;
            text.push_str(", which is no message, it is open if it kept the rules")
        }
        EndResult::AsIfMessage(entry) => {
            text.push_str("it goes on as if ")?;
            push_entry_place(alloc, text, case, entry)?;
            text.push_str(" had been a message")
        }
        _ => Ok(()),
    }
}
