//! The names of reasons, and their meanings.

use tcap_check::Reason;
use tcap_end::EndFault;

/// Returns the name of a certificate's reason, and its meaning for the entry.
pub(crate) fn reason_words(reason: Reason) -> (&'static str, &'static str) {
    match reason {
        Reason::CertificateShape => ("CertificateShape", "the text is no certificate"),
        Reason::FateCount => ("FateCount", "there are not as many fates as entries"),
        Reason::FateRange => (
            "FateRange",
            "a fate, or what is listed, lies outside its gaps, or names an entry of another kind",
        ),
        Reason::OutOfOrder => (
            "OutOfOrder",
            "the message would come before an earlier one of its end",
        ),
        Reason::BadReply => (
            "BadReply",
            "the message can't be received or answered where it comes",
        ),
        Reason::SendRefused(_) => ("SendRefused", "its end may not send it there"),
        Reason::HiddenRefused(_) => (
            "HiddenRefused",
            "what is listed for it may not happen there",
        ),
        Reason::NotQuiet => ("NotQuiet", "not all is quiet at the mark"),
        Reason::BadMessage(_) => ("BadMessage", "its octets are no message"),
        Reason::NoItem => ("NoItem", "it is neither a message of an end nor a mark"),
        Reason::Memory => ("Memory", "memory ran out"),
    }
}

/// Returns the name of an end's reason, and its meaning.
pub(crate) fn fault_words(fault: EndFault) -> (&'static str, &'static str) {
    match fault {
        EndFault::NoTransaction => ("NoTransaction", "no half has its ID, or fits it"),
        EndFault::IdUsed => ("IdUsed", "its transaction ID is used"),
        EndFault::WrongPhase => ("WrongPhase", "the half is not in a phase for it"),
        EndFault::WrongDialogue => (
            "WrongDialogue",
            "its dialogue portion, or that it has none, does not fit",
        ),
        EndFault::UnknownOperation => ("UnknownOperation", "the table lacks an operation of it"),
        EndFault::InvokeIdBusy => ("InvokeIdBusy", "an invoke ID of it is in use"),
        EndFault::NothingToAnswer => (
            "NothingToAnswer",
            "it answers an invocation that is not there",
        ),
        EndFault::ClassForbids => (
            "ClassForbids",
            "the class of the operation does not allow that answer",
        ),
        EndFault::WrongOperation => ("WrongOperation", "it answers another operation"),
        EndFault::BadLink => (
            "BadLink",
            "a linked ID of it names nothing to which it may be linked",
        ),
        EndFault::RejectNotAllowed => ("RejectNotAllowed", "nothing there may be rejected so"),
        EndFault::CannotExpire => ("CannotExpire", "the invocation may not end unseen"),
        EndFault::CannotClose => ("CannotClose", "the half may not close unseen"),
        EndFault::UniNotClass4 => (
            "UniNotClass4",
            "an operation in a Unidirectional is not of class 4",
        ),
        EndFault::StillOpen => ("StillOpen", "a half is open"),
        EndFault::Memory => ("Memory", "memory ran out"),
    }
}
