//! The reasons why an end refuses a step.

ghost use Rattle.std.specs.Prelude.{◌≡◌};
ghost use Rattle.tcap_end.specs.declared.fault.EndFault.TheVariants as EndFault;
ghost use Rattle.tcap_end.specs.Fault.{fault_number};

use std::alloc::AllocError;

/// The reason why an end refuses a step.
#[derive(Clone, Copy, Debug, PartialEq, Eq)]
pub enum EndFault {
    /// No half has these transaction IDs; or the provider may not send this reply.
    NoTransaction,
    /// The transaction ID was used before.
    IdUsed,
    /// The half's phase does not allow the message; or the Abort has a cause, so that only a provider sends it.
    WrongPhase,
    /// The message may not carry this dialogue portion, or lacks one.
    WrongDialogue,
    /// The table does not have the operation.
    UnknownOperation,
    /// The invoke ID is in use.
    InvokeIdBusy,
    /// No invocation with this ID was received; or a Unidirectional carries a component other than an Invoke.
    NothingToAnswer,
    /// The operation's class does not allow this answer, or the table does not have the operation.
    ClassForbids,
    /// The answer is for another operation.
    WrongOperation,
    /// No received invocation with the linked ID allows this linked operation.
    BadLink,
    /// No received component may be rejected with this ID and problem.
    RejectNotAllowed,
    /// The invocation may not expire.
    CannotExpire,
    /// The half may not close.
    CannotClose,
    /// An operation in a Unidirectional is not of class 4.
    UniNotClass4,
    /// A half is still open.
    StillOpen,
    /// Memory ran out.
    Memory,
}

impl EndFault {
    /// Returns the number that the output prints for this reason.
    pub fn number(self) -> u8
        ensures { result ≡ fault_number self }
    {
        match self {
            EndFault::NoTransaction => 40,
            EndFault::IdUsed => 41,
            EndFault::WrongPhase => 42,
            EndFault::WrongDialogue => 43,
            EndFault::UnknownOperation => 44,
            EndFault::InvokeIdBusy => 45,
            EndFault::NothingToAnswer => 46,
            EndFault::ClassForbids => 47,
            EndFault::WrongOperation => 48,
            EndFault::BadLink => 49,
            EndFault::RejectNotAllowed => 50,
            EndFault::CannotExpire => 51,
            EndFault::CannotClose => 52,
            EndFault::UniNotClass4 => 53,
            EndFault::StillOpen => 54,
            EndFault::Memory => 99,
        }
    }
}

impl From<AllocError> for EndFault {
    ghost from_gives = { λ _ fault. fault ≡ EndFault.Memory };

    fn from(_: AllocError) -> EndFault {
        EndFault::Memory
    }
}
