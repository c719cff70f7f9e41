//! Owned messages (Q.773 4.2.1).

ghost use Rattle.std.specs.Prelude.{◌≡◌, ◌≢◌, ℕ, ◌++◌, List, length, Ok, Err, IfOk};
ghost use Rattle.tcap_msg.specs.declared.message.DecodeFault.{DecodeFault};
ghost use Rattle.tcap_msg.specs.Decode.{Decodes, IfRefused};
ghost use Rattle.tcap_ber.specs.declared.fault.Fault.{Fault};
ghost use Rattle.tcap_ber.specs.declared.fault.Reason.{Reason};
ghost use Rattle.tcap_msg.specs.Message.{Spells, BeginsWithMessage, BeginsNoMessage, IsNeverMessage, IsFaulty};
ghost use Rattle.tcap_msg.specs.Reading.{message_at};

use crate::transaction_id::TransactionId;
use crate::views::view;
use std::alloc::{AllocError, Global};
use tcap_ber::{Fault, Small};
use tcap_parts::{Dialogue, Portion};

/// A message.
#[derive(Debug, Drop)]
pub enum Message {
    /// A Unidirectional: its dialogue portion and its component portion.
    Unidirectional {
        dialogue: Option<Dialogue>,
        components: Portion,
    },
    /// A Begin: its originating transaction ID, its dialogue portion and its component portion.
    Begin {
        otid: TransactionId,
        dialogue: Option<Dialogue>,
        components: Option<Portion>,
    },
    /// A Continue: its originating and destination transaction IDs, its dialogue portion and its component portion.
    Continue {
        otid: TransactionId,
        dtid: TransactionId,
        dialogue: Option<Dialogue>,
        components: Option<Portion>,
    },
    /// An End: its destination transaction ID, its dialogue portion and its component portion.
    End {
        dtid: TransactionId,
        dialogue: Option<Dialogue>,
        components: Option<Portion>,
    },
    /// An Abort: its destination transaction ID and its reason.
    Abort {
        dtid: TransactionId,
        reason: Option<AbortReason>,
    },
}

/// The reason of an Abort (Q.773 4.2.1).
#[derive(Debug, Drop)]
pub enum AbortReason {
    /// A P-Abort cause, from the transaction sub-layer.
    Cause(Small),
    /// A dialogue portion.
    Dialogue(Dialogue),
}

/// Why octets were not decoded.
#[derive(Clone, Copy, Debug, PartialEq, Eq)]
pub enum DecodeFault {
    /// The octets do not begin with a message. This is the first fault from left to right.
    Fault(Fault),
    /// Memory ran out.
    Memory,
}

impl From<Fault> for DecodeFault {
    ghost from_gives = { λ fault made. made ≡ DecodeFault.Fault fault };

    fn from(fault: Fault) -> DecodeFault {
        DecodeFault::Fault(fault)
    }
}

impl From<AllocError> for DecodeFault {
    ghost from_gives = { λ _ made. made ≡ DecodeFault.Memory };

    fn from(_: AllocError) -> DecodeFault {
        DecodeFault::Memory
    }
}

fn read(alloc: Global, octets: &[u8]) -> Result<(Message, usize), DecodeFault>
    ensures exact { Decodes result (message_at octets.now) }
{
    let (message, len) = view(octets)?;
    Ok((message.own(alloc)?, len))
}

/// Reads the message at the front of `octets` into an owned value. Returns it and its length in octets. The message is
/// the whole outer element; octets after it are ignored.
///
/// # Errors
///
/// The faults of [`view`], and `Memory` if memory runs out.
pub fn decode(alloc: Global, octets: &[u8]) -> Result<(Message, usize), DecodeFault>
    // On success, the octets at the front spell the message.
    ensures found { IfOk result (λ x. BeginsWithMessage x.0 x.1 octets.now) }
    // A message that the front spells is read, unless memory runs out.
    ensures only { (m : Message) (front rest : List ℕ) → Spells m front → octets.now ≡ front ++ rest
        → Decodes result (Ok (m, length front)) }
    // A fault that is returned is there, and a fault that is there is returned, unless memory runs out.
    ensures faulty { IfRefused result (λ fault. IsFaulty octets.now fault.reason fault.place) }
    ensures refused { (fault : Fault) → IsFaulty octets.now fault.reason fault.place → Decodes result (Err fault) }
    // Refused octets begin with no message.
    ensures none { IfRefused result (λ fault. BeginsNoMessage octets.now) }
    // Unless the fault is `Cut`, they never will, no matter what follows.
    ensures never { IfRefused result (λ fault. fault.reason ≢ Reason.Cut → IsNeverMessage octets.now) }
    // The result as one function of the octets.
    ensures exact { Decodes result (message_at octets.now) }
{
    read(alloc, octets)
}
