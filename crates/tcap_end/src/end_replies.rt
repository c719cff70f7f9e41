//! The replies of a provider to a message that it cannot deliver (Q.774 3.3, abnormal procedures).

ghost use Rattle.std.specs.Prelude.{◌≡◌};
ghost use Rattle.tcap_end.specs.declared.fault.EndFault.TheVariants as EndFault;
ghost use Rattle.tcap_end.specs.Step.{needs};
ghost use Rattle.tcap_end.specs.End.{with_own};
ghost use Rattle.tcap_end.specs.Reply.{aborts, is_open, refuse_begin, refuse_continue};
ghost use Rattle.tcap_end.specs.ReachableEnd.{IsEnd};
ghost use Rattle.tcap_end.specs.Halves.{IsHeld, end_of};

use crate::fault::EndFault;
use crate::half::Slot;
use crate::halves::Halves;
use tcap_msg::{Kind, MessageParts, TransactionIdView};

/// The P-Abort cause that answers a Continue if no transaction has its destination ID (Q.773 4.2.1).
const UNRECOGNIZED_TRANSACTION_ID: u8 = 1;

/// The P-Abort cause that answers a Begin if resources are short (Q.773 4.2.1).
const RESOURCE_LIMITATION: u8 = 4;

/// Returns whether a message is an Abort with this cause to this transaction ID.
fn aborts<A: MessageParts>(cause: u8, id: TransactionIdView, abort: &A) -> bool
    ensures { result ≡ aborts cause id.entry.octets.now (A.meaning abort.now) }
{
    match (abort.cause(), abort.dtid()) {
        (Some(number), Some(dtid)) => number.number == cause && id.octets == dtid.octets,
        _ => false,
    }
}

/// Returns Ok if the condition holds, else the reason why a provider may not send the reply.
fn needs(so: bool) -> Result<(), EndFault>
    ensures { result ≡ needs so EndFault.NoTransaction }
{
    if so {
        Ok(())
    } else {
        Err(EndFault::NoTransaction)
    }
}

/// Checks whether the provider may answer a Begin with this Abort.
pub(crate) fn refuse_begin<B: MessageParts, A: MessageParts>(
    halves: &Halves,
    begin: &B,
    abort: &A,
) -> Result<(), EndFault>
    requires held { IsHeld halves.now }
    requires sound { IsEnd (end_of halves.now) }
    ensures { result ≡ refuse_begin (end_of halves.now) (B.meaning begin.now) (A.meaning abort.now) }
{
    match (begin.kind(), begin.otid()) {
        (Kind::Begin, Some(otid)) => {
            needs(aborts(RESOURCE_LIMITATION, otid, abort))?;
            needs(halves.with_id(Slot::Accepted, otid).is_none())
        }
        _ => Err(EndFault::NoTransaction),
    }
}

/// Checks whether the provider may answer a Continue with this Abort.
pub(crate) fn refuse_continue<C: MessageParts, A: MessageParts>(
    halves: &Halves,
    continued: &C,
    abort: &A,
) -> Result<(), EndFault>
    requires held { IsHeld halves.now }
    requires sound { IsEnd (end_of halves.now) }
    ensures { result ≡ refuse_continue (end_of halves.now) (C.meaning continued.now) (A.meaning abort.now) }
{
    match (continued.kind(), continued.otid(), continued.dtid()) {
        (Kind::Continue, Some(otid), Some(dtid)) => {
            needs(aborts(UNRECOGNIZED_TRANSACTION_ID, otid, abort))?;
            needs(!has_open(halves, dtid))
        }
        _ => Err(EndFault::NoTransaction),
    }
}

/// Returns whether an open half has this own transaction ID.
fn has_open(halves: &Halves, id: TransactionIdView) -> bool
    requires held { IsHeld halves.now }
    requires sound { IsEnd (end_of halves.now) }
    ensures { result ≡ is_open (with_own (end_of halves.now) id.entry.octets.now) }
{
    match halves.with_id(Slot::Begun, id) {
        Some(found) => halves.half(&found).is_some(),
        None => false,
    }
}
