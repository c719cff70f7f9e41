ghost use Rattle.std.specs.Prelude.{◌≡◌, ◌≢◌, Ok, Err, IfOk, IfErr};
ghost use Rattle.tcap_end.specs.declared.fault.EndFault.TheVariants as EndFault;
ghost use Rattle.tcap_end.specs.End.{End, nothing};
ghost use Rattle.tcap_end.specs.Message.{receive, send};

use std::alloc::Global;
use tcap_end::{EndFault, EndState, Table};
use tcap_msg::Message;

/// Returns the state of an end after it sends its first message.
///
/// # Errors
///
/// The first reason why the end may not send the message, or `Memory`.
pub fn first_sent(alloc: Global, table: &Table, message: &Message) -> Result<EndState, EndFault>
    // The state is that after the step that `send` defines.
    ensures sent { IfOk result (λ end. send table.now nothing message.now ≡ Ok end) }
    // The reason is that of `send`, unless memory ran out.
    ensures refused { IfErr result (λ reason. reason ≢ EndFault.Memory
        → send table.now nothing message.now ≡ Err reason) }
{
    let mut end = EndState::new(alloc);
    end.send(table, message)?;
    Ok(end)
}

/// Returns the state of an end after it receives its first message and sends this answer.
///
/// # Errors
///
/// The first reason why the end may not do so, or `Memory`.
pub fn answered(
    alloc: Global,
    table: &Table,
    received: &Message,
    answer: &Message,
) -> Result<EndState, EndFault>
    // The state is that after the steps that `receive` and `send` define.
    ensures answers { IfOk result (λ end. (heard : End) × (receive table.now nothing received.now ≡ Ok heard)
        × (send table.now heard answer.now ≡ Ok end)) }
{
    let mut end = EndState::new(alloc);
    end.receive(table, received)?;
    end.send(table, answer)?;
    Ok(end)
}
