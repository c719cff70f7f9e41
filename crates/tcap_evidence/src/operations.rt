//! The invocations on whose operations and links a fault depends (Q.771 3.1, Q.774 3.2).

ghost use Rattle.std.specs.Prelude.{◌≡◌, ◌++◌, IfOk, OnOk, Some, option_map};
ghost use Rattle.std.specs.List.{flat_map};
ghost use Rattle.tcap_parts.specs.Meaning.{component_of};
ghost use Rattle.tcap_msg.specs.Parts.{components_in};
ghost use Rattle.tcap_evidence.specs.NumberedMessages.{numbered_of};
ghost use Rattle.tcap_evidence.specs.Operations.{answers, invocation_in, invocations_in, rejects_answer};

use crate::sent::Sent;
use std::alloc::{AllocError, Global};
use tcap_msg::MessageParts;
use tcap_parts::{Code, ComponentView, ProblemView};

/// An Invoke of the invoke ID in question.
#[derive(Debug, Drop)]
pub struct Invocation {
    /// The number of its entry.
    pub entry: u64,
    /// The operation.
    pub code: Code,
    /// The linked ID, if the Invoke has one.
    pub linked: Option<i8>,
}

/// Returns whether a component is an answer.
pub(crate) fn is_answer(component: Option<ComponentView>) -> bool
    ensures { result ≡ answers (option_map component_of component.entry) }
{
    matches!(
        component,
        Some(ComponentView::ReturnResult { .. } | ComponentView::ReturnError { .. })
    )
}

/// Returns whether a component is a Reject of an answer.
pub(crate) fn rejects_answer(component: Option<ComponentView>) -> bool
    ensures { result ≡ rejects_answer (option_map component_of component.entry) }
{
    matches!(
        component,
        Some(ComponentView::Reject {
            problem: ProblemView::ReturnResult(_) | ProblemView::ReturnError(_),
            ..
        })
    )
}

/// Appends a component of entry `number`, if it is an Invoke of this ID.
fn push_invoke(
    alloc: Global,
    invocations: &mut Vec<Invocation>,
    number: u64,
    id: i8,
    component: ComponentView,
) -> Result<(), AllocError>
    ensures { OnOk result (invocations.new.items
        ≡ invocations.old.items ++ invocation_in id number (component_of component.entry)) }
{
    match component {
        ComponentView::Invoke {
            id: other,
            linked,
            code,
            ..
        } if other == id => {
            let code = code.to_code(alloc)?;
            invocations.push(Invocation {
                entry: number,
                code,
                linked,
            })?;
            Ok(())
        }
        _ => Ok(()),
    }
}

/// Appends the Invokes of this ID in a message.
fn push_invokes(
    alloc: Global,
    invocations: &mut Vec<Invocation>,
    one: Sent,
    id: i8,
) -> Result<(), AllocError>
    ensures { OnOk result (invocations.new.items ≡ invocations.old.items
        ++ flat_map (invocation_in id one.entry.number) (components_in one.entry.message.now)) }
{
    for component in one.message.components() {
        push_invoke(alloc, invocations, one.number, id, component)?;
    }
    Ok(())
}

/// Returns the Invokes of this ID in these messages.
pub(crate) fn invocations_in(
    alloc: Global,
    sent: &[Sent],
    id: i8,
) -> Result<Vec<Invocation>, AllocError>
    ensures { IfOk result (λ v. v.items ≡ invocations_in (Some id) (numbered_of sent.now)) }
{
    let mut invocations = Vec::new(alloc);
    for one in sent {
        push_invokes(alloc, &mut invocations, *one, id)?;
    }
    Ok(invocations)
}
