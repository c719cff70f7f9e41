//! The components that a Unidirectional may carry (Q.774 3.2, component sub-layer).

ghost use Rattle.std.specs.Prelude.{◌≡◌, []};
ghost use Rattle.tcap_parts.specs.Meaning.{component_of, components_left};
ghost use Rattle.tcap_end.specs.Step.{AnswersInMemory};
ghost use Rattle.tcap_end.specs.Message.{send_uni_components};

use crate::class::reports_neither;
use crate::fault::EndFault;
use crate::table::Table;
use std::alloc::Global;
use std::collections::BTreeMap;
use tcap_parts::{ComponentView, Components};

/// Checks the components of a Unidirectional that is sent: only Invokes without linked IDs, of operations of class 4
/// (Q.771), each with a new invoke ID. Returns the first fault, or `Memory`.
pub(crate) fn check_components(
    alloc: Global,
    table: &Table,
    components: Components,
) -> Result<(), EndFault>
    ensures step { AnswersInMemory (send_uni_components table.now [] (components_left components.entry)) result tt }
{
    let mut used = BTreeMap::new(alloc);
    for component in components {
        let ComponentView::Invoke {
            id,
            linked,
            code,
            ..
        } = component
        else {
            return Err(EndFault::NothingToAnswer);
        };
        let Some(class) = table.class_of(code) else {
            return Err(EndFault::UnknownOperation);
        };
        if !reports_neither(class) {
            return Err(EndFault::UniNotClass4);
        }
        if used.contains_key(&id) {
            return Err(EndFault::InvokeIdBusy);
        }
        if linked.is_some() {
            return Err(EndFault::BadLink);
        }
        if used.insert(id, ()).is_err() {
            return Err(EndFault::Memory);
        }
    }
    Ok(())
}
