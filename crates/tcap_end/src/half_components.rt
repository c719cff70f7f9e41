//! How the components of a message change a half, one by one. If one may not be sent, or memory runs out, the half is
//! unchanged.

ghost use Rattle.std.specs.Prelude.{◌≡◌, OnErr};
ghost use Rattle.tcap_parts.specs.Meaning.{component_of, components_left};
ghost use Rattle.tcap_end.specs.Step.{AnswersInMemory};
ghost use Rattle.tcap_end.specs.Message.{active_half};
ghost use Rattle.tcap_end.specs.ComponentSteps.{component_by, components_by, direction_of};
ghost use Rattle.tcap_end.specs.HalfState.{StillUndoes, half_of, other_id, with_other_id};

use crate::changes::Changes;
use crate::fault::EndFault;
use crate::half::{Phase, Slot};
use crate::half_state::HalfState;
use crate::table::Table;
use std::alloc::Global;
use tcap_msg::TransactionId;
use tcap_parts::{ComponentView, Components};

/// Whether components are sent or received.
#[derive(Clone, Copy, Debug, PartialEq, Eq)]
pub(crate) enum Direction {
    Out,
    In,
}

impl Slot {
    /// Returns the direction of the Continue that answers a half's Begin: received if the half sent the Begin, sent if
    /// it received it.
    pub(crate) fn way(self) -> Direction
        ensures { result ≡ direction_of self }
    {
        match self {
            Slot::Begun => Direction::In,
            Slot::Accepted => Direction::Out,
        }
    }
}

impl HalfState {
    /// Sends or receives a component, and notes the changes.
    fn step_component(
        &mut self,
        alloc: Global,
        changes: &mut Changes,
        table: &Table,
        way: Direction,
        component: ComponentView,
    ) -> Result<(), EndFault>
        ensures step { AnswersInMemory (component_by way table.now (half_of self.old) (component_of component.entry))
            result (half_of self.new) }
        ensures undoes { StillUndoes changes.old self.old changes.new self.new }
        ensures slot { self.new.slot ≡ self.old.slot }
    {
        match way {
            Direction::Out => self.send_component(alloc, changes, table, component),
            Direction::In => {
                self.receive_component(alloc, changes, table, component)?;
                Ok(())
            }
        }
    }

    /// Sends or receives components, and notes the changes.
    fn step_noted(
        &mut self,
        alloc: Global,
        changes: &mut Changes,
        table: &Table,
        way: Direction,
        components: Components,
    ) -> Result<(), EndFault>
        ensures step { AnswersInMemory (components_by way table.now (half_of self.old)
            (components_left components.entry))
            result (half_of self.new) }
        ensures undoes { StillUndoes changes.old self.old changes.new self.new }
        ensures slot { self.new.slot ≡ self.old.slot }
    {
        for component in components {
            self.step_component(alloc, changes, table, way, component)?;
        }
        Ok(())
    }

    /// Sends or receives components. On a fault, or if memory runs out, the half is unchanged.
    pub(crate) fn step_components(
        &mut self,
        changes: &mut Changes,
        table: &Table,
        way: Direction,
        components: Components,
    ) -> Result<(), EndFault>
        ensures step { AnswersInMemory (components_by way table.now (half_of self.old)
            (components_left components.entry))
            result (half_of self.new) }
        ensures kept { OnErr result (half_of self.new ≡ half_of self.old) }
        ensures slot { self.new.slot ≡ self.old.slot }
    {
        changes.clear();
        let alloc = changes.alloc();
        match self.step_noted(alloc, changes, table, way, components) {
            Ok(()) => {
                self.settle(changes);
                changes.clear();
                Ok(())
            }
            Err(fault) => {
                self.undo_all(changes);
                changes.clear();
                Err(fault)
            }
        }
    }

    /// Replaces the transaction ID that is not the half's key, and returns the earlier one. It is the peer's ID if the
    /// half's end sent the Begin, else the half's own ID.
    fn put_other_id(&mut self, id: Option<TransactionId>) -> Option<TransactionId>
        ensures put { half_of self.new ≡ with_other_id self.old.slot id (half_of self.old) }
        ensures was { result ≡ other_id self.old.slot (half_of self.old) }
        ensures slot { self.new.slot ≡ self.old.slot }
    {
        match self.slot {
            Slot::Begun => std::mem::replace(&mut self.peer, id),
            Slot::Accepted => std::mem::replace(&mut self.own, id),
        }
    }

    /// Sends or receives the components of the Continue that answers the half's Begin. The half becomes active and
    /// gets this ID.
    pub(crate) fn activate(
        &mut self,
        changes: &mut Changes,
        table: &Table,
        id: TransactionId,
        components: Components,
    ) -> Result<(), EndFault>
        ensures step { AnswersInMemory (components_by (direction_of self.old.slot) table.now
            (active_half self.old.slot id (half_of self.old))
            (components_left components.entry)) result (half_of self.new) }
        ensures kept { OnErr result (half_of self.new ≡ half_of self.old) }
        ensures slot { self.new.slot ≡ self.old.slot }
    {
        let (phase, dialogue_state) = (self.phase, self.dialogue_state);
        let was = self.put_other_id(Some(id));
        self.phase = Phase::Active;
        self.dialogue_state = dialogue_state.confirm();
        match self.step_components(changes, table, self.slot.way(), components) {
            Ok(()) => Ok(()),
            Err(fault) => {
                self.phase = phase;
                self.put_other_id(was);
                self.dialogue_state = dialogue_state;
                Err(fault)
            }
        }
    }
}
