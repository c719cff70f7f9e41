//! How an end sends or receives a Begin (Q.774 3.2 and 3.3).

ghost use Rattle.std.specs.Prelude.{◌≡◌, OnErr, option_map};
ghost use Rattle.tcap_parts.specs.DialogueMeaning.{dialogue_of};
ghost use Rattle.tcap_parts.specs.Meaning.{components_left};
ghost use Rattle.tcap_end.specs.Step.{AnswersInMemory};
ghost use Rattle.tcap_end.specs.ReachableEnd.{IsEnd};
ghost use Rattle.tcap_end.specs.Halves.{AllPlaced, IsHeld, end_of};
ghost use Rattle.tcap_end.specs.Begins.{begin, may_begin_in};

use crate::changes::Changes;
use crate::dialogues::{first_dialogue_state, may_begin};
use crate::fault::EndFault;
use crate::half::Slot;
use crate::half_state::HalfState;
use crate::halves::Halves;
use crate::table::Table;
use tcap_msg::TransactionIdView;
use tcap_parts::{Components, DialogueView};

/// Returns whether a Begin may carry this dialogue portion. A received Begin may carry any.
fn may_begin_in(slot: Slot, dialogue: Option<DialogueView>) -> bool
    ensures { result ≡ may_begin_in slot (option_map dialogue_of dialogue.entry) }
{
    match slot {
        Slot::Begun => may_begin(dialogue),
        Slot::Accepted => true,
    }
}

impl Halves {
    /// Sends a Begin, for a half of `Begun`, or receives one, for a half of `Accepted`.
    pub(crate) fn begin(
        &mut self,
        changes: &mut Changes,
        table: &Table,
        slot: Slot,
        otid: TransactionIdView,
        dialogue: Option<DialogueView>,
        components: Components,
    ) -> Result<(), EndFault>
        requires held { IsHeld self.old }
        requires sound { IsEnd (end_of self.old) }
        ensures step { AnswersInMemory (begin slot table.now (end_of self.old) otid.entry.octets.now
            (option_map dialogue_of dialogue.entry) (components_left components.entry)) result (end_of self.new) }
        ensures kept { OnErr result (end_of self.new ≡ end_of self.old) }
        ensures held { IsHeld self.new }
        ensures placed { AllPlaced self.old → AllPlaced self.new }
    {
        if self.with_id(slot, otid).is_some() {
            return Err(EndFault::IdUsed);
        }
        if !may_begin_in(slot, dialogue) {
            return Err(EndFault::WrongDialogue);
        }
        let dialogue_state = first_dialogue_state(dialogue);
        let mut half = HalfState::new(
            changes.alloc(),
            slot,
            otid.to_transaction_id(),
            dialogue_state,
        );
        half.step_components(changes, table, slot.other().way(), components)?;
        self.add(otid.to_transaction_id(), half)?;
        Ok(())
    }
}
