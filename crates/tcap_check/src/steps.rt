//! The list of the steps of a run.

use crate::step::Step;
use std::alloc::{AllocError, Global};
use std::marker::Model;
use tcap_end::EndFault;
use tcap_record::End;

/// The steps so far, in order.
#[derive(Debug, Drop)]
pub(crate) struct Steps {
    list: Vec<Step>,
}

impl Model for Steps {
    ghost use Rattle.tcap_check.specs.ReportedSteps.{ListedRun, listed_run_of};

    ghost Value = { ListedRun };

    ghost view = { λ s. listed_run_of s.list.items };
}

impl Steps {
    ghost use Rattle.std.specs.Prelude.{◌≡◌, [], ◌∷◌, None, OnOk};
    ghost use Rattle.tcap_model.specs.Run.{Loses};
    ghost use Rattle.tcap_check.specs.ReportedSteps.{with_one_discard, discard_of, event_of, with_events, no_steps, listed_run_of};

    /// Creates an empty list.
    pub(crate) fn new(alloc: Global) -> Steps
        ensures { result ≡ no_steps }
    {
        Steps {
            list: Vec::new(alloc),
        }
    }

    /// Appends a step that is no discard. Fails if memory runs out.
    #[tactic(auto, using(crate::proofs::checker_laws::ToldStepLaws::one_more))]
    pub(crate) fn push(&mut self, step: Step) -> Result<(), AllocError>
        requires plain { discard_of step ≡ None }
        ensures { OnOk result (self.new ≡ with_events (event_of step ∷ []) self.old) }
    {
        self.list.push(step)?;
        Ok(())
    }

    /// Appends the discard, for this reason, of the message with this number from `sender`. Fails if memory runs out.
    #[tactic(auto, using(crate::proofs::checker_laws::ToldStepLaws::one_discard_more))]
    pub(crate) fn push_discard(
        &mut self,
        sender: End,
        number: u64,
        reason: EndFault,
    ) -> Result<(), AllocError>
        ensures { OnOk result (self.new ≡ with_one_discard number reason
            (with_events (Loses «sender» number ∷ []) self.old)) }
    {
        self.list.push(Step::Discards(sender, number, reason))?;
        Ok(())
    }

    /// Returns the steps as a vector.
    pub(crate) fn into_list(self) -> Vec<Step>
        ensures { listed_run_of result.items ≡ self }
    {
        self.list
    }
}
