//! What a replay keeps of two ends and the two channels between them, and single steps (Q.774 3.2 and 3.3).

ghost use Rattle.std.specs.Prelude.{◌≡◌, ◌<◌, ◌+◌, ◌^◌, [], ◌∷◌, None, Option, IfSome, IsSome, OnErr, OnOk, length};
ghost use Rattle.tcap_msg.specs.Parts.{otid_in};
ghost use Rattle.tcap_end.specs.Step.{AnswersInMemory};
ghost use Rattle.tcap_end.specs.Message.{receive};
ghost use Rattle.tcap_check.specs.ReplaySteps.{is_judged};
ghost use Rattle.tcap_check.specs.ListedSteps.{listed_judged};
ghost use Rattle.tcap_check.specs.Progress.{IsMemory, YieldsInMemory, all_kept, count_kept, discard_listed, empty_side};
ghost use Rattle.tcap_check.specs.Progress.{half_closes, invocation_ends, listed_kept, nothing_kept, side_at, with_steps};
ghost use Rattle.tcap_record.specs.declared.entry.End.{End as Side};
ghost use Rattle.tcap_check.specs.RefusedReplay.{Leaves, listed_left};
ghost use Rattle.tcap_check.specs.ReportedSteps.{discard_of, event_of, listed_run_if, listed_run_of};

use crate::held_message::WaitingMessage;
use crate::listed_steps::ListedStep;
use crate::outline::{Outline, half_closed, invocation_ended};
use crate::plan::out_of_range;
use crate::step::Step;
use crate::steps::Steps;
use std::alloc::Global;
use std::collections::LinkedList;
use tcap_certificate::{CheckFault, Closing, Expiry};
use tcap_end::{EndFault, EndState, HalfName, Table};
use tcap_model::Reason;
use tcap_record::End;

/// A message on its way, with the number of its entry. The message itself is not kept if it will be lost.
#[derive(Debug, Drop)]
pub(crate) struct Waiting<'r> {
    pub(crate) number: u64,
    pub(crate) message: Option<WaitingMessage<'r>>,
}

/// The state of one end, the messages on their way from it, and the latest time of a message from it.
#[derive(Debug, Drop)]
pub(crate) struct SideState<'r> {
    pub(crate) end: EndState,
    pub(crate) waiting: LinkedList<Waiting<'r>>,
    pub(crate) latest: u64,
}

/// The state of a replay: both ends, the messages on their way, and counts of the steps so far.
#[derive(Debug, Drop)]
pub(crate) struct Progress<'r> {
    pub(crate) a: SideState<'r>,
    pub(crate) b: SideState<'r>,
    // The number of steps; losses of messages from an end that is judged alone do not count.
    pub(crate) moves: u128,
    // The number of lost messages from the peer of an end that is judged alone, else 0.
    pub(crate) unheard: u64,
    // The steps, if they are listed.
    pub(crate) steps: Option<Steps>,
}

impl<'r> SideState<'r> {
    /// Creates an end before the first step.
    fn new(alloc: Global) -> SideState<'r>
        ensures { result ≡ empty_side }
    {
        SideState {
            end: EndState::new(alloc),
            waiting: LinkedList::new(alloc),
            latest: 0,
        }
    }

    /// Counts the messages on their way that will not be lost.
    #[tactic(auto, using(crate::proofs::progress_laws::KeptGrowth::kept_more, crate::proofs::progress_laws::KeptGrowth::lost_more))]
    pub(crate) fn count_kept(&self) -> usize
        ensures count { result ≡ count_kept self.now.waiting }
        ensures few { result < 2 ^ 63 }
    {
        let mut lost = 0;
        for waiting in &self.waiting {
            if waiting.message.is_none() {
                lost += 1;
            }
        }
        self.waiting.len() - lost
    }
}

/// Returns whether an end is judged: with `None`, both are.
pub(crate) fn is_judged(judged: Option<End>, side: End) -> bool
    ensures { result ≡ is_judged judged side }
{
    match judged {
        None => true,
        Some(judged) => judged == side,
    }
}

/// The fault that memory ran out.
pub(crate) const OUT_OF_MEMORY: CheckFault = CheckFault {
    reason: Reason::Memory,
    entry: 0,
};

/// Copies the name of a half.
pub(crate) fn copy_name(name: &HalfName) -> HalfName
    ensures { result ≡ name.now }
{
    match name {
        HalfName::Own(id) => HalfName::Own(id.view().to_transaction_id()),
        HalfName::Peer(id) => HalfName::Peer(id.view().to_transaction_id()),
    }
}

/// Receives a message at an end. Fails with the end's reason, or if memory runs out.
pub(crate) fn receive(
    end: &mut EndState,
    table: &Table,
    message: &WaitingMessage,
) -> Result<(), EndFault>
    ensures step { AnswersInMemory (receive table.now end.old message.now) result end.new }
    ensures kept { OnErr result (end.new ≡ end.old) }
    ensures only { OnErr result (IsSome (otid_in message.now)) }
{
    let message = message.view();
    end.receive(table, &message)
}

impl<'r> Progress<'r> {
    /// Creates two ends before the first step, with a list of steps if `listed`.
    pub(crate) fn new(alloc: Global, listed: bool) -> Progress<'r>
        ensures { result ≡ nothing_kept (listed_run_if listed [] []) }
    {
        let steps = if listed {
            Some(Steps::new(alloc))
        } else {
            None
        };
        Progress {
            a: SideState::new(alloc),
            b: SideState::new(alloc),
            moves: 0,
            unheard: 0,
            steps,
        }
    }

    /// Appends a step, which is no discard, to the list of steps, if there is one. Fails if memory runs out.
    #[inline(always)]
    pub(crate) fn list_step(&mut self, step: Step) -> Result<(), CheckFault>
        requires plain { discard_of step ≡ None }
        ensures steps { OnOk result (self.new ≡ with_steps (event_of step ∷ []) self.old) }
        ensures memory { IsMemory result }
    {
        if let Some(steps) = &mut self.steps {
            if steps.push(step).is_err() {
                return Err(OUT_OF_MEMORY);
            }
        }
        Ok(())
    }

    /// Appends the discard of the message with this number to the list of steps, if there is one. Fails if memory runs
    /// out.
    pub(crate) fn list_discard(
        &mut self,
        sender: End,
        number: u64,
        reason: EndFault,
    ) -> Result<(), CheckFault>
        ensures steps { OnOk result (self.new ≡ discard_listed sender number reason self.old) }
        ensures memory { IsMemory result }
    {
        if let Some(steps) = &mut self.steps {
            if steps.push_discard(sender, number, reason).is_err() {
                return Err(OUT_OF_MEMORY);
            }
        }
        Ok(())
    }

    /// Returns the state of this end, and of the channel from it.
    pub(crate) fn side_state(&self, side: End) -> &SideState<'r>
        ensures { result.now ≡ side_at side self.now }
    {
        match side {
            End::A => &self.a,
            End::B => &self.b,
        }
    }

    /// Closes a half of an end without a message. Fails with `HiddenRefused` or `Memory`.
    fn close(&mut self, table: &Table, x: &Closing, name: HalfName) -> Result<(), CheckFault>
        requires no_overflow { self.old.moves + 1 < 2 ^ 128 }
        ensures closed { YieldsInMemory (half_closes table.now x.now name self.old) result self.new }
        ensures left { Leaves self.old result self.new }
    {
        let own = copy_name(&name);
        let closed = match x.side {
            End::A => self.a.end.close(table, own),
            End::B => self.b.end.close(table, own),
        };
        if closed.is_err() {
            return Err(CheckFault {
                reason: Reason::HiddenRefused(EndFault::CannotClose),
                entry: u64::from(x.entry),
            });
        }
        self.moves += 1;
        self.list_step(Step::Closes(x.side, name))
    }

    /// Expires an own invocation of an end. Fails with `HiddenRefused` or `Memory`.
    fn expire(
        &mut self,
        table: &Table,
        x: &Expiry,
        name: HalfName,
        id: i8,
    ) -> Result<(), CheckFault>
        requires no_overflow { self.old.moves + 1 < 2 ^ 128 }
        ensures ended { YieldsInMemory (invocation_ends table.now x.now (name, id) self.old) result self.new }
        ensures left { Leaves self.old result self.new }
    {
        let own = copy_name(&name);
        let ended = match x.side {
            End::A => self.a.end.expire(table, own, id),
            End::B => self.b.end.expire(table, own, id),
        };
        if ended.is_err() {
            return Err(CheckFault {
                reason: Reason::HiddenRefused(EndFault::CannotExpire),
                entry: u64::from(x.entry),
            });
        }
        self.moves += 1;
        self.list_step(Step::Expires(x.side, name, id))
    }

    /// Makes a listed event: closes the half, or expires the invocation, that it names. Fails with `FateRange` if it
    /// names none, or with `HiddenRefused` or `Memory`.
    fn hide(
        &mut self,
        table: &Table,
        entries: &[Outline],
        since: usize,
        x: &ListedStep,
    ) -> Result<(), CheckFault>
        requires no_overflow { self.old.moves + 1 < 2 ^ 128 }
        ensures hidden { YieldsInMemory (listed_kept table.now entries.now since x.now self.old) result self.new }
        ensures left { Leaves self.old result self.new }
        ensures grows { OnOk result (self.new.moves ≡ self.old.moves + 1) }
    {
        match x {
            ListedStep::Closes(x) => match half_closed(entries, since, x) {
                Some(name) => self.close(table, x, name),
                None => Err(out_of_range(x.entry)),
            },
            ListedStep::Expires(x) => match invocation_ended(entries, since, x) {
                Some((name, id)) => self.expire(table, x, name, id),
                None => Err(out_of_range(x.entry)),
            },
        }
    }

    /// Makes the listed events of judged ends, in order, and skips those of a peer that is not judged. Fails with
    /// `FateRange`, `HiddenRefused` or `Memory` at the first that cannot happen.
    pub(crate) fn hide_all(
        &mut self,
        table: &Table,
        judged: Option<End>,
        entries: &[Outline],
        since: usize,
        listed: &[ListedStep],
    ) -> Result<(), CheckFault>
        requires no_overflow { self.old.moves + length listed.now < 2 ^ 128 }
        ensures hidden { YieldsInMemory
            (all_kept table.now entries.now since (listed_judged judged listed.now) self.old) result self.new }
        ensures left { Leaves (listed_left table.now entries.now since (listed_judged judged listed.now) self.old)
            result self.new }
    {
        for x in listed {
            if is_judged(judged, x.side()) {
                self.hide(table, entries, since, x)?;
            }
        }
        Ok(())
    }
}
