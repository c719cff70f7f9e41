//! The hidden steps of an end (Q.774 3.2 and 3.3): an invocation expires, one half closes, or all halves close.

ghost use Rattle.std.specs.Prelude.{◌≡◌, ◌<◌, ◌^◌, ◌++◌, Some, None, Ok, Err, IfSome, MatchOption, OnErr, OnOk, length};
ghost use Rattle.tcap_end.specs.declared.fault.EndFault.TheVariants as EndFault;
ghost use Rattle.tcap_end.specs.Step.{Answers};
ghost use Rattle.tcap_end.specs.HiddenSteps.{close, expire, may_close, open_halves, open_names, quiet_after_closings};
ghost use Rattle.tcap_end.specs.End.{nothing};
ghost use Rattle.tcap_end.specs.ReachableEnd.{IsEnd, halves_of};
ghost use Rattle.tcap_end.specs.Halves.{AllPlaced, IsHeld, closing, end_of, name_in};

use crate::fault::EndFault;
use crate::half::{HalfName, Phase, Slot};
use crate::halves::Halves;
use crate::table::Table;
use std::alloc::AllocError;
use tcap_msg::TransactionId;

/// Returns the name of the half of a slot with this key.
fn name_of(slot: Slot, key: &TransactionId) -> HalfName
    ensures { result ≡ name_in slot key.now }
{
    let key = key.view().to_transaction_id();
    match slot {
        Slot::Begun => HalfName::Own(key),
        Slot::Accepted => HalfName::Peer(key),
    }
}

/// Returns whether a half in this phase may close without a message.
fn may_close(table: &Table, phase: Phase) -> bool
    ensures { result ≡ may_close table.now phase }
{
    match phase {
        Phase::Sent => true,
        Phase::Closed => false,
        _ => table.prearranged,
    }
}

impl Halves {
    /// Lets the own invocation of an ID expire.
    pub(crate) fn expire(&mut self, table: &Table, name: HalfName, id: i8) -> Result<(), EndFault>
        requires held { IsHeld self.old }
        requires sound { IsEnd (end_of self.old) }
        ensures step { Answers (expire table.now (end_of self.old) name id) result (end_of self.new) }
        ensures kept { OnErr result (end_of self.new ≡ end_of self.old) }
        ensures held { IsHeld self.new }
        ensures placed { AllPlaced self.old → AllPlaced self.new }
    {
        let Some(found) = self.named(&name) else {
            return Err(EndFault::CannotExpire);
        };
        let Some(half) = self.half(&found) else {
            return Err(EndFault::CannotExpire);
        };
        if !half.may_expire(table, id) {
            return Err(EndFault::CannotExpire);
        }
        self.forget_over(&found, id);
        Ok(())
    }

    /// Closes a half without a message.
    pub(crate) fn close_named(&mut self, table: &Table, name: HalfName) -> Result<(), EndFault>
        requires held { IsHeld self.old }
        requires sound { IsEnd (end_of self.old) }
        ensures step { Answers (close table.now (end_of self.old) name) result (end_of self.new) }
        ensures kept { OnErr result (end_of self.new ≡ end_of self.old) }
        ensures held { IsHeld self.new }
        ensures placed { AllPlaced self.old → AllPlaced self.new }
    {
        let Some(found) = self.named(&name) else {
            return Err(EndFault::CannotClose);
        };
        let Some(half) = self.half(&found) else {
            return Err(EndFault::CannotClose);
        };
        if !may_close(table, half.phase) {
            return Err(EndFault::CannotClose);
        }
        self.close(found);
        Ok(())
    }

    /// Counts the open halves of a slot, or returns `None` if one of them may not close without a message.
    fn closing_of(&self, table: &Table, slot: Slot) -> Option<usize>
        requires held { IsHeld self.now }
        requires placed { AllPlaced self.now }
        ensures counted { result ≡ closing table.now (halves_of slot (end_of self.now)) }
        ensures fits { IfSome result (λ n. n < 2 ^ 63) }
    {
        let mut count = 0;
        for (_, place) in self.places(slot) {
            if let Some(half) = self.open_half(place) {
                if !may_close(table, half.phase) {
                    return None;
                }
                count += 1;
            }
        }
        Some(count)
    }

    /// Counts the open halves, all of which close at a quiet mark, or returns `None` if one of them may not.
    pub(crate) fn closing(&self, table: &Table) -> Option<usize>
        requires held { IsHeld self.now }
        requires placed { AllPlaced self.now }
        requires sound { IsEnd (end_of self.now) }
        ensures { MatchOption result (quiet_after_closings table.now (end_of self.now) ≡ Err EndFault.CannotClose)
            (λ n. (quiet_after_closings table.now (end_of self.now) ≡ Ok nothing)
            × (n ≡ length (open_halves (end_of self.now)))) }
    {
        let begun = self.closing_of(table, Slot::Begun)?;
        let accepted = self.closing_of(table, Slot::Accepted)?;
        Some(begun + accepted)
    }

    /// Appends the names of the open halves of a slot, in the order of their keys.
    pub(crate) fn push_open(&self, slot: Slot, names: &mut Vec<HalfName>) -> Result<(), AllocError>
        requires held { IsHeld self.now }
        requires placed { AllPlaced self.now }
        ensures { OnOk result (names.new.items
            ≡ names.old.items ++ open_names (name_in slot) (halves_of slot (end_of self.now))) }
    {
        for (key, place) in self.places(slot) {
            if self.open_half(place).is_some() {
                names.push(name_of(slot, key))?;
            }
        }
        Ok(())
    }
}
