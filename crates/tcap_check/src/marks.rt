//! Quiet marks in a replay (Q.774 3.2 and 3.3).

ghost use Rattle.std.specs.Prelude.{◌≡◌, ◌<◌, ◌+◌, ◌^◌, length, None, OnOk, Some};
ghost use Rattle.tcap_end.specs.HiddenSteps.{close};
ghost use Rattle.tcap_model.specs.Run.{Closes};
ghost use Rattle.tcap_check.specs.ReplaySteps.{alone_marked, halves_closed, halves_quieted, halves_shut, mark_taken};
ghost use Rattle.tcap_check.specs.Progress.{GrewBy, Yields, YieldsInMemory, end_moved, load, quiet_kept, side_at, unheard_load};
ghost use Rattle.tcap_certificate.specs.Replay.{fault_at};
ghost use Rattle.tcap_check.specs.RefusedReplay.{IsListing, Leaves, halves_left, mark_left, quiet_left};
ghost use Rattle.tcap_model.specs.declared.reason.Reason.TheVariants.{NotQuiet};

use crate::progress::{OUT_OF_MEMORY, Progress, copy_name};
use crate::step::Step;
use std::alloc::Global;
use tcap_certificate::CheckFault;
use tcap_end::{HalfName, Table};
use tcap_model::Reason;
use tcap_record::End;

/// Returns the refusal of the mark with this number.
fn not_quiet(number: u64) -> CheckFault
    ensures { result ≡ fault_at NotQuiet number }
{
    CheckFault {
        reason: Reason::NotQuiet,
        entry: number,
    }
}

impl Progress<'_> {
    /// Closes all open halves of an end, without messages, before the mark with this number. Fails with `NotQuiet` if
    /// one of them may not close.
    fn quiet_halves(&mut self, table: &Table, side: End, number: u64) -> Result<(), CheckFault>
        requires no_overflow { self.old.moves < 2 ^ 126 }
        ensures closed { Yields (halves_quieted side table.now number self.old) result self.new }
        ensures grows { OnOk result (GrewBy (2 ^ 65) 0 self.old self.new) }
    {
        let closed = match side {
            End::A => self.a.end.quiet_after_closings(table),
            End::B => self.b.end.quiet_after_closings(table),
        };
        let Ok(count) = closed else {
            return Err(not_quiet(number));
        };
        self.moves += count as u128;
        Ok(())
    }

    /// Closes all open halves of the end that is judged alone, if steps are not listed. Fails with `NotQuiet` if one of
    /// them may not close.
    fn close_unlisted(&mut self, table: &Table, alone: End, number: u64) -> Result<(), CheckFault>
        requires unlisted { self.old.steps ≡ None }
        requires no_overflow { self.old.moves < 2 ^ 126 }
        ensures closed { Yields (halves_closed (Some «alone») table.now number self.old) result self.new }
        ensures grows { OnOk result (GrewBy (2 ^ 65) 0 self.old self.new) }
    {
        self.quiet_halves(table, alone, number)
    }

    /// Closes a half of an end, without a message, before the mark with this number. Fails with `NotQuiet` or `Memory`.
    fn close_half(
        &mut self,
        table: &Table,
        side: End,
        name: HalfName,
        number: u64,
    ) -> Result<(), CheckFault>
        requires no_overflow { self.old.moves + 1 < 2 ^ 128 }
        ensures closed { YieldsInMemory (end_moved «side» (Closes «side» name) (fault_at NotQuiet number) self.old
            (close table.now (side_at «side» self.old).end name)) result self.new }
        ensures left { Leaves self.old result self.new }
        ensures grows { OnOk result (self.new.moves ≡ self.old.moves + 1) }
    {
        let own = copy_name(&name);
        let closed = match side {
            End::A => self.a.end.close(table, own),
            End::B => self.b.end.close(table, own),
        };
        if closed.is_err() {
            return Err(not_quiet(number));
        }
        self.moves += 1;
        self.list_step(Step::Closes(side, name))
    }

    /// Closes these halves of an end, one by one, before the mark with this number. Fails with `NotQuiet` at the first
    /// that may not close, or with `Memory`.
    fn close_each(
        &mut self,
        table: &Table,
        side: End,
        names: &[HalfName],
        number: u64,
    ) -> Result<(), CheckFault>
        requires no_overflow { self.old.moves + length names.now < 2 ^ 128 }
        ensures closed { YieldsInMemory (halves_shut side table.now number names.now self.old) result self.new }
        ensures left { Leaves (halves_left side table.now number names.now self.old) result self.new }
    {
        for name in names {
            self.close_half(table, side, copy_name(name), number)?;
        }
        Ok(())
    }

    /// Takes the mark with this number. Fails with `NotQuiet` if a message is on its way or a half is open, or with
    /// `Memory`.
    fn be_quiet(&mut self, number: u64) -> Result<(), CheckFault>
        requires no_overflow { self.old.moves + 1 < 2 ^ 128 }
        ensures quiet { YieldsInMemory (quiet_kept number self.old) result self.new }
        ensures left { Leaves self.old result self.new }
        ensures grows { OnOk result (GrewBy 1 0 self.old self.new) }
    {
        let nothing = self.a.waiting.is_empty() && self.b.waiting.is_empty();
        // If one end is not quiet, neither end is changed.
        if !nothing || !self.a.end.is_quiet() || !self.b.end.is_quiet() {
            return Err(not_quiet(number));
        }
        if self.a.end.quiet().is_err() || self.b.end.quiet().is_err() {
            return Err(not_quiet(number));
        }
        self.moves += 1;
        self.list_step(Step::Quiet)
    }

    /// Takes a quiet mark if one end is judged alone and steps are listed. Its open halves close one by one, which
    /// shows which of them may not. Fails with `NotQuiet` or `Memory`.
    #[tactic(auto, using(crate::proofs::progress_laws::KeptGrowth::shut_grows))]
    fn mark_listed(
        &mut self,
        alloc: Global,
        table: &Table,
        alone: End,
        number: u64,
    ) -> Result<(), CheckFault>
        requires no_overflow { load self.old < 2 ^ 126 }
        requires count { unheard_load self.old < 2 ^ 63 }
        ensures taken { YieldsInMemory (alone_marked alone table.now number self.old) result self.new }
        ensures left { Leaves (quiet_left (Some «alone») table.now number self.old) result self.new }
        ensures grows { OnOk result (GrewBy (2 ^ 66) 0 self.old self.new) }
    {
        let Ok(names) = self.side_state(alone).end.open_halves(alloc) else {
            return Err(OUT_OF_MEMORY);
        };
        self.close_each(table, alone, &names, number)?;
        self.lose_last(Some(alone))?;
        self.be_quiet(number)
    }

    /// Takes a quiet mark, which must take no message. The open halves of an end that is judged alone close, and then
    /// messages to judged ends are lost. Fails with `NotQuiet` if then a message is on its way or a half is open, or
    /// with `Memory`.
    pub(crate) fn take_mark(
        &mut self,
        alloc: Global,
        table: &Table,
        judged: Option<End>,
        number: u64,
        takes: &[u32],
    ) -> Result<(), CheckFault>
        requires no_overflow { load self.old < 2 ^ 126 }
        requires count { unheard_load self.old < 2 ^ 63 }
        ensures taken { YieldsInMemory (mark_taken judged table.now number takes.now self.old) result self.new }
        ensures left { IsListing self.old
            → Leaves (mark_left judged table.now number takes.now self.old) result self.new }
        ensures grows { OnOk result (GrewBy (2 ^ 66) 0 self.old self.new) }
    {
        if !takes.is_empty() {
            return Err(not_quiet(number));
        }
        match (judged, &self.steps) {
            (Some(alone), Some(_)) => return self.mark_listed(alloc, table, alone, number),
            (Some(alone), None) => self.close_unlisted(table, alone, number)?,
            (None, _) => {}
        }
        self.lose_last(judged)?;
        self.be_quiet(number)
    }
}
