//! Losses of messages in a replay.

ghost use Rattle.std.specs.Prelude.{◌≡◌, ◌<◌, ◌+◌, ◌^◌, OnOk, drop};
ghost use Rattle.tcap_check.specs.Progress.{HasNoMore, IsMemory, discard_listed, first_lost, front_lost, last_lost, load, lost_counted};
ghost use Rattle.tcap_check.specs.Progress.{loss_listed, side_at, unheard_load, with_waiting};

use crate::progress::Progress;
use crate::step::Step;
use tcap_certificate::CheckFault;
use tcap_end::EndFault;
use tcap_record::End;

impl Progress<'_> {
    /// Counts the loss of a message from this end. The message was taken from its channel before.
    pub(crate) fn count_lost(&mut self, judged: Option<End>, side: End)
        requires no_overflow { self.old.moves + 1 < 2 ^ 128 }
        requires count { self.old.unheard + 1 < 2 ^ 64 }
        ensures { self.new ≡ lost_counted judged side self.old }
    {
        match judged {
            None => self.moves += 1,
            Some(judged) if judged == side => {}
            Some(_) => {
                self.moves += 1;
                self.unheard += 1;
            }
        }
    }

    /// Drops the first message on its way from an end, if there is one.
    pub(crate) fn drop_first(&mut self, side: End)
        ensures left { self.new ≡ with_waiting side (drop 1 (side_at side self.old).waiting) self.old }
        ensures moves { self.new.moves ≡ self.old.moves }
        ensures unheard { self.new.unheard ≡ self.old.unheard }
    {
        let _ = match side {
            End::A => self.a.waiting.pop_front(),
            End::B => self.b.waiting.pop_front(),
        };
    }

    /// Loses the oldest message in transit from an end. `number` is the number of that message. Fails if memory runs
    /// out.
    fn lose_first(&mut self, judged: Option<End>, side: End, number: u64) -> Result<(), CheckFault>
        requires no_overflow { self.old.moves + 1 < 2 ^ 128 }
        requires count { self.old.unheard + 1 < 2 ^ 64 }
        ensures lost { OnOk result (self.new
            ≡ loss_listed judged side number (with_waiting side (drop 1 (side_at side self.old).waiting) self.old)) }
        ensures memory { IsMemory result }
    {
        self.drop_first(side);
        self.list_step(Step::Loses(side, number))?;
        self.count_lost(judged, side);
        Ok(())
    }

    /// Discards, for this reason, the message with this number from `sender`, which was taken from its channel before.
    /// Fails if memory runs out.
    pub(crate) fn discard(
        &mut self,
        judged: Option<End>,
        sender: End,
        number: u64,
        reason: EndFault,
    ) -> Result<(), CheckFault>
        requires no_overflow { self.old.moves + 1 < 2 ^ 128 }
        requires count { self.old.unheard + 1 < 2 ^ 64 }
        ensures lost { OnOk result (self.new
            ≡ lost_counted judged sender (discard_listed sender number reason self.old)) }
        ensures memory { IsMemory result }
    {
        self.list_discard(sender, number, reason)?;
        self.count_lost(judged, sender);
        Ok(())
    }

    /// Returns the number of the first message on its way from an end, if the message will be lost.
    fn first_lost(&self, side: End) -> Option<u64>
        ensures { result ≡ first_lost (side_at side self.now).waiting }
    {
        match self.side_state(side).waiting.front() {
            Some(first) if first.message.is_none() => Some(first.number),
            _ => None,
        }
    }

    /// Loses the messages at the front of an end's channel that will be lost. Fails if memory runs out.
    pub(crate) fn lose_front(&mut self, judged: Option<End>, side: End) -> Result<(), CheckFault>
        requires no_overflow { load self.old < 2 ^ 128 }
        requires count { unheard_load self.old < 2 ^ 64 }
        ensures lost { OnOk result (self.new ≡ front_lost judged side self.old) }
        ensures memory { IsMemory result }
        ensures grows { OnOk result (HasNoMore self.old self.new) }
    {
        for _ in 0..self.side_state(side).waiting.len() {
            let Some(number) = self.first_lost(side) else {
                return Ok(());
            };
            self.lose_first(judged, side, number)?;
        }
        Ok(())
    }

    /// Makes the losses before a quiet mark, or at the end of the record. Fails if memory runs out.
    pub(crate) fn lose_last(&mut self, judged: Option<End>) -> Result<(), CheckFault>
        requires no_overflow { load self.old < 2 ^ 128 }
        requires count { unheard_load self.old < 2 ^ 64 }
        ensures lost { OnOk result (self.new ≡ last_lost judged self.old) }
        ensures memory { IsMemory result }
        ensures grows { OnOk result (HasNoMore self.old self.new) }
    {
        match judged {
            None => {
                self.lose_front(None, End::A)?;
                self.lose_front(None, End::B)
            }
            Some(alone) => self.lose_front(judged, alone.other()),
        }
    }
}
