//! Deliveries in the gaps of a replay, to both ends or to one end alone (Q.774 3.2 and 3.3).

ghost use Rattle.std.specs.Prelude.{◌≡◌, ◌<◌, ◌≤◌, ◌+◌, ◌^◌, IfOk, OnErr, OnOk, Some, length, slice_get, true};
ghost use Rattle.tcap_record.specs.Ends.{other};
ghost use Rattle.tcap_check.specs.ReplaySteps.{DeliversMessage, deliveries_kept, first_delivered, first_received, gap_kept, received_sender, is_received_from, is_sent_by_end, message_received};
ghost use Rattle.tcap_check.specs.ReplaySteps.{sent_among};
ghost use Rattle.tcap_check.specs.Plan.{IsPlan};
ghost use Rattle.tcap_check.specs.RefusedReplay.{Leaves, deliveries_left, gap_left};
ghost use Rattle.tcap_check.specs.Progress.{GrewBy, HasNoMore, YieldsInMemory, front_lost, load, side_at, unheard_load};

use crate::outline::Outline;
use crate::plan::Plan;
use crate::progress::{OUT_OF_MEMORY, Progress, Waiting, receive};
use crate::step::Step;
use std::alloc::{AllocError, Global};
use std::collections::LinkedList;
use tcap_certificate::{Certificate, CheckFault};
use tcap_end::{EndFault, EndState, Table};
use tcap_model::Reason;
use tcap_record::End;

/// Returns the sender of the entry with this number, if the entry is a message to a judged end.
fn received_sender(entries: &[Outline], judged: Option<End>, number: u32) -> Option<End>
    ensures { result ≡ received_sender judged (slice_get entries.now number) }
{
    let Some(Outline::Sent(sender, _)) = entries.get(number as usize) else {
        return None;
    };
    let sender = *sender;
    match judged {
        Some(judged) if sender != judged.other() => None,
        _ => Some(sender),
    }
}

/// Returns whether this end sent the entry with this number.
fn is_sent_by(entries: &[Outline], side: End, number: u32) -> bool
    ensures { result ≡ is_sent_by_end side (slice_get entries.now number) }
{
    match entries.get(number as usize) {
        Some(Outline::Sent(sender, _)) => *sender == side,
        _ => false,
    }
}

/// Returns the numbers, among these, of entries that this end sent. Fails if memory runs out.
pub(crate) fn sent_among(
    alloc: Global,
    entries: &[Outline],
    side: End,
    numbers: &[u32],
) -> Result<Vec<u32>, AllocError>
    ensures { IfOk result (λ sent. sent.items ≡ sent_among side entries.now numbers.now) }
{
    let mut sent = Vec::new(alloc);
    for number in numbers {
        if is_sent_by(entries, side, *number) {
            sent.push(*number)?;
        }
    }
    Ok(sent)
}

/// Receives the first of these messages at an end. Returns the reason why the end cannot receive it, or `None`. Fails
/// with `BadReply` if there is no first message with this number, or if it will be lost, or with `Memory`.
fn deliver_message(
    end: &mut EndState,
    table: &Table,
    waiting: &LinkedList<Waiting>,
    number: u32,
) -> Result<Option<EndFault>, CheckFault>
    ensures received { DeliversMessage end.old (first_delivered table.now number waiting.now end.old) result end.new }
    ensures kept { OnErr result (end.new ≡ end.old) }
{
    let refused = CheckFault {
        reason: Reason::BadReply,
        entry: u64::from(number),
    };
    let Some(first) = waiting.front() else {
        return Err(refused);
    };
    if first.number != u64::from(number) {
        return Err(refused);
    }
    let Some(message) = &first.message else {
        return Err(refused);
    };
    match receive(end, table, message) {
        Ok(()) => Ok(None),
        Err(EndFault::Memory) => Err(OUT_OF_MEMORY),
        Err(reason) => Ok(Some(reason)),
    }
}

impl<'r> Progress<'r> {
    /// Delivers the first message on its way from an end, which must have this number. If the other end cannot receive
    /// the message, an end that is judged alone discards it; if both are judged, this is a `BadReply`.
    fn deliver_first(
        &mut self,
        table: &Table,
        judged: Option<End>,
        sender: End,
        number: u32,
    ) -> Result<(), CheckFault>
        requires no_overflow { self.old.moves + 1 < 2 ^ 128 }
        requires count { self.old.unheard + 1 < 2 ^ 64 }
        ensures delivered { YieldsInMemory
            (first_received judged table.now sender number (side_at sender self.old).waiting self.old)
            result self.new }
        ensures left { Leaves self.old result self.new }
    {
        let refused = match sender {
            End::A => deliver_message(&mut self.b.end, table, &self.a.waiting, number)?,
            End::B => deliver_message(&mut self.a.end, table, &self.b.waiting, number)?,
        };
        if refused.is_some() && judged.is_none() {
            return Err(CheckFault {
                reason: Reason::BadReply,
                entry: u64::from(number),
            });
        }
        self.drop_first(sender);
        match refused {
            None => {
                self.moves += 1;
                self.list_step(Step::Receives(sender.other(), u64::from(number)))
            }
            Some(reason) => self.discard(judged, sender, u64::from(number), reason),
        }
    }

    /// Delivers the message with this number from an end, after the losses before it. Fails with `BadReply` or
    /// `Memory`.
    fn deliver(
        &mut self,
        table: &Table,
        judged: Option<End>,
        sender: End,
        number: u32,
    ) -> Result<(), CheckFault>
        requires received { is_received_from judged sender ≡ true }
        requires no_overflow { load self.old + 1 < 2 ^ 128 }
        requires count { unheard_load self.old + 1 < 2 ^ 64 }
        ensures delivered { YieldsInMemory (message_received judged table.now sender number self.old) result self.new }
        ensures left { Leaves (front_lost judged sender self.old) result self.new }
        ensures grows { OnOk result (HasNoMore self.old self.new) }
    {
        self.lose_front(judged, sender)?;
        self.deliver_first(table, judged, sender, number)
    }

    /// Delivers those of these entries that are messages to a judged end, in the order of their numbers. Fails with
    /// `BadReply` or `Memory` at the first that cannot be delivered.
    fn deliver_all(
        &mut self,
        table: &Table,
        judged: Option<End>,
        entries: &[Outline],
        numbers: &[u32],
    ) -> Result<(), CheckFault>
        requires no_overflow { load self.old + 1 < 2 ^ 128 }
        requires count { unheard_load self.old + 1 < 2 ^ 64 }
        ensures delivered { YieldsInMemory (deliveries_kept judged table.now entries.now numbers.now self.old) result
            self.new }
        ensures left { Leaves (deliveries_left judged table.now entries.now numbers.now self.old) result self.new }
        ensures grows { OnOk result (HasNoMore self.old self.new) }
    {
        for number in numbers {
            if let Some(sender) = received_sender(entries, judged, *number) {
                self.deliver(table, judged, sender, *number)?;
            }
        }
        Ok(())
    }

    /// Makes the steps of the gap before the next entry: the closings and expiries listed for judged ends, then the
    /// deliveries to them. `since` is the number of the entry after the last quiet mark. Fails with `FateRange`,
    /// `HiddenRefused`, `BadReply` or `Memory`.
    pub(crate) fn pass_gap(
        &mut self,
        table: &Table,
        certificate: &Certificate,
        plan: &Plan,
        judged: Option<End>,
        entries: &[Outline],
        since: usize,
    ) -> Result<(), CheckFault>
        requires plan { IsPlan certificate.now plan.now }
        requires within { length entries.now ≤ length certificate.now.fates }
        requires few { length certificate.now.fates ≤ 100000 }
        requires no_overflow { load self.old < 2 ^ 127 }
        requires count { unheard_load self.old < 2 ^ 63 }
        ensures passed { YieldsInMemory (gap_kept judged table.now certificate.now entries.now since self.old) result
            self.new }
        ensures left { Leaves (gap_left judged table.now certificate.now entries.now since self.old) result self.new }
        ensures grows { OnOk result (GrewBy (2 ^ 66) 0 self.old self.new) }
    {
        let gap = entries.len();
        self.hide_all(table, judged, entries, since, plan.listed.get(gap))?;
        self.deliver_all(table, judged, entries, plan.due.get(gap))
    }
}
