//! Messages in a replay, from a judged end, from its provider, or from its peer (Q.774 3.2 and 3.3).

ghost use Rattle.std.specs.Prelude.{◌≡◌, ◌<◌, ◌^◌, IfSome, OnOk};
ghost use Rattle.tcap_check.specs.RefusedReplay.{Leaves, message_left, taken_left};
ghost use Rattle.tcap_check.specs.RunSoFar.{ShowsSend};
ghost use Rattle.tcap_check.specs.ReplaySteps.{message_taken, peer_message_taken};
ghost use Rattle.tcap_check.specs.Progress.{GrewBy, YieldsInMemory, load, unheard_load};

use crate::progress::{Progress, is_judged};
use crate::sent_messages::SendKind;
use std::alloc::Global;
use tcap_certificate::{CheckFault, Fate};
use tcap_end::Table;
use tcap_model::Reason;
use tcap_msg::{Message, MessageParts};
use tcap_record::End;

impl<'r> Progress<'r> {
    /// Takes a message from the peer of the judged end. The message must take no other message. It is lent if it
    /// outlives the replay. Fails with `BadReply` or `Memory`.
    fn take_peer_message<M: MessageParts>(
        &mut self,
        alloc: Global,
        side: End,
        fate: Fate,
        number: u64,
        message: &M,
        lent: Option<&'r Message>,
        takes: &[u32],
    ) -> Result<(), CheckFault>
        requires no_overflow { self.old.moves < 2 ^ 127 }
        requires same { IfSome lent (λ lent. lent.now ≡ M.meaning message.now) }
        ensures taken { YieldsInMemory (peer_message_taken side fate number
            (M.meaning message.now) takes.now self.old) result self.new }
        ensures left { Leaves self.old result self.new }
        ensures grows { OnOk result (GrewBy (2 ^ 65) 1 self.old self.new) }
    {
        if !takes.is_empty() {
            return Err(CheckFault {
                reason: Reason::BadReply,
                entry: number,
            });
        }
        self.join(alloc, SendKind::Tells, side, fate, number, message, lent)
    }

    /// Takes a message with this number and fate, which takes these messages. A judged end sends it, its provider
    /// answers a message by it, or it is from the peer of an end that is judged alone. An end that is judged alone
    /// loses its messages at once, no matter what their fates are. The message is lent if it outlives the replay. Fails
    /// with `BadReply`, `SendRefused` or `Memory`.
    #[tactic(auto, using(crate::proofs::refusal_laws::SendShows::told_shows, crate::proofs::refusal_laws::SendShows::memory_shows))]
    pub(crate) fn take_message<M: MessageParts>(
        &mut self,
        alloc: Global,
        table: &Table,
        judged: Option<End>,
        side: End,
        fate: Fate,
        number: u64,
        message: &M,
        lent: Option<&'r Message>,
        takes: &[u32],
    ) -> Result<(), CheckFault>
        requires no_overflow { load self.old < 2 ^ 127 }
        requires count { unheard_load self.old < 2 ^ 63 }
        requires same { IfSome lent (λ lent. lent.now ≡ M.meaning message.now) }
        ensures taken { YieldsInMemory
            (message_taken judged table.now side fate number (M.meaning message.now) takes.now self.old)
            result self.new }
        ensures left { Leaves (taken_left judged table.now side (M.meaning message.now) takes.now self.old) result
            self.new }
        ensures shows { ShowsSend table.now side number (M.meaning message.now) result self.new }
        ensures grows { OnOk result (GrewBy (2 ^ 65) 1 self.old self.new) }
    {
        if !is_judged(judged, side) {
            return self.take_peer_message(alloc, side, fate, number, message, lent, takes);
        }
        let Some(alone) = judged else {
            return self.send_or_answer(
                alloc, table, judged, side, fate, number, message, lent, takes,
            );
        };
        let sent = self.send_or_answer(
            alloc,
            table,
            judged,
            side,
            Fate::Lost,
            number,
            message,
            None,
            takes,
        );
        match sent {
            Ok(()) => self.lose_front(judged, alone),
            Err(fault) => Err(fault),
        }
    }
}
