//! Messages in a replay that an end sends, or by which its provider answers a message (Q.774 3.2 and 3.3).

ghost use Rattle.std.specs.Prelude.{◌≡◌, ◌<◌, ◌≤◌, ◌+◌, ◌^◌, [], ◌∷◌, Err, length, filter_map, IfOk, IfSome, OnErr, OnOk};
ghost use Rattle.tcap_parts.specs.Meaning.{component_of};
ghost use Rattle.tcap_msg.specs.Parts.{components_in};
ghost use Rattle.tcap_end.specs.Step.{AnswersInMemory};
ghost use Rattle.tcap_end.specs.Message.{send};
ghost use Rattle.tcap_record.specs.Ends.{other};
ghost use Rattle.tcap_model.specs.declared.reason.Reason.TheVariants.{Memory};
ghost use Rattle.tcap_certificate.specs.DescribedRun.{invoke_id, invoking_half};
ghost use Rattle.tcap_check.specs.Progress.{GrewBy, IsAsMany, IsMemory, YieldsInMemory, end_tried, first_answered, first_may_be_answered, front_lost};
ghost use Rattle.tcap_check.specs.Progress.{ids_ended_over, invoked_ended, load, may_be_answered, message_kept, overtakes, reply_kept};
ghost use Rattle.tcap_check.specs.Progress.{side_at, side_with, send_kept, sending, sent_by, time_or_zero, unheard_load, with_side};
ghost use Rattle.tcap_check.specs.Progress.{with_side_end, with_steps};
ghost use Rattle.tcap_certificate.specs.Replay.{fault_at};
ghost use Rattle.tcap_check.specs.RefusedReplay.{Leaves, implied_left, message_left};
ghost use Rattle.tcap_check.specs.RunSoFar.{ShowsSend};

use crate::held_message::WaitingMessage;
use crate::progress::{OUT_OF_MEMORY, Progress, SideState, Waiting, copy_name};
use crate::step::Step;
use std::alloc::{AllocError, Global};
use tcap_certificate::{CheckFault, Fate};
use tcap_end::{EndFault, HalfName, Table};
use tcap_model::Reason;
use tcap_msg::{Kind, Message, MessageParts};
use tcap_parts::ComponentView;
use tcap_record::End;

/// The step by which a message is sent.
#[derive(Clone, Copy)]
pub(crate) enum SendKind {
    /// The end sends the message by the rules.
    Sends,
    /// The end sends the message and need not keep the rules.
    Tells,
    /// The provider of the end answers the message with this number.
    Replies(u64),
}

/// Returns the time of a fate: 2g for gap g, 2k + 1 for a reply in entry k, and 0 for a loss.
fn time_or_zero(fate: Fate) -> u64
    ensures { result ≡ time_or_zero fate }
{
    match fate {
        Fate::Gap(gap) => 2 * u64::from(gap),
        Fate::By(reply) => 2 * u64::from(reply) + 1,
        Fate::Lost => 0,
    }
}

/// Returns the half over which a message invokes: by own ID for a Begin or a Continue, by the peer's ID for an End.
fn invoking_half<M: MessageParts>(message: &M) -> Option<HalfName>
    ensures { result ≡ invoking_half (M.meaning message.now) }
{
    match (message.kind(), message.otid(), message.dtid()) {
        (Kind::Begin | Kind::Continue, Some(otid), _) => {
            Some(HalfName::Own(otid.to_transaction_id()))
        }
        (Kind::End, _, Some(dtid)) => Some(HalfName::Peer(dtid.to_transaction_id())),
        _ => None,
    }
}

/// Returns whether the provider of an end may answer a message by this Abort. It never answers a message that will be
/// lost.
fn may_refuse<A: MessageParts>(state: &SideState, first: &Waiting, abort: &A) -> bool
    ensures { result ≡ may_be_answered state.now.end first.now.message (A.meaning abort.now) }
{
    let Some(first) = &first.message else {
        return false;
    };
    let first = first.view();
    state.end.refuse_begin(&first, abort).is_ok()
        || state.end.refuse_continue(&first, abort).is_ok()
}

impl<'r> SideState<'r> {
    /// Returns whether a message with this fate leaves the channel before an earlier message of its end.
    pub(crate) fn overtakes(&self, fate: Fate) -> bool
        ensures { result ≡ overtakes fate self.now }
    {
        match fate {
            Fate::Lost => false,
            _ => time_or_zero(fate) < self.latest,
        }
    }

    /// Appends a message to the end's channel. The message itself is not kept if it will be lost. Fails if memory runs
    /// out.
    fn join<M: MessageParts>(
        &mut self,
        alloc: Global,
        fate: Fate,
        number: u64,
        message: &M,
        lent: Option<&'r Message>,
    ) -> Result<(), AllocError>
        requires same { IfSome lent (λ lent. lent.now ≡ M.meaning message.now) }
        ensures { OnOk result (self.new ≡ side_with fate number (M.meaning message.now) self.old) }
    {
        let message = match fate {
            Fate::Lost => None,
            _ => Some(WaitingMessage::new(alloc, message, lent)?),
        };
        self.waiting.push_back(Waiting { number, message })?;
        let time = time_or_zero(fate);
        if self.latest < time {
            self.latest = time;
        }
        Ok(())
    }
}

/// Copies a message. Fails if memory runs out.
fn copied<M: MessageParts>(alloc: Global, message: &M) -> Result<Message, CheckFault>
    ensures copied { IfOk result (λ copy. copy ≡ M.meaning message.now) }
    ensures memory { OnErr result (result ≡ Err (fault_at Memory 0)) }
{
    message.to_message(alloc).map_err(|_| OUT_OF_MEMORY)
}

impl<'r> Progress<'r> {
    /// Appends the step that sends a message to the list of steps, if there is one. Fails if memory runs out.
    fn list_sent<M: MessageParts>(
        &mut self,
        alloc: Global,
        way: SendKind,
        side: End,
        message: &M,
    ) -> Result<(), CheckFault>
        ensures steps { OnOk result (self.new ≡ with_steps (sending way side (M.meaning message.now) ∷ []) self.old) }
        ensures memory { IsMemory result }
    {
        if self.steps.is_none() {
            return Ok(());
        }
        let step = match way {
            SendKind::Sends => Step::Sends(side, copied(alloc, message)?),
            SendKind::Tells => Step::Tells(side, copied(alloc, message)?),
            SendKind::Replies(number) => Step::Replies(side, number),
        };
        self.list_step(step)
    }

    /// Appends a message to its end's channel. Fails if memory runs out.
    fn put<M: MessageParts>(
        &mut self,
        alloc: Global,
        side: End,
        fate: Fate,
        number: u64,
        message: &M,
        lent: Option<&'r Message>,
    ) -> Result<(), CheckFault>
        requires same { IfSome lent (λ lent. lent.now ≡ M.meaning message.now) }
        ensures put { OnOk result (self.new
            ≡ with_side side (side_with fate number (M.meaning message.now) (side_at side self.old)) self.old) }
        ensures memory { IsMemory result }
    {
        let joined = match side {
            End::A => self.a.join(alloc, fate, number, message, lent),
            End::B => self.b.join(alloc, fate, number, message, lent),
        };
        joined.map_err(|_| OUT_OF_MEMORY)
    }

    /// Appends a message to its end's channel, and counts the step by which it is sent. Fails if memory runs out.
    pub(crate) fn join<M: MessageParts>(
        &mut self,
        alloc: Global,
        way: SendKind,
        side: End,
        fate: Fate,
        number: u64,
        message: &M,
        lent: Option<&'r Message>,
    ) -> Result<(), CheckFault>
        requires no_overflow { self.old.moves + 1 < 2 ^ 128 }
        requires same { IfSome lent (λ lent. lent.now ≡ M.meaning message.now) }
        ensures sent { OnOk result (self.new
            ≡ sent_by (sending way side (M.meaning message.now)) side fate number (M.meaning message.now) self.old) }
        ensures memory { IsMemory result }
        ensures grows { OnOk result (GrewBy 2 1 self.old self.new) }
    {
        self.put(alloc, side, fate, number, message, lent)?;
        self.moves += 1;
        self.list_sent(alloc, way, side, message)
    }

    /// Expires an own invocation of an end, if it may expire. Fails if memory runs out.
    fn try_end(
        &mut self,
        table: &Table,
        side: End,
        name: HalfName,
        id: i8,
    ) -> Result<(), CheckFault>
        requires no_overflow { self.old.moves + 1 < 2 ^ 128 }
        ensures ended { OnOk result (self.new ≡ end_tried table.now side name id self.old) }
        ensures memory { IsMemory result }
    {
        let own = copy_name(&name);
        let ended = match side {
            End::A => self.a.end.expire(table, own, id),
            End::B => self.b.end.expire(table, own, id),
        };
        if ended.is_err() {
            return Ok(());
        }
        self.moves += 1;
        self.list_step(Step::Expires(side, name, id))
    }

    /// Expires the earlier invocation whose ID this component invokes again, if it may expire. Fails if memory runs
    /// out.
    fn end_invoked<M: MessageParts>(
        &mut self,
        table: &Table,
        side: End,
        message: &M,
        component: ComponentView,
    ) -> Result<(), CheckFault>
        requires no_overflow { self.old.moves + 1 < 2 ^ 128 }
        ensures ended { OnOk result (self.new ≡ invoked_ended table.now side (invoking_half (M.meaning message.now))
            (invoke_id (component_of component.entry)) self.old) }
        ensures memory { IsMemory result }
    {
        let ComponentView::Invoke { id, .. } = component else {
            return Ok(());
        };
        match invoking_half(message) {
            Some(name) => self.try_end(table, side, name, id),
            None => Ok(()),
        }
    }

    /// Expires each earlier invocation whose ID a message invokes again, if it may expire. Fails if memory runs out.
    fn end_implied<M: MessageParts>(
        &mut self,
        table: &Table,
        side: End,
        message: &M,
    ) -> Result<(), CheckFault>
        requires no_overflow { self.old.moves + length (components_in (M.meaning message.now)) < 2 ^ 128 }
        ensures ended { OnOk result (self.new ≡ ids_ended_over table.now side (invoking_half (M.meaning message.now))
            (filter_map invoke_id (components_in (M.meaning message.now))) self.old) }
        ensures memory { IsMemory result }
        ensures grows { OnOk result (self.new.moves ≤ self.old.moves + length (components_in (M.meaning message.now))) }
        ensures still { OnOk result (IsAsMany self.old self.new) }
    {
        for component in message.components() {
            self.end_invoked(table, side, message, component)?;
        }
        Ok(())
    }

    /// Sends a message from an end without expiries before it. Fails with the end's reason, and changes nothing then.
    fn send_as_is<M: MessageParts>(
        &mut self,
        table: &Table,
        side: End,
        message: &M,
    ) -> Result<(), EndFault>
        ensures step { AnswersInMemory (send table.now (side_at side self.old).end (M.meaning message.now)) result
            (side_at side self.new).end }
        ensures rest { self.new ≡ with_side_end side (side_at side self.new).end self.old }
        ensures kept { OnErr result (self.new ≡ self.old) }
        ensures stays { self.new.moves ≡ self.old.moves }
        ensures still { IsAsMany self.old self.new }
    {
        match side {
            End::A => self.a.end.send(table, message),
            End::B => self.b.end.send(table, message),
        }
    }

    /// Sends a message from an end. First tries without expiries: a message that can be sent this way invokes no ID in
    /// use. Else expires the earlier invocations whose IDs it invokes again, and tries once more. Fails with
    /// `SendRefused` or `Memory`.
    #[tactic(auto, using(crate::proofs::checker_laws::SendingLaws::sends_as_is, crate::proofs::refusal_laws::SendShows::memory_shows))]
    fn send<M: MessageParts>(
        &mut self,
        alloc: Global,
        table: &Table,
        side: End,
        fate: Fate,
        number: u64,
        message: &M,
        lent: Option<&'r Message>,
    ) -> Result<(), CheckFault>
        requires no_overflow { self.old.moves < 2 ^ 127 }
        requires same { IfSome lent (λ lent. lent.now ≡ M.meaning message.now) }
        ensures sent { YieldsInMemory (send_kept table.now side fate number (M.meaning message.now) self.old) result
            self.new }
        ensures left { Leaves (implied_left table.now side (M.meaning message.now) self.old) result self.new }
        ensures shows { ShowsSend table.now side number (M.meaning message.now) result self.new }
        ensures grows { OnOk result (GrewBy (2 ^ 65) 1 self.old self.new) }
    {
        match self.send_as_is(table, side, message) {
            Ok(()) => return self.join(alloc, SendKind::Sends, side, fate, number, message, lent),
            Err(EndFault::Memory) => return Err(OUT_OF_MEMORY),
            Err(_) => (),
        }
        if message.count() > 0 {
            self.end_implied(table, side, message)?;
        }
        match self.send_as_is(table, side, message) {
            Ok(()) => self.join(alloc, SendKind::Sends, side, fate, number, message, lent),
            Err(EndFault::Memory) => Err(OUT_OF_MEMORY),
            Err(fault) => Err(CheckFault {
                reason: Reason::SendRefused(fault),
                entry: number,
            }),
        }
    }

    /// Returns whether the first message on its way to an end has this number, and the end's provider may answer it by
    /// this Abort.
    fn may_answer<A: MessageParts>(&self, side: End, abort: &A, taken: u32) -> bool
        ensures { result ≡ first_may_be_answered side (A.meaning abort.now) taken
            (side_at (other side) self.now).waiting self.now }
    {
        match self.side_state(side.other()).waiting.front() {
            Some(first) => {
                first.number == u64::from(taken) && may_refuse(self.side_state(side), first, abort)
            }
            None => false,
        }
    }

    /// Answers the first message on its way to an end, which must have this number, by its provider. Fails with
    /// `BadReply` or `Memory`.
    #[tactic(auto, using(crate::proofs::checker_laws::SendingLaws::answered, crate::proofs::checker_laws::SendingLaws::not_answered))]
    fn answer_first<A: MessageParts>(
        &mut self,
        alloc: Global,
        side: End,
        fate: Fate,
        number: u64,
        abort: &A,
        lent: Option<&'r Message>,
        taken: u32,
    ) -> Result<(), CheckFault>
        requires no_overflow { self.old.moves < 2 ^ 127 }
        requires same { IfSome lent (λ lent. lent.now ≡ A.meaning abort.now) }
        ensures answered { YieldsInMemory (first_answered side fate number (A.meaning abort.now) taken
            (side_at (other side) self.old).waiting self.old) result self.new }
        ensures left { Leaves self.old result self.new }
    {
        if !self.may_answer(side, abort, taken) {
            return Err(CheckFault {
                reason: Reason::BadReply,
                entry: number,
            });
        }
        self.drop_first(side.other());
        let way = SendKind::Replies(u64::from(taken));
        self.join(alloc, way, side, fate, number, abort, lent)
    }

    /// Answers the message with number `taken` by the end's provider, after the losses before it. Fails with `BadReply`
    /// or `Memory`.
    fn answer<A: MessageParts>(
        &mut self,
        alloc: Global,
        judged: Option<End>,
        side: End,
        fate: Fate,
        number: u64,
        abort: &A,
        lent: Option<&'r Message>,
        taken: u32,
    ) -> Result<(), CheckFault>
        requires no_overflow { load self.old < 2 ^ 127 }
        requires count { unheard_load self.old < 2 ^ 63 }
        requires same { IfSome lent (λ lent. lent.now ≡ A.meaning abort.now) }
        ensures answered { YieldsInMemory (reply_kept judged side fate number (A.meaning abort.now) taken self.old)
            result self.new }
        ensures left { Leaves (front_lost judged (other side) self.old) result self.new }
        ensures grows { OnOk result (GrewBy 2 1 self.old self.new) }
    {
        self.lose_front(judged, side.other())?;
        self.answer_first(alloc, side, fate, number, abort, lent, taken)
    }

    /// Sends a message that takes these messages. An Abort with a cause is the provider's answer to exactly one
    /// message. Any other message takes none, and the end sends it. The message is lent if it outlives the replay.
    /// Fails with `BadReply`, `SendRefused` or `Memory`.
    #[tactic(auto, using(crate::proofs::refusal_laws::SendShows::reply_shows))]
    pub(crate) fn send_or_answer<M: MessageParts>(
        &mut self,
        alloc: Global,
        table: &Table,
        judged: Option<End>,
        side: End,
        fate: Fate,
        number: u64,
        message: &M,
        lent: Option<&'r Message>,
        taken: &[u32],
    ) -> Result<(), CheckFault>
        requires no_overflow { load self.old < 2 ^ 127 }
        requires count { unheard_load self.old < 2 ^ 63 }
        requires same { IfSome lent (λ lent. lent.now ≡ M.meaning message.now) }
        ensures taken { YieldsInMemory
            (message_kept judged table.now side fate number (M.meaning message.now) taken.now self.old)
            result self.new }
        ensures left { Leaves (message_left judged table.now side (M.meaning message.now) taken.now self.old) result
            self.new }
        ensures shows { ShowsSend table.now side number (M.meaning message.now) result self.new }
        ensures grows { OnOk result (GrewBy (2 ^ 65) 1 self.old self.new) }
    {
        match (message.cause(), taken) {
            (Some(_), [taken]) => {
                self.answer(alloc, judged, side, fate, number, message, lent, *taken)
            }
            (None, []) => self.send(alloc, table, side, fate, number, message, lent),
            _ => Err(CheckFault {
                reason: Reason::BadReply,
                entry: number,
            }),
        }
    }
}
