//! The kinds F2 to F7 of a message, from the notes on earlier messages (Q.771, Q.773, Q.774).

ghost use Rattle.std.specs.Prelude.{◌≡◌, option_copied};
ghost use Rattle.tcap_msg.specs.Meaning.{cause_of};
ghost use Rattle.tcap_msg.specs.Parts.{cause_in, dialogue_in, dtid_in, kind_in};
ghost use Rattle.tcap_refute.specs.Facts.{Asked, Begun, Spoke, WentElsewhere, WentOn};
ghost use Rattle.tcap_refute.specs.KeptFacts.{fact_by_from};
ghost use Rattle.tcap_refute.specs.KindsByFacts.{cause_is_unfounded, comes_after_end, dialogue_is_misplaced, id_is_reused, kind_by, kind_of_ids, kind_of_parts, transaction_is_unknown, was_not_asked};

use crate::components::component_of;
use crate::dialogues::{is_misplaced_in_abort, is_misplaced_in_continue, is_uni};
use crate::kind::Kind;
use crate::sent_from_id::FromId;
use tcap_ber::SmallView;
use tcap_end::{Table, is_request};
use tcap_msg::{Kind as Form, MessageParts, TransactionIdView};

/// Returns whether a Begin was sent from the ID.
fn has_begun(from: Option<&FromId>) -> bool
    ensures { result ≡ fact_by_from (option_copied from.entry) Begun }
{
    matches!(from, Some(kept) if kept.begun)
}

/// Returns whether a Begin with a dialogue request was sent from the ID.
fn has_asked(from: Option<&FromId>) -> bool
    ensures { result ≡ fact_by_from (option_copied from.entry) Asked }
{
    matches!(from, Some(kept) if kept.asked)
}

/// Returns whether a Continue was sent from the ID.
fn has_continued(from: Option<&FromId>) -> bool
    ensures { result ≡ fact_by_from (option_copied from.entry) WentOn }
{
    matches!(from, Some(kept) if kept.continued)
}

/// Returns whether a message was sent from the ID.
fn has_sent(from: Option<&FromId>) -> bool
    ensures { result ≡ fact_by_from (option_copied from.entry) Spoke }
{
    has_begun(from) || has_continued(from)
}

/// Returns whether a Continue was sent from the ID to another ID than `dtid`.
fn went_elsewhere(from: Option<&FromId>, dtid: TransactionIdView) -> bool
    ensures { result ≡ fact_by_from (option_copied from.entry) (WentElsewhere dtid.entry.octets.now) }
{
    match from {
        Some(kept) => kept.destinations.is_elsewhere(dtid),
        None => false,
    }
}

/// Returns whether no message from the ID is a reason for an Abort of the provider with this cause.
fn cause_is_unfounded(from: Option<&FromId>, cause: SmallView) -> bool
    ensures { result ≡ cause_is_unfounded (fact_by_from (option_copied from.entry)) cause.number }
{
    match cause.number {
        1 => !has_continued(from),
        4 => !has_begun(from),
        _ => true,
    }
}

/// Returns whether nothing was sent from the ID that a message with this cause, if it has one, can refer to.
fn was_not_asked(from: Option<&FromId>, cause: Option<SmallView>) -> bool
    ensures { result ≡ was_not_asked (fact_by_from (option_copied from.entry)) (cause_of cause) }
{
    match cause {
        None => !has_sent(from),
        Some(cause) => !has_sent(from) || cause_is_unfounded(from, cause),
    }
}

/// Returns whether the message has F2. `from` has what the peer sent from the destination ID.
fn transaction_is_unknown<M: MessageParts>(from: Option<&FromId>, message: &M) -> bool
    ensures { result ≡ transaction_is_unknown (fact_by_from (option_copied from.entry)) (M.meaning message.now) }
{
    message.dtid().is_some() && was_not_asked(from, message.cause())
}

/// Returns whether the message has F3. `from` has what its end sent from the originating ID.
fn id_is_reused<M: MessageParts>(from: Option<&FromId>, message: &M) -> bool
    ensures { result ≡ id_is_reused (fact_by_from (option_copied from.entry))
        (dtid_in (M.meaning message.now)) (kind_in (M.meaning message.now)) }
{
    match (message.kind(), message.dtid()) {
        (Form::Begin, _) => has_sent(from),
        (Form::Continue, Some(dtid)) => went_elsewhere(from, dtid),
        _ => false,
    }
}

/// Returns whether the message has F7. `from` has what the peer sent from the destination ID.
fn dialogue_is_misplaced<M: MessageParts>(from: Option<&FromId>, message: &M) -> bool
    ensures { result ≡ dialogue_is_misplaced (fact_by_from (option_copied from.entry) Asked)
        (kind_in (M.meaning message.now)) (dialogue_in (M.meaning message.now)) }
{
    let dialogue = message.dialogue();
    match message.kind() {
        Form::Unidirectional => dialogue.is_some() && !is_uni(dialogue),
        Form::Begin => dialogue.is_some() && !is_request(dialogue),
        Form::Abort => is_misplaced_in_abort(has_asked(from), dialogue),
        _ => is_misplaced_in_continue(has_asked(from), dialogue),
    }
}

/// Returns whether the message has F4. `has_ended` is whether its end ended this dialogue before.
fn comes_after_end<M: MessageParts>(has_ended: bool, message: &M) -> bool
    ensures { result ≡ comes_after_end has_ended (cause_in (M.meaning message.now)) }
{
    match message.cause() {
        None => has_ended,
        Some(_) => false,
    }
}

/// Returns the lowest of F2 to F4 that the message has.
///
/// `own` has what its end sent from the originating ID, and `from_peer` what the peer sent from the destination ID.
fn kind_of_ids<M: MessageParts>(
    own: Option<&FromId>,
    from_peer: Option<&FromId>,
    has_ended: bool,
    message: &M,
) -> Option<Kind>
    ensures { result ≡ kind_of_ids (fact_by_from (option_copied own.entry))
        (fact_by_from (option_copied from_peer.entry)) has_ended
        (M.meaning message.now) }
{
    if transaction_is_unknown(from_peer, message) {
        Some(Kind::UnknownTransaction)
    } else if id_is_reused(own, message) {
        Some(Kind::ReusedId)
    } else if comes_after_end(has_ended, message) {
        Some(Kind::AfterEnd)
    } else {
        None
    }
}

/// Returns the lowest of F5 to F7 that the message has. `from_peer` has what the peer sent from the destination ID.
fn kind_of_parts<M: MessageParts>(
    of_one: bool,
    table: &Table,
    from_peer: Option<&FromId>,
    message: &M,
) -> Option<Kind>
    ensures { result ≡ kind_of_parts of_one table.now (fact_by_from (option_copied from_peer.entry))
        (M.meaning message.now) }
{
    if component_of(of_one, table, from_peer, message, Kind::AnswersNothing).is_some() {
        Some(Kind::AnswersNothing)
    } else if component_of(of_one, table, from_peer, message, Kind::WrongOperation).is_some() {
        Some(Kind::WrongOperation)
    } else if dialogue_is_misplaced(from_peer, message) {
        Some(Kind::MisplacedDialogue)
    } else {
        None
    }
}

/// Returns the lowest of F2 to F7 that the message has.
///
/// `own` has what its end sent from the originating ID, and `from_peer` what the peer sent from the destination ID.
/// `has_ended` is whether its end ended this dialogue before, and `of_one` whether that end alone is judged.
pub(crate) fn kind_by<M: MessageParts>(
    of_one: bool,
    table: &Table,
    own: Option<&FromId>,
    from_peer: Option<&FromId>,
    has_ended: bool,
    message: &M,
) -> Option<Kind>
    ensures { result ≡ kind_by of_one table.now (fact_by_from (option_copied own.entry))
        (fact_by_from (option_copied from_peer.entry))
        has_ended (M.meaning message.now) }
{
    match kind_of_ids(own, from_peer, has_ended, message) {
        Some(kind) => Some(kind),
        None => kind_of_parts(of_one, table, from_peer, message),
    }
}
