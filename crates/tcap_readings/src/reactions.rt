//! Finds how an end reacts to a malformed message of its peer.

ghost use Rattle.std.specs.Prelude.{◌≡◌, option_copied};
ghost use Rattle.std.specs.List.{list_any};
ghost use Rattle.tcap_parts.specs.Meaning.{component_of};
ghost use Rattle.tcap_msg.specs.Meaning.{id_of};
ghost use Rattle.tcap_msg.specs.Parts.{components_in};
ghost use Rattle.tcap_readings.specs.Reactions.{answer, faulty_id, goes_on_at, has_cause, is_doubtful, is_fitting, is_in_doubt, is_named, is_named_answer, is_provider_abrt, is_reaction, is_same_id, later, message_in, next, reacts, refuses, rejects, reports_malformed};

use crate::malformed::{Malformed, entries_after};
use crate::way::Way;
use tcap_dialogues::SoundPart;
use tcap_msg::{Kind, Message, MessageParts, TransactionIdView};
use tcap_parts::{ComponentView, DialogueView, ProblemView};
use tcap_record::{Body, End, Entry};

/// A reaction of an end to a malformed message of its peer (Q.774 3.2.1, 3.2.2.2, 3.3.4).
#[derive(Clone, Copy, Debug, PartialEq, Eq)]
pub enum Reaction {
    /// An Abort whose cause says that the message was malformed.
    Report,
    /// An Abort with an ABRT of source 1, the dialogue service provider.
    ProviderAbrt,
    /// A message with a Reject of a component that could not be read.
    Reject,
    /// An Abort whose cause refuses the transaction of the message.
    Refusal,
    /// A message other than an Abort of the provider.
    GoingOn,
}

/// Returns the message of an entry, if this end sent it.
pub(crate) fn message_in(end: End, entry: &Entry) -> Option<&Message>
    ensures { option_copied result ≡ message_in end entry.now }
{
    match (entry.side, &entry.body) {
        (Some(sender), Body::Good(message)) if end.is(sender) => Some(message),
        _ => None,
    }
}

/// Returns whether there is an ID, and it is the other one.
pub(crate) fn is_same_id(id: Option<TransactionIdView>, other: Option<TransactionIdView>) -> bool
    ensures { result ≡ is_same_id (id_of id.entry) (id_of other.entry) }
{
    match (id, other) {
        (Some(id), Some(other)) => id.octets == other.octets,
        _ => false,
    }
}

// ---- messages

/// Returns whether a message has this P-Abort cause.
pub(crate) fn has_cause(number: u8, message: &Message) -> bool
    ensures { result ≡ has_cause number message.now }
{
    match message.cause() {
        Some(cause) => cause.number == number,
        None => false,
    }
}

/// Returns whether the P-Abort cause of a message says that one of this kind was malformed.
pub(crate) fn reports_malformed(kind: Option<Kind>, message: &Message) -> bool
    ensures { result ≡ reports_malformed kind message.now }
{
    has_cause(2, message) || has_cause(3, message) || (kind.is_none() && has_cause(0, message))
}

/// Returns whether a message is an Abort with an ABRT of source 1.
fn is_provider_abrt(message: &Message) -> bool
    ensures { result ≡ is_provider_abrt message.now }
{
    if message.kind() != Kind::Abort {
        return false;
    }
    match message.dialogue() {
        Some(DialogueView::Abort { source, .. }) => source.number == 1,
        _ => false,
    }
}

/// Returns whether a component is a Reject with a general problem 0, 1 or 2, and without an invoke ID or with this one.
pub(crate) fn is_fitting(at: Option<i8>, component: ComponentView) -> bool
    ensures { result ≡ is_fitting at (component_of component.entry) }
{
    match component {
        ComponentView::Reject {
            id,
            problem: ProblemView::General(problem),
        } => problem.number <= 2 && (id.is_none() || id == at),
        _ => false,
    }
}

/// Returns whether a message has such a Reject.
fn rejects(at: Option<i8>, message: &Message) -> bool
    ensures { result ≡ rejects at message.now }
{
    for component in message.components() {
        if is_fitting(at, component) {
            return true;
        }
    }
    false
}

/// Returns whether the P-Abort cause of a message refuses the transaction of one of this kind.
fn refuses(kind: Option<Kind>, message: &Message) -> bool
    ensures { result ≡ refuses kind message.now }
{
    match kind {
        Some(Kind::Begin) => has_cause(4, message),
        Some(Kind::Continue) => has_cause(1, message),
        _ => false,
    }
}

/// Returns the invoke ID of the component at fault, if it can be read.
pub(crate) fn faulty_id(sound: Option<&SoundPart>) -> Option<i8>
    ensures { result ≡ faulty_id (option_copied sound.entry) }
{
    sound?.invoke_id
}

/// Returns whether a message is this reaction to a malformed one.
fn is_reaction(reaction: Reaction, malformed: &Malformed, message: &Message) -> bool
    ensures { result ≡ is_reaction reaction malformed.now message.now }
{
    match reaction {
        Reaction::Report => reports_malformed(malformed.kind, message),
        Reaction::ProviderAbrt => is_provider_abrt(message),
        Reaction::Reject => rejects(faulty_id(malformed.sound.as_ref()), message),
        Reaction::Refusal => refuses(malformed.kind, message),
        Reaction::GoingOn => message.cause().is_none(),
    }
}

// ---- later entries

/// Returns whether an entry is this reaction to a malformed message: the peer of the sender sends it to the originating
/// ID of the message.
fn reacts(reaction: Reaction, malformed: &Malformed, entry: &Entry) -> bool
    ensures { result ≡ reacts reaction malformed.now entry.now }
{
    match message_in(malformed.sender.other(), entry) {
        Some(message) => {
            is_same_id(malformed.otid(), message.dtid())
                && is_reaction(reaction, malformed, message)
        }
        None => false,
    }
}

/// Returns the number of the first entry with this reaction after this number.
fn next(reaction: Reaction, malformed: &Malformed, after: u64, entries: &[Entry]) -> Option<u64>
    ensures { result ≡ next reaction malformed.now after entries.now }
{
    if after as usize >= entries.len() {
        return None;
    }
    let rest = entries_after(after, entries);
    let mut at = after;
    for entry in rest {
        at += 1;
        if reacts(reaction, malformed, entry) {
            return Some(at);
        }
    }
    None
}

/// Returns the number of the first entry after a malformed one with this reaction.
pub(crate) fn later(reaction: Reaction, malformed: &Malformed, entries: &[Entry]) -> Option<u64>
    ensures { result ≡ later reaction malformed.now entries.now }
{
    next(reaction, malformed, malformed.number, entries)
}

/// Returns the number of the entry that answers a malformed message: the first later Abort that says by its cause that
/// the message was malformed, or if there is none, the first with an ABRT of source 1.
pub fn answer(malformed: &Malformed, entries: &[Entry]) -> Option<u64>
    ensures { result ≡ answer malformed.now entries.now }
{
    match later(Reaction::Report, malformed, entries) {
        Some(number) => Some(number),
        None => later(Reaction::ProviderAbrt, malformed, entries),
    }
}

/// Returns the number of the first entry after the answer with this number by which the end goes on: a message to the
/// originating ID of the malformed one other than an Abort of the provider.
pub fn goes_on_at(malformed: &Malformed, at: u64, entries: &[Entry]) -> Option<u64>
    ensures { result ≡ goes_on_at malformed.now at entries.now }
{
    next(Reaction::GoingOn, malformed, at, entries)
}

/// Returns whether Q.774 names such an answer for a malformed message.
fn is_named(malformed: &Malformed, message: &Message) -> bool
    ensures { result ≡ is_named malformed.now message.now }
{
    if malformed.sound.is_some() {
        return false;
    }
    match malformed.kind {
        None => has_cause(0, message),
        Some(Kind::End | Kind::Abort) => false,
        Some(_) => {
            has_cause(2, message)
                || has_cause(3, message)
                || (malformed.has_dialogue && is_provider_abrt(message))
        }
    }
}

/// Returns whether an entry is an answer that Q.774 names for a malformed message.
fn is_named_answer(malformed: &Malformed, entry: Option<&Entry>) -> bool
    ensures { result ≡ is_named_answer malformed.now (option_copied entry.entry) }
{
    let Some(entry) = entry else {
        return false;
    };
    match message_in(malformed.sender.other(), entry) {
        Some(message) => is_named(malformed, message),
        None => false,
    }
}

/// Returns whether it is in doubt that the entry with this number is an answer to a malformed message: Q.774 names no
/// such answer for it, or the end goes on afterwards.
fn is_doubtful(malformed: &Malformed, at: u64, entries: &[Entry]) -> bool
    ensures { result ≡ is_doubtful malformed.now at entries.now }
{
    !is_named_answer(malformed, entries.get(at as usize))
        || goes_on_at(malformed, at, entries).is_some()
}

/// Returns whether it is in doubt that an end took a malformed message of its peer in this way: it answers with an Abort,
/// and Q.774 names no such answer for the message, or the end goes on afterwards.
pub fn is_in_doubt(way: Way, malformed: &Malformed, entries: &[Entry]) -> bool
    ensures { result ≡ is_in_doubt way malformed.now entries.now }
{
    if way != Way::Aborted {
        return false;
    }
    match answer(malformed, entries) {
        Some(at) => is_doubtful(malformed, at, entries),
        None => false,
    }
}
