//! Finds what a blame depends on besides the end that is blamed.

ghost use Rattle.std.specs.Prelude.{◌≡◌, IfOk, false, is_none, map, option_map, take};
ghost use Rattle.std.specs.List.{list_any};
ghost use Rattle.tcap_parts.specs.Meaning.{code_of, component_of};
ghost use Rattle.tcap_msg.specs.declared.kind.Kind.TheVariants as forms;
ghost use Rattle.tcap_msg.specs.Meaning.{id_of};
ghost use Rattle.tcap_msg.specs.Parts.{components_in};
ghost use Rattle.tcap_end.specs.End.{is_id};
ghost use Rattle.tcap_end.specs.Table.{operation_of};
ghost use Rattle.tcap_model.specs.Entries.{item_of};
ghost use Rattle.tcap_refute.specs.EarlierMessages.{is_a};
ghost use Rattle.tcap_refute.specs.Kind.{is_unknown_operation};
ghost use Rattle.tcap_traces.specs.Verdict.{doubt_of, faulty_component, peer_invoke_id, invokes_lacking, is_begun_by_peer, is_from, is_addressed, is_addressed_with, is_silent, peer_sent_lacking, may_be_over, message_at, depends_on_lack, depends_on_table, sends_lacking};

use crate::end_result::{Circumstances, Doubt};
use std::alloc::{AllocError, Global};
use tcap_end::Table;
use tcap_evidence::component_at;
use tcap_faults::subject_of;
use tcap_msg::{Message, MessageParts, TransactionIdView};
use tcap_parts::{CodeView, ComponentView, ProblemView};
use tcap_record::{Body, End, Entry, Record};
use tcap_refute::{Kind, Refutation};

/// Returns the message of this entry, if it is one.
fn message_at(read: &Record, number: u64) -> Option<&Message>
    ensures { option_map (λ m. m.now) result ≡ message_at read.now.entries.items number }
{
    let entry = read.entry_at(number)?;
    match (entry.side, &entry.body) {
        (Some(_), Body::Good(message)) => Some(message),
        _ => None,
    }
}

/// Returns the entries before this number.
fn entries_before(read: &Record, number: u64) -> &[Entry]
    ensures { result.now ≡ take number read.now.entries.items }
{
    let entries = read.entries.as_slice();
    &entries[..entries.len().min(number as usize)]
}

/// Returns the component at fault, if there is one. Fails if memory runs out.
fn faulty_component<'a>(
    alloc: Global,
    read: &'a Record,
    table: &Table,
    end: End,
    at: Refutation,
) -> Result<Option<ComponentView<'a>>, AllocError>
    ensures { IfOk result (λ c.
        option_map component_of c ≡ faulty_component table.now end read.now.entries.items at) }
{
    let Ok(about) = subject_of(alloc, read, table, end, at, true) else {
        return Err(AllocError);
    };
    match message_at(read, at.entry) {
        Some(message) => Ok(component_at(message, about.component)),
        None => Ok(None),
    }
}

/// Returns the invoke ID of the peer's Invoke that a component answers or, with an invoke problem, rejects. For
/// `BadLink`, returns the linked ID of the Invoke.
fn peer_invoke_id(kind: Kind, component: ComponentView) -> Option<i8>
    ensures { result ≡ peer_invoke_id kind (component_of component.entry) }
{
    match component {
        ComponentView::Invoke { linked, .. } if kind == Kind::BadLink => linked,
        ComponentView::Invoke { .. } => None,
        ComponentView::ReturnResult { id, .. } | ComponentView::ReturnError { id, .. } => Some(id),
        ComponentView::Reject { id, problem } => match problem {
            ProblemView::Invoke(_) => id,
            _ => None,
        },
    }
}

/// Returns whether an operation is not in the table.
fn lacks(table: &Table, code: CodeView) -> bool
    ensures { result ≡ is_none (operation_of table.now (code_of code.entry)) }
{
    table.class_of(code).is_none()
}

/// Returns whether a component is an Invoke of an operation that is not in the table.
fn is_unknown_operation(table: &Table, component: ComponentView) -> bool
    ensures { result ≡ is_unknown_operation table.now (component_of component.entry) }
{
    match component {
        ComponentView::Invoke { code, .. } => lacks(table, code),
        _ => false,
    }
}

/// Returns whether a component is an Invoke with this ID of an operation that is not in the table.
fn invokes_lacking(table: &Table, id: i8, component: ComponentView) -> bool
    ensures { result ≡ invokes_lacking table.now id (component_of component.entry) }
{
    match component {
        ComponentView::Invoke {
            id: other,
            code,
            ..
        } => other == id && lacks(table, code),
        _ => false,
    }
}

/// Returns whether a message has an Invoke with this ID of an operation that is not in the table.
fn has_lacking(table: &Table, id: i8, message: &Message) -> bool
    ensures { result ≡ list_any (invokes_lacking table.now id) (components_in message.now) }
{
    for component in message.components() {
        if invokes_lacking(table, id, component) {
            return true;
        }
    }
    false
}

/// Returns whether the end sent, in this entry, an Invoke with this ID of an operation that is not in the table.
fn sends_lacking(table: &Table, end: End, id: i8, entry: &Entry) -> bool
    ensures { result ≡ sends_lacking table.now end id (item_of entry.now) }
{
    match (entry.side, &entry.body) {
        (Some(sender), Body::Good(message)) => { end.is(sender) && has_lacking(table, id, message) }
        _ => false,
    }
}

/// Returns whether the end sent, in one of these entries, an Invoke with this ID of an operation that is not in the
/// table.
fn some_sends_lacking(table: &Table, end: End, id: i8, before: &[Entry]) -> bool
    ensures { result ≡ list_any (sends_lacking table.now end id) (map item_of before.now) }
{
    for entry in before {
        if sends_lacking(table, end, id, entry) {
            return true;
        }
    }
    false
}

/// Returns whether the peer sent, in one of these entries, an Invoke with this ID of an operation that is not in the
/// table.
fn peer_sent_lacking(table: &Table, end: End, before: &[Entry], id: Option<i8>) -> bool
    ensures { result ≡ peer_sent_lacking table.now end id (map item_of before.now) }
{
    match id {
        Some(id) => some_sends_lacking(table, end.other(), id, before),
        None => false,
    }
}

/// Returns whether the component at fault invokes an operation that is not in the table, or answers one. Fails if
/// memory runs out.
fn depends_on_lack(
    alloc: Global,
    read: &Record,
    table: &Table,
    end: End,
    at: Refutation,
) -> Result<bool, AllocError>
    ensures { IfOk result (λ so. so ≡ depends_on_lack table.now end read.now.entries.items at) }
{
    let Some(component) = faulty_component(alloc, read, table, end, at)? else {
        return Ok(false);
    };
    let before = entries_before(read, at.entry);
    Ok(
        is_unknown_operation(table, component)
            || peer_sent_lacking(table, end, before, peer_invoke_id(at.kind, component)),
    )
}

/// Returns whether there is an ID and it equals the other.
fn is_same_id(found: Option<TransactionIdView>, id: TransactionIdView) -> bool
    ensures { result ≡ is_id id.entry.octets.now (id_of found.entry) }
{
    match found {
        Some(found) => id.octets == found.octets,
        None => false,
    }
}

/// Returns whether a message is a Begin.
fn is_begin(message: &Message) -> bool
    ensures { result ≡ is_a forms.Begin message.now }
{
    matches!(message, Message::Begin { .. })
}

/// Returns whether the peer has sent a message to this ID since the end's last Begin from the ID, up to this entry.
/// `so` is the answer up to the entry before.
fn is_addressed_with(end: End, id: TransactionIdView, so: bool, entry: &Entry) -> bool
    ensures { result ≡ is_addressed_with end id.entry.octets.now so (item_of entry.now) }
{
    match (entry.side, &entry.body) {
        (Some(sender), Body::Good(message)) => {
            if end.is(sender) {
                so && !(is_begin(message) && is_same_id(message.otid(), id))
            } else {
                so || is_same_id(message.dtid(), id)
            }
        }
        _ => so,
    }
}

/// Returns whether the peer has sent a message to this ID since the end's last Begin from it, or at all if there was
/// none.
fn is_addressed(end: End, id: TransactionIdView, before: &[Entry]) -> bool
    ensures { result ≡ is_addressed end id.entry.octets.now false (map item_of before.now) }
{
    let mut so = false;
    for entry in before {
        so = is_addressed_with(end, id, so, entry);
    }
    so
}

/// Returns whether there is an ID to which the peer sent no message since the end's last Begin from it.
fn is_silent(end: End, id: Option<TransactionIdView>, before: &[Entry]) -> bool
    ensures { result ≡ is_silent end (id_of id.entry) (map item_of before.now) }
{
    match id {
        Some(id) => !is_addressed(end, id, before),
        None => false,
    }
}

/// Returns whether a Begin reuses an ID (F3) whose transaction may be over without a message.
fn may_be_over(read: &Record, table: &Table, end: End, at: Refutation) -> bool
    ensures { result ≡ may_be_over table.now end read.now.entries.items at }
{
    if at.kind != Kind::ReusedId {
        return false;
    }
    match message_at(read, at.entry) {
        Some(message) => {
            let before = entries_before(read, at.entry);
            is_begin(message) && (table.prearranged() || is_silent(end, message.otid(), before))
        }
        None => false,
    }
}

/// Returns whether an entry is the first of these or a later one.
pub(crate) fn is_from(first: Option<u64>, number: u64) -> bool
    ensures { result ≡ is_from first number }
{
    match first {
        Some(first) => first <= number,
        None => false,
    }
}

/// Returns whether the peer of an end began the dialogue, given the end whose Begin began it.
pub(crate) fn is_begun_by_peer(began: Option<End>, end: End) -> bool
    ensures { result ≡ is_begun_by_peer began «end» }
{
    match began {
        Some(began) => end.other().is(began),
        None => false,
    }
}

/// Returns whether a blame of this kind depends on the row of an operation in the table: on its class, on whether it
/// expires, or on its linked operations.
fn depends_on_table(kind: Kind) -> bool
    ensures { result ≡ depends_on_table kind }
{
    matches!(
        kind,
        Kind::WrongOperation
            | Kind::InvokeIdBusy
            | Kind::BadLink
            | Kind::AnsweredAlready
            | Kind::RejectNotAllowed
    )
}

/// Returns the first doubt that makes a blame inconclusive, if there is one. Fails if memory runs out.
pub(crate) fn doubt_of(
    alloc: Global,
    read: &Record,
    table: &Table,
    circumstances: Circumstances,
    end: End,
    at: Refutation,
) -> Result<Option<Doubt>, AllocError>
    ensures { IfOk result (λ doubt. doubt ≡ doubt_of table.now circumstances end read.now.entries.items at) }
{
    if circumstances.under_way {
        return Ok(Some(Doubt::UnderWay));
    }
    if circumstances.early_mark {
        return Ok(Some(Doubt::EarlyMark));
    }
    if at.kind == Kind::OpenAtMark {
        return Ok(Some(Doubt::AtMark));
    }
    if depends_on_lack(alloc, read, table, end, at)? {
        return Ok(Some(Doubt::LackingOperation));
    }
    if may_be_over(read, table, end, at) {
        return Ok(Some(Doubt::MaybeOver));
    }
    if circumstances.unsure && depends_on_table(at.kind) {
        return Ok(Some(Doubt::UnsureTable));
    }
    if circumstances.again {
        return Ok(Some(Doubt::CameAgain));
    }
    if is_begun_by_peer(circumstances.began, end) {
        return Ok(Some(Doubt::UsedBefore));
    }
    if is_from(circumstances.unread_from, at.entry) {
        return Ok(Some(Doubt::Unread));
    }
    Ok(None)
}
