//! The table by which a dialogue is judged.

ghost use Rattle.std.specs.Prelude.{◌≡◌, IfOk, option_copied, option_map};
ghost use Rattle.std.specs.List.{list_any};
ghost use Rattle.tcap_books.specs.Book.{table_of};
ghost use Rattle.tcap_traces.specs.TableChoice.{are_one, are_same, asked_by, asks_for_another, choice, context_in, first_asked, first_context, is_sole, table_or_first};
ghost use Rattle.tcap_traces.specs.Case.{chosen_as};

use std::alloc::{AllocError, Global};
use tcap_books::{Book, Context, NamedTable};
use tcap_msg::{Kind as Form, Message, MessageParts};
use tcap_parts::DialogueView;
use tcap_record::{Body, Entry};

/// The table and the application context name of a dialogue, and whether the choice of the table is unsure.
#[derive(Drop)]
pub(crate) struct ChosenTable<'a> {
    pub(crate) table: Option<&'a NamedTable>,
    pub(crate) context: Option<Vec<u8>>,
    pub(crate) unsure: bool,
}

/// Returns the application context name in the dialogue portion of a message, if it has one (Q.773 4.2.3).
pub fn context_in(message: &Message) -> Option<&[u8]>
    ensures { option_copied result ≡ context_in message.now }
{
    match message.dialogue() {
        Some(
            DialogueView::Request { context, .. }
            | DialogueView::Response { context, .. }
            | DialogueView::Uni { context, .. },
        ) => Some(context.octets),
        _ => None,
    }
}

/// Returns the application context name, or its absence, of an entry that is a Begin or a Unidirectional; None for
/// another entry.
fn asked_by(entry: &Entry) -> Option<Option<&[u8]>>
    ensures { option_map (λ context. option_copied context) result ≡ asked_by entry.now.body }
{
    match &entry.body {
        Body::Good(message) => match message.kind() {
            Form::Begin | Form::Unidirectional => Some(context_in(message)),
            _ => None,
        },
        _ => None,
    }
}

/// Returns what the first Begin or Unidirectional of these entries asks for.
fn first_asked(entries: &[Entry]) -> Option<Option<&[u8]>>
    ensures { option_map (λ context. option_copied context) result ≡ first_asked entries.now }
{
    for entry in entries {
        if let Some(context) = asked_by(entry) {
            return Some(context);
        }
    }
    None
}

/// Returns the first application context name in the messages of these entries.
fn first_context(entries: &[Entry]) -> Option<&[u8]>
    ensures { option_copied result ≡ first_context entries.now }
{
    for entry in entries {
        if let Body::Good(message) = &entry.body {
            if let Some(context) = context_in(message) {
                return Some(context);
            }
        }
    }
    None
}

/// Returns whether these are the same contexts in the same order.
fn have_same(ones: &[Context], others: &[Context]) -> bool
    ensures { result ≡ are_same ones.now others.now }
{
    let mut rest = others;
    for one in ones {
        match rest {
            [other, more @ ..] if one.octets() == other.octets() => rest = more,
            _ => return false,
        }
    }
    rest.is_empty()
}

/// Returns whether two look-ups in a table set found the same table, or both found none.
fn are_one(one: Option<&NamedTable>, other: Option<&NamedTable>) -> bool
    ensures { result ≡ are_one (option_copied one.entry) (option_copied other.entry) }
{
    match (one, other) {
        (Some(one), Some(other)) => have_same(one.contexts(), other.contexts()),
        (None, None) => true,
        _ => false,
    }
}

/// Returns whether an entry is a Begin or a Unidirectional that asks for another table than this one.
fn asks_for_another(book: &Book, table: Option<&NamedTable>, entry: &Entry) -> bool
    ensures { result ≡ asks_for_another book.now (option_copied table.entry) entry.now }
{
    match asked_by(entry) {
        Some(context) => !are_one(table, book.table_of(context)),
        None => false,
    }
}

/// Returns whether one of these entries asks for another table than this one.
fn some_asks_for_another(book: &Book, table: Option<&NamedTable>, entries: &[Entry]) -> bool
    ensures { result ≡ list_any (asks_for_another book.now (option_copied table.entry)) entries.now }
{
    for entry in entries {
        if asks_for_another(book, table, entry) {
            return true;
        }
    }
    false
}

/// Returns the table for a context; without a context, the first table of the set.
fn table_or_first<'a>(book: &'a Book, context: Option<&[u8]>) -> Option<&'a NamedTable>
    ensures { option_copied result ≡ table_or_first book.now (option_copied context.entry) }
{
    match context {
        Some(_) => book.table_of(context),
        None => book.tables().first(),
    }
}

/// Returns whether a set is one table, which lists no contexts.
fn is_sole(book: &Book) -> bool
    ensures { result ≡ is_sole book.now }
{
    match book.tables() {
        [table] => table.contexts().is_empty(),
        _ => false,
    }
}

/// Copies a context. Fails if memory runs out.
fn copied(alloc: Global, context: Option<&[u8]>) -> Result<Option<Vec<u8>>, AllocError>
    ensures { IfOk result (λ made. option_map (λ octets. octets.items) made ≡ option_copied context.entry) }
{
    match context {
        Some(context) => {
            let mut octets = Vec::new(alloc);
            octets.extend_from_slice(context)?;
            Ok(Some(octets))
        }
        None => Ok(None),
    }
}

/// Chooses the table of a dialogue with these entries. Fails if memory runs out.
pub(crate) fn choose<'a>(
    alloc: Global,
    book: &'a Book,
    entries: &[Entry],
) -> Result<ChosenTable<'a>, AllocError>
    ensures { IfOk result (λ chosen. chosen_as chosen ≡ choice book.now entries.now) }
{
    if let Some(context) = first_asked(entries) {
        let table = book.table_of(context);
        return Ok(ChosenTable {
            table,
            context: copied(alloc, context)?,
            unsure: some_asks_for_another(book, table, entries),
        });
    }
    let context = first_context(entries);
    Ok(ChosenTable {
        table: table_or_first(book, context),
        context: copied(alloc, context)?,
        unsure: !is_sole(book),
    })
}
