//! Writes the lines that say what a fault depends on.

ghost use Rattle.std.specs.Prelude.{◌≡◌, ◌++◌, OnOk, true, codes, map, option_map, slice_get};
ghost use Rattle.std.specs.List.{flat_map};
ghost use Rattle.std.specs.String.{string_bytes};
ghost use Rattle.tcap_parts.specs.Meaning.{component_of};
ghost use Rattle.tcap_msg.specs.Parts.{dtid_in};
ghost use Rattle.tcap_record.specs.Ends.{letter};
ghost use Rattle.tcap_record.specs.Lines.{head_text, line_end};
ghost use Rattle.tcap_evidence.specs.EvidenceWords.{component_shown, component_words, doubt_lines, entries_words, entry_line, evidence_text, fault_text, ground_line, half_line, origin_words, id_words, is_for, lacks, mark_line, message_text, more_words, number_after, open_words, own_words, sentence_words, sorted, sorted_in, refutation_text, fact_words};

use crate::finding::{Evidence, Ground, component_at, find_evidence};
use crate::operation_lines::push_invocations;
use crate::shown_facts::ShownFact;
use crate::words::{
    class_of_sort, class_words, doubt_words, is_listed_if_empty, is_of_half, kind_words,
    lacks_words, origin_words, place_words, sender_of, sort_in, sort_words,
};
use std::alloc::{AllocError, Global};
use tcap_end::Table;
use tcap_faults::{Sort, Subject};
use tcap_msg::{Message, MessageParts, TransactionId};
use tcap_parts::ComponentView;
use tcap_record::{Body, End, Entry, Record, push_component, push_head, push_hex};
use tcap_refute::{Kind, Refutation};

/// The most entries that a line names.
pub(crate) const MOST: usize = 8;

/// Appends the number of a component, if there is one.
fn push_number(text: &mut String, component: Option<u64>) -> Result<(), AllocError>
    ensures { OnOk result (string_bytes text.new ≡ string_bytes text.old ++ component_words component) }
{
    match component {
        Some(number) => write!(text, ", component {number}"),
        None => Ok(()),
    }
}

/// Appends the line of an entry at fault, with its component if one is at fault.
fn push_entry(
    text: &mut String,
    end: End,
    at: Refutation,
    component: Option<u64>,
) -> Result<(), AllocError>
    ensures { OnOk result (string_bytes text.new ≡ string_bytes text.old ++ entry_line end at component) }
{
    let number = at.entry;
    let letter = end.letter();
    write!(text, "  entry {number} of {letter}")?;
    push_number(text, component)?;
    text.push_str(": ")?;
    text.push_str(kind_words(at.kind))?;
    text.push_str("\n")
}

/// Appends the words for a quiet mark at which a transaction of an end is open.
fn push_open(text: &mut String, end: End) -> Result<(), AllocError>
    ensures { OnOk result (string_bytes text.new ≡ string_bytes text.old ++ open_words end) }
{
    text.push_str("a transaction of ")?;
    text.push_str(end.letter())?;
    text.push_str(" is open at this quiet mark")
}

/// Appends a fault of an end in one sentence, as the first line of [`push_fault`] says it after its colon.
///
/// # Errors
///
/// AllocError if memory runs out.
pub fn push_sentence(text: &mut String, end: End, kind: Kind) -> Result<(), AllocError>
    ensures { OnOk result (string_bytes text.new ≡ string_bytes text.old ++ sentence_words end kind) }
{
    match kind {
        Kind::OpenAtMark => push_open(text, end),
        _ => text.push_str(kind_words(kind)),
    }
}

/// Appends the line of a quiet mark.
fn push_mark(text: &mut String, end: End, at: Refutation) -> Result<(), AllocError>
    ensures { OnOk result (string_bytes text.new ≡ string_bytes text.old ++ mark_line end at) }
{
    let number = at.entry;
    write!(text, "  entry {number}")?;
    text.push_str(": ")?;
    push_open(text, end)?;
    text.push_str("\n")
}

/// Appends the line of a component, if there is one.
fn push_shown(text: &mut String, component: Option<ComponentView>) -> Result<(), AllocError>
    ensures { OnOk result (string_bytes text.new ≡ string_bytes text.old
        ++ component_shown (option_map component_of component.entry)) }
{
    match component {
        Some(component) => {
            text.push_str("    ")?;
            push_component(text, component)
        }
        None => Ok(()),
    }
}

/// Appends the lines of a message and a component of it.
fn push_message(
    text: &mut String,
    message: &Message,
    component: Option<ComponentView>,
) -> Result<(), AllocError>
    ensures { OnOk result (string_bytes text.new ≡ string_bytes text.old
        ++ (codes "    " ++ head_text message.now ++ line_end
        ++ component_shown (option_map component_of component.entry))) }
{
    text.push_str("    ")?;
    push_head(text, message)?;
    text.push_str("\n")?;
    push_shown(text, component)
}

/// Appends the own ID of a half, if it is known.
fn push_own(text: &mut String, own: Option<&TransactionId>) -> Result<(), AllocError>
    ensures { OnOk result
        (string_bytes text.new ≡ string_bytes text.old ++ own_words (option_map (λ id. id.now) own.entry)) }
{
    match own {
        Some(id) => {
            text.push_str(", own ID ")?;
            push_hex(text, id.octets())
        }
        None => Ok(()),
    }
}

/// Appends the line on how the half began over which a message would go, with its own ID.
fn push_origin(text: &mut String, end: End, about: &Subject) -> Result<(), AllocError>
    ensures { OnOk result (string_bytes text.new ≡ string_bytes text.old
        ++ (codes "  the transaction of " ++ letter end ++ codes ": " ++ origin_words about.now.origin
        ++ own_words about.now.own
        ++ line_end)) }
{
    text.push_str("  the transaction of ")?;
    text.push_str(end.letter())?;
    text.push_str(": ")?;
    text.push_str(origin_words(about.origin))?;
    push_own(text, about.own.as_ref())?;
    text.push_str("\n")
}

/// Appends the line of the half, if the message has a destination ID and its kind compares the half.
fn push_half(
    text: &mut String,
    end: End,
    kind: Kind,
    message: &Message,
    about: &Subject,
) -> Result<(), AllocError>
    ensures { OnOk result (string_bytes text.new ≡ string_bytes text.old
        ++ half_line end kind (dtid_in message.now) about.now) }
{
    match message.dtid() {
        Some(_) if is_of_half(kind) => push_origin(text, end, about),
        _ => Ok(()),
    }
}

/// Appends an invoke ID, if there is one.
fn push_id(text: &mut String, id: Option<i8>) -> Result<(), AllocError>
    ensures { OnOk result (string_bytes text.new ≡ string_bytes text.old ++ id_words id) }
{
    match id {
        Some(id) => write!(text, " of {id}"),
        None => Ok(()),
    }
}

/// Appends a sort of components of an invoke ID.
fn push_sort(text: &mut String, sort: Sort, id: Option<i8>) -> Result<(), AllocError>
    ensures { OnOk result (string_bytes text.new ≡ string_bytes text.old ++ sorted sort id) }
{
    text.push_str(sort_words(sort))?;
    push_id(text, id)?;
    text.push_str(class_words(class_of_sort(sort)))
}

/// Appends a sort of components of an invoke ID, if components are counted.
fn push_sorted(text: &mut String, sort: Option<Sort>, id: Option<i8>) -> Result<(), AllocError>
    ensures { OnOk result (string_bytes text.new ≡ string_bytes text.old ++ sorted_in sort id) }
{
    match sort {
        Some(sort) => push_sort(text, sort, id),
        None => Ok(()),
    }
}

/// Appends numbers of entries, each after a comma.
fn push_numbers(text: &mut String, numbers: &[u64]) -> Result<(), AllocError>
    ensures { OnOk result (string_bytes text.new ≡ string_bytes text.old ++ flat_map number_after numbers.now) }
{
    for number in numbers {
        write!(text, ", {number}")?;
    }
    Ok(())
}

/// Appends the number of entries that are not named, if any.
pub(crate) fn push_more(text: &mut String, count: usize) -> Result<(), AllocError>
    ensures { OnOk result (string_bytes text.new ≡ string_bytes text.old ++ more_words count) }
{
    if count <= MOST {
        return Ok(());
    }
    let left = count - MOST;
    write!(text, " and {left} more")
}

/// Appends the numbers of entries: the first eight, and the number of the others.
pub(crate) fn push_entries(text: &mut String, entries: &[u64]) -> Result<(), AllocError>
    ensures { OnOk result (string_bytes text.new ≡ string_bytes text.old ++ entries_words entries.now) }
{
    match entries {
        [] => text.push_str("none"),
        [only] => write!(text, "entry {only}"),
        [first, more @ ..] => {
            write!(text, "entries {first}")?;
            push_numbers(text, &more[..more.len().min(MOST - 1)])?;
            push_more(text, entries.len())
        }
    }
}

/// Appends the words for what entries show about a fault of an end: the end that sent them, and what they are.
///
/// `id` is the invoke ID, if components are counted.
///
/// # Errors
///
/// AllocError if memory runs out.
pub fn push_fact(
    text: &mut String,
    end: End,
    fact: ShownFact,
    id: Option<i8>,
) -> Result<(), AllocError>
    ensures { OnOk result (string_bytes text.new ≡ string_bytes text.old ++ fact_words end id fact) }
{
    text.push_str(sender_of(end, fact).letter())?;
    text.push_str(": ")?;
    push_sorted(text, sort_in(fact), id)?;
    text.push_str(place_words(fact))
}

/// Appends the line for a thing and the entries that show it.
fn push_ground(
    text: &mut String,
    end: End,
    id: Option<i8>,
    ground: &Ground,
) -> Result<(), AllocError>
    ensures { OnOk result (string_bytes text.new ≡ string_bytes text.old
        ++ ground_line end id (ground.now.fact, ground.now.entries.items)) }
{
    let fact = ground.fact;
    if ground.entries.is_empty() && !is_listed_if_empty(fact) {
        return Ok(());
    }
    text.push_str("  ")?;
    push_fact(text, end, fact, id)?;
    text.push_str(": ")?;
    push_entries(text, &ground.entries)?;
    text.push_str("\n")
}

/// Appends a line for each thing.
pub(crate) fn push_grounds(
    text: &mut String,
    end: End,
    id: Option<i8>,
    grounds: &[Ground],
) -> Result<(), AllocError>
    ensures { OnOk result (string_bytes text.new ≡ string_bytes text.old
        ++ flat_map (ground_line end id) (map (λ g. (g.fact, g.entries.items)) grounds.now)) }
{
    for ground in grounds {
        push_ground(text, end, id, ground)?;
    }
    Ok(())
}

/// Returns whether a component is an Invoke of an operation that the table does not have.
fn lacks(table: &Table, component: Option<ComponentView>) -> bool
    ensures { result ≡ lacks table.now (option_map component_of component.entry) }
{
    match component {
        Some(ComponentView::Invoke { code, .. }) => table.class_of(code).is_none(),
        _ => false,
    }
}

/// Appends the line with another possible explanation of a message, if there is one.
fn push_doubt(
    text: &mut String,
    table: &Table,
    kind: Kind,
    component: Option<ComponentView>,
) -> Result<(), AllocError>
    ensures { OnOk result (string_bytes text.new ≡ string_bytes text.old
        ++ doubt_lines table.now kind (option_map component_of component.entry)) }
{
    match kind {
        Kind::WrongOperation => text.push_str(lacks_words(lacks(table, component))),
        _ => text.push_str(doubt_words(kind)),
    }
}

/// Appends the lines for a message at fault.
fn push_of_message(
    text: &mut String,
    table: &Table,
    end: End,
    at: Refutation,
    message: &Message,
    found: &Evidence,
) -> Result<(), AllocError>
    ensures { OnOk result (string_bytes text.new ≡ string_bytes text.old
        ++ message_text table.now end at message.now found.now.about found.now.id
        (map (λ g. (g.fact, g.entries.items)) found.now.grounds.items)) }
{
    let about = &found.about;
    let component = component_at(message, about.component);
    push_entry(text, end, at, about.component)?;
    push_message(text, message, component)?;
    push_half(text, end, at.kind, message, about)?;
    push_grounds(text, end, found.id, &found.grounds)?;
    push_doubt(text, table, at.kind, component)
}

/// Appends the lines on what the fault of an end depends on, without its invocations.
///
/// `found` is the result of `find_evidence` for this record, table, end and refutation. Each line begins with two
/// spaces, and names the entries that show something.
///
/// # Errors
///
/// AllocError if memory runs out; some lines may have been appended by then.
pub fn push_fault(
    text: &mut String,
    record: &Record,
    table: &Table,
    end: End,
    at: Refutation,
    found: &Evidence,
) -> Result<(), AllocError>
    ensures { OnOk result (string_bytes text.new ≡ string_bytes text.old
        ++ fault_text table.now end (slice_get «record».now.entries.items at.entry) at found.now.about found.now.id
        (map (λ g. (g.fact, g.entries.items)) found.now.grounds.items)) }
{
    match record.entry_at(at.entry) {
        Some(
            Entry {
                side: Some(_),
                body: Body::Good(message),
                ..
            },
        ) => push_of_message(text, table, end, at, message, found),
        Some(
            Entry {
                side: None,
                body: Body::Quiet,
                ..
            },
        ) => {
            push_mark(text, end, at)?;
            push_grounds(text, end, None, &found.grounds)?;
            text.push_str(doubt_words(at.kind))
        }
        _ => {
            push_entry(text, end, at, None)?;
            text.push_str(doubt_words(at.kind))
        }
    }
}

/// Appends the lines of `push_fault`, and then those of the invocations on whose operations and links the fault
/// depends.
///
/// The first eight invocations have a line each, and one line has the number of the others.
///
/// # Errors
///
/// AllocError if memory runs out; some lines may have been appended by then.
pub fn push_evidence(
    text: &mut String,
    record: &Record,
    table: &Table,
    end: End,
    at: Refutation,
    found: &Evidence,
) -> Result<(), AllocError>
    ensures { OnOk result (string_bytes text.new ≡ string_bytes text.old
        ++ evidence_text table.now end (slice_get «record».now.entries.items at.entry) at found.now.about found.now.id
        (map (λ g. (g.fact, g.entries.items)) found.now.grounds.items) found.now.invocations.items) }
{
    push_fault(text, record, table, end, at, found)?;
    push_invocations(text, table, found.id, &found.invocations)
}

/// Finds the evidence for the fault of an end, and appends its lines.
///
/// `at` is the entry and the kind, as `refute` or `blame` names them; the entry must be that end's or a quiet mark.
/// `of_one` says whether the kind was found for one end alone, as `blame` does.
///
/// # Errors
///
/// AllocError if memory runs out; some lines may have been appended by then.
pub fn push_why(
    alloc: Global,
    text: &mut String,
    record: &Record,
    table: &Table,
    end: End,
    at: Refutation,
    of_one: bool,
) -> Result<(), AllocError>
    requires of_end { is_for end (slice_get «record».now.entries.items at.entry) ≡ true }
    ensures { OnOk result (string_bytes text.new ≡ string_bytes text.old
        ++ refutation_text of_one table.now end «record».now.entries.items at) }
{
    match find_evidence(alloc, record, table, end, at, of_one) {
        Ok(found) => push_evidence(text, record, table, end, at, &found),
        Err(_) => Err(AllocError),
    }
}
