//! The lines for the invocations on whose operations and links a fault depends.

ghost use Rattle.std.specs.Prelude.{◌≡◌, ◌++◌, OnOk, Some};
ghost use Rattle.std.specs.List.{flat_map};
ghost use Rattle.std.specs.String.{string_bytes};
ghost use Rattle.tcap_evidence.specs.EvidenceWords.{class_text, invocation_line, invocation_lines, link_text, more_invocations};

use crate::evidence_lines::{MOST, push_more};
use crate::operations::Invocation;
use std::alloc::AllocError;
use tcap_end::Table;
use tcap_record::push_code;

/// Appends the class of an operation.
fn push_class(text: &mut String, class: Option<u8>) -> Result<(), AllocError>
    ensures { OnOk result (string_bytes text.new ≡ string_bytes text.old ++ class_text class) }
{
    match class {
        Some(class) => write!(text, ", of class {class}"),
        None => text.push_str(", which the table lacks"),
    }
}

/// Appends the linked ID of an invocation.
fn push_link(text: &mut String, id: i8) -> Result<(), AllocError>
    ensures { OnOk result (string_bytes text.new ≡ string_bytes text.old ++ link_text (Some id)) }
{
    text.push_str(", linked to ")?;
    write!(text, "{id}")
}

/// Appends the linked ID of an invocation, if it has one.
fn push_linked(text: &mut String, linked: Option<i8>) -> Result<(), AllocError>
    ensures { OnOk result (string_bytes text.new ≡ string_bytes text.old ++ link_text linked) }
{
    match linked {
        Some(id) => push_link(text, id),
        None => Ok(()),
    }
}

/// Appends the line of an invocation.
fn push_invocation(
    text: &mut String,
    table: &Table,
    id: i8,
    invocation: &Invocation,
) -> Result<(), AllocError>
    ensures { OnOk result (string_bytes text.new ≡ string_bytes text.old
        ++ invocation_line table.now id invocation.now) }
{
    let number = invocation.entry;
    write!(text, "  invocation {id}")?;
    write!(text, " in entry {number}")?;
    text.push_str(" is of ")?;
    let code = invocation.code.view();
    push_code(text, code)?;
    push_class(text, table.class_of(code))?;
    push_linked(text, invocation.linked)?;
    text.push_str("\n")
}

/// Appends the line with the number of invocations that are not named, if any.
fn push_more_of_it(text: &mut String, count: usize) -> Result<(), AllocError>
    ensures { OnOk result (string_bytes text.new ≡ string_bytes text.old ++ more_invocations count) }
{
    if count <= MOST {
        return Ok(());
    }
    text.push_str(" ")?;
    push_more(text, count)?;
    text.push_str(" invocations of it\n")
}

/// Appends the lines of these invocations.
fn push_first(
    text: &mut String,
    table: &Table,
    id: i8,
    invocations: &[Invocation],
) -> Result<(), AllocError>
    ensures { OnOk result (string_bytes text.new ≡ string_bytes text.old
        ++ flat_map (invocation_line table.now id) invocations.now) }
{
    for invocation in invocations {
        push_invocation(text, table, id, invocation)?;
    }
    Ok(())
}

/// Appends the lines of the invocations of the invoke ID in question: the first eight, and the number of the others.
pub(crate) fn push_invocations(
    text: &mut String,
    table: &Table,
    id: Option<i8>,
    invocations: &[Invocation],
) -> Result<(), AllocError>
    ensures { OnOk result (string_bytes text.new ≡ string_bytes text.old
        ++ invocation_lines table.now id invocations.now) }
{
    let Some(id) = id else {
        return Ok(());
    };
    let count = invocations.len();
    push_first(text, table, id, &invocations[..count.min(MOST)])?;
    push_more_of_it(text, count)
}
