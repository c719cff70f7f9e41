//! The lines of a message. Each function appends to `text`, and returns `AllocError` if memory runs out.

ghost use Rattle.std.specs.Prelude.{◌≡◌, ◌++◌, OnOk};
ghost use Rattle.std.specs.String.{string_bytes};
ghost use Rattle.std.specs.Option.{option_map};
ghost use Rattle.tcap_parts.specs.DialogueMeaning.{info_meaning, source_of, dialogue_of};
ghost use Rattle.tcap_msg.specs.Meaning.{id_of, cause_of};
ghost use Rattle.tcap_record.specs.Lines.{kind_name, id_text, cause_text, named_text, source_text, info_text, result_text, abort_source_text, dialogue_text, dialogue_portion_text, head_text, message_text};

use crate::component_lines::push_components;
use crate::digits::push_hex;
use std::alloc::AllocError;
use tcap_ber::{ObjectIdView, SmallView};
use tcap_msg::{Kind, MessageParts, TransactionIdView};
use tcap_parts::{DialogueView, InfoView, SourceView};

/// Appends the name of a kind of message.
#[inline(always)]
fn push_kind(text: &mut String, kind: Kind) -> Result<(), AllocError>
    ensures { OnOk result (string_bytes text.new ≡ string_bytes text.old ++ kind_name kind) }
{
    match kind {
        Kind::Unidirectional => text.push_str("Unidirectional"),
        Kind::Begin => text.push_str("Begin"),
        Kind::Continue => text.push_str("Continue"),
        Kind::End => text.push_str("End"),
        Kind::Abort => text.push_str("Abort"),
    }
}

/// Appends a transaction ID after this label, if there is one.
#[inline(always)]
fn push_id(text: &mut String, label: &str, id: Option<TransactionIdView>) -> Result<(), AllocError>
    ensures { OnOk result (string_bytes text.new ≡ string_bytes text.old ++ id_text label.now (id_of id.entry)) }
{
    match id {
        Some(id) => {
            text.push_str(label)?;
            push_hex(text, id.octets)
        }
        None => Ok(()),
    }
}

/// Appends a P-Abort cause, if there is one.
fn push_cause(text: &mut String, cause: Option<SmallView>) -> Result<(), AllocError>
    ensures { OnOk result (string_bytes text.new ≡ string_bytes text.old ++ cause_text (cause_of cause)) }
{
    match cause {
        Some(cause) => {
            let number = cause.number;
            text.push_str(" cause=")?;
            write!(text, "{number}")
        }
        None => Ok(()),
    }
}

/// Appends the number of EXTERNALs of user information, if there is some.
fn push_info(text: &mut String, info: Option<InfoView>) -> Result<(), AllocError>
    ensures { OnOk result (string_bytes text.new ≡ string_bytes text.old ++ info_text (info_meaning info.entry)) }
{
    match info {
        Some(info) => {
            let count = info.count();
            text.push_str(" info=")?;
            write!(text, "{count}")
        }
        None => Ok(()),
    }
}

/// Appends the name of a PDU and its application context name.
fn push_named(text: &mut String, name: &str, context: ObjectIdView) -> Result<(), AllocError>
    ensures { OnOk result (string_bytes text.new
        ≡ string_bytes text.old ++ named_text name.now context.entry.octets.now) }
{
    text.push_str(" ")?;
    text.push_str(name)?;
    text.push_str(" context=")?;
    push_hex(text, context.octets)
}

/// Appends a diagnostic.
fn push_source(text: &mut String, source: SourceView) -> Result<(), AllocError>
    ensures { OnOk result (string_bytes text.new ≡ string_bytes text.old ++ source_text (source_of source)) }
{
    let (label, number) = match source {
        SourceView::User(number) => (" user=", number),
        SourceView::Provider(number) => (" provider=", number),
    };
    let number = number.number;
    text.push_str(label)?;
    write!(text, "{number}")
}

/// Appends a result.
fn push_result(text: &mut String, number: SmallView) -> Result<(), AllocError>
    ensures { OnOk result (string_bytes text.new ≡ string_bytes text.old ++ result_text number.number) }
{
    let number = number.number;
    text.push_str(" result=")?;
    write!(text, "{number}")
}

/// Appends the name of an ABRT and its abort source.
fn push_abort_source(text: &mut String, source: SmallView) -> Result<(), AllocError>
    ensures { OnOk result (string_bytes text.new ≡ string_bytes text.old ++ abort_source_text source.number) }
{
    let number = source.number;
    text.push_str(" ABRT source=")?;
    write!(text, "{number}")
}

/// Appends a PDU of the dialogue portion.
fn push_dialogue(text: &mut String, dialogue: DialogueView) -> Result<(), AllocError>
    ensures { OnOk result (string_bytes text.new
        ≡ string_bytes text.old ++ dialogue_text (dialogue_of dialogue.entry)) }
{
    match dialogue {
        DialogueView::Request { context, info } => {
            push_named(text, "AARQ", context)?;
            push_info(text, info)
        }
        DialogueView::Response {
            context,
            result,
            diagnostic,
            info,
        } => {
            push_named(text, "AARE", context)?;
            push_result(text, result)?;
            push_source(text, diagnostic)?;
            push_info(text, info)
        }
        DialogueView::Abort { source, info } => {
            push_abort_source(text, source)?;
            push_info(text, info)
        }
        DialogueView::Uni { context, info } => {
            push_named(text, "AUDT", context)?;
            push_info(text, info)
        }
    }
}

/// Appends the PDU of a dialogue portion, if there is one.
fn push_dialogue_portion(
    text: &mut String,
    dialogue: Option<DialogueView>,
) -> Result<(), AllocError>
    ensures { OnOk result (string_bytes text.new ≡ string_bytes text.old
        ++ dialogue_portion_text (option_map dialogue_of dialogue.entry)) }
{
    match dialogue {
        Some(dialogue) => push_dialogue(text, dialogue),
        None => Ok(()),
    }
}

/// Appends a message without its components, and without a line end (Q.773 4.2). These are its kind, its transaction
/// IDs in hexadecimal digits, its P-Abort cause and the PDU of its dialogue portion. The line of an entry has this text
/// after the number and the end.
///
/// # Errors
///
/// `AllocError` if memory runs out.
pub fn push_head<M: MessageParts>(text: &mut String, message: &M) -> Result<(), AllocError>
    ensures { OnOk result (string_bytes text.new ≡ string_bytes text.old ++ head_text (M.meaning message.now)) }
{
    push_kind(text, message.kind())?;
    push_id(text, " otid=", message.otid())?;
    push_id(text, " dtid=", message.dtid())?;
    push_cause(text, message.cause())?;
    push_dialogue_portion(text, message.dialogue())
}

/// Appends a message and the lines of its components.
pub(crate) fn push_message<M: MessageParts>(
    text: &mut String,
    message: &M,
) -> Result<(), AllocError>
    ensures { OnOk result (string_bytes text.new ≡ string_bytes text.old ++ message_text (M.meaning message.now)) }
{
    push_head(text, message)?;
    text.push_str("\n")?;
    push_components(text, message.components())
}
