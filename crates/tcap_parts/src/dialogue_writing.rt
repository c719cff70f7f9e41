//! Writing dialogue portions with the shortest definite lengths, the protocol version 80 02 07 80, and user information
//! verbatim.
//!
//! A `len_` function returns a length in octets. If a content has more than 65,535 octets, it returns `None`. A
//! `write_` function returns `Failed` if the writer fails.

ghost use Rattle.std.specs.Prelude.{◌+◌, ◌≡◌, ◌≤◌, length, IfSome, OnOk};
ghost use Rattle.tcap_ber.specs.Element.{content_limit, shortest_header_limit};
ghost use Rattle.std.specs.Option.{option_map, IsSome};
ghost use Rattle.tcap_ber.specs.Device.{CountsFailure};
ghost use Rattle.tcap_ber.specs.Canonical.{◌⧺◌, element_around};
ghost use Rattle.tcap_parts.specs.Dialogue.{as_id};
ghost use Rattle.tcap_parts.specs.DialogueCanonical.{canonical_version, canonical_context, canonical_number, canonical_source, canonical_info, canonical_named, canonical_pdu_content, pdu_tag, pdu_syntax, canonical_pdu, canonical_external_content, canonical_dialogue};
ghost use Rattle.tcap_parts.specs.DialogueMeaning.{info_meaning, source_of, dialogue_of};
ghost use Rattle.tcap_parts.specs.Writing.{Written};

use crate::dialogue::{DialogueView, SourceView};
use crate::info::InfoView;
use crate::tags::{
    ABORT, ABORT_SOURCE, CONTEXT, DIAGNOSTIC, DIALOGUE_AS_ID, EXTERNAL, INTEGER, OBJECT_ID,
    PROVIDER, REQUEST, RESPONSE, RESULT, SINGLE_TYPE, UNI, UNIDIALOGUE_AS_ID, USER,
    USER_INFORMATION, VERSION,
};
use tcap_ber::{Failed, ObjectIdView, SmallView, Write, element_len, put_element, put_header};

/// Returns the length of an application context name.
fn len_context(id: ObjectIdView) -> Option<usize>
    ensures exact { result ≡ option_map length (canonical_context id.entry.octets.now) }
    ensures most { IfSome result (λ n. n ≤ content_limit + shortest_header_limit) }
{
    element_len(element_len(id.octets.len())?)
}

/// Returns the length of user information, 0 if there is none.
fn len_info(info: Option<InfoView>) -> Option<usize>
    ensures exact { result ≡ option_map length (canonical_info (info_meaning info.entry)) }
    ensures most { IfSome result (λ n. n ≤ content_limit + shortest_header_limit) }
{
    match info {
        Some(info) => element_len(info.octets.len()),
        None => Some(0),
    }
}

/// Returns the length of a PDU's content.
fn len_pdu_content(dialogue: DialogueView) -> Option<usize>
    ensures exact { result ≡ option_map length (canonical_pdu_content (dialogue_of dialogue.entry)) }
{
    match dialogue {
        DialogueView::Request { context, info } | DialogueView::Uni { context, info } => {
            Some(4 + len_context(context)? + len_info(info)?)
        }
        DialogueView::Response { context, info, .. } => {
            Some(4 + len_context(context)? + 5 + 7 + len_info(info)?)
        }
        DialogueView::Abort { info, .. } => Some(3 + len_info(info)?),
    }
}

/// Returns the length of a PDU.
fn len_pdu(dialogue: DialogueView) -> Option<usize>
    ensures exact { result ≡ option_map length (canonical_pdu (dialogue_of dialogue.entry)) }
    ensures most { IfSome result (λ n. n ≤ content_limit + shortest_header_limit) }
{
    element_len(len_pdu_content(dialogue)?)
}

/// Returns the length of the content of a dialogue portion's EXTERNAL.
fn len_external_content(dialogue: DialogueView) -> Option<usize>
    ensures exact { result ≡ option_map length (canonical_external_content (dialogue_of dialogue.entry)) }
{
    Some(9 + element_len(len_pdu(dialogue)?)?)
}

/// Returns the length in octets of the content of a dialogue portion with this PDU. `None` if any content has more than
/// 65,535 octets. It does not allocate.
pub fn len_dialogue(dialogue: DialogueView) -> Option<usize>
    ensures exact { result ≡ option_map length (canonical_dialogue (dialogue_of dialogue.entry)) }
    ensures most { IfSome result (λ n. n ≤ content_limit + shortest_header_limit) }
{
    element_len(len_external_content(dialogue)?)
}

/// Writes the protocol version.
fn write_version<W: Write>(writer: &mut W) -> Result<(), Failed>
    ensures ok { OnOk result (Written canonical_version (W.taken writer.old) (W.taken writer.new)) }
    ensures counts { CountsFailure (W.failures writer.old) (W.failures writer.new) result }
{
    put_element(VERSION, &[0x07, 0x80], writer)
}

/// Writes an application context name.
fn write_context<W: Write>(id: ObjectIdView, writer: &mut W) -> Result<(), Failed>
    requires { IsSome (canonical_context id.octets.now) }
    ensures ok { OnOk result (Written (canonical_context id.entry.octets.now) (W.taken writer.old)
        (W.taken writer.new)) }
    ensures counts { CountsFailure (W.failures writer.old) (W.failures writer.new) result }
{
    let Some(len) = element_len(id.octets.len()) else {
        unreachable!()
    };
    put_header(CONTEXT, len, writer)?;
    put_element(OBJECT_ID, id.octets, writer)
}

/// Writes a number from 0 to 127 inside this tag.
fn write_number<W: Write>(tag: u8, number: SmallView, writer: &mut W) -> Result<(), Failed>
    ensures ok { OnOk result (Written (canonical_number tag number.number) (W.taken writer.old) (W.taken writer.new)) }
    ensures counts { CountsFailure (W.failures writer.old) (W.failures writer.new) result }
{
    put_header(tag, 3, writer)?;
    put_element(INTEGER, &[number.number], writer)
}

/// Writes the source and number of a diagnostic.
fn write_source<W: Write>(source: SourceView, writer: &mut W) -> Result<(), Failed>
    ensures ok { OnOk result (Written (canonical_source (source_of source)) (W.taken writer.old) (W.taken writer.new)) }
    ensures counts { CountsFailure (W.failures writer.old) (W.failures writer.new) result }
{
    match source {
        SourceView::User(number) => write_number(USER, number, writer),
        SourceView::Provider(number) => write_number(PROVIDER, number, writer),
    }
}

/// Writes a diagnostic.
fn write_diagnostic<W: Write>(source: SourceView, writer: &mut W) -> Result<(), Failed>
    ensures ok { OnOk result (Written (element_around 0xA3 (canonical_source (source_of source))) (W.taken writer.old)
        (W.taken writer.new)) }
    ensures counts { CountsFailure (W.failures writer.old) (W.failures writer.new) result }
{
    put_header(DIAGNOSTIC, 5, writer)?;
    write_source(source, writer)
}

/// Writes user information, if there is some.
fn write_info<W: Write>(info: Option<InfoView>, writer: &mut W) -> Result<(), Failed>
    requires { IsSome (canonical_info (info_meaning info)) }
    ensures ok { OnOk result (Written (canonical_info (info_meaning info.entry)) (W.taken writer.old)
        (W.taken writer.new)) }
    ensures counts { CountsFailure (W.failures writer.old) (W.failures writer.new) result }
{
    match info {
        Some(info) => put_element(USER_INFORMATION, info.octets, writer),
        None => Ok(()),
    }
}

/// Writes the content of an AARQ or an AUDT.
fn write_named<W: Write>(
    context: ObjectIdView,
    info: Option<InfoView>,
    writer: &mut W,
) -> Result<(), Failed>
    requires { IsSome (canonical_named context.octets.now (info_meaning info)) }
    ensures ok { OnOk result (Written (canonical_named context.entry.octets.now (info_meaning info.entry))
        (W.taken writer.old) (W.taken writer.new)) }
    ensures counts { CountsFailure (W.failures writer.old) (W.failures writer.new) result }
{
    write_version(writer)?;
    write_context(context, writer)?;
    write_info(info, writer)
}

/// Writes the content of a PDU.
fn write_pdu_content<W: Write>(dialogue: DialogueView, writer: &mut W) -> Result<(), Failed>
    requires { IsSome (canonical_pdu_content (dialogue_of dialogue)) }
    ensures ok { OnOk result (Written (canonical_pdu_content (dialogue_of dialogue.entry)) (W.taken writer.old)
        (W.taken writer.new)) }
    ensures counts { CountsFailure (W.failures writer.old) (W.failures writer.new) result }
{
    match dialogue {
        DialogueView::Request { context, info } => write_named(context, info, writer),
        DialogueView::Response {
            context,
            result,
            diagnostic,
            info,
        } => {
            write_version(writer)?;
            write_context(context, writer)?;
            write_number(RESULT, result, writer)?;
            write_diagnostic(diagnostic, writer)?;
            write_info(info, writer)
        }
        DialogueView::Abort { source, info } => {
            put_element(ABORT_SOURCE, &[source.number], writer)?;
            write_info(info, writer)
        }
        DialogueView::Uni { context, info } => write_named(context, info, writer),
    }
}

/// Returns the tag of a PDU (Q.773 4.2.3).
fn tag(dialogue: DialogueView) -> u8
    ensures { result ≡ pdu_tag (dialogue_of dialogue.entry) }
{
    match dialogue {
        DialogueView::Request { .. } => REQUEST,
        DialogueView::Response { .. } => RESPONSE,
        DialogueView::Abort { .. } => ABORT,
        DialogueView::Uni { .. } => UNI,
    }
}

/// Returns the contents of the name of a PDU's abstract syntax (Q.773 4.2.3).
fn name(dialogue: DialogueView) -> [u8; 7]
    ensures { result ≡ as_id (pdu_syntax (dialogue_of dialogue.entry)) }
{
    match dialogue {
        DialogueView::Uni { .. } => UNIDIALOGUE_AS_ID,
        _ => DIALOGUE_AS_ID,
    }
}

/// Writes a PDU.
fn write_pdu<W: Write>(dialogue: DialogueView, writer: &mut W) -> Result<(), Failed>
    requires { IsSome (canonical_pdu (dialogue_of dialogue)) }
    ensures ok { OnOk result (Written (canonical_pdu (dialogue_of dialogue.entry)) (W.taken writer.old)
        (W.taken writer.new)) }
    ensures counts { CountsFailure (W.failures writer.old) (W.failures writer.new) result }
{
    let Some(len) = len_pdu_content(dialogue) else {
        unreachable!()
    };
    put_header(tag(dialogue), len, writer)?;
    write_pdu_content(dialogue, writer)
}

/// Writes the content of a dialogue portion's EXTERNAL.
fn write_external_content<W: Write>(dialogue: DialogueView, writer: &mut W) -> Result<(), Failed>
    requires { IsSome (canonical_external_content (dialogue_of dialogue)) }
    ensures ok { OnOk result (Written (canonical_external_content (dialogue_of dialogue.entry)) (W.taken writer.old)
        (W.taken writer.new)) }
    ensures counts { CountsFailure (W.failures writer.old) (W.failures writer.new) result }
{
    let Some(len) = len_pdu(dialogue) else {
        unreachable!()
    };
    put_element(OBJECT_ID, &name(dialogue), writer)?;
    put_header(SINGLE_TYPE, len, writer)?;
    write_pdu(dialogue, writer)
}

/// Writes the content of a dialogue portion: the EXTERNAL with this PDU (Q.773 4.2.3). No content may have more than
/// 65,535 octets, as [`len_dialogue`] checks. It does not allocate.
///
/// # Errors
///
/// `Failed` if the writer fails.
pub fn write_dialogue<W: Write>(dialogue: DialogueView, writer: &mut W) -> Result<(), Failed>
    requires { IsSome (canonical_dialogue (dialogue_of dialogue)) }
    ensures ok { OnOk result (Written (canonical_dialogue (dialogue_of dialogue.entry)) (W.taken writer.old)
        (W.taken writer.new)) }
    ensures counts { CountsFailure (W.failures writer.old) (W.failures writer.new) result }
{
    let Some(len) = len_external_content(dialogue) else {
        unreachable!()
    };
    put_header(EXTERNAL, len, writer)?;
    write_external_content(dialogue, writer)
}
