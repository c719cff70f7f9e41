//! Writing messages with the shortest definite lengths, the protocol version 80 02 07 80, and parameters and user
//! information verbatim.
//!
//! A `len_` function returns a length in octets. If a content has more than 65,535 octets, it returns `None`. A
//! `write_` function returns `Failed` if the writer fails.

ghost use Rattle.std.specs.Prelude.{◌+◌, ◌≡◌, ◌≢◌, ℕ, ◌≤◌, ◌↔◌, List, length, Some, None, Err, IfSome, OnOk};
ghost use Rattle.tcap_ber.specs.Element.{content_limit, shortest_header_limit};
ghost use Rattle.std.specs.Option.{option_map, IsSome};
ghost use Rattle.std.specs.Io.KnownBytes.{Appends};
ghost use Rattle.tcap_ber.specs.Device.{CountsFailure, one_more};
ghost use Rattle.tcap_parts.specs.Meaning.{components_of};
ghost use Rattle.tcap_parts.specs.DialogueMeaning.{dialogue_of};
ghost use Rattle.tcap_parts.specs.Writing.{Written};
ghost use Rattle.tcap_msg.specs.declared.encode_message.EncodeFault.{EncodeFault};
ghost use Rattle.tcap_msg.specs.Canonical.{message_tag, canonical_id, canonical_cause, canonical_dialogue_portion, canonical_component_portion, canonical_content, canonical};
ghost use Rattle.tcap_msg.specs.Encoding.{IsEncoded};
ghost use Rattle.tcap_msg.specs.Meaning.{id_of, cause_of, message_of};

use crate::kind::Kind;
use crate::message::Message;
use crate::parts::MessageParts;
use crate::tags::{
    ABORT, BEGIN, CAUSE, COMPONENT_PORTION, CONTINUE, DIALOGUE_PORTION, DTID, END, OTID,
    UNIDIRECTIONAL,
};
use crate::transaction_id::TransactionIdView;
use crate::views::MessageView;
use tcap_ber::{CONTENT_LIMIT, Failed, SmallView, Write, element_len, put_element, put_header};
use tcap_parts::{
    DialogueView, PortionView, len_components, len_dialogue, write_components, write_dialogue,
};

/// Why a message was not written.
#[derive(Clone, Copy, Debug, PartialEq, Eq)]
pub enum EncodeFault {
    /// A content would have more than 65,535 octets. Nothing was written.
    TooLong,
    /// The writer failed in this call. An unknown number of the first octets may have been written.
    Write,
}

impl From<Failed> for EncodeFault {
    ghost from_gives = { λ _ fault. fault ≡ EncodeFault.Write };

    fn from(_: Failed) -> EncodeFault {
        EncodeFault::Write
    }
}

/// Returns the length of a transaction ID, 0 if there is none.
fn len_id(id: Option<TransactionIdView>) -> usize
    ensures exact { (tag : ℕ) → option_map length (canonical_id tag (id_of id.entry)) ≡ Some result }
    ensures most { result ≤ 6 }
{
    match id {
        Some(id) => 2 + id.octets.len(),
        None => 0,
    }
}

/// Returns the length of a P-Abort cause, 0 if there is none.
fn len_cause(cause: Option<SmallView>) -> usize
    ensures exact { option_map length (canonical_cause (cause_of cause)) ≡ Some result }
    ensures most { result ≤ 3 }
{
    match cause {
        Some(_) => 3,
        None => 0,
    }
}

/// Returns the length of a dialogue portion, 0 if there is none.
fn len_dialogue_portion(dialogue: Option<DialogueView>) -> Option<usize>
    ensures exact { result ≡ option_map length (canonical_dialogue_portion (option_map dialogue_of dialogue.entry)) }
    ensures most { IfSome result (λ n. n ≤ content_limit + shortest_header_limit) }
{
    match dialogue {
        Some(dialogue) => element_len(len_dialogue(dialogue)?),
        None => Some(0),
    }
}

/// Returns the length of a component portion, 0 if there is none.
fn len_component_portion(components: Option<PortionView>) -> Option<usize>
    ensures exact { result ≡ option_map length
        (canonical_component_portion (option_map components_of components.entry)) }
    ensures most { IfSome result (λ n. n ≤ content_limit + shortest_header_limit) }
{
    match components {
        Some(components) => element_len(len_components(components)?),
        None => Some(0),
    }
}

/// Returns the length of a message's content.
fn len_content(message: MessageView) -> Option<usize>
    ensures { result ≡ option_map length (canonical_content (message_of message.entry)) }
{
    let ids = len_id(message.otid()) + len_id(message.dtid());
    let front = ids + len_cause(message.cause());
    let portions = len_dialogue_portion(message.dialogue())?;
    Some(front + portions + len_component_portion(message.its_portion())?)
}

/// Returns the length in octets of the message as [`encode`] writes it. `None` if a content has more than 65,535
/// octets. It does not allocate.
pub fn encoded_len(message: &Message) -> Option<usize>
    ensures { result ≡ option_map length (canonical message.now) }
{
    element_len(len_content(message.view())?)
}

/// Writes a transaction ID with this tag, if there is one.
fn write_id<W: Write>(tag: u8, id: Option<TransactionIdView>, writer: &mut W) -> Result<(), Failed>
    ensures ok { OnOk result (Written (canonical_id tag (id_of id.entry)) (W.taken writer.old) (W.taken writer.new)) }
    ensures counts { CountsFailure (W.failures writer.old) (W.failures writer.new) result }
{
    match id {
        Some(id) => put_element(tag, id.octets, writer),
        None => Ok(()),
    }
}

/// Writes a P-Abort cause, if there is one.
fn write_cause<W: Write>(cause: Option<SmallView>, writer: &mut W) -> Result<(), Failed>
    ensures ok { OnOk result (Written (canonical_cause (cause_of cause)) (W.taken writer.old) (W.taken writer.new)) }
    ensures counts { CountsFailure (W.failures writer.old) (W.failures writer.new) result }
{
    match cause {
        Some(cause) => put_element(CAUSE, &[cause.number], writer),
        None => Ok(()),
    }
}

/// Writes a dialogue portion, if there is one.
fn write_dialogue_portion<W: Write>(
    dialogue: Option<DialogueView>,
    writer: &mut W,
) -> Result<(), Failed>
    requires { IsSome (canonical_dialogue_portion (option_map dialogue_of dialogue)) }
    ensures ok { OnOk result (Written (canonical_dialogue_portion (option_map dialogue_of dialogue.entry))
        (W.taken writer.old) (W.taken writer.new)) }
    ensures counts { CountsFailure (W.failures writer.old) (W.failures writer.new) result }
{
    let Some(dialogue) = dialogue else {
        return Ok(());
    };
    let Some(len) = len_dialogue(dialogue) else {
        unreachable!()
    };
    put_header(DIALOGUE_PORTION, len, writer)?;
    write_dialogue(dialogue, writer)
}

/// Writes a component portion, if there is one.
fn write_component_portion<W: Write>(
    components: Option<PortionView>,
    writer: &mut W,
) -> Result<(), Failed>
    requires { IsSome (canonical_component_portion (option_map components_of components)) }
    ensures ok { OnOk result (Written (canonical_component_portion (option_map components_of components.entry))
        (W.taken writer.old) (W.taken writer.new)) }
    ensures counts { CountsFailure (W.failures writer.old) (W.failures writer.new) result }
{
    let Some(components) = components else {
        return Ok(());
    };
    let Some(len) = len_components(components) else {
        unreachable!()
    };
    put_header(COMPONENT_PORTION, len, writer)?;
    write_components(components, writer)
}

/// Writes the content of a message.
fn write_content<W: Write>(message: MessageView, writer: &mut W) -> Result<(), Failed>
    requires { IsSome (canonical_content (message_of message)) }
    ensures ok { OnOk result (Written (canonical_content (message_of message.entry)) (W.taken writer.old)
        (W.taken writer.new)) }
    ensures counts { CountsFailure (W.failures writer.old) (W.failures writer.new) result }
{
    write_id(OTID, message.otid(), writer)?;
    write_id(DTID, message.dtid(), writer)?;
    write_cause(message.cause(), writer)?;
    write_dialogue_portion(message.dialogue(), writer)?;
    write_component_portion(message.its_portion(), writer)
}

/// Returns the tag of a message (Q.773 4.2.1).
fn tag(kind: Kind) -> u8
    ensures { result ≡ message_tag kind }
{
    match kind {
        Kind::Unidirectional => UNIDIRECTIONAL,
        Kind::Begin => BEGIN,
        Kind::Continue => CONTINUE,
        Kind::End => END,
        Kind::Abort => ABORT,
    }
}

/// Writes a message, with the faults of [`encode`].
fn encode_view<W: Write>(message: MessageView, writer: &mut W) -> Result<(), EncodeFault>
    ensures exact { IsEncoded (canonical (message_of message.entry)) (W.taken writer.old) (W.taken writer.new)
        (W.failures writer.old) (W.failures writer.new) result }
    ensures nothing { result ≡ Err EncodeFault.TooLong → writer.new ≡ writer.old }
{
    let Some(len) = len_content(message) else {
        return Err(EncodeFault::TooLong);
    };
    if len > CONTENT_LIMIT {
        return Err(EncodeFault::TooLong);
    }
    put_header(tag(message.kind()), len, writer)?;
    write_content(message, writer)?;
    Ok(())
}

/// Writes the message in its canonical spelling: with the shortest definite lengths, the protocol version 80 02 07 80,
/// and its parameters and user information verbatim. It does not allocate.
///
/// # Errors
///
/// - `TooLong` if a content would have more than 65,535 octets; then nothing is written. A message that was read
///   without a protocol version needs four octets more, so it may be too long although it was read.
/// - `Write` if the writer fails.
pub fn encode<W: Write>(message: &Message, writer: &mut W) -> Result<(), EncodeFault>
    ensures ok { OnOk result ((octets : List ℕ) × (canonical message.now ≡ Some octets)
        × Appends (W.taken writer.old) (W.taken writer.new) octets) }
    ensures too_long { (result ≡ Err EncodeFault.TooLong) ↔ (canonical message.now ≡ None) }
    ensures nothing { result ≡ Err EncodeFault.TooLong → writer.new ≡ writer.old }
    ensures write { result ≡ Err EncodeFault.Write → W.failures writer.new ≡ one_more (W.failures writer.old) }
    ensures others { result ≢ Err EncodeFault.Write → W.failures writer.new ≡ W.failures writer.old }
{
    encode_view(message.view(), writer)
}
