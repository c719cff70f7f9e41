//! Reads the sound part of a Begin or Continue whose component portion is malformed.

ghost use Rattle.std.specs.Prelude.{◌≡◌, IfOk, option_map};
ghost use Rattle.tcap_parts.specs.DialogueMeaning.{dialogue_of};
ghost use Rattle.tcap_ber.specs.Reading.{Gives, element, span};
ghost use Rattle.tcap_msg.specs.Decode.{Decodes};
ghost use Rattle.tcap_dialogues.specs.SoundPart.{components_before, first_id_at, invoke_id_at, sound_begin_at, sound_continue_at, sound_in, sound_of_element, sound_part_of, sound_portion_at};

use std::alloc::{AllocError, Global};
use tcap_ber::{Fault, Reason, Tlv, Window, ended, octet_integer, required, required_any};
use tcap_msg::tags::{BEGIN, COMPONENT_PORTION, CONTINUE};
use tcap_msg::{DecodeFault, Message, dialogue_portion, dtid, otid};
use tcap_parts::{Component, Dialogue, DialogueView, Portion, view_component};

/// The tag of an INTEGER (X.690 8.3).
const INTEGER: u8 = 2;

/// The part of a malformed Begin or Continue that can be taken.
#[derive(Debug, Drop)]
pub struct SoundPart {
    /// The message with the components before the first that is malformed.
    pub message: Message,
    /// The invoke ID of that component; `None` if it cannot be read.
    pub invoke_id: Option<i8>,
}

/// Reads the components at the front of a window. Returns them and the window from the first octets that are none.
fn components_before(alloc: Global, content: Window) -> Result<(Vec<Component>, Window), AllocError>
    ensures { IfOk result (λ found. (found.0.items, span found.1) ≡ components_before (span content.entry)) }
{
    let mut components = Vec::new(alloc);
    let mut rest = content;
    while let Ok((component, behind)) = view_component(rest) {
        components.push(component.to_component(alloc)?)?;
        rest = behind;
    }
    Ok((components, rest))
}

/// Reads the invoke ID of a component: its first element, which must be an INTEGER of one octet.
#[tactic(auto, unfolding(crate::specs::SoundPart::first_id_at))]
fn first_id(component: Tlv) -> Result<i8, Fault>
    ensures { Gives (λ id. id) result (first_id_at (element component.entry)) }
{
    let (first, _) = required(component.content, INTEGER)?;
    octet_integer(first)
}

/// Returns the invoke ID of the malformed component at the front of a window, if both elements are whole.
fn invoke_id(window: Window) -> Option<i8>
    ensures { result ≡ invoke_id_at (span window.entry) }
{
    match required_any(window) {
        Ok((component, _)) => match first_id(component) {
            Ok(id) => Some(id),
            Err(_) => None,
        },
        Err(_) => None,
    }
}

/// Reads a component portion that is all of a window. Returns the components before the first that is malformed, as a
/// portion, and the invoke ID of that component. `None` if the component portion is well formed.
#[tactic(auto, unfolding(crate::specs::SoundPart::sound_portion_at))]
fn sound_portion(
    alloc: Global,
    window: Window,
) -> Result<Option<(Option<Portion>, Option<i8>)>, DecodeFault>
    ensures { Decodes result (sound_portion_at (span window.entry)) }
{
    let (found, rest) = required(window, COMPONENT_PORTION)?;
    let (components, malformed) = components_before(alloc, found.content)?;
    ended(rest)?;
    if malformed.octets.is_empty() && !components.is_empty() {
        return Ok(None);
    }
    Ok(Some((Portion::new(components), invoke_id(malformed))))
}

/// Copies a dialogue portion into an owned value.
fn own_dialogue(
    alloc: Global,
    dialogue: Option<DialogueView>,
) -> Result<Option<Dialogue>, AllocError>
    ensures { IfOk result (λ made. made ≡ option_map dialogue_of dialogue.entry) }
{
    match dialogue {
        Some(dialogue) => Ok(Some(dialogue.to_dialogue(alloc)?)),
        None => Ok(None),
    }
}

/// Reads the sound part of a Begin from its content.
#[tactic(auto, unfolding(crate::specs::SoundPart::sound_begin_at))]
fn sound_begin(alloc: Global, content: Window) -> Result<Option<SoundPart>, DecodeFault>
    ensures { Decodes result (sound_begin_at (span content.entry)) }
{
    let (otid, rest) = otid(content)?;
    let (dialogue, rest) = dialogue_portion(rest)?;
    let Some((components, invoke_id)) = sound_portion(alloc, rest)? else {
        return Ok(None);
    };
    let message = Message::Begin {
        otid: otid.to_transaction_id(),
        dialogue: own_dialogue(alloc, dialogue)?,
        components,
    };
    Ok(Some(SoundPart { message, invoke_id }))
}

/// Reads the sound part of a Continue from its content.
#[tactic(auto, unfolding(crate::specs::SoundPart::sound_continue_at))]
fn sound_continue(alloc: Global, content: Window) -> Result<Option<SoundPart>, DecodeFault>
    ensures { Decodes result (sound_continue_at (span content.entry)) }
{
    let (otid, rest) = otid(content)?;
    let (dtid, rest) = dtid(rest)?;
    let (dialogue, rest) = dialogue_portion(rest)?;
    let Some((components, invoke_id)) = sound_portion(alloc, rest)? else {
        return Ok(None);
    };
    let message = Message::Continue {
        otid: otid.to_transaction_id(),
        dtid: dtid.to_transaction_id(),
        dialogue: own_dialogue(alloc, dialogue)?,
        components,
    };
    Ok(Some(SoundPart { message, invoke_id }))
}

/// Reads the sound part of an element, by its tag.
fn sound_of_element(alloc: Global, found: Tlv) -> Result<Option<SoundPart>, DecodeFault>
    ensures { Decodes result (sound_of_element (element found.entry)) }
{
    if found.tag.is(BEGIN) {
        sound_begin(alloc, found.content)
    } else if found.tag.is(CONTINUE) {
        sound_continue(alloc, found.content)
    } else {
        Err(DecodeFault::Fault(found.refused(Reason::UnexpectedTag)))
    }
}

/// Reads the sound part of octets that are one element.
#[tactic(auto, unfolding(crate::specs::SoundPart::sound_in))]
fn sound_in(alloc: Global, octets: &[u8]) -> Result<Option<SoundPart>, DecodeFault>
    ensures { Decodes result (sound_in (record { octets = octets.now; place = 0 })) }
{
    let (found, rest) = required_any(Window::new(octets))?;
    let sound = sound_of_element(alloc, found)?;
    ended(rest)?;
    Ok(sound)
}

/// Reads the sound part of a malformed Begin or Continue (Q.774 3.2.2.2).
///
/// The octets are one whole element. Its IDs, its dialogue portion, if it has one, and its component portion are those
/// of a message, and nothing comes after them; but the content of the component portion is no list of components. The
/// sound part is the message with the components before the first that is malformed. Returns `None` for all other
/// octets, also for those of a message.
///
/// # Errors
///
/// `AllocError` if memory runs out.
pub fn sound_part(alloc: Global, octets: &[u8]) -> Result<Option<SoundPart>, AllocError>
    ensures { IfOk result (λ found. found ≡ sound_part_of octets.now) }
{
    match sound_in(alloc, octets) {
        Ok(sound) => Ok(sound),
        Err(DecodeFault::Fault(_)) => Ok(None),
        Err(DecodeFault::Memory) => Err(AllocError),
    }
}
