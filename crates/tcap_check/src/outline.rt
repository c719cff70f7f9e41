//! What a replay keeps of the entries that it took: who sent each, and the IDs of those that listed events name.

ghost use Rattle.std.specs.Prelude.{◌≡◌, map, slice_get, Some, None, IfOk, MatchOption};
ghost use Rattle.tcap_parts.specs.Meaning.{components_left};
ghost use Rattle.tcap_end.specs.declared.half.HalfName.TheVariants as names;
ghost use Rattle.tcap_model.specs.World.{Sent};
ghost use Rattle.tcap_model.specs.Run.{option_then, only_if};
ghost use Rattle.tcap_certificate.specs.DescribedRun.{half_begun, invoke_id};
ghost use Rattle.tcap_check.specs.EntryOutlines.{half_closed, invocation_ended, note_of, outline_named, outline_of};

use std::alloc::{AllocError, Global};
use std::marker::Model;
use tcap_certificate::{Closing, Expiry};
use tcap_end::HalfName;
use tcap_msg::{Kind, MessageParts, TransactionId};
use tcap_parts::{ComponentView, Components};
use tcap_record::End;

/// The parts of a Begin or a Continue that a listed event may name: whether it is a Begin, its originating ID, and the
/// invoke ID of each component that is an Invoke.
#[derive(Debug, Drop)]
pub(crate) struct Note {
    begins: bool,
    otid: TransactionId,
    invokes: Vec<Option<i8>>,
}

impl Model for Note {
    ghost use Rattle.tcap_check.specs.NamedMessage.{MessageNote};

    ghost Value = { MessageNote };

    ghost view = { λ n. record { begins = n.begins; otid = n.otid; invokes = n.invokes.items } };
}

/// An entry, as far as a replay keeps it.
#[derive(Debug, Drop)]
pub(crate) enum Outline {
    /// A quiet mark.
    Mark,
    /// A message from this end. The note is present if a listed event names the entry, and it is a Begin or a Continue.
    Sent(End, Option<Note>),
}

impl Note {
    /// Returns the name, at one end, of the half that this Begin began: by own ID at the sender, by the peer's ID at
    /// the other end. Returns `None` if the message is no Begin.
    fn half_begun(&self, at: End, sender: End) -> Option<HalfName>
        ensures { result ≡ only_if self.now.begins (Some (half_begun at sender self.now.otid)) }
    {
        if !self.begins {
            return None;
        }
        let otid = self.otid.view().to_transaction_id();
        if at == sender {
            Some(HalfName::Own(otid))
        } else {
            Some(HalfName::Peer(otid))
        }
    }

    /// Returns the invocation that the component at this place began: its half, by own ID, and its invoke ID.
    fn invocation(&self, component: u32) -> Option<(HalfName, i8)>
        ensures { result ≡ option_then (option_then (slice_get self.now.invokes component) (λ id. id))
            (λ id. Some (names.Own self.now.otid, id)) }
    {
        match self.invokes.get(component as usize) {
            Some(Some(id)) => Some((HalfName::Own(self.otid.view().to_transaction_id()), *id)),
            _ => None,
        }
    }
}

/// Returns the entry with this number, or `None` if a quiet mark comes after it. `since` is the number of the entry
/// after the last quiet mark.
fn outline_named(entries: &[Outline], since: usize, entry: u32) -> Option<&Outline>
    ensures { MatchOption result (outline_named entries.now since entry ≡ None)
        (λ outline. outline_named entries.now since entry ≡ Some outline.now) }
{
    let entry = entry as usize;
    if entry < since {
        return None;
    }
    entries.get(entry)
}

/// Returns the half that a closing names, or `None` if its entry is no Begin or a quiet mark comes after the entry.
pub(crate) fn half_closed(entries: &[Outline], since: usize, x: &Closing) -> Option<HalfName>
    ensures { result ≡ half_closed entries.now since x.now }
{
    match outline_named(entries, since, x.entry)? {
        Outline::Sent(sender, Some(note)) => note.half_begun(x.side, *sender),
        _ => None,
    }
}

/// Returns the own invocation that an expiry names: its half, by own ID, and its invoke ID. Returns `None` if its entry
/// is no Begin or Continue of that end with that Invoke, or a quiet mark comes after the entry.
pub(crate) fn invocation_ended(
    entries: &[Outline],
    since: usize,
    x: &Expiry,
) -> Option<(HalfName, i8)>
    ensures { result ≡ invocation_ended entries.now since x.now }
{
    match outline_named(entries, since, x.entry)? {
        Outline::Sent(sender, Some(note)) if x.side == *sender => note.invocation(x.component),
        _ => None,
    }
}

/// Returns the invoke ID of each component, or `None` for one that is no Invoke. Fails if memory runs out.
fn invoke_ids(alloc: Global, components: Components) -> Result<Vec<Option<i8>>, AllocError>
    ensures { IfOk result (λ ids. ids.items ≡ map invoke_id (components_left components.entry)) }
{
    let mut ids = Vec::new(alloc);
    for component in components {
        match component {
            ComponentView::Invoke { id, .. } => ids.push(Some(id))?,
            _ => ids.push(None)?,
        }
    }
    Ok(ids)
}

/// Returns what listed events may name of a message, or `None` if it has no originating ID. Fails if memory runs out.
fn note_of<M: MessageParts>(alloc: Global, message: &M) -> Result<Option<Note>, AllocError>
    ensures { IfOk result (λ note. note ≡ note_of (M.meaning message.now)) }
{
    let Some(otid) = message.otid() else {
        return Ok(None);
    };
    Ok(Some(Note {
        begins: matches!(message.kind(), Kind::Begin),
        otid: otid.to_transaction_id(),
        invokes: invoke_ids(alloc, message.components())?,
    }))
}

impl Outline {
    /// Creates the outline of a message from this end, with its IDs if `named`. Fails if memory runs out.
    pub(crate) fn of_message<M: MessageParts>(
        alloc: Global,
        named: bool,
        side: End,
        message: &M,
    ) -> Result<Outline, AllocError>
        ensures { IfOk result (λ outline. outline ≡ outline_of named (Sent side (M.meaning message.now))) }
    {
        let note = if named {
            note_of(alloc, message)?
        } else {
            None
        };
        Ok(Outline::Sent(side, note))
    }
}
