//! The halves of an end that are open at a quiet mark.

ghost use Rattle.std.specs.Prelude.{◌≡◌, ℕ, List, IfOk, OnOk, false};
ghost use Rattle.std.specs.Option.{option_or};
ghost use Rattle.std.specs.BTreeMap.{is_at};
ghost use Rattle.std.specs.BTreeSet as set;
ghost use Rattle.std.specs.List.{list_any};
ghost use Rattle.std.specs.Map.{lookup};
ghost use Rattle.tcap_end.specs.End.{is_id};
ghost use Rattle.tcap_end.specs.Table.{octets_cmp};
ghost use Rattle.tcap_evidence.specs.StoredScene.{AreMessagesByEnd};
ghost use Rattle.tcap_evidence.specs.OpenAtMark.{AreHalves, ended_to, first_to, goes_first, messages_of};
ghost use Rattle.tcap_evidence.specs.Scene.{Scene, is_open_continue, shown};
ghost use Rattle.tcap_evidence.specs.declared.shown_facts.ShownFact.TheVariants as facts;

use crate::listing::ended_to;
use crate::sent::{MessagesByEnd, Sent};
use std::alloc::{AllocError, Global};
use std::collections::{BTreeMap, BTreeSet};
use tcap_end::Table;
use tcap_msg::{Message, TransactionId};

/// The facts by which the open halves of an end are found.
#[derive(Drop)]
struct Halves {
    /// For each own ID, the destination of the end's first Continue from it.
    first: BTreeMap<TransactionId, TransactionId>,
    /// The peer's IDs to which the end sent an End, or its user an Abort.
    ended: BTreeSet<TransactionId>,
    /// The own IDs to which the peer sent an End or any Abort.
    ended_by_peer: BTreeSet<TransactionId>,
}

/// Returns the IDs to which these messages are Ends or Aborts. Aborts of the provider count only if `by_provider`.
fn all_ended(
    alloc: Global,
    sent: &[Sent],
    by_provider: bool,
) -> Result<BTreeSet<TransactionId>, AllocError>
    ensures { IfOk result (λ ended. (id : List ℕ) → set.contains octets_cmp ended id
        ≡ list_any (λ m. is_id id (ended_to by_provider m)) (messages_of sent.now)) }
{
    let mut ended = BTreeSet::new(alloc);
    for one in sent {
        if let Some(id) = ended_to(one.message, by_provider) {
            ended.insert(id.to_transaction_id())?;
        }
    }
    Ok(ended)
}

/// Notes the destination of a Continue, unless there was one from the same ID before.
fn note_first(
    first: &mut BTreeMap<TransactionId, TransactionId>,
    message: &Message,
) -> Result<(), AllocError>
    ensures { OnOk result ((id : List ℕ) → lookup (is_at (octets_cmp id)) first.new.entries
        ≡ option_or (lookup (is_at (octets_cmp id)) first.old.entries) (goes_first id message.now)) }
{
    if let Message::Continue { otid, dtid, .. } = message {
        if !first.contains_key(otid) {
            first.insert(
                otid.view().to_transaction_id(),
                dtid.view().to_transaction_id(),
            )?;
        }
    }
    Ok(())
}

/// Returns for each originating ID the destination of the first Continue from it.
fn all_first(
    alloc: Global,
    sent: &[Sent],
) -> Result<BTreeMap<TransactionId, TransactionId>, AllocError>
    ensures { IfOk result (λ first. (id : List ℕ) → lookup (is_at (octets_cmp id)) first.entries
        ≡ first_to id (messages_of sent.now)) }
{
    let mut first = BTreeMap::new(alloc);
    for one in sent {
        note_first(&mut first, one.message)?;
    }
    Ok(first)
}

impl Halves {
    /// Collects the facts from the messages of both ends.
    fn of(alloc: Global, messages_by_end: &MessagesByEnd) -> Result<Halves, AllocError>
        ensures { (s : Scene) → AreMessagesByEnd s messages_by_end.now → IfOk result (λ halves. AreHalves s halves) }
    {
        Ok(Halves {
            first: all_first(alloc, &messages_by_end.own)?,
            ended: all_ended(alloc, &messages_by_end.own, false)?,
            ended_by_peer: all_ended(alloc, &messages_by_end.peer, true)?,
        })
    }

    /// Returns whether a message is a Continue from an ID whose half is certainly open.
    fn has(&self, message: &Message) -> bool
        ensures { (s : Scene) → AreHalves s self.now → s.table.prearranged ≡ false
            → result ≡ is_open_continue s message.now }
    {
        let Message::Continue { otid, .. } = message else {
            return false;
        };
        match self.first.get(otid) {
            Some(to) => !self.ended.contains(to) && !self.ended_by_peer.contains(otid),
            None => false,
        }
    }
}

/// Returns the entries of the Continues from IDs whose halves are certainly open.
pub(crate) fn open_continues(
    alloc: Global,
    table: &Table,
    messages_by_end: &MessagesByEnd,
) -> Result<Vec<u64>, AllocError>
    ensures { (s : Scene) → s.table ≡ table.now → AreMessagesByEnd s messages_by_end.now
        → IfOk result (λ v. v.items ≡ shown s facts.Open) }
{
    let mut entries = Vec::new(alloc);
    if table.prearranged() {
        return Ok(entries);
    }
    let halves = Halves::of(alloc, messages_by_end)?;
    for one in &messages_by_end.own {
        if halves.has(one.message) {
            entries.push(one.number)?;
        }
    }
    Ok(entries)
}
