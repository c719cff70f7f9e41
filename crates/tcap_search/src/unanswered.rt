//! The rule after the second one, for an end judged alone: it did not receive what it did not answer before a mark.

ghost use Rattle.std.specs.Prelude.{◌≡◌, ◌||◌, true, [], ℕ, List, Some, length, map, IfOk, OnOk};
ghost use Rattle.std.specs.BTreeSet as set;
ghost use Rattle.tcap_msg.specs.Meaning.{id_of};
ghost use Rattle.tcap_record.specs.declared.entry.End.{End as Side};
ghost use Rattle.tcap_end.specs.End.{is_id};
ghost use Rattle.tcap_end.specs.Table.{octets_cmp};
ghost use Rattle.tcap_search.specs.SegmentEntries.{lines_of, message_of};
ghost use Rattle.tcap_record.specs.Ends.{is_entry_of};
ghost use Rattle.tcap_search.specs.ProposedCertificate.{fated, goes_on_from, is_sent_to_id, without_unanswered};
ghost use Rattle.tcap_search.specs.UnansweredIds.{AreUsedIds, continued_from, fate_unless_unanswered, unanswered_by};

use std::alloc::{AllocError, Global};
use std::collections::BTreeSet;
use tcap_certificate::Fate;
use tcap_msg::{Kind, Message, MessageParts, TransactionId, TransactionIdView};
use tcap_record::{Body, End, Entry};

/// The IDs to which an end sent messages, and those from which it sent Continues.
#[derive(Drop)]
pub(crate) struct UsedIds {
    pub(crate) to: BTreeSet<TransactionId>,
    pub(crate) from: BTreeSet<TransactionId>,
}

/// Adds an ID to a set, if there is one. Fails if memory runs out.
fn note_id(
    ids: &mut BTreeSet<TransactionId>,
    id: Option<TransactionIdView>,
) -> Result<(), AllocError>
    ensures { OnOk result ((other : List ℕ) → set.contains octets_cmp ids.new other
        ≡ set.contains octets_cmp ids.old other || is_id other (id_of id.entry)) }
{
    if let Some(id) = id {
        ids.insert(id.to_transaction_id())?;
    }
    Ok(())
}

/// Returns the originating ID of a Continue.
fn continued_from(message: &Message) -> Option<TransactionIdView<'_>>
    ensures { id_of result ≡ continued_from message.now }
{
    match message.kind() {
        Kind::Continue => message.otid(),
        _ => None,
    }
}

/// Returns whether an entry is from this end.
fn is_entry_of(side: End, sender: Option<End>) -> bool
    ensures { result ≡ is_entry_of side sender }
{
    match (side, sender) {
        (End::A, Some(End::A)) | (End::B, Some(End::B)) => true,
        _ => false,
    }
}

impl UsedIds {
    /// Creates empty sets, before the first entry.
    fn new(alloc: Global) -> UsedIds
        ensures { (side : Side) → AreUsedIds side [] result }
    {
        UsedIds {
            to: BTreeSet::new(alloc),
            from: BTreeSet::new(alloc),
        }
    }

    /// Notes the IDs of an entry, if this end sent it. Fails if memory runs out.
    fn note(&mut self, side: End, entry: &Entry) -> Result<(), AllocError>
        ensures to { OnOk result ((id : List ℕ) → set.contains octets_cmp self.new.to id
            ≡ set.contains octets_cmp self.old.to id || is_sent_to_id side id entry.now) }
        ensures from { OnOk result ((id : List ℕ) → set.contains octets_cmp self.new.from id
            ≡ set.contains octets_cmp self.old.from id || goes_on_from side id entry.now) }
    {
        if !is_entry_of(side, entry.side) {
            return Ok(());
        }
        let Body::Good(message) = &entry.body else {
            return Ok(());
        };
        note_id(&mut self.to, message.dtid())?;
        note_id(&mut self.from, continued_from(message))
    }

    /// Collects the IDs of the messages that an end sent. Fails if memory runs out.
    fn of(alloc: Global, side: End, entries: &[Entry]) -> Result<UsedIds, AllocError>
        ensures { IfOk result (λ spoken. AreUsedIds side entries.now spoken) }
    {
        let mut spoken = UsedIds::new(alloc);
        for entry in entries {
            spoken.note(side, entry)?;
        }
        Ok(spoken)
    }

    /// Returns whether an entry is a Begin or a Continue that the end did not answer.
    fn is_unanswered(&self, entry: &Entry) -> bool
        ensures { result ≡ unanswered_by self.now (message_of entry.now) }
    {
        match &entry.body {
            Body::Good(Message::Begin { otid, .. }) => !self.to.contains(otid),
            Body::Good(Message::Continue { otid, dtid, .. }) => {
                !self.to.contains(otid) && !self.from.contains(dtid)
            }
            _ => false,
        }
    }

    /// Returns the fate of an entry, by these IDs of the judged end.
    fn fate_heard(&self, side: End, entry: &Entry, fate: Fate) -> Fate
        ensures { result ≡ fate_unless_unanswered self.now side entry.now fate }
    {
        match fate {
            Fate::Gap(_) if is_entry_of(side.other(), entry.side) && self.is_unanswered(entry) => {
                Fate::Lost
            }
            _ => fate,
        }
    }
}

/// Returns the fates of a segment before a mark, with the unanswered messages lost. Fails if memory runs out.
fn heard_by(
    alloc: Global,
    side: End,
    entries: &[Entry],
    fates: &[Fate],
) -> Result<Vec<Fate>, AllocError>
    requires { length fates.now ≡ length entries.now }
    ensures { IfOk result (λ heard. heard.items ≡ map (λ x. x.fate)
        (without_unanswered (Some side) true (lines_of entries.now) (fated (lines_of entries.now) fates.now))) }
{
    let spoken = UsedIds::of(alloc, side, entries)?;
    let mut heard = Vec::new(alloc);
    for (number, entry) in entries.iter().enumerate() {
        heard.push(spoken.fate_heard(side, entry, fates[number]))?;
    }
    Ok(heard)
}

#[tactic(auto, using(crate::proofs::UnansweredLaws::heard_same))]
/// Returns the fates with the unanswered messages lost if a mark follows the segment, else the given fates. Fails if
/// memory runs out.
fn heard_where(
    alloc: Global,
    side: End,
    marked: bool,
    entries: &[Entry],
    fates: Vec<Fate>,
) -> Result<Vec<Fate>, AllocError>
    requires { length fates.items ≡ length entries.now }
    ensures { IfOk result (λ left. left.items ≡ map (λ x. x.fate)
        (without_unanswered (Some side) marked (lines_of entries.now) (fated (lines_of entries.now) fates.items))) }
{
    if !marked {
        return Ok(fates);
    }
    heard_by(alloc, side, entries, &fates)
}

#[tactic(auto, using(crate::proofs::UnansweredLaws::heard_same))]
/// Returns the fates with the unanswered messages lost if one end is judged alone and a mark follows the segment, else
/// the given fates. Fails if memory runs out.
pub(crate) fn without_unanswered(
    alloc: Global,
    judged: Option<End>,
    marked: bool,
    entries: &[Entry],
    fates: Vec<Fate>,
) -> Result<Vec<Fate>, AllocError>
    requires { length fates.items ≡ length entries.now }
    ensures { IfOk result (λ left. left.items ≡ map (λ x. x.fate)
        (without_unanswered judged marked (lines_of entries.now) (fated (lines_of entries.now) fates.items))) }
{
    match judged {
        Some(side) => heard_where(alloc, side, marked, entries, fates),
        None => Ok(fates),
    }
}
