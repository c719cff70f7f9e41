//! What a search concludes from an entry, and what it notes.

ghost use Rattle.std.specs.Prelude.{◌≡◌, Ok, List, IfOk};
ghost use Rattle.tcap_end.specs.Table.{Table};
ghost use Rattle.tcap_model.specs.World.{Item, Sent};
ghost use Rattle.tcap_model.specs.Entries.{item_of};
ghost use Rattle.tcap_refute.specs.Kind.{is_limit};
ghost use Rattle.tcap_refute.specs.KeptFacts.{AreNotesOf};
ghost use Rattle.tcap_refute.specs.EntryConclusion.{Judges, judged_fault};

use crate::kind::Kind;
use crate::notes::Notes;
use std::alloc::{AllocError, Global};
use tcap_ber::Reason;
use tcap_end::Table;
use tcap_msg::MessageParts;
use tcap_record::{Body, End, Entry};

/// The conclusion of a search from an entry.
#[derive(Clone, Copy, PartialEq, Eq)]
pub(crate) enum EntryResult {
    /// The entry is an item without a kind, and was noted.
    Passed,
    /// The entry has this lowest kind.
    Refuted(Kind),
    /// The entry is no item and has no kind. The entries after it are not looked at.
    Ended,
}

/// Returns whether a reason is a limit of this profile, and not of the standard.
pub fn is_limit(reason: Reason) -> bool
    ensures { result ≡ is_limit reason }
{
    matches!(
        reason,
        Reason::LengthForm
            | Reason::TooLong
            | Reason::TagForm
            | Reason::BadVersion
            | Reason::DialogueSyntax
            | Reason::Indefinite
            | Reason::CodeTooWide
            | Reason::TooDeep
    )
}

/// Returns the conclusion from octets that are no message for this reason.
fn judged_fault(reason: Reason) -> EntryResult
    ensures { result ≡ judged_fault reason }
{
    if is_limit(reason) {
        EntryResult::Ended
    } else {
        EntryResult::Refuted(Kind::BadMessage)
    }
}

impl Notes {
    /// Takes a message that an end sent. Fails if memory runs out.
    fn take_message<M: MessageParts>(
        &mut self,
        alloc: Global,
        table: &Table,
        side: End,
        message: &M,
    ) -> Result<EntryResult, AllocError>
        ensures { (items : List Item) → AreNotesOf table.now items self.old → IfOk result
            (λ judged. Judges table.now items (Ok (Sent side (M.meaning message.now))) judged self.new) }
    {
        if let Some(kind) = self.kind_of(table, side, message) {
            return Ok(EntryResult::Refuted(kind));
        }
        self.note(alloc, table, side, message)?;
        Ok(EntryResult::Passed)
    }

    /// Takes a quiet mark: forgets what was before it.
    fn take_mark(&mut self, alloc: Global) -> EntryResult
        ensures { (table : Table) (items : List Item) → Judges table items (Ok Item.Quiet) result self.new }
    {
        *self = Notes::new(alloc);
        EntryResult::Passed
    }

    /// Takes the next entry. Fails if memory runs out.
    pub(crate) fn take(
        &mut self,
        alloc: Global,
        table: &Table,
        entry: &Entry,
    ) -> Result<EntryResult, AllocError>
        ensures { (items : List Item) → AreNotesOf table.now items self.old
            → IfOk result (λ judged. Judges table.now items (item_of entry.now) judged self.new) }
    {
        match (entry.side, &entry.body) {
            (_, Body::Bad(fault)) => Ok(judged_fault(fault.reason)),
            (Some(side), Body::Good(message)) => {
                self.take_message(alloc, table, side, &message.view())
            }
            (None, Body::Quiet) => Ok(self.take_mark(alloc)),
            _ => Ok(EntryResult::Ended),
        }
    }
}
