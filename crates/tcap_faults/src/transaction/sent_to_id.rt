//! What an end sent to one transaction ID since the last quiet mark.

ghost use Rattle.std.specs.Prelude.{◌≡◌, [], None, ℕ, List, OnOk, not, option_copied};
ghost use Rattle.std.specs.List.{list_any};
ghost use Rattle.tcap_msg.specs.declared.message.Message.{Message};
ghost use Rattle.tcap_msg.specs.Parts.{cause_in};
ghost use Rattle.tcap_record.specs.declared.entry.End.{End as Side};
ghost use Rattle.tcap_end.specs.Table.{Table};
ghost use Rattle.tcap_model.specs.World.{Item};
ghost use Rattle.tcap_refute.specs.EarlierMessages.{components_of, ends_to, sent_by};
ghost use Rattle.tcap_faults.specs.Counts.{is_nothing};
ghost use Rattle.tcap_faults.specs.SentToId.{has_ended, outgoing};
ghost use Rattle.tcap_faults.specs.IdList.{AreAmong, AreIds};
ghost use Rattle.tcap_faults.specs.History.{IsTo, IsToAt, ends, of_user, otids_of, sent_to, is_end_or_abort};
ghost use Rattle.tcap_faults.specs.HistoryUpdate.{IsCaused, IsOutgoingAdded};
ghost use Rattle.tcap_faults.specs.TallyMeaning.{IsTally};

use crate::component::tally::Tally;
use crate::transaction::id_list::Ids;
use crate::transaction::messages_at_id::MessageSummary;
use std::alloc::{AllocError, Global};
use tcap_ber::SmallView;
use tcap_end::Table;
use tcap_msg::{Kind as Form, MessageParts};

/// The messages to one ID.
#[derive(Drop)]
pub(crate) struct SentTo {
    /// True if one of them is no Abort of the provider.
    pub(crate) spoke: bool,
    /// The originating IDs of the Continues.
    pub(crate) from: Ids,
    /// True if the end's provider refused a Begin from the ID (P-Abort cause 4).
    pub(crate) refused: bool,
    /// The number of Aborts with cause 1.
    pub(crate) unknown: u128,
    /// True if there is an End, or an Abort without cause.
    pub(crate) ended: bool,
    /// True if there is an End or an Abort.
    pub(crate) silenced: bool,
    /// The components of the messages, without Aborts of the provider.
    pub(crate) components: Tally,
}

/// Returns whether a message is a user's end: an End, or an Abort without cause.
pub(crate) fn ends<M: MessageParts>(message: &M) -> bool
    ensures { result ≡ ends (M.meaning message.now) }
{
    match message.kind() {
        Form::End => true,
        Form::Abort => message.cause().is_none(),
        _ => false,
    }
}

/// Returns whether a message is an End or an Abort.
fn is_end_or_abort<M: MessageParts>(message: &M) -> bool
    ensures { result ≡ is_end_or_abort (M.meaning message.now) }
{
    matches!(message.kind(), Form::End | Form::Abort)
}

impl SentTo {
    /// Notes the cause of an Abort of the provider.
    fn note_cause(&mut self, cause: SmallView)
        ensures { IsCaused cause.number self.old self.new }
    {
        match cause.number {
            1 => self.unknown = self.unknown.saturating_add(1),
            4 => self.refused = true,
            _ => {}
        }
    }

    /// Adds a message that is no Abort of the provider. Fails if memory runs out.
    fn note_of_user<M: MessageParts>(
        &mut self,
        alloc: Global,
        table: &Table,
        message: &M,
    ) -> Result<(), AllocError>
        ensures { (ms : List Message) → cause_in (M.meaning message.now) ≡ None
            → AreIds (otids_of ms) self.old.from → IsTally table.now (components_of (of_user ms)) self.old.components
            → OnOk result (IsOutgoingAdded table.now ms (M.meaning message.now) self.old self.new) }
    {
        self.spoke = true;
        if let (Form::Continue, Some(otid)) = (message.kind(), message.otid()) {
            self.from.add(otid)?;
        }
        self.components.note_all(alloc, table, message.components())
    }
}

impl MessageSummary for SentTo {
    ghost of = { IsTo };

    fn new(alloc: Global) -> SentTo {
        SentTo {
            spoke: false,
            from: Ids::new(alloc),
            refused: false,
            unknown: 0,
            ended: false,
            silenced: false,
            components: Tally::new(alloc),
        }
    }

    fn note<M: MessageParts>(
        &mut self,
        alloc: Global,
        table: &Table,
        message: &M,
    ) -> Result<(), AllocError> {
        self.ended |= ends(message);
        self.silenced |= is_end_or_abort(message);
        match message.cause() {
            Some(cause) => {
                self.note_cause(cause);
                Ok(())
            }
            None => self.note_of_user(alloc, table, message),
        }
    }
}

/// Returns the originating IDs of the Continues.
pub(crate) fn comes_from(to: Option<&SentTo>) -> Option<&Ids>
    ensures { (table : Table) (ms : List Message) → IsToAt table ms (option_copied to.entry)
        → AreAmong (otids_of ms) (option_copied result) }
{
    match to {
        Some(kept) => Some(&kept.from),
        None => None,
    }
}

/// Returns whether one of the messages is no Abort of the provider.
pub(crate) fn tells(to: Option<&SentTo>) -> bool
    ensures { (table : Table) (side : Side) (items : List Item) (id : List ℕ)
        → IsToAt table (sent_to side items id) (option_copied to.entry)
        → result ≡ not (is_nothing (outgoing side id items)) }
{
    match to {
        Some(kept) => kept.spoke,
        None => false,
    }
}

/// Returns whether one of the messages is an End or an Abort.
pub(crate) fn is_silenced(to: Option<&SentTo>) -> bool
    ensures { (table : Table) (side : Side) (items : List Item) (id : List ℕ)
        → IsToAt table (sent_to side items id) (option_copied to.entry)
        → result ≡ list_any (ends_to id) (sent_by side items) }
{
    match to {
        Some(kept) => kept.silenced,
        None => false,
    }
}

/// Returns whether one of the messages is an End, or an Abort without cause.
pub(crate) fn is_ended(to: Option<&SentTo>) -> bool
    ensures { (table : Table) (side : Side) (items : List Item) (id : List ℕ)
        → IsToAt table (sent_to side items id) (option_copied to.entry) → result ≡ has_ended side items id }
{
    match to {
        Some(kept) => kept.ended,
        None => false,
    }
}
