//! What an end sent from one transaction ID since the last quiet mark.

ghost use Rattle.std.specs.Prelude.{◌≡◌, [], ◌∷◌, ◌++◌, ℕ, true, false, List, Some, IfOk, OnOk, nat_le, option_copied};
ghost use Rattle.std.specs.List.{list_any};
ghost use Rattle.tcap_msg.specs.declared.kind.Kind.TheVariants as forms;
ghost use Rattle.tcap_msg.specs.declared.message.Message.{Message};
ghost use Rattle.tcap_record.specs.declared.entry.End.{End as Side};
ghost use Rattle.tcap_end.specs.Table.{Table};
ghost use Rattle.tcap_model.specs.World.{Item};
ghost use Rattle.tcap_refute.specs.EarlierMessages.{is_a};
ghost use Rattle.tcap_refute.specs.Facts.{From, FromFact, fact_in_items};
ghost use Rattle.tcap_refute.specs.KeptFacts.{fact_by_from};
ghost use Rattle.tcap_faults.specs.Counts.{count};
ghost use Rattle.tcap_faults.specs.SentToId.{began, is_continue_to};
ghost use Rattle.tcap_faults.specs.IdList.{AreAmong};
ghost use Rattle.tcap_faults.specs.History.{IsContinueTallies, IsFirstBegin, IsFrom, IsFromAt, IsFromWhole, dtids_of, sent_from};

use crate::component::tally::Tally;
use crate::transaction::id_list::Ids;
use crate::transaction::messages_at_id::{MessageSummary, note_at};
use std::alloc::{AllocError, Global};
use std::collections::BTreeMap;
use tcap_end::{Table, is_request, is_response};
use tcap_msg::{Kind as Form, MessageParts, TransactionId};
use tcap_refute::FromId;

/// The Continues from one ID to another.
#[derive(Drop)]
pub(crate) struct ContinueTallies {
    /// True if one of them answers a dialogue request.
    pub(crate) answered: bool,
    /// The components of the Continues before the first that answers a request, or of all if none does.
    pub(crate) sooner: Tally,
    /// The components of the Continues from the first that answers a request on.
    pub(crate) since: Tally,
}

/// The first Begin from an ID.
#[derive(Drop)]
pub(crate) struct FirstBegin {
    /// True if it has a dialogue request.
    pub(crate) requests: bool,
    pub(crate) components: Tally,
}

/// The messages from one ID.
#[derive(Drop)]
pub(crate) struct SentFrom {
    /// The notes for F2 to F7.
    pub(crate) first: FromId,
    pub(crate) begin: Option<FirstBegin>,
    /// True if there are two Begins or more.
    pub(crate) begun_twice: bool,
    /// The number of Continues.
    pub(crate) continues: u128,
    /// The destination IDs of the Continues.
    pub(crate) to: Ids,
    /// The Continues, by their destination IDs.
    pub(crate) came: BTreeMap<TransactionId, ContinueTallies>,
}

impl MessageSummary for ContinueTallies {
    ghost of = { IsContinueTallies };

    fn new(alloc: Global) -> ContinueTallies {
        ContinueTallies {
            answered: false,
            sooner: Tally::new(alloc),
            since: Tally::new(alloc),
        }
    }

    fn note<M: MessageParts>(
        &mut self,
        alloc: Global,
        table: &Table,
        message: &M,
    ) -> Result<(), AllocError> {
        self.answered |= is_response(message.dialogue());
        if self.answered {
            self.since.note_all(alloc, table, message.components())
        } else {
            self.sooner.note_all(alloc, table, message.components())
        }
    }
}

impl FirstBegin {
    /// Creates the summary of a Begin. Fails if memory runs out.
    fn of<M: MessageParts>(
        alloc: Global,
        table: &Table,
        message: &M,
    ) -> Result<FirstBegin, AllocError>
        ensures { is_a forms.Begin (M.meaning message.now) ≡ true
            → IfOk result (λ kept. IsFirstBegin table.now (Some (M.meaning message.now)) (Some kept)) }
    {
        let mut components = Tally::new(alloc);
        components.note_all(alloc, table, message.components())?;
        Ok(FirstBegin {
            requests: is_request(message.dialogue()),
            components,
        })
    }
}

impl SentFrom {
    /// Adds a Begin. Fails if memory runs out.
    fn note_begin<M: MessageParts>(
        &mut self,
        alloc: Global,
        table: &Table,
        message: &M,
    ) -> Result<(), AllocError>
        ensures from { (ms : List Message) → is_a forms.Begin (M.meaning message.now) ≡ true
            → IsFrom table.now ms self.old
            → OnOk result (IsFrom table.now (ms ++ M.meaning message.now ∷ []) self.new) }
        ensures first { self.new.first ≡ self.old.first }
    {
        if self.begin.is_some() {
            self.begun_twice = true;
            return Ok(());
        }
        self.begin = Some(FirstBegin::of(alloc, table, message)?);
        Ok(())
    }

    /// Adds a Continue. Fails if memory runs out.
    fn note_continue<M: MessageParts>(
        &mut self,
        alloc: Global,
        table: &Table,
        message: &M,
    ) -> Result<(), AllocError>
        ensures from { (ms : List Message) → is_a forms.Continue (M.meaning message.now) ≡ true
            → IsFrom table.now ms self.old
            → OnOk result (IsFrom table.now (ms ++ M.meaning message.now ∷ []) self.new) }
        ensures first { self.new.first ≡ self.old.first }
    {
        self.continues = self.continues.saturating_add(1);
        if let Some(dtid) = message.dtid() {
            self.to.add(dtid)?;
        }
        note_at(&mut self.came, message.dtid(), alloc, table, message)
    }
}

impl MessageSummary for SentFrom {
    ghost of = { IsFromWhole };

    fn new(alloc: Global) -> SentFrom {
        SentFrom {
            first: FromId::new(alloc),
            begin: None,
            begun_twice: false,
            continues: 0,
            to: Ids::new(alloc),
            came: BTreeMap::new(alloc),
        }
    }

    fn note<M: MessageParts>(
        &mut self,
        alloc: Global,
        table: &Table,
        message: &M,
    ) -> Result<(), AllocError> {
        self.first.note(alloc, table, message)?;
        match message.kind() {
            Form::Begin => self.note_begin(alloc, table, message),
            Form::Continue => self.note_continue(alloc, table, message),
            _ => Ok(()),
        }
    }
}

/// Returns the destination IDs of the Continues.
pub(crate) fn goes_to(from: Option<&SentFrom>) -> Option<&Ids>
    ensures { (table : Table) (ms : List Message) → IsFromAt table ms (option_copied from.entry)
        → AreAmong (dtids_of ms) (option_copied result) }
{
    match from {
        Some(kept) => Some(&kept.to),
        None => None,
    }
}

/// Returns the notes for F2 to F7.
pub(crate) fn first_of(from: Option<&SentFrom>) -> Option<&FromId>
    ensures { (table : Table) (side : Side) (items : List Item) (id : List ℕ) (fact : FromFact)
        → IsFromAt table (sent_from side items id) (option_copied from.entry)
        → fact_by_from (option_copied result) fact ≡ fact_in_items table side items (From id fact) }
{
    match from {
        Some(kept) => Some(&kept.first),
        None => None,
    }
}

/// Returns whether there is a Begin.
pub(crate) fn begins(from: Option<&SentFrom>) -> bool
    ensures { (table : Table) (side : Side) (items : List Item) (id : List ℕ)
        → IsFromAt table (sent_from side items id) (option_copied from.entry) → result ≡ began side id items }
{
    match from {
        Some(kept) => kept.begin.is_some(),
        None => false,
    }
}

/// Returns whether there are two Begins or more.
pub(crate) fn begins_twice(from: Option<&SentFrom>) -> bool
    ensures { (table : Table) (ms : List Message) → IsFromAt table ms (option_copied from.entry)
        → result ≡ nat_le 2 (count (is_a forms.Begin) ms) }
{
    match from {
        Some(kept) => kept.begun_twice,
        None => false,
    }
}

/// Returns whether there is a Continue to an ID.
pub(crate) fn goes_on(from: Option<&SentFrom>, to: &TransactionId) -> bool
    ensures { (table : Table) (ms : List Message) → IsFromAt table ms (option_copied from.entry)
        → result ≡ list_any (is_continue_to to.now) ms }
{
    match from {
        Some(kept) => kept.came.contains_key(to),
        None => false,
    }
}
