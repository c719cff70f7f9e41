//! What an end sent from one transaction ID.

ghost use Rattle.std.specs.Prelude.{◌≡◌, ◌||◌, ℤ, Some, false, OnOk};
ghost use Rattle.std.specs.Map.{lookup};
ghost use Rattle.std.specs.BTreeMap.{is_at};
ghost use Rattle.std.specs.Ordering.{int_cmp};
ghost use Rattle.std.specs.List.{list_any};
ghost use Rattle.tcap_parts.specs.Meaning.{component_of, components_left};
ghost use Rattle.tcap_refute.specs.Facts.{FromFact, IdFact, noted_id, shows, shows_from};
ghost use Rattle.tcap_refute.specs.KeptFacts.{holds, is_elsewhere, id_fact_noted, from_fact_noted};
ghost use Rattle.tcap_refute.specs.NotesUpdate.{IsHeaded, IsSameHead, with_destination};

use crate::sent_with_invoke_id::ById;
use std::alloc::{AllocError, Global};
use std::collections::BTreeMap;
use tcap_end::{Table, is_request};
use tcap_msg::{Kind as Form, MessageParts, TransactionId, TransactionIdView};
use tcap_parts::{ComponentView, Components};

/// The destination IDs of an end's Continues.
#[derive(Debug, Drop)]
pub(crate) enum Destinations {
    /// There was no Continue.
    Nowhere,
    /// All Continues went to this ID.
    One(TransactionId),
    /// Two Continues went to different IDs.
    Several,
}

/// The notes on what an end sent from a transaction ID since the last quiet mark, as far as F2 to F7 need it (Q.771,
/// Q.773, Q.774).
#[derive(Debug, Drop)]
pub struct FromId {
    /// True if it sent a Begin.
    pub(crate) begun: bool,
    /// True if it sent a Begin with a dialogue request.
    pub(crate) asked: bool,
    /// True if it sent a Continue.
    pub(crate) continued: bool,
    /// The destination IDs of its Continues.
    pub(crate) destinations: Destinations,
    /// The notes on each invoke ID.
    pub(crate) ids: BTreeMap<i8, ById>,
}

/// Returns the invoke ID under which a component is noted; a Reject is not noted.
fn noted_id(component: &ComponentView) -> Option<i8>
    ensures { result ≡ noted_id (component_of component.now) }
{
    match component {
        ComponentView::Invoke { id, .. }
        | ComponentView::ReturnResult { id, .. }
        | ComponentView::ReturnError { id, .. } => Some(*id),
        ComponentView::Reject { .. } => None,
    }
}

impl Destinations {
    /// Returns whether a Continue went to another ID than this.
    pub(crate) fn is_elsewhere(&self, dtid: TransactionIdView) -> bool
        ensures { result ≡ is_elsewhere dtid.entry.octets.now self.now }
    {
        match self {
            Destinations::Nowhere => false,
            Destinations::One(other) => dtid.octets != other.octets(),
            Destinations::Several => true,
        }
    }

    /// Notes a Continue to this ID.
    fn note(&mut self, dtid: TransactionIdView)
        ensures { self.new ≡ with_destination dtid.entry.octets.now self.old }
    {
        match self {
            Destinations::Nowhere => *self = Destinations::One(dtid.to_transaction_id()),
            Destinations::One(other) if dtid.octets != other.octets() => *self =
                Destinations::Several,
            _ => {}
        }
    }
}

impl FromId {
    /// Creates the notes for an ID from which nothing was sent.
    pub fn new(alloc: Global) -> FromId
        ensures { (fact : FromFact) → from_fact_noted fact result ≡ false }
    {
        FromId {
            begun: false,
            asked: false,
            continued: false,
            destinations: Destinations::Nowhere,
            ids: BTreeMap::new(alloc),
        }
    }

    /// Notes a message, but not its components.
    fn note_head<M: MessageParts>(&mut self, message: &M)
        ensures { IsHeaded (M.meaning message.now) self.old self.new }
    {
        match message.kind() {
            Form::Begin => {
                self.begun = true;
                if is_request(message.dialogue()) {
                    self.asked = true;
                }
            }
            Form::Continue => {
                self.continued = true;
                if let Some(dtid) = message.dtid() {
                    self.destinations.note(dtid);
                }
            }
            _ => {}
        }
    }

    /// Notes a component with this invoke ID. Fails if memory runs out.
    fn note_of_id(
        &mut self,
        alloc: Global,
        table: &Table,
        id: i8,
        component: ComponentView,
    ) -> Result<(), AllocError>
        requires { noted_id (component_of component) ≡ Some id }
        ensures ids { OnOk result ((other : ℤ) (fact : IdFact)
            → holds (id_fact_noted fact) (lookup (is_at (int_cmp other)) self.new.ids.entries)
            ≡ holds (id_fact_noted fact) (lookup (is_at (int_cmp other)) self.old.ids.entries)
            || shows table.now other fact (component_of component.entry)) }
        ensures head { IsSameHead self.old self.new }
    {
        if let Some(kept) = self.ids.get_mut(&id) {
            return kept.note(alloc, table, component);
        }
        let mut kept = ById::new();
        kept.note(alloc, table, component)?;
        self.ids.insert(id, kept)?;
        Ok(())
    }

    /// Notes a component. Fails if memory runs out.
    fn note_component(
        &mut self,
        alloc: Global,
        table: &Table,
        component: ComponentView,
    ) -> Result<(), AllocError>
        ensures ids { OnOk result ((id : ℤ) (fact : IdFact)
            → holds (id_fact_noted fact) (lookup (is_at (int_cmp id)) self.new.ids.entries)
            ≡ holds (id_fact_noted fact) (lookup (is_at (int_cmp id)) self.old.ids.entries)
            || shows table.now id fact (component_of component.entry)) }
        ensures head { IsSameHead self.old self.new }
    {
        match noted_id(&component) {
            Some(id) => self.note_of_id(alloc, table, id, component),
            None => Ok(()),
        }
    }

    /// Notes components in order. Fails if memory runs out.
    fn note_components(
        &mut self,
        alloc: Global,
        table: &Table,
        components: Components,
    ) -> Result<(), AllocError>
        ensures ids { OnOk result ((id : ℤ) (fact : IdFact)
            → holds (id_fact_noted fact) (lookup (is_at (int_cmp id)) self.new.ids.entries)
            ≡ holds (id_fact_noted fact) (lookup (is_at (int_cmp id)) self.old.ids.entries)
            || list_any (shows table.now id fact) (components_left components.entry)) }
        ensures head { IsSameHead self.old self.new }
    {
        for component in components {
            self.note_component(alloc, table, component)?;
        }
        Ok(())
    }

    /// Notes a message from the ID. Each of its components takes a look-up.
    ///
    /// # Errors
    ///
    /// `AllocError` if memory runs out. The notes are of no use then.
    pub fn note<M: MessageParts>(
        &mut self,
        alloc: Global,
        table: &Table,
        message: &M,
    ) -> Result<(), AllocError>
        ensures { OnOk result ((fact : FromFact) → from_fact_noted fact self.new
            ≡ from_fact_noted fact self.old || shows_from table.now fact (M.meaning message.now)) }
    {
        self.note_head(message);
        self.note_components(alloc, table, message.components())
    }
}
