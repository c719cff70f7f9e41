//! The counts of components by invoke ID.

ghost use Rattle.std.specs.Prelude.{◌≡◌, [], ◌∷◌, ◌++◌, List, OnOk, Some, option_copied, true};
ghost use Rattle.tcap_parts.specs.declared.component.Component.{Component};
ghost use Rattle.tcap_parts.specs.Meaning.{code_of, component_of, components_left};
ghost use Rattle.tcap_end.specs.Component.{links};
ghost use Rattle.tcap_end.specs.Table.{Table};
ghost use Rattle.tcap_faults.specs.LinkProblems.{links_as};
ghost use Rattle.tcap_faults.specs.CountUpdate.{invoke_id, one_tallied};
ghost use Rattle.tcap_faults.specs.TallyMeaning.{IsTally, kept_of, tally_of};

use crate::component::component_sort::Sort;
use crate::component::invoke_history::IdHistory;
use crate::component::linkable_operation::Linkable;
use std::alloc::{AllocError, Global};
use std::cell::Cell;
use std::collections::BTreeMap;
use tcap_end::Table;
use tcap_parts::{CodeView, ComponentView, Components};

/// The counts of components, by their invoke IDs (Q.773 4.2.2).
#[derive(Drop)]
pub(crate) struct Tally {
    pub(crate) ids: BTreeMap<i8, Box<IdHistory>>,
}

/// Returns the invoke ID of a component.
fn invoke_id(component: &ComponentView) -> Option<i8>
    ensures { result ≡ invoke_id (component_of component.now) }
{
    match component {
        ComponentView::Invoke { id, .. }
        | ComponentView::ReturnResult { id, .. }
        | ComponentView::ReturnError { id, .. } => Some(*id),
        ComponentView::Reject { id, .. } => *id,
    }
}

impl Tally {
    /// Creates a tally of no components.
    pub(crate) fn new(alloc: Global) -> Tally
        ensures { (table : Table) → IsTally table [] result }
    {
        Tally {
            ids: BTreeMap::new(alloc),
        }
    }

    /// Counts a component with this invoke ID. Fails if memory runs out.
    fn note_of_id(
        &mut self,
        alloc: Global,
        table: &Table,
        id: i8,
        component: ComponentView,
    ) -> Result<(), AllocError>
        requires { invoke_id (component_of component) ≡ Some id }
        ensures { OnOk result (tally_of self.new
            ≡ one_tallied table.now (component_of component.entry) (tally_of self.old)) }
    {
        if let Some(kept) = self.ids.get_mut(&id) {
            return kept.note(alloc, table, component);
        }
        let mut kept = IdHistory::new(alloc);
        kept.note(alloc, table, component)?;
        self.ids.insert(id, Box::new(alloc, kept)?)?;
        Ok(())
    }

    /// Counts a component, if it has an invoke ID. Fails if memory runs out.
    pub(crate) fn note(
        &mut self,
        alloc: Global,
        table: &Table,
        component: ComponentView,
    ) -> Result<(), AllocError>
        ensures { (cs : List Component) → IsTally table.now cs self.old
            → OnOk result (IsTally table.now (cs ++ component_of component.entry ∷ []) self.new) }
    {
        match invoke_id(&component) {
            Some(id) => self.note_of_id(alloc, table, id, component),
            None => Ok(()),
        }
    }

    /// Counts components in order. Fails if memory runs out.
    pub(crate) fn note_all(
        &mut self,
        alloc: Global,
        table: &Table,
        components: Components,
    ) -> Result<(), AllocError>
        ensures { (cs : List Component) → IsTally table.now cs self.old
            → OnOk result (IsTally table.now (cs ++ components_left components.entry) self.new) }
    {
        for component in components {
            self.note(alloc, table, component)?;
        }
        Ok(())
    }

    /// Returns the counts for this invoke ID, if there are any.
    pub(crate) fn history_of_id(&self, id: i8) -> Option<&IdHistory>
        ensures { option_copied result ≡ kept_of id self.now }
    {
        match self.ids.get(&id) {
            Some(kept) => Some(kept),
            None => None,
        }
    }

    /// Returns the number of components with this invoke ID and of this sort.
    pub(crate) fn count(&self, id: i8, sort: Sort) -> u128
        ensures { result ≡ (tally_of self.now).count id sort }
    {
        match self.history_of_id(id) {
            Some(kept) => kept.count(sort),
            None => 0,
        }
    }

    /// Returns the number of Invokes with this ID and of this operation.
    pub(crate) fn invokes_of(&self, id: i8, code: CodeView) -> u128
        ensures { result ≡ (tally_of self.now).invokes_of id (code_of code.entry) }
    {
        match self.history_of_id(id) {
            Some(kept) => kept.operations.count(code),
            None => 0,
        }
    }

    /// Returns the number of Return Results Last with this ID that name this operation.
    pub(crate) fn results_of(&self, id: i8, code: CodeView) -> u128
        ensures { result ≡ (tally_of self.now).results_of id (code_of code.entry) }
    {
        match self.history_of_id(id) {
            Some(kept) => kept.named.count(code),
            None => 0,
        }
    }

    /// Returns whether an Invoke with this ID has an operation that meets `linkable`. Sets `found` to its place.
    pub(crate) fn has_operation(
        &self,
        table: &Table,
        id: i8,
        linkable: Linkable,
        found: &Cell<usize>,
    ) -> bool
        ensures { result ≡ (tally_of self.now).has_operation id (links_as table.now linkable.entry) }
    {
        match self.history_of_id(id) {
            Some(kept) => kept.operations.links_as(table, linkable, found),
            None => false,
        }
    }

    /// Returns whether the operation at this place meets `linkable`.
    pub(crate) fn has_operation_at(
        &self,
        table: &Table,
        id: i8,
        linkable: Linkable,
        place: usize,
    ) -> bool
        ensures { result ≡ true → (tally_of self.now).has_operation id (links_as table.now linkable.entry) ≡ true }
    {
        match self.history_of_id(id) {
            Some(kept) => kept.operations.links_as_at(table, linkable, place),
            None => false,
        }
    }

    /// Returns whether an Invoke with this ID has an operation that lists this one (Q.771 3.1), and remembers its
    /// place.
    pub(crate) fn lists(&self, table: &Table, id: i8, code: CodeView) -> bool
        ensures { result ≡ (tally_of self.now).has_operation id (λ to. links table.now to (code_of code.entry)) }
    {
        match self.history_of_id(id) {
            Some(kept) => {
                let found = &kept.listing;
                kept.operations.links_as(table, Linkable::This(code), found)
            }
            None => false,
        }
    }

    /// Returns whether the operation that was found last lists this one.
    pub(crate) fn lists_again(&self, table: &Table, id: i8, code: CodeView) -> bool
        ensures { result ≡ true
            → (tally_of self.now).has_operation id (λ to. links table.now to (code_of code.entry)) ≡ true }
    {
        match self.history_of_id(id) {
            Some(kept) => {
                let place = kept.listing.get();
                kept.operations
                    .links_as_at(table, Linkable::This(code), place)
            }
            None => false,
        }
    }
}
