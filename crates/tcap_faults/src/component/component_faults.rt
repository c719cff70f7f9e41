//! F10 to F13: the components that a half does not allow (Q.774 3.2; Q.771 3.1).

ghost use Rattle.std.specs.Prelude.{◌≡◌, List, ◌++◌, IfOk, OnOk, filter, option_map, option_to_list};
ghost use Rattle.tcap_parts.specs.declared.component.Component.{Component};
ghost use Rattle.tcap_parts.specs.Meaning.{component_of, components_left};
ghost use Rattle.tcap_msg.specs.Parts.{components_in};
ghost use Rattle.tcap_refute.specs.declared.kind.Kind.{Kind as FaultKind};
ghost use Rattle.tcap_refute.specs.EarlierMessages.{is_reject};
ghost use Rattle.tcap_faults.specs.HalfByPeerId.{HalfMessages};
ghost use Rattle.tcap_faults.specs.InvokeCounts.{AreFew};
ghost use Rattle.tcap_faults.specs.TallyMeaning.{IsTally};
ghost use Rattle.tcap_faults.specs.KeyedHalf.{IsHalf};
ghost use Rattle.tcap_faults.specs.KindsByCounts.{counted};
ghost use Rattle.tcap_faults.specs.ComponentFaults.{IsFaultless, IsFirstNoted, IsWith, component_at, first_or};
ghost use Rattle.tcap_faults.specs.FaultSubject.{alone_component, half_component};

use crate::component::preceding_components::PrecedingComponents;
use crate::component::tally::Tally;
use crate::dialogue::half::Half;
use std::alloc::{AllocError, Global};
use std::collections::BTreeSet;
use tcap_end::Table;
use tcap_msg::MessageParts;
use tcap_parts::{ComponentView, Components};
use tcap_refute::Kind;

/// The numbers of the first components of a message with F10, F11, F12 and F13.
#[derive(Clone, Copy)]
pub(crate) struct ComponentFaults {
    /// F10: an Invoke of an ID that is in use.
    pub(crate) busy: Option<u64>,
    /// F11: an Invoke with a bad linked ID.
    pub(crate) badly_linked: Option<u64>,
    /// F12: an answer to an invocation that was answered already.
    pub(crate) answered_already: Option<u64>,
    /// F13: a Reject with a problem that nothing has.
    pub(crate) wrongly_rejected: Option<u64>,
}

/// Returns `first` if it is a number; else `number`, if `so` holds.
fn first_or(first: Option<u64>, so: bool, number: u64) -> Option<u64>
    ensures { result ≡ first_or first so number }
{
    match first {
        Some(_) => first,
        None if so => Some(number),
        None => None,
    }
}

impl ComponentFaults {
    /// Creates the faults of no components.
    fn none() -> ComponentFaults
        ensures { IsFaultless result }
    {
        ComponentFaults {
            busy: None,
            badly_linked: None,
            answered_already: None,
            wrongly_rejected: None,
        }
    }

    /// Returns the number of the component with this kind, F10 to F13.
    pub(crate) fn component(self, kind: Kind) -> Option<u64>
        ensures { result ≡ component_at kind self }
    {
        match kind {
            Kind::InvokeIdBusy => self.busy,
            Kind::BadLink => self.badly_linked,
            Kind::AnsweredAlready => self.answered_already,
            Kind::RejectNotAllowed => self.wrongly_rejected,
            _ => None,
        }
    }

    /// Returns these faults after the next component, which has this number. Its number is noted for each kind that it
    /// has and no component before it had.
    fn with(
        self,
        table: &Table,
        before: PrecedingComponents,
        number: u64,
        component: ComponentView,
    ) -> ComponentFaults
        ensures { IsWith table.now (counted before.entry) number (component_of component.entry) self result }
    {
        let busy = before.invokes_busy(component);
        let badly_linked = before.links_badly(table, component);
        let answered_already = before.answers_again(component);
        let wrongly_rejected = before.rejects_wrongly(table, component);
        ComponentFaults {
            busy: first_or(self.busy, busy, number),
            badly_linked: first_or(self.badly_linked, badly_linked, number),
            answered_already: first_or(self.answered_already, answered_already, number),
            wrongly_rejected: first_or(self.wrongly_rejected, wrongly_rejected, number),
        }
    }

    /// Notes the next component of a message without destination ID. `ids` are the IDs of the Invokes before it.
    ///
    /// Fails if memory runs out.
    fn note_first(
        &mut self,
        ids: &mut BTreeSet<i8>,
        number: u64,
        component: ComponentView,
    ) -> Result<(), AllocError>
        ensures { OnOk result
            (IsFirstNoted ids.old ids.new number (component_of component.entry) self.old self.new) }
    {
        if let ComponentView::Invoke { id, linked, .. } = component {
            let again = !ids.insert(id)?;
            self.busy = first_or(self.busy, again, number);
            self.badly_linked = first_or(self.badly_linked, linked.is_some(), number);
        }
        Ok(())
    }
}

/// Counts a component, if there is one. Fails if memory runs out.
fn note_last(
    own: &mut Tally,
    alloc: Global,
    table: &Table,
    last: Option<ComponentView>,
) -> Result<(), AllocError>
    ensures { (cs : List Component) → IsTally table.now cs own.old
        → OnOk result (IsTally table.now (cs ++ option_to_list (option_map component_of last.entry)) own.new) }
{
    if let Some(component) = last {
        own.note(alloc, table, component)?;
    }
    Ok(())
}

/// Counts the Rejects among components. Fails if memory runs out.
fn count_rejects(alloc: Global, table: &Table, components: Components) -> Result<Tally, AllocError>
    ensures { IfOk result (λ tally. IsTally table.now (filter is_reject (components_left components.entry)) tally) }
{
    let mut rejects = Tally::new(alloc);
    for component in components {
        let ComponentView::Reject { .. } = component else {
            continue;
        };
        rejects.note(alloc, table, component)?;
    }
    Ok(rejects)
}

/// Finds the faults of the components of a message that goes over a half. Fails if memory runs out.
///
/// All Rejects of the message are counted first, because a Reject may end an own invocation of an ID that an Invoke
/// before it has.
pub(crate) fn faults_of<M: MessageParts>(
    alloc: Global,
    table: &Table,
    half: &Half,
    message: &M,
) -> Result<ComponentFaults, AllocError>
    ensures { (h : HalfMessages) → IsHalf table.now h half.now → AreFew h.incoming → AreFew h.invoked
        → AreFew (h.outgoing ++ components_in (M.meaning message.now))
        → IfOk result (λ f. (kind : FaultKind)
        → component_at kind f ≡ half_component table.now h (components_in (M.meaning message.now)) kind) }
{
    let rejects = count_rejects(alloc, table, message.components())?;
    // Bounds the number of components, so that their numbers fit.
    let _count = message.count();
    let mut own = Tally::new(alloc);
    let mut last = None;
    let mut faults = ComponentFaults::none();
    let mut number = 0;
    for component in message.components() {
        note_last(&mut own, alloc, table, last)?;
        let before = PrecedingComponents {
            half: &*half,
            own: &own,
            rejects: &rejects,
        };
        faults = faults.with(table, before, number, component);
        last = Some(component);
        number += 1;
    }
    Ok(faults)
}

/// Finds the faults of the components of a message without destination ID. Fails if memory runs out.
///
/// They are the second of two Invokes with one ID, and a linked Invoke.
pub(crate) fn first_faults<M: MessageParts>(
    alloc: Global,
    message: &M,
) -> Result<ComponentFaults, AllocError>
    ensures { IfOk result (λ f. (kind : FaultKind)
        → component_at kind f ≡ alone_component (components_in (M.meaning message.now)) kind) }
{
    // Bounds the number of components, so that their numbers fit.
    let _count = message.count();
    let mut ids = BTreeSet::new(alloc);
    let mut faults = ComponentFaults::none();
    let mut number = 0;
    for component in message.components() {
        faults.note_first(&mut ids, number, component)?;
        number += 1;
    }
    Ok(faults)
}
