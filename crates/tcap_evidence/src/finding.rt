//! Finds the evidence for a fault of an end (Q.771, Q.773, Q.774).

ghost use Rattle.std.specs.Prelude.{◌≡◌, ℕ, [], ◌∷◌, List, IfOk, false, map, option_map};
ghost use Rattle.std.specs.List.{list_any};
ghost use Rattle.tcap_parts.specs.Meaning.{component_of};
ghost use Rattle.tcap_msg.specs.Parts.{components_in, dtid_in};
ghost use Rattle.tcap_record.specs.declared.entry.End.{End as Side};
ghost use Rattle.tcap_record.specs.declared.entry.Entry.{Entry as AnEntry};
ghost use Rattle.tcap_record.specs.Ends.{other};
ghost use Rattle.tcap_faults.specs.FaultSubject.{subject_of};
ghost use Rattle.tcap_evidence.specs.declared.shown_facts.ShownFact.TheVariants as facts;
ghost use Rattle.tcap_evidence.specs.Evidence.{component_at, components_before, grounds_at, grounds_in, grounds_of, invoke_id_at, invoke_id_in, mark_scene, scene_of, shows};
ghost use Rattle.tcap_evidence.specs.StoredScene.{IsScene};
ghost use Rattle.tcap_evidence.specs.OpenAtMark.{is_of_mark};
ghost use Rattle.tcap_evidence.specs.NumberedMessages.{numbered_of, sent_before};
ghost use Rattle.tcap_evidence.specs.Operations.{invocations_at, invocations_of};
ghost use Rattle.tcap_evidence.specs.Scene.{Scene as Known};

use crate::mark::open_continues;
use crate::operations::Invocation;
use crate::scene::Scene;
use crate::sent::{MessagesByEnd, messages_before};
use crate::shown_by_kind::facts_of;
use crate::shown_facts::ShownFact;
use std::alloc::{AllocError, Global};
use tcap_end::Table;
use tcap_faults::{HalfOrigin, Subject, subject_of};
use tcap_msg::{Message, MessageParts};
use tcap_parts::ComponentView;
use tcap_record::{Body, End, Entry, Record};
use tcap_refute::{Kind, Refutation, SearchFault};

/// A thing that a fault depends on, and the entries that show it.
#[derive(Debug, Drop)]
pub struct Ground {
    /// The thing that the entries show.
    pub fact: ShownFact,
    /// The numbers of the entries, in order. If components are counted, an entry occurs once for each such component.
    pub entries: Vec<u64>,
}

/// The evidence for a fault.
#[derive(Debug, Drop)]
pub struct Evidence {
    /// The subject of the fault: the half over which the message would go, and the component at fault.
    pub about: Subject,
    /// The invoke ID whose components are counted.
    pub id: Option<i8>,
    /// The facts that show the fault.
    pub grounds: Vec<Ground>,
    /// The Invokes of this ID in earlier messages whose operations and links count for the fault: for F6 of an answer
    /// and F10 to F13. Empty for other kinds.
    pub invocations: Vec<Invocation>,
}

/// Returns the component with this number, if there is one.
pub fn component_at(message: &Message, number: Option<u64>) -> Option<ComponentView<'_>>
    ensures { option_map component_of result ≡ component_at number (components_in message.now) }
{
    message.components().nth(number? as usize)
}

/// Returns the components before this number; none without a number.
fn components_before<'a>(
    alloc: Global,
    message: &'a Message,
    number: Option<u64>,
) -> Result<Vec<ComponentView<'a>>, AllocError>
    ensures { IfOk result (λ v. map component_of v.items ≡ components_before number (components_in message.now)) }
{
    match number {
        Some(number) => message.components().take(number as usize).collect(alloc),
        None => Ok(Vec::new(alloc)),
    }
}

/// Returns the invoke ID in question: for `BadLink` the linked ID of the Invoke, else the ID of the component.
fn invoke_id_of(kind: Kind, component: Option<ComponentView>) -> Option<i8>
    ensures { result ≡ invoke_id_in kind (option_map component_of component.entry) }
{
    match component? {
        ComponentView::Invoke { linked, .. } if kind == Kind::BadLink => linked,
        ComponentView::Invoke { id, .. }
        | ComponentView::ReturnResult { id, .. }
        | ComponentView::ReturnError { id, .. } => Some(id),
        ComponentView::Reject { id, .. } => id,
    }
}

/// Returns the components of a message.
fn components_of<'a>(
    alloc: Global,
    message: &'a Message,
) -> Result<Vec<ComponentView<'a>>, AllocError>
    ensures { IfOk result (λ v. map component_of v.items ≡ components_in message.now) }
{
    message.components().collect(alloc)
}

/// Creates the scene of the message of entry `at`, from the messages of each end before it and the subject of its
/// fault.
fn scene_for<'a>(
    alloc: Global,
    messages_by_end: MessagesByEnd<'a>,
    table: &'a Table,
    message: &'a Message,
    at: Refutation,
    about: &Subject,
) -> Result<Scene<'a>, AllocError>
    ensures { (side : Side) (entries : List AnEntry)
        → numbered_of messages_by_end.entry.own.items ≡ sent_before side entries at.entry
        → numbered_of messages_by_end.entry.peer.items ≡ sent_before (other side) entries at.entry
        → IfOk result (IsScene (scene_of table.now side entries at.entry message.now at.kind about.now)) }
{
    let id = invoke_id_of(at.kind, component_at(message, about.component));
    let all = components_of(alloc, message)?;
    let earlier = components_before(alloc, message, about.component)?;
    Scene::new(
        alloc,
        messages_by_end,
        table,
        message,
        at.entry,
        about,
        all,
        earlier,
        id,
    )
}

/// Returns each of these facts about a message with the entries that show it. Facts about quiet marks alone must not be
/// among them.
fn grounds_in(alloc: Global, scene: &Scene, facts: &[ShownFact]) -> Result<Vec<Ground>, AllocError>
    ensures { (s : Known) → IsScene s scene.now → list_any is_of_mark facts.now ≡ false
        → IfOk result (λ v. map (λ g. (g.fact, g.entries.items)) v.items ≡ grounds_in s facts.now) }
{
    let mut grounds = Vec::new(alloc);
    for fact in facts {
        grounds.push(Ground {
            fact: *fact,
            entries: scene.shown(alloc, *fact)?,
        })?;
    }
    Ok(grounds)
}

/// Returns the evidence for a message at fault.
fn of_message(
    alloc: Global,
    messages_by_end: MessagesByEnd,
    table: &Table,
    message: &Message,
    at: Refutation,
    about: Subject,
) -> Result<Evidence, AllocError>
    ensures about { IfOk result (λ e. e.about ≡ about) }
    ensures id { IfOk result (λ e.
        e.id ≡ invoke_id_in at.kind (component_at about.component (components_in message.now))) }
    ensures grounds { (side : Side) (entries : List AnEntry)
        → numbered_of messages_by_end.entry.own.items ≡ sent_before side entries at.entry
        → numbered_of messages_by_end.entry.peer.items ≡ sent_before (other side) entries at.entry
        → IfOk result (λ e. map (λ g. (g.fact, g.entries.items)) e.grounds.items
        ≡ grounds_in (scene_of table.now side entries at.entry message.now at.kind about)
        (shows (dtid_in message.now) about.origin (component_at about.component (components_in message.now)) at.kind)) }
    ensures invocations { (side : Side) (entries : List AnEntry)
        → numbered_of messages_by_end.entry.own.items ≡ sent_before side entries at.entry
        → numbered_of messages_by_end.entry.peer.items ≡ sent_before (other side) entries at.entry
        → IfOk result (λ e. e.invocations.items
        ≡ invocations_of (scene_of table.now side entries at.entry message.now at.kind about) at.kind
        (component_at about.component (components_in message.now))) }
{
    let component = component_at(message, about.component);
    let id = invoke_id_of(at.kind, component);
    let facts = facts_of(message, about.origin, component, at.kind);
    let scene = scene_for(alloc, messages_by_end, table, message, at, &about)?;
    let grounds = grounds_in(alloc, &scene, facts)?;
    let invocations = scene.invocations(alloc, at.kind, component)?;
    Ok(Evidence {
        about,
        id,
        grounds,
        invocations,
    })
}

/// Returns each of these facts about the message of an entry, with the entries that show it. The list is empty if the
/// entry is not a message.
pub(crate) fn grounds_for(
    alloc: Global,
    record: &Record,
    table: &Table,
    end: End,
    number: u64,
    facts: &[ShownFact],
) -> Result<Vec<Ground>, AllocError>
    ensures { list_any is_of_mark facts.now ≡ false → IfOk result (λ v. map (λ g. (g.fact, g.entries.items)) v.items
        ≡ grounds_at table.now end «record».now.entries.items number facts.now) }
{
    let messages_by_end = messages_before(alloc, record, end, number)?;
    let about = Subject {
        origin: HalfOrigin::Nowhere,
        own: None,
        component: None,
    };
    let at = Refutation {
        entry: number,
        kind: Kind::BadMessage,
    };
    match record.entry_at(number) {
        Some(
            Entry {
                side: Some(_),
                body: Body::Good(message),
                ..
            },
        ) => {
            let scene = scene_for(alloc, messages_by_end, table, message, at, &about)?;
            grounds_in(alloc, &scene, facts)
        }
        _ => Ok(Vec::new(alloc)),
    }
}

/// Returns the evidence for a half that is open at a quiet mark.
fn of_mark(
    alloc: Global,
    messages_by_end: &MessagesByEnd,
    table: &Table,
    about: Subject,
) -> Result<Evidence, AllocError>
    ensures about { IfOk result (λ e. e.about ≡ about) }
    ensures id { IfOk result (λ e. e.id ≡ None) }
    ensures grounds { (side : Side) (entries : List AnEntry) (number : ℕ)
        → numbered_of messages_by_end.now.own.items ≡ sent_before side entries number
        → numbered_of messages_by_end.now.peer.items ≡ sent_before (other side) entries number
        → IfOk result (λ e. map (λ g. (g.fact, g.entries.items)) e.grounds.items
        ≡ grounds_in (mark_scene table.now side entries number) (facts.Open ∷ [])) }
    ensures invocations { IfOk result (λ e. e.invocations.items ≡ []) }
{
    let mut grounds = Vec::new(alloc);
    grounds.push(Ground {
        fact: ShownFact::Open,
        entries: open_continues(alloc, table, messages_by_end)?,
    })?;
    Ok(Evidence {
        about,
        id: None,
        grounds,
        invocations: Vec::new(alloc),
    })
}

/// Finds the evidence for the fault of an entry, as `refute` or `blame` names it for an end.
///
/// The result has the component at fault, and for each thing that the kind compares, the entries since the last quiet
/// mark that show it. It also has the Invokes whose operations and links the kind compares. Octets that are not a
/// message need no evidence.
///
/// `of_one` says whether the kind was found for one end alone, as `blame` does. The record is read once more, and the
/// messages of each end a few times.
///
/// # Errors
///
/// `Memory` if memory runs out.
pub fn find_evidence(
    alloc: Global,
    record: &Record,
    table: &Table,
    end: End,
    at: Refutation,
    of_one: bool,
) -> Result<Evidence, SearchFault>
    ensures grounds { IfOk result (λ e. map (λ g. (g.fact, g.entries.items)) e.grounds.items
        ≡ grounds_of of_one table.now end «record».now.entries.items at) }
    ensures about { IfOk result (λ e. e.about ≡ subject_of of_one table.now end «record».now.entries.items at) }
    ensures id { IfOk result (λ e. e.id ≡ invoke_id_at of_one table.now end «record».now.entries.items at) }
    ensures invocations { IfOk result (λ e. e.invocations.items
        ≡ invocations_at of_one table.now end «record».now.entries.items at) }
{
    let about = subject_of(alloc, record, table, end, at, of_one)?;
    let messages_by_end = messages_before(alloc, record, end, at.entry)?;
    match record.entry_at(at.entry) {
        Some(entry) => match (entry.side, &entry.body) {
            (Some(_), Body::Good(message)) => {
                Ok(of_message(alloc, messages_by_end, table, message, at, about)?)
            }
            (None, Body::Quiet) => Ok(of_mark(alloc, &messages_by_end, table, about)?),
            _ => Ok(none_of(alloc, about)),
        },
        None => Ok(none_of(alloc, about)),
    }
}

/// Returns the evidence for octets that are not a message, which has no entries.
fn none_of(alloc: Global, about: Subject) -> Evidence
    ensures about { result.about ≡ about }
    ensures id { result.id ≡ None }
    ensures grounds { result.grounds.items ≡ [] }
    ensures invocations { result.invocations.items ≡ [] }
{
    Evidence {
        about,
        id: None,
        grounds: Vec::new(alloc),
        invocations: Vec::new(alloc),
    }
}
