//! What a fault of an end is about: the half over which its message goes, and the component with the kind.

ghost use Rattle.std.specs.Prelude.{◌≡◌, List, [], ◌∷◌, ◌++◌, Some, Ok, IfOk};
ghost use Rattle.tcap_model.specs.Entries.{item_of};
ghost use Rattle.tcap_model.specs.World.{Item, Sent};
ghost use Rattle.tcap_refute.specs.EarlierMessages.{since_quiet};
ghost use Rattle.tcap_faults.specs.SearchState.{AreRoomy, IsHalfKey};
ghost use Rattle.tcap_faults.specs.FaultSubject.{no_subject, subject, subject_by, subject_of};

use crate::component::component_faults::{faults_of, first_faults};
use crate::dialogue::half_origin::HalfOrigin;
use crate::transaction::history::Facts;
use crate::verdict::first_fault::entry_count;
use std::alloc::{AllocError, Global};
use tcap_end::Table;
use tcap_msg::{MessageParts, TransactionId};
use tcap_record::{Body, End, Entry, Record};
use tcap_refute::{Kind, Refutation, SearchFault, faulty_component};

/// The subject of a fault.
#[derive(Debug, Drop)]
pub struct Subject {
    /// The way in which the half with the message's destination ID began; `Nowhere` if there is none.
    pub origin: HalfOrigin,
    /// The half's own ID, if it is known.
    pub own: Option<TransactionId>,
    /// The number, from 0, of the first component with the kind, if it is F5, F6 or F10 to F13.
    pub component: Option<u64>,
}

/// Creates the subject of an entry that is no message.
fn no_subject() -> Subject
    ensures { result ≡ no_subject }
{
    Subject {
        origin: HalfOrigin::Nowhere,
        own: None,
        component: None,
    }
}

impl Facts {
    /// Returns the subject of a message that comes after what is kept. Fails if memory runs out.
    fn subject<M: MessageParts>(
        &self,
        alloc: Global,
        table: &Table,
        side: End,
        message: &M,
        kind: Kind,
        of_one: bool,
    ) -> Result<Subject, AllocError>
        ensures { (items : List Item) → IsHalfKey table.now items self.now
            → AreRoomy (items ++ Sent side (M.meaning message.now) ∷ [])
            → IfOk result (λ s. s
            ≡ subject of_one table.now side (since_quiet items) (M.meaning message.now) kind) }
    {
        let ends = self.ends(side);
        let peers = ends.peer.first_from(message.dtid());
        let first = faulty_component(of_one, table, peers, message, kind);
        let Some(dtid) = message.dtid() else {
            let faults = first_faults(alloc, message)?;
            return Ok(Subject {
                origin: HalfOrigin::Nowhere,
                own: None,
                component: first.or(faults.component(kind)),
            });
        };
        let id = dtid.to_transaction_id();
        let half = ends.half(alloc, ends.peer_id(&id))?;
        let faults = faults_of(alloc, table, &half, message)?;
        Ok(Subject {
            origin: half.origin,
            own: half.own,
            component: first.or(faults.component(kind)),
        })
    }

    /// Returns the subject of an entry that comes after what is kept. Fails if memory runs out.
    fn subject_of_entry(
        &self,
        alloc: Global,
        table: &Table,
        side: End,
        entry: &Entry,
        kind: Kind,
        of_one: bool,
    ) -> Result<Subject, AllocError>
        ensures { (items : List Item) → IsHalfKey table.now items self.now
            → ((item : Item) → item_of entry.now ≡ Ok item → AreRoomy (items ++ item ∷ []))
            → IfOk result (λ s. s
            ≡ subject_by of_one table.now side (since_quiet items) (Some (item_of entry.now)) kind) }
    {
        match (entry.side, &entry.body) {
            (Some(_), Body::Good(message)) => {
                self.subject(alloc, table, side, &message.view(), kind, of_one)
            }
            _ => Ok(no_subject()),
        }
    }
}

/// Returns the subject of the fault whose entry and kind are `at` (Q.774 3.2, 3.3).
///
/// If `of_one` holds, the kind was asked of one end, as by `blame`; else of both, as by `refute`. This makes a
/// difference for F5. If the entry is no message, or the record has no such entry, there is no half and no component.
///
/// Notes again the earlier entries that matter for this half: what the peer sent from the message's destination ID,
/// what the end sent to it, and the end's Begins. Each other entry costs one look.
///
/// # Errors
///
/// `Memory` if memory runs out.
pub fn subject_of(
    alloc: Global,
    record: &Record,
    table: &Table,
    end: End,
    at: Refutation,
    of_one: bool,
) -> Result<Subject, SearchFault>
    ensures { IfOk result (λ s. s ≡ subject_of of_one table.now end «record».now.entries.items at) }
{
    let Some(entry) = record.entry_at(at.entry) else {
        return Ok(no_subject());
    };
    let kept = Facts::for_entry(alloc, record, table, end, at.entry, entry)?;
    // Bounds the number of components, so that no count of them exceeds the greatest.
    let _count = entry_count(entry);
    Ok(kept.subject_of_entry(alloc, table, end, entry, at.kind, of_one)?)
}
