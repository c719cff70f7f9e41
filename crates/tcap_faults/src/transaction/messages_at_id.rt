//! What is kept of the messages with one transaction ID.

ghost use Rattle.std.specs.Prelude.{◌≡◌, ℕ, List, [], ◌∷◌, ◌++◌, Option, OnOk};
ghost use Rattle.tcap_msg.specs.declared.message.Message.{Message};
ghost use Rattle.tcap_msg.specs.Meaning.{id_of};
ghost use Rattle.tcap_end.specs.Table.{Table};
ghost use Rattle.tcap_faults.specs.HistoryUpdate.{AreAt, with_more};

use std::alloc::{AllocError, Global};
use std::collections::BTreeMap;
use tcap_end::Table;
use tcap_msg::{MessageParts, TransactionId, TransactionIdView};

/// A summary of a list of messages.
pub(crate) trait MessageSummary: Sized + Drop {
    // The relation between a list and its summary.
    ghost of: { Table → List Message → Self → Type 0 };

    /// Creates the summary of no messages.
    fn new(alloc: Global) -> Self
        ensures { (table : Table) → of table [] result };

    /// Adds a message. Fails if memory runs out.
    fn note<M: MessageParts>(
        &mut self,
        alloc: Global,
        table: &Table,
        message: &M,
    ) -> Result<(), AllocError>
        ensures { (ms : List Message) → of table.now ms self.old
            → OnOk result (of table.now (ms ++ M.meaning message.now ∷ []) self.new) };
}

/// Adds a message to the summary at this ID of it, if it has one. Fails if memory runs out.
pub(crate) fn note_at<N: MessageSummary, M: MessageParts>(
    map: &mut BTreeMap<TransactionId, N>,
    id: Option<TransactionIdView>,
    alloc: Global,
    table: &Table,
    message: &M,
) -> Result<(), AllocError>
    ensures { (id_in : Message → Option (List ℕ)) (lists : List ℕ → List Message)
        → id_of id.entry ≡ id_in (M.meaning message.now) → AreAt (N.of table.now) lists map.old
        → OnOk result (AreAt (N.of table.now) (with_more id_in (M.meaning message.now) lists) map.new) }
{
    let Some(id) = id else {
        return Ok(());
    };
    let key = id.to_transaction_id();
    if let Some(kept) = map.get_mut(&key) {
        return kept.note(alloc, table, message);
    }
    let mut kept = N::new(alloc);
    kept.note(alloc, table, message)?;
    map.insert(key, kept)?;
    Ok(())
}
