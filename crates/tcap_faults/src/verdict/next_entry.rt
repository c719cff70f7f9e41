//! The kind of the next entry of a record for an end, from what is kept of the entries before it.

ghost use Rattle.std.specs.Prelude.{◌≡◌, List, [], ◌∷◌, ◌++◌, IfOk, option_copied};
ghost use Rattle.tcap_msg.specs.declared.message.Message.{Message};
ghost use Rattle.tcap_msg.specs.Parts.{dtid_in, otid_in};
ghost use Rattle.tcap_end.specs.Table.{Table};
ghost use Rattle.tcap_model.specs.World.{Item, Sent};
ghost use Rattle.tcap_refute.specs.EarlierMessages.{since_quiet};
ghost use Rattle.tcap_faults.specs.Fault.{fault_since};
ghost use Rattle.tcap_record.specs.Ends.{other};
ghost use Rattle.tcap_faults.specs.MessageEffects.{AreEffects};
ghost use Rattle.tcap_faults.specs.KeptForMessage.{AreMessageIds};
ghost use Rattle.tcap_faults.specs.History.{IsSide};
ghost use Rattle.tcap_faults.specs.SearchState.{AreRoomy, IsHalfKey};

use crate::transaction::history::Facts;
use crate::transaction::lookup::MessageIds;
use crate::transaction::message_effects::Effects;
use crate::transaction::tangled_ids::Ends;
use std::alloc::{AllocError, Global};
use tcap_end::Table;
use tcap_msg::{MessageParts, TransactionId};
use tcap_record::End;
use tcap_refute::Kind;

impl Facts {
    /// Returns the histories of an end and its peer.
    pub(crate) fn ends(&self, side: End) -> Ends<'_>
        ensures { (table : Table) (items : List Item) → IsHalfKey table items self.now
            → IsSide table side (since_quiet items) result.own.now
            × IsSide table (other side) (since_quiet items) result.peer.now }
    {
        Ends {
            own: self.of(side),
            peer: self.of(side.other()),
        }
    }

    /// Looks up the IDs of a message that an end sends.
    pub(crate) fn find<'a>(
        &'a self,
        side: End,
        otid: Option<&'a TransactionId>,
        dtid: Option<&'a TransactionId>,
    ) -> MessageIds<'a>
        ensures { (table : Table) (items : List Item) (m : Message) → IsHalfKey table items self.now
            → option_copied otid.entry ≡ otid_in m → option_copied dtid.entry ≡ dtid_in m
            → AreMessageIds table side (since_quiet items) m result }
    {
        self.ends(side).find(otid, dtid)
    }

    /// Returns the effects of a message that an end sends, from what was found of its IDs.
    pub(crate) fn effects(&self, table: &Table, side: End, found: MessageIds) -> Effects
        ensures { (items : List Item) (m : Message) → IsHalfKey table.now items self.now
            → AreMessageIds table.now side (since_quiet items) m found.entry
            → AreEffects table.now side (since_quiet items) m result }
    {
        let again = self.ends(side).uses_again(table, found);
        found.effects(again)
    }

    /// Returns the lowest kind of a message that an end sends, if it is a fault. `found` and `effects` are those of
    /// the message. Fails if memory runs out.
    pub(crate) fn fault_of<M: MessageParts>(
        &self,
        alloc: Global,
        table: &Table,
        side: End,
        message: &M,
        found: MessageIds,
        effects: Effects,
    ) -> Result<Option<Kind>, AllocError>
        ensures { (items : List Item) → IsHalfKey table.now items self.now
            → AreRoomy (items ++ Sent side (M.meaning message.now) ∷ [])
            → AreMessageIds table.now side (since_quiet items) (M.meaning message.now) found.entry
            → AreEffects table.now side (since_quiet items) (M.meaning message.now) effects
            → IfOk result (λ kind. kind
            ≡ fault_since table.now side (since_quiet items) (Sent side (M.meaning message.now))) }
    {
        let ends = self.ends(side);
        if ends.own.again || effects.again || ends.tangled_in(side, found).is_some() {
            return Ok(None);
        }
        match found.first_kind(table, message) {
            Some(kind) => Ok(Some(kind)),
            None => ends.further_kind(alloc, table, message, found),
        }
    }

    /// Returns F15 if a quiet mark is a fault of this end.
    pub(crate) fn mark_of(&self, table: &Table, side: End) -> Option<Kind>
        ensures { (items : List Item) → IsHalfKey table.now items self.now
            → result ≡ fault_since table.now side (since_quiet items) Item.Quiet }
    {
        let ends = self.ends(side);
        if !ends.own.again && ends.is_open_at_mark(table, side) {
            Some(Kind::OpenAtMark)
        } else {
            None
        }
    }

    /// Notes a quiet mark: forgets what was before it.
    pub(crate) fn note_mark(&mut self, alloc: Global)
        ensures { (table : Table) (items : List Item) → IsHalfKey table (items ++ Item.Quiet ∷ []) self.new }
    {
        *self = Facts::new(alloc);
    }
}
