//! F14 and F15: Aborts of the provider that answer nothing that is left, and halves that are open at a quiet mark
//! (Q.774 3.3).

ghost use Rattle.std.specs.Prelude.{◌≡◌, ◌≤◌, ◌+◌, ◌^◌, ◌||◌, ℕ, List, Some, length, nat_lt, not};
ghost use Rattle.std.specs.List.{list_any};
ghost use Rattle.tcap_msg.specs.declared.kind.Kind.TheVariants as forms;
ghost use Rattle.tcap_record.specs.declared.entry.End.{End as Side};
ghost use Rattle.tcap_record.specs.Ends.{other};
ghost use Rattle.tcap_end.specs.Table.{Table};
ghost use Rattle.tcap_model.specs.World.{Item};
ghost use Rattle.tcap_refute.specs.EarlierMessages.{peer_sent_from, is_a, sent_by};
ghost use Rattle.tcap_faults.specs.ClosedHalves.{all_go_to_open, is_surely_open};
ghost use Rattle.tcap_faults.specs.SentToId.{is_abort_with};
ghost use Rattle.tcap_faults.specs.Counts.{count};
ghost use Rattle.tcap_faults.specs.Fault.{count_received, is_left_open, is_open_at_mark, is_wrong_reply};
ghost use Rattle.tcap_faults.specs.HalfKinds.{is_accepted};
ghost use Rattle.tcap_faults.specs.HalfByPeerId.{half_of};
ghost use Rattle.tcap_faults.specs.IdList.{AreAmong};
ghost use Rattle.tcap_faults.specs.History.{IsSide, sent_from};
ghost use Rattle.tcap_faults.specs.HalfTallies.{IsKeptFrom};

use crate::transaction::id_list::Ids;
use crate::transaction::sent_from_id::SentFrom;
use crate::transaction::tangled_ids::Ends;
use tcap_ber::SmallView;
use tcap_end::Table;
use tcap_msg::TransactionId;
use tcap_record::End;

impl Ends<'_> {
    /// Returns whether the half with this own ID is surely open. `kept` is what the end sent from the ID.
    fn is_open(self, table: &Table, own: &TransactionId, kept: &SentFrom) -> bool
        ensures { (side : Side) (items : List Item) → IsSide table.now side items self.entry.own.now
            → IsSide table.now (other side) items self.entry.peer.now → IsKeptFrom table.now side items own.now kept.now
            → result ≡ is_surely_open table.now side items own.now }
    {
        match &kept.to.first {
            Some(to) => {
                !table.prearranged() && !self.own.has_ended(to) && !self.peer.has_silenced(own)
            }
            None => false,
        }
    }

    /// Returns whether the half with this own ID is surely open.
    fn is_surely_open(self, table: &Table, own: &TransactionId) -> bool
        ensures { (side : Side) (items : List Item) → IsSide table.now side items self.entry.own.now
            → IsSide table.now (other side) items self.entry.peer.now
            → result ≡ is_surely_open table.now side items own.now }
    {
        match self.own.from.get(own) {
            Some(kept) => self.is_open(table, own, kept),
            None => false,
        }
    }

    /// Returns whether one of these own IDs has a half that is not surely open.
    fn goes_to_shut(self, table: &Table, ids: &Ids) -> bool
        ensures { (side : Side) (items : List Item) (those : List (List ℕ))
            → IsSide table.now side items self.entry.own.now
            → IsSide table.now (other side) items self.entry.peer.now → AreAmong those (Some ids.now)
            → result ≡ list_any (λ own. not (is_surely_open table.now side items own)) those }
    {
        let Some(first) = &ids.first else {
            return false;
        };
        if !self.is_surely_open(table, first) {
            return true;
        }
        for id in &ids.more {
            if !self.is_surely_open(table, id) {
                return true;
            }
        }
        false
    }

    /// Returns whether the peer sent a Continue from an ID, and all its Continues go to halves that are surely open.
    fn all_go_to_open(self, table: &Table, id: &TransactionId) -> bool
        ensures { (side : Side) (items : List Item) → IsSide table.now side items self.entry.own.now
            → IsSide table.now (other side) items self.entry.peer.now
            → result ≡ all_go_to_open table.now side items (peer_sent_from side id.now items) }
    {
        match self.peer.goes_to(id) {
            Some(ids) => ids.first().is_some() && !self.goes_to_shut(table, ids),
            None => false,
        }
    }

    /// Returns whether the end accepted a Begin from an ID of the peer.
    fn has_accepted(self, id: &TransactionId) -> bool
        ensures { (table : Table) (side : Side) (items : List Item) → IsSide table side items self.entry.own.now
            → IsSide table (other side) items self.entry.peer.now
            → result ≡ is_accepted (half_of side items id.now).origin }
    {
        if !self.peer.began(id) {
            return false;
        }
        match self.own.to.get(id) {
            Some(outgoing) => !outgoing.refused,
            None => true,
        }
    }

    /// Returns whether one more Abort with cause 1 to this ID is too many: with the Continues that the end received,
    /// they are more than the Continues from the ID.
    fn answers_too_many(self, id: &TransactionId) -> bool
        ensures { (table : Table) (side : Side) (items : List Item) → IsSide table side items self.entry.own.now
            → IsSide table (other side) items self.entry.peer.now → length items ≤ 2 ^ 63
            → result ≡ nat_lt (count (is_a forms.Continue) (peer_sent_from side id.now items))
            (count (is_abort_with 1 id.now) (sent_by side items) + 1
            + count_received side id.now items (half_of side items id.now)) }
    {
        let continues = match self.peer.from.get(id) {
            Some(asked) => asked.continues,
            None => 0,
        };
        let (unknown, spoke) = match self.own.to.get(id) {
            Some(outgoing) => (outgoing.unknown, outgoing.spoke),
            None => (0, false),
        };
        let received = if spoke && !self.has_accepted(id) {
            1
        } else {
            0
        };
        continues.saturating_sub(received) <= unknown
    }

    /// Returns whether an Abort of the provider with this cause has F14: it answers nothing that is left.
    pub(crate) fn is_wrong_reply(self, table: &Table, id: &TransactionId, cause: SmallView) -> bool
        ensures { (side : Side) (items : List Item) → IsSide table.now side items self.entry.own.now
            → IsSide table.now (other side) items self.entry.peer.now → length items ≤ 2 ^ 63
            → result ≡ is_wrong_reply table.now side id.now items (half_of side items id.now) cause.number }
    {
        match cause.number {
            1 => self.answers_too_many(id) || self.all_go_to_open(table, id),
            4 => !self.has_accepted(id) || self.own.has_spoken_to(id),
            _ => false,
        }
    }

    /// Returns whether the half with this own ID is surely open, over no tangled IDs. `kept` is what the end sent
    /// from the ID.
    fn is_left_open(self, table: &Table, end: End, own: &TransactionId, kept: &SentFrom) -> bool
        ensures { (items : List Item) → IsSide table.now end items self.entry.own.now
            → IsSide table.now (other end) items self.entry.peer.now → IsKeptFrom table.now end items own.now kept.now
            → result ≡ list_any (is_left_open table.now end items) (sent_from end items own.now) }
    {
        if kept.to.differ() || !self.is_open(table, own, kept) {
            return false;
        }
        match &kept.to.first {
            Some(to) => {
                let tangled = self.tangled_id(end, self.peer_id(to), Some(self.own_at(own)));
                tangled.is_none()
            }
            None => false,
        }
    }

    /// Returns whether a quiet mark has F15: a half of the end is open.
    pub(crate) fn is_open_at_mark(self, table: &Table, end: End) -> bool
        ensures { (items : List Item) → IsSide table.now end items self.entry.own.now
            → IsSide table.now (other end) items self.entry.peer.now
            → result ≡ is_open_at_mark table.now end items }
    {
        for (own, kept) in &self.own.from {
            if self.is_left_open(table, end, own, kept) {
                return true;
            }
        }
        false
    }
}
