//! The kinds F1 to F7 of a message whose end alone is judged, from what is kept of its IDs.

ghost use Rattle.std.specs.Prelude.{◌≡◌, List, Some, None, cond, option_copied};
ghost use Rattle.std.specs.List.{find};
ghost use Rattle.tcap_msg.specs.Parts.{dtid_in};
ghost use Rattle.tcap_record.specs.declared.entry.End.{End as Side};
ghost use Rattle.tcap_record.specs.Ends.{other};
ghost use Rattle.tcap_model.specs.World.{Item};
ghost use Rattle.tcap_refute.specs.declared.kind.Kind.TheVariants.{BadMessage};
ghost use Rattle.tcap_refute.specs.KindsByFacts.{AreOfIds, fact_from};
ghost use Rattle.tcap_refute.specs.EarlierMessages.{since_quiet};
ghost use Rattle.tcap_refute.specs.Facts.{FromFact, fact_since_mark};
ghost use Rattle.tcap_refute.specs.FirstComponent.{first_component};
ghost use Rattle.tcap_refute.specs.FirstKinds.{first_kinds, is_of_first_kind};
ghost use Rattle.tcap_refute.specs.KeptFacts.{fact_by_from};
ghost use Rattle.tcap_refute.specs.Kind.{is_limit};

use crate::components::component_of;
use crate::judging::is_limit;
use crate::kind::Kind;
use crate::kinds_by_notes::kind_by;
use crate::sent_from_id::FromId;
use tcap_ber::Reason;
use tcap_end::Table;
use tcap_msg::MessageParts;

/// Returns the kind of octets that are no message for this reason: F1, or `None` if the reason is a limit of this
/// profile and not of the standard (Q.773, X.690).
pub fn kind_of_reason(reason: Reason) -> Option<Kind>
    ensures { result ≡ cond (is_limit reason) None (Some BadMessage) }
{
    if is_limit(reason) {
        None
    } else {
        Some(Kind::BadMessage)
    }
}

/// Returns the lowest of F2 to F7 that a message has, if its end alone is judged (Q.771, Q.773, Q.774).
///
/// The kinds are those of `refute`, with one exception: a Reject with general problem 1 or 2 may reject what the peer
/// sent with its invoke ID.
///
/// `own` has what the end sent from the originating ID, and `from_peer` what the peer sent from the destination ID, if
/// anything is kept of these. `has_ended` is whether the end sent an End, or an Abort without cause, to the
/// destination ID. Each component takes a few look-ups.
pub fn first_kind<M: MessageParts>(
    table: &Table,
    own: Option<&FromId>,
    from_peer: Option<&FromId>,
    has_ended: bool,
    message: &M,
) -> Option<Kind>
    ensures { (side : Side) (items : List Item)
        → AreOfIds table.now items side (M.meaning message.now) (option_copied own.entry)
        (option_copied from_peer.entry) has_ended
        → result ≡ find (is_of_first_kind table.now side (since_quiet items) (M.meaning message.now)) first_kinds }
{
    kind_by(true, table, own, from_peer, has_ended, message)
}

/// Returns the number, from 0, of the first component with this kind, F5 or F6 (Q.774 3.2, Q.771 3.1).
///
/// Returns `None` if no component has the kind, or if the kind is another. If `of_one` holds, one end alone is
/// judged, as by `first_kind`; else both are, as by `refute`. `from_peer` has what the peer sent from the destination
/// ID, if anything is kept of it. Each component takes a few look-ups.
pub fn faulty_component<M: MessageParts>(
    of_one: bool,
    table: &Table,
    from_peer: Option<&FromId>,
    message: &M,
    kind: Kind,
) -> Option<u64>
    ensures { (side : Side) (items : List Item)
        → ((fact : FromFact) → fact_by_from (option_copied from_peer.entry) fact
        ≡ fact_from (fact_since_mark table.now items (other side)) (dtid_in (M.meaning message.now)) fact)
        → result ≡ first_component of_one table.now side (since_quiet items) (M.meaning message.now) kind }
{
    component_of(of_one, table, from_peer, message, kind)
}
