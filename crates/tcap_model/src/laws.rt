//! Laws over all runs. Each function has an empty body, and its contract is the law.
//!
//! The laws of channels, and of what the halves of an end know, hold whether the ends keep the rules or not. The laws
//! of what an end sent hold if this end keeps the rules, no matter what its peer does.

ghost use Rattle.std.specs.Prelude.{◌≡◌, ℕ, ◌≤◌, List, ◌++◌, length};
ghost use Rattle.std.specs.List.{AllByRecursion};
ghost use Rattle.std.specs.List.Sorted.{IsStrictlySortedBy};
ghost use Rattle.std.specs.Ordering.{nat_cmp};
ghost use Rattle.tcap_msg.specs.declared.message.Message.{Message};
ghost use Rattle.tcap_record.specs.declared.entry.End.{End as Side};
ghost use Rattle.tcap_record.specs.declared.entry.End.TheVariants as sides;
ghost use Rattle.tcap_end.specs.Table.{Table};
ghost use Rattle.tcap_end.specs.End.{KeyedHalf};
ghost use Rattle.tcap_end.specs.ReachableEnd.{HasHalf, IsEnd};
ghost use Rattle.tcap_model.specs.World.{Item, World, channel_from, end_at};
ghost use Rattle.tcap_model.specs.Run.{Adds, Event, IsLawful, IsLawfulFor, KeepsRules, Runs, after, numbers_of, numbers_sent, numbers_taken};
ghost use Rattle.tcap_model.specs.SinceMark.{
  AnswersWereSent,
  EndedIsClosed,
  HasUsed,
  InvokesWereSent,
  PeerWasSent,
  RequestWasSent,
  SentSince,
  WasSent,
};

/// Shows that a step appends to the sent list exactly the items that it sends.
pub fn sent_list_grows()
    ensures { (table : Table) (event : Event) (w next : World) → after table event w ≡ Some next
        → (items : List Item) × Adds w event items × (next.sent ≡ w.sent ++ items) }
{}

/// Shows that a run in which both ends keep the rules has at least as many steps as items.
pub fn steps_at_least_items()
    ensures { (items : List Item) (table : Table) (moves : ℕ) → IsLawful items table moves → length items ≤ moves }
{}

/// Shows that a list which two lawful ends may have sent is lawful for each of them.
pub fn lawful_for_each()
    ensures { (items : List Item) (table : Table) (moves : ℕ) (side : Side) → IsLawful items table moves
        → IsLawfulFor side items table }
{}

/// Shows the converse of `lawful_for_each`: a list that is lawful for each end alone is lawful for both together. So if
/// no run of two lawful ends sends a list, the list is unlawful for at least one end alone.
pub fn blame_is_whole()
    ensures { (table : Table) (items : List Item) → IsLawfulFor sides.A items table → IsLawfulFor sides.B items table
        → (moves : ℕ) × IsLawful items table moves }
{}

/// Shows that each end of a run satisfies `IsEnd`, which the laws of one end require (`tcap_end::laws`). So no two
/// halves of an end share an own transaction ID or a peer ID.
pub fn ends_are_sound()
    ensures { (table : Table) (events : List Event) (w : World) (side : Side) → Runs table events w
        → IsEnd (end_at side w) }
{}

/// Shows that the messages taken from a channel, followed by those still on it, are exactly the messages that its end
/// sent, in order. So a message leaves a channel only if it is delivered, answered or lost.
pub fn channels_are_whole()
    ensures { (table : Table) (events : List Event) (w : World) (side : Side) → Runs table events w
        → numbers_taken side events ++ numbers_of (channel_from side w) ≡ numbers_sent side 0 w.sent }
{}

/// Shows that a channel never reorders or repeats messages: the numbers of those taken, followed by the numbers of
/// those still on it, rise strictly.
pub fn channels_are_in_order()
    ensures { (table : Table) (events : List Event) (w : World) (side : Side) → Runs table events w
        → IsStrictlySortedBy nat_cmp (numbers_taken side events ++ numbers_of (channel_from side w)) }
{}

/// Shows that each message in transit was sent by its end since the last quiet mark, and is in the sent list at its
/// number.
pub fn messages_were_sent()
    ensures { (table : Table) (events : List Event) (w : World) (side : Side) → Runs table events w
        → AllByRecursion (WasSent w side) (channel_from side w) }
{}

/// Shows that a peer ID which a half knows is the originating ID of a Begin or a Continue that the peer sent since the
/// last quiet mark.
pub fn peers_were_sent()
    ensures { (table : Table) (events : List Event) (w : World) (side : Side) (f : KeyedHalf) → Runs table events w
        → HasHalf (end_at side w) f
        → PeerWasSent w side f }
{}

/// Shows that a half in Received with a requested dialogue has its reason. Since the last quiet mark, the peer sent a
/// Begin with a dialogue request from the half's peer ID.
pub fn requests_were_sent()
    ensures { (table : Table) (events : List Event) (w : World) (side : Side) (f : KeyedHalf) → Runs table events w
        → HasHalf (end_at side w) f
        → RequestWasSent w side f }
{}

/// Shows that each originating ID which a lawful end sent since the last quiet mark is the own ID of one of its halves.
/// For a Continue, this half's peer ID is the destination ID.
pub fn sent_ids_are_used()
    ensures { (table : Table) (events : List Event) (w : World) (side : Side) (m : Message) → Runs table events w
        → KeepsRules side events
        → SentSince side m w.sent
        → HasUsed w side m }
{}

/// Shows that the peer sent each invocation which a half received, since the last quiet mark, in a message from the
/// half's peer ID.
pub fn invokes_were_sent()
    ensures { (table : Table) (events : List Event) (w : World) (side : Side) (f : KeyedHalf) → Runs table events w
        → HasHalf (end_at side w) f
        → InvokesWereSent w side f }
{}

/// Shows that the peer sent each answer which a half received, since the last quiet mark, in a message from the half's
/// peer ID.
pub fn answers_were_sent()
    ensures { (table : Table) (events : List Event) (w : World) (side : Side) (f : KeyedHalf) → Runs table events w
        → HasHalf (end_at side w) f
        → AnswersWereSent w side f }
{}

/// Shows which halves of a lawful end are closed: those to whose peer ID the end sent an End, or an Abort without
/// cause, since the last quiet mark.
pub fn ended_is_closed()
    ensures { (table : Table) (events : List Event) (w : World) (side : Side) (f : KeyedHalf) → Runs table events w
        → KeepsRules side events
        → HasHalf (end_at side w) f
        → EndedIsClosed w side f }
{}
