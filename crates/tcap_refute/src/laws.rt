//! What refutations imply for all runs. Each function's contract alone is its statement: it holds for every run in
//! which an end keeps the rules, no matter what the other end does.

ghost use Rattle.std.specs.Prelude.{◌≡◌, ℕ, List, ◌∷◌, ◌++◌, map, true, false, Some, Result};
ghost use Rattle.tcap_msg.specs.declared.message.Message.{Message};
ghost use Rattle.tcap_record.specs.declared.entry.End.{End as Side};
ghost use Rattle.tcap_end.specs.Table.{Table};
ghost use Rattle.tcap_model.specs.World.{Item, Sent, World};
ghost use Rattle.tcap_model.specs.Run.{Event, KeepsRules, Runs};
ghost use Rattle.tcap_record.specs.declared.entry.Entry.{Entry};
ghost use Rattle.tcap_model.specs.declared.reason.Reason.{Reason};
ghost use Rattle.tcap_model.specs.Entries.{AreItems, item_of};
ghost use Rattle.tcap_model.specs.Run.{IsLawful};
ghost use Rattle.tcap_refute.specs.declared.kind.Kind.{Kind};
ghost use Rattle.tcap_refute.specs.declared.kind.Refutation.{Refutation};
ghost use Rattle.tcap_refute.specs.EarlierMessages.{since_quiet};
ghost use Rattle.tcap_refute.specs.Kind.{is_of_kind, refuted};
ghost use Rattle.tcap_refute.specs.Unsendable.{IsAtFault};

/// States that an end that keeps the rules sends no message of a kind after the items that give it this kind, no
/// matter what the other end sends and what follows.
pub fn no_run_sends()
    ensures { (table : Table) (events : List Event) (w : World) (before behind : List Item) (side : Side)
        (message : Message) (kind : Kind) → Runs table events w → KeepsRules side events
        → w.sent ≡ before ++ Sent side message ∷ behind
        → is_of_kind table side (since_quiet before) message kind ≡ true → ⊥ }
{}

/// States that a refuted entry is at fault.
///
/// Its octets are no message, or no run in which its end keeps the rules has it there, no matter what the other end
/// sends and what follows.
pub fn refuted_is_at_fault()
    ensures { (table : Table) (entries : List (Result Item Reason)) (r : Refutation)
        → refuted table entries ≡ Some r → IsAtFault table entries r }
{}

/// States that no run shows a refuted record to be lawful: no two ends that keep the rules sent it.
pub fn refuted_is_never_lawful()
    ensures { (table : Table) (entries : List Entry) (items : List Item) (r : Refutation) (moves : ℕ)
        → refuted table (map item_of entries) ≡ Some r → AreItems entries items → IsLawful items table moves → ⊥ }
{}
