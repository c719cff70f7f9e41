//! What blaming an entry on an end implies for all runs. Each function's contract alone is its statement: it holds
//! for every run in which that end keeps the rules of this profile, no matter what its peer does.

ghost use Rattle.std.specs.Prelude.{◌≡◌, ℕ, List, ◌∷◌, ◌++◌, true, Some, is_some};
ghost use Rattle.tcap_msg.specs.declared.message.Message.{Message};
ghost use Rattle.tcap_msg.specs.Parts.{dtid_in};
ghost use Rattle.tcap_record.specs.declared.entry.End.{End as Side};
ghost use Rattle.tcap_record.specs.declared.entry.Entry.{Entry};
ghost use Rattle.tcap_record.specs.RecordOctets.{Framed};
ghost use Rattle.tcap_end.specs.Table.{Table};
ghost use Rattle.tcap_model.specs.World.{Item, Sent, World};
ghost use Rattle.tcap_model.specs.Run.{Event, KeepsRules, Runs};
ghost use Rattle.tcap_refute.specs.declared.kind.Kind.{Kind};
ghost use Rattle.tcap_refute.specs.declared.kind.Refutation.{Refutation};
ghost use Rattle.tcap_refute.specs.EarlierMessages.{since_quiet};
ghost use Rattle.tcap_faults.specs.BlameMeaning.{HasNoMessage, IsAtFaultOf, IsBadEntryOf};
ghost use Rattle.tcap_faults.specs.Fault.{blamed, is_fault, is_open_at_mark};
ghost use Rattle.tcap_faults.specs.TangledIds.{IsOver, goes_over_tangled, own_of_continue, tangled_in};
ghost use Rattle.tcap_faults.specs.declared.verdict.unblamed_reason.TangledId.{TangledId};

/// States that an end that keeps the rules sends no message of a kind after the items that give it this kind, no
/// matter what the other end sends and what follows.
pub fn no_end_sends()
    ensures { (table : Table) (events : List Event) (w : World) (before behind : List Item) (side : Side)
        (message : Message) (kind : Kind) → Runs table events w → KeepsRules side events
        → w.sent ≡ before ++ Sent side message ∷ behind
        → is_fault table side (since_quiet before) message kind ≡ true → ⊥ }
{}

/// States that an end that keeps the rules has no half open at a quiet mark, no matter what the other end sends and
/// what follows.
pub fn no_mark_leaves_open()
    ensures { (table : Table) (events : List Event) (w : World) (before behind : List Item) (side : Side)
        → Runs table events w → KeepsRules side events → w.sent ≡ before ++ Item.Quiet ∷ behind
        → is_open_at_mark table side (since_quiet before) ≡ true → ⊥ }
{}

/// States that an entry that is blamed on an end is at fault.
///
/// It is of this end, and its octets are no message; or it is a message of this end, or a quiet mark, that no run in
/// which the end keeps the rules has there. This holds no matter what the other end sends and what follows.
pub fn blamed_is_at_fault()
    ensures { (table : Table) (side : Side) (entries : List Entry) (r : Refutation)
        → blamed table side entries ≡ Some r → IsAtFaultOf table side entries r }
{}

/// States that the octets of a bad entry spell no message. At the entry's place in the record, after the octet of
/// this end, is one element that spells no message.
pub fn bad_entry_spells_nothing()
    ensures { (side : Side) (entries : List Entry) (octets rest : List ℕ) (number : ℕ)
        → Framed entries octets rest → (bad : IsBadEntryOf side entries number)
        → HasNoMessage side bad.entry.place octets }
{}

/// States that `unblamed` reports a tangled ID exactly if the message goes over tangled IDs. The message goes over
/// the reported ID, and the ID is tangled for the reported reason.
pub fn tangled_is_named()
    ensures named { (side : Side) (items : List Item) (m : Message)
        → is_some (tangled_in side items m) ≡ goes_over_tangled side items m }
    ensures over { (side : Side) (items : List Item) (m : Message) (t : TangledId)
        → tangled_in side items m ≡ Some t
        → (id : List ℕ) × (dtid_in m ≡ Some id) × IsOver side items (own_of_continue m) id t }
{}
