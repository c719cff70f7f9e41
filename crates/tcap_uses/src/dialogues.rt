ghost use Rattle.std.specs.Prelude.{ℕ, Bool, List};
ghost use Rattle.tcap_record.specs.declared.entry.End.{End as Side};
ghost use Rattle.tcap_end.specs.Table.{Table};
ghost use Rattle.tcap_model.specs.World.{Item};
ghost use Rattle.tcap_model.specs.Run.{IsLawfulFor};
ghost use Rattle.tcap_dialogues.specs.Part.{IsClosed, part_of};

use tcap_dialogues::laws;

/// Shows that an end can't have sent a list of messages if it can't have sent a part that shares no ID with the rest.
pub fn fault_of_a_part()
    ensures { (side : Side) (items : List Item) (table : Table) (keeps : ℕ → Bool) → IsClosed keeps items
        → (IsLawfulFor side (part_of keeps 0 items) table → ⊥) → IsLawfulFor side items table → ⊥ }
{
    laws::part_keeps_rules();
}
