ghost use Rattle.std.specs.Prelude.{◌≡◌, ◌≤◌, length, IfOk, OnOk};
ghost use Rattle.tcap_record.specs.declared.entry.End.TheVariants as sides;
ghost use Rattle.tcap_traces.specs.Verdict.{result_of, verdict_of, worse};

use std::alloc::{AllocError, Global};
use tcap_end::Table;
use tcap_record::Record;
use tcap_traces::{Circumstances, Verdict, judge_dialogue};

/// Judges both ends of a dialogue. Returns the worse verdict. The entries stay as they are.
pub fn verdict_on(
    alloc: Global,
    dialogue: &mut Record,
    table: &Table,
    circumstances: Circumstances,
) -> Result<Verdict, AllocError>
    requires few { length dialogue.old.entries.items ≤ 100000 }
    ensures verdict { IfOk result (λ verdict. verdict
        ≡ worse (verdict_of (result_of table.now circumstances dialogue.old.entries.items sides.A))
        (verdict_of (result_of table.now circumstances dialogue.old.entries.items sides.B))) }
    ensures stays { OnOk result (dialogue.new.entries.items ≡ dialogue.old.entries.items) }
{
    let ends = judge_dialogue(alloc, dialogue, table, circumstances)?;
    Ok(ends.verdict(None))
}
