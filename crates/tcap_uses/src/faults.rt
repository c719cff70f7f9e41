ghost use Rattle.std.specs.Prelude.{IfOk, IfSome};
ghost use Rattle.tcap_faults.specs.BlameMeaning.{IsAtFaultOf};

use std::alloc::Global;
use tcap_end::Table;
use tcap_faults::{blame, laws};
use tcap_record::{End, Record};
use tcap_refute::{Refutation, SearchFault};

/// Finds the first entry at which an end is at fault: the entry is no message, or no run in which the end keeps the
/// rules has it there.
pub fn fault_of(
    alloc: Global,
    record: &Record,
    table: &Table,
    end: End,
) -> Result<Option<Refutation>, SearchFault>
    ensures { IfOk result (λ found. IfSome found (IsAtFaultOf table.now end «record».now.entries.items)) }
{
    laws::blamed_is_at_fault();
    blame(alloc, record, table, end)
}
