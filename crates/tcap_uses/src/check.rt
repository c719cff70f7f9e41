ghost use Rattle.std.specs.Prelude.{List, IfOk};
ghost use Rattle.tcap_model.specs.World.{Item};
ghost use Rattle.tcap_model.specs.Run.{IsLawful};
ghost use Rattle.tcap_model.specs.Entries.{AreItems};

use std::alloc::Global;
use tcap_check::{Certificate, CheckFault, check};
use tcap_end::Table;
use tcap_record::Record;

/// Counts the steps of the run of two lawful ends that a certificate gives for a record.
///
/// # Errors
///
/// The first reason why the certificate gives no run.
pub fn count_steps(
    alloc: Global,
    record: &Record,
    table: &Table,
    certificate: &Certificate,
) -> Result<u128, CheckFault>
    ensures { IfOk result (λ steps. (items : List Item) × AreItems «record».now.entries.items items
        × IsLawful items table.now steps) }
{
    Ok(check(alloc, record, table, certificate, None)?.moves)
}
