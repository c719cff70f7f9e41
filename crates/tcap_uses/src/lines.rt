ghost use Rattle.std.specs.Prelude.{◌≡◌, ◌++◌, ℕ, List, Result, IfOk};
ghost use Rattle.tcap_record.specs.declared.entry.Entry.{Entry};
ghost use Rattle.tcap_record.specs.declared.fault.FeedFault.{FeedFault};
ghost use Rattle.tcap_record.specs.Reading.{IsReadAs};
ghost use Rattle.tcap_lines.specs.ShowRun.{Prints};

use std::alloc::Global;
use tcap_ber::Counted;
use tcap_lines::{Status, WriteFailed, run_show};

/// Returns what `tcapjudge show` prints for a record in memory, and the status with which it ends.
pub fn shown(alloc: Global, octets: &[u8]) -> Result<(Vec<u8>, Status), WriteFailed>
    // The octets that were read are entries, and an end or a fault after them. Their lines are printed.
    ensures prints { IfOk result (λ x. (returned rest : List ℕ) × (octets.now ≡ returned ++ rest)
        × ((entries : List Entry) × (end : Result (Unit {0}) FeedFault) × IsReadAs entries end returned
        × Prints entries end x.0.items x.1)) }
{
    let mut reader = Counted::new(octets);
    let mut writer = Counted::new(Vec::new(alloc));
    let status = run_show(alloc, &mut reader, &mut writer)?;
    Ok((writer.into_inner(), status))
}
