//! Packing lines of hexadecimal digits into a record.

ghost use Rattle.std.specs.Prelude.{◌≡◌, IfOk, OnOk, OnErr, ◌⊎◌};
ghost use Rattle.tcap_ber.specs.Device.{one_more};
ghost use Rattle.tcap_lines.specs.PackRun.{PacksRead};

use crate::fault_lines::write_fault;
use crate::status::{Status, WriteFailed};
use std::alloc::Global;
use tcap_ber::{Read, Write};
use tcap_record::{PackFault, pack};

/// Packs the lines of `reader` into a record, up to its end, as [`pack`](tcap_record::pack) does. If there is a fault,
/// its line goes to `faults`, and the entries of the lines before it are written. Returns `Fault` if a fault line was
/// written, else `Fine`.
///
/// # Errors
///
/// `WriteFailed` if a writer fails in this call.
pub fn run_pack<R: Read, W: Write, F: Write>(
    alloc: Global,
    reader: &mut R,
    writer: &mut W,
    faults: &mut F,
) -> Result<Status, WriteFailed>
    ensures packed { IfOk result (PacksRead (R.remaining reader.old) (R.remaining reader.new)
        (R.failures reader.old) (R.failures reader.new)
        (W.taken writer.old) (W.taken writer.new) (F.taken faults.old) (F.taken faults.new)) }
    ensures counts { OnOk result ((W.failures writer.new ≡ W.failures writer.old)
        × (F.failures faults.new ≡ F.failures faults.old)) }
    ensures failed { OnErr result (((W.failures writer.new ≡ one_more (W.failures writer.old))
        × (F.failures faults.new ≡ F.failures faults.old))
        ⊎ ((W.failures writer.new ≡ W.failures writer.old)
        × (F.failures faults.new ≡ one_more (F.failures faults.old)))) }
{
    match pack(alloc, reader, writer) {
        Ok(_) => Ok(Status::Fine),
        Err(PackFault::Write) => Err(WriteFailed),
        Err(PackFault::Fault(fault)) => {
            write_fault(alloc, fault, faults)?;
            Ok(Status::Fault)
        }
    }
}
