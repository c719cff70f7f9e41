ghost use Rattle.std.specs.Prelude.{◌≡◌, ℕ, List, true, Ok};
ghost use Rattle.tcap_end.specs.Table.{Table};
ghost use Rattle.tcap_end.specs.TableText.{IsTableOf};
ghost use Rattle.tcap_model.specs.World.{Item};
ghost use Rattle.tcap_model.specs.Run.{IsLawful};
ghost use Rattle.tcap_judge.specs.LawfulRecord.{SpellsRecord};

use std::alloc::Global;
use tcap_ber::Counted;
use tcap_judge::{Status, WriteFailed, run_check};

/// Returns whether `tcapjudge check` calls a record lawful. The record, the table and the certificate are in memory.
pub fn is_called_lawful(
    alloc: Global,
    octets: &[u8],
    table: &[u8],
    certificate: &[u8],
) -> Result<bool, WriteFailed>
    // If it does, the octets spell items that two lawful ends may have sent in this order, no matter what the
    // certificate says.
    ensures lawful { result ≡ Ok true → (items : List Item) × (operations : Table) × (moves : ℕ)
        × SpellsRecord items octets.now × IsTableOf table.now (Ok operations) × IsLawful items operations moves }
{
    let mut entries = Counted::new(octets);
    let mut of_table = Counted::new(table);
    let mut of_certificate = Counted::new(certificate);
    let mut writer = Counted::new(Vec::new(alloc));
    let status = run_check(
        alloc,
        &mut entries,
        &mut of_table,
        &mut of_certificate,
        None,
        &mut writer,
    )?;
    Ok(matches!(status, Status::Fine))
}
