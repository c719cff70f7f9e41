ghost use Rattle.std.specs.Prelude.{◌≡◌, ◌≤◌, ℕ, List, length, true};
ghost use Rattle.tcap_model.specs.World.{Item};
ghost use Rattle.tcap_model.specs.Run.{IsLawful};
ghost use Rattle.tcap_model.specs.Entries.{AreItems};

use std::alloc::Global;
use tcap_check::check;
use tcap_end::Table;
use tcap_record::Record;
use tcap_search::search;

/// Returns whether the search finds a certificate by which two lawful ends may have sent a record.
pub fn is_shown_lawful(alloc: Global, record: &Record, table: &Table) -> bool
    requires few { length «record».now.entries.items ≤ 100000 }
    // If it does, they may have sent exactly the record's items in this order, no matter what the search proposed.
    ensures lawful { result ≡ true → (items : List Item) × (moves : ℕ)
        × AreItems «record».now.entries.items items × IsLawful items table.now moves }
{
    let Ok(certificate) = search(alloc, record) else {
        return false;
    };
    match check(alloc, record, table, &certificate, None) {
        Ok(_) => true,
        Err(_) => false,
    }
}
