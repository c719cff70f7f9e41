ghost use Rattle.std.specs.Prelude.{◌≡◌, IfOk, Some, option_map};
ghost use Rattle.tcap_readings.specs.Readings.{reading_of, without};

use std::alloc::{AllocError, Global};
use tcap_readings::{Malformed, Reading, Way, read_by};
use tcap_record::Entry;

/// Returns the record of an end that dropped a malformed message of its peer, given the entries of the dialogue.
pub fn dropped(
    alloc: Global,
    malformed: &Malformed,
    entries: &[Entry],
) -> Result<Option<Reading>, AllocError>
    ensures { IfOk result (λ made. option_map reading_of made ≡ Some (without malformed.now entries.now)) }
{
    read_by(alloc, Way::Dropped, malformed, entries)
}
