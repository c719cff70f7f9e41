//! The search for the first entry of a record that no end that keeps the rules sends.

ghost use Rattle.std.specs.Prelude.{◌≡◌, map, IfOk, IfSome};
ghost use Rattle.tcap_model.specs.Entries.{item_of};
ghost use Rattle.tcap_refute.specs.Kind.{refuted};
ghost use Rattle.tcap_refute.specs.Unsendable.{IsBadByKind};

use crate::judging::EntryResult;
use crate::kind::Refutation;
use crate::notes::Notes;
use std::alloc::{AllocError, Global};
use tcap_end::Table;
use tcap_record::Record;

/// Why a search has no result.
#[derive(Clone, Copy, Debug, PartialEq, Eq)]
pub enum SearchFault {
    /// Memory ran out.
    Memory,
}

impl From<AllocError> for SearchFault {
    ghost use Rattle.tcap_refute.specs.declared.refuting.SearchFault.TheVariants.{Memory};

    ghost from_gives = { λ _ fault. fault ≡ Memory };

    fn from(_: AllocError) -> SearchFault {
        SearchFault::Memory
    }
}

/// Finds the first entry of a record that has a kind, with its lowest kind.
fn first_refuted(
    alloc: Global,
    record: &Record,
    table: &Table,
) -> Result<Option<Refutation>, SearchFault>
    ensures { IfOk result (λ r. r ≡ refuted table.now (map item_of «record».now.entries.items)) }
{
    let mut notes = Notes::new(alloc);
    for (number, entry) in record.entries.iter().enumerate() {
        match notes.take(alloc, table, entry)? {
            EntryResult::Passed => {}
            EntryResult::Refuted(kind) => {
                return Ok(Some(Refutation {
                    entry: number as u64,
                    kind,
                }));
            }
            EntryResult::Ended => return Ok(None),
        }
    }
    Ok(None)
}

/// Finds the first entry of a record that has a kind, with its lowest kind (Q.771, Q.773, Q.774). No end that keeps
/// the rules sends this entry.
///
/// Returns `None` if no entry has a kind. Entries after one that is no item, or whose octets exceed a limit of this
/// profile, are not looked at. Each message and each component takes a few look-ups in maps.
///
/// # Errors
///
/// `Memory` if memory runs out.
pub fn refute(
    alloc: Global,
    record: &Record,
    table: &Table,
) -> Result<Option<Refutation>, SearchFault>
    ensures lowest { IfOk result (λ r. r ≡ refuted table.now (map item_of «record».now.entries.items)) }
    ensures bad { IfOk result (λ r. IfSome r (IsBadByKind (map item_of «record».now.entries.items))) }
{
    first_refuted(alloc, record, table)
}
