//! Reading a record from a device.

ghost use Rattle.std.specs.Prelude.{◌≡◌, [], ℕ, List, MatchResult, Ok, Err};
ghost use Rattle.std.specs.Io.KnownBytes.{Consumes};
ghost use Rattle.tcap_record.specs.declared.entry.Entry.{Entry};
ghost use Rattle.tcap_record.specs.declared.fault.FeedFault.{FeedFault};
ghost use Rattle.tcap_record.specs.PartialRecord.{empty_framer};
ghost use Rattle.tcap_record.specs.Reading.{IsReadAs, EndsOnlyAtEnd, FailsOnlyByReader};
ghost use Rattle.tcap_record.specs.FramingResult.{outcome};

use crate::entry::Record;
use crate::fault::{FeedFault, FeedReason};
use crate::feeder::Feeder;
use std::alloc::Global;
use tcap_ber::{Failed, Read};

/// The number of octets requested of a reader at once.
pub const PIECE_LEN: usize = 8192;

/// Feeds the octets of `reader`, up to its end or the first fault.
fn feed_all<R: Read>(feeder: &mut Feeder, reader: &mut R) -> Result<(), FeedFault>
    requires { feeder.old ≡ record { held = empty_framer; waiting = [] } }
    ensures returned { (returned : List ℕ) × Consumes (R.remaining reader.old) (R.remaining reader.new) returned
        × IsReadAs feeder.new.waiting result returned }
    ensures ended { EndsOnlyAtEnd (R.remaining reader.new) result }
    ensures failed { FailsOnlyByReader (R.failures reader.old) (R.failures reader.new) result }
{
    let mut piece = [0; PIECE_LEN];
    loop {
        let place = feeder.fed();
        let returned = match reader.read(&mut piece) {
            Ok(0) => return feeder.finish(),
            Ok(returned) => returned,
            Err(Failed) => {
                return Err(FeedFault {
                    reason: FeedReason::Read,
                    place,
                });
            }
        };
        feeder.feed(&piece[..returned])?;
    }
}

/// Reads a record up to the end of `reader`.
///
/// # Errors
///
/// The first of these faults:
///
/// - `TooManyEntries` after 100,000 entries.
/// - `BadEnd` at an octet that begins no entry.
/// - `Element` if an entry's element has a framing fault.
/// - `CutRecord` if the octets end within an entry.
/// - `Read` if the reader fails. The octets before it are entries; the last may be incomplete.
/// - `Memory` if memory runs out.
pub fn read_record<R: Read>(alloc: Global, reader: &mut R) -> Result<Record, FeedFault>
    ensures returned { (returned : List ℕ) × Consumes (R.remaining reader.old) (R.remaining reader.new) returned
        × MatchResult result
        (λ made. IsReadAs made.entries.items (Ok tt) returned)
        (λ fault. (entries : List Entry) × IsReadAs entries (Err fault) returned) }
    ensures ended { EndsOnlyAtEnd (R.remaining reader.new) (outcome result) }
    ensures failed { FailsOnlyByReader (R.failures reader.old) (R.failures reader.new) (outcome result) }
{
    let mut feeder = Feeder::new(alloc);
    feed_all(&mut feeder, reader)?;
    Ok(Record {
        entries: feeder.into_waiting(),
    })
}
