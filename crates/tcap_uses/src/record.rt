ghost use Rattle.std.specs.Prelude.{◌≡◌, [], ◌++◌, IfOk};
ghost use Rattle.tcap_record.specs.RecordOctets.{Framed};
ghost use Rattle.tcap_uses.specs.Ids.{ids_in, id_in};

use std::alloc::{AllocError, Global};
use tcap_msg::{MessageParts, TransactionId};
use tcap_record::{Body, Entry, FeedFault, Feeder};

/// Returns the entries of a record that comes in two pieces.
pub fn entries_of(alloc: Global, first: &[u8], second: &[u8]) -> Result<Vec<Entry>, FeedFault>
    // The octets of both pieces spell exactly these entries, in this order.
    ensures all { IfOk result (λ entries. Framed entries.items (first.now ++ second.now) []) }
{
    let mut feeder = Feeder::new(alloc);
    feeder.feed(first)?;
    feeder.feed(second)?;
    feeder.finish()?;
    let mut entries = Vec::new(alloc);
    while let Some(entry) = feeder.take() {
        entries.push(entry)?;
    }
    Ok(entries)
}

/// Returns the originating transaction ID of an entry if it is a Begin or a Continue.
fn id_of(entry: &Entry) -> Option<TransactionId>
    ensures { result ≡ id_in entry.now }
{
    match &entry.body {
        Body::Good(message) => Some(message.otid()?.to_transaction_id()),
        _ => None,
    }
}

/// Returns the originating transaction IDs of the entries, in order.
pub fn ids_of(alloc: Global, entries: &[Entry]) -> Result<Vec<TransactionId>, AllocError>
    ensures all { IfOk result (λ ids. ids.items ≡ ids_in entries.now) }
{
    let mut ids = Vec::new(alloc);
    for entry in entries {
        if let Some(id) = id_of(entry) {
            ids.push(id)?;
        }
    }
    Ok(ids)
}
