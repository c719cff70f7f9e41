//! Messages with the numbers of their entries.

ghost use Rattle.std.specs.Prelude.{◌≡◌, IfOk, OnOk};
ghost use Rattle.tcap_record.specs.Ends.{other};
ghost use Rattle.tcap_model.specs.Entries.{item_of};
ghost use Rattle.tcap_evidence.specs.NumberedMessages.{numbered_of, sent_before, with_entry};

use std::alloc::{AllocError, Global};
use tcap_msg::Message;
use tcap_record::{Body, End, Entry, Record};

/// A message, with the number of its entry.
#[derive(Clone, Copy)]
pub(crate) struct Sent<'a> {
    pub(crate) number: u64,
    pub(crate) message: &'a Message,
}

/// The messages of each end before an entry, since the last quiet mark.
#[derive(Drop)]
pub(crate) struct MessagesByEnd<'a> {
    pub(crate) own: Vec<Sent<'a>>,
    pub(crate) peer: Vec<Sent<'a>>,
}

impl<'a> MessagesByEnd<'a> {
    /// Takes the next entry.
    fn take(&mut self, end: End, number: u64, entry: &'a Entry) -> Result<(), AllocError>
        ensures own { OnOk result (numbered_of self.new.own.items
            ≡ with_entry end number (item_of entry.now) (numbered_of self.old.own.items)) }
        ensures peer { OnOk result (numbered_of self.new.peer.items
            ≡ with_entry (other end) number (item_of entry.now) (numbered_of self.old.peer.items)) }
    {
        match (entry.side, &entry.body) {
            (None, Body::Quiet) => {
                self.own.clear();
                self.peer.clear();
            }
            (Some(side), Body::Good(message)) => {
                let sent = Sent { number, message };
                if end.is(side) {
                    self.own.push(sent)?;
                } else {
                    self.peer.push(sent)?;
                }
            }
            _ => {}
        }
        Ok(())
    }
}

/// Returns the messages of an end and its peer before entry `number`, since the last quiet mark.
pub(crate) fn messages_before<'a>(
    alloc: Global,
    record: &'a Record,
    end: End,
    number: u64,
) -> Result<MessagesByEnd<'a>, AllocError>
    ensures { IfOk result (λ s.
        (numbered_of s.own.items ≡ sent_before end «record».now.entries.items number)
        × (numbered_of s.peer.items ≡ sent_before (other end) «record».now.entries.items number)) }
{
    let mut messages_by_end = MessagesByEnd {
        own: Vec::new(alloc),
        peer: Vec::new(alloc),
    };
    for (at, entry) in record.entries.iter().enumerate() {
        if at as u64 >= number {
            break;
        }
        messages_by_end.take(end, at as u64, entry)?;
    }
    Ok(messages_by_end)
}
