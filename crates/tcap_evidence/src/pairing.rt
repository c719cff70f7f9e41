//! The entries that show with which IDs of the other end (partners) a transaction ID was used.

ghost use Rattle.std.specs.Prelude.{◌≡◌, ◌++◌, Some, None, IfOk, OnOk};
ghost use Rattle.tcap_msg.specs.Meaning.{id_of};
ghost use Rattle.tcap_model.specs.Entries.{item_of};
ghost use Rattle.tcap_evidence.specs.Partners.{anew, paired_before, partner_in, with_message, with_pair, with_partner};

use crate::listing::{Test, is_same_id};
use std::alloc::{AllocError, Global};
use tcap_msg::{Message, TransactionId, TransactionIdView};
use tcap_record::{Body, End, Entry, Record};

/// The entries that begin an ID, and the Continues whose partner is not that of the Continue before in the same
/// direction.
#[derive(Drop)]
struct Pairs {
    entries: Vec<u64>,
    /// The partner in the last Continue from the ID, since it was begun.
    from: Option<TransactionId>,
    /// The partner in the last Continue to the ID, since it was begun.
    to: Option<TransactionId>,
}

/// Returns the partner of an ID of end `of` in a Continue.
fn partner_in<'a>(
    of: End,
    id: &TransactionId,
    sender: End,
    message: &'a Message,
) -> Option<TransactionIdView<'a>>
    ensures { id_of result ≡ partner_in of id.now sender message.now }
{
    let Message::Continue { otid, dtid, .. } = message else {
        return None;
    };
    let (own, partner) = if of.is(sender) {
        (otid, dtid)
    } else {
        (dtid, otid)
    };
    if id.octets() == own.octets() {
        Some(partner.view())
    } else {
        None
    }
}

/// Appends the entry of a Continue, unless its partner is the last one, and notes the partner as the last.
fn push_anew(
    entries: &mut Vec<u64>,
    last: &mut Option<TransactionId>,
    number: u64,
    partner: TransactionIdView,
) -> Result<(), AllocError>
    ensures noted { OnOk result
        (entries.new.items ≡ entries.old.items ++ anew number partner.entry.octets.now last.old) }
    ensures last { OnOk result (last.new ≡ Some partner.entry.octets.now) }
{
    if !is_same_id(last.as_ref(), Some(partner)) {
        entries.push(number)?;
    }
    *last = Some(partner.to_transaction_id());
    Ok(())
}

impl Pairs {
    /// Takes a Continue from the ID (`is_from`) or to it, with its partner.
    fn take_partner(
        &mut self,
        number: u64,
        is_from: bool,
        partner: TransactionIdView,
    ) -> Result<(), AllocError>
        ensures { OnOk result ((self.new.entries.items, self.new.from, self.new.to)
            ≡ with_partner number is_from (Some partner.entry.octets.now)
            (self.old.entries.items, self.old.from, self.old.to)) }
    {
        if is_from {
            push_anew(&mut self.entries, &mut self.from, number, partner)
        } else {
            push_anew(&mut self.entries, &mut self.to, number, partner)
        }
    }

    /// Forgets the last partners.
    fn forget(&mut self)
        ensures entries { self.new.entries ≡ self.old.entries }
        ensures from { self.new.from ≡ None }
        ensures to { self.new.to ≡ None }
    {
        self.from = None;
        self.to = None;
    }

    /// Takes a message of the end `sender`.
    fn take_message(
        &mut self,
        of: End,
        id: &TransactionId,
        number: u64,
        sender: End,
        message: &Message,
    ) -> Result<(), AllocError>
        ensures { OnOk result ((self.new.entries.items, self.new.from, self.new.to)
            ≡ with_message of id.now number sender message.now (self.old.entries.items, self.old.from, self.old.to)) }
    {
        if of.is(sender) && Test::BeginFrom(Some(id)).passes(message) {
            self.entries.push(number)?;
            self.forget();
            return Ok(());
        }
        match partner_in(of, id, sender, message) {
            Some(partner) => self.take_partner(number, of.is(sender), partner),
            None => Ok(()),
        }
    }

    /// Takes the next entry.
    fn take(
        &mut self,
        of: End,
        id: &TransactionId,
        number: u64,
        entry: &Entry,
    ) -> Result<(), AllocError>
        ensures { OnOk result ((self.new.entries.items, self.new.from, self.new.to)
            ≡ with_pair of id.now number (item_of entry.now) (self.old.entries.items, self.old.from, self.old.to)) }
    {
        match (entry.side, &entry.body) {
            (None, Body::Quiet) => {
                self.entries.clear();
                self.forget();
                Ok(())
            }
            (Some(sender), Body::Good(message)) => {
                self.take_message(of, id, number, sender, message)
            }
            _ => Ok(()),
        }
    }
}

/// Returns these entries for an ID of end `of`, before entry `number` and since the last quiet mark.
pub(crate) fn paired_before(
    alloc: Global,
    record: &Record,
    of: End,
    id: &TransactionId,
    number: u64,
) -> Result<Vec<u64>, AllocError>
    ensures { IfOk result (λ v. v.items ≡ paired_before of id.now «record».now.entries.items number) }
{
    let mut pairs = Pairs {
        entries: Vec::new(alloc),
        from: None,
        to: None,
    };
    for (at, entry) in record.entries.iter().enumerate() {
        if at as u64 >= number {
            break;
        }
        pairs.take(of, id, at as u64, entry)?;
    }
    Ok(pairs.entries)
}
