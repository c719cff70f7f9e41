//! Transaction IDs (Q.773 4.2.1).

ghost use Rattle.std.specs.Prelude.{◌≡◌, ◌↔◌, ◌<◌, ◌+◌, ◌*◌, ℕ, List, All, Err, IsSome, IfSome, IfOk, IsOkAnd, take};
ghost use Rattle.tcap_ber.specs.declared.fault.Fault.{Fault};
ghost use Rattle.tcap_ber.specs.Reading.{Gives, element, span};
ghost use Rattle.tcap_msg.specs.TransactionId.{IsPadded, IsTransactionId, key, transaction_id, transaction_id_of};

use std::cmp::Ordering;
use std::fmt;
use std::marker::Model;
use tcap_ber::{Fault, Reason, Tlv};

/// A borrowed transaction ID.
#[derive(Clone, Copy, Debug)]
pub struct TransactionIdView<'a> {
    /// The one to four octets.
    pub octets: &'a [u8],
    pub ghost is_id: { IsTransactionId octets.now },
}

/// An owned transaction ID (Q.773 4.2.1): one to four octets. IDs are compared as their octets are, in lexicographic
/// order.
#[derive(Drop)]
pub struct TransactionId {
    // The octets of the ID, padded with zeros.
    octets: [u8; 4],
    len: u8,
}

impl Model for TransactionId {
    ghost use Rattle.std.specs.Prelude.{List, ℕ, take};
    ghost use Rattle.tcap_msg.specs.TransactionId.{IsPadded};

    ghost Value = { List ℕ };

    ghost view = { λ a. take a.len a.octets };

    ghost invariant = { λ a. IsPadded a.len a.octets };
}

/// Returns the big-endian number of four octets. The contract also states that each is below 256.
fn number(a: u8, b: u8, c: u8, d: u8) -> u64
    ensures value { result ≡ ((a * 256 + b) * 256 + c) * 256 + d }
    ensures octets { (a < 256) × (b < 256) × (c < 256) × (d < 256) }
{
    u64::from(u32::from_be_bytes([a, b, c, d]))
}

impl TransactionId {
    /// Returns a transaction ID of `octets`, or `None` unless they are one to four.
    pub fn new(octets: &[u8]) -> Option<TransactionId>
        ensures found { IfSome result (λ id. id ≡ octets.now) }
        ensures exact { IsSome result ↔ IsTransactionId octets.now }
    {
        let (octets, len) = match octets {
            [a] => ([*a, 0, 0, 0], 1),
            [a, b] => ([*a, *b, 0, 0], 2),
            [a, b, c] => ([*a, *b, *c, 0], 3),
            [a, b, c, d] => ([*a, *b, *c, *d], 4),
            _ => return None,
        };
        Some(TransactionId { octets, len })
    }

    /// Returns a view of the transaction ID.
    pub fn view(&self) -> TransactionIdView<'_>
        ensures { result.octets.now ≡ self.now }
    {
        TransactionIdView {
            octets: self.octets(),
        }
    }

    /// Returns the one to four octets.
    pub fn octets(&self) -> &[u8]
        ensures value { result.now ≡ self.now }
        ensures is_id { IsTransactionId result.now }
    {
        &self.octets[..usize::from(self.len)]
    }

    /// Returns a number that orders IDs as their octets do: the octets, padded with zeros, and then their count. This
    /// makes comparisons fast.
    fn key(&self) -> u64
        ensures value { result ≡ key self.now }
        ensures octets { IsTransactionId self.now × All (λ octet. octet < 256) self.now }
    {
        let TransactionId {
            octets: [a, b, c, d],
            len,
        } = *self;
        number(a, b, c, d) * 256 + u64::from(len)
    }
}

// Prints the comparison key after the octets.
impl fmt::Debug for TransactionId {
    fn fmt<W: fmt::Write>(&self, f: &mut fmt::Formatter<W>) -> fmt::Result {
        f.debug_struct("TransactionId")
            .field("octets", &self.octets)
            .field("len", &self.len)
            .field("key", &self.key())
            .finish()
    }
}

impl PartialEq for TransactionId {
    ghost use Rattle.std.specs.Prelude.{nat_eq};
    ghost use Rattle.std.specs.Cmp.{partial_equiv_from_equiv};
    ghost use Rattle.std.specs.Cmp.Lexicographic.{pointwise, nat_list_eq_equiv};

    ghost eq = { pointwise nat_eq };

    ghost laws = { partial_equiv_from_equiv nat_list_eq_equiv };

    fn eq(&self, other: &TransactionId) -> bool {
        self.key() == other.key()
    }
}

impl Eq for TransactionId {
    ghost use Rattle.std.specs.Cmp.Lexicographic.{nat_list_eq_equiv};

    ghost laws = { nat_list_eq_equiv };
}

impl PartialOrd for TransactionId {
    ghost use Rattle.std.specs.Prelude.{Some};
    ghost use Rattle.std.specs.Ordering.{nat_cmp};
    ghost use Rattle.std.specs.Cmp.Lexicographic.{slice_cmp, texts_po};

    ghost partial_cmp = { λ a b. Some (slice_cmp nat_cmp a b) };

    ghost laws = { texts_po };

    fn partial_cmp(&self, other: &TransactionId) -> Option<Ordering> {
        Some(self.cmp(other))
    }
}

impl Ord for TransactionId {
    ghost use Rattle.std.specs.Prelude.{refl};
    ghost use Rattle.std.specs.Ordering.{nat_cmp};
    ghost use Rattle.std.specs.Cmp.Lexicographic.{slice_cmp, nat_list_cmp_total, texts_ties};

    ghost cmp = { slice_cmp nat_cmp };

    ghost total = { nat_list_cmp_total };

    ghost matches_partial_cmp = { λ a b. refl };

    ghost matches_eq = { texts_ties };

    fn cmp(&self, other: &TransactionId) -> Ordering {
        self.key().cmp(&other.key())
    }
}

impl<'a> TransactionIdView<'a> {
    #[tactic(auto, unfolding(crate::specs::TransactionId::transaction_id_of))]
    fn from_content(tlv: Tlv<'a>) -> Result<TransactionIdView<'a>, Fault>
        ensures exact { Gives (λ id. id.octets.now) result (transaction_id_of (element tlv.entry)) }
    {
        let octets = tlv.content.octets;
        if octets.is_empty() || octets.len() > 4 {
            return Err(tlv.refused(Reason::BadTransactionId));
        }
        Ok(TransactionIdView { octets })
    }

    /// Reads the transaction ID in an element, and returns a view that borrows its octets (Q.773 4.2.1). The tag is not
    /// checked.
    ///
    /// # Errors
    ///
    /// `BadTransactionId` at the element if it has no octets or more than four.
    pub fn read(tlv: Tlv<'a>) -> Result<TransactionIdView<'a>, Fault>
        // On success, all of the content spells the transaction ID.
        ensures found { IfOk result (λ id. transaction_id.spells id.octets.now tlv.entry.content.octets.now) }
        // A transaction ID that all of the content spells is read.
        ensures only { (value : List ℕ) → transaction_id.spells value tlv.entry.content.octets.now
            → IsOkAnd result (λ id. id.octets.now ≡ value) }
        // The result is a fault exactly if the element has that fault.
        ensures faulty { (fault : Fault) → (result ≡ Err fault)
            ↔ transaction_id.faulty tlv.entry.start (span tlv.entry.content) fault.reason fault.place }
        ensures exact { Gives (λ id. id.octets.now) result (transaction_id_of (element tlv.entry)) }
    {
        TransactionIdView::from_content(tlv)
    }

    /// Copies the octets into an owned transaction ID.
    pub fn to_transaction_id(self) -> TransactionId
        ensures { result ≡ self.entry.octets.now }
    {
        TransactionId::new(self.octets).unwrap()
    }
}
