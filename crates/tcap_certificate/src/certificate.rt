//! Certificates: what became of each message of a record, and which invocations expired and halves closed.

ghost use Rattle.std.specs.Prelude.{◌≡◌, ◌↔◌, Some, None, IsTrue};
ghost use Rattle.std.specs.List.{AllByRecursion};
ghost use Rattle.tcap_certificate.specs.Certificate.{IsInLimits};
ghost use Rattle.tcap_certificate.specs.Certificate.{ClosingFits, ExpiryFits, FateFits};
ghost use Rattle.tcap_certificate.specs.Certificate.{Certificate as Meant};

use std::marker::Model;
use tcap_record::End;

/// The greatest number in a certificate.
pub const NUMBER_LIMIT: u32 = 100_000;

/// The greatest number of fates in a certificate.
pub const FATES_LIMIT: usize = 100_000;

/// The fate of an entry. Entries are counted from 0. Gap 0 is before the first entry, gap g is between entries g - 1
/// and g, and the last gap is after the last entry.
#[derive(Clone, Copy, Debug, PartialEq, Eq)]
pub enum Fate {
    /// The message was delivered in this gap. The fate of a quiet mark is the next gap.
    Gap(u32),
    /// The message was lost.
    Lost,
    /// The provider's reply in this entry answered the message.
    By(u32),
}

/// The expiry of an own invocation of an end, without a message. An Invoke in an entry, which is a Begin or a Continue
/// of this end, identifies the invocation: it is the one with this invoke ID in the same half at that time.
#[derive(Clone, Copy, Debug, PartialEq, Eq)]
pub struct Expiry {
    /// The gap in which the invocation expired.
    pub gap: u32,
    /// The place of the Invoke among the entry's components, from 0.
    pub component: u32,
    /// The end that invoked the operation.
    pub side: End,
    /// The number of the entry.
    pub entry: u32,
}

/// The closing of a half of an end, without a message.
#[derive(Clone, Copy, Debug, PartialEq, Eq)]
pub struct Closing {
    /// The gap in which the half closed.
    pub gap: u32,
    /// The end that closed its half.
    pub side: End,
    /// The number of the Begin that began the transaction.
    pub entry: u32,
}

/// An untrusted claim that says what became of each entry of a record, and which invocations expired and halves closed.
/// A replay checks it. Its numbers are at most 100,000, and it has at most 100,000 fates.
#[derive(Debug, Drop)]
pub struct Certificate {
    fates: Vec<Fate>,
    expire: Vec<Expiry>,
    close: Vec<Closing>,
}

impl Model for Certificate {
    ghost use Rattle.tcap_certificate.specs.Certificate.{Certificate as Meant};
    ghost use Rattle.tcap_certificate.specs.Certificate.{IsInLimits};

    ghost Value = { Meant };

    ghost view = { λ c. record { fates = c.fates.items; expire = c.expire.items; close = c.close.items } };

    ghost invariant = { λ c. IsInLimits
        (record { fates = c.fates.items; expire = c.expire.items; close = c.close.items }) };
}

/// Returns whether the number of a fate is within the limit.
fn fate_fits(fate: &Fate) -> bool
    ensures { IsTrue result ↔ FateFits fate.now }
{
    match *fate {
        Fate::Gap(gap) => gap <= NUMBER_LIMIT,
        Fate::Lost => true,
        Fate::By(reply) => reply <= NUMBER_LIMIT,
    }
}

/// Returns whether the numbers of an expiry are within the limit.
fn expiry_fits(x: &Expiry) -> bool
    ensures { IsTrue result ↔ ExpiryFits x.now }
{
    x.gap <= NUMBER_LIMIT && x.component <= NUMBER_LIMIT && x.entry <= NUMBER_LIMIT
}

/// Returns whether the numbers of a closing are within the limit.
fn closing_fits(x: &Closing) -> bool
    ensures { IsTrue result ↔ ClosingFits x.now }
{
    x.gap <= NUMBER_LIMIT && x.entry <= NUMBER_LIMIT
}

/// Returns whether all fates are within the limit.
fn fates_fit(fates: &[Fate]) -> bool
    ensures { IsTrue result ↔ AllByRecursion FateFits fates.now }
{
    fates.iter().all(fate_fits)
}

/// Returns whether all expiries are within the limit.
fn expiries_fit(expire: &[Expiry]) -> bool
    ensures { IsTrue result ↔ AllByRecursion ExpiryFits expire.now }
{
    expire.iter().all(expiry_fits)
}

/// Returns whether all closings are within the limit.
fn closings_fit(close: &[Closing]) -> bool
    ensures { IsTrue result ↔ AllByRecursion ClosingFits close.now }
{
    close.iter().all(closing_fits)
}

impl Certificate {
    /// Creates a certificate of these fates, one for each entry, expiries and closings. Returns `None` if and only if a
    /// number is over 100,000 or there are over 100,000 fates.
    pub fn new(fates: Vec<Fate>, expire: Vec<Expiry>, close: Vec<Closing>) -> Option<Certificate>
        ensures made { (c : Meant) → result ≡ Some c
            → (c ≡ record { fates = fates.items; expire = expire.items; close = close.items }) × IsInLimits c }
        ensures refused { result ≡ None
            → IsInLimits (record { fates = fates.items; expire = expire.items; close = close.items }) → ⊥ }
    {
        let few = fates.len() <= FATES_LIMIT;
        if few && fates_fit(&fates) && expiries_fit(&expire) && closings_fit(&close) {
            Some(Certificate {
                fates,
                expire,
                close,
            })
        } else {
            None
        }
    }

    /// Creates a certificate of these parts, which have to be within the limits.
    pub fn of_parts(fates: Vec<Fate>, expire: Vec<Expiry>, close: Vec<Closing>) -> Certificate
        requires { IsInLimits (record { fates = fates.items; expire = expire.items; close = close.items }) }
        ensures { result ≡ record { fates = fates.items; expire = expire.items; close = close.items } }
    {
        Certificate {
            fates,
            expire,
            close,
        }
    }

    /// Returns the fates, one for each entry.
    pub fn fates(&self) -> &[Fate]
        ensures lends { result.now ≡ self.now.fates }
        ensures limits { IsInLimits self.now }
    {
        &self.fates
    }

    /// Returns the expiries, in the listed order.
    pub fn expiries(&self) -> &[Expiry]
        ensures { result.now ≡ self.now.expire }
    {
        &self.expire
    }

    /// Returns the closings, in the listed order.
    pub fn closings(&self) -> &[Closing]
        ensures { result.now ≡ self.now.close }
    {
        &self.close
    }
}
