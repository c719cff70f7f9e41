//! Numbers from 0 to 127.

ghost use Rattle.std.specs.Prelude.{◌≡◌, ◌<◌, ◌↔◌, ℕ, Err, IfOk, IfSome, IsOkAnd, IsSome};
ghost use Rattle.tcap_ber.specs.declared.fault.Fault.{Fault};
ghost use Rattle.tcap_ber.specs.SmallInteger.{small};
ghost use Rattle.tcap_ber.specs.Reading.{Gives, element, span, small_at};

use crate::element::Tlv;
use crate::fault::{Fault, Reason};
use crate::integers::integer;
use std::marker::Model;

/// A number from 0 to 127, as views of octets hold it.
#[derive(Clone, Copy, Debug)]
pub struct SmallView {
    /// The number.
    pub number: u8,
    pub ghost small: { number < 128 },
}

/// A number from 0 to 127.
#[derive(Clone, Copy, Debug, PartialEq, Eq)]
pub struct Small {
    number: u8,
}

impl Model for Small {
    ghost use Rattle.std.specs.Prelude.{ℕ, ◌<◌};

    ghost Value = { ℕ };

    ghost view = { λ a. a.number };

    ghost inverse = { λ n. record { number = n } };

    ghost invariant = { λ a. a.number < 128 };
}

impl Small {
    /// Returns `number` as a `Small`, or `None` if it is more than 127.
    pub fn new(number: u8) -> Option<Small>
        ensures found { IfSome result (λ small. small ≡ number) }
        ensures exact { IsSome result ↔ number < 128 }
    {
        if number < 128 {
            Some(Small { number })
        } else {
            None
        }
    }

    /// Returns the number.
    pub fn number(self) -> u8
        ensures value { result ≡ self }
        ensures below { result < 128 }
    {
        self.number
    }

    /// Returns the number in the type that views hold.
    pub fn view(self) -> SmallView
        ensures { result.number ≡ self }
    {
        SmallView {
            number: self.number,
        }
    }
}

impl SmallView {
    /// Returns the number as a `Small`.
    pub fn to_small(self) -> Small
        ensures { result ≡ self.number }
    {
        Small {
            number: self.number,
        }
    }
}

#[tactic(auto, unfolding(crate::specs::Reading::small_at))]
fn read_small_number(tlv: Tlv) -> Result<SmallView, Fault>
    ensures exact { Gives (λ n. n.number) result (small_at (element tlv.entry)) }
{
    match integer(tlv)? {
        [number] if *number < 0x80 => Ok(SmallView { number: *number }),
        _ => Err(Fault {
            reason: Reason::BadSize,
            place: tlv.start,
        }),
    }
}

/// Returns the number of an INTEGER of one octet that is not negative (X.690 8.3). The tag is not checked.
///
/// # Errors
///
/// Both are at the element's first octet: `BadInteger` if the contents are not an INTEGER, `BadSize` if they have more
/// than one octet or the number is negative.
pub fn small_number(tlv: Tlv) -> Result<SmallView, Fault>
    // On success, the contents spell the number.
    ensures found { IfOk result (λ n. small.spells n.number tlv.entry.content.octets.now) }
    // A number that the contents spell is read.
    ensures only { (value : ℕ) → small.spells value tlv.entry.content.octets.now
        → IsOkAnd result (λ n. n.number ≡ value) }
    // The result is a fault exactly if the element has that fault.
    ensures faulty { (fault : Fault) → (result ≡ Err fault)
        ↔ small.faulty tlv.entry.start (span tlv.entry.content) fault.reason fault.place }
    ensures exact { Gives (λ n. n.number) result (small_at (element tlv.entry)) }
{
    read_small_number(tlv)
}
