//! INTEGER elements (X.690 8.3).

ghost use Rattle.std.specs.Prelude.{◌≡◌, ◌<◌, ◌≤◌, ◌↔◌, ℤ, Err, IfOk, IfErr, IsOkAnd, ◌≤ℤ◌, ◌+ℤ◌, ◌*ℤ◌, pos, negsuc, [], ◌∷◌, length};
ghost use Rattle.tcap_ber.specs.declared.fault.Fault.{Fault};
ghost use Rattle.tcap_ber.specs.Integer.{IsInteger, signed};
ghost use Rattle.tcap_ber.specs.Grammar.{IsSmallInteger, IsSmallIntegerFault};
ghost use Rattle.tcap_ber.specs.Reading.{Gives, element, integer_at, small_integer_at};

use crate::element::Tlv;
use crate::fault::{Fault, Reason};

#[tactic(auto, unfolding(crate::specs::Reading::integer_at))]
fn contents<'a>(tlv: Tlv<'a>) -> Result<&'a [u8], Fault>
    ensures exact { Gives (λ x. x.now) result (integer_at (element tlv.entry)) }
    ensures some { IfOk result (λ octets. 0 < length octets.now) }
{
    let fault = Fault {
        reason: Reason::BadInteger,
        place: tlv.start,
    };
    match tlv.content.octets {
        [] => Err(fault),
        [0, second, ..] if *second < 0x80 => Err(fault),
        [0xff, second, ..] if *second >= 0x80 => Err(fault),
        octets => Ok(octets),
    }
}

/// Returns the contents of an INTEGER: at least one octet, with no needless leading octet (X.690 8.3). The tag is not
/// checked.
///
/// # Errors
///
/// `BadInteger` at the element's first octet if the contents are not an INTEGER.
pub fn integer<'a>(tlv: Tlv<'a>) -> Result<&'a [u8], Fault>
    ensures valid { IfOk result (λ octets. (octets.now ≡ tlv.entry.content.octets.now) × IsInteger octets.now) }
    ensures invalid { IfErr result (λ fault. (fault.reason ≡ Reason.BadInteger) × (fault.place ≡ tlv.entry.start)
        × (IsInteger tlv.entry.content.octets.now → ⊥)) }
    ensures some { IfOk result (λ octets. 0 < length octets.now) }
    ensures exact { Gives (λ x. x.now) result (integer_at (element tlv.entry)) }
{
    contents(tlv)
}

/// Returns the number of one octet in two's complement (X.690 8.3.3).
fn leading(octet: u8) -> i8
    ensures { result ≡ signed (octet ∷ []) }
{
    if octet < 0x80 {
        octet as i8
    } else {
        -1 - (0xff - octet) as i8
    }
}

/// Returns the number with one more octet after it.
fn extended(value: i32, octet: u8) -> i32
    requires low { (negsuc 8388607) ≤ℤ value }
    requires high { value ≤ℤ (pos 8388607) }
    ensures { result ≡ value *ℤ pos 256 +ℤ pos octet }
{
    value * 256 + i32::from(octet)
}

/// Returns the number of four octets in two's complement.
fn four(a: u8, b: u8, c: u8, d: u8) -> i32
    ensures { result ≡ signed (a ∷ b ∷ c ∷ d ∷ []) }
{
    extended(extended(extended(i32::from(leading(a)), b), c), d)
}

/// Returns the number of up to four octets in two's complement (X.690 8.3.3).
fn number(octets: &[u8]) -> i32
    requires { length octets.now ≤ 4 }
    ensures { result ≡ signed octets.now }
{
    match octets {
        [] => 0,
        [a] => i32::from(leading(*a)),
        [a, b] => extended(i32::from(leading(*a)), *b),
        [a, b, c] => extended(extended(i32::from(leading(*a)), *b), *c),
        [a, b, c, d] => four(*a, *b, *c, *d),
        _ => unreachable!(),
    }
}

#[tactic(auto, unfolding(crate::specs::Reading::small_integer_at))]
#[inline(always)]
fn read_small(tlv: Tlv, limit: usize, too_wide: Reason) -> Result<i32, Fault>
    requires { limit ≤ 4 }
    ensures exact { Gives (λ x. x) result (small_integer_at limit too_wide (element tlv.entry)) }
{
    let octets = integer(tlv)?;
    if octets.len() > limit {
        return Err(Fault {
            reason: too_wide,
            place: tlv.start,
        });
    }
    Ok(number(octets))
}

/// Returns the number of an INTEGER of at most `limit` octets; `limit` is at most 4 (X.690 8.3). The tag is not
/// checked.
///
/// # Errors
///
/// Both are at the element's first octet: `BadInteger` if the contents are not an INTEGER, `too_wide` if they have more
/// than `limit` octets.
#[inline(always)]
pub fn small_integer(tlv: Tlv, limit: usize, too_wide: Reason) -> Result<i32, Fault>
    requires { limit ≤ 4 }
    ensures found { IfOk result (λ n. IsSmallInteger limit n tlv.entry.content.octets.now) }
    ensures only { (n : ℤ) → IsSmallInteger limit n tlv.entry.content.octets.now → IsOkAnd result (λ m. m ≡ n) }
    ensures faulty { (fault : Fault) → (result ≡ Err fault)
        ↔ IsSmallIntegerFault limit too_wide tlv.entry.start tlv.entry.content.octets.now fault.reason fault.place }
    ensures exact { Gives (λ x. x) result (small_integer_at limit too_wide (element tlv.entry)) }
{
    read_small(tlv, limit, too_wide)
}

#[tactic(auto, unfolding(crate::specs::Reading::small_integer_at))]
fn read_octet(tlv: Tlv) -> Result<i8, Fault>
    ensures exact { Gives (λ x. x) result (small_integer_at 1 Reason.BadSize (element tlv.entry)) }
{
    match integer(tlv)? {
        [octet] => Ok(leading(*octet)),
        _ => Err(Fault {
            reason: Reason::BadSize,
            place: tlv.start,
        }),
    }
}

/// Returns the number of an INTEGER of one octet (X.690 8.3). The tag is not checked.
///
/// # Errors
///
/// Both are at the element's first octet: `BadInteger` if the contents are not an INTEGER, `BadSize` if they have more
/// than one octet.
pub fn octet_integer(tlv: Tlv) -> Result<i8, Fault>
    ensures found { IfOk result (λ n. IsSmallInteger 1 n tlv.entry.content.octets.now) }
    ensures only { (n : ℤ) → IsSmallInteger 1 n tlv.entry.content.octets.now → IsOkAnd result (λ m. m ≡ n) }
    ensures faulty { (fault : Fault) → (result ≡ Err fault)
        ↔ IsSmallIntegerFault 1 Reason.BadSize tlv.entry.start tlv.entry.content.octets.now fault.reason fault.place }
    ensures exact { Gives (λ x. x) result (small_integer_at 1 Reason.BadSize (element tlv.entry)) }
{
    read_octet(tlv)
}
