//! The hexadecimal digits of octets.

ghost use Rattle.std.specs.Prelude.{◌≡◌, ◌<◌, ◌≤◌, ◌++◌, ◌*◌, ◌∷◌, [], Ok, Err, OnOk, IfOk, IsTrue, false, MatchOption, length, slice_index, unwrap_or};
ghost use Rattle.std.specs.String.{string_bytes};
ghost use Rattle.hex.specs.Hex.{decode_of, decode_pairs, encode_lower, hex_digit_value, lower_digits};
ghost use Rattle.hex.specs.declared.error.FromHexError.{FromHexError};

use std::alloc::{AllocError, Global};
use std::str;

/// The greatest number of octets whose digits are appended one octet at a time, for speed.
const FEW: usize = 8;

/// Writes the digits of `octets` into `room`, and returns them.
fn digits_of<'a>(octets: &[u8], room: &'a mut [u8; 256]) -> &'a str
    requires { length octets.now ≤ 128 }
    ensures { result.now ≡ encode_lower octets.now }
{
    let digits = &mut room[..2 * octets.len()];
    let Ok(()) = hex::encode_to_slice(octets, digits) else {
        unreachable!();
    };
    let Ok(digits) = str::from_utf8(digits) else {
        unreachable!();
    };
    digits
}

/// Returns the lower-case digit of a number below 16.
fn digit(number: u8) -> char
    requires { number < 16 }
    ensures digit { result ≡ slice_index lower_digits number }
    ensures ascii { result < 128 }
{
    if number < 10 {
        char::from(b'0' + number)
    } else {
        char::from(b'a' + (number - 10))
    }
}

/// Appends the digits of an octet.
fn push_octet(text: &mut String, octet: u8) -> Result<(), AllocError>
    ensures { OnOk result (string_bytes text.new ≡ string_bytes text.old ++ encode_lower (octet ∷ [])) }
{
    text.push(digit(octet / 16))?;
    text.push(digit(octet % 16))?;
    Ok(())
}

/// Appends the digits of octets, one octet at a time.
#[inline(always)]
fn push_few(text: &mut String, octets: &[u8]) -> Result<(), AllocError>
    ensures { OnOk result (string_bytes text.new ≡ string_bytes text.old ++ encode_lower octets.now) }
{
    let mut rest = octets;
    while let [octet, more @ ..] = rest {
        push_octet(text, *octet)?;
        rest = more;
    }
    Ok(())
}

/// Appends the digits of octets, 128 octets at a time.
#[inline(never)]
fn push_many(text: &mut String, octets: &[u8]) -> Result<(), AllocError>
    ensures { OnOk result (string_bytes text.new ≡ string_bytes text.old ++ encode_lower octets.now) }
{
    let mut room = [0u8; 256];
    for chunk in octets.chunks(128) {
        text.push_str(digits_of(chunk, &mut room))?;
    }
    Ok(())
}

/// Appends the digits of octets, two lower-case digits for each.
///
/// # Errors
///
/// `AllocError` if memory runs out.
#[inline(always)]
pub fn push_hex(text: &mut String, octets: &[u8]) -> Result<(), AllocError>
    ensures { OnOk result (string_bytes text.new ≡ string_bytes text.old ++ encode_lower octets.now) }
{
    if octets.len() <= FEW {
        push_few(text, octets)
    } else {
        push_many(text, octets)
    }
}

/// The table entry of an octet that is not a digit.
const NO: u8 = 0xff;

/// The value of each digit, upper or lower case, indexed by its octet.
const VALUES: [u8; 256] = [
    NO, NO, NO, NO, NO, NO, NO, NO, NO, NO, NO, NO, NO, NO, NO, NO, NO, NO, NO, NO, NO, NO, NO, NO,
    NO, NO, NO, NO, NO, NO, NO, NO, NO, NO, NO, NO, NO, NO, NO, NO, NO, NO, NO, NO, NO, NO, NO, NO,
    0, 1, 2, 3, 4, 5, 6, 7, 8, 9, NO, NO, NO, NO, NO, NO, NO, 10, 11, 12, 13, 14, 15, NO, NO, NO,
    NO, NO, NO, NO, NO, NO, NO, NO, NO, NO, NO, NO, NO, NO, NO, NO, NO, NO, NO, NO, NO, NO, NO, 10,
    11, 12, 13, 14, 15, NO, NO, NO, NO, NO, NO, NO, NO, NO, NO, NO, NO, NO, NO, NO, NO, NO, NO, NO,
    NO, NO, NO, NO, NO, NO, NO, NO, NO, NO, NO, NO, NO, NO, NO, NO, NO, NO, NO, NO, NO, NO, NO, NO,
    NO, NO, NO, NO, NO, NO, NO, NO, NO, NO, NO, NO, NO, NO, NO, NO, NO, NO, NO, NO, NO, NO, NO, NO,
    NO, NO, NO, NO, NO, NO, NO, NO, NO, NO, NO, NO, NO, NO, NO, NO, NO, NO, NO, NO, NO, NO, NO, NO,
    NO, NO, NO, NO, NO, NO, NO, NO, NO, NO, NO, NO, NO, NO, NO, NO, NO, NO, NO, NO, NO, NO, NO, NO,
    NO, NO, NO, NO, NO, NO, NO, NO, NO, NO, NO, NO, NO, NO, NO, NO, NO, NO, NO, NO, NO, NO, NO, NO,
    NO, NO, NO, NO, NO, NO, NO, NO, NO, NO, NO, NO, NO, NO,
];

/// Returns the value of a digit, upper or lower case, or `NO`.
fn value_of(digit: u8) -> u8
    ensures { result ≡ unwrap_or (hex_digit_value digit) 255 }
{
    VALUES[usize::from(digit)]
}

/// Reads pairs of digits into `octets`. Returns whether all are digits.
fn read_pairs(digits: &[u8], octets: &mut [u8]) -> bool
    requires { length digits.now ≡ 2 * length octets.old }
    ensures digits { IsTrue result → decode_pairs 0 digits.now ≡ Ok octets.new }
    ensures others { result ≡ false → (e : FromHexError) × (decode_pairs 0 digits.now ≡ Err e) }
{
    'pairs: for i in 0..octets.len() {
        let high = value_of(digits[2 * i]);
        let low = value_of(digits[2 * i + 1]);
        if high > 15 || low > 15 {
            return false;
        }
        octets[i] = high * 16 + low;
    }
    true
}

/// Returns the octets of hexadecimal digits, upper or lower case, two for each octet. `None` if `digits` are something
/// else, `AllocError` if memory runs out.
pub(crate) fn octets_of(alloc: Global, digits: &[u8]) -> Result<Option<Vec<u8>>, AllocError>
    ensures { IfOk result (λ found. MatchOption found ((e : FromHexError) × (decode_of digits.now ≡ Err e))
        (λ octets. decode_of digits.now ≡ Ok octets.items)) }
{
    if digits.len() % 2 != 0 {
        return Ok(None);
    }
    let mut octets = vec![in alloc; 0u8; digits.len() / 2]?;
    if read_pairs(digits, octets.as_mut_slice()) {
        Ok(Some(octets))
    } else {
        Ok(None)
    }
}
