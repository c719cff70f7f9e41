//! Reads a context of dotted numbers.

ghost use Rattle.std.specs.Prelude.{◌≡◌, ◌++◌, [], None, OnOk, IfOk, option_map, option_and_then};
ghost use Rattle.std.specs.List.{flat_map};
ghost use Rattle.tcap_books.specs.DottedContext.{before_last, dotted, has_dot, numbers_after, spelled, subidentifiers, with_character, with_digit};

use std::alloc::{AllocError, Global};

/// Returns whether a text has a dot.
pub(crate) fn has_dot(text: &str) -> bool
    ensures { result ≡ has_dot text.now }
{
    text.as_bytes().contains(&b'.')
}

/// Appends a decimal digit to a number.
fn with_digit(number: Option<u32>, digit: u8) -> Option<u32>
    ensures { result ≡ with_digit number digit }
{
    match number {
        None => Some(u32::from(digit)),
        Some(0) => None,
        Some(number) => u32::try_from(u64::from(number) * 10 + u64::from(digit)).ok(),
    }
}

/// Appends a character to a number. Returns `None` if it is no digit, or if the number may not continue with it.
fn with_character(number: Option<u32>, character: u8) -> Option<u32>
    ensures { result ≡ with_character number character }
{
    if b'0' <= character && character <= b'9' {
        with_digit(number, character - b'0')
    } else {
        None
    }
}

/// Reads the numbers of a text, which have dots between them.
fn numbers_in(alloc: Global, text: &[u8]) -> Result<Option<Vec<u32>>, AllocError>
    ensures { IfOk result (λ numbers. option_map (λ v. v.items) numbers ≡ numbers_after [] None text.now) }
{
    let mut found = Vec::new(alloc);
    let mut number = None;
    for character in text {
        if *character == b'.' {
            let Some(last) = number else {
                return Ok(None);
            };
            found.push(last)?;
            number = None;
        } else {
            number = with_character(number, *character);
            if number.is_none() {
                return Ok(None);
            }
        }
    }
    let Some(last) = number else {
        return Ok(None);
    };
    found.push(last)?;
    Ok(Some(found))
}

/// Appends an octet before the last of a subidentifier, unless it would be a leading zero.
fn push_before_last(octets: &mut Vec<u8>, high: u64) -> Result<(), AllocError>
    ensures { OnOk result (octets.new.items ≡ octets.old.items ++ before_last high) }
{
    if high == 0 {
        return Ok(());
    }
    octets.push(128 + (high % 128) as u8)?;
    Ok(())
}

/// Appends the octets of a subidentifier.
fn push_spelled(octets: &mut Vec<u8>, number: u64) -> Result<(), AllocError>
    ensures { OnOk result (octets.new.items ≡ octets.old.items ++ spelled number) }
{
    push_before_last(octets, number / 268_435_456)?;
    push_before_last(octets, number / 2_097_152)?;
    push_before_last(octets, number / 16_384)?;
    push_before_last(octets, number / 128)?;
    octets.push((number % 128) as u8)?;
    Ok(())
}

/// Returns the content octets of an OBJECT IDENTIFIER with these numbers. `None` if there is none.
fn octets_of(alloc: Global, numbers: &[u32]) -> Result<Option<Vec<u8>>, AllocError>
    ensures { IfOk result (λ octets. option_map (λ v. v.items) octets
        ≡ option_map (flat_map spelled) (subidentifiers numbers.now)) }
{
    let [first, second, more @ ..] = numbers else {
        return Ok(None);
    };
    let is_fine = *first < 2 && *second < 40 || *first == 2;
    if !is_fine {
        return Ok(None);
    }
    let mut octets = Vec::new(alloc);
    push_spelled(&mut octets, 40 * u64::from(*first) + u64::from(*second))?;
    for number in more {
        push_spelled(&mut octets, u64::from(*number))?;
    }
    Ok(Some(octets))
}

/// Reads the content octets that dotted numbers mean. Returns `None` if the text is something else.
pub(crate) fn dotted_in(alloc: Global, text: &str) -> Result<Option<Vec<u8>>, AllocError>
    ensures { IfOk result (λ octets. option_map (λ v. v.items) octets ≡ dotted text.now) }
{
    match numbers_in(alloc, text.as_bytes())? {
        Some(numbers) => octets_of(alloc, &numbers),
        None => Ok(None),
    }
}
