//! Writing elements with the shortest definite length (X.690 8.1.3).

ghost use Rattle.std.specs.Prelude.{◌+◌, ◌≡◌, ℕ, List, Some, ◌++◌, ◌≤◌, length, OnOk, IfSome};
ghost use Rattle.tcap_ber.specs.Element.{content_limit, shortest_header_limit};
ghost use Rattle.std.specs.Io.KnownBytes.{Appends};
ghost use Rattle.std.specs.Option.{option_map};
ghost use Rattle.tcap_ber.specs.Canonical.{element_around, shortest_header, number_octets, integer_len, integer_octets};
ghost use Rattle.tcap_ber.specs.Device.{CountsFailure};

use crate::device::{Failed, Write};
use crate::header::CONTENT_LIMIT;

/// Returns the length in octets of the shortest header with a tag of one octet, before a content of `content_len`
/// octets (X.690 8.1.3). The content has at most 65,535 octets.
pub fn header_len(content_len: usize) -> usize
    requires { content_len ≤ content_limit }
    ensures exact { (tag : ℕ) → result ≡ length (shortest_header tag content_len) }
    ensures most { result ≤ 4 }
{
    match content_len {
        0..=0x7f => 2,
        0x80..=0xff => 3,
        _ => 4,
    }
}

/// Returns the length in octets of the shortest element with a tag of one octet, around a content of `content_len`
/// octets (X.690 8.1.3). `None` if the content has more than 65,535 octets.
pub fn element_len(content_len: usize) -> Option<usize>
    ensures exact { (tag : ℕ) (content : List ℕ) → content_len ≡ length content
        → result ≡ option_map length (element_around tag (Some content)) }
    ensures most { IfSome result (λ n. n ≤ content_limit + shortest_header_limit) }
{
    if content_len > CONTENT_LIMIT {
        return None;
    }
    Some(header_len(content_len) + content_len)
}

/// Writes the shortest header with a tag of one octet, before a content of `content_len` octets (X.690 8.1.3). The
/// content has at most 65,535 octets.
///
/// # Errors
///
/// `Failed` if the writer fails.
pub fn put_header<W: Write>(tag: u8, content_len: usize, writer: &mut W) -> Result<(), Failed>
    requires { content_len ≤ content_limit }
    ensures ok { OnOk result (Appends (W.taken writer.old) (W.taken writer.new) (shortest_header tag content_len)) }
    ensures counts { CountsFailure (W.failures writer.old) (W.failures writer.new) result }
{
    if content_len < 0x80 {
        writer.write_all(&[tag, content_len as u8])
    } else if content_len < 0x100 {
        writer.write_all(&[tag, 0x81, content_len as u8])
    } else {
        writer.write_all(&[
            tag,
            0x82,
            (content_len / 0x100) as u8,
            (content_len % 0x100) as u8,
        ])
    }
}

/// Writes the shortest element with a tag of one octet around `content`, which has at most 65,535 octets (X.690 8.1.3).
///
/// # Errors
///
/// `Failed` if the writer fails.
pub fn put_element<W: Write>(tag: u8, content: &[u8], writer: &mut W) -> Result<(), Failed>
    requires { length content.now ≤ content_limit }
    ensures ok { OnOk result (Appends (W.taken writer.old) (W.taken writer.new)
        (shortest_header tag (length content.now) ++ content.now)) }
    ensures counts { CountsFailure (W.failures writer.old) (W.failures writer.new) result }
{
    put_header(tag, content.len(), writer)?;
    writer.write_all(content)
}

/// Returns the length in octets of the shortest contents of an INTEGER (X.690 8.3.2).
pub fn integer_len(value: i32) -> usize
    ensures exact { result ≡ integer_len value }
    ensures most { result ≤ 4 }
    ensures some { 1 ≤ result }
{
    match value {
        -0x80..=0x7f => 1,
        -0x8000..=0x7fff => 2,
        -0x80_0000..=0x7f_ffff => 3,
        _ => 4,
    }
}

/// Returns the four octets of a number, the most significant first.
fn four_octets(number: u32) -> [u8; 4]
    ensures { result ≡ number_octets 4 number }
{
    let above = number / 0x100;
    let high = above / 0x100;
    [
        (high / 0x100 % 0x100) as u8,
        (high % 0x100) as u8,
        (above % 0x100) as u8,
        (number % 0x100) as u8,
    ]
}

/// Writes an INTEGER element with the shortest contents, with a tag of one octet (X.690 8.3).
///
/// # Errors
///
/// `Failed` if the writer fails.
pub fn put_integer<W: Write>(tag: u8, value: i32, writer: &mut W) -> Result<(), Failed>
    ensures ok { OnOk result (Appends (W.taken writer.old) (W.taken writer.new)
        (shortest_header tag (integer_len value) ++ integer_octets value)) }
    ensures counts { CountsFailure (W.failures writer.old) (W.failures writer.new) result }
{
    let len = integer_len(value);
    let octets = four_octets(value.cast_unsigned());
    put_header(tag, len, writer)?;
    writer.write_all(&octets[4 - len..])
}
