//! Directives: lines of a trace that begin with `#:`.

ghost use Rattle.std.specs.Prelude.{◌≡◌, option_map};
ghost use Rattle.std.specs.Str.{all_ascii_digits};
ghost use Rattle.tcap_traces.specs.Directive.{about, broken_off, directive_in, directive_of, is_blank, is_missing, statement_of, trimmed};

use tcap_record::End;

/// A directive.
#[derive(Clone, Copy)]
pub enum Directive<'a> {
    /// Dialogues may have been under way.
    UnderWay,
    /// The trace was broken off. The text is empty, or gives, after a comma, the number of missing messages.
    BrokenOff(&'a [u8]),
    /// A description of an end.
    About(End, &'a [u8]),
    /// An unknown directive.
    Unknown,
}

const UNDER_WAY: &[u8] = b"under way";

const BROKEN_OFF: &[u8] = b"broken off";

const ONE_MISSING: &[u8] = b", 1 message missing";

const MANY_MISSING: &[u8] = b" messages missing";

/// Returns whether an octet is a space or a tab.
fn is_blank(octet: u8) -> bool
    ensures { result ≡ is_blank octet }
{
    octet == b' ' || octet == b'\t'
}

/// Returns the octets without the blanks before and after them.
fn trimmed(octets: &[u8]) -> &[u8]
    ensures { result.now ≡ trimmed octets.now }
{
    let mut rest = octets;
    while let [first, more @ ..] = rest {
        if !is_blank(*first) {
            break;
        }
        rest = more;
    }
    while let [more @ .., last] = rest {
        if !is_blank(*last) {
            break;
        }
        rest = more;
    }
    rest
}

/// Returns whether all octets are decimal digits.
fn are_digits(octets: &[u8]) -> bool
    ensures { result ≡ all_ascii_digits octets.now }
{
    let mut rest = octets;
    while let [b'0'..=b'9', more @ ..] = rest {
        rest = more;
    }
    rest.is_empty()
}

/// Returns whether octets are `, 1 message missing` or `, N messages missing`.
fn is_missing(octets: &[u8]) -> bool
    ensures { result ≡ is_missing octets.now }
{
    if octets == ONE_MISSING {
        return true;
    }
    let Some(octets) = octets.strip_prefix(b", ") else {
        return false;
    };
    match octets.strip_suffix(MANY_MISSING) {
        Some(digits) => !digits.is_empty() && are_digits(digits),
        None => false,
    }
}

/// Returns the directive, given the octets after the words `broken off`.
fn broken_off(octets: &[u8]) -> Directive
    ensures { statement_of result ≡ broken_off octets.now }
{
    if octets.is_empty() || is_missing(octets) {
        Directive::BrokenOff(octets)
    } else {
        Directive::Unknown
    }
}

/// Returns the directive, given the octets after the letter of an end.
fn about(end: End, octets: &[u8]) -> Directive
    ensures { statement_of result ≡ about end octets.now }
{
    match octets {
        [blank, text @ ..] if is_blank(*blank) => Directive::About(end, trimmed(text)),
        _ => Directive::Unknown,
    }
}

/// Returns the directive with this text.
fn directive_in(text: &[u8]) -> Directive
    ensures { statement_of result ≡ directive_in text.now }
{
    if text == UNDER_WAY {
        return Directive::UnderWay;
    }
    if let Some(octets) = text.strip_prefix(BROKEN_OFF) {
        return broken_off(octets);
    }
    match text {
        [b'A', octets @ ..] => about(End::A, octets),
        [b'B', octets @ ..] => about(End::B, octets),
        _ => Directive::Unknown,
    }
}

/// Returns the directive in a line, given without its line end; None if the line is no directive.
pub fn directive_of(line: &[u8]) -> Option<Directive>
    ensures { option_map statement_of result ≡ directive_of line.now }
{
    match line {
        [b'#', b':', text @ ..] => Some(directive_in(trimmed(text))),
        _ => None,
    }
}
