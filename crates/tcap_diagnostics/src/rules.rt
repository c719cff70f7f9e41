//! The rule that a line of digits breaks, and the column.

ghost use Rattle.std.specs.Prelude.{◌≡◌, ◌++◌, ℕ, List, Option, None, Ok, IfOk, IfSome, OnOk, OnErr, codes, string_bytes};
ghost use Rattle.std.specs.Fmt.{decimal};
ghost use Rattle.tcap_ber.specs.Device.{one_more};
ghost use Rattle.tcap_record.specs.HexLines.{IsNoLine, StandsFor};
ghost use Rattle.tcap_diagnostics.specs.Devices.{fault_writer_inner};
ghost use Rattle.tcap_diagnostics.specs.Texts.{Extends, column_of};

use crate::fault_writer::FaultWriter;
use crate::line_reader::{LineReader, Tail};
use crate::names::name_of;
use std::alloc::{AllocError, Global};
use tcap_ber::{Outer, Reason, Write, outer};
use tcap_lines::WriteFailed;
use tcap_record::{LINE_LIMIT, LINES_LIMIT, LineFault, read_line};

/// A rule for lines of digits.
#[derive(Clone, Copy, Debug, PartialEq, Eq)]
pub(crate) enum Rule {
    /// A line begins with an end, a quiet mark or `#`.
    End,
    /// A space comes after the end.
    Space,
    /// Nothing comes after a quiet mark.
    Mark,
    /// After the space come digits only, and at least one.
    Digit,
    /// There are two digits for each octet.
    Count,
    /// The octets are a whole element.
    Cut,
    /// No octet comes after the element.
    Behind,
    /// The octets begin with an element.
    Element(Reason),
    /// The line is not too long.
    Long,
    /// There are not too many lines.
    Many,
}

/// A broken rule, and the column of the fault, counted from 1.
#[derive(Clone, Copy, Debug, PartialEq, Eq)]
pub struct BrokenRule {
    pub(crate) rule: Rule,
    pub(crate) column: usize,
}

/// Returns a rule that is broken after `before` columns.
fn broken_after(rule: Rule, before: usize) -> BrokenRule {
    BrokenRule {
        rule,
        column: before.saturating_add(1),
    }
}

/// Returns the value of a hexadecimal digit.
fn value_of(digit: u8) -> Option<u8> {
    match digit {
        b'0'..=b'9' => Some(digit - b'0'),
        b'a'..=b'f' => Some(digit - b'a' + 10),
        b'A'..=b'F' => Some(digit - b'A' + 10),
        _ => None,
    }
}

/// Decodes hexadecimal digits, two for each octet. A single digit at the end is left out, and other characters count as
/// 0. `AllocError` if memory runs out.
fn octets_of(alloc: Global, digits: &[u8]) -> Result<Vec<u8>, AllocError> {
    let mut octets = Vec::new(alloc);
    let mut rest = digits;
    while let [high, low, more @ ..] = rest {
        let (high, low) = (value_of(*high).unwrap_or(0), value_of(*low).unwrap_or(0));
        octets.push((high & 0x0F) * 16 + (low & 0x0F))?;
        rest = more;
    }
    Ok(octets)
}

/// Returns a rule that is broken after the end, the space and `count` octets.
fn after_octets(rule: Rule, count: u64) -> BrokenRule {
    let before = count.min(LINE_LIMIT as u64) as usize;
    broken_after(rule, before * 2 + 2)
}

/// Returns the rule that the digits after an end and a space break, in a bad line.
fn digits_rule(alloc: Global, digits: &[u8]) -> Result<BrokenRule, AllocError> {
    if let Some(at) = digits.iter().position(|digit| value_of(*digit).is_none()) {
        return Ok(broken_after(Rule::Digit, at.saturating_add(2)));
    }
    if digits.is_empty() {
        return Ok(broken_after(Rule::Digit, 2));
    }
    if digits.len() % 2 == 1 {
        return Ok(broken_after(Rule::Count, digits.len().saturating_add(1)));
    }
    let octets = octets_of(alloc, digits)?;
    match outer(&octets) {
        Ok(Outer::Whole(len)) => Ok(after_octets(Rule::Behind, len as u64)),
        Ok(Outer::Need(_)) => Ok(after_octets(Rule::Cut, octets.len() as u64)),
        Err(fault) => Ok(after_octets(Rule::Element(fault.reason), fault.place)),
    }
}

/// Returns the rule that a bad line breaks.
fn rule_of(alloc: Global, content: &[u8]) -> Result<BrokenRule, AllocError> {
    if content.len() > LINE_LIMIT {
        return Ok(broken_after(Rule::Long, LINE_LIMIT));
    }
    match content {
        [b'Q', ..] => Ok(broken_after(Rule::Mark, 1)),
        [b'A' | b'B', b' ', digits @ ..] => digits_rule(alloc, digits),
        [b'A' | b'B', ..] => Ok(broken_after(Rule::Space, 1)),
        _ => Ok(broken_after(Rule::End, 0)),
    }
}

/// Returns the rule that a line breaks. `content` is the line without its end. None if the line is an entry, a quiet
/// mark, a comment or empty.
///
/// # Errors
/// `AllocError` if memory runs out.
pub fn broken_by(alloc: Global, content: &[u8]) -> Result<Option<BrokenRule>, AllocError>
    // A rule is returned exactly if the line is bad.
    ensures bad { IfOk result (λ broken. IfSome broken (λ _. IsNoLine content.now)) }
    ensures good { result ≡ Ok None → (line : Option (List ℕ)) × StandsFor content.now line }
{
    match read_line(alloc, content) {
        Ok(_) => Ok(None),
        Err(LineFault::Bad) => Ok(Some(rule_of(alloc, content)?)),
        Err(LineFault::Memory) => Err(AllocError),
    }
}

/// Returns the first line without its end, and the octets after it. None if no line ends.
fn first_line(octets: &[u8]) -> Option<(&[u8], &[u8])> {
    let end = octets.iter().position(|octet| *octet == b'\n')?;
    let (line, behind) = octets.split_at(end.min(octets.len()));
    let line = match line {
        [front @ .., b'\r'] => front,
        _ => line,
    };
    match behind {
        [_, more @ ..] => Some((line, more)),
        [] => Some((line, behind)),
    }
}

/// Returns the rule that the first bad one of the last lines breaks.
fn broken_in(alloc: Global, tail: &Tail) -> Result<Option<BrokenRule>, AllocError> {
    let mut rest = tail.octets.as_slice();
    let mut lines = tail.lines;
    for _ in 0..tail.octets.len() {
        if lines >= LINES_LIMIT {
            return Ok(Some(broken_after(Rule::Many, 0)));
        }
        let Some((line, more)) = first_line(rest) else {
            break;
        };
        let broken = broken_by(alloc, line)?;
        if broken.is_some() {
            return Ok(broken);
        }
        lines = lines.saturating_add(1);
        rest = more;
    }
    if tail.ended || rest.len() > LINE_LIMIT {
        broken_by(alloc, rest)
    } else {
        Ok(None)
    }
}

/// Appends the fault in words.
fn push_rule(text: &mut String, rule: Rule) -> Result<(), AllocError>
    ensures { OnOk result (Extends (string_bytes text.old) (string_bytes text.new)) }
{
    match rule {
        Rule::End => text.push_str("no end"),
        Rule::Space => text.push_str("no space behind the end"),
        Rule::Mark => text.push_str("octets behind the quiet mark"),
        Rule::Digit => text.push_str("no digit"),
        Rule::Count => text.push_str("odd count of digits"),
        Rule::Cut => text.push_str("the element is cut"),
        Rule::Behind => text.push_str("octets behind the element"),
        Rule::Element(reason) => {
            text.push_str("no element: ")?;
            text.push_str(name_of(reason))
        }
        Rule::Long => text.push_str("line too long"),
        Rule::Many => text.push_str("too many lines"),
    }
}

/// Appends the broken rule and the column.
///
/// # Errors
/// `AllocError` if memory runs out.
pub fn push_broken_rule(text: &mut String, broken: BrokenRule) -> Result<(), AllocError>
    // The text continues with the rule in words, and then with the column.
    ensures { OnOk result ((rule : List ℕ) × (string_bytes text.new
        ≡ string_bytes text.old ++ rule ++ codes "; column " ++ decimal (column_of broken))) }
{
    let column = broken.column;
    push_rule(text, broken.rule)?;
    write!(text, "; column {column}")
}

/// Appends the line on a broken rule.
pub(crate) fn push_broken(text: &mut String, broken: BrokenRule) -> Result<(), AllocError> {
    text.push_str("  why: ")?;
    push_broken_rule(text, broken)?;
    text.push_str("\n")
}

/// Returns the line that explains which rule the last lines break. It is empty if they break none, or if octets of them
/// are missing because memory ran out.
fn rule_line(alloc: Global, tail: &Tail) -> Result<String, AllocError> {
    let mut text = String::new(alloc);
    if !tail.lost {
        if let Some(broken) = broken_in(alloc, tail)? {
            push_broken(&mut text, broken)?;
        }
    }
    Ok(text)
}

/// Writes the rule that a line of digits breaks, and the column, if the last fault written to `faults` is a bad line.
/// `lines` is the reader that [`run_pack`](tcap_lines::run_pack) read from. Writes nothing if memory runs out.
///
/// # Errors
/// `WriteFailed` if the writer fails in this call.
pub fn write_rule<R, W: Write>(
    alloc: Global,
    lines: &LineReader<R>,
    faults: &mut FaultWriter<W>,
) -> Result<(), WriteFailed>
    ensures counts { OnOk result (W.failures (fault_writer_inner faults.new)
        ≡ W.failures (fault_writer_inner faults.old)) }
    ensures failed { OnErr result
        (W.failures (fault_writer_inner faults.new) ≡ one_more (W.failures (fault_writer_inner faults.old))) }
{
    if !faults.is_bad_line() {
        return Ok(());
    }
    match rule_line(alloc, lines.tail()) {
        Ok(text) => faults.write_all(text.as_bytes()).map_err(|_| WriteFailed),
        Err(AllocError) => Ok(()),
    }
}
