//! Why an entry is refuted, and the findings on each end.
//!
//! Each function that returns `AllocError` does so if memory runs out.

ghost use Rattle.std.specs.Prelude.{◌≡◌, ◌++◌, ◌≤◌, Some, None, length, map, IfOk, IfSome, OnOk};
ghost use Rattle.std.specs.String.{string_bytes};
ghost use Rattle.tcap_model.specs.Entries.{item_of};
ghost use Rattle.tcap_refute.specs.declared.kind.Refutation.{Refutation};
ghost use Rattle.tcap_refute.specs.Kind.{refuted};
ghost use Rattle.tcap_faults.specs.Fault.{blamed};
ghost use Rattle.tcap_judge.specs.BlameOutcome.{AreFound, ends_of};
ghost use Rattle.tcap_judge.specs.declared.findings.Finding.TheVariants as findings;
ghost use Rattle.tcap_judge.specs.Verdict.{refutation_by};
ghost use Rattle.tcap_explain.specs.RefutedLines.{after_text, findings_text, both_text, end_text, ends_judged, is_blamed_by, is_shown, none_found_words, refuted_lines, sender_at, unblamed_lines, unblamed_words, unread_words};

use std::alloc::{AllocError, Global};
use tcap_end::Table;
use tcap_evidence::{push_unblamed, push_why};
use tcap_judge::{Ends, Finding, comes_after, find_both, push_finding};
use tcap_record::{End, Record};
use tcap_refute::Refutation;

/// Returns the end that sent an entry, or A if neither did.
fn sender_of(read: &Record, entry: u64) -> End
    ensures { result ≡ sender_at read.now.entries.items entry }
{
    let found = match usize::try_from(entry) {
        Ok(number) => read.entries.get(number),
        Err(_) => None,
    };
    match found {
        Some(found) => found.side.unwrap_or(End::A),
        None => End::A,
    }
}

/// Returns whether this refutation was printed already.
fn is_shown(shown: Option<Refutation>, refutation: Refutation) -> bool
    ensures { result ≡ is_shown shown refutation }
{
    match shown {
        Some(shown) => {
            shown.entry == refutation.entry && shown.kind.number() == refutation.kind.number()
        }
        None => false,
    }
}

/// Appends that the entry `count` is no message, so the search ends there.
#[tactic(auto, unfolding(crate::specs::RefutedLines::unread_words))]
fn push_unread(text: &mut String, count: usize) -> Result<(), AllocError>
    ensures { OnOk result (string_bytes text.new ≡ string_bytes text.old ++ unread_words count) }
{
    writeln!(
        text,
        "  entry {count} is no message, and nothing from there on is looked at"
    )
}

/// Returns the words for an end without a fault.
#[tactic(auto, unfolding(crate::specs::RefutedLines::none_found_words))]
fn none_found_words() -> &'static str
    ensures { result.now ≡ none_found_words }
{
    "  no fault is found; that does not clear it\n"
}

/// Appends why none of `all` entries is blamed, if the first `count` were searched.
fn push_not_blamed(text: &mut String, count: usize, all: usize) -> Result<(), AllocError>
    ensures { OnOk result (string_bytes text.new ≡ string_bytes text.old ++ unblamed_words count all) }
{
    if count < all {
        push_unread(text, count)
    } else {
        text.push_str(none_found_words())
    }
}

/// Appends the reasons for a finding, unless it is the refutation `shown` already.
fn push_after(
    alloc: Global,
    text: &mut String,
    read: &Record,
    table: &Table,
    end: End,
    finding: Finding,
    shown: Option<Refutation>,
) -> Result<(), AllocError>
    requires named { (r : Refutation) → finding ≡ findings.Blamed r
        → blamed table.now end read.now.entries.items ≡ Some r }
    ensures { OnOk result (string_bytes text.new
        ≡ string_bytes text.old ++ after_text table.now read.now.entries.items shown end finding) }
{
    match finding {
        Finding::Blamed(refutation) => {
            if is_shown(shown, refutation) {
                return Ok(());
            }
            push_why(alloc, text, read, table, end, refutation, true)
        }
        Finding::NotBlamed(count) => push_not_blamed(text, count, read.entries.len()),
        Finding::Lawful(_, _) => Ok(()),
    }
}

/// Appends the line of a finding on an end, and the reasons.
fn push_end(
    alloc: Global,
    text: &mut String,
    read: &Record,
    table: &Table,
    end: End,
    finding: Finding,
    shown: Option<Refutation>,
) -> Result<(), AllocError>
    requires named { (r : Refutation) → finding ≡ findings.Blamed r
        → blamed table.now end read.now.entries.items ≡ Some r }
    ensures { OnOk result (string_bytes text.new
        ≡ string_bytes text.old ++ end_text table.now read.now.entries.items shown end finding) }
{
    push_finding(text, end, finding)?;
    push_after(alloc, text, read, table, end, finding, shown)
}

/// Appends the findings on both ends, and the reasons that were not `shown` already.
fn push_both(
    alloc: Global,
    text: &mut String,
    read: &Record,
    table: &Table,
    ends: Ends,
    shown: Option<Refutation>,
) -> Result<(), AllocError>
    requires found { ends ≡ ends_of table.now read.now.entries.items }
    ensures { OnOk result (string_bytes text.new
        ≡ string_bytes text.old ++ both_text table.now read.now.entries.items shown ends) }
{
    if comes_after(ends.a, ends.b) {
        push_end(alloc, text, read, table, End::B, ends.b, shown)?;
        push_end(alloc, text, read, table, End::A, ends.a, shown)
    } else {
        push_end(alloc, text, read, table, End::A, ends.a, shown)?;
        push_end(alloc, text, read, table, End::B, ends.b, shown)
    }
}

/// Returns what `blame` finds for both ends, if both are judged.
pub(crate) fn ends_judged(
    alloc: Global,
    read: &Record,
    table: &Table,
    judged: Option<End>,
) -> Result<Option<Ends>, AllocError>
    requires few { length read.now.entries.items ≤ 100000 }
    ensures options { IfOk result (λ ends. ends ≡ ends_judged judged table.now read.now.entries.items) }
    ensures each { IfOk result (λ ends. IfSome ends (λ both. both ≡ ends_of table.now read.now.entries.items)) }
    ensures found { IfOk result (λ ends. IfSome ends (AreFound table.now read.now.entries.items)) }
{
    match judged {
        None => Ok(Some(find_both(alloc, read, table)?)),
        Some(_) => Ok(None),
    }
}

/// Appends these findings, and the reasons.
pub(crate) fn push_findings(
    alloc: Global,
    text: &mut String,
    read: &Record,
    table: &Table,
    ends: Option<Ends>,
) -> Result<(), AllocError>
    requires found { IfSome ends (λ both. both ≡ ends_of table.now read.now.entries.items) }
    ensures { OnOk result (string_bytes text.new ≡ string_bytes text.old
        ++ findings_text table.now read.now.entries.items ends) }
{
    match ends {
        Some(ends) => push_both(alloc, text, read, table, ends, None),
        None => Ok(()),
    }
}

/// Returns whether an end is blamed for entry `number` or an earlier one.
fn is_blamed_by(finding: Finding, number: u64) -> bool
    ensures { result ≡ is_blamed_by number finding }
{
    match finding {
        Finding::Blamed(blamed) => blamed.entry <= number,
        _ => false,
    }
}

/// Appends why nobody is blamed for a refuted entry, if nobody is.
fn push_where_unblamed(
    alloc: Global,
    text: &mut String,
    read: &Record,
    table: &Table,
    end: End,
    refutation: Refutation,
    ends: Ends,
) -> Result<(), AllocError>
    requires refuted { refuted table.now (map item_of read.now.entries.items) ≡ Some refutation }
    requires sent { end ≡ sender_at read.now.entries.items refutation.entry }
    requires found { ends ≡ ends_of table.now read.now.entries.items }
    ensures { OnOk result (string_bytes text.new
        ≡ string_bytes text.old ++ unblamed_lines table.now end read.now.entries.items refutation.entry ends) }
{
    let number = refutation.entry;
    if is_blamed_by(ends.a, number) || is_blamed_by(ends.b, number) {
        return Ok(());
    }
    push_unblamed(alloc, text, read, table, end, number)
}

/// Appends the lines of a record that is refuted, if both ends are judged.
fn push_refuted(
    alloc: Global,
    text: &mut String,
    read: &Record,
    table: &Table,
    refutation: Refutation,
) -> Result<(), AllocError>
    requires refuted { refuted table.now (map item_of read.now.entries.items) ≡ Some refutation }
    requires few { length read.now.entries.items ≤ 100000 }
    ensures { OnOk result (string_bytes text.new
        ≡ string_bytes text.old ++ refuted_lines None table.now read.now.entries.items refutation) }
{
    let end = sender_of(read, refutation.entry);
    push_why(alloc, text, read, table, end, refutation, false)?;
    let ends = find_both(alloc, read, table)?;
    push_where_unblamed(alloc, text, read, table, end, refutation, ends)?;
    push_both(alloc, text, read, table, ends, Some(refutation))
}

/// Returns the lines after REFUTED, for both ends or for the judged end.
pub(crate) fn refuted_text(
    alloc: Global,
    read: &Record,
    table: &Table,
    judged: Option<End>,
    refutation: Refutation,
) -> Result<String, AllocError>
    requires named { refutation_by judged table.now read.now.entries.items ≡ Some refutation }
    requires few { length read.now.entries.items ≤ 100000 }
    ensures { IfOk result
        (λ text. string_bytes text ≡ refuted_lines judged table.now read.now.entries.items refutation) }
{
    let mut text = String::new(alloc);
    match judged {
        Some(end) => push_why(alloc, &mut text, read, table, end, refutation, true)?,
        None => push_refuted(alloc, &mut text, read, table, refutation)?,
    }
    Ok(text)
}
