//! Several tallies, read as one.

ghost use Rattle.std.specs.Prelude.{◌≡◌, ◌==◌, true, map};
ghost use Rattle.std.specs.List.{list_any};
ghost use Rattle.tcap_parts.specs.Meaning.{code_of};
ghost use Rattle.tcap_end.specs.Component.{links};
ghost use Rattle.tcap_faults.specs.LinkProblems.{is_of_none};
ghost use Rattle.tcap_faults.specs.TallyMeaning.{codes_any, tallies_of, tally_of};

use crate::component::code_counts::CodeCounts;
use crate::component::component_sort::Sort;
use crate::component::saturating_sum::more;
use crate::component::tally::Tally;
use tcap_end::Table;
use tcap_parts::{Code, CodeView};

/// Returns the number of components with this invoke ID and of this sort.
pub(crate) fn count(tallies: &[&Tally], id: i8, sort: Sort) -> u128
    ensures { result ≡ (tallies_of (map (λ b. b.now) tallies.now)).count id sort }
{
    let mut all = 0;
    for tally in tallies {
        all = more(all, tally.count(id, sort));
    }
    all
}

/// Returns the number of Invokes with this ID and of this operation.
pub(crate) fn invokes_of(tallies: &[&Tally], id: i8, code: CodeView) -> u128
    ensures { result ≡ (tallies_of (map (λ b. b.now) tallies.now)).invokes_of id (code_of code.entry) }
{
    let mut all = 0;
    for tally in tallies {
        all = more(all, tally.invokes_of(id, code));
    }
    all
}

/// Returns the number of Return Results Last with this ID that name this operation.
pub(crate) fn results_of(tallies: &[&Tally], id: i8, code: CodeView) -> u128
    ensures { result ≡ (tallies_of (map (λ b. b.now) tallies.now)).results_of id (code_of code.entry) }
{
    let mut all = 0;
    for tally in tallies {
        all = more(all, tally.results_of(id, code));
    }
    all
}

/// Returns whether an Invoke with this ID has an operation that lists this one (Q.771 3.1). Looks at all of them.
fn one_lists(tallies: &[&Tally], table: &Table, id: i8, code: CodeView) -> bool
    ensures { result ≡ (tallies_of (map (λ b. b.now) tallies.now)).has_operation id
        (λ to. links table.now to (code_of code.entry)) }
{
    for tally in tallies {
        if tally.lists(table, id, code) {
            return true;
        }
    }
    false
}

/// Returns whether the Invoke with this ID that was found last has an operation that lists this one. Looks at one
/// Invoke in each tally.
fn one_lists_again(tallies: &[&Tally], table: &Table, id: i8, code: CodeView) -> bool
    ensures { result ≡ true → (tallies_of (map (λ b. b.now) tallies.now)).has_operation id
        (λ to. links table.now to (code_of code.entry)) ≡ true }
{
    for tally in tallies {
        if tally.lists_again(table, id, code) {
            return true;
        }
    }
    false
}

/// Returns whether an Invoke with this ID has an operation that lists this one (Q.771 3.1).
pub(crate) fn lists(tallies: &[&Tally], table: &Table, id: i8, code: CodeView) -> bool
    ensures { result ≡ (tallies_of (map (λ b. b.now) tallies.now)).has_operation id
        (λ to. links table.now to (code_of code.entry)) }
{
    one_lists_again(tallies, table, id, code) || one_lists(tallies, table, id, code)
}

/// Returns whether one of these operations is that of no invocation with this ID.
fn any_is_of_none(codes: &[Code], invoked: &[&Tally], id: i8) -> bool
    ensures { result ≡ list_any (is_of_none (tallies_of (map (λ b. b.now) invoked.now)) id) codes.now }
{
    for code in codes {
        if invokes_of(invoked, id, code.view()) == 0 {
            return true;
        }
    }
    false
}

/// Returns whether one of the counted operations is that of no invocation with this ID.
fn one_is_of_none(counts: &CodeCounts, invoked: &[&Tally], id: i8) -> bool
    ensures { result ≡ codes_any (is_of_none (tallies_of (map (λ b. b.now) invoked.now)) id) counts.now }
{
    if let Some(first) = counts.first {
        if invokes_of(invoked, id, CodeView::Local(first)) == 0 {
            return true;
        }
    }
    match &counts.others {
        Some(others) => any_is_of_none(&others.codes, invoked, id),
        None => false,
    }
}

/// Returns whether a Return Result with this ID names an operation that no invocation with the ID has.
fn answers_none(incoming: &Tally, invoked: &[&Tally], id: i8) -> bool
    ensures { result ≡ (tally_of incoming.now).has_result id
        (is_of_none (tallies_of (map (λ b. b.now) invoked.now)) id) }
{
    match incoming.history_of_id(id) {
        Some(kept) => one_is_of_none(&kept.answered, invoked, id),
        None => false,
    }
}

/// Returns whether a heard Return Result with this ID names an operation that no own invocation with the ID has.
pub(crate) fn is_of_no_operation(incoming: &[&Tally], invoked: &[&Tally], id: i8) -> bool
    ensures { result ≡ (tallies_of (map (λ b. b.now) incoming.now)).has_result id
        (λ code. (tallies_of (map (λ b. b.now) invoked.now)).invokes_of id code == 0) }
{
    for tally in incoming {
        if answers_none(tally, invoked, id) {
            return true;
        }
    }
    false
}
