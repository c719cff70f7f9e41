//! Linked Invokes with problem 6 or 7 (Q.773 4.2.2). Many Rejects may look for the same Invoke, so the last one that
//! was found is remembered, and checked first.

ghost use Rattle.std.specs.Prelude.{◌≡◌, true, map};
ghost use Rattle.std.specs.List.{list_any};
ghost use Rattle.tcap_faults.specs.LinkProblems.{links_as, names_none, names_other, names_so};
ghost use Rattle.tcap_faults.specs.TallyMeaning.{codes_any, links_at, tallies_of, tally_of};

use crate::component::code_counts::CodeCounts;
use crate::component::link_hint::FoundLink;
use crate::component::link_problem::LinkProblem;
use crate::component::linkable_operation::Linkable;
use crate::component::tally::Tally;
use std::cell::Cell;
use std::collections::BTreeMap;
use tcap_end::Table;
use tcap_parts::{Code, CodeView};

// ---- the search of all linked Invokes

/// Returns whether an invocation of this ID has an operation that meets `linkable`. Sets `found` to its place.
fn has_operation(
    tallies: &[&Tally],
    table: &Table,
    id: i8,
    linkable: Linkable,
    found: &Cell<usize>,
) -> bool
    ensures { result
        ≡ (tallies_of (map (λ b. b.now) tallies.now)).has_operation id (links_as table.now linkable.entry) }
{
    for tally in tallies {
        if tally.has_operation(table, id, linkable, found) {
            return true;
        }
    }
    false
}

/// Returns whether an operation was counted, and an invocation of this ID has an operation that lists none.
fn one_is_none(
    counts: &CodeCounts,
    invoked: &[&Tally],
    table: &Table,
    id: i8,
    found: &FoundLink,
) -> bool
    ensures { result ≡ codes_any (names_none table.now (tallies_of (map (λ b. b.now) invoked.now)) id) counts.now }
{
    found.code.set(usize::from(counts.first.is_none()));
    counts.counts_some() && has_operation(invoked, table, id, Linkable::Nothing, &found.operation)
}

/// Returns whether, for one of these codes, an invocation of this ID has an operation that lists others, but not the
/// code.
fn any_is_other(
    codes: &[Code],
    invoked: &[&Tally],
    table: &Table,
    id: i8,
    found: &FoundLink,
) -> bool
    ensures { result ≡ list_any (names_other table.now (tallies_of (map (λ b. b.now) invoked.now)) id) codes.now }
{
    for (place, code) in codes.iter().enumerate() {
        let linkable = Linkable::OtherThan(code.view());
        if has_operation(invoked, table, id, linkable, &found.operation) {
            found.code.set(place + 1);
            return true;
        }
    }
    false
}

/// Returns whether, for one of the counted operations, an invocation of this ID has an operation that lists others,
/// but not that one.
fn one_is_other(
    counts: &CodeCounts,
    invoked: &[&Tally],
    table: &Table,
    id: i8,
    found: &FoundLink,
) -> bool
    ensures { result ≡ codes_any (names_other table.now (tallies_of (map (λ b. b.now) invoked.now)) id) counts.now }
{
    if let Some(first) = counts.first {
        let linkable = Linkable::OtherThan(CodeView::Local(first));
        if has_operation(invoked, table, id, linkable, &found.operation) {
            found.code.set(0);
            return true;
        }
    }
    match &counts.others {
        Some(others) => any_is_other(&others.codes, invoked, table, id, found),
        None => false,
    }
}

/// Returns whether an Invoke of a counted operation that is linked to this ID has the problem.
fn one_has(
    counts: &CodeCounts,
    invoked: &[&Tally],
    table: &Table,
    id: i8,
    problem: LinkProblem,
    found: &FoundLink,
) -> bool
    ensures { result
        ≡ codes_any (names_so table.now (tallies_of (map (λ b. b.now) invoked.now)) problem id) counts.now }
{
    match problem {
        LinkProblem::Response => one_is_none(counts, invoked, table, id, found),
        LinkProblem::Operation => one_is_other(counts, invoked, table, id, found),
    }
}

/// Returns whether a linked Invoke has the problem. Sets `found` to the first that does.
fn any_has(
    by_link: &BTreeMap<i8, CodeCounts>,
    invoked: &[&Tally],
    table: &Table,
    problem: LinkProblem,
    found: &FoundLink,
) -> bool
    ensures { result ≡ list_any (links_at (names_so table.now (tallies_of (map (λ b. b.now) invoked.now)) problem))
        by_link.now.entries }
{
    for (linked, counts) in by_link {
        if one_has(counts, invoked, table, *linked, problem, found) {
            found.linked.set(*linked);
            return true;
        }
    }
    false
}

/// Returns whether a heard linked Invoke with this ID has the problem, and remembers the first that does.
fn links_where(
    incoming: &Tally,
    invoked: &[&Tally],
    table: &Table,
    id: i8,
    problem: LinkProblem,
) -> bool
    ensures { result ≡ (tally_of incoming.now).has_link id
        (names_so table.now (tallies_of (map (λ b. b.now) invoked.now)) problem) }
{
    match incoming.history_of_id(id) {
        Some(kept) => any_has(&kept.by_link, invoked, table, problem, kept.found(problem)),
        None => false,
    }
}

/// Returns whether a tally has a linked Invoke with this ID and the problem. Looks at all of them.
fn one_links_so(
    incoming: &[&Tally],
    invoked: &[&Tally],
    table: &Table,
    id: i8,
    problem: LinkProblem,
) -> bool
    ensures { result ≡ (tallies_of (map (λ b. b.now) incoming.now)).has_link id
        (names_so table.now (tallies_of (map (λ b. b.now) invoked.now)) problem) }
{
    for tally in incoming {
        if links_where(tally, invoked, table, id, problem) {
            return true;
        }
    }
    false
}

// ---- the check of the linked Invoke that was found last

/// Returns whether the operation at this place, of the invocations with this ID, meets `linkable`.
fn has_operation_at(
    tallies: &[&Tally],
    table: &Table,
    id: i8,
    linkable: Linkable,
    place: usize,
) -> bool
    ensures { result ≡ true → (tallies_of (map (λ b. b.now) tallies.now)).has_operation id
        (links_as table.now linkable.entry) ≡ true }
{
    for tally in tallies {
        if tally.has_operation_at(table, id, linkable, place) {
            return true;
        }
    }
    false
}

/// Returns whether the linked Invoke that was found last has the problem.
fn found_has(
    by_link: &BTreeMap<i8, CodeCounts>,
    invoked: &[&Tally],
    table: &Table,
    problem: LinkProblem,
    found: &FoundLink,
) -> bool
    ensures { result ≡ true
        → list_any (links_at (names_so table.now (tallies_of (map (λ b. b.now) invoked.now)) problem))
        by_link.now.entries
        ≡ true }
{
    let linked = found.linked.get();
    let Some(counts) = by_link.get(&linked) else {
        return false;
    };
    let Some(code) = counts.at(found.code.get()) else {
        return false;
    };
    let linkable = problem.linkable(code);
    has_operation_at(invoked, table, linked, linkable, found.operation.get())
}

/// Returns whether the heard linked Invoke with this ID that was found last has the problem.
fn links_so_again(
    incoming: &Tally,
    invoked: &[&Tally],
    table: &Table,
    id: i8,
    problem: LinkProblem,
) -> bool
    ensures { result ≡ true → (tally_of incoming.now).has_link id
        (names_so table.now (tallies_of (map (λ b. b.now) invoked.now)) problem) ≡ true }
{
    match incoming.history_of_id(id) {
        Some(kept) => found_has(&kept.by_link, invoked, table, problem, kept.found(problem)),
        None => false,
    }
}

/// Returns whether the linked Invoke with this ID that was found last has the problem. Looks at one in each tally.
fn one_links_so_again(
    incoming: &[&Tally],
    invoked: &[&Tally],
    table: &Table,
    id: i8,
    problem: LinkProblem,
) -> bool
    ensures { result ≡ true → (tallies_of (map (λ b. b.now) incoming.now)).has_link id
        (names_so table.now (tallies_of (map (λ b. b.now) invoked.now)) problem) ≡ true }
{
    for tally in incoming {
        if links_so_again(tally, invoked, table, id, problem) {
            return true;
        }
    }
    false
}

/// Returns whether a heard linked Invoke with this ID has the problem, judged by the own invocations in `invoked`.
pub(crate) fn has_link_problem(
    incoming: &[&Tally],
    invoked: &[&Tally],
    table: &Table,
    id: i8,
    problem: LinkProblem,
) -> bool
    ensures { result ≡ (tallies_of (map (λ b. b.now) incoming.now)).has_link id
        (names_so table.now (tallies_of (map (λ b. b.now) invoked.now)) problem) }
{
    one_links_so_again(incoming, invoked, table, id, problem)
        || one_links_so(incoming, invoked, table, id, problem)
}
