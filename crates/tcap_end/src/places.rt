//! The oldest item of a row that a component can answer, reject or link to, and items that are added to rows.

ghost use Rattle.std.specs.Prelude.{◌≡◌, ◌<◌, Bool, Some, None, OnErr, OnOk, is_some, option_map, slice_index_or, true, ℕ};
ghost use Rattle.std.specs.List.{slice_get};
ghost use Rattle.std.specs.Mem.{FitsInMemory};
ghost use Rattle.tcap_parts.specs.Meaning.{code_of};
ghost use Rattle.tcap_end.specs.Half.{with_newest};
ghost use Rattle.tcap_end.specs.Component.{allows, allows_for, class_reports, is_code, links, may_answer};
ghost use Rattle.tcap_lists.specs.Lists.{HasRow, KeepsRows, row_kinds, row_of, rows_of};
ghost use Rattle.tcap_end.specs.OldestPlace.{place_of};
ghost use Rattle.tcap_end.specs.KindTest.{IsTest};
ghost use Rattle.tcap_end.specs.RowJoin.{IsJoined, Joins};
ghost use Rattle.tcap_end.specs.RejectProblems.{invoke_problems, target_problems};
ghost use Rattle.tcap_lists.specs.Row.{earlier, fits_in};

use crate::class::reports;
use crate::received::{Answer, Invocation, Link, Target};
use crate::table::Table;
use std::alloc::{AllocError, Global};
use tcap_lists::{FEW_KINDS, Lists, Row, SORTS};
use tcap_parts::CodeView;

/// Returns whether two codes are equal.
pub(crate) fn is_code(code: CodeView, other: CodeView) -> bool
    ensures { result ≡ is_code (code_of code.entry) (code_of other.entry) }
{
    match (code, other) {
        (CodeView::Local(a), CodeView::Local(b)) => a == b,
        (CodeView::Global(a), CodeView::Global(b)) => a.octets == b.octets,
        _ => false,
    }
}

/// Returns the lesser of two places, or the only one.
fn earlier(a: Option<usize>, b: Option<usize>) -> Option<usize>
    ensures { result ≡ earlier a b }
{
    match (a, b) {
        (None, other) => other,
        (Some(place), None) => Some(place),
        (Some(place), Some(other)) => Some(if other < place { other } else { place }),
    }
}

/// Returns whether the operation's class reports success (`is_result`) or failure.
fn reports_by(table: &Table, is_result: bool, code: CodeView) -> bool
    ensures { result ≡ class_reports table.now is_result (code_of code.entry) }
{
    match table.class_of(code) {
        Some(class) => reports(is_result, class),
        None => false,
    }
}

/// Returns whether a Return Result (`is_result`) or Return Error that carries the operation `named`, or none, may
/// answer an invocation.
fn may_answer(item: &Invocation, table: &Table, is_result: bool, named: Option<CodeView>) -> bool
    ensures { result ≡ may_answer table.now is_result (option_map code_of named.entry) item.now }
{
    let code = item.code.view();
    let is_named = match named {
        Some(named) => is_code(named, code),
        None => true,
    };
    is_named && reports_by(table, is_result, code)
}

/// Finds the place of the oldest item that passes a test, by a look at all kinds.
fn oldest_that<K, F: Fn(&K) -> bool>(row: &Row<K>, passes: F) -> Option<usize>
    requires kinds { FitsInMemory K.row }
    requires callable { F.IsAlwaysCallable passes }
    ensures { (test : K → Bool) → IsTest F.Fn passes test → result ≡ place_of (fits_in test) (row_of row.now) }
{
    let mut found = None;
    let kinds = row.kinds();
    for kind in 0..kinds.len() {
        if passes(&kinds[kind]) {
            found = earlier(found, row.oldest_of(kind));
        }
    }
    found
}

/// Finds the place of the oldest invocation that this answer may answer.
pub(crate) fn first_answerable(
    row: &Row<Invocation>,
    table: &Table,
    is_result: bool,
    named: Option<CodeView>,
) -> Option<usize>
    ensures { result ≡ place_of (fits_in (may_answer table.now is_result (option_map code_of named.entry)))
        (row_of row.now) }
{
    match row.oldest() {
        None => None,
        Some((at, kind)) if may_answer(kind, table, is_result, named) => Some(at),
        Some(_) => oldest_that(
            row,
            |kind: &Invocation| may_answer(kind, table, is_result, named),
        ),
    }
}

/// Returns whether the invocation in a place may be rejected with this invoke problem.
fn allows_at(row: &Row<Invocation>, problem: u8, at: usize) -> bool
    ensures { result ≡ fits_in (allows problem) (slice_index_or (row_of row.now) at None) }
{
    match row.item(at) {
        Some(item) => item.allows(problem),
        None => false,
    }
}

/// Looks among the oldest places for the oldest invocation that may be rejected with this invoke problem. It looks at
/// no more places than there are kinds.
fn rejectable_nearby(row: &Row<Invocation>, problem: u8) -> Option<usize>
    ensures { (at : ℕ) → result ≡ Some at → place_of (fits_in (allows problem)) (row_of row.now) ≡ Some at }
{
    let mut at = row.front();
    for _ in 0..row.kinds().len() {
        if allows_at(row, problem, at) {
            return Some(at);
        }
        if row.len() <= at {
            return None;
        }
        at += 1;
    }
    None
}

/// Finds the place of the oldest invocation that may be rejected with this invoke problem.
pub(crate) fn first_rejectable(row: &Row<Invocation>, problem: u8) -> Option<usize>
    ensures { result ≡ place_of (fits_in (allows problem)) (row_of row.now) }
{
    match rejectable_nearby(row, problem) {
        Some(at) => Some(at),
        None => oldest_that(row, |kind: &Invocation| kind.allows(problem)),
    }
}

/// Finds the place of the oldest answer that may be rejected with this problem of a Return Result (`is_result`) or
/// Return Error.
pub(crate) fn first_rejectable_answer(
    row: &Row<Answer>,
    is_result: bool,
    problem: u8,
) -> Option<usize>
    ensures { result ≡ place_of (fits_in (allows_for is_result problem)) (row_of row.now) }
{
    oldest_that(row, |kind: &Answer| kind.allows(is_result, problem))
}

/// Returns whether there is an invocation of this kind to which the operation may be linked.
fn links_to_kind(row: &Row<Invocation>, table: &Table, code: CodeView, kind: usize) -> bool
    ensures { result ≡ true
        → is_some (place_of (fits_in (λ item. links table.now item.code (code_of code.entry))) (row_of row.now))
        ≡ true }
{
    match row.kinds().get(kind) {
        Some(item) => row.oldest_of(kind).is_some() && table.links(item.code.view(), code),
        None => false,
    }
}

/// Returns whether there is an invocation to which the operation may be linked. It tries the kind that was found last
/// first.
pub(crate) fn links_one(row: &Row<Invocation>, table: &Table, code: CodeView) -> bool
    ensures { result
        ≡ is_some (place_of (fits_in (λ item. links table.now item.code (code_of code.entry))) (row_of row.now)) }
{
    links_to_kind(row, table, code, row.linking().get())
        || first_linking(row, table, code).is_some()
}

/// Remembers a kind of which there is an item, for the next `links_one`.
fn keep_linking(row: &Row<Invocation>, kind: usize, oldest: Option<usize>) {
    if oldest.is_some() {
        row.linking().set(kind);
    }
}

/// Finds the place of the oldest invocation to which the operation may be linked, and remembers such a kind.
fn first_linking(row: &Row<Invocation>, table: &Table, code: CodeView) -> Option<usize>
    ensures { result ≡ place_of (fits_in (λ item. links table.now item.code (code_of code.entry))) (row_of row.now) }
{
    let mut found = None;
    let kinds = row.kinds();
    for kind in 0..kinds.len() {
        let item = &kinds[kind];
        if table.links(item.code.view(), code) {
            let oldest = row.oldest_of(kind);
            keep_linking(row, kind, oldest);
            found = earlier(found, oldest);
        }
    }
    found
}

/// Returns the number for all of an invocation's kind except its operation code.
fn sort_of(duplicate: bool, link: Link) -> usize
    ensures { result < SORTS }
{
    let first = match link {
        Link::Fine => 0,
        Link::Unrecognized => 1,
        Link::Unexpected => 2,
        Link::Other => 3,
    };
    if duplicate { first + 4 } else { first }
}

/// Finds the number of an invocation's kind, by a look at all kinds.
fn searched_kind(kinds: &[Invocation], code: CodeView, duplicate: bool, link: Link) -> Option<usize>
    ensures { (number : ℕ) → result ≡ Some number → slice_get kinds.now number
        ≡ Some (record { code = code_of code.entry; problems = invoke_problems duplicate link }) }
{
    for number in 0..kinds.len() {
        let kind = &kinds[number];
        if kind.duplicate == duplicate && kind.link == link && is_code(kind.code.view(), code) {
            return Some(number);
        }
    }
    None
}

/// Finds the number of an invocation's kind, from the guess for its code.
fn guessed_kind(row: &Row<Invocation>, code: CodeView, duplicate: bool, link: Link) -> Option<usize>
    ensures { (number : ℕ) → result ≡ Some number → slice_get (row_kinds row.now) number
        ≡ Some (record { code = code_of code.entry; problems = invoke_problems duplicate link }) }
{
    let number = row.guess(code, sort_of(duplicate, link))?;
    let kinds = row.kinds();
    if kinds.len() <= number {
        return None;
    }
    let kind = &kinds[number];
    if kind.duplicate == duplicate && kind.link == link && is_code(kind.code.view(), code) {
        Some(number)
    } else {
        None
    }
}

/// Finds the number of an invocation's kind, or None if it is not known.
fn kind_of_invocation(
    row: &Row<Invocation>,
    code: CodeView,
    duplicate: bool,
    link: Link,
) -> Option<usize>
    ensures { (number : ℕ) → result ≡ Some number → slice_get (row_kinds row.now) number
        ≡ Some (record { code = code_of code.entry; problems = invoke_problems duplicate link }) }
{
    if row.kinds().len() <= FEW_KINDS {
        searched_kind(row.kinds(), code, duplicate, link)
    } else {
        guessed_kind(row, code, duplicate, link)
    }
}

/// Adds an invocation to a row.
pub(crate) fn join_invocation(
    row: &mut Row<Invocation>,
    alloc: Global,
    code: CodeView,
    duplicate: bool,
    link: Link,
) -> Result<(), AllocError>
    ensures { IsJoined (record { code = code_of code.entry; problems = invoke_problems duplicate link })
        row.old result row.new }
{
    match kind_of_invocation(row, code, duplicate, link) {
        Some(kind) => row.join(kind),
        None => {
            row.expect(alloc, code, sort_of(duplicate, link))?;
            let code = code.to_code(alloc)?;
            row.join_first(Invocation {
                code,
                duplicate,
                link,
            })
        }
    }
}

/// Finds the number of an answer's kind.
fn kind_of_answer(kinds: &[Answer], is_result: bool, target: Target) -> Option<usize>
    ensures { (number : ℕ) → result ≡ Some number → slice_get kinds.now number
        ≡ Some (record { is_result = is_result; problems = target_problems is_result target }) }
{
    for number in 0..kinds.len() {
        let kind = &kinds[number];
        if kind.is_result == is_result && kind.target == target {
            return Some(number);
        }
    }
    None
}

/// Adds an answer to a row.
pub(crate) fn join_answer(
    row: &mut Row<Answer>,
    is_result: bool,
    target: Target,
) -> Result<(), AllocError>
    ensures { IsJoined (record { is_result = is_result; problems = target_problems is_result target })
        row.old result row.new }
{
    match kind_of_answer(row.kinds(), is_result, target) {
        Some(kind) => row.join(kind),
        None => row.join_first(Answer { is_result, target }),
    }
}

/// Adds an item to the row of its ID, with a closure that adds it to the row.
pub(crate) fn keep<K: Drop, F: FnOnce(&mut Row<K>) -> Result<(), AllocError> + Drop>(
    lists: &mut Lists<K>,
    id: i8,
    join: F,
) -> Result<(), AllocError>
    requires callable { F.IsAlwaysCallable join }
    ensures added { (item : K) → Joins F.FnOnce join item
        → OnOk result (rows_of lists.new ≡ with_newest id (Some item) (rows_of lists.old)) }
    ensures made { OnOk result (HasRow id lists.new) }
    ensures kept { (item : K) → Joins F.FnOnce join item → OnErr result (rows_of lists.new ≡ rows_of lists.old) }
    ensures keeps { (item : K) → Joins F.FnOnce join item → KeepsRows lists.old lists.new }
{
    lists.make(id)?;
    match lists.rows.get_mut(&id) {
        Some(row) => join(row),
        None => unreachable!(),
    }
}
