//! A dialogue, and how it is judged.

ghost use Rattle.std.specs.Prelude.{◌≡◌, ◌≤◌, ◌&&◌, List, None, IfOk, OnOk, is_some, filter, length, map, nat_lt, not, option_and_then, option_copied, option_map, slice_get};
ghost use Rattle.std.specs.List.{list_any};
ghost use Rattle.tcap_dialogues.specs.HeadingReading.{heading_read};
ghost use Rattle.tcap_record.specs.Ends.{is_entry_of};
ghost use Rattle.tcap_traces.specs.Case.{after_of, chosen_as, dialogue_in, earlier_of, number_of, question_in};
ghost use Rattle.tcap_traces.specs.Segments.{may_go_on, sends_one};
ghost use Rattle.tcap_traces.specs.TableChoice.{choice};
ghost use Rattle.tcap_traces.specs.Dialogue.{began, begun_by, body_of, circumstances, comes_again, ends_by, ends_on, entry_of, first_after, first_heading, goes_to_one, heading_in, is_after_directive, is_long, is_marked, is_open, judged_ends, judged_entries, most, verdict_by, verdict_on};

use crate::before_marks::InUse;
use crate::end_result::Circumstances;
use crate::judging::{Ends, judge_dialogue};
use crate::reaction::judge_reaction;
use crate::table_choice::{ChosenTable, choose};
use crate::verdict::Verdict;
use std::alloc::{AllocError, Global};
use std::marker::Model;
use tcap_ber::{Fault, Reason};
use tcap_books::{Book, NamedTable};
use tcap_dialogues::{CompleteDialogue, HeadingView, read_heading};
use tcap_end::Table;
use tcap_msg::{DecodeFault, Kind as Form, MessageParts, decode};
use tcap_record::{Body, End, Entry, Record};

/// The most entries of a dialogue that are judged.
pub const MOST: usize = 100_000;

/// An entry of a trace.
#[derive(Drop)]
pub struct TraceEntry {
    /// The end that sent it.
    pub sender: End,
    /// Its octets, which need not be a message.
    pub octets: Vec<u8>,
    /// Its line number, or 0 if the trace is a record.
    pub line: u64,
    /// The comment above it, or nothing.
    pub comment: Vec<u8>,
}

impl Model for TraceEntry {
    ghost use Rattle.tcap_traces.specs.Pieces.{TraceEntry as Meant};

    ghost Value = { Meant };

    ghost view = { λ a. record { sender = a.sender; octets = a.octets.items; line = a.line; comment = a.comment.items } };
}

impl TraceEntry {
    /// Returns the heading: the sender, and the kind and IDs as far as they can be read.
    pub fn heading(&self) -> HeadingView<'_>
        ensures { heading_read result ≡ heading_in self.now }
    {
        read_heading(self.sender, &self.octets)
    }

    /// Decodes the entry on its own. Fails if memory runs out.
    fn entry(&self, alloc: Global) -> Result<Entry, AllocError>
        ensures { IfOk result (λ entry. entry ≡ entry_of self.now) }
    {
        Ok(Entry {
            side: Some(self.sender),
            place: 0,
            body: body_of(alloc, &self.octets)?,
        })
    }
}

/// Returns the message that these octets are, with nothing after it, or the first fault. Fails if memory runs out.
fn body_of(alloc: Global, octets: &[u8]) -> Result<Body, AllocError>
    ensures { IfOk result (λ body. body ≡ body_of octets.now) }
{
    match decode(alloc, octets) {
        Ok((message, len)) if len == octets.len() => Ok(Body::Good(message)),
        Ok((_, len)) => Ok(Body::Bad(Fault {
            reason: Reason::Trailing,
            place: len as u64,
        })),
        Err(DecodeFault::Fault(fault)) => Ok(Body::Bad(fault)),
        Err(DecodeFault::Memory) => Err(AllocError),
    }
}

/// The item after the entries of a dialogue.
#[derive(Clone, Copy, PartialEq, Eq)]
pub enum NextItem {
    /// Other entries of the segment; or the dialogue is over, and what follows does not matter.
    More,
    /// A quiet mark: its line number or 0, and its number in the trace.
    Mark { line: u64, number: u64 },
    /// The end of the trace.
    End,
    /// A fault of the trace's form, which ends the trace.
    Fault,
}

/// A dialogue with its entries, and all that the trace shows about it.
#[derive(Drop)]
pub struct Case {
    /// The options for it.
    pub rules: Rules,
    /// Its entries, in their order.
    pub entries: Vec<TraceEntry>,
    /// Its entry numbers in the segment, and its IDs.
    pub gathered: CompleteDialogue,
    /// The number of entries of the trace before the segment.
    pub before: u64,
    /// The item after its entries.
    pub next: NextItem,
    /// The ID that suggests that it continues a dialogue from before the last quiet mark.
    pub in_use: Option<InUse>,
    /// The number in the segment of the first unreadable entry that may belong to it.
    pub unread: Option<u64>,
    /// The number in the segment of the first entry after the directive `under way`.
    pub under_way: Option<u64>,
}

/// The verdict on a dialogue, and what it was judged by.
#[derive(Drop)]
pub struct JudgedDialogue<'a> {
    /// The entries that were judged.
    pub record: Record,
    /// The application context name that chose the table.
    pub context: Option<Vec<u8>>,
    /// The table, or None if there is none for the dialogue.
    pub table: Option<&'a NamedTable>,
    /// The result for each end, or None if there is no table.
    pub ends: Option<Ends>,
    /// The verdict on the judged ends.
    pub verdict: Verdict,
}

/// The options for dialogues.
#[derive(Clone, Copy)]
pub struct Rules {
    /// The end to judge, or None for both.
    pub of: Option<End>,
    /// True if none of a dialogue's messages is in transit when one of its IDs is used again.
    pub settled: bool,
    /// True if a dialogue that is open is inconclusive.
    pub complete: bool,
    /// True if an end that did not hear each message of its peer is inconclusive.
    pub heard: bool,
    /// True if a transaction ID is used once at most between two quiet marks.
    pub once: bool,
}

impl NextItem {
    /// Returns whether this is a quiet mark.
    fn is_mark(self) -> bool
        ensures { result ≡ is_marked (after_of self) }
    {
        matches!(self, NextItem::Mark { .. })
    }
}

impl Case {
    /// Returns its number, which is that of its first entry in the trace.
    pub fn number(&self) -> u64
        ensures { result ≡ number_of self.now }
    {
        let first = self.gathered.numbers.first().copied().unwrap_or(0);
        self.before.saturating_add(first)
    }

    /// Returns the number of the last earlier dialogue of the segment with one of its IDs, if there is one.
    pub fn earlier(&self) -> Option<u64>
        ensures { result ≡ earlier_of self.now }
    {
        match self.gathered.earlier {
            Some(earlier) => Some(self.before.saturating_add(earlier)),
            None => None,
        }
    }

    /// Returns whether it has more entries than are judged. A quiet mark after it counts as an entry.
    pub fn is_cut(&self) -> bool
        ensures { result ≡ is_long (dialogue_in self.now) }
    {
        self.entries.len() > MOST || (self.next.is_mark() && self.entries.len() == MOST)
    }

    /// Returns whether a quiet mark comes after its entries.
    pub fn is_marked(&self) -> bool
        ensures { result ≡ is_marked (dialogue_in self.now).after }
    {
        self.next.is_mark()
    }

    /// Returns whether one of its entries carries an ID.
    pub fn has_ids(&self) -> bool
        ensures { result ≡ (dialogue_in self.now).has_ids }
    {
        !self.gathered.a.is_empty() || !self.gathered.b.is_empty()
    }

    /// Returns whether the trace, or the segment, ends before the dialogue is over. With prearranged ends (Q.774 3.3)
    /// the transaction may have ended without a message before a quiet mark, so there the dialogue is not open.
    pub fn is_open(&self, table: Option<&NamedTable>) -> bool
        ensures { result ≡ is_open (dialogue_in self.now) (option_copied table.entry) }
    {
        if self.gathered.over.is_some() {
            return false;
        }
        match (self.next, table) {
            (NextItem::End, _) => true,
            (NextItem::Mark { .. }, Some(table)) => !table.table().prearranged(),
            (NextItem::Mark { .. }, None) => true,
            _ => false,
        }
    }

    /// Returns whether the quiet mark after its entries is judged: there is one, and it has fewer entries than are
    /// judged.
    fn has_judged_mark(&self) -> bool
        ensures { result ≡ is_marked (dialogue_in self.now).after
            && nat_lt (length (dialogue_in self.now).entries) most }
    {
        self.next.is_mark() && self.entries.len() < MOST
    }

    /// Returns the entries that are judged. Fails if memory runs out.
    fn record(&self, alloc: Global) -> Result<Record, AllocError>
        ensures few { IfOk result (λ made. length made.entries.items ≤ 100000) }
        ensures are { IfOk result (λ made. made.entries.items ≡ judged_entries (dialogue_in self.now)) }
    {
        let all = self.entries.as_slice();
        let mut entries = entries_of(alloc, &all[..MOST.min(all.len())])?;
        if self.has_judged_mark() {
            entries.push(Entry {
                side: None,
                place: 0,
                body: Body::Quiet,
            })?;
        }
        Ok(Record { entries })
    }

    /// Returns whether its first entry comes after the directive `under way`.
    fn is_after_directive(&self) -> bool
        ensures { result ≡ is_after_directive (dialogue_in self.now) }
    {
        match (self.under_way, self.gathered.numbers.first()) {
            (Some(from), Some(first)) => from <= *first,
            _ => false,
        }
    }

    /// Returns whether its Begin may have come before the trace, given the entries that are judged: its first entry is
    /// a message with a destination ID after the directive `under way`, and no earlier dialogue of the segment had one
    /// of its IDs.
    fn may_be_under_way(&self, entries: &[Entry]) -> bool
        ensures { result ≡ is_after_directive (dialogue_in self.now) && not (is_some self.now.gathered.earlier)
            && goes_to_one (slice_get entries.now 0) }
    {
        self.is_after_directive() && self.gathered.earlier.is_none() && goes_to_one(entries.first())
    }

    /// Returns the sender of its first entry if that is a Begin.
    fn begins(&self) -> Option<End>
        ensures { result ≡ begun_by (first_heading (dialogue_in self.now)) }
    {
        begins(&self.entries)
    }

    /// Returns the sender of its first entry if that is a Begin after the directive `under way`, unless the option
    /// `settled` is set.
    fn began(&self) -> Option<End>
        ensures { result ≡ began (question_in self.now) (dialogue_in self.now) }
    {
        if !self.rules.settled && self.is_after_directive() {
            self.begins()
        } else {
            None
        }
    }

    /// Returns whether one of its IDs was used before, and a message of the earlier use may have been in transit. With
    /// the option `settled`, no message was in transit if the dialogue begins with a Begin, and each such ID is firm:
    /// its owner had sent from it, or an earlier dialogue with it began after the directive `under way`.
    fn comes_again(&self) -> bool
        ensures { result ≡ comes_again (question_in self.now) (dialogue_in self.now) }
    {
        let is_settled = self.rules.settled && !self.gathered.unsettled;
        self.gathered.earlier.is_some() && !(is_settled && self.begins().is_some())
    }

    /// Returns the circumstances of the dialogue, given the entries that are judged and the choice of its table.
    fn circumstances(&self, entries: &[Entry], chosen: &ChosenTable) -> Circumstances
        requires are { entries.now ≡ judged_entries (dialogue_in self.now) }
        ensures { result ≡ circumstances (question_in self.now) (chosen_as chosen.now) (dialogue_in self.now) }
    {
        Circumstances {
            again: self.comes_again(),
            under_way: self.may_be_under_way(entries),
            early_mark: self.gathered.earlier.is_none() && self.in_use.is_some(),
            began: self.began(),
            unsure: chosen.unsure,
            unread_from: self.unread_from(),
            cut: self.is_cut(),
            open: self.rules.complete && self.is_open(chosen.table),
            heard: self.rules.heard,
        }
    }

    /// Returns the number of its first entry after the first unreadable entry that may belong to it, or the number of
    /// its entries if none comes after that one.
    fn unread_from(&self) -> Option<u64>
        ensures { result ≡ option_map (first_after self.now.gathered.numbers.items) self.now.unread }
    {
        match self.unread {
            Some(unread) => Some(count_up_to(&self.gathered.numbers, unread)),
            None => None,
        }
    }

    /// Returns whether it may continue after its segment: it is not over at a quiet mark and both ends sent entries of
    /// it, or it seems to continue a dialogue from before the last quiet mark itself.
    pub fn may_go_on(&self) -> bool
        ensures { result ≡ may_go_on (dialogue_in self.now) }
    {
        self.in_use.is_some()
            || (self.next.is_mark() && self.has_sent(End::A) && self.has_sent(End::B))
    }

    /// Returns whether an end sent one of its entries.
    fn has_sent(&self, end: End) -> bool
        ensures { result ≡ sends_one «end» self.now.entries.items }
    {
        for entry in &self.entries {
            if end.is(entry.sender) {
                return true;
            }
        }
        false
    }
}

/// Returns how many of these numbers are at most `most`.
fn count_up_to(numbers: &[u64], most: u64) -> u64
    ensures { result ≡ first_after numbers.now most }
{
    let mut count = 0;
    for number in numbers {
        if *number <= most {
            count += 1;
        }
    }
    count
}

/// Decodes these entries. Fails if memory runs out.
fn entries_of(alloc: Global, entries: &[TraceEntry]) -> Result<Vec<Entry>, AllocError>
    ensures { IfOk result (λ made. made.items ≡ map entry_of entries.now) }
{
    let mut made = Vec::new(alloc);
    for entry in entries {
        made.push(entry.entry(alloc)?)?;
    }
    Ok(made)
}

/// Returns whether this entry is a message with a destination ID.
fn goes_to_one(entry: Option<&Entry>) -> bool
    ensures { result ≡ goes_to_one (option_copied entry.entry) }
{
    match entry {
        Some(
            Entry {
                body: Body::Good(message),
                ..
            },
        ) => message.dtid().is_some(),
        _ => false,
    }
}

/// Returns the sender of the first of these entries if its heading is that of a Begin.
pub fn begins(entries: &[TraceEntry]) -> Option<End>
    ensures { result ≡ begun_by (option_map heading_in (slice_get entries.now 0)) }
{
    let heading = entries.first()?.heading();
    if heading.kind == Some(Form::Begin) {
        Some(heading.sender)
    } else {
        None
    }
}

impl JudgedDialogue<'_> {
    /// Returns the name of the table, if it has one.
    pub fn table_name(&self) -> Option<&str>
        ensures { option_map (λ s. s.now) result ≡ option_and_then (λ t. t.now.name) self.now.table }
    {
        match self.table {
            Some(table) => table.name(),
            None => None,
        }
    }
}

/// Returns how many entries of a record an end sent.
pub fn sent_by(record: &Record, end: End) -> usize
    ensures { result ≡ length (filter (λ entry. is_entry_of «end» entry.side) «record».now.entries.items) }
{
    record
        .entries
        .iter()
        .filter(|entry| entry.side == Some(end))
        .count()
}

/// Returns the result for each end. Leaves the entries as they are.
fn judge_ends(
    alloc: Global,
    sent: &[TraceEntry],
    read: &mut Record,
    table: &Table,
    circumstances: Circumstances,
) -> Result<Ends, AllocError>
    requires few { length read.old.entries.items ≤ 100000 }
    ensures said { IfOk result (λ ends. ends
        ≡ judged_ends table.now circumstances sent.now read.old.entries.items) }
    ensures stays { OnOk result (read.new.entries.items ≡ read.old.entries.items) }
{
    let ends = judge_dialogue(alloc, read, table, circumstances)?;
    let a = judge_reaction(alloc, sent, &read.entries, table, circumstances, End::A)?;
    let b = judge_reaction(alloc, sent, &read.entries, table, circumstances, End::B)?;
    Ok(Ends {
        a: a.unwrap_or(ends.a),
        b: b.unwrap_or(ends.b),
    })
}

/// Returns the result for each end, or None if there is no table. Leaves the entries as they are.
fn ends_of(
    alloc: Global,
    sent: &[TraceEntry],
    read: &mut Record,
    table: Option<&NamedTable>,
    circumstances: Circumstances,
) -> Result<Option<Ends>, AllocError>
    requires few { length read.old.entries.items ≤ 100000 }
    ensures said { IfOk result (λ ends. ends
        ≡ ends_by (option_map (λ table. table.now.table) table.entry) circumstances sent.now read.old.entries.items) }
    ensures stays { OnOk result (read.new.entries.items ≡ read.old.entries.items) }
{
    match table {
        Some(table) => Ok(Some(judge_ends(alloc, sent, read, table.table(), circumstances)?)),
        None => Ok(None),
    }
}

/// Returns the verdict on the judged ends.
fn verdict_of(ends: Option<Ends>, of: Option<End>) -> Verdict
    ensures { result ≡ verdict_by of ends }
{
    match ends {
        Some(ends) => ends.verdict(of),
        None => Verdict::Error,
    }
}

/// Judges a dialogue by the table that the book has for it.
///
/// # Errors
///
/// `AllocError` if memory runs out.
pub fn judge<'a>(
    alloc: Global,
    case: &Case,
    book: &'a Book,
) -> Result<JudgedDialogue<'a>, AllocError>
    ensures entries { IfOk result (λ judged. judged.record.entries.items ≡ judged_entries (dialogue_in case.now)) }
    ensures table { IfOk result
        (λ judged. option_copied judged.table ≡ (choice book.now (judged_entries (dialogue_in case.now))).table) }
    ensures context { IfOk result (λ judged. option_map (λ octets. octets.items) judged.context
        ≡ (choice book.now (judged_entries (dialogue_in case.now))).context) }
    ensures ends { IfOk result
        (λ judged. judged.ends ≡ ends_on book.now (question_in case.now) (dialogue_in case.now)) }
    ensures verdict { IfOk result
        (λ judged. judged.verdict ≡ verdict_on book.now (question_in case.now) (dialogue_in case.now)) }
{
    let mut record = case.record(alloc)?;
    let chosen = choose(alloc, book, &record.entries)?;
    let circumstances = case.circumstances(&record.entries, &chosen);
    let ends = ends_of(
        alloc,
        &case.entries,
        &mut record,
        chosen.table,
        circumstances,
    )?;
    Ok(JudgedDialogue {
        record,
        context: chosen.context,
        table: chosen.table,
        ends,
        verdict: verdict_of(ends, case.rules.of),
    })
}
