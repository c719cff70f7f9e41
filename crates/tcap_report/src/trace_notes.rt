//! What a trace notes of an entry and of a dialogue.

ghost use Rattle.std.specs.BTreeMap as tree;
ghost use Rattle.std.specs.List.{filter_map, list_any};
ghost use Rattle.std.specs.List.Sorted.{IsNonDecreasing, IsStrictlySortedBy};
ghost use Rattle.std.specs.Ordering.{nat_cmp};
ghost use Rattle.std.specs.Prelude.{◌≡◌, ◌==◌, ◌&&◌, ℕ, cond, false, is_some, not, option_map, slice_get, IfOk};
ghost use Rattle.tcap_dialogues.specs.Course.{is_continue};
ghost use Rattle.tcap_dialogues.specs.HeadingReading.{heading_read};
ghost use Rattle.tcap_traces.specs.declared.case.NextItem.TheVariants as items;
ghost use Rattle.tcap_traces.specs.Case.{question_by, unread_by};
ghost use Rattle.tcap_traces.specs.Dialogue.{heading_in};
ghost use Rattle.tcap_traces.specs.IdsBeforeMarks.{is_sent_to};
ghost use Rattle.tcap_traces.specs.Segments.{is_under_way};
ghost use Rattle.tcap_traces.specs.UnreadableEntries.{notes_in};
ghost use Rattle.tcap_report.specs.KeptState.{asked_of};
ghost use Rattle.tcap_report.specs.NotedCase.{is_in_use_by};

use crate::trace::Trace;
use std::alloc::AllocError;
use tcap_dialogues::{CompleteDialogue, HeadingView, Reuse};
use tcap_msg::Kind as Form;
use tcap_traces::{Case, InUse, NextItem, Rules, TraceEntry, begins};

impl Trace<'_> {
    /// Returns whether the next entry comes after the directive `under way`.
    fn is_under_way(&self) -> bool
        ensures { result ≡ is_under_way self.now.under_way self.now.count }
    {
        match self.under_way {
            Some(first) => first <= self.count,
            None => false,
        }
    }

    /// Returns the heading of an entry, with what the trace before it says.
    pub(crate) fn heading_of<'o>(&self, entry: &'o TraceEntry) -> HeadingView<'o>
        ensures { heading_read result ≡ record (heading_in entry.now) {
          under_way = is_under_way self.now.under_way self.now.count;
          known = is_continue (heading_in entry.now).kind && is_sent_to self.now.marks (heading_in entry.now);
        } }
    {
        let heading = entry.heading();
        HeadingView {
            under_way: self.is_under_way(),
            known: heading.kind == Some(Form::Continue) && self.marks.sent_to(heading).is_some(),
            ..heading
        }
    }

    /// Returns the ID that suggests that a dialogue with these entries continues one from before the last quiet mark.
    /// None if one of its IDs was used before in its segment.
    fn in_use(&self, gathered: &CompleteDialogue, entries: &[TraceEntry]) -> Option<InUse>
        ensures { is_some result
            ≡ is_in_use_by self.now.marks gathered.now (option_map heading_in (slice_get entries.now 0)) }
    {
        if gathered.earlier.is_some() {
            return None;
        }
        self.marks.in_use(entries.first()?.heading(), gathered)
    }

    /// Returns the number of the first unreadable entry that may belong to a dialogue with these entries. It is one
    /// after the dialogue's first entry, or any of the segment if the first entry is no Begin. None if no entry of the
    /// dialogue carries an ID.
    fn unread_for(&self, gathered: &CompleteDialogue, entries: &[TraceEntry]) -> Option<u64>
        ensures { IsNonDecreasing (notes_in self.now.unread).0 → result
            ≡ unread_by (notes_in self.now.unread).0 gathered.now (option_map heading_in (slice_get entries.now 0)) }
    {
        if gathered.a.is_empty() && gathered.b.is_empty() {
            return None;
        }
        match begins(entries) {
            Some(_) => self.unread.first_after(gathered.numbers.first().copied()),
            None => self.unread.first_after(None),
        }
    }

    /// Returns the options for the trace's dialogues.
    fn rules(&self) -> Rules
        ensures { question_by result ≡ (asked_of self.now.options).question }
    {
        Rules {
            of: self.options.of,
            settled: self.options.settled,
            complete: self.options.complete,
            heard: self.options.heard,
            once: self.options.reuse == Reuse::Once,
        }
    }

    /// Takes the entries of a dialogue out of those that wait.
    fn taken(&mut self, gathered: &CompleteDialogue) -> Result<Vec<TraceEntry>, AllocError>
        ensures those { IsStrictlySortedBy nat_cmp gathered.now.numbers.items → IfOk result (λ entries. entries.items
            ≡ filter_map (tree.get nat_cmp self.old.held) gathered.now.numbers.items) }
        ensures others { (n : ℕ) → list_any (λ i. i == n) gathered.now.numbers.items ≡ false
            → tree.get nat_cmp self.new.held n ≡ tree.get nat_cmp self.old.held n }
        ensures rest { self.new ≡ record self.old { held = self.new.held } }
    {
        let mut entries = Vec::new(self.alloc);
        for number in &gathered.numbers {
            if let Some(held) = self.held.remove(number) {
                entries.push(held)?;
            }
        }
        Ok(entries)
    }

    /// Takes the held entries of a dialogue, and returns the dialogue with them and with all that the trace shows about
    /// it. Unless the dialogue is over, `next` comes after it.
    pub(crate) fn case_of(
        &mut self,
        gathered: CompleteDialogue,
        next: NextItem,
    ) -> Result<Case, AllocError>
        ensures is { IfOk result (λ case. (case.gathered ≡ gathered)
            × (case.next ≡ cond (is_some gathered.over) items.More next)
            × (question_by case.rules ≡ (asked_of self.old.options).question)
            × (case.under_way ≡ self.old.under_way)) }
        ensures entries { IsStrictlySortedBy nat_cmp gathered.numbers.items → IfOk result (λ case. case.entries.items
            ≡ filter_map (tree.get nat_cmp self.old.held) gathered.numbers.items) }
        ensures in_use { IfOk result (λ case. is_some case.in_use
            ≡ is_in_use_by self.old.marks gathered (option_map heading_in (slice_get case.entries.items 0))) }
        ensures unread { IsNonDecreasing (notes_in self.old.unread).0 → IfOk result (λ case. case.unread
            ≡ unread_by (notes_in self.old.unread).0 gathered
            (option_map heading_in (slice_get case.entries.items 0))) }
        ensures others { (n : ℕ) → list_any (λ i. i == n) gathered.numbers.items ≡ false
            → tree.get nat_cmp self.new.held n ≡ tree.get nat_cmp self.old.held n }
        ensures rest { self.new ≡ record self.old { held = self.new.held } }
    {
        let entries = self.taken(&gathered)?;
        Ok(Case {
            rules: self.rules(),
            in_use: self.in_use(&gathered, &entries),
            unread: self.unread_for(&gathered, &entries),
            entries,
            before: self.before,
            next: if gathered.over.is_some() {
                NextItem::More
            } else {
                next
            },
            under_way: self.under_way,
            gathered,
        })
    }
}
