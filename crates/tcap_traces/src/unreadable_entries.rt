//! The entries of a segment whose kind and IDs can't be read.

ghost use Rattle.std.specs.Prelude.{◌≡◌, [], true, OnOk, Some};
ghost use Rattle.std.specs.List.Sorted.{IsNonDecreasing};
ghost use Rattle.tcap_dialogues.specs.HeadingReading.{heading_read};
ghost use Rattle.tcap_traces.specs.Segments.{is_unreadable};
ghost use Rattle.tcap_traces.specs.UnreadableEntries.{after_entry, first_above, notes_in};

use std::alloc::{AllocError, Global};
use tcap_dialogues::HeadingView;
use tcap_msg::Kind as Form;

/// The numbers of the unreadable entries of a segment, as far as a dialogue may need them: one for each run of entries
/// in which no dialogue with IDs begins.
#[derive(Drop)]
pub struct Unread {
    // Ascending.
    numbers: Vec<u64>,
    // True if a dialogue with IDs began since the last unreadable entry, or if there is no such entry yet.
    has_begun: bool,
}

/// Returns whether an entry carries no transaction ID and is no Unidirectional, so that it may belong to any dialogue.
fn is_unreadable(heading: HeadingView) -> bool
    ensures { result ≡ is_unreadable (heading_read heading.entry) }
{
    heading.otid.is_none()
        && heading.dtid.is_none()
        && !matches!(heading.kind, Some(Form::Unidirectional))
}

/// Returns the first of these ascending numbers that is above `number`.
fn first_above(numbers: &[u64], number: u64) -> Option<u64>
    ensures { IsNonDecreasing numbers.now → result ≡ first_above (Some number) numbers.now }
{
    match &numbers[numbers.partition_point(|other| *other <= number)..] {
        [first, ..] => Some(*first),
        [] => None,
    }
}

impl Unread {
    /// Creates the list of a segment without entries.
    pub fn new(alloc: Global) -> Unread
        ensures { notes_in result ≡ ([], true) }
    {
        Unread {
            numbers: Vec::new(alloc),
            has_begun: true,
        }
    }

    /// Notes the next entry. `begins`: it is the first entry of a dialogue with IDs. Fails if memory runs out.
    pub fn note(
        &mut self,
        number: u64,
        heading: HeadingView,
        begins: bool,
    ) -> Result<(), AllocError>
        ensures { OnOk result (notes_in self.new
            ≡ after_entry number (is_unreadable (heading_read heading.entry)) begins (notes_in self.old)) }
    {
        if begins {
            self.has_begun = true;
        } else if is_unreadable(heading) && self.has_begun {
            self.numbers.push(number)?;
            self.has_begun = false;
        }
        Ok(())
    }

    /// Returns the first unreadable entry after entry `number`, or the first of all if there is no number.
    pub fn first_after(&self, number: Option<u64>) -> Option<u64>
        ensures { IsNonDecreasing self.now.numbers.items → result ≡ first_above number self.now.numbers.items }
    {
        match number {
            Some(number) => first_above(&self.numbers, number),
            None => self.numbers.first().copied(),
        }
    }
}
