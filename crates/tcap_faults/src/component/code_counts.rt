//! The counts of operation codes.

ghost use Rattle.std.specs.Prelude.{◌≡◌, ◌||◌, true, false, Bool, OnOk};
ghost use Rattle.tcap_parts.specs.declared.code.Code.{Code};
ghost use Rattle.tcap_parts.specs.Meaning.{code_of};
ghost use Rattle.tcap_end.specs.Component.{is_code};
ghost use Rattle.tcap_refute.specs.KeptFacts.{holds, is_first};
ghost use Rattle.tcap_faults.specs.LinkProblems.{links_as};
ghost use Rattle.tcap_faults.specs.InvokeCounts.{more_if};
ghost use Rattle.tcap_faults.specs.TallyMeaning.{codes_any, count_of};

use crate::component::code_count_maps::ManyCodes;
use crate::component::linkable_operation::Linkable;
use crate::component::saturating_sum::more;
use std::alloc::{AllocError, Global};
use std::cell::Cell;
use tcap_end::Table;
use tcap_parts::CodeView;

/// The counts of operation codes. Most often there is one local code, which needs no allocation.
#[derive(Drop)]
pub(crate) struct CodeCounts {
    /// The first code, if it is local.
    pub(crate) first: Option<i32>,
    /// The count of the first code.
    pub(crate) times: u128,
    /// The other codes.
    pub(crate) others: Option<Box<ManyCodes>>,
}

impl CodeCounts {
    /// Creates counts of no codes, without an allocation.
    pub(crate) fn new() -> CodeCounts
        ensures counts { (code : Code) → count_of code result ≡ 0 }
        ensures codes { (passes : Code → Bool) → codes_any passes result ≡ false }
    {
        CodeCounts {
            first: None,
            times: 0,
            others: None,
        }
    }

    /// Returns whether this is the code `first`.
    fn is_first(&self, code: CodeView) -> bool
        ensures { result ≡ is_first (code_of code.entry) self.now.first }
    {
        match (code, self.first) {
            (CodeView::Local(local), Some(first)) => local == first,
            _ => false,
        }
    }

    /// Returns the count of a code.
    pub(crate) fn count(&self, code: CodeView) -> u128
        ensures { result ≡ count_of (code_of code.entry) self.now }
    {
        if self.is_first(code) {
            return self.times;
        }
        match &self.others {
            Some(others) => others.count(code),
            None => 0,
        }
    }

    /// Counts a code that is not the first. Fails if memory runs out.
    fn add_other(&mut self, alloc: Global, code: CodeView) -> Result<(), AllocError>
        requires { is_first (code_of code) self.old.first ≡ false }
        ensures counts { OnOk result ((other : Code) → count_of other self.new
            ≡ more_if (is_code other (code_of code.entry)) (count_of other self.old)) }
        ensures codes { OnOk result ((passes : Code → Bool) → codes_any passes self.new
            ≡ codes_any passes self.old || passes (code_of code.entry)) }
    {
        if let Some(others) = &mut self.others {
            return others.add(alloc, code);
        }
        let mut others = Box::new(alloc, ManyCodes::new(alloc))?;
        others.add(alloc, code)?;
        self.others = Some(others);
        Ok(())
    }

    /// Counts a code. Fails if memory runs out.
    pub(crate) fn add(&mut self, alloc: Global, code: CodeView) -> Result<(), AllocError>
        ensures counts { OnOk result ((other : Code) → count_of other self.new
            ≡ more_if (is_code other (code_of code.entry)) (count_of other self.old)) }
        ensures codes { OnOk result ((passes : Code → Bool) → codes_any passes self.new
            ≡ codes_any passes self.old || passes (code_of code.entry)) }
    {
        if self.is_first(code) {
            self.times = more(self.times, 1);
            return Ok(());
        }
        match (code, self.first, self.others.is_none()) {
            (CodeView::Local(local), None, true) => {
                self.first = Some(local);
                self.times = 1;
                Ok(())
            }
            _ => self.add_other(alloc, code),
        }
    }

    /// Returns whether a code was counted.
    pub(crate) fn counts_some(&self) -> bool
        ensures { result ≡ codes_any (λ code. true) self.now }
    {
        match (self.first, &self.others) {
            (Some(_), _) => true,
            (None, Some(others)) => !others.codes.is_empty(),
            (None, None) => false,
        }
    }

    /// Returns whether a counted operation may have linked what `linkable` describes.
    ///
    /// Sets `found` to the place of the first such operation.
    pub(crate) fn links_as(&self, table: &Table, linkable: Linkable, found: &Cell<usize>) -> bool
        ensures { result ≡ codes_any (links_as table.now linkable.entry) self.now }
    {
        if let Some(first) = self.first {
            if linkable.is_of(table, CodeView::Local(first)) {
                found.set(0);
                return true;
            }
        }
        match &self.others {
            Some(others) => others.links_as(table, linkable, found),
            None => false,
        }
    }

    /// Returns the code at a place, if there is one: `first` is at 0, and the others follow from 1 on.
    pub(crate) fn at(&self, place: usize) -> Option<CodeView<'_>>
        ensures { (passes : Code → Bool) → holds (λ code. passes (code_of code)) result ≡ true
            → codes_any passes self.now ≡ true }
    {
        match place.checked_sub(1) {
            Some(place) => Some(self.others.as_ref()?.codes.get(place)?.view()),
            None => Some(CodeView::Local(self.first?)),
        }
    }

    /// Returns whether the operation at a place may have linked what `linkable` describes.
    pub(crate) fn links_as_at(&self, table: &Table, linkable: Linkable, place: usize) -> bool
        ensures { result ≡ true → codes_any (links_as table.now linkable.entry) self.now ≡ true }
    {
        match self.at(place) {
            Some(to) => linkable.is_of(table, to),
            None => false,
        }
    }
}
