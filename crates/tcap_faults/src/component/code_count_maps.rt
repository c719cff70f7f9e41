//! The counts of many operation codes.

ghost use Rattle.tcap_faults.specs.CountedCodes.{AreListed};

use crate::component::linkable_operation::Linkable;
use crate::component::saturating_sum::more;
use std::alloc::{AllocError, Global};
use std::cell::Cell;
use std::collections::BTreeMap;
use tcap_ber::ObjectIdView;
use tcap_end::Table;
use tcap_parts::{Code, CodeView};

/// The counts of local and global operation codes.
#[derive(Drop)]
pub(crate) struct ManyCodes {
    pub(crate) locals: BTreeMap<i32, u128>,
    /// The counts of global codes, by their octets.
    pub(crate) globals: BTreeMap<Vec<u8>, u128>,
    /// Each code that was counted, once.
    pub(crate) codes: Vec<Code>,
    ghost listed: { AreListed locals.entries globals.entries codes.items },
}

impl ManyCodes {
    ghost use Rattle.std.specs.Prelude.{◌≡◌, ◌||◌, [], Bool, OnOk};
    ghost use Rattle.std.specs.List.{list_any};
    ghost use Rattle.tcap_parts.specs.declared.code.Code.{Code as Coded};
    ghost use Rattle.tcap_parts.specs.declared.code.Code.TheVariants.{Local, Global as GlobalCode};
    ghost use Rattle.tcap_parts.specs.Meaning.{code_of};
    ghost use Rattle.tcap_end.specs.Component.{is_code};
    ghost use Rattle.tcap_faults.specs.LinkProblems.{links_as};
    ghost use Rattle.tcap_faults.specs.InvokeCounts.{more_if};
    ghost use Rattle.tcap_faults.specs.TallyMeaning.{count_among};

    /// Creates counts of no codes.
    pub(crate) fn new(alloc: Global) -> ManyCodes
        ensures counts { (code : Coded) → count_among code result ≡ 0 }
        ensures codes { result.codes.items ≡ [] }
    {
        ManyCodes {
            locals: BTreeMap::new(alloc),
            globals: BTreeMap::new(alloc),
            codes: Vec::new(alloc),
        }
    }

    /// Returns the count of a code.
    pub(crate) fn count(&self, code: CodeView) -> u128
        ensures { result ≡ count_among (code_of code.entry) self.now }
    {
        let count = match code {
            CodeView::Local(local) => self.locals.get(&local),
            CodeView::Global(id) => self.globals.get(id.octets),
        };
        match count {
            Some(count) => *count,
            None => 0,
        }
    }

    /// Counts a local code. Fails if memory runs out.
    fn add_local(&mut self, local: i32) -> Result<(), AllocError>
        ensures counts { OnOk result ((other : Coded) → count_among other self.new
            ≡ more_if (is_code other (Local local)) (count_among other self.old)) }
        ensures codes { OnOk result ((passes : Coded → Bool) → list_any passes self.new.codes.items
            ≡ list_any passes self.old.codes.items || passes (Local local)) }
    {
        match self.locals.get_mut(&local) {
            Some(count) => *count = more(*count, 1),
            None => {
                self.codes.push(Code::Local(local))?;
                self.locals.insert(local, 1)?;
            }
        }
        Ok(())
    }

    /// Counts a global code. Fails if memory runs out.
    fn add_global(&mut self, alloc: Global, id: ObjectIdView) -> Result<(), AllocError>
        ensures counts { OnOk result ((other : Coded) → count_among other self.new
            ≡ more_if (is_code other (GlobalCode id.entry.octets.now)) (count_among other self.old)) }
        ensures codes { OnOk result ((passes : Coded → Bool) → list_any passes self.new.codes.items
            ≡ list_any passes self.old.codes.items || passes (GlobalCode id.entry.octets.now)) }
    {
        match self.globals.get_mut(id.octets) {
            Some(count) => *count = more(*count, 1),
            None => {
                self.codes.push(Code::Global(id.to_object_id(alloc)?))?;
                self.globals.insert(Vec::from_slice(alloc, id.octets)?, 1)?;
            }
        }
        Ok(())
    }

    /// Counts a code. Fails if memory runs out.
    pub(crate) fn add(&mut self, alloc: Global, code: CodeView) -> Result<(), AllocError>
        ensures counts { OnOk result ((other : Coded) → count_among other self.new
            ≡ more_if (is_code other (code_of code.entry)) (count_among other self.old)) }
        ensures codes { OnOk result ((passes : Coded → Bool) → list_any passes self.new.codes.items
            ≡ list_any passes self.old.codes.items || passes (code_of code.entry)) }
    {
        match code {
            CodeView::Local(local) => self.add_local(local),
            CodeView::Global(id) => self.add_global(alloc, id),
        }
    }

    /// Returns whether a counted operation may have linked what `linkable` describes.
    ///
    /// Sets `found` to the place of the first such operation, in the numbering of `CodeCounts::at`.
    pub(crate) fn links_as(&self, table: &Table, linkable: Linkable, found: &Cell<usize>) -> bool
        ensures { result ≡ list_any (links_as table.now linkable.entry) self.now.codes.items }
    {
        for (place, to) in self.codes.iter().enumerate() {
            if linkable.is_of(table, to.view()) {
                found.set(place + 1);
                return true;
            }
        }
        false
    }
}
