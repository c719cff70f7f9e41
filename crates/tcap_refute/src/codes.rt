//! Sets of operation codes.

ghost use Rattle.std.specs.Prelude.{◌≡◌, ◌||◌, false, OnOk};
ghost use Rattle.tcap_parts.specs.declared.code.Code.{Code};
ghost use Rattle.tcap_parts.specs.Meaning.{code_of};
ghost use Rattle.tcap_end.specs.Component.{is_code};
ghost use Rattle.tcap_refute.specs.KeptFacts.{has_code, is_among, is_first};

use std::alloc::{AllocError, Global};
use std::collections::BTreeSet;
use tcap_parts::CodeView;

/// Local and global operation codes.
#[derive(Debug, Drop)]
pub(crate) struct CodeSets {
    pub(crate) locals: BTreeSet<i32>,
    /// The octets of global codes.
    pub(crate) globals: BTreeSet<Vec<u8>>,
}

/// A set of operation codes. Most sets have one local code, which needs no allocation.
#[derive(Debug, Drop)]
pub(crate) struct Codes {
    /// The first local code.
    pub(crate) first: Option<i32>,
    /// The other codes.
    pub(crate) others: Option<Box<CodeSets>>,
}

impl CodeSets {
    /// Creates an empty set.
    fn new(alloc: Global) -> CodeSets
        ensures { (code : Code) → is_among code result ≡ false }
    {
        CodeSets {
            locals: BTreeSet::new(alloc),
            globals: BTreeSet::new(alloc),
        }
    }

    /// Returns whether the code is in the set.
    fn has(&self, code: CodeView) -> bool
        ensures { result ≡ is_among (code_of code.entry) self.now }
    {
        match code {
            CodeView::Local(local) => self.locals.contains(&local),
            CodeView::Global(id) => self.globals.contains(id.octets),
        }
    }

    /// Adds a code. Fails if memory runs out.
    fn add(&mut self, alloc: Global, code: CodeView) -> Result<(), AllocError>
        ensures { OnOk result ((other : Code) → is_among other self.new
            ≡ is_among other self.old || is_code other (code_of code.entry)) }
    {
        match code {
            CodeView::Local(local) => self.locals.insert(local)?,
            CodeView::Global(id) => self.globals.insert(Vec::from_slice(alloc, id.octets)?)?,
        };
        Ok(())
    }
}

impl Codes {
    /// Creates an empty set, without an allocation.
    pub(crate) fn new() -> Codes
        ensures { (code : Code) → has_code code result ≡ false }
    {
        Codes {
            first: None,
            others: None,
        }
    }

    /// Returns whether this is the first local code.
    fn is_first(&self, code: CodeView) -> bool
        ensures { result ≡ is_first (code_of code.entry) self.now.first }
    {
        match (code, self.first) {
            (CodeView::Local(local), Some(first)) => local == first,
            _ => false,
        }
    }

    /// Returns whether the code is in the set.
    pub(crate) fn has(&self, code: CodeView) -> bool
        ensures { result ≡ has_code (code_of code.entry) self.now }
    {
        if self.is_first(code) {
            return true;
        }
        match &self.others {
            Some(others) => others.has(code),
            None => false,
        }
    }

    /// Adds a code to the others. Fails if memory runs out.
    fn add_other(&mut self, alloc: Global, code: CodeView) -> Result<(), AllocError>
        ensures { OnOk result ((other : Code) → has_code other self.new
            ≡ has_code other self.old || is_code other (code_of code.entry)) }
    {
        if let Some(others) = &mut self.others {
            return others.add(alloc, code);
        }
        let mut others = Box::new(alloc, CodeSets::new(alloc))?;
        others.add(alloc, code)?;
        self.others = Some(others);
        Ok(())
    }

    /// Adds a code. Fails if memory runs out.
    pub(crate) fn add(&mut self, alloc: Global, code: CodeView) -> Result<(), AllocError>
        ensures { OnOk result ((other : Code) → has_code other self.new
            ≡ has_code other self.old || is_code other (code_of code.entry)) }
    {
        match (code, self.first) {
            (CodeView::Local(local), None) => {
                self.first = Some(local);
                Ok(())
            }
            _ if self.is_first(code) => Ok(()),
            _ => self.add_other(alloc, code),
        }
    }
}
