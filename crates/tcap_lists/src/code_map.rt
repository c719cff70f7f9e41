//! A map from operation codes to values.

ghost use Rattle.std.specs.Prelude.{◌≡◌, [], option_copied, is_some, IfOk, IsTrue, ◌↔◌};
ghost use Rattle.std.specs.Map.{lookup};
ghost use Rattle.std.specs.BTreeMap.{insert_entry, is_at};
ghost use Rattle.tcap_parts.specs.Meaning.{code_of};
ghost use Rattle.tcap_lists.specs.CodeMap.{code_cmp, coded, key_code};

use std::alloc::{AllocError, Global};
use std::collections::BTreeMap;
use tcap_parts::CodeView;

/// An operation code as a key.
#[derive(Debug, Drop)]
pub enum CodeKey {
    /// A local code.
    Local(i32),
    /// The octets of a global code.
    Global(Vec<u8>),
}

/// A map from operation codes to values. A lookup takes logarithmic time, and does not allocate.
#[derive(Debug, Drop)]
pub struct CodeMap<V> {
    locals: BTreeMap<i32, V>,
    globals: BTreeMap<Vec<u8>, V>,
}

impl<V> CodeMap<V> {
    /// Creates an empty map.
    pub fn new(alloc: Global) -> CodeMap<V>
        ensures { coded result ≡ [] }
    {
        CodeMap {
            locals: BTreeMap::new(alloc),
            globals: BTreeMap::new(alloc),
        }
    }

    /// Returns whether the map is empty.
    pub fn is_empty(&self) -> bool
        ensures { IsTrue result ↔ (coded self.now ≡ []) }
    {
        self.locals.is_empty() && self.globals.is_empty()
    }

    /// Returns the value of a code.
    pub fn get(&self, code: CodeView) -> Option<&V>
        ensures { option_copied result ≡ lookup (is_at (code_cmp (code_of code.entry))) (coded self.now) }
    {
        match code {
            CodeView::Local(local) => self.locals.get(&local),
            CodeView::Global(id) => self.globals.get(id.octets),
        }
    }

    /// Returns whether a code has a value.
    pub fn has(&self, key: &CodeKey) -> bool
        ensures { result ≡ is_some (lookup (is_at (code_cmp (key_code key.now))) (coded self.now)) }
    {
        match key {
            CodeKey::Local(local) => self.locals.contains_key(local),
            CodeKey::Global(octets) => self.globals.contains_key(octets.as_slice()),
        }
    }

    /// Sets the value of a code, and drops the earlier one.
    ///
    /// # Errors
    ///
    /// AllocError if memory runs out.
    pub fn insert(&mut self, key: CodeKey, value: V) -> Result<(), AllocError>
    where
        V: Drop,
        ensures { IfOk result (λ _. coded self.new ≡ insert_entry code_cmp (coded self.old) (key_code key) value) }
    {
        match key {
            CodeKey::Local(local) => {
                self.locals.insert(local, value)?;
            }
            CodeKey::Global(octets) => {
                self.globals.insert(octets, value)?;
            }
        }
        Ok(())
    }
}
