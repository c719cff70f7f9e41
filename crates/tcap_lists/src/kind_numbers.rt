//! Guesses of the numbers of kinds, by operation codes.

ghost use Rattle.std.specs.Prelude.{◌<◌};

use crate::code_map::{CodeKey, CodeMap};
use std::alloc::{AllocError, Global};
use tcap_parts::CodeView;

/// The most sorts of kinds that one operation code may have.
pub const SORTS: usize = 8;

/// For each operation code, a number for each sort of kind. It is only a guess that saves a search, so each use checks
/// it.
#[derive(Debug, Drop)]
pub(crate) struct KindNumbers {
    of_codes: CodeMap<[usize; SORTS]>,
}

impl KindNumbers {
    /// Creates an empty map.
    pub(crate) fn new(alloc: Global) -> KindNumbers {
        KindNumbers {
            of_codes: CodeMap::new(alloc),
        }
    }

    /// Returns the number for a code and a sort.
    pub(crate) fn get(&self, code: CodeView, sort: usize) -> Option<usize>
        requires { sort < SORTS }
    {
        let numbers = self.of_codes.get(code)?;
        Some(numbers[sort])
    }

    /// Sets the number for a code and a sort.
    pub(crate) fn put(
        &mut self,
        alloc: Global,
        code: CodeView,
        sort: usize,
        number: usize,
    ) -> Result<(), AllocError>
        requires { sort < SORTS }
    {
        let mut numbers = match self.of_codes.get(code) {
            Some(numbers) => *numbers,
            None => [usize::MAX; SORTS],
        };
        numbers[sort] = number;
        let key = match code {
            CodeView::Local(local) => CodeKey::Local(local),
            CodeView::Global(id) => CodeKey::Global(Vec::from_slice(alloc, id.octets)?),
        };
        self.of_codes.insert(key, numbers)
    }
}
