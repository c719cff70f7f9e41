//! The names of the operations of a table.

ghost use Rattle.std.specs.Prelude.{◌≡◌, ◌∷◌, [], ◌++◌, OnOk, option_map, string_bytes};
ghost use Rattle.std.specs.Map.{lookup};
ghost use Rattle.std.specs.BTreeMap.{is_at};
ghost use Rattle.tcap_parts.specs.Meaning.{code_of};
ghost use Rattle.tcap_end.specs.Table.{code_cmp};

use std::alloc::{AllocError, Global};
use std::marker::Model;
use tcap_parts::{Code, CodeView};

/// The name of an operation.
#[derive(Debug, Drop)]
struct OperationName {
    code: Code,
    name: String,
}

impl Model for OperationName {
    ghost use Rattle.std.specs.Prelude.{ℕ, List, string_bytes};
    ghost use Rattle.tcap_parts.specs.declared.code.Code.{Code};

    ghost Value = { Code × List ℕ };

    ghost view = { λ a. (a.code, string_bytes a.name) };
}

/// The names of operations, in the order of their rows.
#[derive(Debug, Drop)]
pub(crate) struct Names {
    names: Vec<OperationName>,
}

impl Model for Names {
    ghost use Rattle.std.specs.Prelude.{ℕ, List};
    ghost use Rattle.tcap_parts.specs.declared.code.Code.{Code};

    ghost Value = { List (Code × List ℕ) };

    ghost view = { λ a. a.names.items };
}

/// Returns whether a name belongs to the operation with this code.
fn is_of(name: &OperationName, code: CodeView) -> bool
    ensures { result ≡ is_at (code_cmp (code_of code.entry)) name.now.0 }
{
    match (code, &name.code) {
        (CodeView::Local(local), Code::Local(other)) => local.cmp(other).is_eq(),
        (CodeView::Global(id), Code::Global(other)) => id.octets.cmp(other.octets()).is_eq(),
        _ => false,
    }
}

impl Names {
    /// Creates an empty list of names.
    pub(crate) fn new(alloc: Global) -> Names
        ensures { result ≡ [] }
    {
        Names {
            names: Vec::new(alloc),
        }
    }

    /// Appends a name.
    pub(crate) fn push(&mut self, code: Code, name: String) -> Result<(), AllocError>
        ensures { OnOk result (self.new ≡ self.old ++ (code, string_bytes name) ∷ []) }
    {
        self.names.push(OperationName { code, name })?;
        Ok(())
    }

    /// Returns the first name of the operation with this code. Searches all names.
    pub(crate) fn name_of(&self, code: CodeView) -> Option<&str>
        ensures { option_map (λ s. s.now) result ≡ lookup (is_at (code_cmp (code_of code.entry))) self.now }
    {
        for name in &self.names {
            if is_of(name, code) {
                return Some(name.name.as_str());
            }
        }
        None
    }
}
