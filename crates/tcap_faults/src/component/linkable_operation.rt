//! The operations that may be linked to an operation (Q.771 3.1).

ghost use Rattle.std.specs.Prelude.{◌≡◌};
ghost use Rattle.tcap_parts.specs.Meaning.{code_of};
ghost use Rattle.tcap_faults.specs.LinkProblems.{links_as};

use tcap_end::Table;
use tcap_parts::CodeView;

/// A condition on the linked operations of an operation (Q.771 3.1).
#[derive(Clone, Copy)]
pub(crate) enum Linkable<'a> {
    /// It lists this operation.
    This(CodeView<'a>),
    /// It lists none.
    Nothing,
    /// It lists others, but not this operation.
    OtherThan(CodeView<'a>),
}

impl Linkable<'_> {
    /// Returns whether the condition holds for the operation `to`.
    pub(crate) fn is_of(self, table: &Table, to: CodeView) -> bool
        ensures { result ≡ links_as table.now self.entry (code_of to.entry) }
    {
        match self {
            Linkable::This(code) => table.links(to, code),
            Linkable::Nothing => !table.links_some(to),
            Linkable::OtherThan(code) => table.links_some(to) && !table.links(to, code),
        }
    }
}
