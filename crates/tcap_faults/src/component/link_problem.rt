//! The problems of a link that depend on the operation to which an Invoke is linked (Q.773 4.2.2).

ghost use Rattle.std.specs.Prelude.{◌≡◌};
ghost use Rattle.tcap_faults.specs.LinkProblems.{linkable_by};

use crate::component::linkable_operation::Linkable;
use tcap_parts::CodeView;

/// An invoke problem of a linked Invoke (Q.773 4.2.2).
#[derive(Clone, Copy)]
pub(crate) enum LinkProblem {
    /// linkedResponseUnexpected (6): the operation lists no linked operations.
    Response,
    /// unexpectedLinkedOperation (7): the operation lists others, but not that of the linked Invoke.
    Operation,
}

impl LinkProblem {
    /// Returns what the operation of the invocation may have linked, if a linked Invoke of `code` has this problem.
    pub(crate) fn linkable(self, code: CodeView<'_>) -> Linkable<'_>
        ensures { result ≡ linkable_by self code.entry }
    {
        match self {
            LinkProblem::Response => Linkable::Nothing,
            LinkProblem::Operation => Linkable::OtherThan(code),
        }
    }
}
