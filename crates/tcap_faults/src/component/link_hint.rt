//! A hint: the linked Invoke that was last found to have a problem.

use std::cell::Cell;

/// The linked Invoke that was last found to have a problem.
///
/// This is a hint for speed alone. No contract mentions it, and each reader checks that the Invoke still has the
/// problem.
#[derive(Drop)]
pub(crate) struct FoundLink {
    /// Its linked ID.
    pub(crate) linked: Cell<i8>,
    /// The place of its operation, among the operations of Invokes with this linked ID.
    pub(crate) code: Cell<usize>,
    /// The place of the operation to which it is linked, among the operations of the invocations with the linked ID.
    pub(crate) operation: Cell<usize>,
}

impl FoundLink {
    /// Creates a hint before anything was found.
    pub(crate) fn new() -> FoundLink {
        FoundLink {
            linked: Cell::new(0),
            code: Cell::new(0),
            operation: Cell::new(0),
        }
    }
}
