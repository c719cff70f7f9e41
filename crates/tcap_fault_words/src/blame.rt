//! A blame, and what was found for it.

use tcap_books::NamedTable;
use tcap_evidence::Evidence;
use tcap_record::{End, Record};
use tcap_refute::Refutation;

/// A blame on an end of a dialogue, and what was found for it.
#[derive(Clone, Copy)]
pub struct Blame<'a> {
    /// The entries of the dialogue.
    pub record: &'a Record,
    /// The octets of the entry at fault. None if it is a quiet mark.
    pub octets: &'a [u8],
    /// The operation table of the dialogue.
    pub table: Option<&'a NamedTable>,
    /// The end that is blamed.
    pub end: End,
    /// The entry at fault, and the kind of the fault.
    pub at: Refutation,
    /// The entries that show the fault.
    pub found: Option<&'a Evidence>,
}
