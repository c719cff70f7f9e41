//! The operation table: what a test bench knows of the operations (Q.771, operation classes).

ghost use Rattle.std.specs.Prelude.{◌≡◌, ◌≢◌, ◌<◌, ◌≤◌, Err, IfSome, is_some, option_copied};
ghost use Rattle.tcap_parts.specs.Meaning.{code_of};
ghost use Rattle.tcap_end.specs.Fault.{table_number_of};
ghost use Rattle.tcap_end.specs.Table.{class_of, expires_of, linked_of, operation_of};
ghost use Rattle.tcap_end.specs.Component.{links};
ghost use Rattle.tcap_end.specs.TableReading.{is_linked};
ghost use Rattle.tcap_end.specs.declared.table.TableReason.{TableReason};
ghost use Rattle.tcap_end.specs.TableText.{IsTableOf, table_fault};

use crate::table_text::read_table;
use std::alloc::{AllocError, Global};
use std::marker::Model;
use tcap_lists::CodeMap;
use tcap_parts::CodeView;

/// The reason why a text is not an operation table.
#[derive(Clone, Copy, Debug, PartialEq, Eq)]
pub enum TableReason {
    /// The text is not JSON (RFC 8259).
    NotJson,
    /// The object does not have the shape of a table, or a row does not have the shape of a row.
    TableShape,
    /// An earlier row has the same code.
    DoubleCode,
    /// A row's class is a whole number, but not 1 to 4.
    BadClass,
    /// The table has more than 1,000 rows, this profile's limit.
    TooManyRows,
    /// Memory ran out.
    Memory,
}

/// A fault of a table: the reason and its place.
#[derive(Clone, Copy, Debug, PartialEq, Eq)]
pub struct TableFault {
    /// The reason.
    pub reason: TableReason,
    /// The number of the faulty row, from 0; or 0 for a fault of the whole text.
    pub place: u64,
}

impl From<AllocError> for TableFault {
    ghost from_gives = { λ _ fault. fault ≡ table_fault TableReason.Memory 0 };

    fn from(_: AllocError) -> TableFault {
        TableFault {
            reason: TableReason::Memory,
            place: 0,
        }
    }
}

impl TableReason {
    /// Returns the number that the output prints for this reason.
    pub fn number(self) -> u8
        ensures { result ≡ table_number_of self }
    {
        match self {
            TableReason::NotJson => 30,
            TableReason::TableShape => 31,
            TableReason::DoubleCode => 32,
            TableReason::BadClass => 33,
            TableReason::TooManyRows => 34,
            TableReason::Memory => 99,
        }
    }
}

/// An operation: its class, its linked operations, and whether its invocations may expire in the record, by timer or
/// by the user's cancel.
#[derive(Debug, Drop)]
pub(crate) struct Operation {
    pub(crate) class: u8,
    pub(crate) linked: CodeMap<()>,
    pub(crate) expires: bool,
}

impl Model for Operation {
    ghost use Rattle.std.specs.Prelude.{◌<◌, ◌≤◌};
    ghost use Rattle.tcap_lists.specs.CodeMap.{coded};
    ghost use Rattle.tcap_end.specs.Table.{Operation as Meant};

    ghost Value = { Meant };

    ghost view = { λ a. record { class = a.class; linked = coded a.linked; expires = a.expires } };

    ghost invariant = { λ a. (0 < a.class) × (a.class ≤ 4) };
}

/// An operation table.
///
/// For each operation it has the class (Q.771), the linked operations, and whether invocations may expire in the
/// record, by timer or by the user's cancel. It also says whether transactions may end by prearrangement (Q.774 3.3).
/// A lookup takes time logarithmic in the number of operations.
#[derive(Debug, Drop)]
pub struct Table {
    pub(crate) operations: CodeMap<Operation>,
    pub(crate) prearranged: bool,
}

impl Model for Table {
    ghost use Rattle.tcap_lists.specs.CodeMap.{coded};
    ghost use Rattle.tcap_end.specs.Table.{Table as Meant};

    ghost Value = { Meant };

    ghost view = { λ a. record { operations = coded a.operations; prearranged = a.prearranged } };
}

impl Table {
    /// Reads a table from a JSON text, whose shape FORMAT.md describes.
    ///
    /// # Errors
    ///
    /// The first fault in this order: `NotJson`, `TableShape` of the whole, `TooManyRows`, and then row by row
    /// `TableShape`, `BadClass`, `DoubleCode`. `Memory` if memory runs out.
    pub fn from_json(alloc: Global, octets: &[u8]) -> Result<Table, TableFault>
        ensures { result ≢ Err (table_fault TableReason.Memory 0) → IsTableOf octets.now result }
    {
        read_table(alloc, octets)
    }

    /// Returns the class of an operation, 1 to 4, or `None` if the table does not have it.
    pub fn class_of(&self, code: CodeView) -> Option<u8>
        ensures exact { result ≡ class_of self.now (code_of code.entry) }
        ensures range { IfSome result (λ class. (0 < class) × (class ≤ 4)) }
    {
        Some(self.operations.get(code)?.class)
    }

    /// Returns the entry of an operation.
    fn operation(&self, code: CodeView) -> Option<&Operation>
        ensures { option_copied result ≡ operation_of self.now (code_of code.entry) }
    {
        self.operations.get(code)
    }

    /// Returns whether the table has the operation.
    pub(crate) fn has(&self, code: CodeView) -> bool
        ensures { result ≡ is_some (operation_of self.now (code_of code.entry)) }
    {
        self.operation(code).is_some()
    }

    /// Returns whether `linked` may be linked to `code` (Q.771 3.1); false if the table does not have `code`.
    pub fn links(&self, code: CodeView, linked: CodeView) -> bool
        ensures { result ≡ links self.now (code_of code.entry) (code_of linked.entry) }
    {
        match self.operation(code) {
            Some(operation) => operation.linked.get(linked).is_some(),
            None => false,
        }
    }

    /// Returns whether any operation may be linked to this one (Q.771 3.1).
    pub fn links_some(&self, code: CodeView) -> bool
        ensures { result ≡ is_linked (linked_of self.now (code_of code.entry)) }
    {
        match self.operation(code) {
            Some(operation) => !operation.linked.is_empty(),
            None => false,
        }
    }

    /// Returns whether an invocation of the operation may expire, by timer or by the user's cancel (Q.774 3.2).
    pub fn expires(&self, code: CodeView) -> bool
        ensures { result ≡ expires_of self.now (code_of code.entry) }
    {
        match self.operation(code) {
            Some(operation) => operation.expires,
            None => false,
        }
    }

    /// Returns whether transactions may end by prearrangement, without a message (Q.774 3.3).
    pub fn prearranged(&self) -> bool
        ensures { result ≡ self.now.prearranged }
    {
        self.prearranged
    }
}
