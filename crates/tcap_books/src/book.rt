//! A book (a table set): operation tables, the dialogues to which each applies, and the names of operations.

ghost use Rattle.std.specs.Prelude.{◌≡◌, ◌∷◌, [], ◌++◌, None, OnOk, OnErr, option_copied, option_map};
ghost use Rattle.std.specs.List.{list_any};
ghost use Rattle.std.specs.Str.{bytes_eq};
ghost use Rattle.std.specs.String.{string_bytes};
ghost use Rattle.tcap_parts.specs.Meaning.{code_of};
ghost use Rattle.tcap_books.specs.Book.{best, clash, first_without, fit, is_ambiguous, is_better, name_of, pair_words, share_context, sharer, sole, table_fit, table_of, table_words, words_at};

use crate::names::Names;
use std::alloc::{AllocError, Global};
use std::marker::Model;
use tcap_end::Table;
use tcap_parts::CodeView;

/// A prefix of application context names, as content octets of an OBJECT IDENTIFIER.
#[derive(Debug, Drop)]
pub struct Context {
    pub(crate) octets: Vec<u8>,
}

impl Model for Context {
    ghost use Rattle.std.specs.Prelude.{ℕ, List};

    ghost Value = { List ℕ };

    ghost view = { λ a. a.octets.items };
}

/// A table of a book: its name, its contexts, its operations, and their names.
#[derive(Debug, Drop)]
pub struct NamedTable {
    pub(crate) name: Option<String>,
    pub(crate) contexts: Vec<Context>,
    pub(crate) table: Table,
    pub(crate) names: Names,
}

impl Model for NamedTable {
    ghost use Rattle.std.specs.Prelude.{option_map, string_bytes};
    ghost use Rattle.tcap_books.specs.Book.{NamedTable as Meant};

    ghost Value = { Meant };

    ghost view = { λ a. record {
      name = option_map string_bytes a.name;
      contexts = a.contexts.items;
      table = a.table;
      names = a.names;
    } };
}

/// The tables of a book, in the order of its text.
#[derive(Debug, Drop)]
pub struct Book {
    pub(crate) tables: Vec<NamedTable>,
}

impl Model for Book {
    ghost use Rattle.std.specs.Prelude.{List};
    ghost use Rattle.tcap_books.specs.Book.{NamedTable as Meant};

    ghost Value = { List Meant };

    ghost view = { λ a. a.tables.items };
}

impl Context {
    /// Returns the octets.
    pub fn octets(&self) -> &[u8]
        ensures { result.now ≡ self.now }
    {
        self.octets.as_slice()
    }
}

impl NamedTable {
    /// Returns the name of the table, if it has one.
    pub fn name(&self) -> Option<&str>
        ensures { option_map (λ s. s.now) result ≡ self.now.name }
    {
        match &self.name {
            Some(name) => Some(name.as_str()),
            None => None,
        }
    }

    /// Appends the words for this table: the number, and the name if it has one.
    ///
    /// # Errors
    ///
    /// AllocError if memory runs out.
    pub fn push_words(&self, text: &mut String, number: usize) -> Result<(), AllocError>
        ensures { OnOk result (string_bytes text.new ≡ string_bytes text.old ++ table_words number self.now) }
    {
        write!(text, "table {number}")?;
        match &self.name {
            Some(name) => write!(text, " ({name})"),
            None => Ok(()),
        }
    }

    /// Returns the contexts of the table: prefixes of the application context names of its dialogues, in the order of
    /// the text.
    pub fn contexts(&self) -> &[Context]
        ensures { result.now ≡ self.now.contexts }
    {
        self.contexts.as_slice()
    }

    /// Returns the operations.
    pub fn table(&self) -> &Table
        ensures { result.now ≡ self.now.table }
    {
        &self.table
    }

    /// Returns the name of an operation, if it has one. Searches all names.
    pub fn name_of(&self, code: CodeView) -> Option<&str>
        ensures { option_map (λ s. s.now) result ≡ name_of self.now (code_of code.entry) }
    {
        self.names.name_of(code)
    }
}

/// Returns the length of a context, if it is a prefix of the requested one.
fn fit(asked: &[u8], context: &[u8]) -> Option<usize>
    ensures { result ≡ fit asked.now context.now }
{
    if asked.starts_with(context) {
        Some(context.len())
    } else {
        None
    }
}

/// Returns whether the first fit is better.
fn is_better(a: Option<usize>, b: Option<usize>) -> bool
    ensures { result ≡ is_better a b }
{
    match (a, b) {
        (None, _) => false,
        (Some(_), None) => true,
        (Some(n), Some(m)) => m < n,
    }
}

/// Returns the best fit among the contexts of a table.
fn table_fit(asked: &[u8], table: &NamedTable) -> Option<usize>
    ensures { result ≡ table_fit asked.now table.now }
{
    let mut best = None;
    for context in &table.contexts {
        let now = fit(asked, &context.octets);
        if is_better(now, best) {
            best = now;
        }
    }
    best
}

/// Returns the first table with the best fit.
fn best<'a>(asked: &[u8], tables: &'a [NamedTable]) -> Option<&'a NamedTable>
    ensures { option_copied result ≡ best asked.now None None tables.now }
{
    let mut least = None;
    let mut found = None;
    for table in tables {
        let now = table_fit(asked, table);
        if is_better(now, least) {
            least = now;
            found = Some(table);
        }
    }
    found
}

/// Returns the first table without contexts.
fn first_without(tables: &[NamedTable]) -> Option<&NamedTable>
    ensures { option_copied result ≡ first_without tables.now }
{
    for table in tables {
        if table.contexts.is_empty() {
            return Some(table);
        }
    }
    None
}

/// Returns the only table, if it has no contexts.
fn sole(tables: &[NamedTable]) -> Option<&NamedTable>
    ensures { option_copied result ≡ sole tables.now }
{
    match tables {
        [table] if table.contexts.is_empty() => Some(table),
        _ => None,
    }
}

/// Returns whether a context is in a list.
fn is_among(context: &Context, others: &[Context]) -> bool
    ensures { result ≡ list_any (bytes_eq context.now) others.now }
{
    for other in others {
        if context.octets() == other.octets() {
            return true;
        }
    }
    false
}

/// Returns whether two tables have a context in common.
fn share_context(a: &NamedTable, b: &NamedTable) -> bool
    ensures { result ≡ share_context a.now b.now }
{
    for context in &a.contexts {
        if is_among(context, &b.contexts) {
            return true;
        }
    }
    false
}

/// Returns the number of the first table after number `first` that shares a context with `table`.
fn sharer(table: &NamedTable, first: usize, tables: &[NamedTable]) -> Option<usize>
    ensures { result ≡ sharer table.now first 0 tables.now }
{
    for (place, other) in tables.iter().enumerate() {
        if first < place && share_context(table, other) {
            return Some(place);
        }
    }
    None
}

/// The printed fault of a book with two tables that have a context in common.
pub const CLASH: &str =
    "two tables have the same context, so which is for its dialogues is not told";

/// The printed fault of an ambiguous book.
pub const AMBIGUOUS: &str =
    "more than one table is without contexts, so which is for which dialogue is not told";

impl Book {
    /// Creates an empty book.
    pub(crate) fn new(alloc: Global) -> Book
        ensures { result ≡ [] }
    {
        Book {
            tables: Vec::new(alloc),
        }
    }

    /// Appends a table.
    pub(crate) fn push(&mut self, table: NamedTable) -> Result<(), AllocError>
        ensures { OnOk result (self.new ≡ self.old ++ table ∷ []) }
    {
        self.tables.push(table)?;
        Ok(())
    }

    /// Returns the tables, in the order of the text.
    pub fn tables(&self) -> &[NamedTable]
        ensures { result.now ≡ self.now }
    {
        self.tables.as_slice()
    }

    /// Appends the tables of another book.
    ///
    /// # Errors
    ///
    /// AllocError if memory runs out. The book is unchanged then.
    pub fn add(&mut self, other: Book) -> Result<(), AllocError>
        ensures added { OnOk result (self.new ≡ self.old ++ other) }
        ensures kept { OnErr result (self.new ≡ self.old) }
    {
        let mut tables = other.tables;
        self.tables.append(&mut tables)
    }

    /// Returns whether more than one table has no contexts, so that no table is determined for a dialogue without a
    /// context.
    pub fn is_ambiguous(&self) -> bool
        ensures { result ≡ is_ambiguous self.now }
    {
        let mut has_one = false;
        for table in &self.tables {
            if table.contexts.is_empty() {
                if has_one {
                    return true;
                }
                has_one = true;
            }
        }
        false
    }

    /// Returns the numbers of the first two tables with a context in common, octet for octet.
    ///
    /// The first number is that of the first table that shares a context with a later one, the second that of the
    /// first such later table. `None` if no two tables share one. Compares each context with those of all other
    /// tables.
    pub fn clash(&self) -> Option<(usize, usize)>
        ensures { result ≡ clash self.now }
    {
        let tables = self.tables.as_slice();
        for (first, table) in tables.iter().enumerate() {
            if let Some(second) = sharer(table, first, tables) {
                return Some((first, second));
            }
        }
        None
    }

    /// Appends the words for the table with this number, if there is one.
    fn push_at(&self, text: &mut String, number: usize) -> Result<(), AllocError>
        ensures { OnOk result (string_bytes text.new ≡ string_bytes text.old ++ words_at self.now number) }
    {
        match self.tables.get(number) {
            Some(table) => table.push_words(text, number),
            None => Ok(()),
        }
    }

    /// Appends the words for the two tables with these numbers.
    ///
    /// # Errors
    ///
    /// AllocError if memory runs out.
    pub fn push_pair(&self, text: &mut String, pair: (usize, usize)) -> Result<(), AllocError>
        ensures { OnOk result (string_bytes text.new ≡ string_bytes text.old ++ pair_words self.now pair) }
    {
        self.push_at(text, pair.0)?;
        text.push_str(" and ")?;
        self.push_at(text, pair.1)
    }

    /// Returns the table of a dialogue whose Begin requests this application context name.
    ///
    /// `context` is the content octets of the name's OBJECT IDENTIFIER, or `None` if the Begin requests none. A single
    /// table without contexts applies to all dialogues.
    pub fn table_of(&self, context: Option<&[u8]>) -> Option<&NamedTable>
        ensures { option_copied result ≡ table_of self.now (option_copied context.entry) }
    {
        let tables = self.tables.as_slice();
        if let Some(table) = sole(tables) {
            return Some(table);
        }
        match context {
            Some(asked) => best(asked, tables),
            None => first_without(tables),
        }
    }
}
