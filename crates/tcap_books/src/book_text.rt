//! Reads a book from a JSON text (RFC 8259).

ghost use Rattle.std.specs.Prelude.{◌≡◌, ◌∷◌, ◌≢◌, ◌≤◌, ◌↔◌, [], Some, None, Ok, Err, IfOk, OnOk, codes, map, option_map, option_and_then, string_bytes};
ghost use Rattle.hex.specs.Hex.{decode_of};
ghost use Rattle.serde_json.specs.Data.{Data, array, depth, items_depth};
ghost use Rattle.serde_json.specs.Find.{get};
ghost use Rattle.serde_json.specs.Read.{max_depth};
ghost use Rattle.serde_json.specs.View.{view, items_view, members_view};
ghost use Rattle.tcap_end.specs.Table.{Table};
ghost use Rattle.tcap_end.specs.TableText.{IsJson, IsTableOf, code_in, global_of, local_of, table_in, whole_in};
ghost use Rattle.tcap_books.specs.declared.fault.BookFault.TheVariants as BookFault;
ghost use Rattle.tcap_books.specs.Book.{NamedTable as Meant};
ghost use Rattle.tcap_books.specs.declared.fault.BookFault.{BookFault as Fault};
ghost use Rattle.tcap_books.specs.BookText.{IsBookOf, IsPlain, bare_table, book_in, context_in, context_of, contexts_in, contexts_with, name_in, named_table_in};
ghost use Rattle.tcap_books.specs.BookText.{has_one_key, names_in, names_with, plain, refused_table, tables_in, tables_with, with_name};

use crate::bare::bare_table;
use crate::book::{Book, Context, NamedTable};
use crate::dotted::{dotted_in, has_dot};
use crate::fault::BookFault;
use crate::names::Names;
use hex::FromHexError;
use serde_json::Value;
use std::alloc::{AllocError, Global};
use tcap_ber::ObjectId;
use tcap_end::{Table, TableReason};
use tcap_parts::Code;

/// The largest number of tables.
const TABLES_LIMIT: usize = 100;

/// Reads a name, which may be absent. Returns `None` if it is not a string.
fn name_in(alloc: Global, value: Option<&Value>) -> Result<Option<Option<String>>, AllocError>
    ensures { IfOk result (λ name. option_map (λ n. option_map string_bytes n) name
        ≡ name_in (option_map (λ v. view v.now) value.entry)) }
{
    let Some(value) = value else {
        return Ok(Some(None));
    };
    match value.as_str() {
        Some(text) => Ok(Some(Some(String::from_str(alloc, text)?))),
        None => Ok(None),
    }
}

/// Reads the octets of a text: of dotted numbers if it has a dot, else of hex digits.
fn context_of(alloc: Global, text: &str) -> Result<Option<Vec<u8>>, AllocError>
    ensures { IfOk result (λ octets. option_map (λ v. v.items) octets ≡ context_of text.now) }
{
    if has_dot(text) {
        return dotted_in(alloc, text);
    }
    match hex::decode(alloc, text) {
        Ok(octets) => Ok(Some(octets)),
        Err(FromHexError::OutOfMemory) => Err(AllocError),
        Err(_) => Ok(None),
    }
}

/// Reads a context from a string.
fn context_in(alloc: Global, value: &Value) -> Result<Option<Context>, AllocError>
    ensures { IfOk result (λ context. context ≡ context_in (view value.now)) }
{
    let Some(text) = value.as_str() else {
        return Ok(None);
    };
    match context_of(alloc, text)? {
        Some(octets) => Ok(Some(Context { octets })),
        None => Ok(None),
    }
}

/// Reads the contexts in a list.
fn contexts_with(alloc: Global, items: &[Value]) -> Result<Option<Vec<Context>>, AllocError>
    ensures { IfOk result (λ contexts. option_map (λ v. v.items) contexts
        ≡ contexts_with [] (items_view items.now)) }
{
    let mut found = Vec::new(alloc);
    for item in items {
        let Some(context) = context_in(alloc, item)? else {
            return Ok(None);
        };
        found.push(context)?;
    }
    Ok(Some(found))
}

/// Reads the contexts of a table; none if the member is absent.
fn contexts_in(alloc: Global, value: Option<&Value>) -> Result<Option<Vec<Context>>, AllocError>
    ensures { IfOk result (λ contexts. option_map (λ v. v.items) contexts
        ≡ contexts_in (option_map (λ v. view v.now) value.entry)) }
{
    let Some(value) = value else {
        return Ok(Some(Vec::new(alloc)));
    };
    match value.as_array() {
        Some(items) => contexts_with(alloc, items),
        None => Ok(None),
    }
}

/// Reads a local code from a 32-bit whole number.
fn local_in(value: &Value) -> Option<Code>
    ensures { result ≡ option_and_then local_of (whole_in (view value.now)) }
{
    let whole = value.as_number()?.as_i128()?;
    Some(Code::Local(i32::try_from(whole).ok()?))
}

/// Reads a global code from hex digits of either case.
fn global_in(alloc: Global, digits: &str) -> Result<Option<Code>, AllocError>
    ensures { IfOk result (λ code. code ≡ global_of (decode_of digits.now)) }
{
    let octets = match hex::decode(alloc, digits) {
        Ok(octets) => octets,
        Err(FromHexError::OutOfMemory) => return Err(AllocError),
        Err(_) => return Ok(None),
    };
    match ObjectId::new(alloc, &octets)? {
        Some(id) => Ok(Some(Code::Global(id))),
        None => Ok(None),
    }
}

/// Reads a code: a 32-bit whole number, or a string with the hex digits of a global code.
fn code_in(alloc: Global, value: &Value) -> Result<Option<Code>, AllocError>
    ensures { IfOk result (λ code. code ≡ code_in (view value.now)) }
{
    if let Some(digits) = value.as_str() {
        return global_in(alloc, digits);
    }
    Ok(local_in(value))
}

/// Reads the code of a row.
fn row_code(alloc: Global, row: &Value) -> Result<Option<Code>, AllocError>
    ensures { IfOk result (λ code. code ≡ option_and_then code_in (get (codes "code") (view row.now))) }
{
    match row.get("code") {
        Some(value) => code_in(alloc, value),
        None => Ok(None),
    }
}

/// Adds the name of row number `row` in table number `table`, if the row has a code and a name.
fn add_name(
    alloc: Global,
    names: &mut Names,
    table: usize,
    row: usize,
    value: &Value,
) -> Result<(), BookFault>
    ensures added { OnOk result (with_name table row names.old (view value.now) ≡ Ok names.new) }
    ensures refused { (f : Fault) → result ≡ Err f → f ≢ BookFault.Memory
        → with_name table row names.old (view value.now) ≡ Err f }
{
    let Some(name) = name_in(alloc, value.get("name"))? else {
        return Err(BookFault::RowName(table as u64, row as u64));
    };
    let code = row_code(alloc, value)?;
    if let (Some(code), Some(name)) = (code, name) {
        names.push(code, name)?;
    }
    Ok(())
}

/// Reads the names of the operations in the rows of table number `table`.
fn names_with(alloc: Global, table: usize, rows: &[Value]) -> Result<Names, BookFault>
    ensures { result ≢ Err BookFault.Memory
        → result ≡ names_with table 0 [] (items_view rows.now) }
{
    let mut names = Names::new(alloc);
    for (row, value) in rows.iter().enumerate() {
        add_name(alloc, &mut names, table, row, value)?;
    }
    Ok(names)
}

/// Reads the names of the operations of table number `table`; none if the value is not a list.
fn names_in(alloc: Global, table: usize, value: Option<&Value>) -> Result<Names, BookFault>
    ensures { result ≢ Err BookFault.Memory
        → result ≡ names_in table (option_map (λ v. view v.now) value.entry) }
{
    match value.and_then(Value::as_array) {
        Some(rows) => names_with(alloc, table, rows),
        None => Ok(Names::new(alloc)),
    }
}

/// Reads a table from a JSON text, or returns its fault as that of table number `table`.
fn read_table(alloc: Global, table: usize, octets: &[u8]) -> Result<Table, BookFault>
    ensures { result ≢ Err BookFault.Memory → (d : Data) → IsJson octets.now d
        → result ≡ refused_table table (table_in d) }
{
    match Table::from_json(alloc, octets) {
        Ok(found) => Ok(found),
        Err(fault) if fault.reason == TableReason::Memory => Err(BookFault::Memory),
        Err(fault) => Err(BookFault::Table(table as u64, fault)),
    }
}

/// Reads the operations of table number `table`, from a copy without the members that only a book has.
fn bare_read(alloc: Global, table: usize, value: &Value) -> Result<Table, BookFault>
    requires nests { depth (view value.now) ≤ max_depth }
    ensures { result ≢ Err BookFault.Memory → result ≡ refused_table table (table_in (bare_table (view value.now))) }
{
    let text = bare_table(alloc, value)?.to_vec(alloc)?;
    read_table(alloc, table, &text)
}

/// Reads table number `place`.
fn named_table_in(alloc: Global, place: usize, value: &Value) -> Result<NamedTable, BookFault>
    requires nests { depth (view value.now) ≤ max_depth }
    ensures { result ≢ Err BookFault.Memory → result ≡ named_table_in place (view value.now) }
{
    let table = bare_read(alloc, place, value)?;
    let Some(name) = name_in(alloc, value.get("name"))? else {
        return Err(BookFault::TableName(place as u64));
    };
    let Some(contexts) = contexts_in(alloc, value.get("contexts"))? else {
        return Err(BookFault::Contexts(place as u64));
    };
    let names = names_in(alloc, place, value.get("operations"))?;
    Ok(NamedTable {
        name,
        contexts,
        table,
        names,
    })
}

/// Reads the book with the tables in a list.
fn tables_with(alloc: Global, items: &[Value]) -> Result<Book, BookFault>
    requires nests { items_depth (items_view items.now) ≤ max_depth }
    ensures { result ≢ Err BookFault.Memory → result ≡ tables_with 0 [] (items_view items.now) }
{
    let mut book = Book::new(alloc);
    for (place, item) in items.iter().enumerate() {
        book.push(named_table_in(alloc, place, item)?)?;
    }
    Ok(book)
}

/// Reads the book with the tables in a list, which must not be empty or beyond the limit.
#[tactic(auto, using(crate::proofs::BookLaws::tables_within, crate::proofs::BookLaws::tables_beyond, crate::proofs::BookLaws::no_tables))]
fn tables_of(alloc: Global, items: &[Value]) -> Result<Book, BookFault>
    requires nests { items_depth (items_view items.now) ≤ max_depth }
    ensures { result ≢ Err BookFault.Memory → result ≡ tables_in (array (items_view items.now)) }
{
    if items.is_empty() {
        return Err(BookFault::NoTables);
    }
    if items.len() > TABLES_LIMIT {
        return Err(BookFault::TooManyTables);
    }
    tables_with(alloc, items)
}

/// Reads the book with the tables of a value.
#[tactic(auto, using(crate::proofs::BookLaws::of_array, crate::proofs::BookLaws::no_array, crate::proofs::DepthLaws::array_depth))]
fn tables_in(alloc: Global, value: &Value) -> Result<Book, BookFault>
    requires nests { depth (view value.now) ≤ max_depth }
    ensures { result ≢ Err BookFault.Memory → result ≡ tables_in (view value.now) }
{
    match value.as_array() {
        Some(items) => tables_of(alloc, items),
        None => Err(BookFault::NoTables),
    }
}

/// Returns whether a value is an object with one key.
#[tactic(auto, using(crate::proofs::BookLaws::one_key, crate::proofs::BookLaws::no_key))]
fn has_one_key(value: &Value) -> bool
    ensures { result ≡ has_one_key (view value.now) }
{
    match value.as_object() {
        Some(members) => members.len() == 1,
        None => false,
    }
}

/// Creates the book of one table, with neither a name nor contexts.
fn plain(alloc: Global, table: Table) -> Result<Book, AllocError>
    ensures { IfOk result (λ book. book ≡ plain table ∷ []) }
{
    let mut book = Book::new(alloc);
    book.push(NamedTable {
        name: None,
        contexts: Vec::new(alloc),
        table,
        names: Names::new(alloc),
    })?;
    Ok(book)
}

/// Reads the book from a text and its JSON value.
#[tactic(auto, using(crate::proofs::DepthLaws::get_depth))]
fn book_in(alloc: Global, octets: &[u8], value: &Value) -> Result<Book, BookFault>
    requires nests { depth (view value.now) ≤ max_depth }
    requires value { IsJson octets.now (view value.now) }
    ensures { result ≢ Err BookFault.Memory → result ≡ book_in (view value.now) }
{
    match value.get("tables") {
        None => Ok(plain(alloc, read_table(alloc, 0, octets)?)?),
        Some(_) if !has_one_key(value) => Err(BookFault::OtherKey),
        Some(tables) => tables_in(alloc, tables),
    }
}

/// Reads the book from a text.
fn read_book(alloc: Global, octets: &[u8]) -> Result<Book, BookFault>
    ensures { result ≢ Err BookFault.Memory → IsBookOf octets.now result }
{
    match Value::from_slice(alloc, octets) {
        Ok(value) => book_in(alloc, octets, &value),
        Err(error) if error.is_memory() => Err(BookFault::Memory),
        Err(_) => Err(BookFault::NotJson),
    }
}

impl Book {
    /// Reads a book from a JSON text, whose shape docs/TABLES.md describes.
    ///
    /// A text without a key `"tables"` is read as a single table.
    ///
    /// # Errors
    ///
    /// The first fault in this order: `NotJson`; `OtherKey`, `NoTables` and `TooManyTables` of the book; then table by
    /// table `Table`, `TableName`, `Contexts` and `RowName`. `Memory` if memory runs out.
    pub fn from_json(alloc: Global, octets: &[u8]) -> Result<Book, BookFault>
        // The result is that of the specification.
        ensures book { result ≢ Err BookFault.Memory → IsBookOf octets.now result }
        // A text without "tables" is a book exactly if it is a table; the book has this table alone, without a name
        // and contexts.
        ensures plain { (table : Table) → result ≢ Err BookFault.Memory → IsPlain octets.now
            → (result ≡ Ok (plain table ∷ [])) ↔ IsTableOf octets.now (Ok table) }
    {
        read_book(alloc, octets)
    }
}
