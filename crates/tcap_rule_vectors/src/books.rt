//! Rows about books of tables: what a text gives, the names in it, and which table a dialogue gets.

use std::alloc::Global;
use tcap_ber::ObjectIdView;
use tcap_books::{Book, CARRIED_BOOK, NamedTable};
use tcap_parts::CodeView;

/// Returns the book of a text, or `None` if the text is no book.
fn book_of(alloc: Global, text: &str) -> Option<Book> {
    Book::from_json(alloc, text.as_bytes()).ok()
}

/// Returns the name of a table, or a dash if it has none.
fn name_of(table: &NamedTable) -> &str {
    table.name().unwrap_or("-")
}

/// Returns the text of a book of this many tables.
pub(crate) fn long_book(alloc: Global, count: usize) -> Option<String> {
    let mut text = String::from_str(alloc, "{\"tables\":[{\"operations\":[]}").ok()?;
    for _ in 1..count {
        text.push_str(",{\"operations\":[]}").ok()?;
    }
    text.push_str("]}").ok()?;
    Some(text)
}

/// Returns whether a text is a book with the expected count of tables, or has the expected fault.
pub(crate) fn is_book(alloc: Global, text: &[u8], wanted: &str) -> Option<bool> {
    match Book::from_json(alloc, text) {
        Ok(book) => Some(wanted.parse::<usize>().ok() == Some(book.tables().len())),
        Err(fault) => Some(format!(in alloc; "{fault}").ok()?.as_str() == wanted),
    }
}

/// Returns the text of a book of tables with these contexts, whose names are their numbers.
fn book_text(alloc: Global, contexts: &str) -> Option<String> {
    let mut text = String::from_str(alloc, "{\"tables\":[").ok()?;
    for (number, of_one) in contexts.split('|').enumerate() {
        text.push_str(if number == 0 { "" } else { "," }).ok()?;
        write!(
            text,
            "{{\"name\":\"{number}\",\"operations\":[],\"contexts\":[{of_one}]}}"
        )
        .ok()?;
    }
    text.push_str("]}").ok()?;
    Some(text)
}

/// Returns whether a dialogue with this context, or a dash for none, gets the table with this name.
fn is_chosen(alloc: Global, text: &str, context: &str, wanted: &str) -> Option<bool> {
    let book = book_of(alloc, text)?;
    let octets = if context == "-" {
        None
    } else {
        Some(hex::decode(alloc, context).ok()?)
    };
    let table = book.table_of(octets.as_deref());
    Some(table.map_or("-", name_of) == wanted)
}

/// Checks a row of `choices`: the contexts of each table with bars between tables, the context, the table.
pub(crate) fn is_choice(
    alloc: Global,
    contexts: &str,
    context: &str,
    wanted: &str,
) -> Option<bool> {
    is_chosen(alloc, &book_text(alloc, contexts)?, context, wanted)
}

/// Checks a row of `carried`: a context, and the table that the program's own book gives for it.
pub(crate) fn is_carried(alloc: Global, context: &str, wanted: &str) -> Option<bool> {
    is_chosen(alloc, CARRIED_BOOK, context, wanted)
}

/// Returns the name of an operation, or a dash if it has none. The code is local in decimal digits, or global in
/// hexadecimal digits after `g:`.
fn operation_of<'a>(alloc: Global, table: &'a NamedTable, code: &str) -> Option<&'a str> {
    let name = match code.strip_prefix("g:") {
        Some(digits) => {
            let octets = hex::decode(alloc, digits).ok()?;
            table.name_of(CodeView::Global(ObjectIdView::new(&octets)?))
        }
        None => table.name_of(CodeView::Local(code.parse::<i32>().ok()?)),
    };
    Some(name.unwrap_or("-"))
}

/// Checks a row of `names`: the text of a book of one table, and codes with the names of their operations.
pub(crate) fn are_names(alloc: Global, text: &str, codes: &[&str]) -> Option<bool> {
    let book = book_of(alloc, text)?;
    let [table] = book.tables() else {
        return None;
    };
    for pair in codes {
        let (code, name) = pair.split_once('=')?;
        if operation_of(alloc, table, code)? != name {
            return Some(false);
        }
    }
    Some(!codes.is_empty())
}

/// Checks a row of `added`: two books, and the names of all tables after the second book is added to the first.
pub(crate) fn is_added(alloc: Global, first: &str, second: &str, wanted: &str) -> Option<bool> {
    let mut book = book_of(alloc, first)?;
    book.add(book_of(alloc, second)?).ok()?;
    let mut names = String::new(alloc);
    for table in book.tables() {
        names.push_str(name_of(table)).ok()?;
    }
    Some(names.as_str() == wanted)
}
