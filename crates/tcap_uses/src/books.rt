ghost use Rattle.std.specs.Prelude.{◌≡◌, Some, option_and_then, option_map};
ghost use Rattle.tcap_parts.specs.Meaning.{code_of};
ghost use Rattle.tcap_books.specs.Book.{name_of, table_of};

use tcap_books::Book;
use tcap_parts::CodeView;

/// Returns the name of an operation in a dialogue whose Begin asks for this application context. It is `None` if no
/// table applies to the dialogue, or if the table has no name for the operation.
pub fn operation_name<'a>(book: &'a Book, context: &[u8], code: CodeView) -> Option<&'a str>
    ensures { option_map (λ name. name.now) result
        ≡ option_and_then (λ table. name_of table (code_of code.entry)) (table_of book.now (Some context.now)) }
{
    book.table_of(Some(context))?.name_of(code)
}
