// The listing's text: what the program prints for a book.
#![tactic(auto)]

mod entries;
mod text;

ghost use Rattle.std.specs.Prelude.{◌≡◌};
ghost use Rattle.meaning.specs.Answers.{listing};
ghost use Rattle.refusals.specs.Numbers.{refusal};
ghost use Rattle.lines.specs.Listed.{ListsOrRefuses};

use crate::entries::{lines_of, refused};
pub use crate::text::Text;
use book::Book;
use book::limits::MOST_PLACES;
use flow::find_readable;
use refusals::Refusal;

// The lines of the book's procedures, by the least summary.
fn accepted(book: &[u8]) -> Result<Text, Refusal>
    ensures { ListsOrRefuses book.now result }
{
    let book = Book::read(book)?;
    let mut summary = [0; MOST_PLACES];
    let found = find_readable(book, &mut summary)?;
    Ok(lines_of(book, &summary[..found.size]))
}

// The listing of a book, or of its refusal.
pub fn list(book: &[u8]) -> Text
    ensures { result ≡ listing book.now }
{
    accepted(book).unwrap_or_else(refused)
}
