// The table of contents.
ghost use Rattle.std.specs.Prelude.{◌≡◌, ◌≤◌, length};
ghost use Rattle.meaning.specs.Reading.{contents as contents_of, in_turn, contents_end, entries};
ghost use Rattle.book.specs.Contents.{Listed};

use crate::bytes::number;
use crate::entry::{ENTRY_BYTES, body_length, locals, offset, parameters};
use crate::limits::{MOST_LOCALS, MOST_PARAMETERS, MOST_PROCEDURES};

// The contents keep every rule.
pub fn contents(book: &[u8]) -> bool
    requires { 1 ≤ length book.now }
    ensures { result ≡ contents_of book.now }
{
    let count = number(book[0]);
    if count < 1 {
        return false;
    }
    if MOST_PROCEDURES < count {
        return false;
    }
    if book.len() < 1 + ENTRY_BYTES * count {
        return false;
    }
    in_turn(book, count)
}

// The bodies follow one another to the book's end, and the counts are in their ranges.
fn in_turn(book: &[u8], count: usize) -> bool
    requires { Listed book.now count }
    ensures { result ≡ in_turn (contents_end book.now) (entries book.now) (length book.now) }
{
    let mut at = 1 + ENTRY_BYTES * count;
    for p in 0..count {
        if offset(book, p) != at {
            return false;
        }
        if MOST_PARAMETERS < parameters(book, p) {
            return false;
        }
        if MOST_LOCALS < locals(book, p) {
            return false;
        }
        at += body_length(book, p);
    }
    at == book.len()
}
