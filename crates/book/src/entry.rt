// What the table of contents says of a procedure.
ghost use Rattle.std.specs.Prelude.{◌≡◌, ◌+◌, ◌*◌, ◌≤◌, length};
ghost use Rattle.meaning.specs.Reading.{entry};

use crate::bytes::{number, pair};

// The bytes of an entry; the first stands behind the byte that counts the procedures.
pub const ENTRY_BYTES: usize = 6;

// Where its body begins.
pub fn offset(book: &[u8], p: usize) -> usize
    requires { 7 + 6 * p ≤ length book.now }
    ensures { result ≡ (entry book.now p).offset }
{
    pair(book, 1 + ENTRY_BYTES * p)
}

// How many bytes its body has.
pub fn body_length(book: &[u8], p: usize) -> usize
    requires { 7 + 6 * p ≤ length book.now }
    ensures { result ≡ (entry book.now p).bytes }
{
    pair(book, 1 + ENTRY_BYTES * p + 2)
}

pub fn parameters(book: &[u8], p: usize) -> usize
    requires { 7 + 6 * p ≤ length book.now }
    ensures { result ≡ (entry book.now p).parameters }
{
    number(book[1 + ENTRY_BYTES * p + 4])
}

pub fn locals(book: &[u8], p: usize) -> usize
    requires { 7 + 6 * p ≤ length book.now }
    ensures { result ≡ (entry book.now p).locals }
{
    number(book[1 + ENTRY_BYTES * p + 5])
}
