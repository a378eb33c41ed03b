// The flow rules over a readable book's bytes: one walk, the checker and the finder over it.
#![tactic(auto)]

mod assign;
mod called;
mod closing;
mod command;
mod copy;
mod expr;
mod legal;
mod mask;
mod packed;
mod past;
mod round;
mod row;
mod settle;
mod wake;
mod walk;

ghost use Rattle.meaning.specs.Entries.{Checks, FindsIn};
ghost use Rattle.refusals.specs.Numbers.{refusal, field};

use crate::settle::{satisfied, settle};
use book::Book;
use refusals::Refusal;

// The checker: whether a summary is accepted.
pub fn check(book: &[u8], summary: &[u8]) -> Result<(), Refusal>
    ensures { Checks book.now summary.now (refusal result) }
{
    check_readable(Book::read(book)?, summary)
}

// The same for a book that is known to be readable.
pub fn check_readable(book: Book, summary: &[u8]) -> Result<(), Refusal>
    ensures { Checks book.entry.bytes.now summary.now (refusal result) }
{
    if summary.len() != book.size {
        return Err(Refusal::Size);
    }
    if satisfied(book.bytes, summary) {
        Ok(())
    } else {
        Err(Refusal::Flow)
    }
}

// What the finder has found: the size of the least summary, and the number of rounds.
#[derive(Clone, Copy, Debug, PartialEq, Eq)]
pub struct Found {
    pub size: usize,
    pub rounds: usize,
}

// The finder: the least summary stands in the first `size` bytes of the buffer.
pub fn find(book: &[u8], buffer: &mut [u8]) -> Result<Found, Refusal>
    ensures { FindsIn book.now buffer.old (refusal result)
        (field (λ f. f.size) result) (field (λ f. f.rounds) result) buffer.new }
{
    find_readable(Book::read(book)?, buffer)
}

// The same for a book that is known to be readable. A refusal leaves the buffer as it was.
pub fn find_readable(book: Book, buffer: &mut [u8]) -> Result<Found, Refusal>
    ensures { FindsIn book.entry.bytes.now buffer.old (refusal result)
        (field (λ f. f.size) result) (field (λ f. f.rounds) result) buffer.new }
{
    let size = book.size;
    let room = buffer.len();
    if room < size {
        return Err(Refusal::Size);
    }
    let rounds = settle(book.bytes, &mut buffer[..size]);
    Ok(Found { size, rounds })
}
