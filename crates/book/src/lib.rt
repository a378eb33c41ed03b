// The reader of recipe books.
#![tactic(auto)]

mod bodies;
pub mod bytes;
mod closing;
pub mod codes;
mod command;
mod contents;
pub mod entry;
mod expression;
mod fault;
pub mod limits;
mod scope;
mod taken;
pub mod verdict;

ghost use Rattle.std.specs.Prelude.{◌≡◌, IfOk};
ghost use Rattle.meaning.specs.Entries.{Reads};
ghost use Rattle.refusals.specs.Numbers.{refusal, field};

use crate::verdict::judge;
use refusals::Refusal;

// The size of the book's summary.
pub fn read(book: &[u8]) -> Result<usize, Refusal>
    ensures { Reads book.now (refusal result) (field (λ n. n) result) }
{
    Ok(judge(book)?)
}

// A book that is known to be readable, and the size of its summaries.
#[derive(Clone, Copy)]
pub struct Book<'a> {
    pub bytes: &'a [u8],
    pub size: usize,
    ghost answer: { Reads bytes.now 0 size },
}

impl<'a> Book<'a> {
    // The reader's answer, with the book that it is about.
    pub fn read(book: &'a [u8]) -> Result<Book<'a>, Refusal>
        ensures answer { Reads book.now (refusal result) (field (λ r. r.size) result) }
        ensures bytes { IfOk result (λ r. r.bytes.now ≡ book.now) }
    {
        let size = read(book)?;
        Ok(Book { bytes: book, size })
    }
}
