// The level reporter: the refusals in the order of their numbers, or the level of a procedure's answer.
#![tactic(auto)]

ghost use Rattle.std.specs.Prelude.{◌≡◌, ◌+◌, ◌*◌, ◌≤◌, length};
ghost use Rattle.meaning.specs.Entries.{Reports};
ghost use Rattle.refusals.specs.Numbers.{refusal, field};
ghost use Rattle.reporter.specs.Parts.{all_below, fitting_here};

use book::Book;
use book::entry::parameters;
use flow::check_readable;
use levels::{count, reported, valid};
use refusals::Refusal;
use sets::Set;

// Each of the levels is below n.
fn below(table: &[u8], levels: &[u8]) -> bool
    ensures { result ≡ all_below table.now levels.now }
{
    let n = count(table);
    levels.iter().all(|level| *level < n)
}

// There is a level for each parameter of procedure p, and each is in the table.
fn fitting(book: &[u8], table: &[u8], p: usize, levels: &[u8]) -> bool
    requires { 7 + 6 * p ≤ length book.now }
    ensures { result ≡ fitting_here book.now table.now p levels.now }
{
    levels.len() == parameters(book, p) && below(table, levels)
}

// The level of procedure `procedure`'s answer, its parameters having these levels, by a summary that satisfies the rules.
pub fn level(
    book: &[u8],
    table: &[u8],
    procedure: u64,
    levels: &[u8],
    summary: &[u8],
) -> Result<u8, Refusal>
    ensures { Reports book.now table.now procedure levels.now summary.now (refusal result) (field (λ l. l) result) }
{
    level_readable(Book::read(book)?, table, procedure, levels, summary)
}

// The same for a book that is known to be readable.
pub fn level_readable(
    book: Book,
    table: &[u8],
    procedure: u64,
    levels: &[u8],
    summary: &[u8],
) -> Result<u8, Refusal>
    ensures { Reports book.entry.bytes.now table.now procedure levels.now summary.now (refusal result) (field (λ l. l) result) }
{
    if !valid(table) {
        return Err(Refusal::Table);
    }
    if u64::from(book.bytes[0]) <= procedure {
        return Err(Refusal::Procedure);
    }
    // The test leaves a number of one byte (kept: a conversion that can fail would have a way out that is never taken).
    let p = procedure as usize;
    if !fitting(book.bytes, table, p, levels) {
        return Err(Refusal::Inputs);
    }
    check_readable(book, summary)?;
    Ok(reported(table, levels, levels.len(), Set::from(summary[p])))
}
