// The verdict on a book, with the reason and the place of a fault.
ghost use Rattle.std.specs.Prelude.{◌≡◌};
ghost use Rattle.meaning.specs.Reading.{read};
ghost use Rattle.book.specs.declared.verdict.Unreadable.TheVariants.{Body};
ghost use Rattle.book.specs.Verdict.{told, verdict_of, bodies_verdict, refusal_of, Opened};

use crate::bodies::bodies;
use crate::bytes::number;
use crate::contents::contents;
pub use crate::fault::{Fault, Reason};
use crate::limits::{MOST_BYTES, MOST_LOOPS};
use refusals::Refusal;

// Why bytes are no book.
#[derive(Clone, Copy, Debug, PartialEq, Eq)]
pub enum Unreadable {
    Length,
    Contents,
    Body(Fault),
    Loops,
}

impl From<Unreadable> for Refusal {
    ghost from_gives = { λ u r. r ≡ refusal_of u };

    fn from(why: Unreadable) -> Refusal {
        match why {
            Unreadable::Length => Refusal::Length,
            Unreadable::Contents => Refusal::Contents,
            Unreadable::Body(_) => Refusal::Body,
            Unreadable::Loops => Refusal::Loops,
        }
    }
}

impl From<Fault> for Unreadable {
    ghost from_gives = { λ f u. u ≡ Body f };

    fn from(fault: Fault) -> Unreadable {
        Unreadable::Body(fault)
    }
}

// The bodies and the loops of a book whose contents keep every rule.
fn judge_bodies(book: &[u8]) -> Result<usize, Unreadable>
    requires { Opened book.now }
    ensures { told result ≡ bodies_verdict book.now }
{
    let counted = bodies(book)?;
    if MOST_LOOPS < counted.loops {
        return Err(Unreadable::Loops);
    }
    Ok(number(book[0]) + counted.sets)
}

// Length, contents, bodies and loops are judged in this order.
pub fn judge(book: &[u8]) -> Result<usize, Unreadable>
    ensures { told result ≡ verdict_of (read book.now) }
{
    if book.is_empty() || MOST_BYTES < book.len() {
        return Err(Unreadable::Length);
    }
    if !contents(book) {
        return Err(Unreadable::Contents);
    }
    judge_bodies(book)
}
