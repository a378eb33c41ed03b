// The checker's test and the finder's rounds.
ghost use Rattle.flow.specs.Settling.{SettlePre, SettlePost, SatisfiedPost, LaterPre, LaterPost};

use crate::called::scan;
use crate::copy::{Places, copied, same, store};
use crate::legal::legal;
use crate::round::{STARTS, round};
use crate::wake::{pass, wake};
use book::limits::{MOST_PARAMETERS, MOST_PLACES, MOST_PROCEDURES};

// The summary satisfies the rules: a round from it adds nothing, and no set names a parameter its procedure lacks.
pub fn satisfied(book: &[u8], summary: &[u8]) -> bool
    requires { SettlePre book.now summary.now }
    ensures { SatisfiedPost book.now summary.now result }
{
    let old = copied(summary);
    let mut new = old;
    let starts = round(book, &old, &mut new);
    legal(book, &old, &starts) && same(&old, &new, summary.len())
}

// From all sets empty, round after round, up to the first that adds nothing; answers how many rounds that took.
pub fn settle(book: &[u8], summary: &mut [u8]) -> usize
    requires { SettlePre book.now summary.old }
    ensures { SettlePost book.now summary.new result }
{
    let size = summary.len();
    let old = [0; MOST_PLACES];
    let mut new = [0; MOST_PLACES];
    let starts = round(book, &old, &mut new);
    let n = if same(&old, &new, size) {
        1
    } else {
        later(book, &mut new, &starts, size)
    };
    store(&new, summary);
    n
}

// The rounds after the first: each walks only the bodies that read something which the round before has changed.
fn later(book: &[u8], new: &mut Places, starts: &[usize; STARTS], size: usize) -> usize
    requires { LaterPre book.now new.old starts.now size }
    ensures { LaterPost book.now new.new result }
{
    let most = MOST_PARAMETERS * size + 1;
    let called = scan(book);
    let mut old = [0; MOST_PLACES];
    let mut walks = [true; MOST_PROCEDURES];
    for n in 1..most {
        walks = wake(book, &old, new, &called, starts, &walks);
        old = *new;
        pass(book, &old, new, &walks, starts);
        if same(&old, new, size) {
            return n + 1;
        }
    }
    most
}
