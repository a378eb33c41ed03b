// Rounds that walk only those bodies which read something that has changed.
ghost use Rattle.std.specs.Prelude.{◌≤◌};
ghost use Rattle.meaning.specs.Limits.{most_procedures};
ghost use Rattle.flow.specs.Waking.{PassPre, PassPost, WakePre, WakePost, QuietPost};

use crate::copy::Places;
use crate::mask::{with, within};
use crate::round::{STARTS, body, rows};
use book::bytes::number;
use book::limits::MOST_PROCEDURES;

// Adds to `new` what those procedures demand by the old summary that are to be walked.
pub fn pass(
    book: &[u8],
    old: &Places,
    new: &mut Places,
    walks: &[bool; MOST_PROCEDURES],
    starts: &[usize; STARTS],
)
    requires { PassPre book.now old.now new.old starts.now }
    ensures { PassPost book.now old.now new.old walks.now new.new }
{
    let n = number(book[0]);
    for p in 0..n {
        if walks[p] {
            body(book, old, new, p, starts[p]);
        }
    }
}

// Which procedures the next round walks: those whose own rows changed, and those that may call one whose result did.
pub fn wake(
    book: &[u8],
    old: &Places,
    new: &Places,
    called: &[u32; MOST_PROCEDURES],
    starts: &[usize; STARTS],
    walks: &[bool; MOST_PROCEDURES],
) -> [bool; MOST_PROCEDURES]
    requires { WakePre book.now old.now new.now starts.now walks.now }
    ensures { WakePost book.now old.now new.now called.now result }
{
    let n = number(book[0]);
    let still = quiet(old, new, n);
    let mut next = [false; MOST_PROCEDURES];
    for p in 0..n {
        next[p] = !within(called[p], still)
            || walks[p] && rows(old, starts, p) != rows(new, starts, p);
    }
    next
}

// The set of the first n procedures whose result did not change.
fn quiet(old: &Places, new: &Places, n: usize) -> u32
    requires { n ≤ most_procedures }
    ensures { QuietPost old.now new.now result }
{
    let mut mask: u32 = 0;
    for p in 0..n {
        if old[p] == new[p] {
            mask = with(mask, p);
        }
    }
    mask
}
