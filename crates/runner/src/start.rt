// The start of a run: a memo of jumps that is large enough for the book, and the cells cleared at the end.
ghost use Rattle.std.specs.Prelude.{◌≤◌};
ghost use Rattle.meaning.specs.Limits.{most_bytes};
ghost use Rattle.runner.specs.Answering.{StartPre, SizedPre, BegunPost, StartedPost};
ghost use Rattle.runner.specs.Step.{packed_of};

use crate::answer::Answer;
use crate::cycle::enter;
use crate::frame::Frame;
use crate::limits::MOST_CALLS;
use book::limits::{MOST_BYTES, MOST_PARAMETERS};

// A run with a memo of N places. It is never inlined, so that a small book's run has only its small memo on the stack.
// (`p` and `given` go together and are read in one place, `prepared`. Kept apart: a struct of them is no plainer.)
#[inline(never)]
fn with<const N: usize>(
    book: &[u8],
    p: usize,
    given: &[u32; MOST_PARAMETERS],
    budget: u32,
    work: &mut [u32],
) -> Answer
    requires start { SizedPre N book.now p given.now budget work.old }
    requires small { N ≤ most_bytes }
    ensures { BegunPost book.now p given.now budget (packed_of result) }
{
    let mut jumps = [0u16; N];
    enter(
        book,
        &mut jumps,
        p,
        given,
        Frame::new(0, MOST_CALLS),
        budget,
        work,
    )
}

// A run in just the cells that it leaves 0. A small book gets a small memo, since all of it is made 0 first.
pub fn started(
    book: &[u8],
    p: usize,
    given: &[u32; MOST_PARAMETERS],
    budget: u32,
    work: &mut [u32],
) -> Answer
    requires { StartPre book.now p given.now budget work.old }
    ensures { StartedPost book.now p given.now budget work.new (packed_of result) }
{
    let a = match book.len() {
        0..=128 => with::<128>(book, p, given, budget, work),
        129..=1024 => with::<1024>(book, p, given, budget, work),
        1025..=8192 => with::<8192>(book, p, given, budget, work),
        _ => with::<MOST_BYTES>(book, p, given, budget, work),
    };
    work.fill(0);
    a
}
