// Which procedures each body may call, by its bytes: every number that stands behind a byte 13.
ghost use Rattle.book.specs.Here.{BookHere};
ghost use Rattle.flow.specs.Waking.{BehindPost, ScanPost};

use crate::mask::with;
use book::bytes::number;
use book::codes::CALL;
use book::entry::{body_length, offset};
use book::limits::MOST_PROCEDURES;

// For each procedure the set of those that it may call.
pub fn scan(book: &[u8]) -> [u32; MOST_PROCEDURES]
    requires { BookHere book.now }
    ensures { ScanPost book.now result }
{
    let n = number(book[0]);
    let mut called = [0u32; MOST_PROCEDURES];
    for p in 0..n {
        let at = offset(book, p);
        let end = at + body_length(book, p);
        called[p] = behind(&book[at..end]);
    }
    called
}

// The set of the numbers that stand behind a byte 13.
fn behind(body: &[u8]) -> u32
    ensures { BehindPost body.now result }
{
    let mut mask: u32 = 0;
    for w in body.windows(2) {
        let p = number(w[1]);
        if w[0] == CALL && p < MOST_PROCEDURES {
            mask = with(mask, p);
        }
    }
    mask
}
