// A round: every body is walked by the summary as it stood.
ghost use Rattle.std.specs.Prelude.{◌≡◌};
ghost use Rattle.flow.specs.Rounds.{Rowed, rows_of, RoundPre, RoundPost, BodyPre, BodyPost};

use crate::closing::closing;
use crate::copy::Places;
use crate::row::start;
use crate::walk::Walk;
use book::bytes::number;
use book::entry::{locals, offset, parameters};
use book::limits::MOST_PROCEDURES;
use sets::Bits;

// One more than there are procedures at most.
pub const STARTS: usize = MOST_PROCEDURES + 1;

// Adds to `new` all that the old summary demands; answers where the rows of each procedure begin, and where the last end.
pub fn round(book: &[u8], old: &Places, new: &mut Places) -> [usize; STARTS]
    requires { RoundPre book.now old.now new.old }
    ensures { RoundPost book.now old.now new.old new.new result }
{
    let n = number(book[0]);
    let mut starts = [0usize; STARTS];
    let mut row = n;
    starts[0] = row;
    for p in 0..n {
        row = body(book, old, new, p, row);
        starts[p + 1] = row;
    }
    starts
}

// The rows of procedure p in a summary.
pub fn rows<'a>(summary: &'a Places, starts: &[usize; STARTS], p: usize) -> &'a [Bits]
    requires { Rowed starts.now p }
    ensures { result.now ≡ rows_of summary.now starts.now p }
{
    &summary[starts[p]..starts[p + 1]]
}

// Walks the body of procedure p, whose rows begin at place `row`; answers where the next rows begin.
pub fn body(book: &[u8], old: &Places, new: &mut Places, p: usize, row: usize) -> usize
    requires { BodyPre book.now old.now new.old p row }
    ensures { BodyPost book.now old.now new.old p row new.new result }
{
    let at = offset(book, p);
    let parameters = parameters(book, p);
    let w = parameters + locals(book, p);
    let mut sets = start(parameters);
    closing(&Walk { book, old, p, w }, new, at, row, &mut sets, 0).row()
}
