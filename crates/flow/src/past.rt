// Expressions that are passed over: a loop over their bytes, with a count of the parts still open.
ghost use Rattle.flow.specs.Exprs.{PastPre, PastPost};

use book::bytes::number;
use book::codes::{CALL, CONSTANT, OPERATION};
use book::entry::parameters;

// Where the part after n expressions begins.
// The runner's `row::<Expr>` does the same over its own relations (kept: no plainer, as these and their laws would have to move here).
pub fn past(book: &[u8], at: usize, n: usize) -> usize
    requires { PastPre book.now n at }
    ensures { PastPost book.now n at result }
{
    let mut at = at;
    let mut open = n;
    while 0 < open {
        let code = book[at];
        if code == OPERATION {
            at += 2;
            open += 1;
            continue;
        }
        open -= 1;
        if code == CONSTANT {
            at += 5;
            continue;
        }
        if code == CALL {
            let p = number(book[at + 1]);
            open += parameters(book, p);
        }
        at += 2;
    }
    at
}
