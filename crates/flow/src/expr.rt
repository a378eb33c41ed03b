// The set of the expression at a place of a book.
ghost use Rattle.std.specs.Prelude.{◌≡◌, ◌≤◌, length, take};
ghost use Rattle.meaning.specs.Limits.{most_parameters};
ghost use Rattle.meaning.specs.Sets.{gather as gathered};
ghost use Rattle.flow.specs.Exprs.{ExprPre, CodedPre, ExprAnswer};

use crate::packed::Flow;
use crate::past::past;
use crate::row::Row;
use crate::walk::Walk;
use book::bytes::number;
use book::codes::{CONSTANT, OPERATION, VARIABLE};
use book::entry::parameters;
use book::limits::MOST_PARAMETERS;
use sets::{Bits, Set};

// The parts still open one after the other: an operation opens its operands.
#[cycle(expressions)]
pub fn expr(walk: &Walk, at: usize, sets: &Row) -> Flow
    requires { ExprPre walk.now.book.now walk.now.old.now at }
    ensures { ExprAnswer walk.now.book.now walk.now.old.now sets.now at result }
{
    let mut at = at;
    let mut open: usize = 1;
    let mut set: Bits = 0;
    while 0 < open {
        let code = walk.book[at];
        if code == OPERATION {
            at += 2;
            open += 1;
            continue;
        }
        open -= 1;
        if code == VARIABLE {
            let x = number(walk.book[at + 1]);
            set = set | sets[x];
            at += 2;
            continue;
        }
        if code == CONSTANT {
            at += 5;
            continue;
        }
        let one = call(walk, at, sets);
        set = set | one.set();
        at = one.next();
    }
    Flow::new(set, at)
}

// Only the argument sets whose position is in the callee's result set; the other arguments are passed over.
#[cycle(expressions)]
fn call(walk: &Walk, at: usize, sets: &Row) -> Flow
    requires { CodedPre 0x13 walk.now.book.now walk.now.old.now at }
    ensures { ExprAnswer walk.now.book.now walk.now.old.now sets.now at result }
{
    let p = number(walk.book[at + 1]);
    let n = parameters(walk.book, p);
    let result = walk.old[p];
    if result == 0 {
        return Flow::new(0, past(walk.book, at + 2, n));
    }
    let chosen = Set { bits: result };
    let mut given = Given {
        sets: [0; MOST_PARAMETERS],
    };
    let mut next = at + 2;
    for i in 0..n {
        if chosen.has(i) {
            let one = expr(walk, next, sets);
            given.sets[i] = one.set();
            next = one.next();
        } else {
            next = past(walk.book, next, 1);
        }
    }
    Flow::new(given.gather(chosen, n), next)
}

// The argument sets of a call.
#[derive(Clone, Copy)]
struct Given {
    sets: [Bits; MOST_PARAMETERS],
}

impl Given {
    // The union of those of the first n sets whose position is chosen.
    fn gather(self, chosen: Set, n: usize) -> Bits
        requires { (n ≤ most_parameters) × (length self.sets ≡ most_parameters) }
        ensures { result ≡ gathered chosen (take n self.sets) }
    {
        let mut union: Bits = 0;
        for i in 0..n {
            if chosen.has(i) {
                union = union | self.sets[i];
            }
        }
        union
    }
}
