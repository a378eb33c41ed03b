// An assignment: the variables' sets after it.
ghost use Rattle.flow.specs.Walks.{AssignPre, AssignPost};

use crate::expr::expr;
use crate::row::{Row, replace};
use crate::walk::Walk;
use book::bytes::number;
use book::codes::{CONSTANT, VARIABLE};
use sets::Bits;

// The expression's set and the guard replace the variable's set; answers where the next part begins.
pub fn assign(walk: &Walk, at: usize, sets: &mut Row, guard: Bits) -> usize
    requires { AssignPre walk.now.book.now walk.now.old.now at sets.old }
    ensures { AssignPost walk.now.book.now walk.now.old.now at sets.old guard sets.new result }
{
    let x = number(walk.book[at + 1]);
    let code = walk.book[at + 2];
    if code == VARIABLE {
        let y = number(walk.book[at + 3]);
        let set = sets[y] | guard;
        replace(sets, x, set);
        return at + 4;
    }
    if code == CONSTANT {
        replace(sets, x, guard);
        return at + 7;
    }
    let value = expr(walk, at + 2, sets);
    replace(sets, x, value.under(guard));
    value.next()
}
