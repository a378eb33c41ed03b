// What a closing sequence adds to the summary: its loops' rows, and the result set of procedure p.
ghost use Rattle.flow.specs.Walks.{by, standing, ClosingPre, ClosingCodedPre, ClosingAnswer};

use crate::command::commands;
use crate::copy::Places;
use crate::expr::expr;
use crate::packed::Place;
use crate::row::Row;
use crate::walk::Walk;
use book::codes::GIVE;
use sets::Bits;

// The ordinary commands, and the closing command.
#[cycle(closings)]
pub fn closing(
    walk: &Walk,
    new: &mut Places,
    at: usize,
    row: usize,
    sets: &mut Row,
    guard: Bits,
) -> Place
    requires { ClosingPre (by walk.now) walk.now.p (standing at row new.old sets.old) }
    ensures { ClosingAnswer (by walk.now) walk.now.p
        guard (standing at row new.old sets.old) new.new result }
{
    let last = commands(walk, new, at, row, sets, guard);
    let at = last.at();
    let code = walk.book[at];
    if code == GIVE {
        return give(walk, new, at, last.row(), sets, guard);
    }
    pick(walk, new, at, last.row(), sets, guard)
}

// The returned set and the guard must lie in the result set.
fn give(walk: &Walk, new: &mut Places, at: usize, row: usize, sets: &Row, guard: Bits) -> Place
    requires { ClosingCodedPre 0x04 (by walk.now) walk.now.p (standing at row new.old sets.now) }
    ensures { ClosingAnswer (by walk.now) walk.now.p
        guard (standing at row new.old sets.now) new.new result }
{
    let value = expr(walk, at + 1, sets);
    new[walk.p] = new[walk.p] | value.under(guard);
    Place::new(value.next(), row)
}

// Both closing sequences start from the same sets, with the condition's set in the guard.
// `command::branch` joins the sets at its end, this keeps none (kept apart: no plainer, two lines are shared).
#[cycle(closings)]
fn pick(walk: &Walk, new: &mut Places, at: usize, row: usize, sets: &mut Row, guard: Bits) -> Place
    requires { ClosingCodedPre 0x05 (by walk.now) walk.now.p (standing at row new.old sets.old) }
    ensures { ClosingAnswer (by walk.now) walk.now.p
        guard (standing at row new.old sets.old) new.new result }
{
    let test = expr(walk, at + 1, sets);
    let both = test.under(guard);
    let mut other = *sets;
    let yes = closing(walk, new, test.next(), row, &mut other, both);
    closing(walk, new, yes.at(), yes.row(), sets, both)
}
