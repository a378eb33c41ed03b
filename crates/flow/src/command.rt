// Ifs, loops and runs: the variables' sets after them, and what their loops add to the summary.
ghost use Rattle.flow.specs.Walks.{by, standing, NestedPre, CmdCodedPre, LoopPre, CmdAnswer, RunPre, RunAnswer, CommandsPre, CommandsAnswer};

use crate::assign::assign;
use crate::copy::Places;
use crate::expr::expr;
use crate::packed::Place;
use crate::row::{Row, arrive, join};
use crate::walk::Walk;
use book::codes::{ASSIGN, BRANCH, LOOP, STOP};
use sets::Bits;

// An if or a loop.
#[cycle(commands)]
fn nested(
    walk: &Walk,
    new: &mut Places,
    at: usize,
    row: usize,
    sets: &mut Row,
    guard: Bits,
) -> Place
    requires { NestedPre (by walk.now) (standing at row new.old sets.old) }
    ensures { CmdAnswer (by walk.now)
        guard (standing at row new.old sets.old) new.new sets.new result }
{
    let code = walk.book[at];
    if code == BRANCH {
        return branch(walk, new, at, row, sets, guard);
    }
    repeat(walk, new, at, row, sets, guard)
}

// Both runs start from the same sets, with the condition's set in the guard.
#[cycle(commands)]
fn branch(
    walk: &Walk,
    new: &mut Places,
    at: usize,
    row: usize,
    sets: &mut Row,
    guard: Bits,
) -> Place
    requires { CmdCodedPre 0x02 (by walk.now) (standing at row new.old sets.old) }
    ensures { CmdAnswer (by walk.now)
        guard (standing at row new.old sets.old) new.new sets.new result }
{
    let test = expr(walk, at + 1, sets);
    let both = test.under(guard);
    let mut other = *sets;
    let yes = run(walk, new, test.next(), row, sets, both);
    let no = run(walk, new, yes.at(), yes.row(), &mut other, both);
    join(sets, &other);
    no
}

// The condition and the loop's body start from the row of the old summary, and that row is what the loop leaves.
#[cycle(commands)]
fn repeat(
    walk: &Walk,
    new: &mut Places,
    at: usize,
    row: usize,
    sets: &mut Row,
    guard: Bits,
) -> Place
    requires { LoopPre (by walk.now) (standing at row new.old sets.old) }
    ensures { CmdAnswer (by walk.now)
        guard (standing at row new.old sets.old) new.new sets.new result }
{
    arrive(walk.old, new, row, walk.w, sets);
    let test = expr(walk, at + 1, sets);
    let body = run(
        walk,
        new,
        test.next(),
        row + walk.w,
        sets,
        test.under(guard),
    );
    arrive(walk.old, new, row, walk.w, sets); // At the end of a turn.
    body
}

// The commands of a run, and the byte that ends it.
#[cycle(commands)]
fn run(walk: &Walk, new: &mut Places, at: usize, row: usize, sets: &mut Row, guard: Bits) -> Place
    requires { RunPre (by walk.now) (standing at row new.old sets.old) }
    ensures { RunAnswer (by walk.now)
        guard (standing at row new.old sets.old) new.new sets.new result }
{
    let end = commands(walk, new, at, row, sets, guard);
    Place::new(end.at() + 1, end.row())
}

// Commands one after another, up to the byte that ends a run or begins a closing command.
#[cycle(commands)]
pub fn commands(
    walk: &Walk,
    new: &mut Places,
    at: usize,
    row: usize,
    sets: &mut Row,
    guard: Bits,
) -> Place
    requires { CommandsPre (by walk.now) (standing at row new.old sets.old) }
    ensures { CommandsAnswer (by walk.now)
        guard (standing at row new.old sets.old) new.new sets.new result }
{
    let mut row = row;
    let mut at = at;
    loop {
        let code = walk.book[at];
        if code == ASSIGN {
            at = assign(walk, at, sets, guard);
            continue;
        }
        if code == STOP || LOOP < code {
            return Place::new(at, row);
        }
        let one = nested(walk, new, at, row, sets, guard);
        row = one.row();
        at = one.at();
    }
}
