// The cycle of the run: expressions, calls and command sequences call each other. Call depth left, steps left and
// body bytes left, in this order, fall with each call. Where a part ends is asked of the memo (`jumps`); `frame` says how many
// cells are the running call's variables, and how many call depths are left.
// Codes are tested as the book's bytes, and `book`, `jumps` and `work` stand apart (kept: no plainer, as an enum or a lent struct
// of them would put a test or a clause more into each member; docs/DESIGN-PASS.md, 1.21 and 5.9).
ghost use Rattle.std.specs.Prelude.{suc};
ghost use Rattle.runner.specs.Parts.{EvalPre, EvalPost, FormPre, RightPre, RightPost, ArgsPre, ArgsPost, EnterPre, EnterPost, BodyPre, BodyPost};
ghost use Rattle.runner.specs.Step.{packed_of};
ghost use Rattle.runner.specs.Parts.{CmdPre, CmdPost, CmdFormPre, CmdsPre, CmdsPost, ClosingPre, ClosingPost};

use crate::answer::{Answer, Over, Went};
use crate::frame::{Frame, prepared};
use crate::jumps::{command_end, expr_end, picked, taken};
use crate::operate::operate;
use crate::small::{leaf_value, small};
use book::bytes::number;
use book::entry::{offset, parameters};
use book::limits::MOST_PARAMETERS;

// The expression at `at`, over the running call's cells, with `left` steps left: in place where it is small.
#[cycle(running)]
fn quick(
    book: &[u8],
    jumps: &mut [u16],
    at: usize,
    frame: Frame,
    left: u32,
    work: &mut [u32],
) -> Answer
    requires { EvalPre book.now jumps.old at frame left work.old }
    ensures { EvalPost book.now at frame left work.old work.new jumps.new (packed_of result) }
{
    if let Some(a) = small(book, at, left, work) {
        return Ok(a);
    }
    eval(book, jumps, at, frame, left, work)
}

// The same: in place where it is a variable.
// (Kept beside `quick`: no plainer, as with one of them conditions and arguments would make the tests of the other's forms first.)
#[cycle(running)]
fn lookup(
    book: &[u8],
    jumps: &mut [u16],
    at: usize,
    frame: Frame,
    left: u32,
    work: &mut [u32],
) -> Answer
    requires { EvalPre book.now jumps.old at frame left work.old }
    ensures { EvalPost book.now at frame left work.old work.new jumps.new (packed_of result) }
{
    if 0 < left {
        if book[at] == 0x11 {
            let x = number(book[at + 1]);
            return Ok(Went::new(work[x], left - 1));
        }
    }
    eval(book, jumps, at, frame, left, work)
}

// The same for any expression: a member for each form that has parts.
#[cycle(running)]
fn eval(
    book: &[u8],
    jumps: &mut [u16],
    at: usize,
    frame: Frame,
    left: u32,
    work: &mut [u32],
) -> Answer
    requires { EvalPre book.now jumps.old at frame left work.old }
    ensures { EvalPost book.now at frame left work.old work.new jumps.new (packed_of result) }
{
    if left == 0 {
        return Err(Over::out_of_steps());
    }
    let k = book[at];
    if k == 0x12 {
        return apply(book, jumps, at, frame, left - 1, work);
    }
    if k == 0x13 {
        return call(book, jumps, at, frame, left - 1, work);
    }
    Ok(Went::new(leaf_value(book, at, work), left - 1))
}

// An operation whose step is spent: its left operand first.
#[cycle(running)]
fn apply(
    book: &[u8],
    jumps: &mut [u16],
    at: usize,
    frame: Frame,
    left: u32,
    work: &mut [u32],
) -> Answer
    requires { FormPre 0x12 book.now jumps.old at frame left work.old }
    ensures { EvalPost book.now at frame (suc left) work.old work.new jumps.new (packed_of result) }
{
    let a = quick(book, jumps, at + 2, frame, left, work)?;
    right(book, jumps, at, frame, a, work)
}

// An operation whose left operand came to `a`: the right operand, and then the operation itself.
#[cycle(running)]
fn right(
    book: &[u8],
    jumps: &mut [u16],
    at: usize,
    frame: Frame,
    a: Went,
    work: &mut [u32],
) -> Answer
    requires { RightPre book.now jumps.old at frame a.packed work.old }
    ensures { RightPost book.now at frame a.packed work.old work.new jumps.new (packed_of result) }
{
    let mid = expr_end(book, jumps, at + 2);
    let b = quick(book, jumps, mid, frame, a.left(), work)?;
    operate(book[at + 1], a.value(), b.value(), b.left())
}

// A call whose step is spent: the arguments, and then the procedure, whose cells begin after its caller's.
#[cycle(running)]
fn call(
    book: &[u8],
    jumps: &mut [u16],
    at: usize,
    frame: Frame,
    left: u32,
    work: &mut [u32],
) -> Answer
    requires { FormPre 0x13 book.now jumps.old at frame left work.old }
    ensures { EvalPost book.now at frame (suc left) work.old work.new jumps.new (packed_of result) }
{
    let p = number(book[at + 1]);
    let count = parameters(book, p);
    let mut values = [0u32; MOST_PARAMETERS];
    let a = gather(book, jumps, at + 2, count, frame, left, work, &mut values)?;
    enter(book, jumps, p, &values, frame, a.left(), work)
}

// The arguments of a call, left to right, gathered before the call is entered.
// (The number of an argument is needed with its place. Kept: an iterator over the values is no plainer.)
#[cycle(running)]
fn gather(
    book: &[u8],
    jumps: &mut [u16],
    at: usize,
    count: usize,
    frame: Frame,
    left: u32,
    work: &mut [u32],
    values: &mut [u32; MOST_PARAMETERS],
) -> Answer
    requires { ArgsPre book.now jumps.old at count frame left work.old values.old }
    ensures { ArgsPost book.now at count frame left work.old work.new jumps.new values.new (packed_of result) }
{
    let mut at = at;
    let mut left = left;
    for i in 0..count {
        let a = lookup(book, jumps, at, frame, left, work)?;
        values[i] = a.value();
        left = a.left();
        at = expr_end(book, jumps, at);
    }
    Ok(Went::new(0, left))
}

// Procedure `p` on the values given, in the cells after its caller's; with no call depth left it is too deep.
#[cycle(running)]
pub fn enter(
    book: &[u8],
    jumps: &mut [u16],
    p: usize,
    given: &[u32; MOST_PARAMETERS],
    frame: Frame,
    left: u32,
    work: &mut [u32],
) -> Answer
    requires { EnterPre book.now jumps.old p given.now frame left work.old }
    ensures { EnterPost book.now p given.now frame left work.old work.new jumps.new (packed_of result) }
{
    let d = frame.depths();
    if d == 0 {
        return Err(Over::too_deep(left));
    }
    let n = frame.cells();
    body(book, jumps, p, given, d - 1, left, &mut work[n..])
}

// The same with the cells of its own, and `d` call depths left below it.
#[cycle(running)]
fn body(
    book: &[u8],
    jumps: &mut [u16],
    p: usize,
    given: &[u32; MOST_PARAMETERS],
    d: u32,
    left: u32,
    work: &mut [u32],
) -> Answer
    requires { BodyPre book.now jumps.old p given.now d left work.old }
    ensures { BodyPost book.now p given.now d left jumps.new (packed_of result) }
{
    let n = prepared(book, p, given, work);
    let at = offset(book, p);
    finish(book, jumps, at, Frame::new(n, d), left, work)
}

// The closing sequence at `at`: its commands, and then a return or a closing if.
#[cycle(running)]
fn finish(
    book: &[u8],
    jumps: &mut [u16],
    at: usize,
    frame: Frame,
    left: u32,
    work: &mut [u32],
) -> Answer
    requires { ClosingPre book.now jumps.old at frame left work.old }
    ensures { ClosingPost book.now at frame left work.old jumps.new (packed_of result) }
{
    let mut at = at;
    let mut left = left;
    loop {
        let k = book[at];
        if k < 0x04 {
            let s = acts(book, jumps, at, frame, left, work)?;
            at = s.value() as usize;
            left = s.left();
            continue;
        }
        if left == 0 {
            return Err(Over::out_of_steps());
        }
        let a = quick(book, jumps, at + 1, frame, left - 1, work);
        if k == 0x04 {
            return a;
        }
        let a = a?;
        left = a.left();
        at = picked(book, jumps, at, a.value());
    }
}

// The commands from `at` on, as far as they go: the place where they end.
#[cycle(running)]
fn acts(
    book: &[u8],
    jumps: &mut [u16],
    at: usize,
    frame: Frame,
    left: u32,
    work: &mut [u32],
) -> Answer
    requires { CmdsPre book.now jumps.old at frame left work.old }
    ensures { CmdsPost book.now at frame left work.old work.new jumps.new (packed_of result) }
{
    let mut at = at;
    let mut left = left;
    loop {
        let k = book[at];
        if k == 0x00 {
            return Ok(Went::new(at as u32, left));
        }
        if 0x03 < k {
            return Ok(Went::new(at as u32, left));
        }
        let a = act(book, jumps, at, frame, left, work)?;
        left = a.left();
        at = command_end(book, jumps, at);
    }
}

// The command at `at`.
#[cycle(running)]
fn act(
    book: &[u8],
    jumps: &mut [u16],
    at: usize,
    frame: Frame,
    left: u32,
    work: &mut [u32],
) -> Answer
    requires { CmdPre book.now jumps.old at frame left work.old }
    ensures { CmdPost book.now at frame left work.old work.new jumps.new (packed_of result) }
{
    let k = book[at];
    if k == 0x03 {
        return turns(book, jumps, at, frame, left, work);
    }
    if left == 0 {
        return Err(Over::out_of_steps());
    }
    if k == 0x01 {
        return assign(book, jumps, at, frame, left - 1, work);
    }
    branch(book, jumps, at, frame, left - 1, work)
}

// An assignment whose step is spent.
#[cycle(running)]
fn assign(
    book: &[u8],
    jumps: &mut [u16],
    at: usize,
    frame: Frame,
    left: u32,
    work: &mut [u32],
) -> Answer
    requires { CmdFormPre 0x01 book.now jumps.old at frame left work.old }
    ensures { CmdPost book.now at frame (suc left) work.old work.new jumps.new (packed_of result) }
{
    let a = quick(book, jumps, at + 2, frame, left, work)?;
    let x = number(book[at + 1]);
    work[x] = a.value();
    Ok(a)
}

// An if whose step is spent: its test, and then one of its runs.
#[cycle(running)]
fn branch(
    book: &[u8],
    jumps: &mut [u16],
    at: usize,
    frame: Frame,
    left: u32,
    work: &mut [u32],
) -> Answer
    requires { CmdFormPre 0x02 book.now jumps.old at frame left work.old }
    ensures { CmdPost book.now at frame (suc left) work.old work.new jumps.new (packed_of result) }
{
    let a = lookup(book, jumps, at + 1, frame, left, work)?;
    let start = taken(book, jumps, at, a.value());
    acts(book, jumps, start, frame, a.left(), work)
}

// A loop: each test of its condition spends a step first.
#[cycle(running)]
fn turns(
    book: &[u8],
    jumps: &mut [u16],
    at: usize,
    frame: Frame,
    left: u32,
    work: &mut [u32],
) -> Answer
    requires { CmdFormPre 0x03 book.now jumps.old at frame left work.old }
    ensures { CmdPost book.now at frame left work.old work.new jumps.new (packed_of result) }
{
    let inside = expr_end(book, jumps, at + 1);
    let mut left = left;
    while left != 0 {
        let a = lookup(book, jumps, at + 1, frame, left - 1, work)?;
        if a.value() == 0 {
            return Ok(a);
        }
        let s = acts(book, jumps, inside, frame, a.left(), work)?;
        left = s.left();
    }
    Err(Over::out_of_steps())
}
