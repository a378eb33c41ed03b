// Where parts end: looked up in a memo, or found once and kept there.
ghost use Rattle.std.specs.Prelude.{ℕ, ◌<◌, length};
ghost use Rattle.runner.specs.Skipping.{SomeExpr, SomeRun, SomeCmd, PartPre, PartPost};
ghost use Rattle.runner.specs.Jumping.{SomeIf, SomePick, JumpPre, JumpPost, Noted, CmdEndPost, TakenPost, PickedPost};

use crate::skip::{Closing, Expr, Run, row};

// The place that a part leads to, looked up in the memo, or found and kept there. An entry of 0 is none yet; an Option would
// take twice the room of 16 bits (kept: fixed memory, on the stack).
fn noted<F: FnOnce() -> usize>(jumps: &mut [u16], at: usize, find: F) -> usize
    requires there { at < length jumps.old }
    requires can { F.pre find }
    requires small { (r : ℕ) → F.post find r → r < 65536 }
    ensures { Noted (F.post find) jumps.old at jumps.new result }
{
    let known = usize::from(jumps[at]);
    if known != 0 {
        return known;
    }
    let found = find();
    jumps[at] = found as u16;
    found
}

// The expression at `at`; a leaf's end is known.
pub fn expr_end(book: &[u8], jumps: &mut [u16], at: usize) -> usize
    requires { JumpPre (SomeExpr book.now) book.now at jumps.old }
    ensures { JumpPost book.now at jumps.new result }
{
    match book[at] {
        0x11 => at + 2,
        0x10 => at + 5,
        _ => noted(jumps, at, || row::<Expr>(book, at, 1)),
    }
}

// The run at `at`.
pub fn run_end(book: &[u8], jumps: &mut [u16], at: usize) -> usize
    requires { JumpPre (SomeRun book.now) book.now at jumps.old }
    ensures { JumpPost book.now at jumps.new result }
{
    noted(jumps, at, || row::<Run>(book, at, 1))
}

// The second sequence of the closing if at `at`, behind its test and its first.
fn past_first(book: &[u8], at: usize) -> usize
    requires { PartPre (SomePick book.now) book.now at }
    ensures { PartPost (SomePick book.now) book.now at result }
{
    let first = row::<Expr>(book, at + 1, 1);
    row::<Closing>(book, first, 1)
}

pub fn second(book: &[u8], jumps: &mut [u16], at: usize) -> usize
    requires { JumpPre (SomePick book.now) book.now at jumps.old }
    ensures { JumpPost book.now at jumps.new result }
{
    noted(jumps, at, || past_first(book, at))
}

// The command at `at`.
pub fn command_end(book: &[u8], jumps: &mut [u16], at: usize) -> usize
    requires { JumpPre (SomeCmd book.now) book.now at jumps.old }
    ensures { CmdEndPost book.now at jumps.new result }
{
    let k = book[at];
    if k == 0x01 {
        return expr_end(book, jumps, at + 2);
    }
    let first = expr_end(book, jumps, at + 1);
    let end = run_end(book, jumps, first);
    if k == 0x03 {
        return end;
    }
    run_end(book, jumps, end)
}

// Where the run of the if at `at` begins that its test's value takes.
pub fn taken(book: &[u8], jumps: &mut [u16], at: usize, value: u32) -> usize
    requires { JumpPre (SomeIf book.now) book.now at jumps.old }
    ensures { TakenPost book.now at jumps.new value result }
{
    let first = expr_end(book, jumps, at + 1);
    if value != 0 {
        return first;
    }
    run_end(book, jumps, first)
}

// The same for the sequence of a closing if.
// (Kept apart from `taken`: no plainer, since the two share one call and name other parts.)
pub fn picked(book: &[u8], jumps: &mut [u16], at: usize, value: u32) -> usize
    requires { JumpPre (SomePick book.now) book.now at jumps.old }
    ensures { PickedPost book.now at jumps.new value result }
{
    if value != 0 {
        return expr_end(book, jumps, at + 1);
    }
    second(book, jumps, at)
}
