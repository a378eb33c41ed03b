// Closing sequences and bodies. Each is read from the start of its part; `depth` levels of depth are left for its commands.
ghost use Rattle.std.specs.Prelude.{◌≡◌, ◌≤◌, length};
ghost use Rattle.meaning.specs.Reading.{a_pick};
ghost use Rattle.book.specs.Taken.{told};
ghost use Rattle.book.specs.Parts.{known, closing_taken, closer_taken, closer_as, body_taken};

use crate::command::commands;
use crate::expression::expr;
use crate::fault::{Fault, Reason};
use crate::limits::MOST_DEPTH;
use crate::scope::Scope;
use crate::taken::{Taken, byte};

// Ordinary commands, then a closing command.
#[cycle(closings)]
fn sequence(part: &[u8], scope: &Scope, depth: usize) -> Result<Taken, Fault>
    ensures { told result ≡ closing_taken (known scope.now) depth part.now }
{
    byte(part, 0)?;
    if depth == 0 {
        return Err(Reason::TooDeep.at(0));
    }
    let run = commands(part, true, scope, depth)?;
    run.then(last(&part[run.bytes..], scope, depth - 1))
}

// 04 E or 05 E C C, what is inside with `depth` levels left. It is never inlined: within `sequence` its answers would be put
// together byte by byte, on which a book of many short bodies waits.
#[cycle(closings)]
#[inline(never)]
fn last(part: &[u8], scope: &Scope, depth: usize) -> Result<Taken, Fault>
    ensures { told result ≡ closer_taken (known scope.now) depth part.now }
{
    match byte(part, 0)? {
        0x04 => Taken::bytes(1).then(expr(&part[1..], scope, depth)),
        0x05 => pick(part, scope, depth),
        _ => Err(Reason::UnknownCode.at(0)),
    }
}

// 05 E C C.
// With `command::branch` it shares three calls of `then` (kept: no plainer, as one function would take a closure back into either cycle).
#[cycle(closings)]
fn pick(part: &[u8], scope: &Scope, depth: usize) -> Result<Taken, Fault>
    requires { 1 ≤ length part.now }
    ensures { told result ≡ closer_as a_pick (known scope.now) depth part.now }
{
    let test = Taken::bytes(1).then(expr(&part[1..], scope, depth))?;
    let yes = test.then(sequence(&part[test.bytes..], scope, depth))?;
    yes.then(sequence(&part[yes.bytes..], scope, depth))
}

// One closing sequence, and nothing after it.
pub fn body(part: &[u8], scope: &Scope) -> Result<Taken, Fault>
    ensures { told result ≡ body_taken (known scope.now) part.now }
{
    let all = sequence(part, scope, MOST_DEPTH)?;
    let more = all.bytes < part.len();
    if more {
        Err(Reason::LeftOver.at(all.bytes))
    } else {
        Ok(all)
    }
}
