// Ordinary commands, and runs of them. Each is read from the start of its part; `depth` levels of depth are left for it.
ghost use Rattle.std.specs.Prelude.{◌≡◌, ◌≤◌, length};
ghost use Rattle.meaning.specs.Reading.{an_assignment, an_if, a_while};
ghost use Rattle.book.specs.Taken.{told};
ghost use Rattle.book.specs.Parts.{known, command_taken, command_as, ending, ordinaries_taken, run_taken};

use crate::bytes::number;
use crate::expression::expr;
use crate::fault::{Fault, Reason};
use crate::scope::Scope;
use crate::taken::{Taken, byte};

// The codes that end ordinary commands: those of closing commands, or 00.
fn ends(code: u8, closed: bool) -> bool
    ensures { result ≡ ending closed code }
{
    if closed {
        code == 0x04 || code == 0x05
    } else {
        code == 0x00
    }
}

// 01 x E, the expression with `depth` levels left.
fn assignment(part: &[u8], scope: &Scope, depth: usize) -> Result<Taken, Fault>
    ensures { told result ≡ command_as an_assignment (known scope.now) depth part.now }
{
    let x = byte(part, 1)?;
    if number(x) < scope.variables {
        Taken::bytes(2).then(expr(&part[2..], scope, depth))
    } else {
        Err(Reason::NoVariable.at(1))
    }
}

#[cycle(commands)]
pub fn ordinary(part: &[u8], scope: &Scope, depth: usize) -> Result<Taken, Fault>
    ensures { told result ≡ command_taken (known scope.now) depth part.now }
{
    let code = byte(part, 0)?;
    if depth == 0 {
        return Err(Reason::TooDeep.at(0));
    }
    match code {
        0x01 => assignment(part, scope, depth - 1),
        0x02 => branch(part, scope, depth - 1),
        0x03 => repeat(part, scope, depth - 1),
        _ => Err(Reason::UnknownCode.at(0)),
    }
}

// 02 E S 00 S 00, what is inside with `depth` levels left.
// See `closing::pick`, of which it is the like for runs.
#[cycle(commands)]
fn branch(part: &[u8], scope: &Scope, depth: usize) -> Result<Taken, Fault>
    requires { 1 ≤ length part.now }
    ensures { told result ≡ command_as an_if (known scope.now) depth part.now }
{
    let test = Taken::bytes(1).then(expr(&part[1..], scope, depth))?;
    let yes = test.then(several(&part[test.bytes..], scope, depth))?;
    yes.then(several(&part[yes.bytes..], scope, depth))
}

// 03 E S 00, what is inside with `depth` levels left.
#[cycle(commands)]
fn repeat(part: &[u8], scope: &Scope, depth: usize) -> Result<Taken, Fault>
    requires { 1 ≤ length part.now }
    ensures { told result ≡ command_as a_while (known scope.now) depth part.now }
{
    let this = Taken { bytes: 1, loops: 1 };
    let test = this.then(expr(&part[1..], scope, depth))?;
    test.then(several(&part[test.bytes..], scope, depth))
}

// S 00.
#[cycle(commands)]
fn several(part: &[u8], scope: &Scope, depth: usize) -> Result<Taken, Fault>
    ensures { told result ≡ run_taken (known scope.now) depth part.now }
{
    let run = commands(part, false, scope, depth)?;
    Ok(Taken {
        bytes: run.bytes + 1,
        ..run
    })
}

// Ordinary commands up to a code that ends them.
#[cycle(commands)]
pub fn commands(part: &[u8], closed: bool, scope: &Scope, depth: usize) -> Result<Taken, Fault>
    ensures { told result ≡ ordinaries_taken closed (known scope.now) depth part.now }
{
    let mut read = Taken::bytes(0);
    while read.bytes < part.len() {
        if ends(part[read.bytes], closed) {
            return Ok(read);
        }
        read = read.then(ordinary(&part[read.bytes..], scope, depth))?;
    }
    Err(Reason::EndedEarly.at(read.bytes))
}
