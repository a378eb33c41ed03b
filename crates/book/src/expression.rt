// Expressions. Each is read from the start of its part; `depth` levels of depth are left for it.
ghost use Rattle.std.specs.Prelude.{◌≡◌, [], ◌≤◌, length};
ghost use Rattle.meaning.specs.Reading.{a_constant, a_variable, an_operation, a_call};
ghost use Rattle.book.specs.Taken.{told};
ghost use Rattle.book.specs.Parts.{naming, known, expr_taken, expr_as, arguments_taken};

use crate::bytes::number;
use crate::entry::parameters;
use crate::fault::{Fault, Reason};
use crate::scope::Scope;
use crate::taken::{Taken, byte};

// 10 and four bytes.
fn constant(part: &[u8]) -> Result<Taken, Fault>
    requires { 1 ≤ length part.now }
    ensures { told result ≡ expr_as a_constant (naming 0 []) 0 part.now }
{
    if part.len() < 5 {
        return Err(Reason::EndedEarly.at(part.len()));
    }
    Ok(Taken::bytes(5))
}

// 11 x.
fn variable(part: &[u8], variables: usize) -> Result<Taken, Fault>
    ensures { told result ≡ expr_as a_variable (naming variables []) 0 part.now }
{
    let x = byte(part, 1)?;
    if number(x) < variables {
        Ok(Taken::bytes(2))
    } else {
        Err(Reason::NoVariable.at(1))
    }
}

#[cycle(expressions)]
pub fn expr(part: &[u8], scope: &Scope, depth: usize) -> Result<Taken, Fault>
    ensures { told result ≡ expr_taken (known scope.now) depth part.now }
{
    let code = byte(part, 0)?;
    if depth == 0 {
        return Err(Reason::TooDeep.at(0));
    }
    match code {
        0x10 => constant(part),
        0x11 => variable(part, scope.variables),
        0x12 => operation(part, scope, depth - 1),
        0x13 => call(part, scope, depth - 1),
        _ => Err(Reason::UnknownCode.at(0)),
    }
}

// How many operations there are.
const OPERATIONS: u8 = 8;

// 12 o E E, the operands with `depth` levels left.
#[cycle(expressions)]
fn operation(part: &[u8], scope: &Scope, depth: usize) -> Result<Taken, Fault>
    ensures { told result ≡ expr_as an_operation (known scope.now) depth part.now }
{
    let o = byte(part, 1)?;
    if o < OPERATIONS {
        arguments(part, 2, scope, depth)
    } else {
        Err(Reason::NoOperation.at(1))
    }
}

// 13 p E.., the arguments with `depth` levels left.
#[cycle(expressions)]
fn call(part: &[u8], scope: &Scope, depth: usize) -> Result<Taken, Fault>
    ensures { told result ≡ expr_as a_call (known scope.now) depth part.now }
{
    let p = byte(part, 1)?;
    if p < scope.book[0] {
        arguments(part, parameters(scope.book, number(p)), scope, depth)
    } else {
        Err(Reason::NoProcedure.at(1))
    }
}

// `count` expressions behind the two bytes of an operation or a call.
#[cycle(expressions)]
fn arguments(part: &[u8], count: usize, scope: &Scope, depth: usize) -> Result<Taken, Fault>
    requires { 2 ≤ length part.now }
    ensures { told result ≡ arguments_taken count (known scope.now) depth part.now }
{
    let mut read = Taken::bytes(2);
    for _ in 0..count {
        read = read.then(expr(&part[read.bytes..], scope, depth))?;
    }
    Ok(read)
}
