// Why a call of the library is refused, in the order of the refusals' numbers.
#![tactic(auto)]

ghost use Rattle.std.specs.Prelude.{◌≡◌};
ghost use Rattle.refusals.specs.Numbers.{number, refusal};

use std::error::Error;
use std::fmt;

#[derive(Clone, Copy, Debug, PartialEq, Eq)]
pub enum Refusal {
    // The book is empty or too long.
    Length,
    // The book's table of contents breaks a rule.
    Contents,
    // A body in the book breaks a rule.
    Body,
    // The book holds too many loops.
    Loops,
    // The level table is not valid.
    Table,
    // The book has no such procedure.
    Procedure,
    // The inputs, or their levels, are not those that the procedure takes.
    Inputs,
    // The summary, or the room for one, has not the size that the book asks.
    Size,
    // The summary does not satisfy the flow rules.
    Flow,
    // There are too few work cells.
    Cells,
    // The budget is too large.
    Budget,
}

impl Refusal {
    // The number under which C knows the refusal; 0 is none.
    pub fn number(self) -> u8
        ensures { result ≡ number self }
    {
        match self {
            Refusal::Length => 1,
            Refusal::Contents => 2,
            Refusal::Body => 3,
            Refusal::Loops => 4,
            Refusal::Table => 5,
            Refusal::Procedure => 6,
            Refusal::Inputs => 7,
            Refusal::Size => 8,
            Refusal::Flow => 9,
            Refusal::Cells => 10,
            Refusal::Budget => 11,
        }
    }
}

impl fmt::Display for Refusal {
    fn fmt<W: fmt::Write>(&self, f: &mut fmt::Formatter<W>) -> fmt::Result {
        f.write_str(match self {
            Refusal::Length => "the book is empty or has more than 32768 bytes",
            Refusal::Contents => "the book's table of contents breaks a rule",
            Refusal::Body => "a body in the book breaks a rule",
            Refusal::Loops => "the book holds more than 64 loops",
            Refusal::Table => "the level table is not valid",
            Refusal::Procedure => "the book has no such procedure",
            Refusal::Inputs =>
                "there is not one level for each input, or a level is not in the table",
            Refusal::Size => "the summary's length is not the size that the book asks",
            Refusal::Flow => "the summary does not satisfy the flow rules",
            Refusal::Cells => "there are fewer than 1024 work cells",
            Refusal::Budget => "the budget is more than 1000000 steps",
        })
    }
}

impl Error for Refusal {}

// The refusal of a call's answer as C has it: 0 for none.
pub fn number_of<T: Copy>(answer: &Result<T, Refusal>) -> u8
    ensures { result ≡ refusal answer.now }
{
    match answer {
        Ok(_) => 0,
        Err(refusal) => refusal.number(),
    }
}
