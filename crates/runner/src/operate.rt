// The operations, outside the cycle of the run.
ghost use Rattle.std.specs.Prelude.{◌≡◌, ◌≤◌, ℕ};
ghost use Rattle.meaning.specs.Limits.{most_steps};
ghost use Rattle.runner.specs.Operating.{Named, gives, OperatePost};
ghost use Rattle.runner.specs.Step.{packed_of};

use crate::answer::{Answer, Went};

// The operations, in the order of their numbers.
#[derive(Clone, Copy)]
enum Operation {
    Sum,
    Difference,
    Product,
    Quotient,
    Equal,
    Less,
    Smaller,
    Larger,
}

impl Operation {
    // Of a number that names no operation the contract says nothing.
    fn numbered(number: u8) -> Operation
        ensures { Named number result }
    {
        match number {
            0 => Operation::Sum,
            1 => Operation::Difference,
            2 => Operation::Product,
            3 => Operation::Quotient,
            4 => Operation::Equal,
            5 => Operation::Less,
            6 => Operation::Smaller,
            _ => Operation::Larger,
        }
    }

    fn value(self, a: u32, b: u32) -> u32
        ensures { result ≡ gives self a b }
    {
        match self {
            Operation::Sum => a.wrapping_add(b),
            Operation::Difference => a.wrapping_sub(b),
            Operation::Product => a.wrapping_mul(b),
            Operation::Quotient => a.checked_div(b).unwrap_or(0),
            Operation::Equal => u32::from(a == b),
            Operation::Less => u32::from(a < b),
            Operation::Smaller => a.min(b),
            Operation::Larger => a.max(b),
        }
    }
}

// What operation `o` comes to with `left` steps left.
pub fn operate(o: u8, a: u32, b: u32, left: u32) -> Answer
    requires { left ≤ most_steps }
    ensures { OperatePost o a b left (packed_of result) }
{
    Ok(Went::new(Operation::numbered(o).value(a, b), left))
}
