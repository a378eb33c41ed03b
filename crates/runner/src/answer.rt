// What a part of the run comes to: it goes on, with a value and the steps left, or the run is over. Both are one number, so
// that an answer travels in two registers, where one of more fields goes through memory: the value or 0 in the low 32 bits,
// the steps left in the next 29, and in the highest three 0, or how the run has ended.
ghost use Rattle.std.specs.Prelude.{◌<◌, ◌≤◌};
ghost use Rattle.meaning.specs.Limits.{most_steps};
ghost use Rattle.runner.specs.Answer.{Yields, Ends, HasLeft, HasResult};
ghost use Rattle.runner.specs.Answering.{EndsAs};

use crate::ran::Ending;

pub type Answer = Result<Went, Over>;

// The highest three bits of an answer, where the run has ended.
const OUT_OF_STEPS: u64 = 4;

const TOO_DEEP: u64 = 5;

// The run goes on, with a value, or the place after commands.
#[derive(Clone, Copy)]
pub struct Went {
    packed: u64,
    ghost goes: { packed < 0x2000000000000000 },
}

impl Went {
    pub fn new(value: u32, left: u32) -> Went
        requires { left ≤ most_steps }
        ensures { Yields value left result.packed }
    {
        Went {
            packed: u64::from(value) + u64::from(left) * 0x1_0000_0000,
        }
    }

    pub fn value(self) -> u32
        ensures { HasResult self.packed result }
    {
        (self.packed % 0x1_0000_0000) as u32
    }

    pub fn left(self) -> u32
        ensures { HasLeft self.packed result }
    {
        (self.packed / 0x1_0000_0000) as u32
    }
}

// The run is over, without a value.
#[derive(Clone, Copy)]
pub struct Over {
    packed: u64,
    ghost ended: { 0x8000000000000000 ≤ packed },
}

impl Over {
    // A step that would pass the budget is not spent.
    pub fn out_of_steps() -> Over
        ensures { Ends 4 0 result.packed }
    {
        Over {
            packed: OUT_OF_STEPS * 0x2000_0000_0000_0000,
        }
    }

    pub fn too_deep(left: u32) -> Over
        requires { left ≤ most_steps }
        ensures { Ends 5 left result.packed }
    {
        Over {
            packed: TOO_DEEP * 0x2000_0000_0000_0000 + u64::from(left) * 0x1_0000_0000,
        }
    }

    pub fn left(self) -> u32
        ensures { HasLeft self.packed result }
    {
        (self.packed / 0x1_0000_0000 % 0x2000_0000) as u32
    }

    pub fn ending(self) -> Ending
        ensures { EndsAs self.packed result }
    {
        if self.packed / 0x2000_0000_0000_0000 == OUT_OF_STEPS {
            Ending::OutOfSteps
        } else {
            Ending::TooDeep
        }
    }
}
