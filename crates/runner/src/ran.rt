// What a run has come to, and its numbers in the document.
ghost use Rattle.std.specs.Prelude.{◌≡◌};
ghost use Rattle.runner.specs.Endings.{number, value};

// How a run has ended; a finished one has a value.
#[derive(Clone, Copy, Debug, PartialEq, Eq)]
pub enum Ending {
    Finished(u32),
    OutOfSteps,
    TooDeep,
}

impl Ending {
    pub fn number(self) -> u8
        ensures { result ≡ number self }
    {
        match self {
            Ending::Finished(_) => 1,
            Ending::OutOfSteps => 2,
            Ending::TooDeep => 3,
        }
    }

    // The value, 0 unless the run has finished.
    pub fn value(self) -> u32
        ensures { result ≡ value self }
    {
        match self {
            Ending::Finished(value) => value,
            _ => 0,
        }
    }
}

// A run that was not refused: how it has ended, and the steps spent.
#[derive(Clone, Copy, Debug, PartialEq, Eq)]
pub struct Ran {
    pub ending: Ending,
    pub steps: u64,
}
