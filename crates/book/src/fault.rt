// Why a body breaks a rule, and where.
ghost use Rattle.std.specs.Prelude.{◌≡◌, ◌+◌, ◌<◌, ◌^◌};
ghost use Rattle.book.specs.Faults.{number};

use std::error::Error;
use std::fmt;

// The rule that a body breaks, in the order of the rules' numbers.
#[derive(Clone, Copy, Debug, PartialEq, Eq)]
pub enum Reason {
    // The bytes end before the part does.
    EndedEarly,
    // A part has no level of depth left.
    TooDeep,
    // No expression, command or closing command has this code.
    UnknownCode,
    // The procedure has no such variable.
    NoVariable,
    // There is no such operation.
    NoOperation,
    // The book has no such procedure.
    NoProcedure,
    // Bytes are left behind a body's closing sequence.
    LeftOver,
}

impl Reason {
    pub fn number(self) -> u8
        ensures { result ≡ number self }
    {
        match self {
            Reason::EndedEarly => 1,
            Reason::TooDeep => 2,
            Reason::UnknownCode => 3,
            Reason::NoVariable => 4,
            Reason::NoOperation => 5,
            Reason::NoProcedure => 6,
            Reason::LeftOver => 7,
        }
    }

    pub(crate) fn at(self, place: usize) -> Fault
        ensures { result ≡ record { reason = self; place = place } }
    {
        Fault {
            reason: self,
            place,
        }
    }
}

impl fmt::Display for Reason {
    fn fmt<W: fmt::Write>(&self, f: &mut fmt::Formatter<W>) -> fmt::Result {
        f.write_str(match self {
            Reason::EndedEarly => "a body ends too early",
            Reason::TooDeep => "a part lies deeper than 24 levels",
            Reason::UnknownCode => "a code is unknown",
            Reason::NoVariable => "the procedure has no such variable",
            Reason::NoOperation => "there is no such operation",
            Reason::NoProcedure => "the book has no such procedure",
            Reason::LeftOver => "bytes are left behind a body's closing sequence",
        })
    }
}

// A rule that is broken, and the place: from the start of the part that was read, or of the book.
#[derive(Clone, Copy, Debug, PartialEq, Eq)]
pub struct Fault {
    pub reason: Reason,
    pub place: usize,
}

impl Fault {
    // The same, told from so many bytes before. It stands apart, so that reading what keeps the rules stays quick.
    #[cold]
    #[inline(never)]
    pub(crate) fn after(self, bytes: usize) -> Fault
        requires { bytes + self.place < 2 ^ 64 }
        ensures { result ≡ record { reason = self.reason; place = bytes + self.place } }
    {
        self.reason.at(bytes + self.place)
    }
}

impl fmt::Display for Fault {
    fn fmt<W: fmt::Write>(&self, f: &mut fmt::Formatter<W>) -> fmt::Result {
        write!(f, "{} at byte {}", self.reason, self.place)
    }
}

impl Error for Fault {}
