// A set of parameters: one byte, bit i for parameter i.
#![tactic(auto)]

ghost use Rattle.std.specs.Prelude.{◌≡◌, ℕ, ◌≤◌, ◌<◌};
ghost use Rattle.meaning.specs.Limits.{most_parameters};
ghost use Rattle.meaning.specs.Sets.{empty, single, union, member, inside, upto};

use std::marker::Model;

// A set as a number.
pub type Bits = u8;

#[derive(Clone, Copy, Debug, PartialEq, Eq)]
pub struct Set {
    pub bits: Bits,
}

// A clause sees a set as its number.
impl Model for Set {
    ghost Value = { ℕ };

    ghost view = { λ s. s.bits };

    ghost inverse = { λ n. record { bits = n } };
}

impl From<Bits> for Set {
    ghost from_gives = { λ bits set. set ≡ bits };

    fn from(bits: Bits) -> Set {
        Set { bits }
    }
}

impl From<Set> for Bits {
    ghost from_gives = { λ set bits. bits ≡ set };

    fn from(set: Set) -> Bits {
        set.bits
    }
}

impl Set {
    // The set that names no parameter.
    pub const EMPTY: Set = Set { bits: 0 };

    // The set of one parameter.
    pub fn one(i: usize) -> Set
        requires { i < most_parameters }
        ensures { result ≡ single i }
    {
        Set { bits: 1 << i }
    }

    // What either set names.
    pub fn union(self, other: Set) -> Set
        ensures { result ≡ union self other }
    {
        Set {
            bits: self.bits | other.bits,
        }
    }

    // Parameter i is in the set.
    pub fn has(self, i: usize) -> bool
        requires { i < most_parameters }
        ensures { result ≡ member i self }
    {
        (self.bits >> i) % 2 == 1
    }

    // Every parameter that this set names, the other names too.
    pub fn within(self, other: Set) -> bool
        ensures { result ≡ inside self other }
    {
        (self.bits | other.bits) == other.bits
    }

    // The set names none but the first n parameters.
    pub fn among(self, n: usize) -> bool
        requires { n ≤ most_parameters }
        ensures { result ≡ inside self (upto n) }
    {
        (self.bits as u16) >> n == 0
    }
}
