// Two numbers in one, so that a function's answer travels in a register, where a struct of two goes through memory.
ghost use Rattle.std.specs.Prelude.{◌≡◌, ◌≤◌, ℕ};
ghost use Rattle.meaning.specs.Limits.{most_bytes};
ghost use Rattle.meaning.specs.Sets.{union};
ghost use Rattle.flow.specs.Copies.{most_places};
ghost use Rattle.flow.specs.Packed.{set_in, next_in, at_in, row_in, Flowed, Placed};

use sets::Bits;
use std::marker::Model;

// What the walk of an expression answers: its set, and where the next part begins.
#[derive(Clone, Copy)]
pub struct Flow {
    packed: u64,
}

// A clause sees the one number.
impl Model for Flow {
    ghost Value = { ℕ };

    ghost view = { λ f. f.packed };

    ghost inverse = { λ n. record { packed = n } };
}

impl Flow {
    pub fn new(set: Bits, next: usize) -> Flow
        requires { next ≤ most_bytes }
        ensures { Flowed set next result }
    {
        Flow {
            packed: (set as u64) + 256 * (next as u64),
        }
    }

    pub fn set(self) -> Bits
        ensures { result ≡ set_in self }
    {
        (self.packed % 256) as Bits
    }

    pub fn next(self) -> usize
        ensures { result ≡ next_in self }
    {
        (self.packed / 256) as usize
    }

    // The set together with a guard.
    pub fn under(self, guard: Bits) -> Bits
        ensures { result ≡ union guard (set_in self) }
    {
        guard | self.set()
    }
}

// What the walk of commands answers: where the next part begins, and the place of the next row.
#[derive(Clone, Copy)]
pub struct Place {
    packed: u64,
}

// A clause sees the one number.
impl Model for Place {
    ghost Value = { ℕ };

    ghost view = { λ p. p.packed };

    ghost inverse = { λ n. record { packed = n } };
}

impl Place {
    pub fn new(at: usize, row: usize) -> Place
        requires { (at ≤ most_bytes) × (row ≤ most_places) }
        ensures { Placed at row result }
    {
        Place {
            packed: (at as u64) + 65536 * (row as u64),
        }
    }

    pub fn at(self) -> usize
        ensures { result ≡ at_in self }
    {
        (self.packed % 65536) as usize
    }

    pub fn row(self) -> usize
        ensures { result ≡ row_in self }
    {
        (self.packed / 65536) as usize
    }
}
