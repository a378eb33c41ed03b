// The frame of a call: how many cells are its variables, and how many call depths are left. Its cells at the start.
ghost use Rattle.std.specs.Prelude.{◌≡◌, ℕ, ◌+◌, ◌<◌, ◌≤◌, ◌++◌, length, take, replicate};
ghost use Rattle.meaning.specs.Limits.{most_calls, most_parameters};
ghost use Rattle.runner.specs.Frame.{cells, depths, Framed, PreparedPre, PreparedPost};

use book::entry::{locals, parameters};
use book::limits::MOST_PARAMETERS;
use std::marker::Model;

// One number, which travels in a register: the cells in the low five bits, the depths above them.
#[derive(Clone, Copy)]
pub struct Frame {
    packed: u32,
}

// A clause sees a frame as its number.
impl Model for Frame {
    ghost Value = { ℕ };

    ghost view = { λ f. f.packed };

    ghost inverse = { λ n. record { packed = n } };
}

impl Frame {
    pub fn new(cells: usize, depths: u32) -> Frame
        requires { (cells < 32) × (depths ≤ most_calls) }
        ensures { Framed cells depths result }
    {
        Frame {
            packed: (cells as u32) + 32 * depths,
        }
    }

    pub fn cells(self) -> usize
        ensures { result ≡ cells self }
    {
        (self.packed % 32) as usize
    }

    pub fn depths(self) -> u32
        ensures { result ≡ depths self }
    {
        self.packed / 32
    }
}

// The cells of procedure `p` on the values given: parameters start as the values, locals as 0. How many they are. The cells
// behind them stay as they were.
pub fn prepared(book: &[u8], p: usize, given: &[u32; MOST_PARAMETERS], work: &mut [u32]) -> usize
    requires { PreparedPre book.now p given.now work.old }
    ensures { PreparedPost book.now p given.now work.old work.new result }
{
    let k = parameters(book, p);
    let l = locals(book, p);
    for i in 0..k + l {
        work[i] = if i < k { given[i] } else { 0 };
    }
    k + l
}

// The inputs, gathered as a call's values are.
pub fn gather(inputs: &[u32]) -> [u32; MOST_PARAMETERS]
    requires { length inputs.now ≤ most_parameters }
    ensures { take (length inputs.now) result ≡ inputs.now }
{
    let mut given = [0u32; MOST_PARAMETERS];
    given[..inputs.len()].copy_from_slice(inputs);
    given
}
