// What reading a part of a body came to.
ghost use Rattle.std.specs.Prelude.{◌≡◌, ◌+◌, ◌<◌, ◌≤◌, ◌^◌, length, get_or, MatchResult};
ghost use Rattle.book.specs.Taken.{told, plus, span, loops_taken};

use crate::fault::{Fault, Reason};

// What was read: its bytes, and the loops among them.
// The bytes come last, so that they lie where a fault's place does: that is quicker.
#[derive(Clone, Copy)]
pub struct Taken {
    pub loops: usize,
    pub bytes: usize,
}

impl Taken {
    // Bytes that hold no loop.
    pub fn bytes(bytes: usize) -> Taken
        ensures { result ≡ record { bytes = bytes; loops = 0 } }
    {
        Taken { bytes, loops: 0 }
    }

    // These bytes and the part that was read behind them; a fault there is told from the start of these bytes.
    pub fn then(self, part: Result<Taken, Fault>) -> Result<Taken, Fault>
        requires { (self.bytes + span (told part) < 2 ^ 64) × (self.loops + loops_taken (told part) < 2 ^ 64) }
        ensures { told result ≡ plus self.bytes self.loops (told part) }
    {
        match part {
            Ok(part) => Ok(Taken {
                bytes: self.bytes + part.bytes,
                loops: self.loops + part.loops,
            }),
            Err(fault) => Err(fault.after(self.bytes)),
        }
    }
}

// The byte at a place of a part that does not end before it.
pub fn byte(part: &[u8], place: usize) -> Result<u8, Fault>
    ensures { MatchResult result (λ b. (place < length part.now) × (b ≡ get_or part.now place 0))
        (λ f. (length part.now ≤ place) × (f ≡ record { reason = Reason.EndedEarly; place = place })) }
{
    match part.get(place) {
        Some(byte) => Ok(*byte),
        None => Err(Reason::EndedEarly.at(place)),
    }
}
