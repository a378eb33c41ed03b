// A text in a fixed array, which grows by bytes and by numbers in decimal.
ghost use Rattle.std.specs.Prelude.{◌≡◌, ◌+◌, ◌<◌, ◌≤◌, [], ◌++◌, length};
ghost use Rattle.meaning.specs.Answers.{decimal};
ghost use Rattle.lines.specs.Says.{room};

use book::limits::MOST_PROCEDURES;
use std::marker::Model;

// The most bytes of a line: four numbers of three digits, and a byte behind each.
const LINE_BYTES: usize = 16;

// A line for each procedure.
pub const ROOM: usize = MOST_PROCEDURES * LINE_BYTES;

#[derive(Clone, Copy)]
pub struct Text {
    pub bytes: [u8; ROOM],
    pub len: usize,
}

// A clause sees a text as its bytes. Behind them the array is 0, so that a text has one array and one length.
impl Model for Text {
    ghost use Rattle.std.specs.Prelude.{ℕ, ◌-◌, List, ◌++◌, length, take, replicate};
    ghost use Rattle.lines.specs.Says.{room, Says};

    ghost Value = { List ℕ };

    ghost view = { λ t. take t.len t.bytes };

    ghost invariant = { λ t. Says (take t.len t.bytes) t.bytes t.len };

    ghost inverse = { λ s. record { bytes = s ++ replicate (room - length s) 0; len = length s } };

    ghost use Rattle.lines.specs.Fields.{inverse_ok};

    ghost inverse_ok = { inverse_ok };
}

// A digit as a byte of text.
fn digit(n: usize) -> u8
    requires { n < 10 }
    ensures { result ≡ 48 + n }
{
    b'0' + n as u8
}

impl Text {
    pub(crate) fn new() -> Text
        ensures { result ≡ [] }
    {
        Text {
            bytes: [0; ROOM],
            len: 0,
        }
    }

    // The text.
    pub fn as_bytes(&self) -> &[u8]
        ensures { result.now ≡ self.now }
    {
        &self.bytes[..self.len]
    }

    pub(crate) fn put(&mut self, more: &[u8])
        requires { length self.old + length more.now ≤ room }
        ensures text { self.new ≡ self.old ++ more.now }
        ensures len { length self.new ≡ length self.old + length more.now }
    {
        let end = self.len + more.len();
        self.bytes[self.len..end].copy_from_slice(more);
        self.len = end;
    }

    // Digit by digit (kept: `write!` can fail, and says nothing of the text then, but a listing cannot fail).
    pub(crate) fn put_number(&mut self, n: usize)
        requires space { length self.old + 3 ≤ room }
        requires short { n < 1000 }
        ensures text { self.new ≡ self.old ++ decimal n }
        ensures few { length self.new ≤ length self.old + 3 }
    {
        if n < 10 {
            self.put(&[digit(n)]);
        } else if n < 100 {
            self.put(&[digit(n / 10), digit(n % 10)]);
        } else {
            self.put(&[digit(n / 100), digit(n / 10 % 10), digit(n % 10)]);
        }
    }
}
