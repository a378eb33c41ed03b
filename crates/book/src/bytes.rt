// Numbers of two and four bytes at a place of a book, low byte first.
ghost use Rattle.std.specs.Prelude.{◌≡◌, ◌+◌, ◌<◌, length};
ghost use Rattle.meaning.specs.Reading.{pair as pair_of};
ghost use Rattle.book.specs.Numbers.{four_of};

// A byte as a number that counts or indexes.
pub fn number(byte: u8) -> usize
    ensures { (result ≡ byte) × (result < 256) }
{
    usize::from(byte)
}

// The same as a part of a value.
pub fn wide(byte: u8) -> u32
    ensures { (result ≡ byte) × (result < 256) }
{
    u32::from(byte)
}

pub fn pair(book: &[u8], at: usize) -> usize
    requires { at + 1 < length book.now }
    ensures { result ≡ pair_of book.now at }
{
    usize::from(u16::from_le_bytes([book[at], book[at + 1]]))
}

pub fn constant(book: &[u8], at: usize) -> u32
    requires { at + 3 < length book.now }
    ensures { result ≡ four_of book.now at }
{
    u32::from_le_bytes([book[at], book[at + 1], book[at + 2], book[at + 3]])
}
