// Bytes that a text has as two hexadecimal digits each.
ghost use Rattle.std.specs.Prelude.{◌≡◌, ◌<◌, length, drop, get_or, MatchOption};
ghost use Rattle.input.specs.Hex.{digit, byte};

// Which letters are digits beside 0 to 9: a to f, or A to F.
#[derive(Clone, Copy, Debug, PartialEq, Eq)]
pub enum Letters {
    Small,
    Large,
}

// The number that a digit says; 0 where it is none.
#[tactic(auto, unfolding(crate::specs::Hex::digit, crate::specs::Hex::ten))]
fn digit(c: u8, letters: Letters) -> u8
    ensures number { result ≡ digit letters c }
    ensures bound { result < 16 }
{
    match (letters, c) {
        (_, b'0'..=b'9') => c - b'0',
        (Letters::Small, b'a'..=b'f') => c - b'a' + 10,
        (Letters::Large, b'A'..=b'F') => c - b'A' + 10,
        _ => 0,
    }
}

// The byte of the two digits that a text begins with, and the text behind them.
#[tactic(auto, unfolding(crate::specs::Hex::byte))]
pub fn split_byte(text: &[u8], letters: Letters) -> Option<(u8, &[u8])>
    ensures { MatchOption result (length text.now < 2)
        (λ p. (p.0 ≡ byte letters (get_or text.now 0 0) (get_or text.now 1 0)) × (p.1.now ≡ drop 2 text.now)) }
{
    let (&[high, low], rest) = text.split_first_chunk::<2>()?;
    Some((16 * digit(high, letters) + digit(low, letters), rest))
}
