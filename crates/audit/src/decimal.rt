// Numbers in decimal, without a sign.
ghost use Rattle.audit.specs.Decimal.{ReadsNumber};

// So many digits fit a number of 64 bits.
const MOST_DIGITS: usize = 18;

// The number that a text of 1 to 18 digits says. `FromStr` takes a sign too (kept: with a test of each byte beside it, it is no plainer).
pub fn parse(text: &[u8]) -> Option<u64>
    ensures { ReadsNumber text.now result }
{
    if text.is_empty() || MOST_DIGITS < text.len() {
        return None;
    }
    let mut value = 0;
    for &b in text {
        let b'0'..=b'9' = b else {
            return None;
        };
        value = 10 * value + u64::from(b - b'0');
    }
    Some(value)
}
