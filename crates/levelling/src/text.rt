// The parts of a line.
ghost use Rattle.std.specs.Prelude.{◌≡◌, ◌≤◌, ◌<◌, ◌+◌, length};

use input::behind;
use input::hex::{Letters, split_byte};

// The name with the colon that ends it, and the text behind it.
pub fn split_name(text: &[u8]) -> (&[u8], &[u8])
    ensures parts { length result.0.now + length result.1.now ≡ length text.now }
    ensures some { 0 < length text.now → 0 < length result.0.now }
{
    let colon = text.iter().position(|&c| c == b':');
    text.split_at(colon.map_or(text.len(), |i| i + 1))
}

// One byte that is passed over, then bytes up to the next space or line end, as far as the room goes; and the text behind them.
pub fn split_part<'t, 'b>(text: &'t [u8], room: &'b mut [u8]) -> (&'b [u8], &'t [u8])
    ensures part { length result.0.now ≤ length room.old }
    ensures rest { length result.1.now ≤ length text.now }
{
    let mut rest = behind(text);
    let mut count = 0;
    for place in room.iter_mut() {
        if rest.first().is_none_or(|&c| c <= b' ') {
            break;
        }
        let Some((byte, after)) = split_byte(rest, Letters::Large) else {
            break;
        };
        *place = byte;
        rest = after;
        count += 1;
    }
    (&room[..count], rest)
}
