// A line of text: a name, then the bytes of a book, each a space and two hexadecimal digits, then a line end.
ghost use Rattle.std.specs.Prelude.{◌≡◌, ◌≤◌, ◌+◌, length};

use input::hex::{Letters, split_byte};

// The name, which ends at a space or a line end, and the text behind it.
pub fn split_name(text: &[u8]) -> (&[u8], &[u8])
    ensures { length result.0.now + length result.1.now ≡ length text.now }
{
    let end = text.iter().position(|&c| c <= b' ').unwrap_or(text.len());
    text.split_at(end)
}

// As many bytes as the text begins with and the room holds, and the text behind them.
// The bytes of levelling's parts stand together, and end otherwise (kept: one loop for both would take each step as a closure).
pub fn split_book<'t, 'b>(text: &'t [u8], room: &'b mut [u8]) -> (&'b [u8], &'t [u8])
    ensures part { length result.0.now ≤ length room.old }
    ensures rest { length result.1.now ≤ length text.now }
{
    let mut rest = text;
    let mut count = 0;
    for place in room.iter_mut() {
        let Some((byte, behind)) = rest
            .strip_prefix(b" ")
            .and_then(|digits| split_byte(digits, Letters::Small))
        else {
            break;
        };
        *place = byte;
        rest = behind;
        count += 1;
    }
    (&room[..count], rest)
}
