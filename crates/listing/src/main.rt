// Prints the listing of the book on standard input.
#![tactic(auto)]

use book::limits::MOST_BYTES;
use input::read_full;
use lines::list;
use std::io;

// One byte more than a book may have, so that a longer one is seen to be too long.
const ROOM: usize = MOST_BYTES + 1;

fn main(rt: HostRuntime) -> io::Result<()> {
    let mut book = [0u8; ROOM];
    let length = read_full(&mut rt.stdin(), &mut book);
    let text = list(&book[..length]);
    rt.write_all(text.as_bytes())
}
