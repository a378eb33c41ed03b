// What a program reads: its standard input or a file, and bytes in hexadecimal in it.
#![tactic(auto)]

pub mod hex;

ghost use Rattle.std.specs.Prelude.{◌≡◌, ◌≤◌, length, take, drop};
ghost use Rattle.std.specs.Io.KnownBytes.{Consumes};

use std::io::Read;

// So many bytes does a program of lines read of its input.
pub const MOST_TEXT: usize = 65536;

// Reads until the buffer is full, the input ends or a read fails, and answers how many bytes stand at the buffer's start.
// Where it is known what is left to read, these are the bytes that are gone from it, in their order.
pub fn read_full<R: Read>(input: &mut R, buffer: &mut [u8]) -> usize
    ensures bound { result ≤ length buffer.new }
    ensures bytes { Consumes (R.remaining input.old) (R.remaining input.new) (take result buffer.new) }
{
    let mut done = 0;
    while done < buffer.len() {
        match input.read(&mut buffer[done..]) {
            Ok(0) | Err(_) => break,
            Ok(n) => done += n,
        }
    }
    done
}

// The text behind its first byte.
pub fn behind(text: &[u8]) -> &[u8]
    ensures { result.now ≡ drop 1 text.now }
{
    match text.split_first() {
        Some((_, rest)) => rest,
        None => text,
    }
}
