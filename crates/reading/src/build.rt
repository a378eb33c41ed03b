// Books that are built: deep, long, or of many parts.
ghost use Rattle.std.specs.Prelude.{◌≤◌};
ghost use Rattle.reading.specs.declared.build.TheConstants.{ROOM};

use crate::show::show;
use book::entry::ENTRY_BYTES;
use book::limits::MOST_BYTES;
use std::io;

// Room for one byte more than a book may have.
const ROOM: usize = MOST_BYTES + 1;

// The return of the first variable.
const RETURN: &[u8] = b"\x04\x11\x00";

// A loop that takes no turn.
const LOOP: &[u8] = b"\x03\x10\x00\x00\x00\x00\x00";

// The head of a sum.
const SUM: &[u8] = b"\x12\x00";

// The first variable.
const FIRST: &[u8] = b"\x11\x00";

// The room filled by the part, again and again. After the first each copy is of all that stands there, so that few are needed.
fn repeat(room: &mut [u8], part: &[u8]) {
    let mut filled = part.len().min(room.len());
    room[..filled].copy_from_slice(&part[..filled]);
    while 0 < filled && filled < room.len() {
        let more = filled.min(room.len() - filled);
        room.copy_within(..more, filled);
        filled += more;
    }
}

// A book whose bodies stand behind one another; what has no room is an error.
#[derive(Drop)]
struct Builder {
    bytes: [u8; ROOM],
    end: usize,
    ghost within: { end ≤ ROOM },
}

impl Builder {
    // With room for the contents of so many procedures.
    fn new(procedures: u8) -> Builder {
        let mut bytes = [0u8; ROOM];
        bytes[0] = procedures;
        Builder {
            bytes,
            end: 1 + ENTRY_BYTES * usize::from(procedures),
        }
    }

    // The body of procedure p, each part so many times, and its entry of the contents.
    fn procedure(
        &mut self,
        p: u8,
        parameters: u8,
        locals: u8,
        body: &[(&[u8], usize)],
    ) -> io::Result<()> {
        let start = self.end;
        let mut rest = &mut self.bytes[start..];
        for &(part, times) in body {
            let Some((room, behind)) = rest.split_at_mut_checked(part.len().saturating_mul(times))
            else {
                return Err(io::ErrorKind::WriteZero.into());
            };
            repeat(room, part);
            rest = behind;
        }
        self.end = ROOM.saturating_sub(rest.len());
        let [start_low, start_high, ..] = start.to_le_bytes();
        let [length_low, length_high, ..] = self.end.saturating_sub(start).to_le_bytes();
        let entry = [
            start_low,
            start_high,
            length_low,
            length_high,
            parameters,
            locals,
        ];
        let at = 1 + ENTRY_BYTES * usize::from(p);
        self.bytes[at..at + ENTRY_BYTES].copy_from_slice(&entry);
        Ok(())
    }

    fn show(&self, rt: &impl Print, name: &str) -> io::Result<()> {
        show(rt, name, &self.bytes[..self.end])
    }
}

// A book of one procedure with one parameter.
fn one(rt: &impl Print, name: &str, body: &[(&[u8], usize)]) -> io::Result<()> {
    let mut book = Builder::new(1);
    book.procedure(0, 1, 0, body)?;
    book.show(rt, name)
}

// A book of two procedures with so many loops; the second has two parameters and a local.
fn halves(rt: &impl Print, name: &str, n: usize, m: usize) -> io::Result<()> {
    let mut book = Builder::new(2);
    book.procedure(0, 1, 0, &[(LOOP, n), (RETURN, 1)])?;
    book.procedure(1, 2, 1, &[(LOOP, m), (RETURN, 1)])?;
    book.show(rt, name)
}

// A book of many procedures without variables.
fn many(rt: &impl Print, name: &str, count: u8) -> io::Result<()> {
    let mut book = Builder::new(count);
    for p in 0..count {
        book.procedure(p, 0, 0, &[(b"\x04\x10\x00\x00\x00\x00", 1)])?;
    }
    book.show(rt, name)
}

// Operations within operations.
fn deep_expressions(rt: &impl Print) -> io::Result<()> {
    one(rt, "22-operations", &[(b"\x04", 1), (SUM, 22), (FIRST, 23)])?;
    one(rt, "23-operations", &[(b"\x04", 1), (SUM, 23), (FIRST, 24)])?;
    one(
        rt,
        "deep-unknown-code",
        &[(b"\x04", 1), (SUM, 23), (b"\xff", 1)],
    )?;
    one(rt, "deep-and-ended", &[(b"\x04", 1), (SUM, 23)])
}

// Loops and closing ifs within one another.
fn deep_commands(rt: &impl Print) -> io::Result<()> {
    one(
        rt,
        "23-whiles",
        &[(b"\x03\x11\x00", 23), (b"\x00", 23), (RETURN, 1)],
    )?;
    one(
        rt,
        "24-whiles",
        &[(b"\x03\x11\x00", 24), (b"\x00", 24), (RETURN, 1)],
    )?;
    one(rt, "22-picks", &[(b"\x05\x11\x00", 22), (RETURN, 23)])?;
    one(rt, "23-picks", &[(b"\x05\x11\x00", 23), (RETURN, 24)])
}

fn many_loops(rt: &impl Print) -> io::Result<()> {
    one(rt, "64-loops", &[(LOOP, 64), (RETURN, 1)])?;
    one(rt, "65-loops", &[(LOOP, 65), (RETURN, 1)])?;
    one(
        rt,
        "65-loops-and-a-fault",
        &[(LOOP, 65), (b"\x04\x11\x01", 1)],
    )
}

fn long(rt: &impl Print) -> io::Result<()> {
    let set: &[u8] = b"\x01\x00\x10\x00\x00\x00\x00";
    let copy: &[u8] = b"\x01\x00\x11\x00";
    one(rt, "32768-bytes", &[(set, 2), (copy, 8186), (RETURN, 1)])?;
    one(
        rt,
        "32769-bytes",
        &[(set, 2), (copy, 8186), (RETURN, 1), (b"\x00", 1)],
    )
}

fn more(rt: &impl Print) -> io::Result<()> {
    halves(rt, "33-and-32-loops", 33, 32)?;
    halves(rt, "32-and-32-loops", 32, 32)?;
    many(rt, "32-procedures", 32)?;
    many(rt, "33-procedures", 33)
}

// Refusal 1.
fn lengths(rt: &impl Print) -> io::Result<()> {
    show(rt, "no-bytes", b"")?;
    show(rt, "32769-zeros", &[0u8; ROOM])
}

pub fn all(rt: &impl Print) -> io::Result<()> {
    deep_expressions(rt)?;
    deep_commands(rt)?;
    many_loops(rt)?;
    long(rt)?;
    more(rt)?;
    lengths(rt)
}
