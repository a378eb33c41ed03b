// The levels of the inputs, and the files.
ghost use Rattle.std.specs.Prelude.{◌≤◌, length, IfOk, IfSome};

use crate::arguments::{Asked, LONGEST, argument, number_or_line};
use book::limits::MOST_PARAMETERS;
use input::read_full;
use std::env::FillError;
use std::io::{ErrorKind, Read, Write};
use std::{fs, io, str};

// One more than the most parameters: a ninth level is one too many for every procedure.
pub const LEVELS_READ: usize = MOST_PARAMETERS + 1;

// Room for an error's text.
const WORDS: usize = 512;

// The levels that stand behind the procedure, as many as there is room for; a level of 16 or more is in no table. Nothing where
// one is no number. An error is that of a line on standard error that could not be written.
pub fn levels_of<'a>(rt: HostRuntime, a: Asked, room: &'a mut [u8]) -> io::Result<Option<&'a [u8]>>
    ensures { IfOk result (λ got. IfSome got (λ part. length part.now ≤ length room.old)) }
{
    let mut count = 0;
    for j in 4..a.plain() {
        let Some(n) = number_or_line(rt, a.place(j))? else {
            return Ok(None);
        };
        if let Some(level) = room.get_mut(count) {
            *level = u8::try_from(n).unwrap_or(u8::MAX);
            count += 1;
        }
    }
    Ok(Some(&room[..count]))
}

// A line on standard error: what failed, and why. The words are cut short, so they are written to a buffer first (kept: no heap).
fn fail(rt: HostRuntime, what: &[u8], why: io::Error) -> io::Result<()> {
    let mut text = [0u8; WORDS];
    let mut rest = &mut text[..];
    write!(rest, "{why}")?;
    let length = WORDS.saturating_sub(rest.len());
    let stderr = rt.stderr();
    stderr.write_all(b"audit: ")?;
    stderr.write_all(what)?;
    stderr.write_all(b": ")?;
    stderr.write_all(words_of(&text[..length]))?;
    stderr.write_all(b"\n")
}

// The system's words for an error, without the number that `std` writes behind them.
fn words_of(text: &[u8]) -> &[u8] {
    let number = (0..text.len()).find(|&i| text[i..].starts_with(b" (os error "));
    number.map_or(text, |i| &text[..i])
}

// The file that the argument at this place names, as far as the room goes; a line on standard error where it cannot be read.
// An error is that of this line.
pub fn file_at<'a>(
    rt: HostRuntime,
    place: usize,
    room: &'a mut [u8],
) -> io::Result<Option<&'a [u8]>>
    ensures { IfOk result (λ got. IfSome got (λ part. length part.now ≤ length room.old)) }
{
    let mut name = [0u8; LONGEST];
    let (what, read) = match argument(&rt, place, &mut name) {
        Ok(name) => (name, read_named(rt, name, room)),
        Err(e) => (b"a file's name".as_slice(), Err(no_name(e))),
    };
    match read {
        Ok(bytes) => Ok(Some(bytes)),
        Err(why) => {
            fail(rt, what, why)?;
            Ok(None)
        }
    }
}

// Why an argument gives no name.
fn no_name(e: FillError) -> io::Error {
    match e {
        FillError::TooLong => io::Error::new(ErrorKind::InvalidFilename, "File name too long"),
        FillError::NotPresent => io::Error::new(ErrorKind::InvalidInput, "Invalid argument"),
    }
}

// The file of this name, as far as the room goes, or why it cannot be read. `std` opens files by names in UTF-8 alone.
fn read_named<'a>(rt: HostRuntime, name: &[u8], room: &'a mut [u8]) -> io::Result<&'a [u8]>
    ensures { IfOk result (λ part. length part.now ≤ length room.old) }
{
    let Ok(name) = str::from_utf8(name) else {
        return Err(io::Error::new(ErrorKind::InvalidFilename, "File name not in UTF-8"));
    };
    let mut file = fs::open(&rt, name)?;
    let length = read_full(&mut file, room);
    // One more read tells a file's end, where it does not fail, from a failure.
    file.read(&mut [0u8; 1])?;
    Ok(&room[..length])
}
