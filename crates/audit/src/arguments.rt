// What the program was started with.
use crate::decimal::parse;
use std::env::{Env, FillError};
use std::io;

// An argument of more bytes is no word, no number and no file's name.
pub const LONGEST: usize = 4096;

// The number of arguments, the program's name among them, where 255 stands for all that are more; and the place of `--summary`.
#[derive(Clone, Copy)]
pub struct Asked {
    count: u8,
    summary: Option<u8>,
}

// A number, where 255 stands for all that are more.
fn few(n: usize) -> u8 {
    u8::try_from(n).unwrap_or(u8::MAX)
}

// The argument at this place.
pub fn argument<'a>(rt: &impl Env, i: usize, room: &'a mut [u8]) -> Result<&'a [u8], FillError> {
    let n = rt.arg(i, room)?;
    Ok(&room[..n])
}

// Whether there is an argument at this place, however long.
fn is_there(rt: &impl Env, i: usize) -> bool {
    let mut room = [0u8; LONGEST];
    match argument(rt, i, &mut room) {
        Ok(_) | Err(FillError::TooLong) => true,
        Err(FillError::NotPresent) => false,
    }
}

fn is_word(rt: &impl Env, i: usize, word: &[u8]) -> bool {
    let mut room = [0u8; LONGEST];
    argument(rt, i, &mut room).is_ok_and(|text| text == word)
}

// The number of arguments, the program's name among them.
fn count_of(rt: &impl Env) -> usize {
    (0..usize::MAX)
        .find(|&i| !is_there(rt, i))
        .unwrap_or(usize::MAX)
}

// The place of the first argument that is this word.
pub fn place_of(rt: &impl Env, word: &[u8]) -> Option<usize> {
    (1..count_of(rt)).find(|&i| is_word(rt, i, word))
}

impl Asked {
    pub fn new(rt: &impl Env) -> Asked {
        Asked {
            count: few(count_of(rt)),
            summary: place_of(rt, b"--summary").map(few),
        }
    }

    // How many arguments there are beside `--summary` and its file.
    pub fn plain(self) -> u8 {
        match self.summary {
            Some(_) => self.count.saturating_sub(2),
            None => self.count,
        }
    }

    // The program's name, a book, a table and a procedure are there, and the file of `--summary`; no more than can be counted.
    pub fn complete(self) -> bool {
        self.count < u8::MAX
            && self.plain() >= 4
            && self
                .summary_place()
                .is_none_or(|place| place < usize::from(self.count))
    }

    // The place of argument j, where `--summary` and its file are passed over.
    pub fn place(self, j: u8) -> usize {
        match self.summary {
            Some(place) if place <= j => usize::from(j) + 2,
            _ => usize::from(j),
        }
    }

    // The place of the file of `--summary`.
    pub fn summary_place(self) -> Option<usize> {
        self.summary.map(|place| usize::from(place) + 1)
    }
}

// The number that the argument at this place gives; a line on standard error where it is none. An argument that is longer than
// the room is left out of the line.
pub fn number_or_line(rt: HostRuntime, place: usize) -> io::Result<Option<u64>> {
    let mut room = [0u8; LONGEST];
    let text = argument(&rt, place, &mut room).unwrap_or(b"");
    let number = parse(text);
    if number.is_none() {
        let stderr = rt.stderr();
        stderr.write_all(b"audit: not a number of 1 to 18 decimal digits: ")?;
        stderr.write_all(text)?;
        stderr.write_all(b"\n")?;
    }
    Ok(number)
}
