// Tells an auditor which inputs a procedure's answer may rest on, and at which level the answer stands.
#![tactic(auto)]

mod arguments;
mod decimal;
mod inputs;
mod question;
mod report;

use crate::arguments::{Asked, number_or_line, place_of};
use crate::inputs::{LEVELS_READ, file_at, levels_of};
use crate::question::Question;
use crate::report::{say_help, say_usage};
use book::limits::MOST_BYTES;
use levels::MOST_LEVELS;
use std::io;

// One byte more than the longest book, so that a longer file is seen to be too long.
const BOOK: usize = MOST_BYTES + 1;

// The same for a table: the number of levels, and a row for each.
const TABLE: usize = 1 + MOST_LEVELS * MOST_LEVELS + 1;

// The answer, with the levels and the files that are asked about. It is never inlined, so that what is said without them needs no
// room for them.
#[inline(never)]
fn answered(rt: HostRuntime, a: Asked, procedure: u64) -> io::Result<()> {
    let mut levels = [0u8; LEVELS_READ];
    let Some(levels) = levels_of(rt, a, &mut levels)? else {
        return Ok(());
    };
    let mut book = [0u8; BOOK];
    let Some(book) = file_at(rt, a.place(1), &mut book)? else {
        return Ok(());
    };
    let mut table = [0u8; TABLE];
    let Some(table) = file_at(rt, a.place(2), &mut table)? else {
        return Ok(());
    };
    let question = Question {
        book,
        table,
        procedure,
        levels,
    };
    match a.summary_place() {
        Some(place) => question.by_given(rt, place),
        None => question.by_least(rt),
    }
}

fn main(rt: HostRuntime) -> io::Result<()> {
    if place_of(&rt, b"--help").is_some() {
        return say_help(&rt);
    }
    let a = Asked::new(&rt);
    if !a.complete() {
        return say_usage(&rt);
    }
    let Some(procedure) = number_or_line(rt, a.place(3))? else {
        return Ok(());
    };
    answered(rt, a, procedure)
}
