// What is asked of a book, and its answer by a summary.
ghost use Rattle.std.specs.Prelude.{IfOk};
ghost use Rattle.audit.specs.Least.{Least};

use crate::inputs::file_at;
use crate::report::{result_of, say_inputs, say_picked, say_refused};
use book::Book;
use book::limits::MOST_PLACES;
use flow::{Found, find_readable};
use levels::at_or_below;
use refusals::Refusal;
use reporter::{level, level_readable};
use std::io;

// One byte more than the longest summary, so that a longer file is seen to be too long.
const SUMMARY: usize = MOST_PLACES + 1;

#[derive(Clone, Copy)]
pub struct Question<'a> {
    pub book: &'a [u8],
    pub table: &'a [u8],
    pub procedure: u64,
    pub levels: &'a [u8],
}

impl Question<'_> {
    // By the summary in the file at this place.
    pub fn by_given(self, rt: HostRuntime, place: usize) -> io::Result<()> {
        let mut room = [0u8; SUMMARY];
        let Some(summary) = file_at(rt, place, &mut room)? else {
            return Ok(());
        };
        match level(self.book, self.table, self.procedure, self.levels, summary) {
            Ok(level) => {
                self.say(&rt, summary, level)?;
                println!(&rt;
                    "summary: {} bytes, as given; it satisfies the flow rules",
                    summary.len()
                )
            }
            Err(refusal) => say_refused(&rt, refusal),
        }
    }

    // By the least summary of the book.
    pub fn by_least(self, rt: HostRuntime) -> io::Result<()> {
        let mut room = [0u8; SUMMARY];
        match self.least(&mut room) {
            Ok((summary, rounds, level)) => {
                self.say(&rt, summary, level)?;
                println!(&rt;
                    "summary: {} bytes, found in {rounds} rounds",
                    summary.len()
                )
            }
            Err(refusal) => say_refused(&rt, refusal),
        }
    }

    // The least summary, the rounds in which it was found, and the level by it.
    fn least<'b>(self, room: &'b mut [u8]) -> Result<(&'b [u8], usize, u8), Refusal>
        ensures { IfOk result (λ r. Least self.entry.book.now self.entry.table.now self.entry.procedure self.entry.levels.now r.0.now r.1 r.2) }
    {
        let book = Book::read(self.book)?;
        let Found { size, rounds } = find_readable(book, room)?;
        let summary = &room[..size];
        let level = level_readable(book, self.table, self.procedure, self.levels, summary)?;
        Ok((summary, rounds, level))
    }

    // Which inputs the answer may rest on, and its level.
    fn say(self, rt: &impl Print, summary: &[u8], level: u8) -> io::Result<()> {
        let Question {
            table,
            procedure,
            levels,
            ..
        } = self;
        let set = usize::try_from(procedure).map_or(0, |p| result_of(summary, p));
        say_inputs(rt, levels, set)?;
        println!(rt; "reported level: {level}")?;
        print!(rt; "inputs at or below that level, which may show in the answer:")?;
        say_picked(rt, levels, |other| at_or_below(table, other, level))?;
        print!(rt; "other inputs, which cannot show in the answer:")?;
        say_picked(rt, levels, |other| !at_or_below(table, other, level))
    }
}
