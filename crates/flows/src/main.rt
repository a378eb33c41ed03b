// Runs the finder and the checker on each book of standard input: a line has a name and the book's bytes in hexadecimal.
#![tactic(auto)]

mod text;

ghost use Rattle.std.specs.Prelude.{◌<◌, length, IfOk};

use book::limits::MOST_PLACES;
use flow::{Found, check, find};
use input::{MOST_TEXT, behind, read_full};
use refusals::number_of;
use std::{io, mem};
use text::{split_book, split_name};

// One byte more than the largest summary, so that what stands behind a summary shows.
const ROOM: usize = MOST_PLACES + 1;

fn main(rt: HostRuntime) -> io::Result<()> {
    let mut text = [0u8; MOST_TEXT];
    let n = read_full(&mut rt.stdin(), &mut text);
    let mut rest = &text[..n];
    while !rest.is_empty() {
        rest = line(&rt, rest)?;
    }
    Ok(())
}

// The case of the line that the text begins with; answers the lines behind it.
fn line<'a>(rt: &impl Print, text: &'a [u8]) -> io::Result<&'a [u8]>
    requires { 0 < length text.now }
    ensures { IfOk result (λ rest. length rest.now < length text.now) }
{
    let (name, rest) = split_name(text);
    rt.write_all(name)?;
    let mut room = [0u8; 4096];
    let (book, rest) = split_book(rest, &mut room);
    report(rt, book)?;
    Ok(behind(rest))
}

// What the finder and the checker answer.
fn report(rt: &impl Print, book: &[u8]) -> io::Result<()> {
    let mut buffer = [170u8; ROOM];
    match find(book, &mut buffer) {
        Err(refusal) => {
            print!(rt; " refused {}", refusal.number())?;
            checked(rt, "check", book, b"")?;
        }
        Ok(Found { size, rounds }) => {
            print!(rt; " size {size} rounds {rounds} summary")?;
            if let Some((summary, rest)) = buffer.split_at_mut_checked(size) {
                found(rt, book, summary, rest)?;
            }
        }
    }
    println!(rt;)
}

// The summary found, the first byte behind it, and the checker on the summary, on one shorter, on one with a set fewer,
// and on one with every bit in the first set.
fn found(rt: &impl Print, book: &[u8], summary: &mut [u8], rest: &[u8]) -> io::Result<()> {
    for set in summary.iter() {
        print!(rt; " {set:02x}")?;
    }
    if let Some(beyond) = rest.first() {
        print!(rt; " beyond {beyond}")?;
    }
    checked(rt, "check", book, summary)?;
    if let Some((_, shorter)) = summary.split_last() {
        checked(rt, "short", book, shorter)?;
    }
    if let Some(i) = summary.iter().position(|&set| set != 0) {
        let set = mem::replace(&mut summary[i], 0);
        checked(rt, "fewer", book, summary)?;
        summary[i] = set;
    }
    if let Some(first) = summary.first_mut() {
        *first = 255;
        checked(rt, "full", book, summary)?;
    }
    Ok(())
}

// The number of the checker's refusal, 0 for none, behind a word.
fn checked(rt: &impl Print, word: &str, book: &[u8], summary: &[u8]) -> io::Result<()> {
    print!(rt; " {word} {}", number_of(&check(book, summary)))
}
