// The test of many level tables, and the levels reported for the worked books under several. A line of standard input has a
// name and a colon, then a book, a level table, a procedure (FF: the greatest number), its levels and a summary, each a space
// and bytes in hexadecimal. A line of the answer has the name, whether the table is valid, its bottom, the refusal and the level.
#![tactic(auto)]

mod text;

ghost use Rattle.std.specs.Prelude.{◌<◌, length, IfOk};

use input::{MOST_TEXT, behind, read_full};
use levels::{bottom, valid};
use refusals::number_of;
use reporter::level;
use std::io;
use text::{split_name, split_part};

fn main(rt: HostRuntime) -> io::Result<()> {
    let mut text = [0u8; MOST_TEXT];
    let n = read_full(&mut rt.stdin(), &mut text);
    let mut rest = &text[..n];
    while !rest.is_empty() {
        rest = line(&rt, rest)?;
    }
    Ok(())
}

// The case of the line that the text begins with; answers the lines behind it.
fn line<'a>(rt: &impl Print, text: &'a [u8]) -> io::Result<&'a [u8]>
    requires { 0 < length text.now }
    ensures { IfOk result (λ rest. length rest.now < length text.now) }
{
    let (name, rest) = split_name(text);
    rt.write_all(name)?;
    let mut book = [0u8; 512];
    let (book, rest) = split_part(rest, &mut book);
    let mut table = [0u8; 320];
    let (table, rest) = split_part(rest, &mut table);
    let mut number = [0u8; 1];
    let (number, rest) = split_part(rest, &mut number);
    let mut levels = [0u8; 16];
    let (levels, rest) = split_part(rest, &mut levels);
    let mut summary = [0u8; 64];
    let (summary, rest) = split_part(rest, &mut summary);
    let procedure = number.first().map_or(0, |&byte| procedure_of(byte));
    tested(rt, table)?;
    let answer = level(book, table, procedure, levels, summary);
    println!(rt; ", {} {}", number_of(&answer), answer.unwrap_or(0))?;
    Ok(behind(rest))
}

// 255 stands for the greatest number.
fn procedure_of(byte: u8) -> u64 {
    match byte {
        u8::MAX => u64::MAX,
        byte => u64::from(byte),
    }
}

// Whether the table is valid, and its bottom.
fn tested(rt: &impl Print, table: &[u8]) -> io::Result<()> {
    if valid(table) {
        print!(rt; " valid {}", bottom(table))
    } else {
        print!(rt; " not valid")
    }
}
