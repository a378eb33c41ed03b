// What the auditor is told.
ghost use Rattle.std.specs.Prelude.{◌≡◌, get_or};
ghost use Rattle.meaning.specs.Sets.{member};

use book::limits::MOST_PARAMETERS;
use refusals::Refusal;
use sets::Set;
use std::io;

// Whether input i is in the set.
fn rests(set: u8, i: usize) -> bool
    ensures { result ≡ member i set }
{
    i < MOST_PARAMETERS && Set::from(set).has(i)
}

// The result set of a procedure.
pub fn result_of(summary: &[u8], procedure: usize) -> u8
    ensures { result ≡ get_or summary.now procedure 0 }
{
    summary.get(procedure).copied().unwrap_or(0)
}

// One line for each input.
pub fn say_inputs(rt: &impl Print, levels: &[u8], set: u8) -> io::Result<()> {
    for (i, level) in levels.iter().enumerate() {
        let so = if rests(set, i) {
            "may rest"
        } else {
            "does not rest"
        };
        println!(rt; "input {i}, level {level}: the answer {so} on it")?;
    }
    Ok(())
}

// The numbers of the inputs whose levels are picked, or that there are none.
pub fn say_picked<F: Fn(u8) -> bool>(rt: &impl Print, levels: &[u8], picks: F) -> io::Result<()>
    requires { F.IsAlwaysCallable picks }
{
    let mut none = " none";
    for (i, &level) in levels.iter().enumerate() {
        if picks(level) {
            print!(rt; " {i}")?;
            none = "";
        }
    }
    println!(rt; "{none}")
}

pub fn say_refused(rt: &impl Print, refusal: Refusal) -> io::Result<()> {
    println!(rt; "refused {}: {refusal}", refusal.number())
}

pub fn say_usage(rt: &impl Eprint) -> io::Result<()> {
    rt.eprint("usage: audit BOOK TABLE PROCEDURE LEVEL.. [--summary FILE]\n       audit --help\n")
}

pub fn say_help(rt: &impl Print) -> io::Result<()> {
    rt.print(
        "usage: audit BOOK TABLE PROCEDURE LEVEL.. [--summary FILE]

BOOK is a recipe book, TABLE a level table, PROCEDURE the number of a procedure of the book,
and each LEVEL the level of one of its inputs, in order, as a decimal number.
Without --summary the least summary of the book is found; with it, the one in FILE is checked.

For each input a line says whether the answer may rest on it. Then come the reported level,
the inputs that stand at or below it, and the others: two runs that finish, and whose inputs
differ only in the others, give the same answer. What cannot be answered is refused with a
number and its reason.
",
    )
}
