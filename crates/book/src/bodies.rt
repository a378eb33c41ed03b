// The bodies of a book, read in order.
ghost use Rattle.book.specs.Counted.{Judged, Summed};

use crate::bytes::number;
use crate::closing::body;
use crate::entry::{ENTRY_BYTES, body_length, locals, parameters};
use crate::fault::Fault;
use crate::scope::Scope;
use crate::taken::Taken;

// The loops of a book, and the sets of their rows.
#[derive(Clone, Copy)]
pub struct Counted {
    pub loops: usize,
    pub sets: usize,
}

pub fn bodies(book: &[u8]) -> Result<Counted, Fault>
    requires { Judged book.now }
    ensures { Summed book.now result }
{
    let count = number(book[0]);
    let mut at = 1 + ENTRY_BYTES * count;
    let mut loops = 0;
    let mut sets = 0;
    for p in 0..count {
        let end = at + body_length(book, p);
        let variables = parameters(book, p) + locals(book, p);
        let scope = Scope { variables, book };
        let read = Taken::bytes(at).then(body(&book[at..end], &scope))?;
        loops += read.loops;
        sets += variables * read.loops;
        at = end;
    }
    Ok(Counted { loops, sets })
}
