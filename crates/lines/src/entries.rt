// The lines of a listing: one per procedure, or the one of a refusal.
ghost use Rattle.std.specs.Prelude.{◌≡◌, ◌+◌, ◌<◌, ◌≤◌, [], ◌∷◌, ◌++◌, length};
ghost use Rattle.meaning.specs.Answers.{decimal, refused_text};
ghost use Rattle.meaning.specs.Reading.{procedures};
ghost use Rattle.refusals.specs.Numbers.{number};
ghost use Rattle.lines.specs.Listed.{Listed};
ghost use Rattle.lines.specs.Says.{room, line_of, line_bytes};

use crate::text::Text;
use book::Book;
use book::entry::{locals, parameters};
use refusals::Refusal;

// The line of a refused book.
pub fn refused(refusal: Refusal) -> Text
    ensures { result ≡ refused_text ++ (decimal (number refusal) ++ (10 ∷ [])) }
{
    let mut text = Text::new();
    text.put(b"refused ");
    text.put_number(usize::from(refusal.number()));
    text.put(b"\n");
    text
}

// The line of one procedure, behind the lines before it.
fn line(text: &mut Text, p: usize, parameters: usize, locals: usize, set: usize)
    requires space { length text.old + line_bytes ≤ room }
    requires short { (p < 1000) × (parameters < 1000) × (locals < 1000) × (set < 1000) }
    ensures { text.new ≡ text.old ++ line_of p parameters locals set }
{
    text.put_number(p);
    text.put(b" ");
    text.put_number(parameters);
    text.put(b" ");
    text.put_number(locals);
    text.put(b" ");
    text.put_number(set);
    text.put(b"\n");
}

// The lines of a readable book.
pub fn lines_of(book: Book, summary: &[u8]) -> Text
    requires { procedures book.bytes.now ≤ length summary.now }
    ensures { Listed book.entry.bytes.now summary.now (result) }
{
    let bytes = book.bytes;
    let mut text = Text::new();
    for p in 0..usize::from(bytes[0]) {
        let set = usize::from(summary[p]);
        line(&mut text, p, parameters(bytes, p), locals(bytes, p), set);
    }
    text
}
