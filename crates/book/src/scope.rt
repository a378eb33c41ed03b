// What a body may name: the variables of its procedure, and the procedures of the book with their parameter counts.
ghost use Rattle.std.specs.Prelude.{◌≤◌, length};
ghost use Rattle.meaning.specs.Reading.{contents_end};

#[derive(Clone, Copy)]
pub struct Scope<'a> {
    pub variables: usize,
    pub book: &'a [u8],
    ghost listed: { contents_end book.now ≤ length book.now },
}
