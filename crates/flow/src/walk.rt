// What the walk of a body goes by.
use crate::copy::Places;

// The book, the summary as it stood, and the body's procedure p, which has w variables. None of it changes on the way.
#[derive(Clone, Copy)]
pub struct Walk<'a> {
    pub book: &'a [u8],
    pub old: &'a Places,
    pub p: usize,
    pub w: usize,
}
