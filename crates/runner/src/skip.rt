// Parts that the run passes over: a loop over their bytes, with a count of the parts still open.
ghost use Rattle.std.specs.Prelude.{ℕ, List};
ghost use Rattle.meaning.specs.Reading.{Scope};
ghost use Rattle.runner.specs.Skipping.{SomeExpr, SomeCmd, SomeRun, SomeClosing, RowPre, RowPost, PartPre, HeadPost};
ghost use Rattle.runner.specs.Spanning.{Spanned, spanned_expr, spanned_run, spanned_closing};

use book::bytes::number;
use book::entry::parameters;

// Where a part's head ends, and how many parts follow inside it.
#[derive(Clone, Copy)]
pub struct Head {
    pub next: usize,
    pub more: usize,
}

// A kind of part whose inner parts, after its head, are of the same kind.
pub trait Part {
    // Such a part of this book, over these variables, from a place to a place.
    ghost part: { List ℕ → Scope → ℕ → ℕ → Type 0 };

    fn head(book: &[u8], at: usize) -> Head
        requires { PartPre (part book.now) book.now at }
        ensures { HeadPost (part book.now) (part book.now) book.now at result };

    // It ends after it begins, and within the book.
    ghost spanned: { (b : List ℕ) → Spanned b (part b) };
}

// The place after `count` parts that stand in a row.
pub fn row<P: Part>(book: &[u8], at: usize, count: usize) -> usize
    requires { RowPre (P.part book.now) book.now at count }
    ensures { RowPost (P.part book.now) book.now at count result }
{
    let mut at = at;
    let mut count = count;
    while 0 < count {
        let h = P::head(book, at);
        at = h.next;
        count = count - 1 + h.more;
    }
    at
}

// An expression.
pub struct Expr;

impl Part for Expr {
    ghost part = { SomeExpr };

    ghost spanned = { spanned_expr };

    fn head(book: &[u8], at: usize) -> Head {
        let k = book[at];
        if k == 0x10 {
            return Head {
                next: at + 5,
                more: 0,
            };
        }
        if k == 0x11 {
            return Head {
                next: at + 2,
                more: 0,
            };
        }
        if k == 0x12 {
            return Head {
                next: at + 2,
                more: 2,
            };
        }
        let p = number(book[at + 1]);
        Head {
            next: at + 2,
            more: parameters(book, p),
        }
    }
}

// Of a command, whose inner parts are runs.
fn command_head(book: &[u8], at: usize) -> Head
    requires { PartPre (SomeCmd book.now) book.now at }
    ensures { HeadPost (SomeCmd book.now) (SomeRun book.now) book.now at result }
{
    let k = book[at];
    if k == 0x01 {
        return Head {
            next: row::<Expr>(book, at + 2, 1),
            more: 0,
        };
    }
    let next = row::<Expr>(book, at + 1, 1);
    if k == 0x02 {
        return Head { next, more: 2 };
    }
    Head { next, more: 1 }
}

// A run of commands, which a 00 ends; after a command it goes on with one more run open.
pub struct Run;

impl Part for Run {
    ghost part = { SomeRun };

    ghost spanned = { spanned_run };

    fn head(book: &[u8], at: usize) -> Head {
        if book[at] == 0x00 {
            return Head {
                next: at + 1,
                more: 0,
            };
        }
        let h = command_head(book, at);
        Head {
            next: h.next,
            more: h.more + 1,
        }
    }
}

// A closing sequence; a command is passed over whole.
pub struct Closing;

impl Part for Closing {
    ghost part = { SomeClosing };

    ghost spanned = { spanned_closing };

    fn head(book: &[u8], at: usize) -> Head {
        let k = book[at];
        if k < 0x04 {
            let h = command_head(book, at);
            return Head {
                next: row::<Run>(book, h.next, h.more),
                more: 1,
            };
        }
        let next = row::<Expr>(book, at + 1, 1);
        if k == 0x04 {
            return Head { next, more: 0 };
        }
        Head { next, more: 2 }
    }
}
