// Small expressions, evaluated in place: a leaf, or an operation on two leaves.
ghost use Rattle.std.specs.Prelude.{IfSome};
ghost use Rattle.runner.specs.Jumping.{EndsAt};
ghost use Rattle.runner.specs.Smallness.{LeafPre, LeafPost, SmallPre, BothPre, SmallPost};

use crate::answer::Went;
use crate::operate::operate;
use book::bytes::{constant, number};

pub fn leaf_value(book: &[u8], at: usize, work: &[u32]) -> u32
    requires { LeafPre book.now at work.now }
    ensures { LeafPost book.now at work.now result }
{
    if book[at] == 0x11 {
        let x = number(book[at + 1]);
        return work[x];
    }
    constant(book, at + 1)
}

fn leaf_end(book: &[u8], at: usize, work: &[u32]) -> usize
    requires { LeafPre book.now at work.now }
    ensures { EndsAt book.now at result }
{
    if book[at] == 0x11 { at + 2 } else { at + 5 }
}

// An operation.
fn both(book: &[u8], at: usize, left: u32, work: &[u32]) -> Option<Went>
    requires { BothPre book.now at left work.now }
    ensures { IfSome result (λ a. SmallPost book.now at left work.now a.packed) }
{
    if left < 3 {
        return None;
    }
    if 0x11 < book[at + 2] {
        return None;
    }
    let mid = leaf_end(book, at + 2, work);
    if 0x11 < book[mid] {
        return None;
    }
    let a = leaf_value(book, at + 2, work);
    let b = leaf_value(book, mid, work);
    operate(book[at + 1], a, b, left - 3).ok()
}

// The expression at `at`, where it is small and `left` steps are enough.
pub fn small(book: &[u8], at: usize, left: u32, work: &[u32]) -> Option<Went>
    requires { SmallPre book.now at left work.now }
    ensures { IfSome result (λ a. SmallPost book.now at left work.now a.packed) }
{
    if left == 0 {
        return None;
    }
    let k = book[at];
    if k < 0x12 {
        return Some(Went::new(leaf_value(book, at, work), left - 1));
    }
    if k == 0x12 {
        return both(book, at, left, work);
    }
    None
}
