// The variables' sets of a procedure: one byte each, the first w of them in use.
ghost use Rattle.std.specs.Prelude.{◌≡◌, ◌-◌, ◌≤◌, ◌<◌, ◌++◌, length, set, replicate};
ghost use Rattle.meaning.specs.Limits.{most_parameters};
ghost use Rattle.meaning.specs.Lists.{each};
ghost use Rattle.meaning.specs.Sets.{single, union};
ghost use Rattle.meaning.specs.Flow.{joined};
ghost use Rattle.flow.specs.Rows.{most_variables, Held};
ghost use Rattle.flow.specs.Walks.{Raised, RowFits, ArrivePre, Arrived};

use crate::copy::Places;
use book::limits::MOST_VARIABLES;
use sets::{Bits, Set};

// A set for each variable that a procedure may have.
pub type Row = [Bits; MOST_VARIABLES];

// The set of variable x is replaced.
pub fn replace(sets: &mut Row, x: usize, s: Bits)
    requires { x < most_variables }
    ensures { sets.new ≡ set sets.old x s }
{
    sets[x] = s;
}

// Every variable's set must lie in the row at place k.
pub fn raise(summary: &mut Places, k: usize, w: usize, sets: &Row)
    requires { RowFits k w (length summary.old) }
    ensures { Raised summary.old k w sets.now summary.new }
{
    unite(&mut summary[k..k + w], &sets[..w]);
}

// The row at place k of a summary. A loop, since a copy of so few bytes by the library's call costs the finder a tenth (kept: speed).
pub fn hold(summary: &Places, k: usize, w: usize, sets: &mut Row)
    requires { RowFits k w (length summary.now) }
    ensures { Held summary.now k w sets.new }
{
    for i in 0..w {
        sets[i] = summary[k + i];
    }
}

// The sets arrive at a loop's row, and the walk goes on from the row as the old summary has it.
pub fn arrive(old: &Places, new: &mut Places, k: usize, w: usize, sets: &mut Row)
    requires { ArrivePre old.now new.old k w sets.old }
    ensures { Arrived old.now new.old k w sets.old new.new sets.new }
{
    raise(new, k, w, sets);
    hold(old, k, w, sets);
}

// Each variable has the union of its two sets.
pub fn join(sets: &mut Row, other: &Row)
    ensures { sets.new ≡ joined union sets.old other.now }
{
    unite(sets, other);
}

// The union of two lists, place by place. An index for the other: of a zip with iter_mut a proof learns no element (kept: proof).
fn unite(sets: &mut [Bits], other: &[Bits])
    requires { length sets.old ≡ length other.now }
    ensures { sets.new ≡ joined union sets.old other.now }
{
    for (i, s) in sets.iter_mut().enumerate() {
        *s |= other[i];
    }
}

// At the start parameter i has {i}, and locals are empty.
pub fn start(parameters: usize) -> Row
    requires { parameters ≤ most_parameters }
    ensures { result ≡ each parameters single ++ replicate (most_variables - parameters) 0 }
{
    let mut bits = [0; MOST_VARIABLES];
    for i in 0..parameters {
        bits[i] = Set::one(i).bits;
    }
    bits
}
