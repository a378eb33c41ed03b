// Level tables: the test of a table, the join, the bottom level and the reported level. Each function takes any bytes.
#![tactic(auto)]

ghost use Rattle.std.specs.Prelude.{◌≡◌, ◌≤◌, get_or};
ghost use Rattle.meaning.specs.Limits.{most_parameters};
ghost use Rattle.meaning.specs.Levels.{levels, join, shaped, is_bottom, valid, bottom, at_or_below, reported};
ghost use Rattle.levels.specs.Lawful.{stays, repeats, commutes, associates, lawful};

use sets::Set;

// The most levels of a table.
pub const MOST_LEVELS: usize = 16;

// The byte at a place, and 0 past the end.
fn byte(bytes: &[u8], at: usize) -> u8
    ensures { result ≡ get_or bytes.now at 0 }
{
    bytes.get(at).copied().unwrap_or(0)
}

// The number of levels.
pub fn count(table: &[u8]) -> u8
    ensures { result ≡ levels table.now }
{
    byte(table, 0)
}

// The join of two levels.
pub fn join(table: &[u8], a: u8, b: u8) -> u8
    ensures { result ≡ join table.now a b }
{
    let n = usize::from(count(table));
    byte(table, 1 + n * usize::from(a) + usize::from(b))
}

// One byte n, 1 to 16, then n rows of n bytes.
fn shaped(table: &[u8]) -> bool
    ensures { result ≡ shaped table.now }
{
    let n = usize::from(count(table));
    (1..=MOST_LEVELS).contains(&n) && table.len() == 1 + n * n
}

// The entry of two levels is a level.
fn stays(table: &[u8], a: u8, b: u8) -> bool
    ensures { result ≡ stays table.now a b }
{
    join(table, a, b) < count(table)
}

// A level joined with itself is that level.
fn repeats(table: &[u8], a: u8) -> bool
    ensures { result ≡ repeats table.now a }
{
    join(table, a, a) == a
}

// Two levels join alike in either order.
fn commutes(table: &[u8], a: u8, b: u8) -> bool
    ensures { result ≡ commutes table.now a b }
{
    join(table, a, b) == join(table, b, a)
}

// Three levels join alike in either grouping.
fn associates(table: &[u8], a: u8, b: u8, c: u8) -> bool
    ensures { result ≡ associates table.now a b c }
{
    join(table, join(table, a, b), c) == join(table, a, join(table, b, c))
}

// The laws of one level, of pairs and of triples. The first that is broken ends the test.
// The loops are left by a label (kept: docs/DECISIONS.md names this form).
fn lawful(table: &[u8]) -> bool
    ensures { result ≡ lawful table.now }
{
    let n = count(table);
    'laws: {
        for a in 0..n {
            if !repeats(table, a) {
                break 'laws false;
            }
            for b in 0..n {
                if !stays(table, a, b) {
                    break 'laws false;
                }
                if !commutes(table, a, b) {
                    break 'laws false;
                }
                for c in 0..n {
                    if !associates(table, a, b, c) {
                        break 'laws false;
                    }
                }
            }
        }
        true
    }
}

// Level a is at or below b when their join is b.
pub fn at_or_below(table: &[u8], a: u8, b: u8) -> bool
    ensures { result ≡ at_or_below table.now a b }
{
    join(table, a, b) == b
}

// The level's join with every b is b.
fn is_bottom(table: &[u8], a: u8) -> bool
    ensures { result ≡ is_bottom table.now a }
{
    (0..count(table)).all(|b| at_or_below(table, a, b))
}

// The bottom level, and 0 where no level is (kept: the contract of this public function is an equation for any bytes).
pub fn bottom(table: &[u8]) -> u8
    ensures { result ≡ bottom table.now }
{
    (0..count(table)).fold(0, |found, a| if is_bottom(table, a) { a } else { found })
}

// A level table is valid when it has its shape and keeps every law. Where no level is bottom, neither is what is found.
pub fn valid(table: &[u8]) -> bool
    ensures { result ≡ valid table.now }
{
    shaped(table) && lawful(table) && is_bottom(table, bottom(table))
}

// Bottom joined with the levels of those of n parameters that are in the set.
pub fn reported(table: &[u8], levels: &[u8], n: usize, set: Set) -> u8
    requires { n ≤ most_parameters }
    ensures { result ≡ reported table.now levels.now n set }
{
    (0..n).fold(bottom(table), |found, i| {
        if set.has(i) {
            join(table, found, byte(levels, i))
        } else {
            found
        }
    })
}
