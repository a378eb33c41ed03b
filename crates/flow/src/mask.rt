// Sets of procedures: bit p for procedure p. A type for these and for `Set` needs bounds and laws of its own (kept: no plainer).
ghost use Rattle.std.specs.Prelude.{◌≡◌, ◌<◌};
ghost use Rattle.meaning.specs.Limits.{most_procedures};
ghost use Rattle.meaning.specs.Sets.{single, union, inside};

// The same set with p in it.
pub fn with(mask: u32, p: usize) -> u32
    requires { p < most_procedures }
    ensures { result ≡ union mask (single p) }
{
    mask | (1u32 << p)
}

// Whatever the first names, the second names too.
pub fn within(a: u32, b: u32) -> bool
    ensures { result ≡ inside a b }
{
    a | b == b
}
