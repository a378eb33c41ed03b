// The limits of a run, as the rules have them. Those of a book are in book::limits.

// The started procedure stands at call depth 1; one more than so many is too deep.
pub const MOST_CALLS: u32 = 64;

// The work cells that are lent at the least, and that a run leaves 0.
pub const LEAST_CELLS: usize = 1024;

// The largest budget.
pub const MOST_STEPS: u64 = 1000000;
