// The limits of a book, as the rules have them.

pub const MOST_BYTES: usize = 32768;

pub const MOST_PROCEDURES: usize = 32;

pub const MOST_PARAMETERS: usize = 8;

pub const MOST_LOCALS: usize = 8;

// The most parameters and the most locals together.
pub const MOST_VARIABLES: usize = MOST_PARAMETERS + MOST_LOCALS;

pub const MOST_LOOPS: usize = 64;

pub const MOST_DEPTH: usize = 24;

// The most places of a summary: a result for each procedure, and for each loop a row of a set for each variable.
pub const MOST_PLACES: usize = MOST_PROCEDURES + MOST_LOOPS * MOST_VARIABLES;
