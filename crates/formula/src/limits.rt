// The most of each that a formula may have.
pub const MOST_VARIABLES: usize = 1024;

pub const MOST_BLOCKS: usize = 64;

pub const MOST_ROWS: usize = 4096;

pub const MOST_LITERALS: usize = 16384;

// How many marks there are: one for each number of a variable, and one for 0, which no variable has.
pub const MARKS: usize = MOST_VARIABLES + 1;
