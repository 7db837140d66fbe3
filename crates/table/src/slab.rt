// The table itself: one text for every kind of entry.
mod appends;
mod filling;
mod methods;

ghost use Rattle.std.specs.Prelude.{Some, codes};

use std::error::Error;
use std::fmt;

// The first `len` slots hold the entries, and the others are free.
//
// The slots are memory that the caller lends, so they are a slice with a length beside, and no `Vec` or `ArrayVec`, which own theirs.
//
// No ghost field says that `len` is within the slots: a struct that holds a table could then not be passed by value.
// So each method is right for any `len`, and where it is beyond the slots, all of them hold entries and none is free.
#[derive(Drop)]
pub struct Table<'a, T> {
    slots: &'a mut [T],
    len: usize,
}

// No slot is free.
#[derive(Clone, Copy, Debug, PartialEq, Eq)]
pub struct Full;

impl fmt::Display for Full {
    ghost output = { λ _. Some (codes "no slot of the table is free") };

    fn fmt<W: fmt::Write>(&self, f: &mut fmt::Formatter<W>) -> fmt::Result {
        write!(f, "no slot of the table is free")
    }
}

impl Error for Full {}
