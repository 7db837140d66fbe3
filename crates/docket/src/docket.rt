// The docket, in a file of its own: an invariant imports every `ghost use` of its file.
mod methods;

ghost use Rattle.std.specs.Prelude.{◌≡◌, ◌+◌, ◌≤◌, true, length};
ghost use Rattle.table.specs.Entries.{entries, free};
ghost use Rattle.docket.specs.Stored.{StepsLie, all_rise, steps_in};

use crate::stored::StoredStep;
use game::record::Entry;
use table::Table;

// A docket: the growing list of the steps of a trace, each with its record. It stands on memory that the caller lends for steps and
// for marks, and holds at most 4,096 and 16,384 of them, or fewer as the memory allows. A step names its parents by number and its record
// by where it ends among the marks, since lent memory has no place for boxes.
//
// Formula and ground come side by side with each call and are not kept in one struct: any two may come, and a call tests whether they fit.
#[derive(Drop)]
pub struct Docket<'a> {
    n: usize,
    steps: Table<'a, StoredStep>,
    marks: Table<'a, Entry>,
    // The records lie one behind the other and are all the marks; each rises.
    ghost lie: { StepsLie (entries steps) (length (entries marks)) },
    ghost rise: { all_rise (steps_in (entries steps) (entries marks)) ≡ true },
    ghost few: { length (entries steps) + length (free steps) ≤ 4096 },
}

// A step with an empty record, which shows that own side wins. Only `close` makes one.
#[derive(Clone, Copy, Debug)]
pub struct Verdict {
    step: u32,
}
