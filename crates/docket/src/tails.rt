// The tail of a record, and the record without it.
ghost use Rattle.std.specs.Prelude.{◌≡◌, length};
ghost use Rattle.game.specs.Records.{ceiling as highest};
ghost use Rattle.game.specs.Functions.{kept};
ghost use Rattle.docket.specs.Sides.{seen, stays};

use crate::side::Side;
use game::record::Entry;

// How a record is cut: an own variable is in the tail where its level is above the ceiling.
#[derive(Clone, Copy)]
pub(crate) struct Cut<'a> {
    side: Side<'a>,
    ceiling: usize,
}

impl<'a> Cut<'a> {
    // The ceiling is the highest level of an opponent's variable in the record; 0 where it has none, which is below each level of a block.
    // The rule compares it with levels, so an `Option` would be turned into that 0.
    pub(crate) fn of(side: Side<'a>, marks: &[Entry]) -> Cut<'a>
        ensures side { seen result.side ≡ seen side.entry }
        ensures ceiling { result.ceiling ≡ highest (seen result.side) marks.now }
    {
        // A `fold` is compiled to one tight loop; a chain of `filter`, `map` and `max` isn't, and took over half as many instructions again.
        let ceiling = marks.iter().fold(0, |ceiling: usize, entry| {
            if side.mine(entry.variable) {
                ceiling
            } else {
                ceiling.max(side.level(entry.variable))
            }
        });
        Cut { side, ceiling }
    }

    // Whether a variable stays: it is the opponent's, or not above the ceiling.
    pub(crate) fn keeps(&self, variable: u32) -> bool
        ensures { result ≡ stays (seen self.now.side) self.now.ceiling variable }
    {
        !(self.side.mine(variable) && self.ceiling < self.side.level(variable))
    }

    // How many entries of the record stay.
    pub(crate) fn kept_len(&self, marks: &[Entry]) -> usize
        ensures { result ≡ length (kept (stays (seen self.now.side) self.now.ceiling) marks.now) }
    {
        // A `fold` again: `filter` and `count` took half as many instructions again. No sum wraps, since a slice has fewer than 2^64 entries.
        marks.iter().fold(0, |count: usize, entry| {
            count.wrapping_add(usize::from(self.keeps(entry.variable)))
        })
    }
}
