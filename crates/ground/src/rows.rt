// The rows of a formula, one after another.
ghost use Rattle.std.specs.Prelude.{◌≡◌};
ghost use Rattle.std.specs.Iterator.{YieldsFirstRef, item_count};
ghost use Rattle.ground.specs.Rows.{rows_left};

use crate::whole::Whole;
use formula::letter::Literal;
use std::ops::Range;

#[derive(Drop)]
pub(crate) struct Rows<'a, F> {
    formula: &'a F,
    places: Range<usize>,
}

impl<'a, F: Whole> Rows<'a, F> {
    pub(crate) fn of(formula: &'a F) -> Self
        ensures { rows_left F.Whole.formula result ≡ (F.Whole.formula formula.now).rows }
    {
        Rows {
            formula,
            places: 0..formula.rows(),
        }
    }
}

impl<'a, F: Whole> Iterator for Rows<'a, F> {
    type Item = &'a [Literal];

    ghost next_gives = { YieldsFirstRef (rows_left F.Whole.formula) };

    ghost remaining = { item_count (rows_left F.Whole.formula) };

    fn next(&mut self) -> Option<&'a [Literal]> {
        self.formula.row(self.places.next()?)
    }
}
