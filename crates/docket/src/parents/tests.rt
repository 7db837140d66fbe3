ghost use Rattle.std.specs.Prelude.{◌≡◌, ◌+◌, length};
ghost use Rattle.game.specs.Rules.{same_plain};
ghost use Rattle.game.specs.Functions.{clashes_above, opponents_agree, pivot_marks, resolved};
ghost use Rattle.docket.specs.Checks.{checked, parents_tests};
ghost use Rattle.docket.specs.Sides.{seen};

use super::Parents;
use crate::look::mark_of;
use crate::refusing::check;
use game::record::Mark;
use refusal::{Layer, Reason, Refusal};
use table::{Keyed, Meeting, Walk};

// Whether two marks of a variable are the same plain mark.
fn agrees(one: Mark, other: Mark) -> bool
    ensures { result ≡ same_plain one other }
{
    one == other && one != Mark::Star
}

impl<'a> Parents<'a> {
    // Refuses where the rule forbids the resolve.
    pub(crate) fn check(&self) -> Result<(), Refusal>
        ensures { result ≡ checked (parents_tests (seen self.now.side) self.now.pivot self.now.first.now self.now.second.now) }
    {
        let layer = Layer::Resolve;
        check(
            self.side.opponents(self.pivot),
            layer,
            Reason::PivotNotOpponents,
        )?;
        check(self.pivot_marks(), layer, Reason::PivotMarks)?;
        check(self.opponents_agree(), layer, Reason::OpponentClash)?;
        check(self.clashes_above(), layer, Reason::OwnClash)
    }

    // Whether the pivot is plus in the first record and minus in the second.
    pub(crate) fn pivot_marks(&self) -> bool
        ensures { result ≡ pivot_marks self.now.pivot self.now.first.now self.now.second.now }
    {
        mark_of(self.first, self.pivot) == Some(Mark::Plus)
            && mark_of(self.second, self.pivot) == Some(Mark::Minus)
    }

    // Whether no variable of the opponent clashes, the pivot aside.
    pub(crate) fn opponents_agree(&self) -> bool
        ensures { result ≡ opponents_agree (seen self.now.side) self.now.pivot self.now.first.now self.now.second.now }
    {
        Walk::new(self.first, self.second).all(|met| match met {
            Meeting::Both(one, other) => {
                one.variable == self.pivot
                    || self.side.mine(one.variable)
                    || agrees(one.mark, other.mark)
            }
            _ => true,
        })
    }

    // Whether each own variable that clashes is above the pivot.
    pub(crate) fn clashes_above(&self) -> bool
        ensures { result ≡ clashes_above (seen self.now.side) self.now.pivot self.now.first.now self.now.second.now }
    {
        let pivot_level = self.side.level(self.pivot);
        Walk::new(self.first, self.second).all(|met| match met {
            Meeting::Both(one, other) => {
                !self.side.mine(one.variable)
                    || agrees(one.mark, other.mark)
                    || pivot_level < self.side.level(one.variable)
            }
            _ => true,
        })
    }

    // How many entries the two records have together.
    fn both_len(&self) -> usize
        ensures { result ≡ length self.now.first.now + length self.now.second.now }
    {
        self.first.len() + self.second.len()
    }

    // How many entries the record of the resolve has.
    pub(crate) fn resolved_len(&self) -> usize
        ensures { result ≡ length (resolved self.now.pivot self.now.first.now self.now.second.now) }
    {
        // no more than this are counted, so the count fits
        let _most = self.both_len();
        Walk::new(self.first, self.second)
            .map(Meeting::joined)
            .filter(|entry| entry.key() != self.pivot)
            .count()
    }
}
