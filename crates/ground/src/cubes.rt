// The cube ground: own side is `e`, a play is won when no row is false, and a leaf is admitted exactly where every row has one of its
// literals.
ghost use Rattle.std.specs.Prelude.{◌≡◌};
ghost use Rattle.formula.specs.declared.letter.Letter.TheVariants.{Existential};
ghost use Rattle.game.specs.Grounds.{cube_ground};
ghost use Rattle.game.proofs.Grounds.{cube_law};
ghost use Rattle.std.proofs.Common.{rules};

use crate::ground::{Ground, JudgingGround};
use crate::plays::row_is_false;
use crate::rows::Rows;
use crate::signs::Signs;
use crate::whole::Whole;
use formula::letter::{Letter, Literal};

#[derive(Clone, Copy)]
pub struct Cubes<F> {
    pub formula: F,
}

impl<F: Whole> Ground for Cubes<F> {
    const OWN: Letter = Letter::Existential;

    ghost OWN = { Existential };

    ghost meaning = { λ g. cube_ground (F.Whole.formula g.formula) };

    ghost letter = { Prim.search rules };

    ghost whole = { Prim.search rules };

    ghost sound = { λ g. cube_law (F.Whole.formula g.formula) };

    fn variables(&self) -> usize {
        self.formula.variables()
    }

    // One pass over the leaf and the rows.
    fn admit(&self, leaf: &[Literal]) -> bool {
        let Some(signs) = Signs::of_leaf(&self.formula, leaf) else {
            return false;
        };
        Rows::of(&self.formula).all(|row| signs.have_some(row))
    }
}

impl<F: Whole> JudgingGround for Cubes<F> {
    fn judge(&self, play: &[u8]) -> bool {
        Rows::of(&self.formula).all(|row| !row_is_false(play, row))
    }
}
