// The clause ground: own side is `a`, a play is won when some row is false, and a leaf is admitted exactly where some row has the
// same literals, in any order.
ghost use Rattle.std.specs.Prelude.{◌≡◌};
ghost use Rattle.formula.specs.declared.letter.Letter.TheVariants.{Universal};
ghost use Rattle.game.specs.Grounds.{clause_ground};
ghost use Rattle.game.proofs.Grounds.{clause_law};
ghost use Rattle.std.proofs.Common.{rules};

use crate::ground::{Ground, JudgingGround};
use crate::plays::row_is_false;
use crate::rows::Rows;
use crate::signs::Signs;
use crate::whole::Whole;
use formula::letter::{Letter, Literal};

// Clauses and cubes are two types, and no parameter of one: they differ in what they admit, in what is won, and in their law's proof.
#[derive(Clone, Copy)]
pub struct Clauses<F> {
    pub formula: F,
}

impl<F: Whole> Ground for Clauses<F> {
    const OWN: Letter = Letter::Universal;

    ghost OWN = { Universal };

    ghost meaning = { λ g. clause_ground (F.Whole.formula g.formula) };

    ghost letter = { Prim.search rules };

    ghost whole = { Prim.search rules };

    ghost sound = { λ g. clause_law (F.Whole.formula g.formula) };

    fn variables(&self) -> usize {
        self.formula.variables()
    }

    // One pass over the leaf and the rows. A row with as many literals as the leaf, each of them the leaf's, has the leaf's literals.
    fn admit(&self, leaf: &[Literal]) -> bool {
        let Some(signs) = Signs::of_leaf(&self.formula, leaf) else {
            return false;
        };
        Rows::of(&self.formula).any(|row| row.len() == leaf.len() && signs.have_all(row))
    }
}

impl<F: Whole> JudgingGround for Clauses<F> {
    fn judge(&self, play: &[u8]) -> bool {
        Rows::of(&self.formula).any(|row| row_is_false(play, row))
    }
}
