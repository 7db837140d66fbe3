// An example of a ground of one's own: it admits the rows of a formula that have few literals, and no others. All that it owes is
// its meaning and its law.
#![tactic(auto)]

ghost use Rattle.short_rows.specs.Short.{short_ground};
ghost use Rattle.std.specs.Prelude.{◌&&◌, length, nat_le};
ghost use Rattle.std.proofs.lemmas.Bool.{and_parts};
ghost use Rattle.formula.specs.declared.letter.Letter.TheVariants.{Universal};
ghost use Rattle.game.specs.Grounds.{leaf_over, clause_ground};
ghost use Rattle.game.proofs.Grounds.{clause_law};
ghost use Rattle.std.proofs.Common.{rules};

use formula::letter::{Letter, Literal};
use ground::whole::Whole;
use ground::{Clauses, Ground, JudgingGround};

#[derive(Clone, Copy)]
pub struct ShortRows<F> {
    pub clauses: Clauses<F>,
    pub most: usize,
}

impl<F: Whole> Ground for ShortRows<F> {
    const OWN: Letter = Letter::Universal;

    ghost OWN = { Universal };

    ghost meaning = { λ g. short_ground g.most (F.Whole.formula g.clauses.formula) };

    ghost letter = { Prim.search rules };

    ghost whole = { Prim.search rules };

    // what it admits, the clause ground admits
    ghost sound = { λ g ls p leaf admitted long full met.
        let F' = F.Whole.formula g.clauses.formula in
        let short = and_parts (nat_le (length ls) g.most) (leaf_over F' ls && (clause_ground F').admits ls) admitted in
        clause_law F' ls p leaf (and_parts (leaf_over F' ls) ((clause_ground F').admits ls) short.1).1 long full met };

    fn variables(&self) -> usize {
        self.clauses.variables()
    }

    fn admit(&self, leaf: &[Literal]) -> bool {
        leaf.len() <= self.most && self.clauses.admit(leaf)
    }
}

impl<F: Whole> JudgingGround for ShortRows<F> {
    fn judge(&self, play: &[u8]) -> bool {
        self.clauses.judge(play)
    }
}
