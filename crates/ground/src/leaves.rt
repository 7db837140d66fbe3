// Whether a list of literals is a leaf.
ghost use Rattle.std.specs.Prelude.{◌≡◌};
ghost use Rattle.formula.specs.Formula.{row_bound};
ghost use Rattle.formula.specs.Prefix.{has_var, order};
ghost use Rattle.game.specs.Grounds.{leaf_over};
ghost use Rattle.game.specs.Leaves.{rising};

use crate::whole::Whole;
use formula::letter::Literal;

// Whether every literal's variable is bound.
pub fn all_bound<F: Whole>(formula: &F, leaf: &[Literal]) -> bool
    ensures { result ≡ row_bound (order (F.Whole.formula formula.now).blocks) leaf.now }
{
    leaf.iter()
        .all(|literal| formula.owner(literal.variable).is_some())
}

// Whether the variables rise strictly, from 1 on. Written out: as a chain that is sorted, from 0 on, it was tried and the proof did not close.
#[tactic(auto, unfolding(game::specs::Leaves::rising))]
pub fn rises(leaf: &[Literal]) -> bool
    ensures { result ≡ rising 0 leaf.now }
{
    let mut last = 0;
    for literal in leaf {
        if literal.variable <= last {
            return false;
        }
        last = literal.variable;
    }
    true
}

// Both: whether it is a leaf over the formula.
pub(crate) fn is_leaf<F: Whole>(formula: &F, leaf: &[Literal]) -> bool
    ensures { result ≡ leaf_over (F.Whole.formula formula.now) leaf.now }
{
    all_bound(formula, leaf) && rises(leaf)
}
