// The signs of a leaf's literals by variable, so that a literal is found in one look-up.
ghost use Rattle.std.specs.Prelude.{◌≡◌, IfSome, is_some};
ghost use Rattle.formula.specs.declared.letter.Literal.{Literal};
ghost use Rattle.game.specs.Grounds.{has_literal, leaf_over, some_literal};
ghost use Rattle.game.specs.Leaves.{each_literal};
ghost use Rattle.ground.specs.Signs.{has_sign, sign_of};

use crate::leaves::is_leaf;
use crate::whole::Whole;
use formula::letter::Literal;
use formula::limits::MARKS;

// The sign that a leaf gives a variable, or that it does not name it. One byte, where an `Option<bool>` has two: the array is filled anew for
// each leaf, and of a short leaf this is most of the work.
#[derive(Clone, Copy, PartialEq)]
pub(crate) enum Sign {
    Absent,
    Positive,
    Negative,
}

impl Sign {
    fn of(positive: bool) -> Sign
        ensures { result ≡ sign_of positive }
    {
        if positive {
            Sign::Positive
        } else {
            Sign::Negative
        }
    }
}

// For each variable the sign that the leaf gives it. An array by variable and no map, since a ground has no heap.
#[derive(Drop)]
pub(crate) struct Signs {
    by_variable: [Sign; MARKS],
}

impl Signs {
    // The signs of a list; none where it is no leaf over the formula.
    pub(crate) fn of_leaf<F: Whole>(formula: &F, leaf: &[Literal]) -> Option<Self>
        ensures leaf { is_some result ≡ leaf_over (F.Whole.formula formula.now) leaf.now }
        ensures told { IfSome result (λ signs. (l : Literal) → has_sign signs l ≡ has_literal leaf.now l) }
    {
        if !is_leaf(formula, leaf) {
            return None;
        }
        let mut by_variable = [Sign::Absent; MARKS];
        for literal in leaf {
            by_variable[literal.variable as usize] = Sign::of(literal.positive);
        }
        Some(Signs { by_variable })
    }

    // Whether the literal stands in the leaf.
    fn has(&self, literal: Literal) -> bool
        ensures { result ≡ has_sign self.now literal }
    {
        let wanted = Sign::of(literal.positive);
        let sign = self.by_variable.get(literal.variable as usize);
        sign.is_some_and(|sign| *sign == wanted)
    }

    // Whether every literal of the row stands in it.
    pub(crate) fn have_all(&self, row: &[Literal]) -> bool
        ensures { result ≡ each_literal (has_sign self.now) row.now }
    {
        row.iter().all(|literal| self.has(*literal))
    }

    // Whether some literal of the row stands in it.
    pub(crate) fn have_some(&self, row: &[Literal]) -> bool
        ensures { result ≡ some_literal (has_sign self.now) row.now }
    {
        row.iter().any(|literal| self.has(*literal))
    }
}
