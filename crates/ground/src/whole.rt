// What a ground needs of its formula: a well-formed formula, and look-ups in it.
ghost use Rattle.std.specs.Prelude.{◌≡◌, true, length};
ghost use Rattle.std.specs.Option.{option_map};
ghost use Rattle.std.specs.List.{slice_get};
ghost use Rattle.formula.specs.Formula.{Formula, well_formed};
ghost use Rattle.formula.specs.Prefix.{owner as owner_of};
ghost use Rattle.qdimacs.specs.Kept.{sealed_formula};

use formula::letter::{Letter, Literal};
use qdimacs::Sealed;

pub trait Whole {
    ghost formula: { Self → Formula };

    ghost well: { (f : Self) → well_formed (formula f) ≡ true };

    fn variables(&self) -> usize
        ensures { result ≡ (formula self.now).size };

    fn owner(&self, variable: u32) -> Option<Letter>
        ensures { result ≡ owner_of (formula self.now).blocks variable };

    fn rows(&self) -> usize
        ensures { result ≡ length (formula self.now).rows };

    fn row(&self, i: usize) -> Option<&[Literal]>
        ensures { option_map (λ s. s.now) result ≡ slice_get (formula self.now).rows i };
}

// Each look-up goes on to the method of the same name. The trait stays beside them, since a ground may stand on another formula, and
// `Sealed::row` lends a row for longer than a method of the trait can.
impl<'a> Whole for Sealed<'a> {
    ghost formula = { λ s. sealed_formula s };

    ghost well = { λ s. s.formula.now.whole s.full };

    fn variables(&self) -> usize {
        Sealed::variables(self)
    }

    fn owner(&self, variable: u32) -> Option<Letter> {
        Sealed::owner(self, variable)
    }

    fn rows(&self) -> usize {
        Sealed::rows(self)
    }

    fn row(&self, i: usize) -> Option<&[Literal]> {
        Sealed::row(self, i)
    }
}
