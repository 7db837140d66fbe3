// A formula with room of its own, and the sealed formula that an accepted reading gives.
mod methods;

ghost use Rattle.std.specs.Prelude.{◌≡◌, true};
ghost use Rattle.formula.specs.Formula.{well_formed};
ghost use Rattle.qdimacs.specs.Reading.{left_formula};
ghost use Rattle.qdimacs.specs.View.{state_of};

use crate::draft::Draft;

// What is read of a text, and whether the text was accepted. A flag says so, and no `Option` or type of its own: what a refused text
// left stands in the same draft.
#[derive(Drop)]
pub struct Formula {
    draft: Draft,
    sealed: bool,
    ghost whole: { (sealed ≡ true → well_formed (left_formula (state_of draft)) ≡ true) },
}

// A formula whose reading was accepted. Only `Formula::sealed` makes one, and while it stands the formula cannot be read anew.
#[derive(Clone, Copy)]
pub struct Sealed<'a> {
    formula: &'a Formula,
    ghost full: { formula.now.sealed ≡ true },
}
