// The game of a sealed formula as one side sees it: which variables are own, and their levels.
ghost use Rattle.std.specs.Prelude.{◌≡◌};
ghost use Rattle.game.specs.Functions.{opponents};
ghost use Rattle.qdimacs.specs.Kept.{sealed_formula};
ghost use Rattle.calls.specs.Dockets.{side_at};
ghost use Rattle.docket.specs.Sides.{seen};

use formula::letter::Letter;
use ground::Ground;
use qdimacs::Sealed;

#[derive(Clone, Copy)]
pub(crate) struct Side<'a> {
    pub(crate) formula: Sealed<'a>,
    pub(crate) own: Letter,
}

impl<'a> Side<'a> {
    // The game of the formula as the ground's side sees it.
    pub(crate) fn of<G: Ground>(formula: &Sealed<'a>, own_ground: &G) -> Side<'a>
        ensures { seen result ≡ side_at (sealed_formula formula.now) (G.Ground.meaning own_ground.now) }
    {
        let _ = own_ground;
        Side {
            formula: *formula,
            own: G::OWN,
        }
    }

    // Whether own side binds the variable.
    pub(crate) fn mine(&self, variable: u32) -> bool
        ensures { result ≡ (seen self.now).mine variable }
    {
        let own = self.own;
        self.formula
            .owner(variable)
            .is_some_and(|letter| own == letter)
    }

    // The place of the variable's block, from 1; 0 where it is unbound: a number for the rules to compare, as in the prefix.
    pub(crate) fn level(&self, variable: u32) -> usize
        ensures { result ≡ (seen self.now).level variable }
    {
        self.formula.level(variable)
    }

    // Whether the opponent binds the variable.
    pub(crate) fn opponents(&self, variable: u32) -> bool
        ensures { result ≡ opponents (seen self.now) variable }
    {
        !self.mine(variable) && 1 <= self.level(variable)
    }
}
