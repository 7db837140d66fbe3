// The interface of grounds.
ghost use Rattle.std.specs.Prelude.{◌≡◌, true};
ghost use Rattle.formula.specs.declared.letter.Letter.{Letter};
ghost use Rattle.formula.specs.Formula.{well_formed};
ghost use Rattle.game.specs.Grounds.{Ground as Meaning, KeepsLaw};
ghost use Rattle.ground.specs.Admits.{admits_leaf};

use formula::letter::{Letter, Literal};

// A ground stands for one side in the game of one sealed formula: it says which leaves a derivation may start from, and which
// finished plays are won. Its law: every full play that meets an admitted leaf is won.
pub trait Ground {
    // Own side's letter: `G::OWN` in code, `G.OWN` in clauses.
    const OWN: Letter;

    ghost OWN: { Letter };

    ghost meaning: { Self → Meaning };

    // n of its formula.
    fn variables(&self) -> usize
        ensures { result ≡ (meaning self.now).formula.size };

    // Whether the list is a leaf that the ground admits.
    fn admit(&self, leaf: &[Literal]) -> bool
        ensures { result ≡ admits_leaf (meaning self.now) leaf.now };

    ghost letter: { (g : Self) → (meaning g).own ≡ OWN };

    ghost whole: { (g : Self) → well_formed (meaning g).formula ≡ true };

    ghost sound: { (g : Self) → KeepsLaw (meaning g) };
}

// A ground that can tell of a finished play whether it is won. A play is the bytes of a board, one a variable, as the definition of its
// values reads them: a type with fewer values would ask more of callers.
pub trait JudgingGround: Ground {
    fn judge(&self, play: &[u8]) -> bool
        ensures { result ≡ (Self.Ground.meaning self.now).won play.now };
}
