// What a step of a derivation says, as it is kept: the marks of its record, and how the step came.
ghost use Rattle.std.specs.Prelude.{◌≡◌};
ghost use Rattle.game.specs.Functions.{joined_entry};
ghost use Rattle.game.specs.Leaves.{entry_from};

use formula::letter::Literal;
use table::Keyed;

// The mark of a variable in a record. Plus and minus are the plain marks: the variable stands there with that sign. Star says that
// the sign depends on the play; only own variables are marked so.
#[derive(Clone, Copy, Debug, PartialEq)]
pub enum Mark {
    Plus,
    Minus,
    Star,
}

// One variable of a record, with its mark.
#[derive(Clone, Copy, Debug, PartialEq)]
pub struct Entry {
    pub variable: u32,
    pub mark: Mark,
}

// A literal as a mark: plus for a variable that stands there plainly, minus for one that is denied.
impl From<Literal> for Entry {
    ghost from_gives = { λ literal entry. entry ≡ entry_from literal };

    fn from(literal: Literal) -> Entry {
        Entry {
            variable: literal.variable,
            mark: if literal.positive {
                Mark::Plus
            } else {
                Mark::Minus
            },
        }
    }
}

// Records are sorted by variable. Where both parents of a resolve name a variable, the same plain mark stays, and any two others become star.
impl Keyed for Entry {
    ghost key = { λ e. e.variable };

    ghost joined = { joined_entry };

    fn key(self) -> u32 {
        self.variable
    }

    fn joined(self, other: Entry) -> Entry {
        if self.mark == other.mark {
            self
        } else {
            Entry {
                variable: self.variable,
                mark: Mark::Star,
            }
        }
    }
}

// How a step came: as a leaf, by resolving two earlier steps on a pivot, or by reducing an earlier one. Steps are numbered from 1.
#[derive(Clone, Copy, Debug, PartialEq)]
pub enum Origin {
    Leaf,
    Resolve { pivot: u32, first: u32, second: u32 },
    Reduce { parent: u32 },
}
