// The literals of a leaf as marks.
ghost use Rattle.std.specs.Prelude.{◌≡◌, length, take};
ghost use Rattle.table.specs.Entries.{free, Grown};
ghost use Rattle.game.specs.Leaves.{marked};

use formula::letter::Literal;
use game::record::Entry;
use table::Table;

// Appends the literals as marks, as far as there is room.
pub(crate) fn append_leaf(marks: &mut Table<Entry>, literals: &[Literal])
    ensures { Grown marks.old (take (length (free marks.old)) (marked literals.now)) marks.new }
{
    marks.extend(literals.iter().map(|literal| Entry::from(*literal)));
}
