// Rows under a play.
ghost use Rattle.std.specs.Prelude.{◌≡◌};
ghost use Rattle.game.specs.Grounds.{literal_false, row_false};

use formula::letter::Literal;

// Whether the play gives the literal's variable the value that makes the literal false.
fn literal_is_false(play: &[u8], literal: Literal) -> bool
    ensures { result ≡ literal_false play.now literal }
{
    let falsifying = u8::from(!literal.positive);
    let place = (literal.variable as usize).checked_sub(1);
    place.and_then(|at| play.get(at)) == Some(&falsifying)
}

// Whether every literal of the row is false.
pub(crate) fn row_is_false(play: &[u8], row: &[Literal]) -> bool
    ensures { result ≡ row_false play.now row.now }
{
    row.iter().all(|literal| literal_is_false(play, *literal))
}
