// The mark of a variable in a record.
ghost use Rattle.std.specs.Prelude.{◌≡◌, true};
ghost use Rattle.game.specs.Records.{found};
ghost use Rattle.docket.specs.Stored.{as_found, rises};

use game::record::{Entry, Mark};

// The mark of the variable in a record that rises, if it is there; found by halving.
pub(crate) fn mark_of(marks: &[Entry], variable: u32) -> Option<Mark>
    requires { rises 0 marks.now ≡ true }
    ensures { as_found result ≡ found marks.now variable }
{
    let place = marks
        .binary_search_by_key(&variable, |entry| entry.variable)
        .ok()?;
    Some(marks[place].mark)
}
