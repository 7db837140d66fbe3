// The parents of a resolve, in a file of their own: an invariant imports every `ghost use` of its file.
mod tests;

ghost use Rattle.std.specs.Prelude.{◌≡◌, true};
ghost use Rattle.docket.specs.Stored.{rises};

use crate::side::Side;
use game::record::Entry;

// The records of the two parents of a resolve, each of which rises, and the variable that they are resolved on, as a side sees it.
#[derive(Clone, Copy)]
pub(crate) struct Parents<'a> {
    pub(crate) side: Side<'a>,
    pub(crate) pivot: u32,
    pub(crate) first: &'a [Entry],
    pub(crate) second: &'a [Entry],
    ghost rise: { (rises 0 first.now ≡ true) × (rises 0 second.now ≡ true) },
}
