ghost use Rattle.std.specs.Prelude.{◌≡◌};
ghost use Rattle.table.specs.Joins.{meeting_key, next_of, of_first, of_second, outcome};

use super::{Keyed, Meeting};
use std::cmp::Ordering;

impl<T: Keyed> Meeting<T> {
    // The key that is met.
    pub fn key(self) -> u32
        ensures { result ≡ meeting_key T.key self }
    {
        match self {
            Meeting::First(x) => x.key(),
            Meeting::Second(y) => y.key(),
            Meeting::Both(x, _) => x.key(),
        }
    }

    // The entry that it comes to.
    pub fn joined(self) -> T
        ensures { result ≡ outcome T.joined self }
    {
        match self {
            Meeting::First(x) => x,
            Meeting::Second(y) => y,
            Meeting::Both(x, y) => x.joined(y),
        }
    }

    // How many entries it takes of the first list, and of the second.
    pub(super) fn takes(self) -> (usize, usize)
        ensures { result ≡ (of_first self, of_second self) }
    {
        match self {
            Meeting::First(_) => (1, 0),
            Meeting::Second(_) => (0, 1),
            Meeting::Both(_, _) => (1, 1),
        }
    }
}

// What is met next, where the two lists begin so.
pub(super) fn meet<T: Keyed>(first: Option<T>, second: Option<T>) -> Option<Meeting<T>>
    ensures { result ≡ next_of T.key first second }
{
    match (first, second) {
        (None, None) => None,
        (Some(x), None) => Some(Meeting::First(x)),
        (None, Some(y)) => Some(Meeting::Second(y)),
        (Some(x), Some(y)) => Some(match x.key().cmp(&y.key()) {
            Ordering::Less => Meeting::First(x),
            Ordering::Greater => Meeting::Second(y),
            Ordering::Equal => Meeting::Both(x, y),
        }),
    }
}
