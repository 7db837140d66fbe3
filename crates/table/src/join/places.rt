ghost use Rattle.std.specs.Prelude.{◌≡◌, ◌-◌, ◌≤◌};
ghost use Rattle.std.specs.List.{slice_get};
ghost use Rattle.table.specs.Joins.{part, past, SpansStepped};

use super::meets::meet;
use super::{Keyed, Meeting, Span, SpanWalk};

impl Span {
    // The first entry of the part that it names.
    fn head<T: Copy>(self, all: &[T]) -> Option<T>
        ensures { result ≡ slice_get (part self all.now) 0 }
    {
        if self.from < self.to {
            all.get(self.from).copied()
        } else {
            None
        }
    }

    // The places of it but for the first `n`.
    fn past(self, n: usize) -> Span
        requires { n ≤ self.to - self.from }
        ensures { result ≡ past n self }
    {
        Span {
            from: self.from + n,
            to: self.to,
        }
    }
}

impl SpanWalk {
    // A walk over the two parts, from their beginning.
    pub fn new(first: Span, second: Span) -> SpanWalk
        ensures first { result.first ≡ first }
        ensures second { result.second ≡ second }
    {
        SpanWalk { first, second }
    }

    // The next meeting of the two parts of the list `all`, if there is one.
    pub fn next<T: Keyed>(&mut self, all: &[T]) -> Option<Meeting<T>>
        ensures { SpansStepped T.key all.now self.old result self.new }
    {
        let met = meet(self.first.head(all), self.second.head(all))?;
        let (first, second) = met.takes();
        self.first = self.first.past(first);
        self.second = self.second.past(second);
        Some(met)
    }
}
