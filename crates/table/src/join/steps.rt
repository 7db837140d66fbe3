ghost use Rattle.std.specs.Prelude.{◌≡◌, ⊤};
ghost use Rattle.std.specs.Iterator.{MakesProgress, YieldsFirst, item_count};
ghost use Rattle.table.specs.Joins.{ahead, below, part, Stepped};

use super::meets::meet;
use super::{Keyed, Meeting, Span, Walk};

impl Span {
    // The places of it that are below `len`.
    pub fn below(self, len: usize) -> Span
        ensures { result ≡ below len self }
    {
        Span {
            from: self.from,
            to: self.to.min(len),
        }
    }

    // The part of a list that it names: shorter where the list ends before the span does, and empty where the span is backward.
    pub fn of<T>(self, all: &[T]) -> &[T]
        ensures { result.now ≡ part self all.now }
    {
        let end = self.to.min(all.len());
        all.get(self.from..end).unwrap_or(&[])
    }
}

impl<'a, T> Walk<'a, T> {
    // A walk over the two lists, from their beginning.
    pub fn new(first: &'a [T], second: &'a [T]) -> Walk<'a, T>
        ensures first { result.first.now ≡ first.now }
        ensures second { result.second.now ≡ second.now }
    {
        Walk { first, second }
    }
}

impl<'a, T: Keyed> Iterator for Walk<'a, T> {
    type Item = Meeting<T>;

    ghost next_gives = { YieldsFirst (ahead T.key) };

    ghost remaining = { item_count (ahead T.key) };

    // The next meeting of the two lists, if there is one.
    fn next(&mut self) -> Option<Meeting<T>>
        ensures steps { YieldsFirst (ahead T.key) self.old result self.new }
        ensures goes { MakesProgress (λ _. ⊤) (item_count (ahead T.key)) self.old result self.new }
        ensures stepped { Stepped T.key self.old result self.new }
    {
        let met = meet(self.first.first().copied(), self.second.first().copied())?;
        let (first, second) = met.takes();
        self.first = &self.first[first..];
        self.second = &self.second[second..];
        Some(met)
    }
}
