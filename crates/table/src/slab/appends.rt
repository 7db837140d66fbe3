ghost use Rattle.std.specs.Prelude.{◌≡◌, Bool, List, filter, length, take};
ghost use Rattle.std.specs.Iterator.{ActsAsAt, AlwaysYields, IsFinite};
ghost use Rattle.table.specs.Entries.{entries, free, Grown, Longer};
ghost use Rattle.table.specs.Joins.{join_but, part};

use super::Table;
use super::filling::{fill, fill_kept};
use crate::join::{Keyed, Span, SpanWalk};

impl<'a, T: Copy> Table<'a, T> {
    // Appends what the iterator gives, as far as there is room. Whatever it gives, the entries that were there stay.
    pub fn extend<I: Iterator<Item = T>>(&mut self, items: I)
        requires can { I.can_next items }
        requires ends { IsFinite (I.remaining items) }
        ensures longer { Longer self.old self.new }
        ensures given { (all : List T) → AlwaysYields I.next_gives (λ x. x) items all → Grown self.old (take (length (free self.old)) all) self.new }
    {
        let used = self.len();
        self.len = used + fill(&mut self.slots[used..], items);
    }

    // Appends the entries of a part of the table that pass the test, as far as there is room. Whatever the test answers, the entries that were
    // there stay.
    pub fn append_kept<F: FnMut(&T) -> bool>(&mut self, span: Span, keep: F)
        requires { (state : F) (x : _) → F.pre state x }
        ensures longer { Longer self.old self.new }
        ensures passed { (test : T → Bool) → ActsAsAt F.FnMut keep test → Grown self.old (take (length (free self.old)) (filter test (part span (entries self.old)))) self.new }
    {
        let used = self.len();
        self.len = used + fill_kept(self.slots, used, span, keep);
    }
}

impl<'a, T: Keyed> Table<'a, T> {
    // Appends the join of two parts of the table, but for the key `without`, as far as there is room.
    pub fn append_joined(&mut self, without: u32, first: Span, second: Span)
        ensures { Grown self.old (take (length (free self.old)) (join_but T.key T.joined without (part first (entries self.old)) (part second (entries self.old)))) self.new }
    {
        let len = self.len();
        let mut walk = SpanWalk::new(first.below(len), second.below(len));
        while let Some(met) = walk.next(self.as_slice()) {
            let entry = met.joined();
            if entry.key() != without {
                let _ = self.push(entry);
            }
        }
    }
}
