ghost use Rattle.std.specs.Prelude.{◌≡◌, ◌+◌, ◌≤◌, Bool, List, drop, filter, length, take};
ghost use Rattle.std.specs.Iterator.{ActsAsAt, AlwaysYields, IsFinite};
ghost use Rattle.table.specs.Entries.{Filled};
ghost use Rattle.table.specs.Joins.{part};

use crate::join::Span;

// Writes what the iterator gives into the slots, from the first on, as far as there are slots, and tells how many it filled.
// The place is counted by hand: of what the closure of a chain writes into the slots, a proof knows nothing afterwards.
pub(super) fn fill<T: Copy, I: Iterator<Item = T>>(slots: &mut [T], items: I) -> usize
    requires can { I.can_next items }
    requires ends { IsFinite (I.remaining items) }
    ensures room { result ≤ length slots.old }
    ensures rest { drop result slots.new ≡ drop result slots.old }
    ensures filled { (all : List T) → AlwaysYields I.next_gives (λ x. x) items all → Filled slots.old all result slots.new }
{
    let mut filled = 0;
    for item in items.take(slots.len()) {
        slots[filled] = item;
        filled += 1;
    }
    filled
}

// Fills the slots from place `used` on with the elements of a part before it that pass the test.
//
// It takes the slots and not their table. As part of a table's method it was tried, and the proof did not close: what
// `self.slots.split_at_mut(..)` leaves in `self.slots` is not known there.
pub(super) fn fill_kept<T: Copy, F: FnMut(&T) -> bool>(
    slots: &mut [T],
    used: usize,
    span: Span,
    keep: F,
) -> usize
    requires callable { (state : F) (x : _) → F.pre state x }
    requires within { used ≤ length slots.old }
    ensures room { used + result ≤ length slots.old }
    ensures front { take used slots.new ≡ take used slots.old }
    ensures rest { drop (used + result) slots.new ≡ drop (used + result) slots.old }
    ensures back { (test : T → Bool) → ActsAsAt F.FnMut keep test → Filled (drop used slots.old) (filter test (part span (take used slots.old))) result (drop used slots.new) }
{
    let (entries, free) = slots.split_at_mut(used);
    fill(free, span.of(entries).iter().copied().filter(keep))
}
