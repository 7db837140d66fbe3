// A table on memory of its own.
ghost use Rattle.std.specs.Prelude.{◌≡◌, ◌<◌, ◌≤◌, ◌==◌, [], ◌∷◌, ◌++◌, length, slice_set};

use crate::slab::Table;
use std::marker::Model;

// The first `len` slots of an array hold the entries. It grows through the table over a handed slice, so that one text says how entries are
// put in; contracts see it as the list of its entries.
#[derive(Drop)]
pub struct Owned<T, const N: usize> {
    slots: [T; N],
    len: usize,
}

// Puts `x` behind the first `len` slots.
fn append<T: Copy>(slots: &mut [T], len: usize, x: T)
    requires { len < length slots.old }
    ensures { slots.new ≡ slice_set slots.old len x }
{
    let mut table = Table::resume(slots, len);
    let _ = table.push(x);
}

impl<T, const N: usize> Model for Owned<T, N> {
    ghost use Rattle.std.specs.Prelude.{◌≡◌, ◌≤◌, List, length, take};

    ghost Value = { List T };

    ghost view = { λ o. take o.len o.slots };

    ghost invariant = { λ o. (o.len ≤ N) × (length o.slots ≡ N) };
}

impl<T: Default + Copy, const N: usize> Owned<T, N> {
    // No entry yet.
    pub fn new() -> Self
        ensures { result ≡ [] }
    {
        Owned {
            slots: [T::default(); N],
            len: 0,
        }
    }

    // The same again.
    pub fn clear(&mut self)
        ensures { self.new ≡ [] }
    {
        self.len = 0;
    }

    // How many entries there are.
    pub fn len(&self) -> usize
        ensures value { result ≡ length self.now }
        ensures fits { result ≤ N }
    {
        self.as_slice().len()
    }

    // Whether no further entry fits.
    pub fn is_full(&self) -> bool
        ensures value { result ≡ (length self.now == N) }
        ensures fits { length self.now ≤ N }
    {
        self.len == N
    }

    // The entries, in the order in which they came.
    pub fn as_slice(&self) -> &[T]
        ensures value { result.now ≡ self.now }
        ensures fits { length result.now ≤ N }
    {
        &self.slots[..self.len]
    }

    // One entry more.
    pub fn push(&mut self, x: T)
        requires { length self.old < N }
        ensures { self.new ≡ self.old ++ x ∷ [] }
    {
        append(&mut self.slots, self.len, x);
        self.len += 1;
    }
}
