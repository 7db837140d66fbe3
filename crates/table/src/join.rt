// The join of two sorted lists, one text for every kind of entry that has a key.
ghost use Rattle.std.specs.Prelude.{◌≡◌, ℕ};

mod meets;
mod places;
mod steps;

// An entry with a key, and how two entries of one key become one.
pub trait Keyed: Copy {
    ghost key: { Self → ℕ };

    ghost joined: { Self → Self → Self };

    // What the lists are sorted by.
    fn key(self) -> u32
        ensures { result ≡ key self };

    // This entry and another of the same key in one.
    fn joined(self, other: Self) -> Self
        ensures { result ≡ joined self other };
}

// What a walk over two sorted lists meets next: an entry of the first list alone, one of the second alone, or one of each with
// the same key. A type of its own, since it needs methods over `Keyed`.
#[derive(Clone, Copy, Debug, PartialEq)]
pub enum Meeting<T> {
    First(T),
    Second(T),
    Both(T, T),
}

// The places from `from` up to, and without, `to`.
#[derive(Clone, Copy, Debug, PartialEq)]
pub struct Span {
    pub from: usize,
    pub to: usize,
}

// A walk over two sorted lists at once, by rising keys: of each list, what is still ahead.
#[derive(Drop)]
pub struct Walk<'a, T> {
    first: &'a [T],
    second: &'a [T],
}

// A walk over two parts of a list at once, by rising keys: of each part, the places that are still ahead. It borrows the list for
// a step only, so the list may grow from one step to the next.
#[derive(Drop)]
pub struct SpanWalk {
    first: Span,
    second: Span,
}
