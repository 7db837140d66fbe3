ghost use Rattle.std.specs.Prelude.{◌≡◌, ◌↔◌, [], length, take, IsTrue};
ghost use Rattle.std.specs.List.{slice_get};
ghost use Rattle.table.specs.Entries.{entries, free, Pushed};

use super::{Full, Table};

impl<'a, T: Copy> Table<'a, T> {
    // A table with no entry, that will hold at most `limit` of them, or fewer as the memory allows.
    pub fn new(memory: &'a mut [T], limit: usize) -> Table<'a, T>
        ensures none { entries result ≡ [] }
        ensures places { free result ≡ take limit memory.old }
    {
        let places = limit.min(memory.len());
        Table {
            slots: &mut memory[..places],
            len: 0,
        }
    }

    // A table whose entries are there already: the first `len` slots.
    pub fn resume(slots: &'a mut [T], len: usize) -> Table<'a, T>
        ensures memory { result.slots.now ≡ slots.old }
        ensures len { result.len ≡ len }
        ensures stays { result.slots.ghost_name ≡ slots.entry.ghost_name }
    {
        Table { slots, len }
    }

    // The entries, and the free slots.
    fn parts(&self) -> (&[T], &[T])
        ensures held { result.0.now ≡ entries self.now }
        ensures unused { result.1.now ≡ free self.now }
    {
        let used = self.len.min(self.slots.len());
        self.slots.split_at(used)
    }

    // How many entries there are.
    pub fn len(&self) -> usize
        ensures { result ≡ length (entries self.now) }
    {
        self.as_slice().len()
    }

    // How many entries still fit.
    pub fn room(&self) -> usize
        ensures { result ≡ length (free self.now) }
    {
        self.parts().1.len()
    }

    // Whether no further entry fits.
    pub fn is_full(&self) -> bool
        ensures { IsTrue result ↔ (free self.now ≡ []) }
    {
        self.room() == 0
    }

    // The entries, in the order in which they came.
    pub fn as_slice(&self) -> &[T]
        ensures { result.now ≡ entries self.now }
    {
        self.parts().0
    }

    // The entry at place `i`, if there is one.
    pub fn get(&self, i: usize) -> Option<T>
        ensures { result ≡ slice_get (entries self.now) i }
    {
        self.as_slice().get(i).copied()
    }

    // Appends `x` and tells its place, or refuses and changes nothing where the table is full.
    pub fn push(&mut self, x: T) -> Result<usize, Full>
        ensures { Pushed self.old x result self.new }
    {
        if self.is_full() {
            return Err(Full);
        }
        let place = self.len;
        self.slots[place] = x;
        self.len += 1;
        Ok(place)
    }
}
