ghost use Rattle.std.specs.Prelude.{◌≡◌, [], ◌∷◌, ◌++◌, length, take, if◌then◌else◌, is_ok, nat_lt};
ghost use Rattle.std.specs.List.{slice_get};
ghost use Rattle.pile.specs.Entries.{entries, room, lender};

use super::{Full, Pile};

impl<'a, T: Copy> Pile<'a, T> {
    // An empty pile with the whole slice as its room.
    pub fn over(slots: &'a mut [T]) -> Pile<'a, T>
        ensures empty { entries result ≡ [] }
        ensures room { room result ≡ length slots.old }
        ensures lender { lender result ≡ slots.entry.ghost_name }
    {
        Pile { slots, len: 0 }
    }

    // The entries as a slice, the first pushed first.
    pub fn as_slice(&self) -> &[T]
        ensures { result.now ≡ entries self.now }
    {
        &self.slots[0..self.len]
    }

    // How many entries there are, which is the mark to fall back to.
    pub fn mark(&self) -> usize
        ensures { result ≡ length (entries self.now) }
    {
        self.as_slice().len()
    }

    // The entry at a position, or none past the top.
    pub fn look(&self, i: usize) -> Option<T>
        ensures { result ≡ slice_get (entries self.now) i }
    {
        self.as_slice().get(i).copied()
    }

    // Puts an entry on top. Where there is no room, that is the answer and nothing changes.
    pub fn push(&mut self, entry: T) -> Result<(), Full>
        ensures room { room self.new ≡ room self.old }
        ensures lender { lender self.new ≡ lender self.old }
        ensures value { is_ok result ≡ nat_lt (length (entries self.old)) (room self.old) }
        ensures held { entries self.new ≡ (if is_ok result then entries self.old ++ entry ∷ [] else entries self.old) }
    {
        if self.len >= self.slots.len() {
            return Err(Full);
        }
        self.slots[self.len] = entry;
        self.len += 1;
        Ok(())
    }

    // Takes away the entries from the mark on; a mark above the top takes none.
    pub fn fall_back(&mut self, mark: usize)
        ensures room { room self.new ≡ room self.old }
        ensures lender { lender self.new ≡ lender self.old }
        ensures held { entries self.new ≡ take mark (entries self.old) }
    {
        if mark < self.len {
            self.len = mark;
        }
    }
}
