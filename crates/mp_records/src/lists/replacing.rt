//! Other entries at some places of a list.
ghost use Rattle.std.specs.Prelude.{◌≡◌, IfOk};

use crate::lists::kept::Kept;
use crate::lists::pieces::Pieces;
use std::alloc::AllocError;

impl<T: Kept> Pieces<T> {
    ghost use Rattle.std.specs.Prelude.{◌≡◌, ◌<◌, ℕ, IfOk, OnOk, length, slice_index_or};
    ghost use Rattle.mp_records.specs.lists.Replaced.{AreApart, AreReplaced};

    /// Puts a copy of each entry of another list at a place of its own. Places up to the last one are made, with copies of `blank`, and so are entries
    /// that the other list lacks. After an error some of the entries are put.
    pub fn replace(
        &mut self,
        places: &[u32],
        entries: &Pieces<T>,
        blank: &T,
    ) -> Result<(), AllocError>
        requires { AreApart places.now }
        ensures { OnOk result (AreReplaced blank.now self.old places.now entries.now self.new) }
    {
        for k in 0..places.len() {
            let entry = entries.copy_at(k, blank)?;
            self.put(places[k], entry, blank)?;
        }
        Ok(())
    }

    /// A copy of the entry at this index, or of `blank` where there is none.
    fn copy_at(&self, index: usize, blank: &T) -> Result<T, AllocError>
        ensures { IfOk result (λ entry. entry ≡ slice_index_or self.now index blank.now) }
    {
        match self.get(index) {
            Some(entry) => copy_of(entry),
            None => copy_of(blank),
        }
    }

    /// Puts an entry at a place. Places up to it are made, with copies of `blank`.
    fn put(&mut self, place: u32, entry: T, blank: &T) -> Result<(), AllocError>
        ensures put { OnOk result (slice_index_or self.new place blank.now ≡ entry) }
        ensures others { OnOk result ((n : ℕ) → (n ≡ place → ⊥) → slice_index_or self.new n blank.now ≡ slice_index_or self.old n blank.now) }
    {
        self.grow(place, blank)?;
        self.set(place as usize, entry)
    }

    /// Makes places up to this one, with copies of `blank`.
    fn grow(&mut self, place: u32, blank: &T) -> Result<(), AllocError>
        ensures long { OnOk result (place < length self.new) }
        ensures same { OnOk result ((n : ℕ) → slice_index_or self.new n blank.now ≡ slice_index_or self.old n blank.now) }
    {
        while self.len() <= place as usize {
            self.push(copy_of(blank)?)?;
        }
        Ok(())
    }
}

fn copy_of<T: Kept>(entry: &T) -> Result<T, AllocError>
    ensures { IfOk result (λ copy. copy ≡ entry.now) }
{
    entry.clone()
}
