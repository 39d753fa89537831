//! Reading an input's levels by rising time.

ghost use Rattle.std.specs.Prelude.{◌≡◌, ℕ, ◌<◌, ◌≤◌};

/// A present level, and the changes to come.
#[derive(Clone, Copy)]
pub(crate) struct Cursor<'a> {
    pub(crate) level: u64,
    pub(crate) rest: &'a [(u32, u64)],
}

impl<'a> Cursor<'a> {
    ghost use Rattle.std.specs.Prelude.{◌≡◌, ℕ, ◌<◌, ◌≤◌};
    ghost use Rattle.mp_model.specs.response.Cursors.{cursor_level, IsAfter};

    /// The changes up to a time are over.
    pub(crate) fn advanced(self, time: u32) -> Self
        ensures levels { (t : ℕ) → time ≤ t → cursor_level result t ≡ cursor_level self.entry t }
        ensures ahead { IsAfter time result.rest.now }
    {
        let mut level = self.level;
        let mut rest = self.rest;
        while let Some((change, later)) = rest.split_first() {
            if change.0 > time {
                break;
            }
            level = change.1;
            rest = later;
        }
        Cursor { level, rest }
    }

    /// The time of the next change, or an end that comes first.
    pub(crate) fn next_change(self, end: u32) -> u32
        ensures within { result ≤ end }
        ensures later { (t : ℕ) → IsAfter t self.entry.rest.now → t < end → t < result }
        ensures steady { (t : ℕ) → t < result → cursor_level self.entry t ≡ self.entry.level }
    {
        match self.rest.first() {
            Some(change) => end.min(change.0),
            None => end,
        }
    }
}
