//! Reading all inputs of a module by rising time.

use crate::response::cursor::Cursor;
use crate::response::in_piece::InPiece;
use mp_modules::MOST_INPUTS;

/// A cursor for each port that a module can have; if it has fewer, the others read 0.
#[derive(Clone, Copy)]
pub(crate) struct Cursors<'a> {
    first: Cursor<'a>,
    second: Cursor<'a>,
    third: Cursor<'a>,
    fourth: Cursor<'a>,
}

impl<'a> Cursors<'a> {
    ghost use Rattle.std.specs.Prelude.{◌≡◌, ℕ, ◌<◌, ◌≤◌, ◌∷◌, [], List, slice_index};
    ghost use Rattle.mp_model.specs.response.Pieces.{levels_at};
    ghost use Rattle.mp_model.specs.response.Cursors.{AreAt};

    /// The inputs at a time.
    pub(crate) fn of(inputs: &'a [InPiece], time: u32) -> Self
        ensures { AreAt (levels_at inputs.now) time result }
    {
        Cursors {
            first: cursor_at(inputs, 0, time),
            second: cursor_at(inputs, 1, time),
            third: cursor_at(inputs, 2, time),
            fourth: cursor_at(inputs, 3, time),
        }
    }

    /// The inputs at a later time.
    pub(crate) fn advanced(self, time: u32) -> Self
        ensures { (x : ℕ → List ℕ) (t : ℕ) → t ≤ time → AreAt x t self.entry → AreAt x time result }
    {
        Cursors {
            first: self.first.advanced(time),
            second: self.second.advanced(time),
            third: self.third.advanced(time),
            fourth: self.fourth.advanced(time),
        }
    }

    /// The present levels.
    pub(crate) fn levels(self) -> [u64; MOST_INPUTS]
        ensures { (x : ℕ → List ℕ) (t : ℕ) → AreAt x t self.entry → result ≡ slice_index (x t) 0 ∷ slice_index (x t) 1 ∷ slice_index (x t) 2 ∷ slice_index (x t) 3 ∷ [] }
    {
        [
            self.first.level,
            self.second.level,
            self.third.level,
            self.fourth.level,
        ]
    }

    /// The next time at which an input changes, or an end that comes first.
    pub(crate) fn next_change(self, end: u32) -> u32
        ensures within { result ≤ end }
        ensures later { (x : ℕ → List ℕ) (t : ℕ) → AreAt x t self.entry → t < end → t < result }
        ensures steady { (x : ℕ → List ℕ) (t u port : ℕ) → AreAt x t self.entry → t ≤ u → u < result → port < MOST_INPUTS → slice_index (x u) port ≡ slice_index (x t) port }
    {
        let end = self.first.next_change(end);
        let end = self.second.next_change(end);
        let end = self.third.next_change(end);
        self.fourth.next_change(end)
    }
}

ghost use Rattle.mp_model.specs.response.Pieces.{levels_at};
ghost use Rattle.mp_model.specs.response.Cursors.{IsAt};

fn cursor_at<'a>(inputs: &'a [InPiece], port: usize, time: u32) -> Cursor<'a>
    ensures { IsAt (levels_at inputs.now) port time result }
{
    let cursor = match inputs.get(port) {
        Some(piece) => Cursor {
            level: piece.at_from,
            rest: piece.changes.as_slice(),
        },
        None => Cursor {
            level: 0,
            rest: &[],
        },
    };
    cursor.advanced(time)
}
