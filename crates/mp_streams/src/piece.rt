//! Short texts that write themselves.
ghost use Rattle.std.specs.Prelude.{ℕ, ◌+◌, ◌≤◌, List, length};
ghost use Rattle.mp_streams.specs.Places.{IsPlaced};

/// The greatest length of a piece, in bytes.
pub(crate) const PIECE_BYTES: usize = 72;

/// A short text that writes its own bytes.
pub trait Piece {
    // Its bytes.
    ghost text: { Self → List ℕ };

    /// Writes its bytes into the room from `at` on, where any piece has room, and returns the index after them. The bytes before `at` stay.
    fn write(&self, room: &mut [u8], at: usize) -> usize
        requires { at + 72 ≤ length room.old }
        ensures { IsPlaced room.old room.new at (text self.now) result };
}
