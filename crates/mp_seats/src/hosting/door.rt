//! The door by which people come to a seat.
ghost use Rattle.std.specs.Prelude.{◌≡◌, ◌++◌, ℕ, List, Option, IfSome, IfNone};
ghost use Rattle.mp_seats.specs.declared.hosting.seat_place.SeatName.{SeatName};

use crate::hosting::ended::Ended;
use crate::hosting::seat_place::Places;
use mp_streams::{Sink, Source};

/// Through which somebody comes to a seat, and later somebody else.
pub trait Door: Drop {
    /// What somebody writes at the seat.
    type Input: Source + Drop;
    /// What somebody reads there.
    type Output: Sink + Drop;

    // From the first to the second somebody came: this is there to be read, and this was written before, if it is known.
    ghost Comes: { Self → Self → Option (List ℕ) → Option (List ℕ) → Type 0 };

    // From the first to the second the one who came left, to whom all of this was written, if it is known.
    ghost Leaves: { Self → Self → Option (List ℕ) → Type 0 };

    // From the first to the second the one who came was turned away.
    ghost TurnsAway: { Self → Self → Type 0 };

    /// Waits until somebody comes. None if nobody will come any more.
    fn open(&mut self) -> Option<(Self::Input, Self::Output)>
        ensures comes { IfSome result (λ both. Comes self.old self.new (Self.Input.left both.0) (Self.Output.taken both.1)) }
        ensures none { IfNone result (self.new ≡ self.old) };

    /// Closes the output: whoever reads there sees the end.
    fn close(&mut self, output: Self::Output)
        ensures { Leaves self.old self.new (Self.Output.taken output) };

    /// Frees the seat after its input has ended.
    fn free(&mut self, ended: Ended)
        ensures { self.new ≡ self.old };

    /// Closes the output after the input has ended, and frees the seat: whoever sees the end of the output may come again at once.
    fn leave(&mut self, ended: Ended, output: Self::Output)
        ensures { Leaves self.old self.new (Self.Output.taken output) };

    /// Turns away whoever came, for lack of memory.
    fn turn_away(&mut self)
        ensures { TurnsAway self.old self.new };
}

/// Who is at the doors, and how those who wait there learn that nobody will come any more.
pub trait Exit: Drop {
    /// What is to be kept until all of them know it.
    type Held: Drop;

    // The names of the seats, those of designers first.
    ghost names: { Self → List SeatName };

    /// The seats by name, with those who have taken them.
    fn places(&self) -> &Places
        ensures { result.now.designers ++ result.now.viewers ≡ names self.now };

    /// Opens every door at which nobody has come.
    fn open_all(&self) -> Self::Held;
}
