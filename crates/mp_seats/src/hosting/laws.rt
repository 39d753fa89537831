//! What meetings and seats have in common.
ghost use Rattle.mp_seats.specs.hosting.Agreement.{BlocksAreSeats, NumbersAreSeats};

/// A designer's block of lines at a meeting is answered as at a designer's seat, with the same numbers and as many accepted edits; and a viewer there
/// sees the same version number as at a viewer's seat. So a meeting is the case of seats whose lines are known beforehand.
pub fn meetings_have_seats()
    ensures blocks { BlocksAreSeats }
    ensures numbers { NumbersAreSeats }
{}
