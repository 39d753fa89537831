//! Guests who rise.
ghost use Rattle.std.specs.Prelude.{◌≡◌};
ghost use Rattle.mp_seats.specs.Steps.{Seated};

use crate::Occupant;

/// A guest who rises as one of the people of a desk.
pub(crate) trait Rises: Occupant {
    /// Who that is.
    type Person: Drop;

    // One of the people, as a guest at a seat.
    ghost seated_as: { Self.Person → Seated };

    /// The one who sat there.
    fn rise(self) -> Self::Person
        ensures { seated_as result ≡ Self.seated self };
}
