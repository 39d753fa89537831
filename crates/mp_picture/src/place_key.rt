//! Places as they are looked up.
ghost use Rattle.std.specs.Prelude.{◌≡◌};
ghost use Rattle.mp_picture.specs.PlaceKeys.{place_key};

use mp_model::Place;

/// A place as it is looked up: whether it is a bundle, and its number.
pub(crate) type PlaceKey = (bool, u32);

/// A place as it is looked up.
pub(crate) fn place_key(place: Place) -> PlaceKey
    ensures { result ≡ place_key place }
{
    match place {
        Place::Module(id) => (false, id.0),
        Place::Bundle(id) => (true, id.0),
    }
}
