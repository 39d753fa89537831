//! What lists keep.
ghost use Rattle.std.specs.Prelude.{◌≡◌};

/// What a list keeps. Its clones equal it.
pub trait Kept: Clone + Drop {
    ghost clones_equal: { (old new : Self) → Self.is_clone old new → new ≡ old };
}
