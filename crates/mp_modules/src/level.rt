//! Levels: unsigned numbers of a wire's width.
ghost use Rattle.std.specs.Prelude.{◌≡◌, ◌<◌, ◌^◌};
ghost use Rattle.mp_modules.specs.Levels.{fits_width};

#[tactic(auto, unfolding(crate::specs::Levels::fits_width))]
/// Whether the level has no bit above the width, which is in bits.
pub fn fits_width(level: u64, width: u64) -> bool
    ensures { result ≡ fits_width width level }
{
    width >= 64 || level < 1 << width
}
