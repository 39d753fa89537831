//! The least of delays.
ghost use Rattle.std.specs.Prelude.{◌≡◌};
ghost use Rattle.mp_modules.specs.Delays.{lesser};

/// The lesser of the least delay so far, if there is one, and another delay.
pub fn lesser_delay(least: Option<u32>, delay: u32) -> Option<u32>
    ensures { result ≡ lesser least delay }
{
    match least {
        Some(known) => Some(known.min(delay)),
        None => Some(delay),
    }
}
