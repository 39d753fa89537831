//! What the delay of an input does.
ghost use Rattle.mp_laws.specs.DelayedInputs.{ComesLater, ReadsLaterWave};

/// A wave that comes later by a delay has the level of so much before, and that of time 0 until the delay is over. The level at an input
/// is that of its wire's wave, later by the input's delay.
pub fn delayed_input()
    ensures later { ComesLater }
    ensures reads { ReadsLaterWave }
{}
