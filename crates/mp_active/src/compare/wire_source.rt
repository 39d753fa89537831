//! Where the levels of a wire come from.
ghost use Rattle.std.specs.Prelude.{◌≡◌, ◌<◌, ◌^◌, ◌-◌};

use mp_kernel::NEVER;

/// The source of a wire's levels. From a time on they are those of the old run: that is `NEVER` while an active module drives the wire, or if its
/// stimulus has changed, and 0 if the wave is that of the old run. Whether the simulation has the levels of the wire, which is then on.
#[derive(Clone, Copy)]
pub struct WireSource {
    pub until: u32,
    pub is_on: bool,
}

impl WireSource {
    ghost use Rattle.std.specs.Prelude.{◌≡◌, ◌<◌, ◌^◌, ◌-◌};
    ghost use Rattle.mp_active.specs.compare.Comparing.{off, renewed, may_differ, follows, is_to_follow};

    /// A wire that is off. Its levels are those of the old run.
    pub fn off() -> WireSource
        ensures { result ≡ off }
    {
        WireSource {
            until: 0,
            is_on: false,
        }
    }

    /// A wire that is on, whose levels come only from the new run.
    pub fn renewed() -> WireSource
        ensures { result ≡ renewed }
    {
        WireSource {
            until: NEVER,
            is_on: true,
        }
    }

    /// Whether the wire has its old level at a time and the simulation needs it.
    #[inline(always)]
    pub fn follows(&self, time: u32) -> bool
        ensures { result ≡ follows self.now time }
    {
        self.is_on && self.until <= time
    }

    /// Whether the wire will follow its old wave, or does.
    #[inline(always)]
    pub fn is_to_follow(&self) -> bool
        ensures { result ≡ is_to_follow self.now }
    {
        self.is_on && self.until != NEVER
    }

    /// Whether what is so much later than the wire may have another level at a time than in the old run.
    #[inline(always)]
    pub fn may_differ(&self, delay: u32, time: u32) -> bool
        requires { time < 2 ^ 32 - 1 }
        ensures { result ≡ may_differ self.now delay time }
    {
        time < self.until.saturating_add(delay) && self.until > 0
    }
}
