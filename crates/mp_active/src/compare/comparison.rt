//! The new run is compared with the old one, number by number.
ghost use Rattle.std.specs.Prelude.{◌≡◌};

use crate::compare::numbers::Numbers;
use crate::compare::wire_source::WireSource;
use mp_kernel::{EventSlot, TimerWheel};

/// The source of each wire's levels; for each number, how many inputs of sleeping modules read it; and the old changes. A number is tracked if it may
/// have another level than in the old run and a sleeping module reads it: it is listed in the timer wheel for its old changes. A wire that follows
/// its old wave is listed, too. Of a number that is listed the place of its next change in the old wave is known, and of each number when a change of
/// it in the new run was seen last. The numbers that depart in the present unit are gathered.
#[derive(Drop)]
pub struct Comparison {
    pub numbers: Numbers,
    pub sources: Vec<WireSource>,
    pub asleep: Vec<u32>,
    pub timers: TimerWheel,
    pub present: EventSlot,
    pub places: Vec<u32>,
    pub seen: Vec<u32>,
    pub departing: Vec<u32>,
}

impl Comparison {
    ghost use Rattle.std.specs.Prelude.{◌≡◌, ◌<◌, ◌^◌, ◌-◌, length, IsTrue};
    ghost use Rattle.mp_active.specs.compare.Comparing.{IsShaped, AreNumbers, AreUntracked, asleep_at, source_at, is_tracked};

    /// How many inputs of modules that sleep read a number.
    #[inline(always)]
    pub fn asleep_of(&self, number: u32) -> u32
        requires { number < length self.now.asleep.items }
        ensures { result ≡ asleep_at self.now number }
    {
        self.asleep[number as usize]
    }

    /// The source of a wire's levels.
    #[inline(always)]
    pub fn source_of(&self, wire: u32) -> WireSource
        requires { wire < length self.now.sources.items }
        ensures { result ≡ source_at self.now wire }
    {
        self.sources[wire as usize]
    }

    /// Whether a module that sleeps reads a number that may have another level at a time than in the old run.
    #[inline(always)]
    pub fn is_tracked(&self, number: u32, time: u32) -> bool
        requires shape { IsShaped self.now }
        requires within { number < length self.now.numbers.wires.items }
        requires time { time < 2 ^ 32 - 1 }
        ensures { result ≡ is_tracked self.now number time }
    {
        let x = number as usize;
        self.asleep[x] > 0
            && self.sources[self.numbers.wires[x] as usize].may_differ(self.numbers.delays[x], time)
    }

    /// Whether none of these numbers is tracked at a time.
    #[inline(always)]
    pub fn tracks_none(&self, numbers: &[u32], time: u32) -> bool
        requires shape { IsShaped self.now }
        requires within { AreNumbers self.now.numbers numbers.now }
        requires time { time < 2 ^ 32 - 1 }
        ensures { IsTrue result → AreUntracked self.now time numbers.now }
    {
        for number in numbers {
            if self.is_tracked(*number, time) {
                return false;
            }
        }
        true
    }
}
