//! A timer wheel of numbers.
ghost use Rattle.std.specs.Prelude.{◌≡◌, IfOk};

use crate::events::{EventSlot, EventWheel};
use std::alloc::{AllocError, Global};

/// A time that never comes.
pub const NEVER: u32 = u32::MAX;

/// A time for each number, or `NEVER` if the number isn't armed. An armed number is in one slot of the wheel: that of its time, or an earlier one. It
/// comes up in the unit of that slot, and is rearmed if its time is later.
#[derive(Drop)]
pub struct TimerWheel {
    times: Vec<u32>,
    wheel: EventWheel,
    span: usize,
}

impl TimerWheel {
    ghost use Rattle.std.specs.Prelude.{◌≡◌, ◌≢◌, ◌↔◌, ◌≤◌, ℕ, ◌+◌, ◌-◌, ◌<◌, ◌^◌, ◌∷◌, [], List, IsTrue, IfOk, OnOk, length, slice_set};
    ghost use Rattle.mp_kernel.specs.timers.TimerWheels.{time_of, coming, never, IsTimerWheel, HasEntered};

    /// A wheel of `span` units for this number of numbers, none of which is armed.
    pub fn new(alloc: Global, numbers: usize, span: usize) -> Result<TimerWheel, AllocError>
        requires { 0 < span }
        ensures numbers { IfOk result (λ timers. length timers.times.items ≡ numbers) }
        ensures none { IfOk result (λ timers. (x : ℕ) → time_of timers x ≡ never) }
        ensures is { IfOk result (λ timers. (t : ℕ) → IsTimerWheel t [] timers) }
    {
        Ok(TimerWheel {
            times: vec![in alloc; NEVER; numbers]?,
            wheel: EventWheel::new(alloc, span)?,
            span,
        })
    }

    /// The time of a number, or `NEVER`.
    #[inline(always)]
    pub fn time_of(&self, number: u32) -> u32
        requires { number < length self.now.times.items }
        ensures { result ≡ time_of self.now number }
    {
        self.times[number as usize]
    }

    /// The numbers that come up in the next unit.
    #[inline(always)]
    pub fn coming(&self) -> &[u32]
        ensures { result.now ≡ coming self.now }
    {
        self.wheel.slot(0)
    }

    /// Whether no number comes up in the next unit.
    #[inline(always)]
    pub fn is_quiet(&self) -> bool
        requires { (t : ℕ) × (taken : List ℕ) × IsTimerWheel t taken self.now }
        ensures { IsTrue result ↔ coming self.now ≡ [] }
    {
        self.wheel.is_quiet()
    }

    /// Steps over a unit in which no number comes up.
    #[inline(always)]
    pub fn skip(&mut self)
        requires is { (t : ℕ) × (taken : List ℕ) × IsTimerWheel t taken self.old }
        requires quiet { coming self.old ≡ [] }
        ensures times { self.new.times.items ≡ self.old.times.items }
        ensures is { (t : ℕ) → IsTimerWheel t [] self.old → IsTimerWheel (t + 1) [] self.new }
    {
        self.wheel.skip();
    }

    /// Steps to the next unit and takes out the numbers that come up in it. Each of them has to be armed, rearmed or cancelled.
    pub fn turn(&mut self, present: &mut EventSlot)
        requires { (t : ℕ) × (taken : List ℕ) × IsTimerWheel t taken self.old }
        ensures present { present.new ≡ coming self.old }
        ensures times { self.new.times.items ≡ self.old.times.items }
        ensures is { (t : ℕ) → IsTimerWheel t [] self.old → IsTimerWheel (t + 1) (coming self.old) self.new }
    {
        self.wheel.turn(present);
    }

    /// Arms a number that isn't armed, or that was taken out, for a time after the present one.
    #[inline(always)]
    pub fn arm(&mut self, number: u32, time: u32, now: u32) -> Result<(), AllocError>
        requires within { number < length self.old.times.items }
        requires later { now < time }
        requires before { time < 2 ^ 32 - 1 }
        requires is { (t : ℕ) × (taken : List ℕ) × IsTimerWheel t taken self.old }
        ensures times { OnOk result (self.new.times.items ≡ slice_set self.old.times.items number time) }
        ensures fresh { OnOk result ((taken : List ℕ) → time_of self.old number ≡ never → IsTimerWheel now taken self.old → IsTimerWheel now taken self.new) }
        ensures again { OnOk result ((taken : List ℕ) → IsTimerWheel now (number ∷ taken) self.old → IsTimerWheel now taken self.new) }
    {
        self.times[number as usize] = time;
        self.enter(number, time, now)?;
        Ok(())
    }

    /// Puts a number that was taken out before its time back into the wheel.
    #[inline(always)]
    pub fn rearm(&mut self, number: u32, now: u32) -> Result<(), AllocError>
        requires within { number < length self.old.times.items }
        requires later { now < time_of self.old number }
        requires is { (t : ℕ) × (taken : List ℕ) × IsTimerWheel t taken self.old }
        ensures times { OnOk result (self.new.times.items ≡ self.old.times.items) }
        ensures again { OnOk result ((taken : List ℕ) → IsTimerWheel now (number ∷ taken) self.old → IsTimerWheel now taken self.new) }
    {
        let time = self.time_of(number);
        self.enter(number, time, now)?;
        Ok(())
    }

    /// Disarms a number that was taken out.
    #[inline(always)]
    pub fn cancel(&mut self, number: u32)
        requires { number < length self.old.times.items }
        ensures times { self.new.times.items ≡ slice_set self.old.times.items number never }
        ensures is { (t : ℕ) (taken : List ℕ) → IsTimerWheel t (number ∷ taken) self.old → IsTimerWheel t taken self.new }
    {
        self.times[number as usize] = NEVER;
    }

    /// The number of units, at most `most`, that the wheel can be behind before the unit of a time, with each number still coming up no later than at
    /// its time.
    pub fn slack(&self, time: u32, most: u32) -> u32
        requires some { 0 < time }
        requires is { IsTimerWheel (time - 1) [] self.now }
        ensures most { result ≤ most }
        ensures late { IsTimerWheel (time - 1 + result) [] self.now }
        ensures times { (x : ℕ) → time_of self.now x ≢ never → time - 1 + result < time_of self.now x }
    {
        let mut slack = most;
        for k in 0..self.span {
            for number in self.wheel.slot(k) {
                slack = slack.min(self.times[*number as usize] - (time + k as u32));
            }
        }
        slack
    }

    /// Puts a number into the slot of a time, or into the last slot if that is earlier.
    #[inline(always)]
    fn enter(&mut self, number: u32, time: u32, now: u32) -> Result<(), AllocError>
        requires later { now < time }
        requires span { self.old.span ≡ length self.old.wheel }
        requires some { 0 < length self.old.wheel }
        ensures times { OnOk result (self.new.times ≡ self.old.times) }
        ensures span { OnOk result (self.new.span ≡ self.old.span) }
        ensures entered { OnOk result (HasEntered self.old.wheel self.new.wheel number (time - now)) }
    {
        let units = ((time - now) as usize).min(self.span);
        self.wheel.schedule(units, number)
    }
}
