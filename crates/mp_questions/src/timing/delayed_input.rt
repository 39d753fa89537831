//! Inputs with delays.
ghost use Rattle.std.specs.Prelude.{◌≡◌, ℕ, ◌+◌, ◌<◌, ◌≤◌, ◌^◌};
ghost use Rattle.mp_questions.specs.timing.Events.{since};
ghost use Rattle.mp_questions.specs.timing.Hearing.{HearsPort};

use mp_wave::Wave;

/// The wave of a wire, later by a delay.
#[derive(Clone, Copy)]
pub struct DelayedInput<'a> {
    pub wave: &'a Wave,
    /// In units.
    pub delay: u32,
}

impl<'a> DelayedInput<'a> {
    ghost use Rattle.std.specs.Prelude.{◌≡◌, ℕ, ◌<◌, ◌≤◌, ◌^◌};
    ghost use Rattle.mp_questions.specs.timing.Events.{since};
    ghost use Rattle.mp_questions.specs.timing.Hearing.{Hears};

    /// The level at a time.
    pub fn level_at(self, time: u32) -> u64
        ensures { (f : ℕ → ℕ) (end : ℕ) → Hears f end self.entry → time < end → result ≡ f time }
    {
        self.wave.level_at(time.saturating_sub(self.delay))
    }

    /// The time of the last event up to a time, or 0 if there was none.
    pub fn since(self, time: u32) -> u32
        requires { time < 2 ^ 31 }
        ensures value { (f : ℕ → ℕ) (end : ℕ) → Hears f end self.entry → time < end → result ≡ since f time }
        ensures within { result ≤ time }
    {
        if time < self.delay {
            return 0;
        }
        let upto = time - self.delay;
        match self.wave.changes_between(0, upto + 1).last() {
            Some(change) => change.0 + self.delay,
            None => 0,
        }
    }

    /// The time of the first event after a time, or an end that comes first.
    pub(crate) fn next(self, time: u32, end: u32) -> u32
        ensures within { result ≤ end }
        ensures later { time < end → time < result }
        ensures quiet { (f : ℕ → ℕ) (most t : ℕ) → Hears f most self.entry → end ≤ most → time ≤ t → t < result → f t ≡ f time }
    {
        let from = time.saturating_sub(self.delay);
        let to = end.saturating_sub(self.delay);
        match self.wave.changes_between(from, to).first() {
            Some(change) => change.0 + self.delay,
            None => end,
        }
    }
}

/// The level at a port at a time, 0 if there is no such port.
pub(crate) fn level_at(port: Option<DelayedInput<'_>>, time: u32) -> u64
    ensures { (f : ℕ → ℕ) (end : ℕ) → HearsPort f end port.entry → time < end → result ≡ f time }
{
    match port {
        Some(heard) => heard.level_at(time),
        None => 0,
    }
}

/// The time of the last event of a port up to a time, or 0 if there was none.
pub(crate) fn since(port: Option<DelayedInput<'_>>, time: u32) -> u32
    requires { time < 2 ^ 31 }
    ensures value { (f : ℕ → ℕ) (end : ℕ) → HearsPort f end port.entry → time < end → result ≡ since f time }
    ensures within { result ≤ time }
{
    match port {
        Some(heard) => heard.since(time),
        None => 0,
    }
}

/// The time of the first event of a port after a time, or the end if that comes first.
pub(crate) fn next(port: Option<DelayedInput<'_>>, time: u32, end: u32) -> u32
    ensures within { result ≤ end }
    ensures later { time < end → time < result }
    ensures quiet { (f : ℕ → ℕ) (most t : ℕ) → HearsPort f most port.entry → end ≤ most → time ≤ t → t < result → f t ≡ f time }
{
    match port {
        Some(heard) => heard.next(time, end),
        None => end,
    }
}
