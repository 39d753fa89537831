//! How much happens in a netlist early on.

/// A rate: an average number of firings in a number of units.
#[derive(Clone, Copy)]
pub struct Rate {
    pub count: usize,
    pub units: u32,
}

impl Rate {
    /// Whether this is at least as often as another.
    fn reaches(self, other: Rate) -> bool {
        let count = self.count.saturating_mul(other.units as usize);
        self.units > 0 && count >= other.count.saturating_mul(self.units as usize)
    }
}

/// A plan of samples of a run: the first one after a fraction of the time, and each further one after twice as many units. A number of samples is
/// taken in any case, and up to a greater number if the activity rises.
#[derive(Clone, Copy)]
pub struct LookPlan {
    pub first: u32,
    pub sure: u32,
    pub most: u32,
}

/// Looks at a run from its beginning on: how many there were, before which time the units are over, how much has happened since the look
/// before the last, and how much between the two before it.
#[derive(Clone, Copy)]
pub struct ActivityProbe {
    plan: LookPlan,
    taken: u32,
    pub to: u32,
    last: Rate,
    before: usize,
}

impl ActivityProbe {
    ghost use Rattle.std.specs.Prelude.{◌≡◌, ◌≤◌, IfSome};

    /// A probe of a run after time 0, without samples so far.
    pub fn new(plan: LookPlan) -> ActivityProbe
        ensures { result.to ≡ 1 }
    {
        ActivityProbe {
            plan,
            taken: 0,
            to: 1,
            last: Rate { count: 0, units: 0 },
            before: 0,
        }
    }

    /// Before which time the units are to be over at the next look. Nothing if there is none, since as much happens as this, or too little.
    pub fn next(&self, horizon: u32, pace: Rate) -> Option<u32>
        requires { self.now.to ≤ horizon }
        ensures later { IfSome result (λ to. self.now.to ≤ to) }
        ensures within { IfSome result (λ to. to ≤ horizon) }
    {
        if self.see(pace) || !self.goes_on() {
            return None;
        }
        let units = if self.taken == 0 {
            horizon / self.plan.first.max(1)
        } else {
            self.to
        };
        Some(self.to.saturating_add(units).min(horizon))
    }

    /// One more look: the units before a time are over, in which so much has happened since the look before.
    pub fn add(&mut self, to: u32, count: usize)
        ensures { self.new.to ≡ to }
    {
        self.before = self.last.count;
        self.last = Rate {
            count,
            units: to.saturating_sub(self.to),
        };
        self.to = to;
        self.taken = self.taken.saturating_add(1);
    }

    /// Whether as much happens as this: since the last look, or twice as much, if more looks than are sure have seen that more and more does.
    pub fn see(&self, pace: Rate) -> bool {
        let Rate { count, units } = self.last;
        let expected = if self.taken > self.plan.sure && self.grows() {
            count.saturating_mul(2)
        } else {
            count
        };
        Rate {
            count: expected,
            units,
        }
        .reaches(pace)
    }

    /// Whether there is one more look: after those that are sure, if more and more happens.
    fn goes_on(&self) -> bool {
        self.taken < self.plan.sure || (self.grows() && self.taken < self.plan.most)
    }

    /// Whether three times as much happened in twice the time.
    fn grows(&self) -> bool {
        self.last.count >= self.before.saturating_mul(3)
    }
}
