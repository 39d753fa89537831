//! A range of times.

/// The times from one to before another, as a question gives them. A time at or above the horizon is read as the last unit, or as the horizon if it
/// ends the range. The range is empty if its first time is then not below its end.
#[derive(Clone, Copy, PartialEq, Eq)]
pub struct TimeRange {
    /// The first time.
    pub from: u64,
    /// The end, which isn't in the range.
    pub to: u64,
}

impl TimeRange {
    ghost use Rattle.std.specs.Prelude.{◌≡◌, ◌<◌, ◌≤◌};
    ghost use Rattle.mp_questions.specs.timing.Ranges.{is_in_range, read_time, read_end};

    /// Whether a time is one of the range, as a netlist with this horizon reads it.
    pub fn contains(self, horizon: u32, time: u32) -> bool
        ensures { result ≡ is_in_range horizon self.from self.to time }
    {
        let last = u64::from(horizon.saturating_sub(1));
        let time = u64::from(time);
        self.from.min(last) <= time && time < self.to.min(u64::from(horizon))
    }

    /// The range as a netlist with this horizon reads it.
    pub(crate) fn read(self, horizon: u32) -> Units
        requires { 0 < horizon }
        ensures from { result.from ≡ read_time horizon self.from }
        ensures to { result.to ≡ read_end horizon self.to }
        ensures within { result.to ≤ horizon }
    {
        Units {
            from: read_time(horizon, self.from),
            to: self.to.min(u64::from(horizon)) as u32,
        }
    }
}

/// The units from one on to before another, below a horizon.
#[derive(Clone, Copy)]
pub(crate) struct Units {
    pub(crate) from: u32,
    pub(crate) to: u32,
}

ghost use Rattle.std.specs.Prelude.{◌≡◌, ◌<◌};
ghost use Rattle.mp_questions.specs.timing.Ranges.{read_time};

/// A time as a netlist with this horizon reads it.
pub(crate) fn read_time(horizon: u32, time: u64) -> u32
    requires { 0 < horizon }
    ensures value { result ≡ read_time horizon time }
    ensures within { result < horizon }
{
    time.min(u64::from(horizon - 1)) as u32
}
