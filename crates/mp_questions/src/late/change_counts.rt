//! How many changes wires had up to the times that were asked for last.
ghost use Rattle.std.specs.Prelude.{◌≡◌, ℕ, ◌+◌, ◌<◌, ◌≤◌, length, take};
ghost use Rattle.std.specs.List.Sorted.{IsNonDecreasingBy};
ghost use Rattle.mp_wave.specs.Waveform.{earlier_than};
ghost use Rattle.mp_wave.specs.WaveChanges.{changes_in};

use crate::late::driven::Driven;
use mp_netlist::WireId;
use mp_wave::WaveChanges;

/// How many counts are kept.
const COUNTS: usize = 64;

/// How many changes a wire had up to the time that was asked for last, kept by the last digits of the wire's number. What is asked for next is mostly near.
#[derive(Drop)]
pub(crate) struct ChangeCounts {
    counts: [usize; COUNTS],
}

impl ChangeCounts {
    ghost use Rattle.std.specs.Prelude.{◌≡◌, ◌<◌};
    ghost use Rattle.mp_netlist.specs.Circuit.{IsCircuit};
    ghost use Rattle.mp_questions.specs.timing.Events.{last_event};
    ghost use Rattle.mp_model.specs.Waves.{level};
    ghost use Rattle.mp_questions.specs.late.Searching.{from_on};

    /// Nothing was asked for yet.
    pub(crate) fn new() -> Self {
        ChangeCounts {
            counts: [0; COUNTS],
        }
    }

    /// The time of the last change of a wire from one time on and up to another, which is below the horizon; found by search.
    pub(crate) fn last_between(
        &mut self,
        of: Driven<'_>,
        wire: WireId,
        from: u32,
        upto: u32,
    ) -> Option<u32>
        requires form { IsCircuit of.netlist.now }
        requires within { upto < of.netlist.now.horizon }
        ensures { result ≡ from_on from (last_event (level of.entry.netlist.now wire.0) upto) }
    {
        let wave = of.waves.of(wire)?;
        let changes = wave.changes();
        let slot = wire.0 as usize % COUNTS;
        let count = count_upto(changes, self.counts[slot], upto);
        self.counts[slot] = count;
        if count == 0 {
            return None;
        }
        let time = changes.time_at(count - 1);
        if time < from { None } else { Some(time) }
    }
}

/// How many changes aren't later than a time. The search goes away from a place by steps that grow, so it is short where that is near.
fn count_upto(changes: WaveChanges<'_>, near: usize, time: u32) -> usize
    requires { IsNonDecreasingBy (λ (c : ℕ × ℕ). c.0) (changes_in changes) }
    ensures within { result ≤ length (changes_in changes.entry) }
    ensures value { take result (changes_in changes.entry) ≡ earlier_than (time + 1) (changes_in changes.entry) }
{
    let mut low = 0;
    let mut high = changes.len();
    let mut next = near;
    let mut step = 1;
    while low < high {
        let place = place_between(next, low, high);
        if changes.time_at(place) <= time {
            low = place + 1;
            next = place.saturating_add(step);
        } else {
            high = place;
            next = place.saturating_sub(step);
        }
        step = step.saturating_add(step);
    }
    low
}

/// A place, if it is from one on and before another; else the middle of these.
fn place_between(place: usize, low: usize, high: usize) -> usize
    requires { low < high }
    ensures from { low ≤ result }
    ensures before { result < high }
{
    if low <= place && place < high {
        place
    } else {
        low + (high - low) / 2
    }
}
