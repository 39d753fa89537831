//! Since when a wave repeats.
ghost use Rattle.std.specs.Prelude.{◌≡◌, ◌+◌, ◌<◌, ◌≤◌, ◌^◌, ℕ, max};
ghost use Rattle.mp_wave.specs.Waveform.{AreChanges, IsWaveform, earlier_than, last_from, last_time, level_of};
ghost use Rattle.mp_wave.specs.WaveChanges.{changes_in};
ghost use Rattle.mp_steady.specs.Periods.{repeats_from};

use mp_wave::{Wave, WaveChanges};

/// The least time from which on, up to a time, a wave has the level of so many units later, but `least` if that is later. It looks back from the
/// last time on, once at each change.
pub(crate) fn repeats_from(wave: &Wave, units: u32, upto: u32, least: u32) -> u32
    requires form { IsWaveform wave.now }
    requires short { upto + units + 1 < 2 ^ 32 }
    ensures { result ≡ max least (repeats_from (level_of wave.now) units upto) }
{
    let mut late = wave.changes_between(0, upto + units + 1);
    let mut early = wave.changes_between(0, upto + 1);
    let mut last = upto;
    while level_after(wave, late) == level_after(wave, early) {
        let late_from = time_of(late).saturating_sub(units);
        let from = late_from.max(time_of(early));
        if from <= least {
            return least;
        }
        late = before(late, from + units);
        early = before(early, from);
        last = from - 1;
    }
    least.max(last + 1)
}

/// The level of a wave after some of its first changes.
fn level_after(wave: &Wave, changes: WaveChanges<'_>) -> u64
    ensures { result ≡ last_from wave.now.initial (changes_in changes.entry) }
{
    match changes.last() {
        Some(change) => change.1,
        None => wave.initial(),
    }
}

/// The time of the last change, 0 if there is none.
pub(crate) fn time_of(changes: WaveChanges<'_>) -> u32
    ensures { result ≡ last_time 0 (changes_in changes.entry) }
{
    match changes.last() {
        Some(change) => change.0,
        None => 0,
    }
}

/// The changes before a time, of changes up to that.
fn before(changes: WaveChanges<'_>, time: u32) -> WaveChanges<'_>
    requires { last_time 0 (changes_in changes) ≤ time }
    ensures { (level : ℕ) → AreChanges 0 level (changes_in changes.entry) → changes_in result ≡ earlier_than time (changes_in changes.entry) }
{
    if time_of(changes) < time {
        return changes;
    }
    changes.before_place(changes.len().saturating_sub(1))
}
