//! The part of a wave between two times.
ghost use Rattle.std.specs.Prelude.{◌≡◌, ◌+◌, ◌-◌, ◌^◌, ◌<◌, ◌≤◌};
ghost use Rattle.mp_exports.specs.vcd.Clauses.{ℕ, true, false, take, length, slice_index_or, AllWithin, changes_in, between, earlier_than, IsNonDecreasingBy};

use mp_wave::{Wave, WaveChanges};

/// The changes of a wave from `from` to before `to`. They are looked for first at `place`, counted from 0 among all changes of the wave, and by
/// search if they don't begin there.
pub fn part(wave: &Wave, from: u32, to: u32, place: usize) -> WaveChanges<'_>
    requires { 0 < from }
    ensures { changes_in result ≡ between (from - 1) to wave.now.changes }
{
    let changes = wave.changes();
    if !begins_at(changes, place, from) {
        return wave.changes_between(from - 1, to);
    }
    let rest = changes.from_place(place);
    let count = count_before(rest, to);
    rest.before_place(count)
}

/// Whether the changes from a time on are those from a place on.
fn begins_at(changes: WaveChanges<'_>, place: usize, time: u32) -> bool
    requires { IsNonDecreasingBy (λ (c : ℕ × ℕ). c.0) (changes_in changes) }
    ensures within { result ≡ true → place ≤ length (changes_in changes.entry) }
    ensures over { result ≡ true → AllWithin (λ (c : ℕ × ℕ). c.0 < time) (changes_in changes.entry) 0 place }
    ensures ahead { result ≡ true → AllWithin (λ (c : ℕ × ℕ). time ≤ c.0) (changes_in changes.entry) place (length (changes_in changes.entry)) }
{
    place <= changes.len() && is_over(changes, place, time) && is_ahead(changes, place, time)
}

/// Whether the changes before a place are earlier than a time.
fn is_over(changes: WaveChanges<'_>, place: usize, time: u32) -> bool
    requires sorted { IsNonDecreasingBy (λ (c : ℕ × ℕ). c.0) (changes_in changes) }
    requires within { place ≤ length (changes_in changes) }
    ensures { result ≡ true → AllWithin (λ (c : ℕ × ℕ). c.0 < time) (changes_in changes.entry) 0 place }
{
    place == 0 || changes.time_at(place - 1) < time
}

/// Whether the changes from a place on are no earlier than a time.
fn is_ahead(changes: WaveChanges<'_>, place: usize, time: u32) -> bool
    requires { IsNonDecreasingBy (λ (c : ℕ × ℕ). c.0) (changes_in changes) }
    ensures ahead { result ≡ true → AllWithin (λ (c : ℕ × ℕ). time ≤ c.0) (changes_in changes.entry) place (length (changes_in changes.entry)) }
    ensures behind { result ≡ false → (place < length (changes_in changes.entry)) × ((slice_index_or (changes_in changes.entry) place (0, 0)).0 < time) }
    ensures next { result ≡ false → place + 1 < 2 ^ 64 }
{
    place >= changes.len() || time <= changes.time_at(place)
}

/// The number of places before and after the expected one that are tried first.
const NEAR: usize = 24;

/// The place of the first change of a wave from a time on. It is looked for first near the place that it has if changes come at a steady pace up to
/// the horizon.
pub(crate) fn place_at(wave: &Wave, time: u32, horizon: u32) -> usize
    ensures { result ≤ length wave.now.changes }
{
    let changes = wave.changes();
    let steady = share(changes.len(), time, horizon);
    let mut low = steady.saturating_sub(NEAR);
    if !is_over(changes, low, time) {
        low = 0;
    }
    let mut high = steady.saturating_add(NEAR).min(changes.len());
    if !is_ahead(changes, high, time) {
        high = changes.len();
    }
    while low < high {
        let middle = low + (high - low) / 2;
        if is_ahead(changes, middle, time) {
            high = middle;
        } else {
            low = middle + 1;
        }
    }
    low
}

/// The share of a count that a time has of the horizon.
fn share(count: usize, time: u32, horizon: u32) -> usize
    ensures { result ≤ count }
{
    let all = count as u128;
    let share = all * u128::from(time) / u128::from(horizon.max(1));
    share.min(all) as usize
}

/// How many changes are earlier than a time, counted from the first on.
#[tactic(auto, using(crate::proofs::lemmas::vcd::AgendaLemmas::parts_count_before_steps))]
fn count_before(changes: WaveChanges<'_>, time: u32) -> usize
    requires { IsNonDecreasingBy (λ (c : ℕ × ℕ). c.0) (changes_in changes) }
    ensures within { result ≤ length (changes_in changes.entry) }
    ensures value { take result (changes_in changes.entry) ≡ earlier_than time (changes_in changes.entry) }
{
    let mut count = 0;
    while !is_ahead(changes, count, time) {
        count += 1;
    }
    count
}
