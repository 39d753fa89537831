//! Searches in lists of changes.

ghost use Rattle.std.specs.Prelude.{◌≡◌, ◌≢◌, ℕ, ◌+◌, ◌^◌, ◌<◌, ◌≤◌, ◌↔◌, IsTrue, true, false, nat_le, nat_lt, drop, length};
ghost use Rattle.std.specs.List.{AllWithin};
ghost use Rattle.std.specs.List.Sorted.{IsNonDecreasingBy};
ghost use Rattle.mp_wave.specs.Waveform.{AreChanges, level_from, later_than, earlier_than};
ghost use Rattle.mp_wave.specs.WaveChanges.{changes_in};
ghost use Rattle.mp_wave.specs.Faults.{pair_at};

use crate::WaveChanges;

/// This many of the last changes are searched before the others: in a wave that is being built a search mostly ends among them.
const LAST_FEW: usize = 8;

/// A number of changes that can be skipped since none of them is later than a time: all before a place, or none.
fn passed_but(changes: WaveChanges<'_>, first: usize, time: u32) -> usize
    requires { IsNonDecreasingBy (λ (c : ℕ × ℕ). c.0) (changes_in changes) }
    ensures bound { result ≤ length (changes_in changes.entry) }
    ensures early { AllWithin (λ (c : ℕ × ℕ). c.0 ≤ time) (changes_in changes.entry) 0 result }
{
    if first < changes.len() && changes.time_at(first) <= time {
        first
    } else {
        0
    }
}

/// The number of changes that aren't later than a time, by binary search.
#[inline(never)]
fn search_upto(changes: WaveChanges<'_>, time: u32) -> usize
    requires { IsNonDecreasingBy (λ (c : ℕ × ℕ). c.0) (changes_in changes) }
    ensures bound { result ≤ length (changes_in changes.entry) }
    ensures early { AllWithin (λ (c : ℕ × ℕ). nat_le c.0 time ≡ true) (changes_in changes.entry) 0 result }
    ensures late { AllWithin (λ (c : ℕ × ℕ). nat_le c.0 time ≡ false) (changes_in changes.entry) result (length (changes_in changes.entry)) }
{
    let first = passed_but(changes, changes.len().saturating_sub(LAST_FEW), time);
    first + changes.from_place(first).search_upto(time)
}

/// The number of changes that aren't later than a time.
#[inline(always)]
pub(crate) fn count_upto(changes: WaveChanges<'_>, time: u32) -> usize
    requires { IsNonDecreasingBy (λ (c : ℕ × ℕ). c.0) (changes_in changes) }
    ensures bound { result ≤ length (changes_in changes.entry) }
    ensures early { AllWithin (λ (c : ℕ × ℕ). nat_le c.0 time ≡ true) (changes_in changes.entry) 0 result }
    ensures late { AllWithin (λ (c : ℕ × ℕ). nat_le c.0 time ≡ false) (changes_in changes.entry) result (length (changes_in changes.entry)) }
{
    // Mostly it is all of them, or all but the last.
    let count = changes.len();
    if count < 2 || time < changes.time_at(count - 2) {
        return search_upto(changes, time);
    }
    if time < changes.time_at(count - 1) {
        count - 1
    } else {
        count
    }
}

/// The number of changes earlier than a time.
#[inline(always)]
pub(crate) fn count_before(changes: WaveChanges<'_>, time: u32) -> usize
    requires { IsNonDecreasingBy (λ (c : ℕ × ℕ). c.0) (changes_in changes) }
    ensures bound { result ≤ length (changes_in changes.entry) }
    ensures early { AllWithin (λ (c : ℕ × ℕ). nat_lt c.0 time ≡ true) (changes_in changes.entry) 0 result }
    ensures late { AllWithin (λ (c : ℕ × ℕ). nat_lt c.0 time ≡ false) (changes_in changes.entry) result (length (changes_in changes.entry)) }
{
    let count = changes.len();
    if count > 0 && changes.time_at(count - 1) < time {
        count
    } else {
        changes.search_before(time)
    }
}

/// The changes later than a time.
#[inline(always)]
pub(crate) fn later_than(changes: WaveChanges<'_>, time: u32) -> WaveChanges<'_>
    requires { IsNonDecreasingBy (λ (c : ℕ × ℕ). c.0) (changes_in changes) }
    ensures value { changes_in result ≡ later_than time (changes_in changes.entry) }
    ensures sorted { IsNonDecreasingBy (λ (c : ℕ × ℕ). c.0) (changes_in result) }
{
    let count = count_upto(changes, time);
    changes.from_place(count)
}

/// The changes earlier than a time.
#[inline(always)]
pub(crate) fn earlier_than(changes: WaveChanges<'_>, time: u32) -> WaveChanges<'_>
    requires { IsNonDecreasingBy (λ (c : ℕ × ℕ). c.0) (changes_in changes) }
    ensures { changes_in result ≡ earlier_than time (changes_in changes.entry) }
{
    let count = count_before(changes, time);
    changes.before_place(count)
}

/// Whether both lists have a pair at a place, and it is the same.
#[inline(always)]
fn has_pair(one: WaveChanges<'_>, other: WaveChanges<'_>, place: usize) -> bool
    requires one { place < length (changes_in one) }
    requires other { place < length (changes_in other) }
    ensures { IsTrue result ↔ (pair_at (changes_in one.entry) place ≡ pair_at (changes_in other.entry) place) }
{
    one.time_at(place) == other.time_at(place) && one.level_at(place) == other.level_at(place)
}

/// Whether both lists have a pair at a place, it is the same, and its time is before an end.
#[inline(always)]
fn has_same(one: WaveChanges<'_>, other: WaveChanges<'_>, place: usize, end: u32) -> bool
    ensures same { IsTrue result ↔ (place < length (changes_in one.entry)) × (place < length (changes_in other.entry)) × (pair_at (changes_in one.entry) place ≡ pair_at (changes_in other.entry) place) × ((pair_at (changes_in one.entry) place).0 < end) }
    ensures next { IsTrue result → place + 1 < 2 ^ 64 }
{
    place < one.len()
        && place < other.len()
        && has_pair(one, other, place)
        && one.time_at(place) < end
}

/// The time of the change at a place, or the end if that comes first.
fn time_at(changes: WaveChanges<'_>, place: usize, end: u32) -> u32
    ensures within { result ≤ end }
    ensures first { place < length (changes_in changes.entry) → result ≤ (pair_at (changes_in changes.entry) place).0 }
    ensures reached { result < end → (place < length (changes_in changes.entry)) × (result ≡ (pair_at (changes_in changes.entry) place).0) }
{
    if place < changes.len() {
        end.min(changes.time_at(place))
    } else {
        end
    }
}

/// The least time below an end at which two lists of changes after one level give different levels, or the end.
pub(crate) fn agree_until(
    initial: u64,
    one: WaveChanges<'_>,
    other: WaveChanges<'_>,
    upto: u32,
) -> u32
    requires one_form { AreChanges 0 initial (changes_in one) }
    requires other_form { AreChanges 0 initial (changes_in other) }
    ensures same { (t : ℕ) → t < result → level_from initial (changes_in one.entry) t ≡ level_from initial (changes_in other.entry) t }
    ensures differ { result < upto → level_from initial (changes_in one.entry) result ≢ level_from initial (changes_in other.entry) result }
{
    let mut place = 0;
    while has_same(one, other, place, upto) {
        place += 1;
    }
    time_at(one, place, time_at(other, place, upto))
}
