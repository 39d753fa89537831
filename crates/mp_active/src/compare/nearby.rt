//! What is looked for near a place among the changes of a wave.
ghost use Rattle.std.specs.Prelude.{◌≡◌, ◌+◌, ◌-◌, ◌<◌, ◌≤◌, ◌^◌, [], IsTrue, IfSome, length};
ghost use Rattle.mp_wave.specs.Waveform.{IsWaveform, between};
ghost use Rattle.mp_wave.specs.Faults.{pair_at};
ghost use Rattle.mp_wave.specs.WaveChanges.{changes_in};
ghost use Rattle.mp_active.specs.compare.Listing.{IsCut};

use mp_wave::{Wave, WaveChanges};

/// How many changes a long stride passes over, and how many strides are made of each length.
const STRIDE: usize = 8;

/// The number of changes of a wave up to a time, if it is close to `place`.
pub fn find_near(wave: &Wave, place: usize, time: u32) -> Option<usize>
    ensures { IfSome result (IsCut time wave.now.changes) }
{
    let changes = wave.changes();
    let first = place.min(changes.len());
    if is_cut(changes, first, time) {
        return Some(first);
    }
    let count = step_near(changes, first, time);
    if is_cut(changes, count, time) {
        return Some(count);
    }
    None
}

/// Whether a wave has no change after a time up to another one. Near a place it is looked for first.
pub fn rests_near(wave: &Wave, place: usize, from: u32, upto: u32) -> bool
    requires { upto + 1 < 2 ^ 32 }
    ensures none { IsTrue result → between from (upto + 1) wave.now.changes ≡ [] }
    ensures form { IsWaveform wave.now }
{
    match find_near(wave, place, upto) {
        Some(count) => is_by(wave.changes(), count, from),
        None => wave.changes_between(from, upto + 1).len() == 0,
    }
}

/// Whether the change before a place, if any, comes up to a time.
#[inline(always)]
fn is_by(changes: WaveChanges<'_>, place: usize, time: u32) -> bool
    requires { place ≤ length (changes_in changes) }
    ensures { IsTrue result → 0 < place → (pair_at (changes_in changes.entry) (place - 1)).0 ≤ time }
{
    place == 0 || changes.time_at(place - 1) <= time
}

/// Whether it does, and the change at the place, if any, comes later.
#[inline(always)]
fn is_cut(changes: WaveChanges<'_>, place: usize, time: u32) -> bool
    requires { place ≤ length (changes_in changes) }
    ensures by { IsTrue result → 0 < place → (pair_at (changes_in changes.entry) (place - 1)).0 ≤ time }
    ensures later { IsTrue result → place < length (changes_in changes.entry) → time < (pair_at (changes_in changes.entry) place).0 }
{
    if place < changes.len() && changes.time_at(place) <= time {
        return false;
    }
    is_by(changes, place, time)
}

/// A place in some strides from another one, nearer to the first change that comes later than a time.
#[inline(always)]
fn step_near(changes: WaveChanges<'_>, place: usize, time: u32) -> usize
    requires { place ≤ length (changes_in changes) }
    ensures { result ≤ length (changes_in changes.entry) }
{
    let far = step_on(changes, place, STRIDE, time);
    let on = step_on(changes, far, 1, time);
    let back = step_back(changes, on, STRIDE, time);
    step_back(changes, back, 1, time)
}

/// A later place, in strides of a length, as long as the changes before it come up to a time.
#[inline(always)]
fn step_on(changes: WaveChanges<'_>, place: usize, stride: usize, time: u32) -> usize
    requires within { place ≤ length (changes_in changes) }
    requires some { 0 < stride }
    ensures { result ≤ length (changes_in changes.entry) }
{
    let mut at = place;
    for _ in 0..STRIDE {
        if changes.len() - at < stride || changes.time_at(at + stride - 1) > time {
            return at;
        }
        at += stride;
    }
    at
}

/// An earlier place, in strides of a length, as long as the changes from it on come later than a time.
#[inline(always)]
fn step_back(changes: WaveChanges<'_>, place: usize, stride: usize, time: u32) -> usize
    requires within { place ≤ length (changes_in changes) }
    requires some { 0 < stride }
    ensures { result ≤ length (changes_in changes.entry) }
{
    let mut at = place;
    for _ in 0..STRIDE {
        if at < stride || changes.time_at(at - stride) <= time {
            return at;
        }
        at -= stride;
    }
    at
}
