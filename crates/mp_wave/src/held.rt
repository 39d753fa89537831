//! The forms in which a wave holds its changes.
ghost use Rattle.std.specs.Prelude.{◌≡◌, ℕ, ◌++◌, ◌∷◌, [], IfOk};
ghost use Rattle.mp_wave.specs.ToggleWaves.{toggle_changes};
ghost use Rattle.mp_wave.specs.WaveChanges.{held_changes, IsLow};

use crate::pairs::{long_pairs, pairs_of, short_pairs_of};
use crate::wave_changes::WaveChanges;
use std::alloc::{AllocError, Global};

/// The least level that takes 8 bytes. If all levels are below it, each takes 4.
const LONG: u64 = 4_294_967_296;

/// The changes of a level: the times at which a level of 0 or 1 toggles, or pairs of a time and a level, in the shortest form in which all levels
/// fit.
#[derive(Drop)]
pub(crate) enum Held {
    Toggles(Vec<u32>),
    ShortPairs(Vec<(u32, u32)>),
    Pairs(Vec<(u32, u64)>),
}

impl Held {
    ghost use Rattle.std.specs.Prelude.{◌≡◌, ◌≢◌, ℕ, ◌<◌, ◌≤◌, ◌++◌, ◌∷◌, [], IfOk, OnOk, OnErr, length, take};
    ghost use Rattle.mp_wave.specs.Waveform.{last_from, last_time};
    ghost use Rattle.mp_wave.specs.WaveChanges.{changes_in, held_changes, IsHeld, IsLow};

    /// No changes.
    pub(crate) fn none(alloc: Global, initial: u64) -> Held
        ensures value { held_changes initial result ≡ [] }
        ensures low { IsLow initial result }
    {
        if initial <= 1 {
            Held::Toggles(Vec::new(alloc))
        } else if initial < LONG {
            Held::ShortPairs(Vec::new(alloc))
        } else {
            Held::Pairs(Vec::new(alloc))
        }
    }

    /// The changes after this initial level.
    #[inline(always)]
    pub(crate) fn changes(&self, initial: u64) -> WaveChanges<'_>
        ensures { changes_in result ≡ held_changes initial self.now }
    {
        match self {
            Held::Toggles(times) => WaveChanges::Toggles {
                level: initial,
                times: times.as_slice(),
            },
            Held::ShortPairs(pairs) => WaveChanges::ShortPairs(pairs.as_slice()),
            Held::Pairs(pairs) => WaveChanges::Pairs(pairs.as_slice()),
        }
    }

    /// The first `count` changes, with room for as many as there are in all.
    pub(crate) fn front(&self, alloc: Global, count: usize) -> Result<Held, AllocError>
        requires { (initial : ℕ) → count ≤ length (held_changes initial self.now) }
        ensures value { (initial : ℕ) → IfOk result (λ front. held_changes initial front ≡ take count (held_changes initial self.now)) }
        ensures low { (initial : ℕ) → IsLow initial self.now → IfOk result (IsLow initial) }
    {
        match self {
            Held::Toggles(times) => {
                let all = times.as_slice();
                let mut front = Vec::with_capacity(alloc, all.len())?;
                front.extend_from_slice(&all[..count])?;
                Ok(Held::Toggles(front))
            }
            Held::ShortPairs(pairs) => {
                let all = pairs.as_slice();
                let mut front = Vec::with_capacity(alloc, all.len())?;
                front.extend_from_slice(&all[..count])?;
                Ok(Held::ShortPairs(front))
            }
            Held::Pairs(pairs) => {
                let all = pairs.as_slice();
                let mut front = Vec::with_capacity(alloc, all.len())?;
                front.extend_from_slice(&all[..count])?;
                Ok(Held::Pairs(front))
            }
        }
    }

    /// A copy of the changes.
    pub(crate) fn copy(&self) -> Result<Held, AllocError>
        ensures value { (initial : ℕ) → IfOk result (λ copy. held_changes initial copy ≡ held_changes initial self.now) }
        ensures low { (initial : ℕ) → IsLow initial self.now → IfOk result (IsLow initial) }
    {
        match self {
            Held::Toggles(times) => Ok(Held::Toggles(times.clone()?)),
            Held::ShortPairs(pairs) => Ok(Held::ShortPairs(pairs.clone()?)),
            Held::Pairs(pairs) => Ok(Held::Pairs(pairs.clone()?)),
        }
    }

    /// Adds a change to a level other than the last one. If memory runs out, the changes stay as they were.
    #[inline(always)]
    pub(crate) fn push(&mut self, initial: u64, time: u32, level: u64) -> Result<(), AllocError>
        requires held { IsHeld initial self.old }
        requires later { last_time 0 (held_changes initial self.old) < time }
        requires other { last_from initial (held_changes initial self.old) ≢ level }
        ensures ok { OnOk result (held_changes initial self.new ≡ held_changes initial self.old ++ (time, level) ∷ []) }
        ensures held { IsHeld initial self.new }
        ensures err { OnErr result (held_changes initial self.new ≡ held_changes initial self.old) }
    {
        match self {
            Held::ShortPairs(pairs) if level < LONG => pairs.push((time, level as u32))?,
            Held::Toggles(times) if level <= 1 => times.push(time)?,
            Held::Pairs(pairs) => pairs.push((time, level))?,
            _ => self.push_longer(initial, time, level)?,
        }
        Ok(())
    }

    /// Adds a change with which the changes no longer fit into their form.
    #[cold]
    #[inline(never)]
    fn push_longer(&mut self, initial: u64, time: u32, level: u64) -> Result<(), AllocError>
        requires held { IsHeld initial self.old }
        requires later { last_time 0 (held_changes initial self.old) < time }
        requires other { last_from initial (held_changes initial self.old) ≢ level }
        ensures ok { OnOk result (held_changes initial self.new ≡ held_changes initial self.old ++ (time, level) ∷ []) }
        ensures held { IsHeld initial self.new }
        ensures err { OnErr result (held_changes initial self.new ≡ held_changes initial self.old) }
    {
        match self {
            Held::Toggles(times) => *self = listed(initial, times, time, level)?,
            Held::ShortPairs(pairs) => *self = lengthened(pairs, time, level)?,
            Held::Pairs(pairs) => pairs.push((time, level))?,
        }
        Ok(())
    }
}

/// Toggles of a level and one more change, as pairs.
fn listed(initial: u64, times: &Vec<u32>, time: u32, level: u64) -> Result<Held, AllocError>
    ensures value { IfOk result (λ held. held_changes initial held ≡ toggle_changes initial times.now.items ++ (time, level) ∷ []) }
    ensures low { IfOk result (IsLow initial) }
{
    let alloc = *times.allocator();
    if level < LONG {
        let mut pairs = short_pairs_of(alloc, initial, times.as_slice())?;
        pairs.push((time, level as u32))?;
        return Ok(Held::ShortPairs(pairs));
    }
    let mut pairs = pairs_of(alloc, initial, times.as_slice())?;
    pairs.push((time, level))?;
    Ok(Held::Pairs(pairs))
}

/// Pairs with short levels and one more change, as pairs with levels of any length.
fn lengthened(short: &Vec<(u32, u32)>, time: u32, level: u64) -> Result<Held, AllocError>
    ensures value { (initial : ℕ) → IfOk result (λ held. held_changes initial held ≡ short.now.items ++ (time, level) ∷ []) }
    ensures low { (initial : ℕ) → IfOk result (IsLow initial) }
{
    let mut pairs = long_pairs(*short.allocator(), short.as_slice())?;
    pairs.push((time, level))?;
    Ok(Held::Pairs(pairs))
}
