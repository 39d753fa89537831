//! The waves of wires of width 1.
ghost use Rattle.std.specs.Prelude.{◌≡◌, ◌<◌, ◌≤◌, ◌++◌, ◌∷◌, [], OnOk, OnErr};

use crate::{Wave, WaveChanges};
use std::alloc::{AllocError, Global};
use std::marker::Model;

/// The first capacity: as many times as fit into the smallest block of the allocator.
const FIRST_TIMES: usize = 6;

/// The second capacity. From then on it doubles.
const NEXT_TIMES: usize = 16;

/// The wave of a wire of width 1: its level at time 0, and the times at which it toggles, by rising time from 1. Contracts see the wave.
#[derive(Drop)]
pub struct ToggleWave {
    initial: u64,
    times: Vec<u32>,
}

impl Model for ToggleWave {
    ghost use Rattle.std.specs.Prelude.{◌≤◌};
    ghost use Rattle.mp_wave.specs.Waveform.{Waveform};
    ghost use Rattle.mp_wave.specs.ToggleWaves.{toggle_wave, AreTimes};

    ghost Value = { Waveform };

    ghost view = { λ wave. toggle_wave wave.initial wave.times.items };

    ghost invariant = { λ wave. (wave.initial ≤ 1) × AreTimes 0 wave.times.items };
}

impl ToggleWave {
    ghost use Rattle.std.specs.Prelude.{◌≡◌, ℕ, ◌<◌, ◌≤◌, [], IfOk, OnOk, OnErr};
    ghost use Rattle.mp_wave.specs.Waveform.{last_time, level_of, kept_before, IsWaveform};
    ghost use Rattle.mp_wave.specs.ToggleWaves.{toggle_wave, toggled_at};

    /// The wave with one level at every time.
    pub fn constant(alloc: Global, initial: u64) -> ToggleWave
        requires { initial ≤ 1 }
        ensures { result ≡ toggle_wave initial [] }
    {
        ToggleWave {
            initial,
            times: Vec::new(alloc),
        }
    }

    /// A wave with the levels of another one before a time, and the last of them from then on. It has room for as many toggles as the other has
    /// changes.
    pub fn from_prefix(alloc: Global, wave: &Wave, upto: u32) -> Result<ToggleWave, AllocError>
        requires some { 0 < upto }
        requires low { (t : ℕ) → level_of wave.now t ≤ 1 }
        ensures { IfOk result (λ prefix. prefix ≡ kept_before upto wave.now) }
    {
        let mut times = Vec::with_capacity(alloc, wave.changes().len())?;
        push_times(&mut times, wave.changes_between(0, upto))?;
        Ok(ToggleWave {
            initial: wave.initial(),
            times,
        })
    }

    /// The level at time 0.
    pub fn initial(&self) -> u64
        ensures value { result ≡ self.now.initial }
        ensures low { result ≤ 1 }
    {
        self.initial
    }

    /// The times at which it toggles.
    pub fn times(&self) -> &[u32]
        ensures value { self.now ≡ toggle_wave self.now.initial result.now }
        ensures form { IsWaveform self.now }
    {
        self.times.as_slice()
    }

    /// Its level at time 0, and the times at which it toggles.
    pub(crate) fn into_parts(self) -> (u64, Vec<u32>)
        ensures value { toggle_wave result.0 result.1.items ≡ self }
        ensures low { result.0 ≤ 1 }
        ensures form { IsWaveform self }
    {
        let ToggleWave { initial, times } = self;
        (initial, times)
    }

    /// Adds a toggle at a time later than the last one. If memory runs out, the wave stays as it was.
    #[inline(always)]
    pub fn toggle(&mut self, time: u32) -> Result<(), AllocError>
        requires { last_time 0 self.old.changes < time }
        ensures ok { OnOk result (self.new ≡ toggled_at self.old time) }
        ensures err { OnErr result (self.new ≡ self.old) }
    {
        push_time(&mut self.times, time)?;
        Ok(())
    }
}

ghost use Rattle.std.specs.Prelude.{ℕ};
ghost use Rattle.mp_wave.specs.ToggleWaves.{times_of};
ghost use Rattle.mp_wave.specs.WaveChanges.{changes_in};

/// Appends the times of these changes.
fn push_times(times: &mut Vec<u32>, changes: WaveChanges<'_>) -> Result<(), AllocError>
    ensures { OnOk result (times.new.items ≡ times.old.items ++ times_of (changes_in changes.entry)) }
{
    match changes {
        WaveChanges::Toggles { times: more, .. } => times.extend_from_slice(more)?,
        WaveChanges::ShortPairs(pairs) => push_short_times(times, pairs)?,
        WaveChanges::Pairs(pairs) => push_long_times(times, pairs)?,
    }
    Ok(())
}

fn push_short_times(times: &mut Vec<u32>, pairs: &[(u32, u32)]) -> Result<(), AllocError>
    ensures { OnOk result (times.new.items ≡ times.old.items ++ times_of pairs.now) }
{
    for pair in pairs {
        times.push(pair.0)?;
    }
    Ok(())
}

fn push_long_times(times: &mut Vec<u32>, pairs: &[(u32, u64)]) -> Result<(), AllocError>
    ensures { OnOk result (times.new.items ≡ times.old.items ++ times_of pairs.now) }
{
    for pair in pairs {
        times.push(pair.0)?;
    }
    Ok(())
}

/// Appends a time.
#[inline(always)]
fn push_time(times: &mut Vec<u32>, time: u32) -> Result<(), AllocError>
    ensures ok { OnOk result (times.new.items ≡ times.old.items ++ time ∷ []) }
    ensures err { OnErr result (times.new.items ≡ times.old.items) }
{
    if times.len() == times.capacity() {
        grow(times)?;
    }
    times.push(time)?;
    Ok(())
}

/// Makes room for more times.
#[cold]
#[inline(never)]
fn grow(times: &mut Vec<u32>) -> Result<(), AllocError>
    ensures { times.new.items ≡ times.old.items }
{
    if times.is_empty() {
        return times.reserve(FIRST_TIMES);
    }
    times.reserve(NEXT_TIMES - FIRST_TIMES)
}
