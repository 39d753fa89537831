//! A wave that grows at its end.

ghost use Rattle.std.specs.Prelude.{◌≡◌, ◌+◌, ◌-◌, ◌^◌, ◌<◌, ◌≤◌, [], IfOk, OnOk, OnErr};

use crate::Wave;
use std::alloc::{AllocError, Global};
use std::marker::Model;

/// Builds a wave from levels by rising time, each of which is held until the next one.
#[derive(Drop)]
pub struct WaveBuilder {
    wave: Wave,
    level: u64,
    next_time: u32,
}

impl Model for WaveBuilder {
    ghost use Rattle.std.specs.Prelude.{◌≡◌};
    ghost use Rattle.mp_wave.specs.Waveform.{last_from};
    ghost use Rattle.mp_wave.specs.Building.{Building, IsBuilding};

    ghost Value = { Building };

    ghost view = { λ builder. record { wave = builder.wave; next = builder.next_time } };

    ghost invariant = { λ builder. IsBuilding (record { wave = builder.wave; next = builder.next_time }) × (builder.level ≡ last_from builder.wave.initial builder.wave.changes) };
}

impl WaveBuilder {
    ghost use Rattle.mp_wave.specs.Waveform.{IsWaveform, held_from, kept_before, level_of};
    ghost use Rattle.mp_wave.specs.Building.{IsBuilding};

    /// A wave with this level at time 0, held so far.
    pub fn new(alloc: Global, initial: u64) -> Self
        ensures { result ≡ record { wave = record { initial = initial; changes = [] }; next = 1 } }
    {
        WaveBuilder {
            wave: Wave::constant(alloc, initial),
            level: initial,
            next_time: 1,
        }
    }

    /// A wave that starts with the levels of another one before a time, and holds the last of them so far. It has room for as many changes as the
    /// other wave has.
    pub fn from_prefix(alloc: Global, wave: &Wave, upto: u32) -> Result<Self, AllocError>
        requires { 0 < upto }
        ensures value { IfOk result (λ builder. builder ≡ record { wave = kept_before upto wave.now; next = upto }) }
        ensures form { IsWaveform wave.now }
    {
        let level = wave.level_at(upto - 1);
        Ok(WaveBuilder {
            wave: wave.prefix(alloc, upto)?,
            level,
            next_time: upto,
        })
    }

    /// Sets the level from a time on; a level that it already has adds no change. If memory runs out, the builder stays as it was.
    #[inline(always)]
    pub fn push_level(&mut self, time: u32, level: u64) -> Result<(), AllocError>
        requires later { self.old.next ≤ time }
        requires last { time < 2 ^ 32 - 1 }
        ensures ok { OnOk result (self.new ≡ record { wave = held_from self.old.wave time level; next = time + 1 }) }
        ensures err { OnErr result (self.new ≡ self.old) }
    {
        if self.level == level {
            self.next_time = time + 1;
            return Ok(());
        }
        self.wave.push_change(time, level)?;
        self.level = level;
        self.next_time = time + 1;
        Ok(())
    }

    /// The first time at which a level may be pushed: 1, and then one after the last such time.
    pub fn next_time(&self) -> u32
        ensures value { result ≡ self.now.next }
        ensures form { IsBuilding self.now }
    {
        self.next_time
    }

    /// The level at a time, with the last one held. From the last pushed time on this takes no search.
    #[inline(always)]
    pub fn level_at(&self, time: u32) -> u64
        ensures { result ≡ level_of self.now.wave time }
    {
        if time >= self.next_time - 1 {
            return self.level;
        }
        self.wave.level_at(time)
    }

    /// The wave so far, with its last level held.
    pub fn wave(&self) -> &Wave
        ensures value { result.now ≡ self.now.wave }
        ensures form { IsBuilding self.now }
    {
        &self.wave
    }

    /// The finished wave, with its last level held for ever.
    pub fn finish(self) -> Wave
        ensures value { result ≡ self.wave }
        ensures form { IsWaveform result }
    {
        let WaveBuilder { wave, .. } = self;
        wave
    }
}
