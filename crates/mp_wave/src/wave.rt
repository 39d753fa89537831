//! The levels of a wire over time.

ghost use Rattle.std.specs.Prelude.{◌≡◌, ◌≢◌, ℕ, ◌<◌, ◌^◌, ◌++◌, ◌∷◌, ◌↔◌, [], length, vec_len, IsOk, IfOk, IfErr, IfNone, IfSome, OnOk, OnErr};
ghost use Rattle.mp_wave.specs.Waveform.{AreChanges};
ghost use Rattle.mp_wave.specs.Faults.{IsCause, IsChange, IsFirstFault};

use crate::held::Held;
use crate::search::{agree_until, count_before, count_upto, earlier_than, later_than};
use crate::{ToggleWave, WaveCause, WaveChanges, WaveError};
use std::alloc::{AllocError, Global};
use std::marker::Model;

/// The level of a wire at time 0, and its changes: pairs of a time and the level from then on, by rising time from 1, each level other than the one
/// before it.
#[derive(Drop)]
pub struct Wave {
    initial: u64,
    held: Held,
}

impl Model for Wave {
    ghost use Rattle.mp_wave.specs.Waveform.{Waveform};
    ghost use Rattle.mp_wave.specs.WaveChanges.{held_wave, IsHeld};

    ghost Value = { Waveform };

    ghost view = { λ wave. held_wave wave.initial wave.held };

    ghost invariant = { λ wave. IsHeld wave.initial wave.held };
}

impl Wave {
    ghost use Rattle.mp_wave.specs.Waveform.{IsWaveform, level_of, last_from, last_time, between, kept_before};
    ghost use Rattle.mp_wave.specs.WaveChanges.{changes_in};
    ghost use Rattle.mp_wave.specs.Differences.{AgreeBelow, IsFirstDifference};

    /// The wave with one level at every time.
    pub fn constant(alloc: Global, initial: u64) -> Self
        ensures { result ≡ record { initial = initial; changes = [] } }
    {
        Wave {
            initial,
            held: Held::none(alloc, initial),
        }
    }

    /// The wave with this level at time 0 and these changes. The error is the first pair that isn't a change.
    pub fn from_changes(initial: u64, changes: Vec<(u32, u64)>) -> Result<Self, WaveError>
        requires { vec_len changes < 2 ^ 32 }
        ensures accepted { IsOk result ↔ IsWaveform (record { initial = initial; changes = changes.items }) }
        ensures value { IfOk result (λ wave. wave ≡ record { initial = initial; changes = changes.items }) }
        ensures refused { IfErr result (λ error. IsFirstFault initial changes.items error) }
    {
        match find_fault(initial, changes.as_slice()) {
            Some(error) => Err(error),
            None => Ok(Wave {
                initial,
                held: Held::Pairs(changes),
            }),
        }
    }

    /// The level at time 0.
    pub fn initial(&self) -> u64
        ensures value { result ≡ self.now.initial }
        ensures form { IsWaveform self.now }
    {
        self.initial
    }

    /// The changes after time 0, by rising time.
    #[inline(always)]
    pub fn changes(&self) -> WaveChanges<'_>
        ensures value { changes_in result ≡ self.now.changes }
        ensures form { IsWaveform self.now }
    {
        self.held.changes(self.initial)
    }

    /// The level at a time: that of the last change up to it, or the initial one.
    #[inline(never)]
    pub fn level_at(&self, time: u32) -> u64
        ensures value { result ≡ level_of self.now time }
        ensures form { IsWaveform self.now }
    {
        let changes = self.changes();
        let count = count_upto(changes, time);
        if count == 0 {
            return self.initial;
        }
        changes.level_at(count - 1)
    }

    /// The changes later than one time and earlier than another, found by search.
    #[inline]
    pub fn changes_between(&self, from: u32, to: u32) -> WaveChanges<'_>
        ensures value { changes_in result ≡ between from to self.now.changes }
        ensures form { IsWaveform self.now }
    {
        earlier_than(later_than(self.changes(), from), to)
    }

    /// The least time below `upto` at which the two waves have different levels, if any. The search takes time for each change that they have in
    /// common.
    pub fn first_difference(&self, other: &Wave, upto: u32) -> Option<u32>
        ensures none { IfNone result (AgreeBelow self.now other.now upto) }
        ensures some { IfSome result (λ time. IsFirstDifference self.now other.now upto time) }
    {
        if self.initial != other.initial {
            return if upto == 0 { None } else { Some(0) };
        }
        let ours = self.changes();
        let theirs = other.changes();
        let time = agree_until(self.initial, ours, theirs, upto);
        if time < upto { Some(time) } else { None }
    }

    /// A copy of the wave.
    pub fn copy(&self) -> Result<Wave, AllocError>
        ensures value { IfOk result (λ copy. copy ≡ self.now) }
        ensures form { IsWaveform self.now }
    {
        Ok(Wave {
            initial: self.initial,
            held: self.held.copy()?,
        })
    }

    /// The wave up to a time, from which on its last level is held, with room for as many changes as this one has.
    pub(crate) fn prefix(&self, alloc: Global, upto: u32) -> Result<Wave, AllocError>
        ensures { IfOk result (λ prefix. prefix ≡ kept_before upto self.now) }
    {
        let count = count_before(self.changes(), upto);
        Ok(Wave {
            initial: self.initial,
            held: self.held.front(alloc, count)?,
        })
    }

    /// Adds a change at the end. If memory runs out, the wave stays as it was.
    #[inline(always)]
    pub(crate) fn push_change(&mut self, time: u32, level: u64) -> Result<(), AllocError>
        requires later { last_time 0 self.old.changes < time }
        requires other { last_from self.old.initial self.old.changes ≢ level }
        ensures ok { OnOk result (self.new ≡
            record { initial = self.old.initial; changes = self.old.changes ++ (time, level) ∷ [] }) }
        ensures err { OnErr result (self.new ≡ self.old) }
    {
        self.held.push(self.initial, time, level)
    }
}

impl From<ToggleWave> for Wave {
    ghost from_gives = { λ toggles wave. wave ≡ toggles };

    /// The wave of a wire that toggles. It takes no memory.
    fn from(wave: ToggleWave) -> Wave {
        let (initial, times) = wave.into_parts();
        Wave {
            initial,
            held: Held::Toggles(times),
        }
    }
}

// What is wrong with a pair after the one before it.
fn find_cause(before: (u32, u64), pair: (u32, u64)) -> Option<WaveCause>
    ensures none { IfNone result (IsChange before pair) }
    ensures some { IfSome result (λ cause. IsCause cause before pair) }
{
    if pair.0 == 0 {
        Some(WaveCause::Time)
    } else if pair.0 <= before.0 {
        Some(WaveCause::Order)
    } else if pair.1 == before.1 {
        Some(WaveCause::Same)
    } else {
        None
    }
}

fn find_fault(initial: u64, pairs: &[(u32, u64)]) -> Option<WaveError>
    requires { length pairs.now < 2 ^ 32 }
    ensures none { IfNone result (AreChanges 0 initial pairs.now) }
    ensures some { IfSome result (λ error. IsFirstFault initial pairs.now error) }
{
    let mut before = (0, initial);
    for (place, pair) in pairs.iter().enumerate() {
        if let Some(cause) = find_cause(before, *pair) {
            return Some(WaveError {
                place: place as u32,
                cause,
            });
        }
        before = *pair;
    }
    None
}
