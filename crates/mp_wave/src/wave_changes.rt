//! The changes of a wave, in the form in which it holds them.
ghost use Rattle.std.specs.Prelude.{◌≡◌, ◌<◌, ◌≤◌, drop, length, slice_index_or};
ghost use Rattle.mp_wave.specs.ToggleWaves.{level_after};

use crate::pairs::{long_pairs, pairs_of};
use std::alloc::{AllocError, Global};

/// Changes by rising time, each a time and the level from then on: an iterator over these pairs, which copies nothing.
#[derive(Clone, Copy)]
pub enum WaveChanges<'a> {
    /// The level before them, and the times at which it toggles: from 0 to 1, and otherwise to 0.
    Toggles { level: u64, times: &'a [u32] },
    /// Times and levels, all of which are below 2^32.
    ShortPairs(&'a [(u32, u32)]),
    /// Times and levels.
    Pairs(&'a [(u32, u64)]),
}

impl<'a> WaveChanges<'a> {
    ghost use Rattle.std.specs.Prelude.{◌≡◌, ℕ, ◌-◌, ◌<◌, ◌≤◌, ◌↔◌, [], MatchOption, IsSome, IfOk, drop, length, nat_le, nat_lt, slice_get, take, true, false};
    ghost use Rattle.std.specs.List.{AllWithin, IsFirstAndRest};
    ghost use Rattle.std.specs.List.Sorted.{IsNonDecreasingBy};
    ghost use Rattle.mp_wave.specs.Faults.{pair_at};
    ghost use Rattle.mp_wave.specs.WaveChanges.{changes_in};

    /// No changes.
    pub fn none() -> Self
        ensures { changes_in result ≡ [] }
    {
        WaveChanges::Pairs(&[])
    }

    /// The number of changes.
    #[inline(always)]
    pub fn len(self) -> usize
        ensures { result ≡ length (changes_in self.entry) }
    {
        match self {
            WaveChanges::Toggles { times, .. } => times.len(),
            WaveChanges::ShortPairs(pairs) => pairs.len(),
            WaveChanges::Pairs(pairs) => pairs.len(),
        }
    }

    /// The time of the change at a place.
    #[inline(always)]
    pub fn time_at(self, place: usize) -> u32
        requires { place < length (changes_in self) }
        ensures { result ≡ (pair_at (changes_in self.entry) place).0 }
    {
        match self {
            WaveChanges::Toggles { times, .. } => time_of(times, place),
            WaveChanges::ShortPairs(pairs) => pairs[place].0,
            WaveChanges::Pairs(pairs) => pairs[place].0,
        }
    }

    /// The level from the change at a place on.
    #[inline(always)]
    pub fn level_at(self, place: usize) -> u64
        requires { place < length (changes_in self) }
        ensures { result ≡ (pair_at (changes_in self.entry) place).1 }
    {
        match self {
            WaveChanges::Toggles { level, .. } => toggled(1u64.saturating_sub(level), place),
            WaveChanges::ShortPairs(pairs) => u64::from(pairs[place].1),
            WaveChanges::Pairs(pairs) => pairs[place].1,
        }
    }

    /// The change at a place, if there is one.
    #[inline(always)]
    pub fn get(self, place: usize) -> Option<(u32, u64)>
        ensures { result ≡ slice_get (changes_in self.entry) place }
    {
        if place < self.len() {
            Some((self.time_at(place), self.level_at(place)))
        } else {
            None
        }
    }

    /// The first change, if any.
    #[inline(always)]
    pub fn first(self) -> Option<(u32, u64)>
        ensures value { result ≡ slice_get (changes_in self.entry) 0 }
    {
        self.get(0)
    }

    /// The last change, if any.
    #[inline(always)]
    pub fn last(self) -> Option<(u32, u64)>
        ensures value { result ≡ slice_get (changes_in self.entry) (length (changes_in self.entry) - 1) }
    {
        let count = self.len();
        if count == 0 {
            return None;
        }
        self.get(count - 1)
    }

    /// The changes from a place on.
    #[inline(always)]
    pub fn from_place(self, place: usize) -> Self
        requires { place ≤ length (changes_in self) }
        ensures { changes_in result ≡ drop place (changes_in self.entry) }
    {
        match self {
            WaveChanges::Toggles { level, times } => WaveChanges::Toggles {
                level: level_after(level, place),
                times: times_from(times, place),
            },
            WaveChanges::ShortPairs(pairs) => WaveChanges::ShortPairs(&pairs[place..]),
            WaveChanges::Pairs(pairs) => WaveChanges::Pairs(&pairs[place..]),
        }
    }

    /// The changes before a place.
    #[inline(always)]
    pub fn before_place(self, place: usize) -> Self
        requires { place ≤ length (changes_in self) }
        ensures { changes_in result ≡ take place (changes_in self.entry) }
    {
        match self {
            WaveChanges::Toggles { level, times } => WaveChanges::Toggles {
                level,
                times: &times[..place],
            },
            WaveChanges::ShortPairs(pairs) => WaveChanges::ShortPairs(&pairs[..place]),
            WaveChanges::Pairs(pairs) => WaveChanges::Pairs(&pairs[..place]),
        }
    }

    /// The first change and those after it, if any.
    #[inline(always)]
    pub fn split_first(self) -> Option<((u32, u64), Self)>
        ensures cases { MatchOption result (length (changes_in self.entry) ≡ 0) (λ p. IsFirstAndRest (changes_in self.entry) p.0 (changes_in p.1)) }
        ensures variant { IsSome result ↔ (0 < length (changes_in self.entry)) }
    {
        match self.first() {
            Some(change) => Some((change, self.from_place(1))),
            None => None,
        }
    }

    /// These changes as a list of their own.
    pub fn to_vec(self, alloc: Global) -> Result<Vec<(u32, u64)>, AllocError>
        ensures { IfOk result (λ list. list.items ≡ changes_in self.entry) }
    {
        match self {
            WaveChanges::Toggles { level, times } => pairs_of(alloc, level, times),
            WaveChanges::ShortPairs(pairs) => long_pairs(alloc, pairs),
            WaveChanges::Pairs(pairs) => Vec::from_slice(alloc, pairs),
        }
    }

    /// The number of changes that aren't later than a time, by a search among all of them.
    pub(crate) fn search_upto(self, time: u32) -> usize
        requires { IsNonDecreasingBy (λ (c : ℕ × ℕ). c.0) (changes_in self) }
        ensures bound { result ≤ length (changes_in self.entry) }
        ensures early { AllWithin (λ (c : ℕ × ℕ). nat_le c.0 time ≡ true) (changes_in self.entry) 0 result }
        ensures late { AllWithin (λ (c : ℕ × ℕ). nat_le c.0 time ≡ false) (changes_in self.entry) result (length (changes_in self.entry)) }
    {
        match self {
            WaveChanges::Toggles { times, .. } => times.partition_point(|t| *t <= time),
            WaveChanges::ShortPairs(pairs) => pairs.partition_point(|change| change.0 <= time),
            WaveChanges::Pairs(pairs) => pairs.partition_point(|change| change.0 <= time),
        }
    }

    /// The number of changes earlier than a time, by a search among all of them.
    pub(crate) fn search_before(self, time: u32) -> usize
        requires { IsNonDecreasingBy (λ (c : ℕ × ℕ). c.0) (changes_in self) }
        ensures bound { result ≤ length (changes_in self.entry) }
        ensures early { AllWithin (λ (c : ℕ × ℕ). nat_lt c.0 time ≡ true) (changes_in self.entry) 0 result }
        ensures late { AllWithin (λ (c : ℕ × ℕ). nat_lt c.0 time ≡ false) (changes_in self.entry) result (length (changes_in self.entry)) }
    {
        match self {
            WaveChanges::Toggles { times, .. } => times.partition_point(|t| *t < time),
            WaveChanges::ShortPairs(pairs) => pairs.partition_point(|change| change.0 < time),
            WaveChanges::Pairs(pairs) => pairs.partition_point(|change| change.0 < time),
        }
    }
}

impl<'a> Iterator for WaveChanges<'a> {
    ghost use Rattle.std.specs.Iterator.{YieldsFirst, item_count};
    ghost use Rattle.mp_wave.specs.WaveChanges.{changes_in};

    type Item = (u32, u64);

    ghost next_gives = { YieldsFirst changes_in };

    ghost remaining = { item_count changes_in };

    #[inline(always)]
    fn next(&mut self) -> Option<(u32, u64)> {
        let (change, later) = self.split_first()?;
        *self = later;
        Some(change)
    }
}

/// The time at a place.
#[inline(always)]
fn time_of(times: &[u32], place: usize) -> u32
    requires { place < length times.now }
    ensures { result ≡ slice_index_or times.now place 0 }
{
    times[place]
}

/// The times from a place on.
#[inline(always)]
fn times_from(times: &[u32], place: usize) -> &[u32]
    requires { place ≤ length times.now }
    ensures { result.now ≡ drop place times.now }
{
    &times[place..]
}

/// The level of a wire of width 1 after a number of toggles.
fn toggled(level: u64, toggles: usize) -> u64
    requires { level ≤ 1 }
    ensures { result ≡ level_after level toggles }
{
    if toggles % 2 == 0 { level } else { 1 - level }
}

/// The level after a number of toggles.
fn level_after(level: u64, toggles: usize) -> u64
    ensures { result ≡ level_after level toggles }
{
    if toggles == 0 {
        return level;
    }
    toggled(1u64.saturating_sub(level), toggles - 1)
}
