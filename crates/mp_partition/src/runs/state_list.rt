//! States of a module, in as little room as they need.
ghost use Rattle.std.specs.Prelude.{◌≡◌, ◌<◌, ◌≤◌, IsTrue, length, map, slice_index_or};
ghost use Rattle.mp_partition.specs.runs.StateLists.{states_of, opened};

use crate::runs::bit_memory::BitMemory;
use crate::runs::checkpoint::Checkpoint;
use std::alloc::{AllocError, Global};

/// A state before the unit of a time, whose levels are all 0 or 1.
#[derive(Drop)]
pub(crate) struct BitCheckpoint {
    time: u32,
    bits: BitMemory,
}

/// States of a module in a list. If the levels of all are 0 or 1, as in a module of width 1, each takes eight bytes in place of 72.
#[derive(Drop)]
pub(crate) enum StateList {
    Bits(Vec<BitCheckpoint>),
    Wide(Vec<Checkpoint>),
}

impl StateList {
    ghost use Rattle.std.specs.Prelude.{◌≡◌, ◌-◌, ◌<◌, ◌≤◌, ◌++◌, ◌∷◌, [], IsTrue, OnOk, OnErr, length, slice_index_or};
    ghost use Rattle.mp_partition.specs.runs.StateLists.{states_of, time_in, IsRising, IsCut};

    /// No states.
    pub(crate) fn new(alloc: Global) -> Self
        ensures { states_of result ≡ [] }
    {
        StateList::Bits(Vec::new(alloc))
    }

    /// How many there are.
    #[inline(always)]
    pub(crate) fn len(&self) -> usize
        ensures { result ≡ length (states_of self.now) }
    {
        match self {
            StateList::Bits(list) => list.len(),
            StateList::Wide(list) => list.len(),
        }
    }

    /// The one at a place.
    #[inline(always)]
    pub(crate) fn at(&self, place: usize) -> Checkpoint
        requires { place < length (states_of self.now) }
        ensures { result ≡ slice_index_or (states_of self.now) place result }
    {
        match self {
            StateList::Bits(list) => list[place].opened(),
            StateList::Wide(list) => list[place],
        }
    }

    /// The time of the one at a place.
    #[inline(always)]
    fn time_at(&self, place: usize) -> u32
        requires { place < length (states_of self.now) }
        ensures { result ≡ time_in (states_of self.now) place }
    {
        match self {
            StateList::Bits(list) => list[place].time,
            StateList::Wide(list) => list[place].time,
        }
    }

    /// One more. With the first one of other levels than 0 and 1 all take their full room from then on.
    pub(crate) fn push(&mut self, checkpoint: Checkpoint) -> Result<(), AllocError>
        ensures ok { OnOk result (states_of self.new ≡ states_of self.old ++ checkpoint ∷ []) }
        ensures err { OnErr result (states_of self.new ≡ states_of self.old) }
    {
        match self {
            StateList::Bits(list) => {
                if let Some(bits) = BitMemory::of(checkpoint.memory) {
                    let time = checkpoint.time;
                    list.push(BitCheckpoint { time, bits })?;
                    return Ok(());
                }
                let mut wide = widened(list)?;
                wide.push(checkpoint)?;
                *self = StateList::Wide(wide);
            }
            StateList::Wide(list) => list.push(checkpoint)?,
        }
        Ok(())
    }

    /// How many are of times not after this one.
    #[inline(always)]
    pub(crate) fn count_upto(&self, time: u32) -> usize
        requires { IsRising (states_of self.now) }
        ensures bound { result ≤ length (states_of self.now) }
        ensures parted { IsCut (states_of self.now) time result }
    {
        let place = self.likely_place(time);
        if self.is_cut(place, time) {
            return place;
        }
        self.search_upto(time)
    }

    /// How many would be of times not after this one if their times were equally far apart, from 0 on.
    #[inline(always)]
    fn likely_place(&self, time: u32) -> usize
        ensures { result ≤ length (states_of self.now) }
    {
        let count = self.len();
        if count == 0 {
            return 0;
        }
        let last = self.time_at(count - 1);
        if time >= last {
            return count;
        }
        let part = (time as usize).saturating_mul(count - 1) / last as usize;
        count.min(part.saturating_add(1))
    }

    /// Whether the one before a place, if any, isn't after a time, and the one at the place, if any, is.
    #[inline(always)]
    fn is_cut(&self, place: usize, time: u32) -> bool
        requires { place ≤ length (states_of self.now) }
        ensures before { IsTrue result → 0 < place → time_in (states_of self.now) (place - 1) ≤ time }
        ensures after { IsTrue result → place < length (states_of self.now) → time < time_in (states_of self.now) place }
    {
        if place < self.len() && self.time_at(place) <= time {
            return false;
        }
        place == 0 || self.time_at(place - 1) <= time
    }

    /// How many are of times not after this one, by a search.
    #[inline(never)]
    fn search_upto(&self, time: u32) -> usize
        requires { IsRising (states_of self.now) }
        ensures bound { result ≤ length (states_of self.now) }
        ensures parted { IsCut (states_of self.now) time result }
    {
        match self {
            StateList::Bits(list) => list.as_slice().partition_point(|kept| kept.time <= time),
            StateList::Wide(list) => list.as_slice().partition_point(|kept| kept.time <= time),
        }
    }
}

impl BitCheckpoint {
    ghost use Rattle.std.specs.Prelude.{◌≡◌};
    ghost use Rattle.mp_partition.specs.runs.StateLists.{opened};

    /// The state in the room that any module's state needs.
    #[inline(always)]
    fn opened(&self) -> Checkpoint
        ensures { result ≡ opened self.now }
    {
        Checkpoint {
            time: self.time,
            memory: self.bits.memory(),
        }
    }
}

ghost use Rattle.std.specs.Prelude.{IfOk};

/// The states in the room that any module's states need.
#[cold]
#[inline(never)]
fn widened(list: &Vec<BitCheckpoint>) -> Result<Vec<Checkpoint>, AllocError>
    ensures { IfOk result (λ wide. wide.items ≡ map opened list.now.items) }
{
    let mut wide = Vec::with_capacity(*list.allocator(), list.len())?;
    for kept in list.as_slice() {
        wide.push(kept.opened())?;
    }
    Ok(wide)
}
