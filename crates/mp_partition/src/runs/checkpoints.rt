//! States of modules that are kept, for evaluations that begin later.
ghost use Rattle.std.specs.Prelude.{◌≡◌, ◌<◌, ◌≤◌, ◌++◌, ◌∷◌, [], All, IfOk, OnOk, drop};
ghost use Rattle.mp_partition.specs.runs.StateLists.{states_of, IsRising};
ghost use Rattle.mp_partition.specs.declared.runs.checkpoint.Checkpoint.{Checkpoint as Kept};

use crate::runs::checkpoint::Checkpoint;
use crate::runs::state_list::StateList;
use mp_modules::Memory;
use std::alloc::{AllocError, Global};
use std::marker::Model;

/// The states of a module that are kept, by rising time. Between two of them it didn't answer before the later's time.
#[derive(Drop)]
pub struct Checkpoints {
    list: StateList,
    ghost rising: { IsRising (states_of list) },
}

impl Model for Checkpoints {
    ghost use Rattle.std.specs.Prelude.{List};
    ghost use Rattle.mp_partition.specs.runs.StateLists.{states_of};
    ghost use Rattle.mp_partition.specs.declared.runs.checkpoint.Checkpoint.{Checkpoint};

    ghost Value = { List Checkpoint };

    ghost view = { λ checkpoints. states_of checkpoints.list };
}

impl Checkpoints {
    ghost use Rattle.mp_partition.specs.runs.Checkpoints.{kept_at, kept_before, KeepsFrom, KeepsBetween};
    ghost use Rattle.mp_modules.specs.Memories.{blank};

    /// None are kept.
    pub fn new(alloc: Global) -> Self
        ensures { result ≡ [] }
    {
        Checkpoints {
            list: StateList::new(alloc),
        }
    }

    /// Only the state before time 0, in which a module starts.
    pub fn of_start(alloc: Global, memory: Memory) -> Result<Self, AllocError>
        ensures { IfOk result (λ kept. kept ≡ record { time = 0; memory = memory } ∷ []) }
    {
        let mut kept = Checkpoints::new(alloc);
        kept.push(Checkpoint { time: 0, memory })?;
        Ok(kept)
    }

    /// One more, of a time that isn't before the others.
    fn push(&mut self, checkpoint: Checkpoint) -> Result<(), AllocError>
        requires { All (λ (kept : Kept). kept.time ≤ checkpoint.time) self.old }
        ensures { OnOk result (self.new ≡ self.old ++ checkpoint ∷ []) }
    {
        self.list.push(checkpoint)?;
        Ok(())
    }

    /// From a time on, which isn't before any other, this state is kept.
    pub fn keep(&mut self, time: u32, memory: Memory) -> Result<(), AllocError>
        requires { All (λ (kept : Kept). kept.time ≤ time) self.old }
        ensures { OnOk result (KeepsFrom self.old time memory self.new) }
    {
        self.push(Checkpoint { time, memory })
    }

    /// Keeps a state from a time on that isn't before any other. It takes no room if this state is kept already.
    pub fn keep_change(&mut self, time: u32, memory: Memory) -> Result<(), AllocError>
        requires { All (λ (kept : Kept). kept.time ≤ time) self.old }
        ensures { OnOk result (KeepsFrom self.old time memory self.new) }
    {
        if is_last(&self.list, memory) {
            return Ok(());
        }
        self.keep(time, memory)
    }

    /// From a time on, which isn't before any other, the states are kept that another list keeps up to an end. What comes before is passed
    /// over by a search.
    pub fn follow(&mut self, other: &Checkpoints, from: u32, to: u32) -> Result<(), AllocError>
        requires over { All (λ (kept : Kept). kept.time ≤ from) self.old }
        requires some { from < to }
        ensures { OnOk result (KeepsBetween self.old other.now from to self.new) }
    {
        let (memory, later) = split(&other.list, from);
        self.push(Checkpoint { time: from, memory })?;
        self.add_before(&other.list, later, to)
    }

    /// Adds the states of a list from a place on that are for times before an end. None of them is for an earlier time than the states so far.
    fn add_before(&mut self, list: &StateList, from: usize, end: u32) -> Result<(), AllocError>
        requires over { All (λ (later : Kept). All (λ (kept : Kept). kept.time ≤ later.time) self.old) (drop from (states_of list.now)) }
        requires rising { IsRising (states_of list.now) }
        ensures { OnOk result (self.new ≡ self.old ++ kept_before end (drop from (states_of list.now))) }
    {
        for place in from..list.len() {
            let checkpoint = list.at(place);
            if checkpoint.time >= end {
                return Ok(());
            }
            self.push(checkpoint)?;
        }
        Ok(())
    }

    /// The last that is kept for a time not after this one, or a blank one. It is searched for.
    pub fn kept_at(&self, time: u32) -> Memory
        ensures { result ≡ kept_at self.now time blank }
    {
        split(&self.list, time).0
    }
}

ghost use Rattle.std.specs.Prelude.{◌↔◌, ℕ, IsTrue, length, take};
ghost use Rattle.mp_partition.specs.runs.Checkpoints.{kept_at, last_kept};
ghost use Rattle.mp_modules.specs.Memories.{blank};

/// Whether this state is the last that is kept, if a blank one is while there is none.
fn is_last(list: &StateList, memory: Memory) -> bool
    ensures { IsTrue result → last_kept (states_of list.now) blank ≡ memory }
{
    is_same(state_before(list, list.len()), memory)
}

fn is_same(one: Memory, other: Memory) -> bool
    ensures { IsTrue result ↔ one ≡ other }
{
    one == other
}

/// The last that is kept for a time not after this one, or a blank one, and the place of the first that is kept for a later time.
fn split(list: &StateList, time: u32) -> (Memory, usize)
    requires { IsRising (states_of list.now) }
    ensures at { kept_at (states_of list.now) time blank ≡ result.0 }
    ensures from { (c : ℕ) → time ≤ c → kept_at (states_of list.now) c blank ≡ kept_at (drop result.1 (states_of list.now)) c result.0 }
    ensures later { All (λ (kept : Kept). time < kept.time) (drop result.1 (states_of list.now)) }
{
    let count = list.count_upto(time);
    (state_before(list, count), count)
}

/// The last state before a place, or a blank one.
fn state_before(list: &StateList, place: usize) -> Memory
    requires { place ≤ length (states_of list.now) }
    ensures { result ≡ last_kept (take place (states_of list.now)) blank }
{
    if place == 0 {
        return Memory::with_one_output(&[], 0);
    }
    list.at(place - 1).memory
}
