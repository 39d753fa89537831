//! Changes of wires by time.
ghost use Rattle.std.specs.Prelude.{◌≡◌, ◌+◌, ◌-◌, ◌<◌, ◌≤◌};
ghost use Rattle.mp_exports.specs.vcd.Clauses.{ℕ, List, [], IfOk, OnOk, slice_index, vec_len, Tells, told_from, with_told, entry_at};

use std::alloc::{AllocError, Global};

/// A change of a wire, by number, to a level, and the place of the next change of the same time, 0 if there is none.
#[derive(Clone, Copy)]
pub struct QueuedChange {
    pub level: u64,
    pub wire: u32,
    pub next: u32,
}

/// A list of changes for each time from `from` on. `firsts` has the place of the first change of each time. Places are counted from 1, and 0 ends a
/// list.
#[derive(Drop)]
pub struct ChangeQueue {
    pub from: u32,
    pub firsts: Vec<u32>,
    pub entries: Vec<QueuedChange>,
}

impl ChangeQueue {
    /// A queue without changes for `times` times from `from` on, with room for `room` changes. The error comes if memory runs out.
    pub fn new(alloc: Global, from: u32, times: u32, room: usize) -> Result<ChangeQueue, AllocError>
        ensures from { IfOk result (λ agenda. agenda.from ≡ from) }
        ensures times { IfOk result (λ agenda. vec_len agenda.firsts ≡ times) }
        ensures told { IfOk result (λ agenda. Tells agenda.firsts.items agenda.entries.items (λ _. [])) }
    {
        let firsts = vec![in alloc; 0; times as usize]?;
        let entries = Vec::with_capacity(alloc, room)?;
        Ok(ChangeQueue {
            from,
            firsts,
            entries,
        })
    }

    /// Puts a change of a wire, by number, before the other changes of its time. A change at another time than those of the queue is left out. The
    /// error comes if memory runs out, and with more than 2^32 - 1 changes.
    pub fn add(&mut self, time: u32, wire: u32, level: u64) -> Result<(), AllocError>
        ensures from { OnOk result (self.new.from ≡ self.old.from) }
        ensures times { OnOk result (vec_len self.new.firsts ≡ vec_len self.old.firsts) }
        ensures told { OnOk result ((told : ℕ → List (ℕ × ℕ)) → Tells self.old.firsts.items self.old.entries.items (told_from self.old.from told)
            → Tells self.new.firsts.items self.new.entries.items (told_from self.old.from (with_told told time (wire, level)))) }
    {
        if time < self.from {
            return Ok(());
        }
        let at = (time - self.from) as usize;
        if at >= self.firsts.len() {
            return Ok(());
        }
        let next = self.firsts[at];
        self.entries.push(QueuedChange { level, wire, next })?;
        let Ok(place) = u32::try_from(self.entries.len()) else {
            return Err(AllocError);
        };
        self.firsts[at] = place;
        Ok(())
    }

    /// The place of the first change of a time, counted from 1; 0 if there is none.
    #[inline]
    pub fn first(&self, time: u32) -> u32
        requires from { self.now.from ≤ time }
        requires times { time < self.now.from + vec_len self.now.firsts }
        ensures { result ≡ slice_index self.now.firsts.items (time - self.now.from) }
    {
        self.firsts[(time - self.from) as usize]
    }

    /// The change at a place.
    #[inline]
    pub fn entry(&self, place: u32) -> QueuedChange
        requires some { 0 < place }
        requires within { place ≤ vec_len self.now.entries }
        ensures { result ≡ entry_at self.now.entries.items (place - 1) }
    {
        self.entries[place as usize - 1]
    }
}
