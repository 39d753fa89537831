//! Passages whose texts are made at once.
ghost use Rattle.std.specs.Prelude.{◌≡◌, ◌<◌, ℕ, length, slice_index_or};
ghost use Rattle.mp_streams.specs.WriteErrors.{Writes};
ghost use Rattle.mp_exports.specs.vcd.Clauses.{flat_map, passage_text, IsMadeAt};

use crate::vcd::room::{Room, put_text};
use crate::vcd::time_chunk::TimeChunk;
use mp_streams::{Out, Sink, WriteError};
use std::alloc::{AllocError, Global};
use std::thread::{Threads, for_each_mut};

/// Passages, and rooms for their texts.
#[derive(Drop)]
pub(crate) struct DumpBatch<'a> {
    pub(crate) passages: &'a [TimeChunk<'a>],
    pub(crate) rooms: Vec<Room>,
}

impl<'a> DumpBatch<'a> {
    ghost use Rattle.std.specs.Prelude.{◌≡◌, ◌<◌, [], vec_len, IfOk};
    ghost use Rattle.mp_streams.specs.WriteErrors.{Writes};
    ghost use Rattle.mp_exports.specs.vcd.Clauses.{flat_map, passage_text, AreMade};

    /// A batch without passages, with this number of buffers.
    pub(crate) fn new(alloc: Global, rooms: usize) -> Result<DumpBatch<'a>, AllocError>
        ensures rooms { IfOk result (λ batch. vec_len batch.rooms ≡ rooms) }
        ensures none { IfOk result (λ batch. batch.passages.now ≡ []) }
    {
        let mut list = Vec::with_capacity(alloc, rooms)?;
        for _ in 0..rooms {
            list.push(Room { text: None })?;
        }
        Ok(DumpBatch {
            passages: &[],
            rooms: list,
        })
    }

    /// Makes the texts of passages in place of those before, each on a thread of its own if one can be started.
    pub(crate) fn make<R: Threads + Sync>(
        &mut self,
        rt: &R,
        alloc: Global,
        passages: &'a [TimeChunk<'a>],
    )
        requires some { 0 < vec_len self.old.rooms }
        ensures passages { self.new.passages.now ≡ passages.now }
        ensures rooms { vec_len self.new.rooms ≡ vec_len self.old.rooms }
        ensures made { AreMade self.new }
    {
        self.passages = passages;
        make_each(rt, alloc, passages, self.rooms.as_mut_slice());
    }

    /// Writes the texts of the passages, one after the other.
    pub(crate) fn put<S: Sink>(&self, alloc: Global, out: &mut Out<S>) -> Result<(), WriteError>
        requires { AreMade self.now }
        ensures { Writes result out.old out.new (flat_map passage_text self.now.passages.now) }
    {
        put_each(alloc, out, self.passages, self.rooms.as_slice())
    }
}

/// Writes the texts of passages, one after the other: those that the buffers at their places have, and the others directly.
pub(crate) fn put_each<S: Sink>(
    alloc: Global,
    out: &mut Out<S>,
    passages: &[TimeChunk<'_>],
    rooms: &[Room],
) -> Result<(), WriteError>
    requires { (place : ℕ) (d : Room) → place < length rooms.now → IsMadeAt passages.now place (slice_index_or rooms.now place d) }
    ensures { Writes result out.old out.new (flat_map passage_text passages.now) }
{
    for place in 0..passages.len() {
        put_text(alloc, out, &passages[place], rooms.get(place))?;
    }
    Ok(())
}

fn make_each<R: Threads + Sync>(
    rt: &R,
    alloc: Global,
    passages: &[TimeChunk<'_>],
    rooms: &mut [Room],
)
    requires { 0 < length rooms.old }
    ensures same { length rooms.new ≡ length rooms.old }
    ensures made { (place : ℕ) (d : Room) → place < length rooms.new → IsMadeAt passages.now place (slice_index_or rooms.new place d) }
{
    let threads = rooms.len();
    for_each_mut(
        rt,
        rooms,
        threads,
        &|place, room: &mut Room| { make_at(alloc, passages, place, room) },
    );
}

/// Makes the text of the passage at a place, if there is one.
fn make_at(alloc: Global, passages: &[TimeChunk<'_>], place: usize, room: &mut Room)
    ensures { IsMadeAt passages.now place room.new }
{
    if let Some(passage) = passages.get(place) {
        room.make(alloc, passage);
    }
}
