//! Passages whose texts several threads make.
ghost use Rattle.std.specs.Prelude.{◌≡◌, ◌<◌};
ghost use Rattle.mp_streams.specs.WriteErrors.{Writes};
ghost use Rattle.mp_exports.specs.vcd.Clauses.{[], flat_map, vec_len, passage_text, AreMade};

use crate::vcd::dump_batch::{DumpBatch, put_each};
use crate::vcd::time_chunk::TimeChunk;
use mp_streams::{Out, Sink, WriteError};
use std::alloc::Global;
use std::mem;
use std::thread::{Threads, join_mut};

/// Writes the texts of the passages, one after the other. If there are several passages, this number of threads make their texts, while the calling
/// thread writes those that are already made.
#[tactic(auto, using(crate::proofs::lemmas::vcd::StandingLemmas::unmade))]
pub(crate) fn put_passages<R: Threads + Sync, S: Sink>(
    rt: &R,
    alloc: Global,
    out: &mut Out<S>,
    passages: &[TimeChunk<'_>],
    threads: usize,
) -> Result<(), WriteError>
    ensures { Writes result out.old out.new (flat_map passage_text passages.now) }
{
    let makers = threads.min(passages.len());
    if makers < 2 {
        return put_each(alloc, out, passages, &[]);
    }
    let ready = DumpBatch::new(alloc, makers)?;
    let coming = DumpBatch::new(alloc, makers)?;
    put_batches(rt, alloc, out, passages, ready, coming)
}

/// Writes the texts of the passages by two batches in turn: one is made while the other is written.
fn put_batches<'a, R: Threads + Sync, S: Sink>(
    rt: &R,
    alloc: Global,
    out: &mut Out<S>,
    passages: &'a [TimeChunk<'a>],
    ready: DumpBatch<'a>,
    coming: DumpBatch<'a>,
) -> Result<(), WriteError>
    requires some { 0 < vec_len ready.rooms }
    requires same { vec_len coming.rooms ≡ vec_len ready.rooms }
    requires none { ready.passages.now ≡ [] }
    ensures { Writes result out.old out.new (flat_map passage_text passages.now) }
{
    let mut ready = ready;
    let mut coming = coming;
    let mut next = 0usize;
    while next < passages.len() {
        let end = next.saturating_add(coming.rooms.len()).min(passages.len());
        make_and_put(rt, alloc, out, &passages[next..end], &mut coming, &ready)?;
        mem::swap(&mut ready, &mut coming);
        next = end;
    }
    ready.put(alloc, out)
}

/// Makes the texts of some passages in one batch, and writes those of another meanwhile.
fn make_and_put<'a, R: Threads + Sync, S: Sink>(
    rt: &R,
    alloc: Global,
    out: &mut Out<S>,
    next: &'a [TimeChunk<'a>],
    coming: &mut DumpBatch<'a>,
    ready: &DumpBatch<'a>,
) -> Result<(), WriteError>
    requires some { 0 < vec_len coming.old.rooms }
    requires made { AreMade ready.now }
    ensures passages { coming.new.passages.now ≡ next.now }
    ensures rooms { vec_len coming.new.rooms ≡ vec_len coming.old.rooms }
    ensures made { AreMade coming.new }
    ensures written { Writes result out.old out.new (flat_map passage_text ready.now.passages.now) }
{
    let (_, put) = join_mut(
        rt,
        &mut ||
            requires { 0 < vec_len coming.now.rooms }
        { coming.make(rt, alloc, next) },
        &mut || -> Result<(), WriteError>
            requires { AreMade ready.now }
        { ready.put(alloc, out) },
    );
    put
}
