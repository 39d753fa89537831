//! What viewers do.
ghost use Rattle.std.specs.Prelude.{◌≡◌, ◌<◌, ◌≤◌, ℕ, length, vec_len, slice_index, slice_index_or, All, IfOk};
ghost use Rattle.mp_desk.specs.Holders.{GoesOn};

use crate::designer_tally::DesignerTally;
use mp_desk::{DeskName, ReadError, Viewer};
use std::alloc::{AllocError, Global};
use std::sync::Wait;

/// How often a viewer reads while designers work.
const READS: u32 = 100;

/// Reads again and again. A refused read counts as one.
pub(crate) fn read_often<L: DeskName>(viewer: &mut Viewer<L>) {
    for _i in 0..READS {
        let _ = viewer.read();
    }
}

/// The version numbers that the viewers read last, each after it has learnt of the last edit of every designer.
pub(crate) fn last_reads<L: DeskName, R: Wait>(
    rt: &R,
    alloc: Global,
    sittings: &[DesignerTally<L>],
    viewers: &mut [Viewer<L>],
) -> Result<Vec<u32>, AllocError>
    ensures count { IfOk result (λ numbers. vec_len numbers ≡ length viewers.new) }
    ensures last { IfOk result (λ numbers. (k : ℕ) (v : _) → k < length viewers.new → slice_index numbers.items k ≡ length (slice_index_or viewers.new k v).last.edits) }
    ensures told { IfOk result (λ numbers. All (λ n. All (λ s. s.told ≤ n) sittings.now) numbers.items) }
    ensures later { IfOk result (λ numbers. (k : ℕ) (v : _) → k < length viewers.new → GoesOn (slice_index_or viewers.new k v).last (slice_index_or viewers.new k v).signed (slice_index_or viewers.old k v).last (slice_index_or viewers.old k v).signed) }
    ensures all { length viewers.new ≡ length viewers.old }
{
    let mut numbers = Vec::new(alloc);
    for place in 0..viewers.len() {
        let number = last_read(rt, sittings, &mut viewers[place])?;
        numbers.push(number)?;
    }
    Ok(numbers)
}

/// The version that a viewer reads last, after it has learnt of the last edit of every designer.
fn last_read<L: DeskName, R: Wait>(
    rt: &R,
    sittings: &[DesignerTally<L>],
    viewer: &mut Viewer<L>,
) -> Result<u32, AllocError>
    ensures last { IfOk result (λ n. n ≡ length viewer.new.last.edits) }
    ensures told { IfOk result (λ n. All (λ s. s.told ≤ n) sittings.now) }
    ensures later { IfOk result (λ n. GoesOn viewer.new.last viewer.new.signed viewer.old.last viewer.old.signed) }
{
    for place in 0..sittings.len() {
        sittings[place].tell(viewer);
    }
    read_open(rt, viewer)
}

/// Reads until the desk is open.
#[tactic(auto, using(mp_version::proofs::PrefixLemmas::extends_length))]
fn read_open<L: DeskName, R: Wait>(rt: &R, viewer: &mut Viewer<L>) -> Result<u32, AllocError>
    ensures last { IfOk result (λ n. n ≡ length viewer.new.last.edits) }
    ensures learnt { IfOk result (λ n. length viewer.old.learnt.edits ≤ n) }
    ensures later { IfOk result (λ n. GoesOn viewer.new.last viewer.new.signed viewer.old.last viewer.old.signed) }
{
    for _ in rt.forever() {
        match viewer.read() {
            Ok(read) => return Ok(read.version.number()),
            Err(ReadError::Closed) => {}
            Err(ReadError::OutOfMemory) => return Err(AllocError),
        }
    }
    unreachable!()
}
