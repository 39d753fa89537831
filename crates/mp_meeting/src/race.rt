//! Designers and viewers at the same time.
ghost use Rattle.std.specs.Prelude.{◌≡◌, ◌<◌, length, vec_len, All};
ghost use Rattle.mp_meeting.specs.Sittings.{begun, WorkedEach};
ghost use Rattle.mp_meeting.specs.Seats.{working};

use crate::designer_tally::DesignerTally;
use crate::reading::read_often;
use mp_desk::{Desk, DeskName, MAX_DESIGNERS, MAX_VIEWERS, Unkept, Viewer};
use mp_version::EditSession;
use std::alloc::Global;
use std::sync::Wait;
use std::thread::{Threads, for_each_mut, join};

/// Has each designer submit its lines and each viewer read, each on a thread of its own if one can be made.
pub(crate) fn race<
    S: EditSession + Send,
    L: DeskName + Send + Sync,
    R: Threads + Wait + Sync + Send + Drop,
>(
    rt: &R,
    alloc: Global,
    desk: &Desk<S, Unkept, L, R>,
    blocks: &[&[u8]],
    sittings: Vec<DesignerTally<L>>,
    viewers: Vec<Viewer<L>>,
) -> (Vec<DesignerTally<L>>, Vec<Viewer<L>>)
where
    S::Prepared: Send,
    requires blocks { length blocks.now ≡ vec_len sittings }
    requires fresh { All (λ s. s ≡ begun (working s)) sittings.items }
    ensures count { vec_len result.0 ≡ vec_len sittings }
    ensures worked { WorkedEach blocks.now sittings.items result.0.items }
    ensures viewers { vec_len result.1 ≡ vec_len viewers }
{
    join(
        rt,
        || -> Vec<DesignerTally<L>>
            requires { (length blocks.now ≡ vec_len sittings) × All (λ s. s ≡ begun (working s)) sittings.items }
            ensures { (vec_len result ≡ vec_len sittings) × WorkedEach blocks.entry.now sittings.items result.items }
        { submitted(rt, alloc, desk, blocks, sittings) },
        || -> Vec<Viewer<L>>
            ensures { vec_len result ≡ vec_len viewers }
        { read(rt, viewers) },
    )
}

/// The designers after each has submitted its lines.
fn submitted<
    S: EditSession + Send,
    L: DeskName + Send + Sync,
    R: Threads + Wait + Sync + Send + Drop,
>(
    rt: &R,
    alloc: Global,
    desk: &Desk<S, Unkept, L, R>,
    blocks: &[&[u8]],
    sittings: Vec<DesignerTally<L>>,
) -> Vec<DesignerTally<L>>
where
    S::Prepared: Send,
    requires blocks { length blocks.now ≡ vec_len sittings }
    requires fresh { All (λ s. s ≡ begun (working s)) sittings.items }
    ensures count { vec_len result ≡ vec_len sittings }
    ensures worked { WorkedEach blocks.now sittings.items result.items }
{
    let mut sittings = sittings;
    submit_all(rt, alloc, desk, blocks, sittings.as_mut_slice());
    sittings
}

fn submit_all<
    S: EditSession + Send,
    L: DeskName + Send + Sync,
    R: Threads + Wait + Sync + Send + Drop,
>(
    rt: &R,
    alloc: Global,
    desk: &Desk<S, Unkept, L, R>,
    blocks: &[&[u8]],
    sittings: &mut [DesignerTally<L>],
)
where
    S::Prepared: Send,
    requires blocks { length blocks.now ≡ length sittings.old }
    requires fresh { All (λ s. s ≡ begun (working s)) sittings.old }
    ensures count { length sittings.new ≡ length sittings.old }
    ensures worked { WorkedEach blocks.now sittings.old sittings.new }
{
    for_each_mut(
        rt,
        sittings,
        MAX_DESIGNERS,
        &|place, sitting: &mut DesignerTally<L>|
            requires { (place < length blocks.now) × (sitting.now ≡ begun (working sitting.now)) }
        { sitting.work(rt, alloc, desk, blocks[place]) },
    );
}

/// The viewers after each has read.
fn read<L: DeskName + Send + Sync, R: Threads + Sync>(
    rt: &R,
    viewers: Vec<Viewer<L>>,
) -> Vec<Viewer<L>>
    ensures { vec_len result ≡ vec_len viewers }
{
    let mut viewers = viewers;
    read_all(rt, viewers.as_mut_slice());
    viewers
}

fn read_all<L: DeskName + Send + Sync, R: Threads + Sync>(rt: &R, viewers: &mut [Viewer<L>])
    ensures { length viewers.new ≡ length viewers.old }
{
    for_each_mut(rt, viewers, MAX_VIEWERS, &|_, viewer| read_often(viewer));
}
