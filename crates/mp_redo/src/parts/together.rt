//! Parts of a netlist that has changed, each on a thread of its own.
ghost use Rattle.std.specs.Prelude.{◌≡◌, ◌<◌, ◌^◌, Ok, IfOk};
ghost use Rattle.mp_phase.specs.Allowed.{IsAllowed};
ghost use Rattle.mp_phase.specs.Phase.{AreDone};
ghost use Rattle.mp_depend.specs.work.Work.{IsEntry};
ghost use Rattle.mp_redo.specs.parts.Changes.{IsChange};
ghost use Rattle.mp_redo.specs.parts.Redone.{AreRedone, IsRedone};

use crate::parts::changed_part::ChangedPart;
use crate::parts::parts_change::PartsChange;
use crate::parts::redone::Redone;
use mp_phase::Gate;
use std::alloc::{AllocError, Global};
use std::sync::Wait;
use std::thread;
use std::thread::Threads;

/// What the change makes of each part. A part for which no thread can be started is evaluated after those before it.
pub(crate) fn redo_together<R: Threads + Wait + Sync, G: Gate + Sync>(
    rt: &R,
    alloc: Global,
    change: PartsChange<'_>,
    gate: &G,
) -> Result<Vec<Redone>, AllocError>
    requires change { IsChange change }
    requires allowed { IsAllowed (IsEntry change.old.now change.new.now) (G.may gate.now) }
    ensures { IfOk result (λ parts. AreRedone change.entry parts.items) }
{
    let parts = change.partition.division.parts as usize;
    let redone = thread::map_indices(
        rt,
        alloc,
        parts,
        &|number: usize| -> Result<Redone, AllocError>
            requires change { IsChange change }
            requires part { number < change.partition.now.division.parts }
            requires low { number < 2 ^ 32 }
            requires allowed { IsAllowed (IsEntry change.old.now change.new.now) (G.may gate.now) }
            ensures { IfOk result (IsRedone change.entry number) }
        {
            let part = ChangedPart {
                change,
                number: number as u32,
            };
            part.redo(rt, alloc, gate)
        },
    )?;
    all_of(alloc, redone)
}

/// What is made of all parts, if memory didn't run out in any.
fn all_of(alloc: Global, redone: Vec<Result<Redone, AllocError>>) -> Result<Vec<Redone>, AllocError>
    ensures { IfOk result (λ parts. AreDone (λ one part. one ≡ Ok part) redone.items parts.items) }
{
    let mut parts = Vec::with_capacity(alloc, redone.len())?;
    for one in redone {
        let part = one?;
        parts.push(part)?;
    }
    Ok(parts)
}
