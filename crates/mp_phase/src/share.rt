//! A share of a list of tasks, on one thread.

ghost use Rattle.std.specs.Prelude.{IfOk};
ghost use Rattle.mp_phase.specs.Allowed.{AreAllowed};
ghost use Rattle.mp_phase.specs.Phase.{AreDone};

use crate::gate::Gate;
use crate::work::Work;
use std::alloc::{AllocError, Global};
use std::sync::Wait;

/// Does the tasks one after the other on the calling thread, and returns their results in order. If memory is refused, the tasks that are left aren't
/// begun.
pub fn run_here<T: Work, R: Wait, G: Gate>(
    rt: &R,
    alloc: Global,
    gate: &G,
    tasks: Vec<T>,
) -> Result<Vec<T::Done>, AllocError>
    requires allowed { AreAllowed T.enters (G.may gate.now) tasks.items }
    ensures { IfOk result (λ dones. AreDone T.gives tasks.items dones.items) }
{
    let mut dones = Vec::with_capacity(alloc, tasks.len())?;
    for task in tasks {
        let done = task.work(rt, alloc, gate)?;
        dones.push(done)?;
    }
    Ok(dones)
}
