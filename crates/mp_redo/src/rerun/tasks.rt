//! Tasks of modules that become active within a block.
ghost use Rattle.std.specs.Prelude.{◌≡◌, ◌<◌, IfOk};
ghost use Rattle.mp_phase.specs.Allowed.{AreAllowed};
ghost use Rattle.mp_phase.specs.Phase.{AreDone};
ghost use Rattle.mp_depend.specs.work.Revisions.{IsKept};
ghost use Rattle.mp_depend.specs.work.Work.{block_of, IsEntry};
ghost use Rattle.mp_redo.specs.rerun.Entering.{AllWork, AllTasksWork, Enters};
ghost use Rattle.mp_redo.specs.rerun.Reruns.{IsChange};
ghost use Rattle.mp_redo.specs.rerun.Tasks.{AreKept, IsDone, IsTaskOf};
ghost use Rattle.mp_records.specs.declared.module_record.ModuleRecord.{ModuleRecord as Part};

use crate::rerun::join::{Join, JoiningState};
use crate::rerun::old_state::old_pieces;
use crate::rerun::rerun_context::RerunContext;
use mp_active::Change;
use mp_depend::{block_of, old_state};
use mp_model::built;
use mp_netlist::ModuleId;
use mp_phase::{Gate, run_here};
use std::alloc::{AllocError, Global};
use std::sync::Wait;
use std::thread::Threads;

/// The task of a module: what it did in the old run from its block's begin to before a time.
pub(crate) fn task_of(
    alloc: Global,
    change: &Change<'_>,
    id: ModuleId,
    time: u32,
    window_end: u32,
) -> Result<Join, AllocError>
    requires change { IsChange change.now }
    requires kept { (r : Part) × IsKept change.now.old.now change.now.new.now id.0 r }
    requires below { time < change.now.new.now.horizon }
    requires within { block_of change.now.new.now.horizon time < time }
    requires works { IsEntry change.now.old.now change.now.new.now id.0 (block_of change.now.new.now.horizon time) window_end }
    ensures is { IfOk result (IsTaskOf change.now.old.now time (block_of change.now.new.now.horizon time) window_end id) }
    ensures works { IfOk result (λ join. IsEntry change.now.old.now change.now.new.now join.«module».0 join.from join.window_end) }
{
    let Some(found) = change.new.module(id) else {
        unreachable!()
    };
    let block = block_of(change.new.horizon(), time);
    let inputs = old_pieces(alloc, change.run, found.inputs.as_slice(), block, time)?;
    Ok(Join {
        module: id,
        part: built(change.new, found),
        memory: old_state(change.run, id, block),
        inputs,
        from: block,
        to: time,
        window_end,
    })
}

/// A task for each of the listed modules.
pub(crate) fn tasks_of(
    alloc: Global,
    change: &Change<'_>,
    joining: &[ModuleId],
    time: u32,
    window_end: u32,
) -> Result<Vec<Join>, AllocError>
    requires change { IsChange change.now }
    requires kept { AreKept change.now.old.now change.now.new.now joining.now }
    requires below { time < change.now.new.now.horizon }
    requires within { block_of change.now.new.now.horizon time < time }
    requires work { AllWork change.now.old.now change.now.new.now (block_of change.now.new.now.horizon time) window_end joining.now }
    ensures are { IfOk result (λ tasks. AreDone (IsTaskOf change.now.old.now time (block_of change.now.new.now.horizon time) window_end) joining.now tasks.items) }
    ensures work { IfOk result (λ tasks. AllTasksWork change.now.old.now change.now.new.now tasks.items) }
{
    let mut tasks = Vec::with_capacity(alloc, joining.len())?;
    for id in joining {
        tasks.push(task_of(alloc, change, *id, time, window_end)?)?;
    }
    Ok(tasks)
}

/// The states to which the tasks come: on the threads of the crew if there are as many as it shares out, and otherwise on the calling thread.
pub(crate) fn states_by<R: Threads + Wait + Sync, G: Gate + Sync>(
    context: &RerunContext<'_, R, G>,
    tasks: Vec<Join>,
) -> Result<Vec<JoiningState>, AllocError>
    requires allowed { AreAllowed Enters (G.may context.now.gate.now) tasks.items }
    ensures { IfOk result (λ states. AreDone IsDone tasks.items states.items) }
{
    if tasks.len() < context.crew.least() as usize {
        return run_here(context.rt, context.alloc, context.gate, tasks);
    }
    context
        .crew
        .run(context.rt, context.alloc, context.gate, tasks)
}
