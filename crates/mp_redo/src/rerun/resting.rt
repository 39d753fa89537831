//! The state in which a module becomes active: the one that the old run has kept, if the inputs of the module have rested since.
ghost use Rattle.std.specs.Prelude.{◌≡◌};

use crate::rerun::join::JoiningState;
use crate::rerun::rerun::Rerun;
use crate::rerun::rerun_context::RerunContext;
use crate::rerun::tasks::task_of;
use mp_active::{Change, rests_near};
use mp_depend::{WorkEntry, block_of};
use mp_netlist::{Input, ModuleId, ModuleRecord};
use mp_partition::Run;
use mp_phase::{Gate, Work};
use std::alloc::AllocError;
use std::sync::Wait;

impl Rerun {
    ghost use Rattle.std.specs.Prelude.{◌≡◌, ◌<◌, ◌≤◌, true, false, All, IsTrue, IfOk};
    ghost use Rattle.mp_phase.specs.Allowed.{IsAllowed};
    ghost use Rattle.mp_depend.specs.work.Revisions.{IsKept};
    ghost use Rattle.mp_depend.specs.work.Work.{block_of, IsEntry};
    ghost use Rattle.mp_redo.specs.rerun.Reruns.{IsChange};
    ghost use Rattle.mp_redo.specs.rerun.Resting.{HasRested};
    ghost use Rattle.mp_redo.specs.rerun.Tasks.{IsJoiningState};

    /// The state of a module before the unit of a time in the old run. It passes the gate for all from its block's begin to the end of the window, and
    /// answers once more from that begin on, if its inputs haven't rested since then.
    pub(crate) fn joining_state<R: Wait, G: Gate>(
        &self,
        context: &RerunContext<'_, R, G>,
        change: &Change<'_>,
        id: ModuleId,
        found: &ModuleRecord,
        time: u32,
    ) -> Result<JoiningState, AllocError>
        requires allowed { IsAllowed (IsEntry change.now.old.now change.now.new.now) (G.may context.now.gate.now) }
        requires change { IsChange change.now }
        requires kept { IsKept change.now.old.now change.now.new.now id.0 found.now }
        requires below { time < change.now.new.now.horizon }
        requires works { IsEntry change.now.old.now change.now.new.now id.0 (block_of change.now.new.now.horizon time) self.now.window_end }
        ensures { IfOk result (IsJoiningState change.now.old.now time (block_of change.now.new.now.horizon time) self.now.window_end id) }
    {
        let block = block_of(change.new.horizon(), time);
        if self.is_in_kept_state(change, id, found, block, time) {
            let entry = WorkEntry {
                module: id,
                from: block,
                to: self.window_end,
            };
            return Ok(JoiningState::of_kept(context.rt, context.gate, change.run, entry));
        }
        let join = task_of(context.alloc, change, id, time, self.window_end)?;
        join.work(context.rt, context.alloc, context.gate)
    }

    /// Whether a module is known to be in the state of its block's begin before the unit of a time in the old run: the block begins with the unit, or
    /// the module's inputs have rested since then.
    fn is_in_kept_state(
        &self,
        change: &Change<'_>,
        id: ModuleId,
        found: &ModuleRecord,
        block: u32,
        time: u32,
    ) -> bool
        requires { block ≤ time }
        ensures some { result ≡ true → block < time → 0 < block }
        ensures rested { result ≡ true → block < time → All (HasRested change.now.run.now block time) found.now.inputs }
        ensures below { result ≡ false → block < time }
    {
        if block == time {
            return true;
        }
        if block == 0 {
            return false;
        }
        self.have_rested(change, id, found.inputs.as_slice(), block, time)
    }

    /// Whether what was at a module's inputs in the old run stays as it was right before a time up to before another.
    fn have_rested(
        &self,
        change: &Change<'_>,
        id: ModuleId,
        inputs: &[Input],
        from: u32,
        to: u32,
    ) -> bool
        requires some { 0 < from }
        requires within { from ≤ to }
        ensures { IsTrue result → All (HasRested change.now.run.now from to) inputs.now }
    {
        for (port, input) in inputs.iter().enumerate() {
            let near = self.input_place(id, port);
            if !has_rested(change.run, *input, near, from, to) {
                return false;
            }
        }
        true
    }

    /// A place near which the old changes are that come next at an input.
    fn input_place(&self, id: ModuleId, port: usize) -> usize {
        match self.inputs.get(id.0 as usize) {
            Some(numbers) => match numbers.get(port) {
                Some(Some(number)) => self.near_place(*number),
                _ => 0,
            },
            None => 0,
        }
    }

    /// A place near the next old change of a number. It is exact if the number is armed, and otherwise the last known place.
    pub(crate) fn near_place(&self, number: u32) -> usize {
        match self.comparison.places.get(number as usize) {
            Some(place) => *place as usize,
            None => 0,
        }
    }
}

ghost use Rattle.std.specs.Prelude.{◌<◌, ◌≤◌, IsTrue};
ghost use Rattle.mp_redo.specs.rerun.Resting.{HasRested};

/// Whether what was at an input in the old run stays as it was right before a time up to before another.
fn has_rested(run: &Run, input: Input, near: usize, from: u32, to: u32) -> bool
    requires some { 0 < from }
    requires within { from ≤ to }
    ensures { IsTrue result → HasRested run.now from to input }
{
    let first = (from - 1).saturating_sub(input.delay);
    let last = (to - 1).saturating_sub(input.delay);
    match run.wave(input.wire) {
        Some(wave) => rests_near(wave, near, first, last),
        None => true,
    }
}
