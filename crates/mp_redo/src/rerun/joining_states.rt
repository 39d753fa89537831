//! The states in which modules become active.
ghost use Rattle.std.specs.Prelude.{◌≡◌};

use crate::rerun::join::JoiningState;
use crate::rerun::rerun::Rerun;
use crate::rerun::rerun_context::RerunContext;
use crate::rerun::tasks::{states_by, tasks_of};
use mp_active::Change;
use mp_depend::{WorkEntry, block_of};
use mp_phase::Gate;
use std::alloc::AllocError;
use std::sync::Wait;
use std::thread::Threads;

impl Rerun {
    ghost use Rattle.std.specs.Prelude.{◌≡◌, ◌<◌, IfOk};
    ghost use Rattle.mp_phase.specs.Allowed.{IsAllowed};
    ghost use Rattle.mp_phase.specs.Phase.{AreDone};
    ghost use Rattle.mp_depend.specs.work.Work.{block_of, IsEntry};
    ghost use Rattle.mp_redo.specs.rerun.Entering.{AllWork};
    ghost use Rattle.mp_redo.specs.rerun.Reruns.{IsChange};
    ghost use Rattle.mp_redo.specs.rerun.Tasks.{AreKept, IsJoiningState};

    /// The states in the old run, before the unit of a time, of the modules that join. Each passes the gate for all from its block's begin to the end
    /// of the window. If the block begins before the unit, modules answer once more up to it, on the threads of the crew if they are as many as it
    /// shares out.
    pub(crate) fn joining_states<R: Threads + Wait + Sync, G: Gate + Sync>(
        &self,
        context: &RerunContext<'_, R, G>,
        change: &Change<'_>,
        time: u32,
    ) -> Result<Vec<JoiningState>, AllocError>
        requires allowed { IsAllowed (IsEntry change.now.old.now change.now.new.now) (G.may context.now.gate.now) }
        requires change { IsChange change.now }
        requires kept { AreKept change.now.old.now change.now.new.now self.now.activity.joining.items }
        requires below { time < change.now.new.now.horizon }
        requires work { AllWork change.now.old.now change.now.new.now (block_of change.now.new.now.horizon time) self.now.window_end self.now.activity.joining.items }
        ensures { IfOk result (λ states. AreDone (IsJoiningState change.now.old.now time (block_of change.now.new.now.horizon time) self.now.window_end) self.now.activity.joining.items states.items) }
    {
        if block_of(change.new.horizon(), time) == time {
            return self.kept_states(context, change, time);
        }
        let joining = self.activity.joining.as_slice();
        let tasks = tasks_of(context.alloc, change, joining, time, self.window_end)?;
        states_by(context, tasks)
    }

    /// The states that the old run kept of the modules that join, if a block begins with the unit.
    fn kept_states<R: Wait, G: Gate>(
        &self,
        context: &RerunContext<'_, R, G>,
        change: &Change<'_>,
        time: u32,
    ) -> Result<Vec<JoiningState>, AllocError>
        requires allowed { IsAllowed (IsEntry change.now.old.now change.now.new.now) (G.may context.now.gate.now) }
        requires change { IsChange change.now }
        requires kept { AreKept change.now.old.now change.now.new.now self.now.activity.joining.items }
        requires below { time < change.now.new.now.horizon }
        requires work { AllWork change.now.old.now change.now.new.now (block_of change.now.new.now.horizon time) self.now.window_end self.now.activity.joining.items }
        requires begins { block_of change.now.new.now.horizon time ≡ time }
        ensures { IfOk result (λ states. AreDone (IsJoiningState change.now.old.now time (block_of change.now.new.now.horizon time) self.now.window_end) self.now.activity.joining.items states.items) }
    {
        let mut states = Vec::with_capacity(context.alloc, self.activity.joining.len())?;
        for place in 0..self.activity.joining.len() {
            let id = self.activity.joining[place];
            let entry = WorkEntry {
                module: id,
                from: time,
                to: self.window_end,
            };
            let state = JoiningState::of_kept(context.rt, context.gate, change.run, entry);
            states.push(state)?;
        }
        Ok(states)
    }
}
