//! The border between two blocks: states are kept, and modules whose states are those of the old run again fall asleep.
ghost use Rattle.std.specs.Prelude.{◌≡◌};

use crate::rerun::rerun::Rerun;
use mp_active::Change;
use mp_depend::is_old_state;
use mp_netlist::ModuleId;
use std::alloc::AllocError;

impl Rerun {
    ghost use Rattle.std.specs.Prelude.{◌≡◌, ◌⊎◌, ◌↔◌, ℕ, ◌+◌, ◌-◌, ◌<◌, ◌≤◌, [], true, IsSome, IsTrue, OnOk};
    ghost use Rattle.std.specs.List.{Contains};
    ghost use Rattle.mp_netlist.specs.Circuit.{module_at};
    ghost use Rattle.mp_partition.specs.runs.Checkpoints.{IsBorder};
    ghost use Rattle.mp_depend.specs.recording.Recorders.{IsRecorder};
    ghost use Rattle.mp_depend.specs.recording.Live.{IsWorking};
    ghost use Rattle.mp_redo.specs.rerun.Leaving.{CanLeaveAt, CanLeave};
    ghost use Rattle.mp_redo.specs.rerun.Reruns.{IsChange, IsRerunAt, active_of};
    ghost use Rattle.mp_redo.specs.rerun.Windows.{AreTouched, IsAtWindow};
    ghost use Rattle.mp_depend.specs.work.Work.{block_of};

    /// From one block to the next: the states of active modules before the border are kept, and an untouched one whose state is the one that
    /// the old run kept falls asleep.
    pub(crate) fn at_checkpoint(&mut self, change: &Change<'_>, time: u32) -> Result<(), AllocError>
        requires change { IsChange change.now }
        requires border { IsBorder change.now.new.now.horizon time }
        requires some { 0 < time }
        requires below { time < change.now.new.now.horizon }
        requires before { IsAtWindow change.now.old.now change.now.new.now change.now.run.now (block_of change.now.new.now.horizon (time - 1)) (time - 1) self.old }
        ensures { OnOk result (IsAtWindow change.now.old.now change.now.new.now change.now.run.now time (time - 1) self.new) }
    {
        self.keep_states(change, time)?;
        let alloc = *self.activity.joined.allocator();
        let mut leaving = Vec::new(alloc);
        self.find_leaving(change, time, &mut leaving)?;
        if leaving.is_empty() {
            return Ok(());
        }
        self.put_to_sleep(change, leaving.as_slice(), time)?;
        self.recorder.list_live();
        Ok(())
    }

    /// The states of active modules before a border are kept.
    fn keep_states(&mut self, change: &Change<'_>, time: u32) -> Result<(), AllocError>
        requires change { IsChange change.now }
        requires border { IsBorder change.now.new.now.horizon time }
        requires some { 0 < time }
        requires below { time < change.now.new.now.horizon }
        requires before { IsAtWindow change.now.old.now change.now.new.now change.now.run.now (block_of change.now.new.now.horizon (time - 1)) (time - 1) self.old }
        ensures kept { OnOk result (self.new ≡ record self.old { recorder = self.new.recorder }) }
        ensures recorder { OnOk result (IsRecorder change.now.old.now change.now.new.now change.now.run.now (λ m. time) time (active_of self.old) self.new.recorder) }
    {
        for place in 0..self.recorder.live().len() {
            let id = self.recorder.live()[place];
            if self.is_at_work(change, id) {
                let memory = self.simulation.memory(id.0);
                self.recorder.keep(id, time, memory)?;
            }
        }
        Ok(())
    }

    /// Lists the active modules that weren't touched and are in the state of the old run before a border. All other active modules continue to work
    /// after it.
    fn find_leaving(
        &self,
        change: &Change<'_>,
        time: u32,
        leaving: &mut Vec<ModuleId>,
    ) -> Result<(), AllocError>
        requires change { IsChange change.now }
        requires border { IsBorder change.now.new.now.horizon time }
        requires some { 0 < time }
        requires below { time < change.now.new.now.horizon }
        requires is { (latest : ℕ) × IsRerunAt change.now.old.now change.now.new.now change.now.run.now latest (time - 1) self.now }
        requires touched { AreTouched change.now.old.now change.now.new.now self.now.activity.touched.items }
        requires none { leaving.old.items ≡ [] }
        ensures can { OnOk result (CanLeave change.now.old.now change.now.new.now time leaving.new.items self.now) }
        ensures others { OnOk result ((m : ℕ) → Contains self.now.recorder.live.items (record { 0 = m }) → IsSome (module_at change.now.new.now m) → active_of self.now m ≡ true →
            Contains leaving.new.items (record { 0 = m }) ⊎ IsWorking change.now.old.now change.now.new.now time m time) }
    {
        for id in self.recorder.live() {
            if self.is_back(change, *id, time) {
                leaving.push(*id)?;
            }
        }
        Ok(())
    }

    /// Whether a module is active, wasn't touched, and is in the state of the old run before a border.
    fn is_back(&self, change: &Change<'_>, id: ModuleId, time: u32) -> bool
        requires change { IsChange change.now }
        requires border { IsBorder change.now.new.now.horizon time }
        requires some { 0 < time }
        requires below { time < change.now.new.now.horizon }
        requires is { (latest : ℕ) × IsRerunAt change.now.old.now change.now.new.now change.now.run.now latest (time - 1) self.now }
        requires touched { AreTouched change.now.old.now change.now.new.now self.now.activity.touched.items }
        ensures can { IsTrue result → CanLeaveAt change.now.old.now change.now.new.now time self.now id.0 }
        ensures others { IsSome (module_at change.now.new.now id.0) → active_of self.now id.0 ≡ true → IsTrue result ⊎ IsWorking change.now.old.now change.now.new.now time id.0 time }
    {
        if !self.is_at_work(change, id) {
            return false;
        }
        if self.activity.touched[id.0 as usize] {
            return false;
        }
        is_old_state(change.run, id, time, self.simulation.memory(id.0))
    }

    /// Whether a module exists and is active.
    pub(crate) fn is_at_work(&self, change: &Change<'_>, id: ModuleId) -> bool
        ensures { IsTrue result ↔ (IsSome (module_at change.now.new.now id.0) × (active_of self.now id.0 ≡ true)) }
    {
        match (
            change.new.module(id),
            self.activity.active.get(id.0 as usize),
        ) {
            (Some(_), Some(mark)) => *mark,
            _ => false,
        }
    }
}
