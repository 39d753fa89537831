//! Modules fall asleep between two units.
ghost use Rattle.std.specs.Prelude.{◌≡◌};

use crate::rerun::rerun::Rerun;
use mp_active::{Change, put_to_sleep, take_changes};
use mp_netlist::{ModuleId, ModuleRecord};
use mp_simulation::HeardChanges;
use std::alloc::AllocError;

impl Rerun {
    ghost use Rattle.std.specs.Prelude.{◌≡◌, ℕ, ◌+◌, ◌-◌, ◌<◌, ◌≤◌, ◌^◌, true, Some, IsSome, IfOk, OnOk, length};
    ghost use Rattle.mp_records.specs.declared.module_record.ModuleRecord.{ModuleRecord as Part};
    ghost use Rattle.mp_netlist.specs.Circuit.{module_at};
    ghost use Rattle.mp_depend.specs.recording.Recorders.{CanLeave as CanLeaveHistory};
    ghost use Rattle.mp_partition.specs.runs.Checkpoints.{IsBorder};
    ghost use Rattle.mp_depend.specs.recording.Recorders.{IsRecorder};
    ghost use Rattle.mp_redo.specs.rerun.Leaving.{CanLeave, CanFallAsleep, HasFallenAsleep, HasLeftOne, HasTakenTails, HaveLeft};
    ghost use Rattle.mp_redo.specs.rerun.Reruns.{IsChange, IsRerunAt, active_of};

    /// Active modules fall asleep before a border. Their states are those of the old run. What they have decided of their wires is a tail from
    /// now on, and their work spans of work end.
    pub(crate) fn put_to_sleep(
        &mut self,
        change: &Change<'_>,
        leaving: &[ModuleId],
        time: u32,
    ) -> Result<(), AllocError>
        requires change { IsChange change.now }
        requires border { IsBorder change.now.new.now.horizon time }
        requires some { 0 < time }
        requires below { time < change.now.new.now.horizon }
        requires is { (latest : ℕ) × (latest ≤ time) × IsRerunAt change.now.old.now change.now.new.now change.now.run.now latest (time - 1) self.old }
        requires can { CanLeave change.now.old.now change.now.new.now time leaving.now self.old }
        requires recorder { IsRecorder change.now.old.now change.now.new.now change.now.run.now (λ m. time) time (active_of self.old) self.old.recorder }
        ensures left { OnOk result (HaveLeft leaving.now self.old self.new) }
        ensures is { OnOk result (IsRerunAt change.now.old.now change.now.new.now change.now.run.now time (time - 1) self.new) }
        ensures recorder { OnOk result (IsRecorder change.now.old.now change.now.new.now change.now.run.now (λ m. time) time (active_of self.new) self.new.recorder) }
    {
        let mut units = 0;
        for id in leaving {
            let most = self.leave_one(change, *id, time)?;
            units = most.max(units);
        }
        self.take_tails(units, time)?;
        Ok(())
    }

    /// A module falls asleep before the unit of a time, and its work span of work ends. It returns the longest delay of its outputs, or 0 if it
    /// sleeps already.
    fn leave_one(&mut self, change: &Change<'_>, id: ModuleId, time: u32) -> Result<u32, AllocError>
        requires places { length self.old.activity.active.items ≡ length change.now.new.now.modules }
        requires can { (r : Part) → module_at change.now.new.now id.0 ≡ Some r → active_of self.old id.0 ≡ true → CanFallAsleep change.now.run.now id.0 time r self.old }
        requires leaves { IsSome (module_at change.now.new.now id.0) → active_of self.old id.0 ≡ true → CanLeaveHistory self.old.recorder id.0 time }
        ensures { IfOk result (λ units. HasLeftOne change.now.new.now change.now.run.now id.0 time units self.old self.new) }
    {
        let Some(found) = change.new.module(id) else {
            return Ok(0);
        };
        if !self.activity.active[id.0 as usize] {
            return Ok(0);
        }
        self.fall_asleep(change, id, found, time)?;
        self.recorder.leave(id, time);
        Ok(longest(found))
    }

    /// A module falls asleep before the unit of a time.
    fn fall_asleep(
        &mut self,
        change: &Change<'_>,
        id: ModuleId,
        found: &ModuleRecord,
        time: u32,
    ) -> Result<(), AllocError>
        requires { CanFallAsleep change.now.run.now id.0 time found.now self.old }
        ensures { OnOk result (HasFallenAsleep change.now.run.now id.0 time found.now self.old self.new) }
    {
        self.activity.active[id.0 as usize] = false;
        put_to_sleep(&mut self.simulation, id.0);
        self.comparison.fall_asleep(
            change.run,
            &self.inputs[id.0 as usize],
            found.outputs.as_slice(),
            time,
        )?;
        Ok(())
    }

    /// Moves the changes that the wheels have within this number of units, of wires that no active module drives, to the pending outputs.
    fn take_tails(&mut self, units: u32, time: u32) -> Result<(), AllocError>
        requires { time + units < 2 ^ 32 }
        ensures { OnOk result (HasTakenTails units time self.old self.new) }
    {
        let alloc = *self.pending_outputs.list.allocator();
        let mut pending_outputs = Vec::new(alloc);
        for place in self.pending_outputs.place..self.pending_outputs.list.len() {
            pending_outputs.push(self.pending_outputs.list[place])?;
        }
        let sources = self.comparison.sources.as_slice();
        take_changes(
            &mut self.simulation,
            sources,
            units,
            time,
            &mut pending_outputs,
        )?;
        self.pending_outputs = HeardChanges::of(pending_outputs);
        Ok(())
    }
}

ghost use Rattle.std.specs.Prelude.{ℕ, ◌≤◌, All};
ghost use Rattle.mp_records.specs.declared.ports.Output.{Output as Port};

/// The longest delay of a module's outputs.
fn longest(found: &ModuleRecord) -> u32
    ensures all { All (λ (o : Port). o.delay ≤ result) found.now.outputs }
    ensures most { (bound : ℕ) → All (λ (o : Port). o.delay ≤ bound) found.now.outputs → result ≤ bound }
{
    let mut longest = 0;
    for output in found.outputs.as_slice() {
        longest = output.delay.max(longest);
    }
    longest
}
