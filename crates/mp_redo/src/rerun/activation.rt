//! Modules become active.
ghost use Rattle.std.specs.Prelude.{◌≡◌};

use crate::rerun::join::JoiningState;
use crate::rerun::rerun::Rerun;
use crate::rerun::rerun_context::RerunContext;
use mp_active::Change;
use mp_active::agreement::laws::sleepers_agree;
use mp_model::built;
use mp_netlist::{ModuleId, ModuleRecord};
use mp_phase::Gate;
use std::alloc::AllocError;
use std::sync::Wait;
use std::thread::Threads;

impl Rerun {
    ghost use Rattle.std.specs.Prelude.{◌≡◌, ℕ, ◌+◌, ◌-◌, ◌<◌, ◌++◌, ◌∷◌, [], true, false, Some, IsSome, OnOk};
    ghost use Rattle.std.specs.List.{Contains};
    ghost use Rattle.mp_netlist.specs.Circuit.{module_at};
    ghost use Rattle.mp_partition.specs.runs.Checkpoints.{state_before};
    ghost use Rattle.mp_phase.specs.Allowed.{IsAllowed};
    ghost use Rattle.mp_depend.specs.work.Work.{block_of, IsEntry};
    ghost use Rattle.mp_depend.specs.recording.Live.{HaveBecomeLive};
    ghost use Rattle.mp_active.specs.excerpt.Numberings.{Numbering};
    ghost use Rattle.mp_redo.specs.rerun.Entering.{AllWork};
    ghost use Rattle.mp_redo.specs.rerun.Joining.{HaveJoined};
    ghost use Rattle.mp_redo.specs.rerun.Joins.{IsFor};
    ghost use Rattle.mp_redo.specs.rerun.Reruns.{IsChange, IsRerunBy, IsRerunAt, active_of};
    ghost use Rattle.mp_redo.specs.rerun.Returning.{HasReturned, IsToldAwake};
    ghost use Rattle.mp_redo.specs.rerun.Waking.{HasWoken, HaveWoken};

    /// The modules that join become active before the unit of a time. Each passes the gate for all from its block's begin to the end of its window,
    /// on the threads of the crew if they answer once more for units of the block and are as many as it shares out.
    pub(crate) fn activate_all<R: Threads + Wait + Sync, G: Gate + Sync>(
        &mut self,
        context: &RerunContext<'_, R, G>,
        change: &Change<'_>,
        time: u32,
    ) -> Result<(), AllocError>
        requires allowed { IsAllowed (IsEntry change.now.old.now change.now.new.now) (G.may context.now.gate.now) }
        requires change { IsChange change.now }
        requires some { 0 < time }
        requires below { time < change.now.new.now.horizon }
        requires is { (latest : ℕ) × IsRerunAt change.now.old.now change.now.new.now change.now.run.now latest (time - 1) self.old }
        requires stand { (m : ℕ) → Contains self.old.activity.joining.items (record { 0 = m }) → IsSome (module_at change.now.new.now m) }
        requires asleep { (m : ℕ) → Contains self.old.activity.joining.items (record { 0 = m }) → active_of self.old m ≡ false }
        requires work { AllWork change.now.old.now change.now.new.now (block_of change.now.new.now.horizon time) self.old.window_end self.old.activity.joining.items }
        ensures is { OnOk result ((latest : ℕ) → IsRerunAt change.now.old.now change.now.new.now change.now.run.now latest (time - 1) self.old →
            IsRerunAt change.now.old.now change.now.new.now change.now.run.now latest (time - 1) self.new) }
        ensures woken { OnOk result (HaveWoken self.old self.new) }
        ensures active { OnOk result (HaveBecomeLive change.now.new.now self.old.activity.joining.items (active_of self.old) (active_of self.new)) }
        ensures joined { OnOk result (HaveJoined self.old.activity.joining.items self.old.activity.joined.items self.new.activity.joined.items) }
    {
        if self.activity.joining.len() < context.crew.least() as usize {
            return self.activate_few(context, change, time);
        }
        self.activate_many(context, change, time)
    }

    /// Activates few modules: each is active before the next one's state is found.
    fn activate_few<R: Wait, G: Gate>(
        &mut self,
        context: &RerunContext<'_, R, G>,
        change: &Change<'_>,
        time: u32,
    ) -> Result<(), AllocError>
        requires allowed { IsAllowed (IsEntry change.now.old.now change.now.new.now) (G.may context.now.gate.now) }
        requires change { IsChange change.now }
        requires some { 0 < time }
        requires below { time < change.now.new.now.horizon }
        requires is { (latest : ℕ) × IsRerunAt change.now.old.now change.now.new.now change.now.run.now latest (time - 1) self.old }
        requires stand { (m : ℕ) → Contains self.old.activity.joining.items (record { 0 = m }) → IsSome (module_at change.now.new.now m) }
        requires asleep { (m : ℕ) → Contains self.old.activity.joining.items (record { 0 = m }) → active_of self.old m ≡ false }
        requires work { AllWork change.now.old.now change.now.new.now (block_of change.now.new.now.horizon time) self.old.window_end self.old.activity.joining.items }
        ensures is { OnOk result ((latest : ℕ) → IsRerunAt change.now.old.now change.now.new.now change.now.run.now latest (time - 1) self.old →
            IsRerunAt change.now.old.now change.now.new.now change.now.run.now latest (time - 1) self.new) }
        ensures woken { OnOk result (HaveWoken self.old self.new) }
        ensures active { OnOk result (HaveBecomeLive change.now.new.now self.old.activity.joining.items (active_of self.old) (active_of self.new)) }
        ensures joined { OnOk result (HaveJoined self.old.activity.joining.items self.old.activity.joined.items self.new.activity.joined.items) }
    {
        for place in 0..self.activity.joining.len() {
            let id = self.activity.joining[place];
            if let Some(found) = change.new.module(id) {
                if !self.activity.active[id.0 as usize] {
                    self.activate_one(context, change, id, found, time)?;
                }
            }
        }
        Ok(())
    }

    /// A module passes the gate and becomes active before the unit of a time. Up to then it has slept.
    fn activate_one<R: Wait, G: Gate>(
        &mut self,
        context: &RerunContext<'_, R, G>,
        change: &Change<'_>,
        id: ModuleId,
        found: &ModuleRecord,
        time: u32,
    ) -> Result<(), AllocError>
        requires allowed { IsAllowed (IsEntry change.now.old.now change.now.new.now) (G.may context.now.gate.now) }
        requires change { IsChange change.now }
        requires some { 0 < time }
        requires below { time < change.now.new.now.horizon }
        requires stands { module_at change.now.new.now id.0 ≡ Some found.now }
        requires asleep { active_of self.old id.0 ≡ false }
        requires is { (latest : ℕ) × IsRerunAt change.now.old.now change.now.new.now change.now.run.now latest (time - 1) self.old }
        requires works { IsEntry change.now.old.now change.now.new.now id.0 (block_of change.now.new.now.horizon time) self.old.window_end }
        ensures is { OnOk result ((latest : ℕ) → IsRerunAt change.now.old.now change.now.new.now change.now.run.now latest (time - 1) self.old →
            IsRerunAt change.now.old.now change.now.new.now change.now.run.now latest (time - 1) self.new) }
        ensures woken { OnOk result (HasWoken id.0 self.old self.new) }
        ensures joined { OnOk result (self.new.activity.joined.items ≡ self.old.activity.joined.items ++ id ∷ []) }
    {
        let state = self.joining_state(context, change, id, found, time)?;
        self.activate(change, id, found, &state, time)
    }

    /// Activates as many modules as the crew shares out: their states are found first, as tasks.
    fn activate_many<R: Threads + Wait + Sync, G: Gate + Sync>(
        &mut self,
        context: &RerunContext<'_, R, G>,
        change: &Change<'_>,
        time: u32,
    ) -> Result<(), AllocError>
        requires allowed { IsAllowed (IsEntry change.now.old.now change.now.new.now) (G.may context.now.gate.now) }
        requires change { IsChange change.now }
        requires some { 0 < time }
        requires below { time < change.now.new.now.horizon }
        requires is { (latest : ℕ) × IsRerunAt change.now.old.now change.now.new.now change.now.run.now latest (time - 1) self.old }
        requires stand { (m : ℕ) → Contains self.old.activity.joining.items (record { 0 = m }) → IsSome (module_at change.now.new.now m) }
        requires asleep { (m : ℕ) → Contains self.old.activity.joining.items (record { 0 = m }) → active_of self.old m ≡ false }
        requires work { AllWork change.now.old.now change.now.new.now (block_of change.now.new.now.horizon time) self.old.window_end self.old.activity.joining.items }
        ensures is { OnOk result ((latest : ℕ) → IsRerunAt change.now.old.now change.now.new.now change.now.run.now latest (time - 1) self.old →
            IsRerunAt change.now.old.now change.now.new.now change.now.run.now latest (time - 1) self.new) }
        ensures woken { OnOk result (HaveWoken self.old self.new) }
        ensures active { OnOk result (HaveBecomeLive change.now.new.now self.old.activity.joining.items (active_of self.old) (active_of self.new)) }
        ensures joined { OnOk result (HaveJoined self.old.activity.joining.items self.old.activity.joined.items self.new.activity.joined.items) }
    {
        let states = self.joining_states(context, change, time)?;
        for place in 0..self.activity.joining.len() {
            let id = self.activity.joining[place];
            if let Some(found) = change.new.module(id) {
                if !self.activity.active[id.0 as usize] {
                    self.activate(change, id, found, &states[place], time)?;
                }
            }
        }
        Ok(())
    }

    /// A module becomes active before the unit of a time, in its state of the old run. Up to then it has slept. It has passed the gate for its entry.
    fn activate(
        &mut self,
        change: &Change<'_>,
        id: ModuleId,
        found: &ModuleRecord,
        state: &JoiningState,
        time: u32,
    ) -> Result<(), AllocError>
        requires change { IsChange change.now }
        requires some { 0 < time }
        requires below { time < change.now.new.now.horizon }
        requires stands { module_at change.now.new.now id.0 ≡ Some found.now }
        requires asleep { active_of self.old id.0 ≡ false }
        requires entry { IsFor id (block_of change.now.new.now.horizon time) self.old.window_end state.now.entry }
        requires state { state.now.memory ≡ state_before change.now.old.now id.0 found.now time }
        requires is { (latest : ℕ) × IsRerunAt change.now.old.now change.now.new.now change.now.run.now latest (time - 1) self.old }
        ensures is { OnOk result ((latest : ℕ) → IsRerunAt change.now.old.now change.now.new.now change.now.run.now latest (time - 1) self.old →
            IsRerunAt change.now.old.now change.now.new.now change.now.run.now latest (time - 1) self.new) }
        ensures woken { OnOk result (HasWoken id.0 self.old self.new) }
        ensures joined { OnOk result (self.new.activity.joined.items ≡ self.old.activity.joined.items ++ id ∷ []) }
    {
        sleepers_agree();
        let part = built(change.new, found);
        self.turn_ports_on(change, id, found, time - 1)?;
        self.seat(change, id, found, &part, &state.memory)?;
        self.put_outputs(change, id, found, time - 1)?;
        self.tell_awake(change, id, found, time - 1)?;
        Ok(())
    }

    /// Marks a module as active after the unit of a time; it is active in the simulation already.
    fn tell_awake(
        &mut self,
        change: &Change<'_>,
        id: ModuleId,
        found: &ModuleRecord,
        now: u32,
    ) -> Result<(), AllocError>
        requires change { IsChange change.now }
        requires stands { module_at change.now.new.now id.0 ≡ Some found.now }
        requires below { now + 1 < change.now.new.now.horizon }
        requires returned { (numbering : Numbering) × (since : ℕ → ℕ) × HasReturned change.now.old.now change.now.new.now change.now.run.now numbering since now id.0 self.old }
        ensures is { OnOk result ((numbering : Numbering) (since : ℕ → ℕ) → HasReturned change.now.old.now change.now.new.now change.now.run.now numbering since now id.0 self.old →
            IsRerunBy change.now.old.now change.now.new.now change.now.run.now numbering since now self.new) }
        ensures told { OnOk result (IsToldAwake id.0 self.old self.new) }
        ensures joined { OnOk result (self.new.activity.joined.items ≡ self.old.activity.joined.items ++ id ∷ []) }
    {
        self.comparison.wake(
            change.run,
            &self.inputs[id.0 as usize],
            found.outputs.as_slice(),
            now,
        )?;
        self.activity.active[id.0 as usize] = true;
        self.activity.joined.push(id)?;
        Ok(())
    }
}
