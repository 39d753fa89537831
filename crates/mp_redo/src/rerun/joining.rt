//! Which modules become active in a unit.
ghost use Rattle.std.specs.Prelude.{◌≡◌, ◌↔◌};
ghost use Rattle.std.specs.List.{Contains};
ghost use Rattle.mp_records.specs.declared.ids.ModuleId.{ModuleId as Id};
ghost use Rattle.mp_redo.specs.rerun.Joining.{AreByNumber};

use crate::rerun::coming::coming_changes;
use crate::rerun::following::list_due;
use crate::rerun::rerun::Rerun;
use mp_active::Change;
use mp_active::agreement::laws::{readers_agree, wires_agree};
use mp_active::compare::laws::runs_are_old;
use mp_depend::list_all_asleep;
use mp_netlist::ModuleId;
use std::alloc::AllocError;

impl Rerun {
    ghost use Rattle.std.specs.Prelude.{◌≡◌, ℕ, ◌+◌, ◌-◌, ◌<◌, [], OnOk};
    ghost use Rattle.mp_netlist.specs.Circuit.{Circuit, IsCircuit};
    ghost use Rattle.mp_partition.specs.runs.Outcomes.{Outcome};
    ghost use Rattle.mp_depend.specs.work.Revisions.{IsRevision};
    ghost use Rattle.mp_active.specs.compare.Comparing.{AreUnseen};
    ghost use Rattle.mp_redo.specs.rerun.Joining.{AreJoining, HasLooked, AreDeparting};
    ghost use Rattle.mp_redo.specs.rerun.Reruns.{IsChange, IsRerunAt, active_of};

    /// Lists the sleeping modules with an input that changes otherwise in the unit of a time than in the old run.
    pub(crate) fn find_joining(&mut self, change: &Change<'_>, time: u32) -> Result<(), AllocError>
        requires change { IsChange change.now }
        requires some { 0 < time }
        requires below { time < change.now.new.now.horizon }
        requires is { (latest : ℕ) × IsRerunAt change.now.old.now change.now.new.now change.now.run.now latest (time - 1) self.old }
        requires unseen { AreUnseen time self.old.comparison }
        ensures looked { OnOk result (HasLooked self.old self.new) }
        ensures is { OnOk result ((latest : ℕ) → IsRerunAt change.now.old.now change.now.new.now change.now.run.now latest (time - 1) self.old →
            IsRerunAt change.now.old.now change.now.new.now change.now.run.now latest (time - 1) self.new) }
        ensures unseen { OnOk result (AreUnseen (time + 1) self.new.comparison) }
        ensures joining { OnOk result (AreJoining change.now.old.now change.now.new.now (active_of self.old) time self.new.activity.joining.items) }
    {
        self.find_departing(change, time)?;
        self.list_readers()?;
        Ok(())
    }

    /// Gathers the numbers that modules read that sleep, and that have another level at a time than in the old run.
    fn find_departing(&mut self, change: &Change<'_>, time: u32) -> Result<(), AllocError>
        requires change { IsChange change.now }
        requires some { 0 < time }
        requires below { time < change.now.new.now.horizon }
        requires is { (latest : ℕ) × IsRerunAt change.now.old.now change.now.new.now change.now.run.now latest (time - 1) self.old }
        requires unseen { AreUnseen time self.old.comparison }
        ensures looked { OnOk result (HasLooked self.old self.new) }
        ensures joining { OnOk result (self.new.activity.joining ≡ self.old.activity.joining) }
        ensures is { OnOk result ((latest : ℕ) → IsRerunAt change.now.old.now change.now.new.now change.now.run.now latest (time - 1) self.old →
            IsRerunAt change.now.old.now change.now.new.now change.now.run.now latest (time - 1) self.new) }
        ensures unseen { OnOk result (AreUnseen (time + 1) self.new.comparison) }
        ensures departing { OnOk result (AreDeparting change.now.old.now change.now.new.now time self.new) }
    {
        runs_are_old();
        wires_agree();
        readers_agree();
        self.set.bits.clear();
        self.set.levels.clear();
        list_due(
            self.stimuli.list.as_slice(),
            self.stimuli.place,
            time,
            &mut self.set,
        )?;
        list_due(
            self.pending_outputs.list.as_slice(),
            self.pending_outputs.place,
            time,
            &mut self.set,
        )?;
        let coming = coming_changes(&self.simulation, &self.set);
        self.comparison.find_departing(change.run, &coming, time)?;
        Ok(())
    }

    /// Lists the modules that sleep and read a number that departs, each once.
    fn list_readers(&mut self) -> Result<(), AllocError>
        requires { (old : Circuit) × (new : Circuit) × (run : Outcome) × (latest : ℕ) × (t : ℕ) × IsRerunAt old new run latest t self.old × AreDeparting old new (t + 1) self.old }
        ensures looked { OnOk result (HasLooked self.old self.new) }
        ensures kept { OnOk result (self.new ≡ record self.old { activity = self.new.activity }) }
        ensures joining { OnOk result ((old new : Circuit) (run : Outcome) (latest t : ℕ) → IsCircuit old → IsCircuit new → IsRevision old new → IsRerunAt old new run latest t self.old → AreDeparting old new (t + 1) self.old →
            AreJoining old new (active_of self.old) (t + 1) self.new.activity.joining.items) }
    {
        readers_agree();
        self.activity.joining.clear();
        for place in 0..self.comparison.departing.len() {
            let number = self.comparison.departing[place];
            list_all_asleep(
                self.simulation.bits.simulator.fanout.of(number),
                self.activity.active.as_slice(),
                &mut self.activity.joining,
            )?;
        }
        list_once(&mut self.activity.joining);
        Ok(())
    }
}

/// Each of the listed modules stays listed once, by number.
fn list_once(ids: &mut Vec<ModuleId>)
    ensures same { (id : Id) → Contains ids.new.items id ↔ Contains ids.old.items id }
    ensures once { AreByNumber ids.new.items }
{
    ids.sort_unstable_by_key(|id| id.0);
    ids.dedup();
}
