//! A unit of a netlist that is evaluated again.
ghost use Rattle.std.specs.Prelude.{◌≡◌};

use crate::rerun::entered_window::EnteredWindow;
use crate::rerun::rerun::Rerun;
use crate::rerun::rerun_context::RerunContext;
use mp_active::Change;
use mp_phase::Gate;
use std::alloc::AllocError;
use std::sync::Wait;
use std::thread::Threads;

impl Rerun {
    ghost use Rattle.std.specs.Prelude.{◌≡◌, ℕ, ◌+◌, ◌-◌, ◌<◌, ◌≤◌, ◌^◌, OnOk};
    ghost use Rattle.mp_netlist.specs.Circuit.{Circuit, IsCircuit};
    ghost use Rattle.mp_phase.specs.Allowed.{IsAllowed};
    ghost use Rattle.mp_simulation.specs.units.NetlistSimulations.{IsSimulated, IsStill, AreStimuli, CanPass, HasKeptNumbers};
    ghost use Rattle.mp_redo.specs.rerun.Idle.{IsUnset, IsQuiet};
    ghost use Rattle.mp_redo.specs.rerun.Reruns.{IsChange};
    ghost use Rattle.mp_redo.specs.rerun.Windows.{IsUnderWay};
    ghost use Rattle.mp_depend.specs.work.Work.{IsEntry};

    /// Runs the unit of a time in the present window: modules whose inputs differ from the old run become active, wires that no active module drives
    /// change, and active modules answer.
    pub(crate) fn pass_unit<R: Threads + Wait + Sync, G: Gate + Sync>(
        &mut self,
        context: &RerunContext<'_, R, G>,
        change: &Change<'_>,
        time: u32,
        entered: EnteredWindow,
    ) -> Result<(), AllocError>
        requires allowed { IsAllowed (IsEntry change.now.old.now change.now.new.now) (G.may context.now.gate.now) }
        requires change { IsChange change.now }
        requires some { 0 < time }
        requires below { time < change.now.new.now.horizon }
        requires within { time < self.old.window_end }
        requires entered { time < entered.end }
        requires before { IsUnderWay change.now.old.now change.now.new.now change.now.run.now (time - 1) self.old }
        ensures end { OnOk result (self.new.window_end ≡ self.old.window_end) }
        ensures after { OnOk result (IsUnderWay change.now.old.now change.now.new.now change.now.run.now time self.new) }
    {
        if self.is_quiet(change, time) {
            self.pass_quiet(change, time, entered)?;
            return Ok(());
        }
        self.find_joining(change, time)?;
        self.activate_all(context, change, time)?;
        self.set_wires(change, time)?;
        self.run_unit(time, entered)?;
        Ok(())
    }

    /// Goes through the units from a time on in which nothing changes, as far as the present window goes, and gives the time of the next unit.
    pub(crate) fn pass_still(&mut self, change: &Change<'_>, from: u32) -> u32
        requires change { IsChange change.now }
        requires some { 0 < from }
        requires within { from < self.old.window_end }
        requires before { IsUnderWay change.now.old.now change.now.new.now change.now.run.now (from - 1) self.old }
        ensures later { from ≤ result }
        ensures end { self.new.window_end ≡ self.old.window_end }
        ensures within { result ≤ self.new.window_end }
        ensures after { IsUnderWay change.now.old.now change.now.new.now change.now.run.now (result - 1) self.new }
    {
        let end = self.window_end;
        let mut time = from;
        while time < end && self.is_still(change, time) {
            self.skip_unit(change, time);
            time += 1;
        }
        time
    }

    /// Goes through the unit of a time in which nothing changes.
    #[inline(always)]
    fn skip_unit(&mut self, change: &Change<'_>, time: u32)
        requires change { IsChange change.now }
        requires some { 0 < time }
        requires below { time < change.now.new.now.horizon }
        requires within { time < self.old.window_end }
        requires unset { IsUnset time self.old }
        requires still { IsStill self.old.simulation }
        requires before { IsUnderWay change.now.old.now change.now.new.now change.now.run.now (time - 1) self.old }
        ensures end { self.new.window_end ≡ self.old.window_end }
        ensures after { IsUnderWay change.now.old.now change.now.new.now change.now.run.now time self.new }
    {
        self.set_nothing(change, time);
        self.simulation.skip_unit();
    }

    /// Goes through the unit of a time in which nothing is set, and no module joins.
    fn pass_quiet(
        &mut self,
        change: &Change<'_>,
        time: u32,
        entered: EnteredWindow,
    ) -> Result<(), AllocError>
        requires change { IsChange change.now }
        requires some { 0 < time }
        requires below { time < change.now.new.now.horizon }
        requires within { time < self.old.window_end }
        requires entered { time < entered.end }
        requires quiet { IsQuiet time self.old }
        requires before { IsUnderWay change.now.old.now change.now.new.now change.now.run.now (time - 1) self.old }
        ensures end { OnOk result (self.new.window_end ≡ self.old.window_end) }
        ensures after { OnOk result (IsUnderWay change.now.old.now change.now.new.now change.now.run.now time self.new) }
    {
        self.set_nothing(change, time);
        self.run_unit(time, entered)?;
        Ok(())
    }

    /// What is set changes in the unit of a time, and active modules answer. The unit's window has to have been entered.
    fn run_unit(&mut self, time: u32, _entered: EnteredWindow) -> Result<(), AllocError>
        requires entered { time < _entered.end }
        requires fit { CanPass self.old.set.bits.items self.old.set.levels.items time self.old.simulation }
        requires low { time < 2 ^ 32 - 1 }
        ensures kept { OnOk result (self.new ≡ record self.old { simulation = self.new.simulation }) }
        ensures numbers { OnOk result (HasKeptNumbers self.old.simulation self.new.simulation) }
        ensures simulated { OnOk result ((n : Circuit) (t : ℕ) → IsCircuit n → time ≡ t + 1 → IsSimulated n t self.old.simulation →
            AreStimuli n self.old.set.bits.items self.old.set.levels.items time → IsSimulated n (t + 1) self.new.simulation) }
    {
        self.simulation
            .apply(self.set.bits.as_slice(), self.set.levels.as_slice(), time)?;
        self.simulation.fire()?;
        Ok(())
    }
}
