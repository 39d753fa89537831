//! Units in which nothing is set and no module joins, and windows in which nothing happens.
ghost use Rattle.std.specs.Prelude.{◌≡◌, ℕ, ◌<◌, ◌≤◌, drop};
ghost use Rattle.mp_netlist.specs.Circuit.{IsCircuit};
ghost use Rattle.mp_netlist.specs.Delays.{least_delay};
ghost use Rattle.mp_simulation.specs.run.Stimuli.{AreFrom};
ghost use Rattle.mp_redo.specs.rerun.Idle.{is_due};
ghost use Rattle.mp_depend.specs.work.Work.{window_of};

use crate::rerun::rerun::Rerun;
use mp_active::Change;
use mp_active::agreement::laws::{readers_agree, sleepers_agree, sleepers_rest, wires_agree};
use mp_active::excerpt::laws::{
    excerpts_are_circuits, excerpts_are_simulated, numbers_stay, sets_are_stimuli,
};
use mp_kernel::timers::laws::comes_up;
use mp_netlist::checkpoint_units;
use mp_simulation::StimulusChange;

/// How many units pass before it is worth looking ahead again.
const LOOK_UNITS: u32 = 1024;

impl Rerun {
    ghost use Rattle.std.specs.Prelude.{◌≡◌, ◌≢◌, ℕ, ◌+◌, ◌-◌, ◌<◌, ◌≤◌, [], IsTrue};
    ghost use Rattle.mp_kernel.specs.timers.TimerWheels.{never, time_of, IsTimerWheel};
    ghost use Rattle.mp_simulation.specs.bits.Simulators.{slot_at};
    ghost use Rattle.mp_simulation.specs.bits.Simulations.{copy_slot};
    ghost use Rattle.mp_active.specs.compare.Comparing.{AreUntracked};
    ghost use Rattle.mp_simulation.specs.run.Stimuli.{left_of, AreFrom};
    ghost use Rattle.mp_simulation.specs.units.DataWheels.{data_slot};
    ghost use Rattle.mp_simulation.specs.units.NetlistSimulations.{IsStill, IsAtRest};
    ghost use Rattle.mp_active.specs.excerpt.Numberings.{Numbering};
    ghost use Rattle.mp_active.specs.excerpt.Setting.{AreSetOutside};
    ghost use Rattle.mp_redo.specs.rerun.Idle.{IsUnset, IsQuiet};
    ghost use Rattle.mp_redo.specs.rerun.Joining.{NoneIsApart, HasSet};
    ghost use Rattle.mp_redo.specs.rerun.Reruns.{IsChange, IsRerunAt, IsRerunBy, IsFollowed, active_of, on_of};
    ghost use Rattle.mp_redo.specs.rerun.Windows.{IsAtWindow};
    ghost use Rattle.mp_depend.specs.work.Work.{block_of, window_of};

    /// Whether nothing changes in the unit of a time: nothing is set in it, and no change is scheduled for it.
    #[inline(always)]
    pub(crate) fn is_still(&self, change: &Change<'_>, time: u32) -> bool
        requires some { 0 < time }
        requires is { (latest : ℕ) × IsRerunAt change.now.old.now change.now.new.now change.now.run.now latest (time - 1) self.now }
        ensures unset { IsTrue result → IsUnset time self.now }
        ensures still { IsTrue result → IsStill self.now.simulation }
    {
        self.simulation.is_still() && self.is_unset(change, time)
    }

    /// Whether nothing is set in the unit of a time, and no sleeping module sees a change in it.
    #[inline(always)]
    pub(crate) fn is_quiet(&self, change: &Change<'_>, time: u32) -> bool
        requires change { IsChange change.now }
        requires some { 0 < time }
        requires below { time < change.now.new.now.horizon }
        requires is { (latest : ℕ) × IsRerunAt change.now.old.now change.now.new.now change.now.run.now latest (time - 1) self.now }
        ensures { IsTrue result → IsQuiet time self.now }
    {
        self.is_unset(change, time) && self.hears_nothing(change, time)
    }

    /// Whether in the unit of a time no number with data is known to change, and of those of width 1 none that is tracked.
    #[inline(always)]
    fn hears_nothing(&self, change: &Change<'_>, time: u32) -> bool
        requires change { IsChange change.now }
        requires some { 0 < time }
        requires below { time < change.now.new.now.horizon }
        requires is { (latest : ℕ) × IsRerunAt change.now.old.now change.now.new.now change.now.run.now latest (time - 1) self.now }
        ensures levels { IsTrue result → data_slot self.now.simulation.wires.wheel 0 ≡ [] }
        ensures wires { IsTrue result → AreUntracked self.now.comparison time (slot_at self.now.simulation.bits.simulator 0) }
        ensures copies { IsTrue result → AreUntracked self.now.comparison time (copy_slot self.now.simulation.bits.copies 0) }
    {
        self.simulation.wires.wheel.is_quiet() && self.tracks_none(change, time)
    }

    /// Whether in the unit of a time no number of width 1 that is tracked is known to change.
    #[inline(always)]
    fn tracks_none(&self, change: &Change<'_>, time: u32) -> bool
        requires change { IsChange change.now }
        requires some { 0 < time }
        requires below { time < change.now.new.now.horizon }
        requires is { (latest : ℕ) × IsRerunAt change.now.old.now change.now.new.now change.now.run.now latest (time - 1) self.now }
        ensures wires { IsTrue result → AreUntracked self.now.comparison time (slot_at self.now.simulation.bits.simulator 0) }
        ensures copies { IsTrue result → AreUntracked self.now.comparison time (copy_slot self.now.simulation.bits.copies 0) }
    {
        let wires = self.simulation.toggles_ahead(0);
        let copies = self.simulation.bits.copies.wheel.slot(0);
        self.comparison.tracks_none(wires, time) && self.comparison.tracks_none(copies, time)
    }

    /// Whether nothing is set in the unit of a time: no number comes up, and no changed stimulus sets anything.
    #[inline(always)]
    fn is_unset(&self, change: &Change<'_>, time: u32) -> bool
        requires some { 0 < time }
        requires is { (latest : ℕ) × IsRerunAt change.now.old.now change.now.new.now change.now.run.now latest (time - 1) self.now }
        ensures { IsTrue result → IsUnset time self.now }
    {
        self.comparison.timers.is_quiet()
            && !is_due(self.stimuli.list.as_slice(), self.stimuli.place, time)
            && !is_due(
                self.pending_outputs.list.as_slice(),
                self.pending_outputs.place,
                time,
            )
    }

    /// The unit of a time begins, in which nothing is set, and no module joins.
    #[inline(always)]
    pub(crate) fn set_nothing(&mut self, change: &Change<'_>, time: u32)
        requires change { IsChange change.now }
        requires some { 0 < time }
        requires below { time < change.now.new.now.horizon }
        requires is { (latest : ℕ) × IsRerunAt change.now.old.now change.now.new.now change.now.run.now latest (time - 1) self.old }
        requires quiet { IsQuiet time self.old }
        ensures kept { HasSet self.old self.new }
        ensures none { NoneIsApart change.now.old.now change.now.new.now (active_of self.old) time }
        ensures followed { (numbering : Numbering) (since : ℕ → ℕ) → IsRerunBy change.now.old.now change.now.new.now change.now.run.now numbering since (time - 1) self.old →
            IsFollowed change.now.old.now change.now.new.now change.now.run.now numbering since time self.new }
        ensures set { AreSetOutside change.now.new.now (active_of self.new) (on_of self.new) self.new.set.bits.items self.new.set.levels.items time }
        ensures bits { self.new.set.bits.items ≡ [] }
        ensures levels { self.new.set.levels.items ≡ [] }
    {
        comes_up();
        wires_agree();
        readers_agree();
        sleepers_agree();
        self.comparison.timers.skip();
        self.set.bits.clear();
        self.set.levels.clear();
    }

    /// If no module is active, the last time at which a window begins, or the horizon, and before which, from a time on, nothing happens; otherwise
    /// that time. As all slots of the timer wheel are looked at, it isn't done at each window.
    pub(crate) fn idle_end(&mut self, change: &Change<'_>, from: u32) -> u32
        requires change { IsChange change.now }
        requires some { 0 < from }
        requires below { from < change.now.new.now.horizon }
        requires begins { window_of change.now.new.now from ≡ from }
        requires before { IsAtWindow change.now.old.now change.now.new.now change.now.run.now (block_of change.now.new.now.horizon (from - 1)) (from - 1) self.old }
        ensures later { from ≤ result }
        ensures within { result ≤ change.now.new.now.horizon }
        ensures begins { result < change.now.new.now.horizon → window_of change.now.new.now result ≡ result }
        ensures after { IsAtWindow change.now.old.now change.now.new.now change.now.run.now (block_of change.now.new.now.horizon (result - 1)) (result - 1) self.new }
    {
        wires_agree();
        readers_agree();
        sleepers_agree();
        sleepers_rest();
        excerpts_are_circuits();
        excerpts_are_simulated();
        sets_are_stimuli();
        numbers_stay();
        if !self.is_idle(from) {
            return from;
        }
        self.look_at = from.saturating_add(LOOK_UNITS);
        let time = self.rest_end(change.new.horizon(), from);
        last_begin(change, time)
    }

    /// Whether it is worth looking ahead at a time, no module is active, no change is scheduled in the simulation, and no changed stimulus sets
    /// anything then.
    fn is_idle(&self, time: u32) -> bool
        ensures nobody { IsTrue result → self.now.recorder.live.items ≡ [] }
        ensures rest { IsTrue result → IsAtRest self.now.simulation }
    {
        self.look_at <= time
            && self.recorder.live().is_empty()
            && self.simulation.is_at_rest()
            && !is_due(self.stimuli.list.as_slice(), self.stimuli.place, time)
            && !is_due(
                self.pending_outputs.list.as_slice(),
                self.pending_outputs.place,
                time,
            )
    }

    /// A time up to which nothing is due, from a time on and up to a horizon.
    fn rest_end(&self, horizon: u32, from: u32) -> u32
        requires some { 0 < from }
        requires below { from < horizon }
        requires timers { IsTimerWheel (from - 1) [] self.now.comparison.timers }
        requires stimuli { AreFrom from (left_of self.now.stimuli) }
        requires pending_outputs { AreFrom from (left_of self.now.pending_outputs) }
        ensures later { from ≤ result }
        ensures within { result ≤ horizon }
        ensures timers { IsTimerWheel (result - 1) [] self.now.comparison.timers }
        ensures times { (x : ℕ) → time_of self.now.comparison.timers x ≢ never → result - 1 < time_of self.now.comparison.timers x }
        ensures stimuli { AreFrom result (left_of self.now.stimuli) }
        ensures pending_outputs { AreFrom result (left_of self.now.pending_outputs) }
    {
        let first = next_change(self.stimuli.list.as_slice(), self.stimuli.place, horizon);
        let end = next_change(
            self.pending_outputs.list.as_slice(),
            self.pending_outputs.place,
            first,
        );
        from + self.comparison.timers.slack(from, end - from)
    }
}

/// The last time up to one at which a window begins, or the horizon.
fn last_begin(change: &Change<'_>, time: u32) -> u32
    requires form { IsCircuit change.now.new.now }
    requires least { change.now.least ≡ least_delay change.now.new.now }
    requires within { time ≤ change.now.new.now.horizon }
    ensures early { result ≤ time }
    ensures begins { result < change.now.new.now.horizon → window_of change.now.new.now result ≡ result }
    ensures last { (from : ℕ) → from < change.now.new.now.horizon → from ≤ time → window_of change.now.new.now from ≡ from → from ≤ result }
{
    let horizon = change.new.horizon();
    if time == horizon {
        return horizon;
    }
    time - time % checkpoint_units(horizon) % change.least
}

/// Whether the change at a place is one of a time.
#[inline(always)]
fn is_due(changes: &[StimulusChange], place: usize, time: u32) -> bool
    ensures { result ≡ is_due time (drop place changes.now) }
{
    match changes.get(place) {
        Some(change) => change.time == time,
        None => false,
    }
}

/// The time of the change at a place, or an end that comes first.
fn next_change(changes: &[StimulusChange], place: usize, end: u32) -> u32
    ensures first { result ≤ end }
    ensures later { (time : ℕ) → AreFrom time (drop place changes.now) → time ≤ end → (time ≤ result) × AreFrom result (drop place changes.now) }
{
    match changes.get(place) {
        Some(change) => end.min(change.time),
        None => end,
    }
}
