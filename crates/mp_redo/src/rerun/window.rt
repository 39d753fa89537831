//! A netlist that is evaluated again goes from window to window.
ghost use Rattle.std.specs.Prelude.{◌≡◌};

use crate::rerun::entered_window::EnteredWindow;
use crate::rerun::next_step::NextStep;
use crate::rerun::rerun::Rerun;
use crate::rerun::rerun_context::RerunContext;
use mp_active::Change;
use mp_depend::{block_of, window_end};
use mp_netlist::checkpoint_units;
use mp_phase::Gate;
use std::alloc::{AllocError, Global};
use std::sync::Wait;
use std::thread::Threads;

impl Rerun {
    ghost use Rattle.std.specs.Prelude.{◌≡◌, ◌-◌, ◌<◌, ◌≤◌, IfOk, OnOk};
    ghost use Rattle.mp_phase.specs.Allowed.{IsAllowed};
    ghost use Rattle.mp_redo.specs.rerun.Entering.{ActiveHavePassed};
    ghost use Rattle.mp_redo.specs.rerun.Reruns.{IsChange, active_of};
    ghost use Rattle.mp_redo.specs.rerun.Settling.{HasEnded, IsAhead};
    ghost use Rattle.mp_redo.specs.rerun.Windows.{IsUnderWay, IsAtWindow};
    ghost use Rattle.mp_depend.specs.work.Work.{block_of, window_of, IsEntry};

    /// Goes through the units after the first one, whose window was entered, up to an end, which it returns: the horizon, or a time from which on the
    /// rest is that of the old run.
    pub(crate) fn pass_all<R: Threads + Wait + Sync, G: Gate + Sync>(
        &mut self,
        context: &RerunContext<'_, R, G>,
        change: &Change<'_>,
        first: EnteredWindow,
    ) -> Result<u32, AllocError>
        requires allowed { IsAllowed (IsEntry change.now.old.now change.now.new.now) (G.may context.now.gate.now) }
        requires change { IsChange change.now }
        requires entered { first.end ≡ self.old.window_end }
        requires before { IsUnderWay change.now.old.now change.now.new.now change.now.run.now 0 self.old }
        ensures { IfOk result (λ end. HasEnded change.now.old.now change.now.new.now change.now.run.now end self.new) }
    {
        let horizon = change.new.horizon();
        let mut entered = first;
        let mut time = 1;
        while time < horizon {
            match self.look_ahead(context.rt, context.gate, change, time, entered)? {
                NextStep::Next(next, window) => {
                    entered = window;
                    time = self.pass_still(change, next);
                    if time < self.window_end {
                        self.pass_unit(context, change, time, entered)?;
                        time += 1;
                    }
                }
                NextStep::Over(end) => return Ok(end),
            }
        }
        self.end_window(change, horizon)?;
        Ok(horizon)
    }

    /// What follows the units before a time. If the window that was entered ends there, the next one begins: then, or, if nothing happens for a while, at
    /// a later time.
    fn look_ahead<R: Wait, G: Gate>(
        &mut self,
        rt: &R,
        gate: &G,
        change: &Change<'_>,
        time: u32,
        entered: EnteredWindow,
    ) -> Result<NextStep, AllocError>
        requires allowed { IsAllowed (IsEntry change.now.old.now change.now.new.now) (G.may gate.now) }
        requires change { IsChange change.now }
        requires some { 0 < time }
        requires below { time < change.now.new.now.horizon }
        requires entered { entered.end ≡ self.old.window_end }
        requires before { IsUnderWay change.now.old.now change.now.new.now change.now.run.now (time - 1) self.old }
        ensures { IfOk result (IsAhead change.now.old.now change.now.new.now change.now.run.now time self.new) }
    {
        if time < self.window_end {
            return Ok(NextStep::Next(time, entered));
        }
        self.end_window(change, time)?;
        let next = self.idle_end(change, time);
        if next == change.new.horizon() {
            return Ok(NextStep::Over(next));
        }
        if self.is_settled(change, next) {
            return Ok(NextStep::Over(next));
        }
        let window = self.begin_window(rt, gate, change, next)?;
        Ok(NextStep::Next(next, window))
    }

    /// The window ends at a time: modules that have joined in it are kept in the recorder.
    fn end_window(&mut self, change: &Change<'_>, time: u32) -> Result<(), AllocError>
        requires change { IsChange change.now }
        requires some { 0 < time }
        requires below { time ≤ change.now.new.now.horizon }
        requires end { self.old.window_end ≡ time }
        requires before { IsUnderWay change.now.old.now change.now.new.now change.now.run.now (time - 1) self.old }
        ensures { OnOk result (IsAtWindow change.now.old.now change.now.new.now change.now.run.now (block_of change.now.new.now.horizon (time - 1)) (time - 1) self.new) }
    {
        let block = block_of(change.new.horizon(), time - 1);
        self.recorder.open_joined(
            change.run,
            change.new,
            block,
            time,
            self.activity.joined.as_slice(),
        )?;
        self.activity.joined.clear();
        Ok(())
    }

    /// A window begins at a time, and a block if that does. The modules that go on being active pass the gate.
    fn begin_window<R: Wait, G: Gate>(
        &mut self,
        rt: &R,
        gate: &G,
        change: &Change<'_>,
        time: u32,
    ) -> Result<EnteredWindow, AllocError>
        requires allowed { IsAllowed (IsEntry change.now.old.now change.now.new.now) (G.may gate.now) }
        requires change { IsChange change.now }
        requires some { 0 < time }
        requires below { time < change.now.new.now.horizon }
        requires begins { window_of change.now.new.now time ≡ time }
        requires before { IsAtWindow change.now.old.now change.now.new.now change.now.run.now (block_of change.now.new.now.horizon (time - 1)) (time - 1) self.old }
        ensures end { OnOk result (time < self.new.window_end) }
        ensures entered { IfOk result (λ window. window.end ≡ self.new.window_end) }
        ensures passed { OnOk result (ActiveHavePassed change.now.new.now (active_of self.new) (G.passed gate.now) time self.new.window_end) }
        ensures after { OnOk result (IsUnderWay change.now.old.now change.now.new.now change.now.run.now (time - 1) self.new) }
    {
        self.begin_block(change, time)?;
        self.window_end = window_end(change.least, change.new.horizon(), time);
        Ok(self.enter_window(rt, gate, change, time))
    }

    /// If a block begins at a time, its border is crossed.
    fn begin_block(&mut self, change: &Change<'_>, time: u32) -> Result<(), AllocError>
        requires change { IsChange change.now }
        requires some { 0 < time }
        requires below { time < change.now.new.now.horizon }
        requires before { IsAtWindow change.now.old.now change.now.new.now change.now.run.now (block_of change.now.new.now.horizon (time - 1)) (time - 1) self.old }
        ensures { OnOk result (IsAtWindow change.now.old.now change.now.new.now change.now.run.now (block_of change.now.new.now.horizon time) (time - 1) self.new) }
    {
        if time.is_multiple_of(checkpoint_units(change.new.horizon())) {
            self.at_checkpoint(change, time)?;
        }
        Ok(())
    }
}
