//! Windows for which active modules have passed the gate.

use crate::rerun::rerun::Rerun;
use mp_active::Change;
use mp_depend::{WorkEntry, enter};
use mp_phase::Gate;
use std::sync::Wait;

/// Leave to run the units before the end of a window: the modules that were active before the window have passed the gate for it. Only this file makes
/// one, since the end is private to it.
#[derive(Clone, Copy)]
pub(crate) struct EnteredWindow {
    end: u32,
}

impl Rerun {
    ghost use Rattle.std.specs.Prelude.{◌≡◌};
    ghost use Rattle.mp_depend.specs.recording.Live.{AreAtWork, IsListed};
    ghost use Rattle.mp_depend.specs.work.Work.{block_of, IsEntry, IsWindow};
    ghost use Rattle.mp_phase.specs.Allowed.{IsAllowed};
    ghost use Rattle.mp_redo.specs.rerun.Entering.{ActiveHavePassed};
    ghost use Rattle.mp_redo.specs.rerun.Reruns.{active_of};

    /// The active modules, which are at work before a window that begins at a time, pass the gate for it.
    pub(crate) fn enter_window<R: Wait, G: Gate>(
        &self,
        rt: &R,
        gate: &G,
        change: &Change<'_>,
        time: u32,
    ) -> EnteredWindow
        requires allowed { IsAllowed (IsEntry change.now.old.now change.now.new.now) (G.may gate.now) }
        requires window { IsWindow change.now.new.now time self.now.window_end }
        requires work { AreAtWork change.now.old.now change.now.new.now (block_of change.now.new.now.horizon time) time (active_of self.now) }
        requires listed { IsListed change.now.new.now (active_of self.now) self.now.recorder.live.items }
        ensures end { result.end ≡ self.now.window_end }
        ensures passed { ActiveHavePassed change.now.new.now (active_of self.now) (G.passed gate.now) time self.now.window_end }
    {
        for id in self.recorder.live() {
            if self.is_at_work(change, *id) {
                let entry = WorkEntry {
                    module: *id,
                    from: time,
                    to: self.window_end,
                };
                enter(rt, gate, entry);
            }
        }
        EnteredWindow {
            end: self.window_end,
        }
    }
}
