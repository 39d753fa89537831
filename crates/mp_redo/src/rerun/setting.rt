//! What is set in a unit: wires that are on and that no active module drives change.
ghost use Rattle.std.specs.Prelude.{◌≡◌};

use crate::rerun::following::list_due;
use crate::rerun::rerun::Rerun;
use mp_active::Change;
use mp_active::agreement::laws::{sleepers_agree, wires_agree};
use mp_active::compare::laws::runs_are_old;
use std::alloc::AllocError;

impl Rerun {
    ghost use Rattle.std.specs.Prelude.{◌≡◌, ℕ, ◌+◌, ◌-◌, ◌<◌, OnOk};
    ghost use Rattle.mp_active.specs.excerpt.Numberings.{Numbering};
    ghost use Rattle.mp_active.specs.excerpt.Setting.{AreSetOutside};
    ghost use Rattle.mp_redo.specs.rerun.Joining.{NoneIsApart, HasSet};
    ghost use Rattle.mp_redo.specs.rerun.Reruns.{IsChange, IsRerunAt, IsRerunBy, IsFollowed, active_of, on_of};

    /// Lists the changes in the unit of a time of wires that are on and that no active module drives: what changed stimuli and tails change, and
    /// what wires change that follow their old waves.
    pub(crate) fn set_wires(&mut self, change: &Change<'_>, time: u32) -> Result<(), AllocError>
        requires change { IsChange change.now }
        requires some { 0 < time }
        requires below { time < change.now.new.now.horizon }
        requires is { (latest : ℕ) × IsRerunAt change.now.old.now change.now.new.now change.now.run.now latest (time - 1) self.old }
        requires quiet { NoneIsApart change.now.old.now change.now.new.now (active_of self.old) time }
        ensures kept { OnOk result (HasSet self.old self.new) }
        ensures followed { OnOk result ((numbering : Numbering) (since : ℕ → ℕ) → IsRerunBy change.now.old.now change.now.new.now change.now.run.now numbering since (time - 1) self.old →
            IsFollowed change.now.old.now change.now.new.now change.now.run.now numbering since time self.new) }
        ensures set { OnOk result (AreSetOutside change.now.new.now (active_of self.new) (on_of self.new) self.new.set.bits.items self.new.set.levels.items time) }
    {
        runs_are_old();
        wires_agree();
        sleepers_agree();
        self.set.bits.clear();
        self.set.levels.clear();
        self.comparison.pass_unit(change.run, time, &mut self.set)?;
        self.stimuli.place = list_due(
            self.stimuli.list.as_slice(),
            self.stimuli.place,
            time,
            &mut self.set,
        )?;
        self.pending_outputs.place = list_due(
            self.pending_outputs.list.as_slice(),
            self.pending_outputs.place,
            time,
            &mut self.set,
        )?;
        Ok(())
    }
}
