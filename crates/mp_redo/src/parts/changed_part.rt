//! A part of a netlist that has changed, as a thread of its own evaluates it again.

use crate::parts::part_netlist::part_netlist;
use crate::parts::part_run::part_run;
use crate::parts::parts_change::PartsChange;
use crate::parts::redone::Redone;
use crate::rerun::{RerunContext, redo};
use mp_netlist::Netlist;
use mp_phase::{Crew, Gate};
use std::alloc::{AllocError, Global};
use std::sync::Wait;
use std::thread::Threads;

/// A part of a netlist that has changed, by its number.
#[derive(Clone, Copy)]
pub(crate) struct ChangedPart<'a> {
    pub change: PartsChange<'a>,
    pub number: u32,
}

impl<'a> ChangedPart<'a> {
    ghost use Rattle.std.specs.Prelude.{◌≡◌, ◌<◌, IfOk};
    ghost use Rattle.mp_phase.specs.Allowed.{IsAllowed};
    ghost use Rattle.mp_depend.specs.work.Work.{IsEntry};
    ghost use Rattle.mp_redo.specs.parts.Changes.{IsChange, new_part, old_part};
    ghost use Rattle.mp_redo.specs.parts.Redone.{IsRedone};

    /// What the change makes of the part, on one thread. Only modules that the change reaches enter the gate.
    pub(crate) fn redo<R: Threads + Wait + Sync, G: Gate + Sync>(
        self,
        rt: &R,
        alloc: Global,
        gate: &G,
    ) -> Result<Redone, AllocError>
        requires change { IsChange self.change }
        requires part { self.number < self.change.partition.now.division.parts }
        requires allowed { IsAllowed (IsEntry self.change.old.now self.change.new.now) (G.may gate.now) }
        ensures { IfOk result (IsRedone self.entry.change self.entry.number) }
    {
        let ChangedPart { change, number } = self;
        let homes = change.partition.division.homes.as_slice();
        let old = part_netlist(change.old, homes, number)?;
        let Ok(new) = part_netlist(change.new, homes, number) else {
            drop(old);
            return Err(AllocError);
        };
        let redone = self.redo_between(rt, alloc, gate, &old, &new);
        drop(old);
        drop(new);
        redone
    }

    /// What the change makes of the part, which is one netlist before it and another after it.
    fn redo_between<R: Threads + Wait + Sync, G: Gate + Sync>(
        self,
        rt: &R,
        alloc: Global,
        gate: &G,
        old: &Netlist,
        new: &Netlist,
    ) -> Result<Redone, AllocError>
        requires change { IsChange self.change }
        requires part { self.number < self.change.partition.now.division.parts }
        requires allowed { IsAllowed (IsEntry self.change.old.now self.change.new.now) (G.may gate.now) }
        requires old { old.now ≡ old_part self.change self.number }
        requires new { new.now ≡ new_part self.change self.number }
        ensures { IfOk result (IsRedone self.entry.change self.entry.number) }
    {
        let ChangedPart { change, number } = self;
        let before = part_run(alloc, &change, number)?;
        let Ok(crew) = Crew::new(1, 1) else {
            unreachable!()
        };
        let context = RerunContext {
            rt,
            alloc,
            crew: &crew,
            gate,
        };
        let redone = redo(&context, old, &before, new);
        drop(before);
        let (run, work_spans) = redone?;
        Ok(Redone { run, work_spans })
    }
}
