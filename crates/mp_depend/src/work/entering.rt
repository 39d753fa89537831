//! Modules pass the gate of a re-evaluation.
ghost use Rattle.std.specs.Prelude.{◌≡◌, true};
ghost use Rattle.mp_netlist.specs.Circuit.{Circuit};
ghost use Rattle.mp_phase.specs.Allowed.{IsAllowed};
ghost use Rattle.mp_depend.specs.work.Work.{IsEntry};

use crate::work::work_entry::WorkEntry;
use mp_phase::Gate;
use std::sync::Wait;

/// The module of an entry of the work passes the gate, which allows it to, and has passed it then.
pub fn enter<R: Wait, G: Gate>(rt: &R, gate: &G, entry: WorkEntry)
    requires { (old : Circuit) × (new : Circuit) × IsAllowed (IsEntry old new) (G.may gate.now) × IsEntry old new entry.«module».0 entry.from entry.to }
    ensures { G.passed gate.now entry.«module».0 entry.from entry.to ≡ true }
{
    gate.enter(rt, entry.module, entry.from, entry.to);
}
