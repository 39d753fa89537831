//! States of modules that are known before anything is evaluated.
ghost use Rattle.std.specs.Prelude.{◌≡◌, ◌↔◌, Some, IsTrue};
ghost use Rattle.mp_records.specs.declared.module_record.ModuleRecord.{ModuleRecord as Part};
ghost use Rattle.mp_netlist.specs.Circuit.{IsCircuit, module_at};
ghost use Rattle.mp_netlist.specs.Slots.{slot_at};
ghost use Rattle.mp_partition.specs.runs.Checkpoints.{state_before};
ghost use Rattle.mp_depend.specs.recording.Overlays.{state_in};

use mp_model::built;
use mp_modules::{EventModule, Memory};
use mp_netlist::{ModuleId, Netlist};
use mp_partition::Run;

/// The state in which a module starts, or a blank one if none has the number.
pub(crate) fn start_of(netlist: &Netlist, id: ModuleId) -> Memory
    requires { IsCircuit netlist.now }
    ensures { (r : Part) → module_at netlist.now id.0 ≡ Some r → result ≡ state_before netlist.now id.0 r 0 }
{
    match netlist.module(id) {
        Some(found) => built(netlist, found).start(),
        None => Memory::with_one_output(&[], 0),
    }
}

/// The state of a module that a run kept for a time, or a blank one.
pub fn old_state(run: &Run, id: ModuleId, time: u32) -> Memory
    ensures { result ≡ state_in (slot_at run.now.kept id.0) time }
{
    match run.checkpoints(id) {
        Some(kept) => kept.kept_at(time),
        None => Memory::with_one_output(&[], 0),
    }
}

/// Whether a state of a module is the one that a run kept for a time.
pub fn is_old_state(run: &Run, id: ModuleId, time: u32, memory: Memory) -> bool
    ensures { IsTrue result ↔ (state_in (slot_at run.now.kept id.0) time ≡ memory) }
{
    old_state(run, id, time) == memory
}
