//! The overlays of all modules before time 0.
ghost use Rattle.std.specs.Prelude.{◌≡◌, ℕ, false, Some, IfOk, length};
ghost use Rattle.mp_records.specs.declared.module_record.ModuleRecord.{ModuleRecord as Part};
ghost use Rattle.mp_netlist.specs.Circuit.{IsCircuit, module_at};
ghost use Rattle.mp_netlist.specs.Slots.{slot_at};
ghost use Rattle.mp_partition.specs.runs.Checkpoints.{state_before};
ghost use Rattle.mp_partition.specs.runs.Marks.{is_marked};
ghost use Rattle.mp_partition.specs.runs.Outcomes.{Outcome};
ghost use Rattle.mp_depend.specs.recording.Keeping.{IsOverlayAt, AreOverlays, AreOldStates};
ghost use Rattle.mp_depend.specs.recording.Overlays.{state_in};

use crate::recording::checkpoint_overlay::CheckpointOverlay;
use crate::recording::states::start_of;
use mp_netlist::{ModuleId, Netlist};
use mp_partition::Checkpoints;
use std::alloc::{AllocError, Global};

/// The first overlays of all modules, by number: those of touched modules are their own, each with the state in which the module starts.
pub(crate) fn first_overlays(
    alloc: Global,
    new: &Netlist,
    touched: &[bool],
) -> Result<Vec<CheckpointOverlay>, AllocError>
    requires form { IsCircuit new.now }
    requires places { length touched.now ≡ length new.now.modules }
    ensures { IfOk result (λ overlays. (run : Outcome) → AreOldStates new.now run 0 (is_marked touched.now) → AreOverlays new.now run (λ m. 0) (is_marked touched.now) overlays.items) }
{
    let mut overlays = Vec::new(alloc);
    for m in 0..new.module_slots() {
        overlays.push(first_overlay(alloc, new, ModuleId(m), touched[m as usize])?)?;
    }
    Ok(overlays)
}

/// The overlay of a module before time 0: of a touched one it has the state in which it starts, and can be given more up to the horizon.
fn first_overlay(
    alloc: Global,
    new: &Netlist,
    id: ModuleId,
    touched: bool,
) -> Result<CheckpointOverlay, AllocError>
    requires { IsCircuit new.now }
    ensures { IfOk result (λ overlay. (run : Outcome) (r : Part) → module_at new.now id.0 ≡ Some r → (touched ≡ false → state_in (slot_at run.kept id.0) 0 ≡ state_before new.now id.0 r 0)
        → IsOverlayAt new.now run 0 id.0 r touched overlay) }
{
    if !touched {
        return Ok(CheckpointOverlay::Old);
    }
    let mut kept = Checkpoints::new(alloc);
    kept.keep(0, start_of(new, id))?;
    Ok(CheckpointOverlay::Own {
        kept,
        until: new.horizon(),
    })
}
