//! What is kept of a re-evaluation at its end.
ghost use Rattle.std.specs.Prelude.{◌≡◌, ℕ, Some, IfOk, length, map, option_map};
ghost use Rattle.std.specs.Arc.{arc_value};
ghost use Rattle.mp_records.specs.declared.module_record.ModuleRecord.{ModuleRecord as Part};
ghost use Rattle.mp_netlist.specs.Circuit.{module_at};
ghost use Rattle.mp_partition.specs.runs.Runs.{AreCheckpoints};
ghost use Rattle.mp_depend.specs.recording.Endings.{IsWhole, AreWhole, HasCheckpoints};
ghost use Rattle.mp_depend.specs.recording.Overlays.{overlay_at};

use crate::recording::checkpoint_overlay::CheckpointOverlay;
use crate::work::WorkSpan;
use mp_netlist::{ModuleId, Netlist};
use mp_partition::{Checkpoints, Run};
use std::alloc::{AllocError, Global};
use std::sync::Arc;

/// The states of each module before the borders between blocks, by number, and the work spans in which modules have worked.
#[derive(Drop)]
pub struct Finished {
    pub kept: Vec<Option<Arc<Checkpoints, Global>>>,
    pub work_spans: Vec<WorkSpan>,
}

/// The states that are kept of all modules, by number, those of the old run shared if they are these.
pub(crate) fn finished_overlays(
    alloc: Global,
    run: &Run,
    new: &Netlist,
    overlays: Vec<CheckpointOverlay>,
) -> Result<Vec<Option<Arc<Checkpoints, Global>>>, AllocError>
    requires { AreWhole new.now run.now overlays.items }
    ensures { IfOk result (λ found. AreCheckpoints new.now (map (option_map arc_value) found.items)) }
{
    let mut left = overlays;
    let mut found = Vec::new(alloc);
    for m in 0..new.module_slots() {
        let overlay = std::mem::replace(&mut left[m as usize], CheckpointOverlay::Old);
        found.push(finished_overlay(alloc, run, new, ModuleId(m), overlay)?)?;
    }
    Ok(found)
}

/// The kept states of a module that exists.
fn finished_overlay(
    alloc: Global,
    run: &Run,
    new: &Netlist,
    id: ModuleId,
    overlay: CheckpointOverlay,
) -> Result<Option<Arc<Checkpoints, Global>>, AllocError>
    requires { (r : Part) → module_at new.now id.0 ≡ Some r → IsWhole new.now run.now id.0 r overlay }
    ensures { IfOk result (λ found. HasCheckpoints new.now id.0 (option_map arc_value found)) }
{
    let end = new.horizon();
    match new.module(id) {
        Some(_) => Ok(Some(overlay.into_shared(alloc, run, id, end)?)),
        None => Ok(None),
    }
}
