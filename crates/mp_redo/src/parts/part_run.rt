//! The run of a part of a netlist, by the run of the netlist.
ghost use Rattle.std.specs.Prelude.{◌≡◌, [], IfOk, length, map, option_map};
ghost use Rattle.std.specs.Arc.{arc_value};
ghost use Rattle.mp_netlist.specs.Circuit.{wire_at};
ghost use Rattle.mp_model.specs.Waves.{slot_wave};
ghost use Rattle.mp_partition.specs.runs.Outcomes.{AreSlots};
ghost use Rattle.mp_partition.specs.runs.Runs.{AreCheckpoints, IsRun, end_memory};
ghost use Rattle.mp_depend.specs.recording.Endings.{HasCheckpoints};
ghost use Rattle.mp_redo.specs.apart.PartLevels.{resting_wave};
ghost use Rattle.mp_redo.specs.parts.Changes.{IsChange, old_part};

use crate::parts::driven::is_driven_elsewhere;
use crate::parts::parts_change::PartsChange;
use mp_model::Waves;
use mp_modules::Memory;
use mp_netlist::{ModuleId, WireId};
use mp_partition::{Checkpoints, Run, partition_of};
use mp_wave::Wave;
use std::alloc::{AllocError, Global};
use std::sync::Arc;

/// The run of a part of the old netlist. A wire that a module of another part drives keeps its initial level in it. All else is shared
/// with the run of the whole.
pub(crate) fn part_run(
    alloc: Global,
    change: &PartsChange<'_>,
    part: u32,
) -> Result<Run, AllocError>
    requires { IsChange change.now }
    ensures { IfOk result (λ run. IsRun (old_part change.now part) run) }
{
    let waves = part_waves(alloc, change, part)?;
    let ends = part_ends(alloc, change, part)?;
    let kept = part_checkpoints(alloc, change, part)?;
    Ok(Run::new(change.old.horizon(), Waves::new(waves), ends, kept))
}

fn part_waves(
    alloc: Global,
    change: &PartsChange<'_>,
    part: u32,
) -> Result<Vec<Option<Arc<Wave, Global>>>, AllocError>
    requires { IsChange change.now }
    ensures { IfOk result (λ waves. AreSlots (length change.now.old.now.wires) (λ w. slot_wave (old_part change.now part) w (wire_at (old_part change.now part) w)) (map (option_map arc_value) waves.items)) }
{
    let low = Arc::new(alloc, Wave::constant(alloc, 0))?;
    let mut waves = Vec::new(alloc);
    for w in 0..change.old.wire_slots() {
        waves.push(part_wave(alloc, change, part, WireId(w), &low)?)?;
    }
    Ok(waves)
}

fn part_wave(
    alloc: Global,
    change: &PartsChange<'_>,
    part: u32,
    wire: WireId,
    low: &Arc<Wave, Global>,
) -> Result<Option<Arc<Wave, Global>>, AllocError>
    requires change { IsChange change.now }
    requires low { arc_value low.now ≡ record { initial = 0; changes = [] } }
    ensures { IfOk result (λ wave. option_map arc_value wave ≡ slot_wave (old_part change.now part) wire.0 (wire_at (old_part change.now part) wire.0)) }
{
    let homes = change.partition.division.homes.as_slice();
    if is_driven_elsewhere(change.partition.old_drivers.as_slice(), homes, part, wire) {
        return initial_wave(alloc, change, wire, low);
    }
    change.run.waves().shared(wire)
}

/// The wave with the initial level of a wire of the old netlist at every time.
fn initial_wave(
    alloc: Global,
    change: &PartsChange<'_>,
    wire: WireId,
    low: &Arc<Wave, Global>,
) -> Result<Option<Arc<Wave, Global>>, AllocError>
    requires { arc_value low.now ≡ record { initial = 0; changes = [] } }
    ensures { IfOk result (λ wave. option_map arc_value wave ≡ option_map resting_wave (wire_at change.now.old.now wire.0)) }
{
    let Some(found) = change.old.wire(wire) else {
        return Ok(None);
    };
    if found.initial == 0 {
        return Ok(Some(Arc::try_clone(low)?));
    }
    let wave = Wave::constant(alloc, found.initial);
    Ok(Some(Arc::new(alloc, wave)?))
}

fn part_ends(
    alloc: Global,
    change: &PartsChange<'_>,
    part: u32,
) -> Result<Vec<Option<Memory>>, AllocError>
    requires { IsChange change.now }
    ensures { IfOk result (λ ends. AreSlots (length change.now.old.now.modules) (end_memory (old_part change.now part)) ends.items) }
{
    let mut ends = Vec::new(alloc);
    for m in 0..change.old.module_slots() {
        ends.push(part_end(change, part, ModuleId(m)))?;
    }
    Ok(ends)
}

/// The last state of a module that is at home in the part.
fn part_end(change: &PartsChange<'_>, part: u32, id: ModuleId) -> Option<Memory>
    requires { IsChange change.now }
    ensures { result ≡ end_memory (old_part change.now part) id.0 }
{
    if partition_of(change.partition.division.homes.as_slice(), id.0) != part {
        return None;
    }
    change.run.end_memory(id)
}

fn part_checkpoints(
    alloc: Global,
    change: &PartsChange<'_>,
    part: u32,
) -> Result<Vec<Option<Arc<Checkpoints, Global>>>, AllocError>
    requires { IsChange change.now }
    ensures { IfOk result (λ kept. AreCheckpoints (old_part change.now part) (map (option_map arc_value) kept.items)) }
{
    let mut kept = Vec::new(alloc);
    for m in 0..change.old.module_slots() {
        kept.push(part_checkpoint(change, part, ModuleId(m))?)?;
    }
    Ok(kept)
}

/// The states of a module that is at home in the part.
fn part_checkpoint(
    change: &PartsChange<'_>,
    part: u32,
    id: ModuleId,
) -> Result<Option<Arc<Checkpoints, Global>>, AllocError>
    requires { IsChange change.now }
    ensures { IfOk result (λ kept. HasCheckpoints (old_part change.now part) id.0 (option_map arc_value kept)) }
{
    if partition_of(change.partition.division.homes.as_slice(), id.0) != part {
        return Ok(None);
    }
    match change.old.module(id) {
        Some(_) => change.run.shared_checkpoints(id),
        None => Ok(None),
    }
}
