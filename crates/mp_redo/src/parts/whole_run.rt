//! The run of a netlist, by the runs of its parts.
ghost use Rattle.std.specs.Prelude.{◌≡◌, ◌<◌, IfOk, length, map, option_map};
ghost use Rattle.std.specs.Arc.{arc_value};
ghost use Rattle.mp_netlist.specs.Circuit.{wire_at};
ghost use Rattle.mp_model.specs.Waves.{slot_wave};
ghost use Rattle.mp_partition.specs.runs.Outcomes.{AreSlots};
ghost use Rattle.mp_partition.specs.runs.Runs.{AreCheckpoints, IsRun, end_memory};
ghost use Rattle.mp_depend.specs.recording.Endings.{HasCheckpoints};
ghost use Rattle.mp_redo.specs.apart.Parts.{IsDrivenWithin};
ghost use Rattle.mp_redo.specs.parts.Changes.{IsChange, homes_in};
ghost use Rattle.mp_redo.specs.parts.Redone.{AreRedone};

use crate::parts::parts_change::PartsChange;
use crate::parts::redone::Redone;
use mp_model::Waves;
use mp_modules::Memory;
use mp_netlist::{ModuleId, WireId};
use mp_partition::{Checkpoints, Run, partition_of};
use mp_wave::Wave;
use std::alloc::{AllocError, Global};
use std::sync::Arc;

/// The run of the new netlist: each wire's wave from the part whose modules drive it, and what is known of each module from its own part.
pub(crate) fn whole_run(
    alloc: Global,
    change: &PartsChange<'_>,
    parts: &[Redone],
) -> Result<Run, AllocError>
    requires change { IsChange change.now }
    requires parts { AreRedone change.now parts.now }
    ensures { IfOk result (λ run. IsRun change.now.new.now run) }
{
    let waves = whole_waves(alloc, change, parts)?;
    let ends = whole_ends(alloc, change, parts)?;
    let kept = whole_checkpoints(alloc, change, parts)?;
    Ok(Run::new(change.new.horizon(), Waves::new(waves), ends, kept))
}

fn whole_waves(
    alloc: Global,
    change: &PartsChange<'_>,
    parts: &[Redone],
) -> Result<Vec<Option<Arc<Wave, Global>>>, AllocError>
    requires change { IsChange change.now }
    requires parts { AreRedone change.now parts.now }
    ensures { IfOk result (λ waves. AreSlots (length change.now.new.now.wires) (λ w. slot_wave change.now.new.now w (wire_at change.now.new.now w)) (map (option_map arc_value) waves.items)) }
{
    let mut waves = Vec::new(alloc);
    for w in 0..change.new.wire_slots() {
        waves.push(whole_wave(change, parts, WireId(w))?)?;
    }
    Ok(waves)
}

fn whole_wave(
    change: &PartsChange<'_>,
    parts: &[Redone],
    wire: WireId,
) -> Result<Option<Arc<Wave, Global>>, AllocError>
    requires change { IsChange change.now }
    requires parts { AreRedone change.now parts.now }
    ensures { IfOk result (λ wave. option_map arc_value wave ≡ slot_wave change.now.new.now wire.0 (wire_at change.now.new.now wire.0)) }
{
    let part = part_of_wire(change, wire);
    parts[part as usize].run.waves().shared(wire)
}

/// The part whose modules drive a wire of the new netlist, or the first, if no port does.
fn part_of_wire(change: &PartsChange<'_>, wire: WireId) -> u32
    requires { IsChange change.now }
    ensures low { result < change.now.partition.now.division.parts }
    ensures within { IsDrivenWithin change.now.new.now (homes_in change.now) result wire.0 }
{
    let home = partition_of(change.partition.division.wires.as_slice(), wire.0);
    if home < change.partition.division.parts {
        home
    } else {
        0
    }
}

fn whole_ends(
    alloc: Global,
    change: &PartsChange<'_>,
    parts: &[Redone],
) -> Result<Vec<Option<Memory>>, AllocError>
    requires change { IsChange change.now }
    requires parts { AreRedone change.now parts.now }
    ensures { IfOk result (λ ends. AreSlots (length change.now.new.now.modules) (end_memory change.now.new.now) ends.items) }
{
    let mut ends = Vec::new(alloc);
    for m in 0..change.new.module_slots() {
        ends.push(whole_end(change, parts, ModuleId(m)))?;
    }
    Ok(ends)
}

/// The last state of a module.
fn whole_end(change: &PartsChange<'_>, parts: &[Redone], id: ModuleId) -> Option<Memory>
    requires change { IsChange change.now }
    requires parts { AreRedone change.now parts.now }
    ensures { result ≡ end_memory change.now.new.now id.0 }
{
    let part = partition_of(change.partition.division.homes.as_slice(), id.0);
    parts[part as usize].run.end_memory(id)
}

fn whole_checkpoints(
    alloc: Global,
    change: &PartsChange<'_>,
    parts: &[Redone],
) -> Result<Vec<Option<Arc<Checkpoints, Global>>>, AllocError>
    requires change { IsChange change.now }
    requires parts { AreRedone change.now parts.now }
    ensures { IfOk result (λ kept. AreCheckpoints change.now.new.now (map (option_map arc_value) kept.items)) }
{
    let mut kept = Vec::new(alloc);
    for m in 0..change.new.module_slots() {
        kept.push(whole_checkpoint(change, parts, ModuleId(m))?)?;
    }
    Ok(kept)
}

/// The states of a module before the checkpoints, if it exists.
fn whole_checkpoint(
    change: &PartsChange<'_>,
    parts: &[Redone],
    id: ModuleId,
) -> Result<Option<Arc<Checkpoints, Global>>, AllocError>
    requires change { IsChange change.now }
    requires parts { AreRedone change.now parts.now }
    ensures { IfOk result (λ kept. HasCheckpoints change.now.new.now id.0 (option_map arc_value kept)) }
{
    let part = partition_of(change.partition.division.homes.as_slice(), id.0);
    match change.new.module(id) {
        Some(_) => parts[part as usize].run.shared_checkpoints(id),
        None => Ok(None),
    }
}
