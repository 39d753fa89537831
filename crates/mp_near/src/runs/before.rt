//! The run of a region before an edit, by the run of its netlist.
ghost use Rattle.std.specs.Prelude.{◌≡◌, ◌<◌, IfOk, length, map, option_map};
ghost use Rattle.std.specs.Arc.{arc_value};
ghost use Rattle.mp_netlist.specs.Circuit.{wire_at};
ghost use Rattle.mp_model.specs.Waves.{slot_wave};
ghost use Rattle.mp_partition.specs.runs.Outcomes.{AreSlots};
ghost use Rattle.mp_partition.specs.runs.Runs.{AreCheckpoints, IsRun, end_memory};
ghost use Rattle.mp_depend.specs.recording.Endings.{HasCheckpoints};
ghost use Rattle.mp_near.specs.Changes.{IsChange};
ghost use Rattle.mp_near.specs.region.Regions.{IsSmall};

use crate::region::Small;
use crate::revision::Revision;
use mp_model::Waves;
use mp_modules::Memory;
use mp_netlist::{ModuleId, WireId};
use mp_partition::{Checkpoints, Run};
use mp_wave::Wave;
use std::alloc::{AllocError, Global};
use std::sync::Arc;

/// What the old run has of the wires and modules of the region, shared with it.
pub(crate) fn run_before(
    alloc: Global,
    change: &Revision<'_>,
    small: &Small,
) -> Result<Run, AllocError>
    requires change { IsChange change.now }
    requires small { IsSmall change.now.old.now change.now.new.now small.now }
    ensures { IfOk result (IsRun small.entry.now.was) }
{
    let waves = all_waves(alloc, change, small)?;
    let ends = all_ends(alloc, change, small)?;
    let kept = all_checkpoints(alloc, change, small)?;
    Ok(Run::new(small.was.horizon(), Waves::new(waves), ends, kept))
}

fn all_waves(
    alloc: Global,
    change: &Revision<'_>,
    small: &Small,
) -> Result<Vec<Option<Arc<Wave, Global>>>, AllocError>
    requires change { IsChange change.now }
    requires small { IsSmall change.now.old.now change.now.new.now small.now }
    ensures { IfOk result (λ waves. AreSlots (length small.entry.now.was.wires) (λ w. slot_wave small.entry.now.was w (wire_at small.entry.now.was w)) (map (option_map arc_value) waves.items)) }
{
    let mut waves = Vec::new(alloc);
    for k in 0..small.was.wire_slots() {
        waves.push(wave_of(change, small, k)?)?;
    }
    Ok(waves)
}

/// The wave of the region's wire of this number.
fn wave_of(
    change: &Revision<'_>,
    small: &Small,
    number: u32,
) -> Result<Option<Arc<Wave, Global>>, AllocError>
    requires change { IsChange change.now }
    requires small { IsSmall change.now.old.now change.now.new.now small.now }
    requires low { number < length small.now.was.wires }
    ensures { IfOk result (λ wave. option_map arc_value wave ≡ slot_wave small.entry.now.was number (wire_at small.entry.now.was number)) }
{
    let wire = small.picked.wires.numbers[number as usize];
    change.run.waves().shared(WireId(wire))
}

fn all_ends(
    alloc: Global,
    change: &Revision<'_>,
    small: &Small,
) -> Result<Vec<Option<Memory>>, AllocError>
    requires change { IsChange change.now }
    requires small { IsSmall change.now.old.now change.now.new.now small.now }
    ensures { IfOk result (λ ends. AreSlots (length small.entry.now.was.modules) (end_memory small.entry.now.was) ends.items) }
{
    let mut ends = Vec::new(alloc);
    for k in 0..small.was.module_slots() {
        ends.push(end_of(change, small, k))?;
    }
    Ok(ends)
}

/// The last state of the region's module of this number.
fn end_of(change: &Revision<'_>, small: &Small, number: u32) -> Option<Memory>
    requires change { IsChange change.now }
    requires small { IsSmall change.now.old.now change.now.new.now small.now }
    requires low { number < length small.now.was.modules }
    ensures { result ≡ end_memory small.entry.now.was number }
{
    let id = small.picked.modules.numbers[number as usize];
    change.run.end_memory(ModuleId(id))
}

fn all_checkpoints(
    alloc: Global,
    change: &Revision<'_>,
    small: &Small,
) -> Result<Vec<Option<Arc<Checkpoints, Global>>>, AllocError>
    requires change { IsChange change.now }
    requires small { IsSmall change.now.old.now change.now.new.now small.now }
    ensures { IfOk result (λ kept. AreCheckpoints small.entry.now.was (map (option_map arc_value) kept.items)) }
{
    let mut kept = Vec::new(alloc);
    for k in 0..small.was.module_slots() {
        kept.push(checkpoints_of(change, small, k)?)?;
    }
    Ok(kept)
}

/// The states that are kept of the region's module of this number, if it exists.
fn checkpoints_of(
    change: &Revision<'_>,
    small: &Small,
    number: u32,
) -> Result<Option<Arc<Checkpoints, Global>>, AllocError>
    requires change { IsChange change.now }
    requires small { IsSmall change.now.old.now change.now.new.now small.now }
    requires low { number < length small.now.was.modules }
    ensures { IfOk result (λ kept. HasCheckpoints small.entry.now.was number (option_map arc_value kept)) }
{
    let id = ModuleId(small.picked.modules.numbers[number as usize]);
    match change.old.module(id) {
        Some(_) => change.run.shared_checkpoints(id),
        None => Ok(None),
    }
}
