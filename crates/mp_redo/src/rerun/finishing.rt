//! The run of a netlist that was evaluated again, and the work spans of work.
ghost use Rattle.std.specs.Prelude.{◌≡◌, ◌<◌, ◌≤◌, Some, IfOk, IsSome, length, map, option_map};
ghost use Rattle.std.specs.Arc.{arc_value};
ghost use Rattle.mp_netlist.specs.Circuit.{wire_at};
ghost use Rattle.mp_model.specs.Waves.{slot_wave};
ghost use Rattle.mp_partition.specs.runs.Outcomes.{AreSlots, wave_of};
ghost use Rattle.mp_partition.specs.runs.Runs.{end_memory};
ghost use Rattle.mp_simulation.specs.run.Runs.{wave_for};
ghost use Rattle.mp_redo.specs.rerun.Finishing.{HaveEnds, HaveWaves};
ghost use Rattle.mp_redo.specs.rerun.Splicing.{IsSplicedAt};
ghost use Rattle.mp_redo.specs.rerun.Reruns.{IsChange};

use crate::rerun::change::Change;
use crate::rerun::rerun::Rerun;
use crate::rerun::splicing::spliced_wave;
use mp_active::WireSource;
use mp_active::agreement::laws::{readers_agree, sleepers_agree, sleepers_rest, wires_agree};
use mp_active::compare::laws::runs_are_old;
use mp_active::excerpt::laws::{excerpts_are_circuits, excerpts_are_simulated, excerpts_show};
use mp_depend::{Finished, RerunRecorder, WorkSpan, old_from};
use mp_kernel::WaveTable;
use mp_model::Waves;
use mp_modules::Memory;
use mp_netlist::{ModuleId, WireId, WireRecord};
use mp_partition::Run;
use mp_simulation::{DataWires, NetlistSimulation, Simulation, Simulator};
use mp_wave::{ToggleWave, Wave, WaveBuilder};
use std::alloc::{AllocError, Global};
use std::sync::Arc;

impl Rerun {
    ghost use Rattle.std.specs.Prelude.{◌≡◌, IfOk};
    ghost use Rattle.mp_partition.specs.runs.Runs.{IsRun};
    ghost use Rattle.mp_depend.specs.work.WorkSpans.{AreWorkSpans};
    ghost use Rattle.mp_redo.specs.rerun.Reruns.{IsChange};
    ghost use Rattle.mp_redo.specs.rerun.Settling.{HasEnded};

    /// The run and all work spans of work, if all units before an end are over. From then on the rest is that of the old run. What is the old run's
    /// is shared.
    pub(crate) fn finish(
        self,
        alloc: Global,
        change: &Change<'_>,
        end: u32,
    ) -> Result<(Run, Vec<WorkSpan>), AllocError>
        requires change { IsChange change.now }
        requires over { HasEnded change.now.old.now change.now.new.now change.now.run.now end self }
        ensures run { IfOk result (λ both. IsRun change.now.new.now both.0) }
        ensures work_spans { IfOk result (λ both. AreWorkSpans change.now.old.now change.now.new.now both.1.items) }
    {
        excerpts_are_circuits();
        excerpts_show();
        excerpts_are_simulated();
        sleepers_agree();
        sleepers_rest();
        readers_agree();
        wires_agree();
        runs_are_old();
        let Remains {
            simulation,
            sources,
            active,
            recorder,
        } = remains_of(self);
        let Ok(ends) = all_ends(alloc, change, &simulation, active.as_slice()) else {
            drop(simulation);
            drop(recorder);
            return Err(AllocError);
        };
        let Ok(waves) = all_waves(alloc, change, simulation, sources.as_slice(), end) else {
            drop(recorder);
            return Err(AllocError);
        };
        let Finished { kept, work_spans } = recorder.finish(alloc, change.run, change.new)?;
        let run = Run::new(change.new.horizon(), Waves::new(waves), ends, kept);
        Ok((run, work_spans))
    }
}

/// What a re-evaluation leaves: the simulation, if the levels of each wire come from, which modules are active, and what was kept on the way.
#[derive(Drop)]
struct Remains {
    simulation: NetlistSimulation,
    sources: Vec<WireSource>,
    active: Vec<bool>,
    recorder: RerunRecorder,
}

fn remains_of(rerun: Rerun) -> Remains
    ensures { result ≡ record { simulation = rerun.simulation; sources = rerun.comparison.sources; active = rerun.activity.active; recorder = rerun.recorder } }
{
    let Rerun {
        simulation,
        comparison,
        activity,
        recorder,
        ..
    } = rerun;
    Remains {
        simulation,
        sources: comparison.sources,
        active: activity.active,
        recorder,
    }
}

/// The last state of each module that exists.
fn all_ends(
    alloc: Global,
    change: &Change<'_>,
    simulation: &NetlistSimulation,
    active: &[bool],
) -> Result<Vec<Option<Memory>>, AllocError>
    requires places { length active.now ≡ length change.now.new.now.modules }
    requires ends { HaveEnds change.now.new.now change.now.run.now active.now simulation.now }
    ensures { IfOk result (λ ends. AreSlots (length change.now.new.now.modules) (end_memory change.now.new.now) ends.items) }
{
    let mut ends = Vec::new(alloc);
    for m in 0..change.new.module_slots() {
        ends.push(last_state(change, simulation, active, ModuleId(m)))?;
    }
    Ok(ends)
}

/// The last state of a module that exists: that of the simulation if the module is active, and otherwise that of the old run.
fn last_state(
    change: &Change<'_>,
    simulation: &NetlistSimulation,
    active: &[bool],
    id: ModuleId,
) -> Option<Memory>
    requires within { id.0 < length active.now }
    requires places { length active.now ≡ length change.now.new.now.modules }
    requires ends { HaveEnds change.now.new.now change.now.run.now active.now simulation.now }
    ensures { result ≡ end_memory change.now.new.now id.0 }
{
    change.new.module(id)?;
    if !active[id.0 as usize] {
        return change.run.end_memory(id);
    }
    Some(simulation.memory(id.0))
}

/// The wave of each wire that exists.
fn all_waves(
    alloc: Global,
    change: &Change<'_>,
    simulation: NetlistSimulation,
    sources: &[WireSource],
    end: u32,
) -> Result<Vec<Option<Arc<Wave, Global>>>, AllocError>
    requires waves { HaveWaves change.now.new.now change.now.run.now sources.now end simulation }
    ensures { IfOk result (λ waves. AreSlots (length change.now.new.now.wires) (λ w. slot_wave change.now.new.now w (wire_at change.now.new.now w)) (map (option_map arc_value) waves.items)) }
{
    let SimulatedWaves { toggles, levels } = waves_in(simulation);
    let mut toggles = toggles.into_waves()?.into_iter();
    let mut levels = levels.into_iter();
    let mut found = Vec::new(alloc);
    for w in 0..change.new.wire_slots() {
        let toggled = toggles.next();
        let level = levels.next();
        let from = old_from(sources[w as usize].until, end);
        found.push(wave_in(alloc, change, WireId(w), from, toggled, level)?)?;
    }
    Ok(found)
}

/// The waves that a simulation has: by toggles, of wires of width 1, and those that were built.
#[derive(Drop)]
struct SimulatedWaves {
    toggles: WaveTable,
    levels: Vec<WaveBuilder>,
}

fn waves_in(simulation: NetlistSimulation) -> SimulatedWaves
    ensures toggles { result.toggles ≡ simulation.bits.simulator.waves }
    ensures levels { result.levels.items ≡ simulation.wires.waves.items }
{
    let NetlistSimulation { bits, wires, .. } = simulation;
    let Simulation { simulator, .. } = bits;
    let Simulator { waves, .. } = simulator;
    let DataWires { waves: levels, .. } = wires;
    SimulatedWaves {
        toggles: waves,
        levels,
    }
}

/// The wave of a wire that exists: that of the old run if it has all its levels, and otherwise that of the simulation, which the old run's may
/// continue from a time on.
fn wave_in(
    alloc: Global,
    change: &Change<'_>,
    wire: WireId,
    from: u32,
    toggles: Option<ToggleWave>,
    built: Option<WaveBuilder>,
) -> Result<Option<Arc<Wave, Global>>, AllocError>
    requires old { from ≡ 0 → IsSome (wire_at change.now.new.now wire.0) → wave_of change.now.run.now wire.0 ≡ slot_wave change.now.new.now wire.0 (wire_at change.now.new.now wire.0) }
    requires shown { change.now.new.now.horizon ≤ from → wave_for (wire_at change.now.new.now wire.0) toggles built ≡ slot_wave change.now.new.now wire.0 (wire_at change.now.new.now wire.0) }
    requires spliced { 0 < from → from < change.now.new.now.horizon → IsSome (wire_at change.now.new.now wire.0) → IsSplicedAt change.now.new.now change.now.run.now wire.0 from (wave_for (wire_at change.now.new.now wire.0) toggles built) }
    ensures { IfOk result (λ wave. option_map arc_value wave ≡ slot_wave change.now.new.now wire.0 (wire_at change.now.new.now wire.0)) }
{
    let Some(found) = change.new.wire(wire) else {
        drop(toggles);
        drop(built);
        return Ok(None);
    };
    if from == 0 {
        drop(toggles);
        drop(built);
        return change.run.waves().shared(wire);
    }
    match shown_wave(found, toggles, built) {
        Some(shown) => {
            let wave = whole_wave(alloc, change, wire, from, shown)?;
            Ok(Some(Arc::new(alloc, wave)?))
        }
        None => Ok(None),
    }
}

/// The wave of a wire that exists: the given wave, or that wave before a time and the old run's from then on.
fn whole_wave(
    alloc: Global,
    change: &Change<'_>,
    wire: WireId,
    from: u32,
    shown: Wave,
) -> Result<Wave, AllocError>
    requires stands { IsSome (wire_at change.now.new.now wire.0) }
    requires some { 0 < from }
    requires shown { change.now.new.now.horizon ≤ from → Some shown ≡ slot_wave change.now.new.now wire.0 (wire_at change.now.new.now wire.0) }
    requires spliced { from < change.now.new.now.horizon → IsSplicedAt change.now.new.now change.now.run.now wire.0 from (Some shown) }
    ensures { IfOk result (λ wave. Some wave ≡ slot_wave change.now.new.now wire.0 (wire_at change.now.new.now wire.0)) }
{
    let horizon = change.new.horizon();
    if from >= horizon {
        return Ok(shown);
    }
    spliced_wave(alloc, &shown, from, change.run, wire, horizon)
}

/// The wave that a simulation has of a wire: by its toggles, if it has width 1, and otherwise the one that was built.
fn shown_wave(
    found: &WireRecord,
    toggles: Option<ToggleWave>,
    built: Option<WaveBuilder>,
) -> Option<Wave>
    ensures { result ≡ wave_for (Some found.now) toggles built }
{
    if found.width == 1 {
        return toggled_wave(toggles);
    }
    match built {
        Some(wave) => Some(wave.finish()),
        None => None,
    }
}

/// The wave by its toggles, as one of any width.
fn toggled_wave(toggles: Option<ToggleWave>) -> Option<Wave>
    ensures { result ≡ toggles }
{
    match toggles {
        Some(wave) => Some(Wave::from(wave)),
        None => None,
    }
}
