//! What parts of a netlist give, as what the netlist gives.
ghost use Rattle.std.specs.Prelude.{◌≡◌, ◌<◌, true, IfOk, length, map, option_map};
ghost use Rattle.std.specs.Arc.{arc_value};
ghost use Rattle.mp_netlist.specs.Slots.{slot_at};
ghost use Rattle.mp_netlist.specs.Circuit.{IsCircuit, wire_at};
ghost use Rattle.mp_model.specs.Waves.{slot_wave, AreWavesOf};
ghost use Rattle.mp_partition.specs.runs.Outcomes.{AreSlots};
ghost use Rattle.mp_partition.specs.runs.Runs.{AreCheckpoints, end_memory};
ghost use Rattle.mp_partition.specs.regions.Divisions.{IsDivision};
ghost use Rattle.mp_partition.specs.regions.Regions.{partition_of};
ghost use Rattle.mp_partition.specs.merging.PartRuns.{kept_in, AreRuns, HaveWaves, IsPartRun};

use crate::merging::part_run::PartRun;
use crate::regions::{Division, partition_of};
use crate::runs::Checkpoints;
use mp_model::Waves;
use mp_modules::Memory;
use mp_netlist::{ModuleId, Netlist, WireId};
use mp_wave::Wave;
use std::alloc::{AllocError, Global};
use std::sync::Arc;

/// Each wire's wave from the part whose modules drive it, and what is known of each module from its own part.
pub fn merged(
    alloc: Global,
    netlist: &Netlist,
    division: &Division,
    runs: &[PartRun],
) -> Result<PartRun, AllocError>
    requires form { IsCircuit netlist.now }
    requires division { IsDivision netlist.now division.now.homes.items division.now.wires.items division.now.heard.items division.now.parts }
    requires runs { AreRuns netlist.now division.now.homes.items division.now.heard.items division.now.parts true runs.now }
    ensures { IfOk result (λ run. IsPartRun netlist.now true run) }
{
    let waves = merged_waves(alloc, netlist, division, runs)?;
    let ends = merged_ends(alloc, netlist, division, runs)?;
    let kept = merged_checkpoints(alloc, netlist, division, runs)?;
    Ok(PartRun { waves, ends, kept })
}

/// Each wire's wave from the part whose modules drive it.
pub fn merged_waves(
    alloc: Global,
    netlist: &Netlist,
    division: &Division,
    runs: &[PartRun],
) -> Result<Waves, AllocError>
    requires form { IsCircuit netlist.now }
    requires division { IsDivision netlist.now division.now.homes.items division.now.wires.items division.now.heard.items division.now.parts }
    requires runs { HaveWaves netlist.now division.now.homes.items division.now.heard.items division.now.parts runs.now }
    ensures { IfOk result (λ waves. AreWavesOf netlist.now waves) }
{
    Ok(Waves::new(wave_list(alloc, netlist, division, runs)?))
}

fn wave_list(
    alloc: Global,
    netlist: &Netlist,
    division: &Division,
    runs: &[PartRun],
) -> Result<Vec<Option<Arc<Wave, Global>>>, AllocError>
    requires form { IsCircuit netlist.now }
    requires division { IsDivision netlist.now division.now.homes.items division.now.wires.items division.now.heard.items division.now.parts }
    requires runs { HaveWaves netlist.now division.now.homes.items division.now.heard.items division.now.parts runs.now }
    ensures { IfOk result (λ waves. AreSlots (length netlist.now.wires) (λ w. slot_wave netlist.now w (wire_at netlist.now w)) (map (option_map arc_value) waves.items)) }
{
    let mut waves = Vec::new(alloc);
    for w in 0..netlist.wire_slots() {
        waves.push(wave_of(netlist, division, runs, WireId(w))?)?;
    }
    Ok(waves)
}

/// The wave of a wire from the part whose modules drive it, or from the first, if no port does.
fn wave_of(
    netlist: &Netlist,
    division: &Division,
    runs: &[PartRun],
    wire: WireId,
) -> Result<Option<Arc<Wave, Global>>, AllocError>
    requires form { IsCircuit netlist.now }
    requires division { IsDivision netlist.now division.now.homes.items division.now.wires.items division.now.heard.items division.now.parts }
    requires runs { HaveWaves netlist.now division.now.homes.items division.now.heard.items division.now.parts runs.now }
    requires low { wire.0 < length netlist.now.wires }
    ensures { IfOk result (λ wave. option_map arc_value wave ≡ slot_wave netlist.now wire.0 (wire_at netlist.now wire.0)) }
{
    let part = part_of_wire(division, wire);
    shared_wave(&runs[part as usize], wire)
}

fn part_of_wire(division: &Division, wire: WireId) -> u32
    requires { 0 < division.now.parts }
    ensures low { result < division.now.parts }
    ensures home { partition_of division.now.wires.items wire.0 < division.now.parts → partition_of division.now.wires.items wire.0 ≡ result }
{
    let home = partition_of(division.wires.as_slice(), wire.0);
    if home < division.parts { home } else { 0 }
}

fn shared_wave(run: &PartRun, wire: WireId) -> Result<Option<Arc<Wave, Global>>, AllocError>
    ensures { IfOk result (λ wave. option_map arc_value wave ≡ slot_at run.now.waves wire.0) }
{
    run.waves.shared(wire)
}

fn merged_ends(
    alloc: Global,
    netlist: &Netlist,
    division: &Division,
    runs: &[PartRun],
) -> Result<Vec<Option<Memory>>, AllocError>
    requires form { IsCircuit netlist.now }
    requires division { IsDivision netlist.now division.now.homes.items division.now.wires.items division.now.heard.items division.now.parts }
    requires runs { AreRuns netlist.now division.now.homes.items division.now.heard.items division.now.parts true runs.now }
    ensures { IfOk result (λ ends. AreSlots (length netlist.now.modules) (end_memory netlist.now) ends.items) }
{
    let mut ends = Vec::new(alloc);
    for m in 0..netlist.module_slots() {
        ends.push(end_of(netlist, division, runs, ModuleId(m)))?;
    }
    Ok(ends)
}

/// The last state of a module.
fn end_of(netlist: &Netlist, division: &Division, runs: &[PartRun], id: ModuleId) -> Option<Memory>
    requires form { IsCircuit netlist.now }
    requires division { IsDivision netlist.now division.now.homes.items division.now.wires.items division.now.heard.items division.now.parts }
    requires runs { AreRuns netlist.now division.now.homes.items division.now.heard.items division.now.parts true runs.now }
    requires low { id.0 < length netlist.now.modules }
    ensures { result ≡ end_memory netlist.now id.0 }
{
    let part = partition_of(division.homes.as_slice(), id.0);
    end_in(&runs[part as usize], id)
}

fn end_in(run: &PartRun, id: ModuleId) -> Option<Memory>
    ensures { result ≡ slot_at run.now.ends.items id.0 }
{
    match run.ends.get(id.0 as usize) {
        Some(Some(memory)) => Some(*memory),
        _ => None,
    }
}

fn merged_checkpoints(
    alloc: Global,
    netlist: &Netlist,
    division: &Division,
    runs: &[PartRun],
) -> Result<Vec<Option<Arc<Checkpoints, Global>>>, AllocError>
    requires form { IsCircuit netlist.now }
    requires division { IsDivision netlist.now division.now.homes.items division.now.wires.items division.now.heard.items division.now.parts }
    requires runs { AreRuns netlist.now division.now.homes.items division.now.heard.items division.now.parts true runs.now }
    ensures { IfOk result (λ kept. AreCheckpoints netlist.now (map (option_map arc_value) kept.items)) }
{
    let mut kept = Vec::new(alloc);
    for m in 0..netlist.module_slots() {
        let part = partition_of(division.homes.as_slice(), m);
        kept.push(shared_checkpoints(&runs[part as usize], ModuleId(m))?)?;
    }
    Ok(kept)
}

fn shared_checkpoints(
    run: &PartRun,
    id: ModuleId,
) -> Result<Option<Arc<Checkpoints, Global>>, AllocError>
    ensures { IfOk result (λ kept. option_map arc_value kept ≡ slot_at (kept_in run.now) id.0) }
{
    match run.kept.get(id.0 as usize) {
        Some(Some(kept)) => Ok(Some(Arc::try_clone(kept)?)),
        _ => Ok(None),
    }
}
