//! The waves of a simulation that has come to the horizon.
ghost use Rattle.std.specs.Prelude.{◌≡◌, ◌-◌, IfOk, option_map};
ghost use Rattle.mp_netlist.specs.Circuit.{IsCircuit, wire_at};
ghost use Rattle.mp_model.specs.Waves.{AreWavesOf};
ghost use Rattle.mp_simulation.specs.units.NetlistSimulations.{IsSimulated};
ghost use Rattle.mp_simulation.specs.run.Runs.{wave_built, wave_for};

use crate::bits::{Simulation, Simulator};
use crate::units::{DataWires, NetlistSimulation};
use mp_kernel::WaveTable;
use mp_netlist::WireId;
use mp_partition::Region;
use mp_wave::{ToggleWave, Wave, WaveBuilder};
use std::alloc::{AllocError, Global};

/// The wave of each wire of a netlist after the last unit, by wire number; `None` if there is no wire.
pub fn found_waves(
    alloc: Global,
    netlist: &Region<'_>,
    simulation: NetlistSimulation,
) -> Result<Vec<Option<Wave>>, AllocError>
    requires form { IsCircuit netlist.now }
    requires over { IsSimulated netlist.now (netlist.now.horizon - 1) simulation }
    ensures { IfOk result (λ waves. AreWavesOf netlist.now waves.items) }
{
    let SimulatedWaves { toggles, levels } = simulated_waves(simulation);
    let mut toggles = toggles.into_waves()?.into_iter();
    let mut levels = levels.into_iter();
    let mut found = Vec::new(alloc);
    for w in 0..netlist.wire_slots() {
        let toggled = toggles.next();
        let level = levels.next();
        found.push(wave_of(netlist, WireId(w), toggled, level))?;
    }
    Ok(found)
}

/// The waves that a simulation has: by toggles, of wires of width 1, and those that were built.
#[derive(Drop)]
struct SimulatedWaves {
    toggles: WaveTable,
    levels: Vec<WaveBuilder>,
}

fn simulated_waves(simulation: NetlistSimulation) -> SimulatedWaves
    ensures toggles { result.toggles ≡ simulation.bits.simulator.waves }
    ensures levels { result.levels.items ≡ simulation.wires.waves.items }
{
    let NetlistSimulation { bits, wires, .. } = simulation;
    let Simulation { simulator, .. } = bits;
    let Simulator { waves: toggles, .. } = simulator;
    let DataWires { waves: levels, .. } = wires;
    SimulatedWaves { toggles, levels }
}

/// The wave of a wire: by its toggles, if it has width 1, and otherwise the one that was built.
fn wave_of(
    netlist: &Region<'_>,
    wire: WireId,
    toggles: Option<ToggleWave>,
    built: Option<WaveBuilder>,
) -> Option<Wave>
    ensures { result ≡ wave_for (wire_at netlist.now wire.0) toggles built }
{
    match netlist.wire_width(wire) {
        Some(width) => {
            if width == 1 {
                toggled_wave(toggles)
            } else {
                built_wave(built)
            }
        }
        None => None,
    }
}

/// The wave by its toggles as one of any width.
pub(crate) fn toggled_wave(wave: Option<ToggleWave>) -> Option<Wave>
    ensures { result ≡ wave }
{
    match wave {
        Some(wave) => Some(Wave::from(wave)),
        None => None,
    }
}

/// The wave that was built.
fn built_wave(wave: Option<WaveBuilder>) -> Option<Wave>
    ensures { result ≡ option_map wave_built wave }
{
    match wave {
        Some(wave) => Some(wave.finish()),
        None => None,
    }
}
