//! The levels that wires begin with, and the waves that grow from them.
ghost use Rattle.std.specs.Prelude.{◌≡◌, ◌==◌, ◌≤◌, IfOk, map, if◌then◌else◌};
ghost use Rattle.mp_netlist.specs.Circuit.{wire_at};
ghost use Rattle.mp_model.specs.Levels.{initial_of};
ghost use Rattle.mp_simulation.specs.run.FirstLevels.{first_wave, first_building};

use mp_netlist::WireId;
use mp_partition::Region;
use mp_wave::{ToggleWave, WaveBuilder};
use std::alloc::{AllocError, Global};

/// 1 if a level is 1, and otherwise 0.
fn bit_of(level: u64) -> u64
    ensures value { result ≡ (if level == 1 then 1 else 0) }
    ensures low { result ≤ 1 }
{
    if level == 1 { 1 } else { 0 }
}

/// For each wire number a wave with the initial level, without changes so far. If the wire has data, it is a wave that nobody reads.
pub(crate) fn first_waves(
    alloc: Global,
    netlist: &Region<'_>,
) -> Result<Vec<ToggleWave>, AllocError>
    ensures { IfOk result (λ waves. waves.items ≡ map first_wave netlist.now.wires) }
{
    let mut waves = Vec::new(alloc);
    for w in 0..netlist.wire_slots() {
        let level = bit_of(netlist.initial_level(WireId(w)));
        waves.push(ToggleWave::constant(alloc, level))?;
    }
    Ok(waves)
}

/// For each number of a wire the wave of any width that is built from its initial level.
pub(crate) fn first_buildings(
    alloc: Global,
    netlist: &Region<'_>,
) -> Result<Vec<WaveBuilder>, AllocError>
    ensures { IfOk result (λ waves. waves.items ≡ map first_building netlist.now.wires) }
{
    let mut waves = Vec::new(alloc);
    for w in 0..netlist.wire_slots() {
        let level = netlist.initial_level(WireId(w));
        waves.push(WaveBuilder::new(alloc, level))?;
    }
    Ok(waves)
}
