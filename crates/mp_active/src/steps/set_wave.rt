//! A wire gets its level and its wave.
ghost use Rattle.std.specs.Prelude.{◌≡◌, ◌<◌, ◌≤◌, ℕ, true, false, length, OnOk};
ghost use Rattle.mp_wave.specs.Waveform.{IsWaveform, kept_before, level_of};
ghost use Rattle.mp_active.specs.steps.TurningOn.{wave_places, HasSetLevel, HasSetWave};

use crate::steps::wheel_entries::OldWire;
use mp_simulation::NetlistSimulation;
use mp_wave::{ToggleWave, WaveBuilder};
use std::alloc::AllocError;

/// A wire has the level that it had in the old run at a time.
pub(crate) fn set_level(simulation: &mut NetlistSimulation, wire: OldWire<'_>, now: u32)
    requires { wire.number < length simulation.old.wires.levels.items }
    ensures level { HasSetLevel wire.entry.number (level_of wire.entry.wave.now now) simulation.old simulation.new }
    ensures form { IsWaveform wire.entry.wave.now }
{
    let level = wire.wave.level_at(now);
    simulation.wires.levels[wire.number as usize] = level;
}

/// A wire has the wave that it had in the old run before a time.
pub(crate) fn set_wave(
    simulation: &mut NetlistSimulation,
    wire: OldWire<'_>,
    upto: u32,
) -> Result<(), AllocError>
    requires some { 0 < upto }
    requires place { wire.number < wave_places wire.has_data simulation.old }
    requires low { wire.has_data ≡ false → (u : ℕ) → level_of wire.wave.now u ≤ 1 }
    ensures { OnOk result (HasSetWave wire.entry.has_data (kept_before upto wire.entry.wave.now) wire.entry.number upto simulation.old simulation.new) }
{
    if wire.has_data {
        return set_built_wave(simulation, wire, upto);
    }
    set_toggle_wave(simulation, wire, upto)
}

/// So it is with a wire with data.
fn set_built_wave(
    simulation: &mut NetlistSimulation,
    wire: OldWire<'_>,
    upto: u32,
) -> Result<(), AllocError>
    requires some { 0 < upto }
    requires place { wire.number < length simulation.old.wires.waves.items }
    ensures { OnOk result (HasSetWave true (kept_before upto wire.entry.wave.now) wire.entry.number upto simulation.old simulation.new) }
{
    let alloc = *simulation.wires.waves.allocator();
    let built = WaveBuilder::from_prefix(alloc, wire.wave, upto)?;
    simulation.wires.waves[wire.number as usize] = built;
    Ok(())
}

/// So it is with a wire of width 1.
fn set_toggle_wave(
    simulation: &mut NetlistSimulation,
    wire: OldWire<'_>,
    upto: u32,
) -> Result<(), AllocError>
    requires some { 0 < upto }
    requires place { wire.number < length simulation.old.bits.simulator.waves }
    requires low { (u : ℕ) → level_of wire.wave.now u ≤ 1 }
    ensures { OnOk result (HasSetWave false (kept_before upto wire.entry.wave.now) wire.entry.number upto simulation.old simulation.new) }
{
    let alloc = *simulation.wires.waves.allocator();
    let toggles = ToggleWave::from_prefix(alloc, wire.wave, upto)?;
    simulation.bits.simulator.waves.set(wire.number, toggles)?;
    Ok(())
}
