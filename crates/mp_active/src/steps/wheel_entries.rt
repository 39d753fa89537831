//! Puts the known changes of wires that modules drive into the wheels.
ghost use Rattle.std.specs.Prelude.{◌<◌, ◌≤◌, ◌-◌, ◌+◌, ◌∷◌, [], All, OnOk};
ghost use Rattle.mp_wave.specs.Waveform.{between};
ghost use Rattle.mp_wave.specs.WaveChanges.{changes_in};
ghost use Rattle.mp_active.specs.steps.Putting.{HasPut, IsAhead, entries_of, room};

use mp_kernel::LevelChange;
use mp_simulation::{NetlistSimulation, StimulusChange};
use mp_wave::{Wave, WaveChanges};
use std::alloc::AllocError;

/// A wire with the wave that it had in the old run.
#[derive(Clone, Copy)]
pub struct OldWire<'a> {
    pub number: u32,
    pub has_data: bool,
    pub wave: &'a Wave,
}

/// After the unit of a time, a wire is to have the changes that it had in the old run later than one time and earlier than another.
pub fn put_old_changes(
    simulation: &mut NetlistSimulation,
    wire: OldWire<'_>,
    from: u32,
    to: u32,
    now: u32,
) -> Result<(), AllocError>
    requires later { now ≤ from }
    requires within { to - now ≤ room wire.has_data simulation.old + 1 }
    ensures { OnOk result (HasPut wire.entry.has_data (entries_of wire.entry.number now (between from to wire.entry.wave.now.changes)) simulation.old simulation.new) }
{
    put_changes(simulation, wire, wire.wave.changes_between(from, to), now)
}

/// After the unit of a time, a wire is to have these changes.
fn put_changes(
    simulation: &mut NetlistSimulation,
    wire: OldWire<'_>,
    changes: WaveChanges<'_>,
    now: u32,
) -> Result<(), AllocError>
    requires { All (IsAhead now (room wire.has_data simulation.old)) (changes_in changes) }
    ensures { OnOk result (HasPut wire.entry.has_data (entries_of wire.entry.number now (changes_in changes.entry)) simulation.old simulation.new) }
{
    let mut rest = changes;
    while let Some((change, later)) = rest.split_first() {
        let put = StimulusChange {
            time: change.0,
            wire: wire.number,
            has_data: wire.has_data,
            level: change.1,
        };
        put_change(simulation, put, now)?;
        rest = later;
    }
    Ok(())
}

/// After the unit of a time, a wire is to have this change.
pub fn put_change(
    simulation: &mut NetlistSimulation,
    change: StimulusChange,
    now: u32,
) -> Result<(), AllocError>
    requires later { now < change.time }
    requires within { change.time - now ≤ room change.has_data simulation.old }
    ensures { OnOk result (HasPut change.has_data (entries_of change.wire now ((change.time, change.level) ∷ [])) simulation.old simulation.new) }
{
    let units = (change.time - now) as usize;
    if change.has_data {
        let level = LevelChange {
            number: change.wire,
            level: change.level,
        };
        return simulation.wires.wheel.schedule(units, level);
    }
    simulation.bits.simulator.wheel.schedule(units, change.wire)
}
