//! A wire is turned on: the simulation has its levels from now on.
ghost use Rattle.std.specs.Prelude.{◌≡◌, ◌<◌, length, OnOk};
ghost use Rattle.mp_kernel.specs.events.Firing.{copy_at};
ghost use Rattle.mp_active.specs.steps.Chains.{next_in, CanTurnCopies, AreCopiesTurned};
ghost use Rattle.mp_active.specs.steps.TurningOn.{CanTurnOn, TurnsOn};

use crate::steps::copying::{Copied, turn_copy_on};
use crate::steps::set_wave::{set_level, set_wave};
use crate::steps::wheel_entries::OldWire;
use mp_kernel::OutputPort;
use mp_simulation::NetlistSimulation;
use std::alloc::AllocError;

/// After the unit of a time, a wire has the level and the wave that it had in the old run, and so have its delayed copies.
pub fn turn_on(
    simulation: &mut NetlistSimulation,
    wire: OldWire<'_>,
    now: u32,
) -> Result<(), AllocError>
    requires { CanTurnOn wire.has_data wire.wave.now wire.number now simulation.old }
    ensures { OnOk result (TurnsOn wire.entry.has_data wire.entry.wave.now wire.entry.number now simulation.old simulation.new) }
{
    set_level(simulation, wire, now);
    set_wave(simulation, wire, now + 1)?;
    turn_copies_on(simulation, wire, now)?;
    Ok(())
}

/// After the unit of a time, the delayed copies of a wire have their levels and what is in flight.
pub fn turn_copies_on(
    simulation: &mut NetlistSimulation,
    wire: OldWire<'_>,
    now: u32,
) -> Result<(), AllocError>
    requires { CanTurnCopies wire.has_data wire.number now simulation.old }
    ensures { OnOk result (AreCopiesTurned wire.entry.has_data wire.entry.wave.now wire.entry.number now simulation.old simulation.new) }
{
    let mut before = wire.number;
    let mut sooner = 0;
    while sooner <= now {
        let port = next_copy(simulation, wire.has_data, before);
        let Some(number) = port.wire else {
            return Ok(());
        };
        let delay = sooner + u32::from(port.delay);
        let copy = Copied {
            number,
            sooner,
            delay,
        };
        turn_copy_on(simulation, wire, copy, now)?;
        before = number;
        sooner = delay;
    }
    Ok(())
}

/// The next copy after a number, if any, and how much later it is.
fn next_copy(simulation: &NetlistSimulation, has_data: bool, number: u32) -> OutputPort
    requires { number < length (next_in has_data simulation.now) }
    ensures { result ≡ copy_at (next_in has_data simulation.now) number }
{
    if has_data {
        simulation.wires.next[number as usize]
    } else {
        simulation.bits.copies.next[number as usize]
    }
}
