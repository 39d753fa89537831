//! A module takes its place in the simulation.
ghost use Rattle.std.specs.Prelude.{◌<◌, ◌-◌, ◌^◌, length, IfSome, IfOk};
ghost use Rattle.mp_active.specs.steps.Seating.{IsBitSeated, HasTakenSeat};

use mp_kernel::DataModule;
use mp_modules::{AnyModule, Automaton, AutomatonState, Memory, Phase, PortLevels};
use mp_simulation::NetlistSimulation;
use std::alloc::AllocError;

/// A module of width 1 is in a state, and has had no event.
pub fn seat_bits(simulation: &mut NetlistSimulation, number: u32, part: &AnyModule, memory: &Memory)
    requires place { number < length simulation.old.bits.simulator.states.items }
    requires levels { number < length simulation.old.bits.simulator.levels.items }
    ensures { IsBitSeated number part.now memory.now simulation.old simulation.new }
{
    let m = number as usize;
    let state = AutomatonState::quiet(Automaton::of(part), Phase::of(part, memory));
    simulation.bits.simulator.states[m] = state;
    simulation.bits.simulator.levels[m] = PortLevels::of(memory);
}

/// A module with data takes a seat among those with data: the one that it has had before, if any, and otherwise a new one, which is returned.
pub fn seat_data(
    simulation: &mut NetlistSimulation,
    number: u32,
    seat: Option<u32>,
    state: DataModule,
) -> Result<u32, AllocError>
    requires place { number < length simulation.old.modules.places.items }
    requires seat { IfSome seat (λ k. k < length simulation.old.modules.modules.items) }
    requires few { length simulation.old.modules.modules.items < 2 ^ 32 - 1 }
    ensures { IfOk result (λ place. HasTakenSeat number seat state place simulation.old simulation.new) }
{
    let modules = &mut simulation.modules.modules;
    let place = match seat {
        Some(place) => {
            modules[place as usize] = state;
            place
        }
        None => {
            modules.push(state)?;
            modules.len() as u32 - 1
        }
    };
    simulation.modules.places[number as usize] = Some(place);
    Ok(place)
}
