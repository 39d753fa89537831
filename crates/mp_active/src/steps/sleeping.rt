//! A module leaves its place in the simulation.
ghost use Rattle.std.specs.Prelude.{◌<◌, length};
ghost use Rattle.mp_active.specs.steps.Sleeping.{IsPutToSleep};

use mp_modules::{Automaton, AutomatonState, Phase};
use mp_simulation::NetlistSimulation;

/// The place of a module sleeps: it does nothing whatever its inputs have.
pub fn put_to_sleep(simulation: &mut NetlistSimulation, number: u32)
    requires place { number < length simulation.old.bits.simulator.states.items }
    requires seat { number < length simulation.old.modules.places.items }
    ensures { IsPutToSleep number simulation.old simulation.new }
{
    let m = number as usize;
    let asleep = AutomatonState::quiet(Automaton::Sleep, Phase::unserved(false, false));
    simulation.bits.simulator.states[m] = asleep;
    simulation.modules.places[m] = None;
}
