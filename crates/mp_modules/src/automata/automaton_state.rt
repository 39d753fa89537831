//! The state of a module of width 1 within a unit.

use crate::Memory;
use crate::automata::automaton::Automaton;
use crate::automata::events::EVENT_SETS;
use crate::automata::phase::{PHASES, Phase};
use crate::automata::port_levels::PortLevels;

/// The state of a module of width 1 within a unit: its automaton, its phase before the unit, and which inputs have had an event in it so far. It is
/// the index of their transition in a `TransitionTable`.
#[derive(Clone, Copy)]
pub struct AutomatonState(pub u16);

impl AutomatonState {
    ghost use Rattle.std.specs.Prelude.{◌≡◌, ◌<◌, ◌+◌, ◌%◌, ◌^◌, ◌==◌};
    ghost use Rattle.mp_modules.specs.declared.memory.Memory.{Memory as AnyMemory};
    ghost use Rattle.mp_modules.specs.declared.storage.any_module.AnyModule.{AnyModule};
    ghost use Rattle.mp_modules.specs.automata.Automata.{automaton_of};
    ghost use Rattle.mp_modules.specs.automata.Phases.{phase_of};
    ghost use Rattle.mp_modules.specs.automata.BitModules.{IsBitState};
    ghost use Rattle.mp_modules.specs.automata.Codes.{state_code, no_events};
    ghost use Rattle.mp_modules.specs.automata.PortLevels.{levels_code};

    /// The state before the first event of a unit.
    pub fn quiet(automaton: Automaton, phase: Phase) -> AutomatonState
        ensures { result.0 ≡ state_code automaton phase no_events }
    {
        AutomatonState((automaton.code() * PHASES + phase.code()) * EVENT_SETS)
    }

    /// Adds the event of an input that has had none in this unit, by its bit (`event_bit`). Returns whether it is the module's first event in this
    /// unit.
    #[inline(always)]
    pub fn add_event(&mut self, event: u16) -> bool
        requires { self.old.0 + event < 2 ^ 16 }
        ensures added { self.new.0 ≡ self.old.0 + event }
        ensures first { result ≡ (self.old.0 % 16 == 0) }
    {
        let is_first = self.0 % EVENT_SETS == 0;
        self.0 += event;
        is_first
    }

    /// The module's state before any event of this unit, if its ports have these levels.
    pub fn memory(self, levels: PortLevels) -> Memory
        ensures { (part : AnyModule) (m : AnyMemory) → IsBitState part m → self.0 ≡ state_code (automaton_of part) (phase_of part m) no_events → levels.0 ≡ levels_code m →
            result ≡ m }
    {
        let automaton = Automaton::from_code(self.0 / (EVENT_SETS * PHASES));
        let phase = Phase::from_code(self.0 / EVENT_SETS % PHASES);
        let clients = automaton.clients(phase);
        Memory {
            inputs: levels.inputs(),
            outputs: levels.outputs(),
            served: clients.served,
            waiting: clients.waiting,
        }
    }
}
