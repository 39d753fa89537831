//! The transitions of modules of width 1.

use crate::automata::automaton::Automaton;
use crate::automata::automaton_state::AutomatonState;
use crate::automata::events::Events;
use crate::automata::phase::Phase;

/// The transition from a state: the state before the next unit, and the ports whose levels change in this unit, with the bits of `PortLevels`. The
/// bit of an output that toggles is 16 for the first, 32 for the second and 64 for the third.
#[derive(Clone, Copy)]
pub struct Transition {
    pub next: AutomatonState,
    pub flips: u8,
}

impl Transition {
    ghost use Rattle.std.specs.Prelude.{◌≡◌};
    ghost use Rattle.mp_modules.specs.automata.Transitions.{transition_of};

    /// The transition of an automaton from a phase by a unit with these events.
    pub(crate) fn of(automaton: Automaton, phase: Phase, events: Events) -> Transition
        ensures { result ≡ transition_of automaton phase events }
    {
        let reaction = automaton.react(phase, events);
        Transition {
            next: AutomatonState::quiet(automaton, reaction.phase),
            flips: events.code() + reaction.toggles.code() * 16,
        }
    }
}
