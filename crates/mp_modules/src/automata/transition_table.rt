//! The transitions of all automata as one table.
ghost use Rattle.std.specs.Prelude.{◌≡◌, ◌<◌, IfOk};
ghost use Rattle.mp_modules.specs.declared.automata.automaton.Automaton.{Automaton as AnyAutomaton};
ghost use Rattle.mp_modules.specs.declared.automata.phase.Phase.{Phase as AnyPhase};
ghost use Rattle.mp_modules.specs.declared.automata.events.Events.{Events as AnyEvents};
ghost use Rattle.mp_modules.specs.automata.Codes.{state_code};
ghost use Rattle.mp_modules.specs.automata.Transitions.{transition_of, IsTable};

use crate::automata::automaton::{AUTOMATA, Automaton};
use crate::automata::automaton_state::AutomatonState;
use crate::automata::events::{EVENT_SETS, Events};
use crate::automata::phase::{PHASES, Phase};
use crate::automata::transition::Transition;
use std::alloc::{AllocError, Global};
use std::marker::Model;

/// The number of states.
const STATES: u16 = AUTOMATA * PHASES * EVENT_SETS;

/// The transition of each state.
#[derive(Drop)]
pub struct TransitionTable {
    list: Vec<Transition>,
}

impl Model for TransitionTable {
    ghost use Rattle.std.specs.Prelude.{List};
    ghost use Rattle.mp_modules.specs.declared.automata.transition.Transition.{Transition};
    ghost use Rattle.mp_modules.specs.automata.Transitions.{IsTable};

    ghost Value = { List Transition };

    ghost view = { λ table. table.list.items };

    ghost invariant = { λ table. IsTable table.list.items };
}

impl TransitionTable {
    ghost use Rattle.std.specs.Prelude.{◌≡◌, ◌<◌};
    ghost use Rattle.mp_modules.specs.declared.automata.automaton.Automaton.{Automaton as AnyAutomaton};
    ghost use Rattle.mp_modules.specs.declared.automata.phase.Phase.{Phase as AnyPhase};
    ghost use Rattle.mp_modules.specs.declared.automata.events.Events.{Events as AnyEvents};
    ghost use Rattle.mp_modules.specs.automata.Codes.{state_code};
    ghost use Rattle.mp_modules.specs.automata.Transitions.{IsTable, transition_of};

    /// Makes the table from the reaction of each automaton in each phase to each set of events.
    pub fn new(alloc: Global) -> Result<TransitionTable, AllocError> {
        let list = all_transitions(alloc)?;
        Ok(TransitionTable { list })
    }

    /// The transition from a state.
    #[inline(always)]
    pub fn of(&self, state: AutomatonState) -> Transition
        requires { state.0 < 2112 }
        ensures { (a : AnyAutomaton) (k : AnyPhase) (e : AnyEvents) → state.0 ≡ state_code a k e → result ≡ transition_of a k e }
    {
        self.list[state.0 as usize]
    }
}

fn all_transitions(alloc: Global) -> Result<Vec<Transition>, AllocError>
    ensures { IfOk result (λ list. IsTable list.items) }
{
    let mut list = Vec::new(alloc);
    for place in 0..STATES {
        list.push(transition_at(place))?;
    }
    Ok(list)
}

/// The transition at a place.
fn transition_at(place: u16) -> Transition
    requires { place < 2112 }
    ensures { (a : AnyAutomaton) (k : AnyPhase) (e : AnyEvents) → place ≡ state_code a k e → result ≡ transition_of a k e }
{
    Transition::of(
        Automaton::from_code(place / (EVENT_SETS * PHASES)),
        Phase::from_code(place / EVENT_SETS % PHASES),
        Events::from_code(place % EVENT_SETS),
    )
}
