//! Modules of width 1 as automata. An event is an event whether its wire rises or falls, so an automaton knows no levels.

mod automaton;
mod automaton_state;
mod client_rules;
mod events;
pub mod laws;
mod phase;
mod port_levels;
mod reaction;
mod rules;
mod toggles;
mod transition;
mod transition_table;

pub use automaton::Automaton;
pub use automaton_state::AutomatonState;
pub use events::{Events, event_bit};
pub use phase::Phase;
pub use port_levels::PortLevels;
pub use reaction::Reaction;
pub use toggles::Toggles;
pub use transition::Transition;
pub use transition_table::TransitionTable;
