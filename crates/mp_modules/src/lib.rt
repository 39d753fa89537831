//! The kinds of event module: what each kind holds, how an input event changes it, and which rules its environment can break.
//!
//! `CoreModule` has the kinds that join or steer events, a file for each kind with more than a table of answers. The folder `storage` has REG, the kinds
//! that hold nothing (`Function`), and `AnyModule`, which is any kind at all. `automata` has the modules of width 1 as automata, which answer all events
//! of a unit from one table. Begin with `kind.rt` and `event_module.rt`.
#![tactic(auto)]

mod arbiter;
pub mod automata;
mod call;
mod core_module;
mod event_module;
mod finding_code;
mod finding_set;
mod function;
mod kind;
pub mod laws;
mod least_delay;
mod level;
mod memory;
mod merge;
mod rendezvous;
mod select;
mod shape;
pub mod storage;
mod toggle;

pub use automata::{
    Automaton, AutomatonState, Events, Phase, PortLevels, Reaction, Toggles, Transition,
    TransitionTable, event_bit,
};
pub use core_module::CoreModule;
pub use event_module::EventModule;
pub use finding_code::FindingCode;
pub use finding_set::{CODES, FindingSet};
pub use function::Function;
pub use kind::Kind;
pub use least_delay::lesser_delay;
pub use level::fits_width;
pub use memory::{Client, MOST_INPUTS, MOST_OUTPUTS, Memory, Waiting, level_at};
pub use rendezvous::Rendezvous;
pub use shape::Shape;
pub use storage::{AnyModule, DataPart, FunctionModule, OutputLevels, Reg};
