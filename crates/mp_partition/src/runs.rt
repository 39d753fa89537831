//! What an evaluation of a netlist gives: waves, and states of modules.

mod bit_memory;
mod checkpoint;
mod checkpoints;
mod run;
mod shared_states;
mod state_list;
mod states;

pub use checkpoint::Checkpoint;
pub use checkpoints::Checkpoints;
pub use run::Run;
