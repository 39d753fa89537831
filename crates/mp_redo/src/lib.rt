//! Re-evaluation: the new run of an edited netlist, from its old run and the modules that the edit reaches.
//!
//! `rerun` does it for any netlist. `parts` does it part by part if the netlist falls into groups of modules that no wire connects (`apart`), and its
//! `redo` is what sessions call. Begin with `parts/redoing.rt`, then `rerun/redoing.rt`.
#![tactic(auto)]

pub mod apart;
mod parts;
pub mod rerun;

pub use parts::redo;
pub use rerun::RerunContext;
