//! The simulation of a whole netlist on one thread, unit by unit.
//!
//! `bits` simulates the modules of width 1, and its laws say why that is right. `units` adds the modules with data: `NetlistSimulation` goes from
//! unit to unit. `run` makes a simulation from a netlist and puts its waves together at the end. Begin with `units/netlist_simulation.rt`.
#![tactic(auto)]

pub mod bits;
mod run;
pub mod units;

pub use bits::{DelayedCopies, Simulation, Simulator};
pub use run::{
    HeardChanges, Layout, Stimuli, StimulusChange, WavesRun, WiredInputs, Wiring, all_outputs,
    begin, data_module, found_waves, is_narrow, is_seen_at_rest,
};
pub use units::{DataModules, DataWires, NetlistSimulation};
