//! A simulation of any netlist, unit by unit: modules of width 1 and modules with data.

mod data_modules;
mod data_wires;
pub mod laws;
mod netlist_simulation;

pub use data_modules::DataModules;
pub use data_wires::DataWires;
pub use netlist_simulation::NetlistSimulation;
