//! The run of a part of a netlist, unit by unit, and the states that it keeps on its way.

mod gate;
mod marks;
mod region_run;
mod state_history;

pub use region_run::RegionRun;
