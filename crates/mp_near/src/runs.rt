//! The run of a region, and the run of a netlist with it.

mod after;
mod before;
mod gate;
mod work_spans;

pub(crate) use after::run_after;
pub(crate) use before::run_before;
pub(crate) use gate::RegionGate;
pub(crate) use work_spans::all_work_spans;
