//! Runs of a netlist, the partitions of a netlist, and how the runs of partitions are merged.
//!
//! `runs` has what an evaluation gives: the waves, and the states of modules at checkpoints (`Run`). `regions` has partitions, which read nothing
//! from each other but the wires that they name. `merging` makes the run of the netlist from theirs. Begin with `runs/run.rt`.
#![tactic(auto)]

mod merging;
mod regions;
mod runs;

pub use merging::{PartRun, merged, merged_waves};
pub use regions::{Division, InboundWires, Region, divide, heard_by, is_heard, partition_of};
pub use runs::{Checkpoint, Checkpoints, Run};
