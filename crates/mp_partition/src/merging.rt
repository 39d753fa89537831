//! What parts of a netlist give, and what the netlist gives by that.

mod merging;
mod part_run;

pub use merging::{merged, merged_waves};
pub use part_run::PartRun;
