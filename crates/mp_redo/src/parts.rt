//! A change of a netlist is evaluated again part by part, if the netlist falls into groups of modules that no wire connects.

mod changed_part;
mod driven;
mod least;
mod part_netlist;
mod part_run;
mod partition;
mod parts_change;
mod reached;
mod redoing;
mod redone;
mod together;
mod whole_run;

pub use redoing::redo;
