//! The waves of a netlist, by the quickest way that finds them.

mod busy;
mod finding;

pub use finding::find_waves;
