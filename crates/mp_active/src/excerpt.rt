//! Excerpts of a netlist, in which some of its modules and wires go on and all others rest.

pub mod laws;
