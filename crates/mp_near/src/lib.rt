//! An edit is evaluated again in a region of its netlist, where it reaches no more than that.
//!
//! `redoing` has `redo_edit`, which sessions call. `reach` finds what an edit reaches, `region` makes a small netlist of it, before the edit and after
//! it, and `runs` takes the run of the one from the old run and puts the run of the other into the new one.
//! `laws` has what the levels, states, runs and work of a netlist and of a region of it have to do with each other.
#![tactic(auto)]

pub mod laws;
mod reach;
mod redoing;
mod region;
mod revision;
mod runs;

pub use redoing::redo_edit;
