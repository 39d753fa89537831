//! Whether a netlist repeats for ever, how fast, and which causes set its pace.
//!
//! Begin with `specs/SteadyLines.antt`, which says what is written. `wire_inputs` and `control` have the sets of wires that depend on no others, `run_times`
//! and `period` find the period, and `cycle` the critical cycle.
#![tactic(auto)]

mod control;
mod cycle;
mod lines;
mod period;
mod repeats;
mod run_times;
mod states;
mod wave_repeats;
mod wire_inputs;
mod wire_set;

pub use lines::put_steady;
