//! What a change of a netlist reaches is evaluated again, by the simulation that evaluates a netlist.

mod activation;
mod activity;
mod border;
mod change;
mod coming;
mod entered_window;
mod finishing;
mod first_activity;
mod first_simulation;
mod following;
mod idle;
mod join;
mod joining;
mod joining_states;
mod last_wave;
mod next_step;
mod old_state;
mod redoing;
mod rerun;
mod rerun_context;
mod resting;
mod returning;
mod setting;
mod settling;
mod sleeping;
mod splicing;
mod starting;
mod tasks;
mod turning_on;
mod unit;
mod window;

pub use redoing::redo;
pub use rerun_context::RerunContext;
