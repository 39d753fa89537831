//! A whole run of a netlist: its beginning, its units, and its waves.

mod beginning;
mod delays;
mod finishing;
mod first_levels;
mod layout;
mod narrow;
mod numbering;
mod seating;
mod settling;
mod stimuli;
mod waves_run;
mod widths;
mod wiring;

pub use beginning::begin;
pub use finishing::found_waves;
pub use layout::Layout;
pub use narrow::is_narrow;
pub use seating::data_module;
pub use settling::all_outputs;
pub use stimuli::{HeardChanges, Stimuli, StimulusChange};
pub use waves_run::{WavesRun, is_seen_at_rest};
pub use wiring::{WiredInputs, Wiring};
