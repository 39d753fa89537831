//! Waveforms: the levels of a wire over time, as lists of changes.
#![tactic(auto)]

mod held;
pub mod laws;
mod pairs;
mod search;
mod toggle_wave;
mod wave;
mod wave_builder;
mod wave_changes;
mod wave_error;

pub use toggle_wave::ToggleWave;
pub use wave::Wave;
pub use wave_builder::WaveBuilder;
pub use wave_changes::WaveChanges;
pub use wave_error::{WaveCause, WaveError};
