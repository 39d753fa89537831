//! The waves of a picture as WaveJSON.

pub mod laws;
mod signal;
mod wave_characters;
mod wave_json;
mod wave_values;

pub use wave_json::put_wave_json;
