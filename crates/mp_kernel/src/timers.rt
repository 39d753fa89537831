//! A timer wheel of numbers.

pub mod laws;
mod timer_wheel;

pub use timer_wheel::{NEVER, TimerWheel};
