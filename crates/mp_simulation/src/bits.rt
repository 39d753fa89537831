//! A simulator of modules of width 1, and why it is right.

mod delayed_copies;
pub mod laws;
mod simulation;
mod simulator;

pub use delayed_copies::DelayedCopies;
pub use simulation::Simulation;
pub use simulator::Simulator;
