//! Modules with data, the levels that they read, and the levels to come.

mod data_module;
mod data_ports;
mod firing;
mod level_change;
mod level_scheduling;
mod levels;

use crate::events::{Slot, Wheel};
pub use data_module::DataModule;
pub use data_ports::DataPorts;
pub use firing::fire_data_modules;
pub use level_change::LevelChange;
pub use level_scheduling::{schedule_level_copies, schedule_level_if};
pub use levels::{set_levels, toggle_levels};

/// The levels that wires with data get in one unit.
pub type LevelSlot = Slot<LevelChange>;

/// The levels that wires with data get in the units to come.
pub type LevelWheel = Wheel<LevelChange>;
