//! Events of wires of width 1: the event wheel, the fanout, and the loops of a unit.

mod adding;
mod batches;
mod fanout;
mod fanout_entry;
mod fanout_row;
mod firing;
mod late_toggles;
pub mod laws;
mod output_port;
mod output_ports;
mod output_table;
mod packed_port;
mod slot;
mod toggling;
mod wave_table;
mod wheel;

pub use adding::{add_event, add_fanout_events};
pub use fanout::Fanout;
pub use fanout_entry::FanoutEntry;
pub use fanout_row::FanoutRow;
pub use firing::{fire_modules, schedule_copies, schedule_if};
pub use output_port::OutputPort;
pub use output_ports::OutputPorts;
pub use output_table::OutputTable;
pub use slot::Slot;
pub use toggling::toggle_wires;
pub use wave_table::WaveTable;
pub use wheel::Wheel;

/// The wires that toggle in one unit.
pub type EventSlot = Slot<u32>;

/// The wires that toggle in the units to come.
pub type EventWheel = Wheel<u32>;
