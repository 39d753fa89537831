//! The parts of a simulation: the event wheel, the fanout of wires, and modules that fire.
//!
//! `events` has the event wheel, the fanout, and the loops of a unit over modules of width 1, which answer their events as automata (those of
//! `mp_modules`). `datapath` has the same for modules with data, and `timers` a timer wheel of numbers. Begin with `events/wheel.rt`.
#![tactic(auto)]

pub mod datapath;
pub mod events;
pub mod timers;

pub use datapath::{
    DataModule, DataPorts, LevelChange, LevelSlot, LevelWheel, fire_data_modules,
    schedule_level_copies, schedule_level_if, set_levels, toggle_levels,
};
pub use events::{
    EventSlot, EventWheel, Fanout, FanoutEntry, FanoutRow, OutputPort, OutputPorts, OutputTable,
    Slot, WaveTable, Wheel, add_event, add_fanout_events, fire_modules, schedule_copies,
    schedule_if, toggle_wires,
};
pub use timers::{NEVER, TimerWheel};
