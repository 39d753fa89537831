//! The simulation of the active modules of an edited netlist.
//!
//! `excerpt` and `agreement` say what it means that some modules are active and all others rest as in the old run. `compare` compares the new run
//! with the old one, wire by wire, and `steps` lets modules join and leave between two units.
#![tactic(auto)]

pub mod agreement;
pub mod compare;
pub mod excerpt;
pub mod steps;

pub use compare::{
    Change, Comparison, NewChanges, Numbers, SetWires, WireSource, changed_stimuli, find_near,
    rests_near,
};
pub use steps::{
    OldWire, put_change, put_old_changes, put_to_sleep, seat_bits, seat_data, take_changes,
    turn_copies_on, turn_on,
};
