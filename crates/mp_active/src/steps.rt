//! The steps between two units by which a simulation goes from one excerpt of a netlist to another.

mod copying;
pub mod laws;
mod seating;
mod set_wave;
mod sleeping;
mod taking;
mod turning_on;
mod wheel_entries;

pub use seating::{seat_bits, seat_data};
pub use sleeping::put_to_sleep;
pub use taking::take_changes;
pub use turning_on::{turn_copies_on, turn_on};
pub use wheel_entries::{OldWire, put_change, put_old_changes};
