//! Value change dumps, as in IEEE Std 1364.

mod change_queue;
mod code;
mod division;
mod dump_batch;
mod dumping;
mod first_places;
pub mod laws;
mod limited;
mod lines;
mod parts;
mod portion;
mod preamble;
mod recorded;
mod room;
mod sharing;
mod time_chunk;
mod timescale;
mod units;
mod value_lines;
mod wave_changes;
mod widths;

pub use dumping::{DumpOptions, put_dump};
pub use timescale::{TimeNumber, TimeUnit, Timescale};
