//! A source read line by line.

mod line_reader;
mod line_room;
mod reading;
mod source_chunk;
mod too_long;

pub use line_reader::LineReader;
pub use too_long::{LINE_BYTES, TooLong};
