//! Messages between partitions of a netlist, and the lines that carry them.

mod channels;
mod given_up;
mod line;
mod line_rule;
mod lines;
mod message;

pub use channels::Channels;
pub use given_up::GivenUp;
pub use lines::Lines;
pub use message::{Subject, Window};
