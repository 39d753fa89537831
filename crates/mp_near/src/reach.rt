//! What an edit reaches.

mod named;
mod numbering;
mod ports;
mod reached;
mod witness;

pub(crate) use numbering::Numbering;
pub(crate) use ports::{is_marked, mark_inputs, mark_outputs};
pub(crate) use reached::{Reached, find_reached};
